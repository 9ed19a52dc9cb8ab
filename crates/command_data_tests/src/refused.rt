use crate::bodies::CASES;
use crate::values::ends_absent;
use command_data::decode_data;
use command_fields::{DecodeError, DecodeFault};
use std::alloc::Global;
use std::process::Abort;
use std::test::Fail;

/// The bytes are no command, for this fault.
fn is_refused<R: Abort>(rt: &R, alloc: Global, bytes: &[u8], fault: DecodeFault, text: &str) {
    match decode_data(alloc, bytes) {
        Err(DecodeError::Fault(told)) => assert_eq!(rt; told, fault, "{text}"),
        _ => panic!(rt; "{text}"),
    }
}

/// The first byte of the field in which a body of these bytes ends.
fn cut_field(places: &[usize], len: usize) -> usize {
    let mut found = 0;
    for place in places {
        if *place <= len {
            found = *place;
        }
    }
    found
}

/// What is left of a body is refused where its cut field begins, or is a command without its last field.
fn is_cut<R: Abort>(
    rt: &R,
    alloc: Global,
    bytes: &[u8],
    places: &[usize],
    absent: Option<usize>,
    text: &str,
) {
    if absent == Some(bytes.len()) {
        match decode_data(alloc, bytes) {
            Ok(command) => assert!(rt; ends_absent(&command), "{text}"),
            Err(_) => panic!(rt; "{text}"),
        }
        return;
    }
    let place = cut_field(places, bytes.len());
    is_refused(rt, alloc, bytes, DecodeFault::Short { place }, text);
}

/// Each front of a body, but all of it.
fn fronts_are_cut<R: Abort>(
    rt: &R,
    alloc: Global,
    text: &str,
    places: &[usize],
    absent: Option<usize>,
) -> Result<(), Fail> {
    let body = hex::decode(alloc, text)?;
    let body = body.as_slice();
    for len in 0..body.len() {
        is_cut(rt, alloc, &body[..len], places, absent, text);
    }
    Ok(())
}

#[test]
fn a_front_is_refused_where_its_cut_field_begins(rt: HostRuntime) -> Result<(), Fail> {
    for (_, text, places, absent) in CASES {
        fronts_are_cut(&rt, rt.alloc(), text, places, absent)?;
    }
    Ok(())
}

/// One byte behind the body is too many, or the front of a last field that was absent.
fn is_refused_longer<R: Abort>(
    rt: &R,
    alloc: Global,
    text: &str,
    absent: Option<usize>,
) -> Result<(), Fail> {
    let mut body = hex::decode(alloc, text)?;
    let place = body.len();
    body.push(0).map_err(|_| "no memory")?;
    let fault = if absent == Some(place) {
        DecodeFault::Short { place }
    } else {
        DecodeFault::Long { place }
    };
    is_refused(rt, alloc, body.as_slice(), fault, text);
    Ok(())
}

#[test]
fn a_byte_more_is_refused_at_the_end(rt: HostRuntime) -> Result<(), Fail> {
    for (_, text, _, absent) in CASES {
        is_refused_longer(&rt, rt.alloc(), text, absent)?;
    }
    Ok(())
}

/// What is wrong, the body in hexadecimal, and the fault.
type Case = (&'static str, &'static str, DecodeFault);

const REFUSED: [Case; 22] = [
    ("key 0", "00000001", DecodeFault::UnknownKey { place: 0 }),
    (
        "a command of another kind",
        "000d000100000007",
        DecodeFault::UnknownKey { place: 0 },
    ),
    (
        "no answer to a publication",
        "80020001000000070001",
        DecodeFault::UnknownKey { place: 0 },
    ),
    (
        "no answer to a delivery",
        "80080001000000070001",
        DecodeFault::UnknownKey { place: 0 },
    ),
    (
        "a plain response of another kind",
        "800d0001000000070001",
        DecodeFault::UnknownKey { place: 0 },
    ),
    (
        "an unknown key before a wrong version",
        "00ff0002",
        DecodeFault::UnknownKey { place: 0 },
    ),
    (
        "offset type 6",
        "0007000100000007030001730006000a",
        DecodeFault::OffsetType { place: 12 },
    ),
    (
        "offset type 256",
        "0007000100000007030001730100000a",
        DecodeFault::OffsetType { place: 12 },
    ),
    (
        "a header of another magic",
        "00080001034001000200000003000000000000000400000000000000050000000000000006000000070000000200000009000000006162",
        DecodeFault::Flag { place: 5 },
    ),
    (
        "a header of another version",
        "00080001035101000200000003000000000000000400000000000000050000000000000006000000070000000200000009000000006162",
        DecodeFault::Flag { place: 5 },
    ),
    (
        "a header of another kind",
        "00080001035003000200000003000000000000000400000000000000050000000000000006000000070000000200000009000000006162",
        DecodeFault::Flag { place: 5 },
    ),
    (
        "a header with a reserved byte",
        "00080001035001000200000003000000000000000400000000000000050000000000000006000000070000000200000009000000016162",
        DecodeFault::Flag { place: 5 },
    ),
    (
        "a wrong header that is not whole",
        "00080001034001000200000003000000000000000400000000000000050000000000000006000000070000000200000009000000",
        DecodeFault::Short { place: 5 },
    ),
    (
        "a payload one byte short",
        "00080001035001000200000003000000000000000400000000000000050000000000000006000000070000000300000009000000006162",
        DecodeFault::Short { place: 53 },
    ),
    (
        "a payload one byte long",
        "00080001035001000200000003000000000000000400000000000000050000000000000006000000070000000100000009000000006162",
        DecodeFault::Long { place: 54 },
    ),
    (
        "a wrong header behind a committed offset",
        "000800020300000000000000aa4001000200000003000000000000000400000000000000050000000000000006000000070000000200000009000000006162",
        DecodeFault::Flag { place: 13 },
    ),
    (
        "a payload one byte short behind a committed offset",
        "000800020300000000000000aa5001000200000003000000000000000400000000000000050000000000000006000000070000000300000009000000006162",
        DecodeFault::Short { place: 61 },
    ),
    (
        "a payload one byte long behind a committed offset",
        "000800020300000000000000aa5001000200000003000000000000000400000000000000050000000000000006000000070000000100000009000000006162",
        DecodeFault::Long { place: 62 },
    ),
    (
        "a reference of -2 bytes",
        "000100010000000702fffe000173",
        DecodeFault::Negative { place: 9 },
    ),
    (
        "a reference of -32,768 bytes",
        "0001000100000007028000000173",
        DecodeFault::Negative { place: 9 },
    ),
    (
        "a stream of -2 bytes",
        "000a0001000172fffe0000000000000009",
        DecodeFault::Negative { place: 7 },
    ),
    (
        "-1 items",
        "0002000102ffffffff",
        DecodeFault::Negative { place: 5 },
    ),
];

#[test]
fn the_first_wrong_field_is_told(rt: HostRuntime) -> Result<(), Fail> {
    for (wrong, text, fault) in REFUSED {
        let body = hex::decode(rt.alloc(), text)?;
        is_refused(&rt, rt.alloc(), body.as_slice(), fault, wrong);
    }
    Ok(())
}

/// Bodies of a version that their key has not.
const OTHER_VERSIONS: [&str; 8] = [
    "00080003",
    "00080000",
    "00080100",
    "0009000205000a",
    "0009000003000a",
    "0009010103000a",
    "00070002",
    "8001000200000007000a",
];

#[test]
fn other_versions_are_refused(rt: HostRuntime) -> Result<(), Fail> {
    for text in OTHER_VERSIONS {
        let body = hex::decode(rt.alloc(), text)?;
        let fault = DecodeFault::Version { place: 2 };
        is_refused(&rt, rt.alloc(), body.as_slice(), fault, text);
    }
    Ok(())
}
