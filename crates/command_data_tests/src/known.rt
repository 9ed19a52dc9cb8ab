use crate::bodies::CASES;
use crate::values::{HEADER, is_command_of};
use chunk_format::Header;
use command_data::{
    DataCommand, data_bodies_have_one_outcome, decode_data, encode_data, fits_data,
};
use frame_wire::{Octets, Text, TextFault};
use std::alloc::Global;
use std::process::Abort;
use std::test::Fail;

/// The body is the command of its key, and the command has this body.
fn is_spelled<R: Abort>(rt: &R, alloc: Global, key: u16, text: &str) -> Result<(), Fail> {
    let body = hex::decode(alloc, text)?;
    let command = decode_data(alloc, body.as_slice())?;
    assert!(rt; is_command_of(key, &command), "{text}");
    assert!(rt; fits_data(&command), "{text}");
    let written = encode_data(alloc, &command)?;
    assert_eq!(rt; written.as_slice(), body.as_slice(), "{text}");
    Ok(())
}

#[test]
fn bodies_by_hand_are_read_and_written_again(rt: HostRuntime) -> Result<(), Fail> {
    for (key, text, _, _) in CASES {
        is_spelled(&rt, rt.alloc(), key, text)?;
    }
    data_bodies_have_one_outcome();
    Ok(())
}

/// A declaration whose reference is these bytes or null.
fn refers_to<R: Abort>(
    rt: &R,
    alloc: Global,
    text: &str,
    bytes: Option<&[u8]>,
) -> Result<(), Fail> {
    let body = hex::decode(alloc, text)?;
    let command = decode_data(alloc, body.as_slice())?;
    match &command {
        DataCommand::DeclarePublisher { reference, .. } => {
            assert_eq!(rt; reference.get(), bytes, "{text}");
        }
        _ => panic!(rt; "{text}"),
    }
    assert!(rt; fits_data(&command), "{text}");
    let written = encode_data(alloc, &command)?;
    assert_eq!(rt; written.as_slice(), body.as_slice(), "{text}");
    Ok(())
}

#[test]
fn null_and_empty_are_two_texts(rt: HostRuntime) -> Result<(), Fail> {
    let alloc = rt.alloc();
    refers_to(&rt, alloc, "000100010000000702ffff000173", None)?;
    refers_to(&rt, alloc, "0001000100000007020000000173", Some(b""))?;
    Ok(())
}

#[test]
fn a_text_of_32768_bytes_is_none(rt: HostRuntime) -> Result<(), Fail> {
    let mut bytes = Octets::new(rt.alloc());
    for _ in 0..32_768 {
        bytes.push_slice(&[0x61])?;
    }
    let Err(fault) = Text::copy(rt.alloc(), bytes.as_slice()) else {
        return Err(Fail::from("a text that is too long"));
    };
    assert_eq!(rt; fault, TextFault::TooLong { len: 32_768 });
    Ok(())
}

/// A delivery of two bytes, with a header of this payload length.
fn delivery(alloc: Global, payload_len: u32) -> Result<DataCommand, Fail> {
    Ok(DataCommand::Deliver {
        sub: 3,
        header: Header {
            payload_len,
            ..HEADER
        },
        payload: Octets::copy(alloc, b"ab")?,
    })
}

#[test]
fn what_has_no_spelling_does_not_fit(rt: HostRuntime) -> Result<(), Fail> {
    for (key, fits) in [
        (0x8001, true),
        (0x8002, false),
        (0x8005, false),
        (0x0001, false),
        (0x800d, false),
    ] {
        let plain = DataCommand::Plain {
            key,
            corr: 7,
            code: 1,
        };
        assert!(rt; fits_data(&plain) == fits, "at {key}");
    }
    for (len, fits) in [(1, false), (2, true), (3, false)] {
        let delivery = delivery(rt.alloc(), len)?;
        assert!(rt; fits_data(&delivery) == fits, "at {len}");
    }
    Ok(())
}
