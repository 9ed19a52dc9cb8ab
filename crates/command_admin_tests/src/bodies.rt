use command_admin::{AdminCommand, decode_admin, encode_admin, fits_admin};
use command_fields::{DecodeError, DecodeFault};
use std::alloc::Global;
use std::process::Abort;
use std::test::Fail;

/// A body in hexadecimal, the places where its fields begin, whether it ends in content that may be absent, and how its
/// command is shown, or the front of that.
type Case = (&'static str, &'static [usize], bool, &'static str);

const CASES: [Case; 34] = [
    (
        "000d0001000000010001730000000100016b000176",
        &[0, 2, 4, 8, 11, 15, 18],
        false,
        "Create { corr: 1, stream: Text { bytes: Some([115]) }, properties: Row { items: [Property",
    ),
    (
        "000e000100000002000173",
        &[0, 2, 4, 8],
        false,
        "Delete { corr: 2, stream: Text { bytes: Some([115]) } }",
    ),
    (
        "000f00010000000300000002000173ffff",
        &[0, 2, 4, 8, 12, 15],
        false,
        "Metadata { corr: 3, items: Row { items: [Text { bytes: Some([115]) }, Text { bytes: None }] } }",
    ),
    (
        "800f000100000004000000010000000168000015b000000001000173000100000000000200010002",
        &[0, 2, 4, 8, 12, 14, 17, 21, 25, 28, 30, 32, 36, 38],
        false,
        "MetadataAnswer { corr: 4, brokers: Row { items: [Broker { reference: 0, host: Text { bytes: Some([104]) }, port: 5552 }] }, streams: Row { items: [StreamMetadata { stream: Text { bytes: Some([115]) }, code: 1, leader: 0, replicas: Row { items: [1, 2] } }] } }",
    ),
    (
        "001000010006000173",
        &[0, 2, 4, 6],
        false,
        "MetadataUpdate { code: 6, stream: Text { bytes: Some([115]) } }",
    ),
    (
        "001100010000000500000000",
        &[0, 2, 4, 8],
        false,
        "PeerProperties { corr: 5, properties: Row { items: [] } }",
    ),
    (
        "801100010000000500010000000100016b000176",
        &[0, 2, 4, 8, 10, 14, 17],
        true,
        "PeerAnswer { corr: 5, code: 1, properties: Some(Row { items: [Property",
    ),
    (
        "0012000100000006",
        &[0, 2, 4],
        false,
        "SaslHandshake { corr: 6 }",
    ),
    (
        "8012000100000006000100000001000150",
        &[0, 2, 4, 8, 10, 14],
        true,
        "MechanismAnswer { corr: 6, code: 1, items: Some(Row { items: [Text { bytes: Some([80]) }] }) }",
    ),
    (
        "0013000100000007000150000000020075",
        &[0, 2, 4, 8, 11],
        false,
        "SaslAuthenticate { corr: 7, mechanism: Text { bytes: Some([80]) }, opaque: Some(Octets { bytes: [0, 117] }) }",
    ),
    (
        "80130001000000070001ffffffff",
        &[0, 2, 4, 8, 10],
        true,
        "SaslAnswer { corr: 7, code: 1, content: Some(None) }",
    ),
    (
        "00140001001000000000003c",
        &[0, 2, 4, 8],
        false,
        "Tune { frame_max: 1048576, heartbeat: 60 }",
    ),
    (
        "801400010010000000000000",
        &[0, 2, 4, 8],
        false,
        "TuneAnswer { frame_max: 1048576, heartbeat: 0 }",
    ),
    (
        "001500010000000800012f",
        &[0, 2, 4, 8],
        false,
        "OpenHost { corr: 8, virtual_host: Text { bytes: Some([47]) } }",
    ),
    (
        "8015000100000008000100000000",
        &[0, 2, 4, 8, 10],
        true,
        "HostAnswer { corr: 8, code: 1, properties: Some(Row { items: [] }) }",
    ),
    (
        "0016000100000009000e000172",
        &[0, 2, 4, 8, 10],
        false,
        "Close { corr: 9, code: 14, reason: Text { bytes: Some([114]) } }",
    ),
    ("00170001", &[0, 2], false, "Heartbeat"),
    (
        "001800010000000a00013100016f",
        &[0, 2, 4, 8, 11],
        false,
        "Route { corr: 10, routing_key: Text { bytes: Some([49]) }, super_stream: Text { bytes: Some([111]) } }",
    ),
    (
        "801800010000000a000100000001000170",
        &[0, 2, 4, 8, 10, 14],
        true,
        "RouteAnswer { corr: 10, code: 1, items: Some(Row { items: [Text",
    ),
    (
        "001900010000000b00016f",
        &[0, 2, 4, 8],
        false,
        "Partitions { corr: 11, super_stream: Text { bytes: Some([111]) } }",
    ),
    (
        "801900010000000b000100000002000170000171",
        &[0, 2, 4, 8, 10, 14, 17],
        true,
        "PartitionsAnswer { corr: 11, code: 1, items: Some(Row { items: [Text",
    ),
    (
        "001a00010000000c0301",
        &[0, 2, 4, 8, 9],
        false,
        "ConsumerUpdate { corr: 12, sub: 3, active: 1 }",
    ),
    (
        "801a00010000000c000100040000000000000002",
        &[0, 2, 4, 8, 10],
        true,
        "UpdateAnswer { corr: 12, code: 1, content: Some(At(2)) }",
    ),
    (
        "001b00010000000d00000001000800010002",
        &[0, 2, 4, 8, 12, 14, 16],
        false,
        "ExchangeVersions { corr: 13, items: Row { items: [KeyVersions { key: 8, least: 1, greatest: 2 }] } }",
    ),
    (
        "801b00010000000d000100000001001e00010001",
        &[0, 2, 4, 8, 10, 14, 16, 18],
        true,
        "VersionsAnswer { corr: 13, code: 1, items: Some(Row { items: [KeyVersions { key: 30, least: 1, greatest: 1 }] }) }",
    ),
    (
        "001c00010000000e000173",
        &[0, 2, 4, 8],
        false,
        "StreamStats { corr: 14, stream: Text { bytes: Some([115]) } }",
    ),
    (
        "801c00010000000e00010000000100016effffffffffffffff",
        &[0, 2, 4, 8, 10, 14, 17],
        true,
        "StatsAnswer { corr: 14, code: 1, items: Some(Row { items: [Statistic { name: Text { bytes: Some([110]) }, value: -1 }] }) }",
    ),
    (
        "001d00010000000f00016f000000010001700000000100013100000000",
        &[0, 2, 4, 8, 11, 15, 18, 22, 25],
        false,
        "CreateSuper { corr: 15, name: Text { bytes: Some([111]) }, partitions: Row { items: [Text { bytes: Some([112]) }] }, keys: Row { items: [Text { bytes: Some([49]) }] }, properties: Row { items: [] } }",
    ),
    (
        "001e00010000001000016f",
        &[0, 2, 4, 8],
        false,
        "DeleteSuper { corr: 16, name: Text { bytes: Some([111]) } }",
    ),
    (
        "800d0001000000110002",
        &[0, 2, 4, 8],
        false,
        "Plain { key: 32781, corr: 17, code: 2 }",
    ),
    (
        "800e0001000000110002",
        &[0, 2, 4, 8],
        false,
        "Plain { key: 32782, corr: 17, code: 2 }",
    ),
    (
        "80160001000000110002",
        &[0, 2, 4, 8],
        false,
        "Plain { key: 32790, corr: 17, code: 2 }",
    ),
    (
        "801d0001000000110002",
        &[0, 2, 4, 8],
        false,
        "Plain { key: 32797, corr: 17, code: 2 }",
    ),
    (
        "801e0001000000110002",
        &[0, 2, 4, 8],
        false,
        "Plain { key: 32798, corr: 17, code: 2 }",
    ),
];

/// A connection that opens and then says nothing: sizes and bodies.
const OPENING_AND_SILENCE: [&str; 10] = [
    "0000000c001100010000000100000000",
    "0000002c8011000100000001000100000002000770726f64756374000773747265616d64000776657273696f6e000131",
    "000000080012000100000002",
    "0000001580120001000000020001000000010005504c41494e",
    "0000001f00130001000000030005504c41494e0000000c006775657374006775657374",
    "0000000a80130001000000030001",
    "0000000c00140001001000000000003c",
    "0000000b001500010000000400012f",
    "000000418015000100000004000100000002000f616476657274697365645f686f737400096c6f63616c686f7374000f616476657274697365645f706f7274000435353532",
    "0000000400170001",
];

/// A stream that is created, asked for and deleted: sizes and bodies.
const CREATE_METADATA_DELETE: [&str; 5] = [
    "0000000f000d00010000000500017300000000",
    "0000000a800d0001000000050001",
    "00000012000f00010000000600000002000173000178",
    "00000037800f00010000000600000001000000096c6f63616c686f7374000015b00000000200017300010000000000000001780002ffff00000000",
    "0000000b000e000100000007000173",
];

/// A super stream that is created, and a route through it: sizes and bodies.
const SUPER_STREAM_AND_ROUTE: [&str; 4] = [
    "00000027001d00010000000100016f0000000200036f2d3000036f2d310000000200013000013100000000",
    "0000000a801d0001000000010001",
    "0000000e001800010000000200013100016f",
    "00000013801800010000000200010000000100036f2d31",
];

/// The place of the last field that begins at or before a place.
fn field_at(starts: &[usize], place: usize) -> usize {
    let mut found = 0;
    for start in starts {
        if *start <= place {
            found = *start;
        }
    }
    found
}

/// A body of a command and the command's own body are the same bytes.
fn is_written_again<R: Abort>(
    rt: &R,
    alloc: Global,
    command: &AdminCommand,
    body: &[u8],
) -> Result<(), Fail> {
    if !fits_admin(command) {
        return Err(Fail::from("a command that was read fits"));
    }
    let written = encode_admin(alloc, command)?;
    assert_eq!(rt; written.as_slice(), body);
    Ok(())
}

fn is_read<R: Abort>(rt: &R, alloc: Global, body: &[u8], shown: &str) -> Result<(), Fail> {
    let command = decode_admin(alloc, body)?;
    let text = format!(in alloc; "{command:?}")?;
    assert!(rt; text.as_str().starts_with(shown), "{text}");
    is_written_again(rt, alloc, &command, body)
}

#[test]
fn bodies_are_read_and_written_again(rt: HostRuntime) -> Result<(), Fail> {
    for (text, _, _, shown) in CASES {
        let body = hex::decode(rt.alloc(), text)?;
        is_read(&rt, rt.alloc(), body.as_slice(), shown)?;
    }
    Ok(())
}

/// A body that ends early is short at the field that it ends in.
fn is_short_at<R: Abort>(rt: &R, alloc: Global, body: &[u8], place: usize) -> Result<(), Fail> {
    match decode_admin(alloc, body) {
        Err(DecodeError::Fault(fault)) => {
            assert_eq!(rt; fault, DecodeFault::Short { place });
            Ok(())
        }
        _ => Err(Fail::from("a body that ends early was read")),
    }
}

/// Each front of a body but one that ends before the content is refused.
fn has_short_fronts<R: Abort>(
    rt: &R,
    alloc: Global,
    body: &[u8],
    starts: &[usize],
    absent: bool,
) -> Result<(), Fail> {
    for len in 0..body.len() {
        let (front, _) = body.split_at(len);
        if absent && len == 10 {
            is_read(rt, alloc, front, "")?;
        } else {
            is_short_at(rt, alloc, front, field_at(starts, len))?;
        }
    }
    Ok(())
}

#[test]
fn fronts_of_bodies_are_short(rt: HostRuntime) -> Result<(), Fail> {
    for (text, starts, absent, _) in CASES {
        let body = hex::decode(rt.alloc(), text)?;
        has_short_fronts(&rt, rt.alloc(), body.as_slice(), starts, absent)?;
    }
    Ok(())
}

fn is_refused<R: Abort>(
    rt: &R,
    alloc: Global,
    body: &[u8],
    wanted: DecodeFault,
) -> Result<(), Fail> {
    match decode_admin(alloc, body) {
        Err(DecodeError::Fault(fault)) => {
            assert_eq!(rt; fault, wanted);
            Ok(())
        }
        _ => Err(Fail::from("a wrong body was read")),
    }
}

/// Bodies that are wrong and not short.
const WRONG: [(&str, DecodeFault); 7] = [
    ("00010001", DecodeFault::UnknownKey { place: 0 }),
    ("800f0002", DecodeFault::Version { place: 2 }),
    ("0017000100", DecodeFault::Long { place: 4 }),
    ("000e000100000001000173ff", DecodeFault::Long { place: 11 }),
    ("000e000100000001fffe", DecodeFault::Negative { place: 8 }),
    ("001a0001000000010302", DecodeFault::Flag { place: 9 }),
    (
        "801a00010000000100010006",
        DecodeFault::OffsetType { place: 10 },
    ),
];

#[test]
fn wrong_bodies_are_refused(rt: HostRuntime) -> Result<(), Fail> {
    for (text, wanted) in WRONG {
        let body = hex::decode(rt.alloc(), text)?;
        is_refused(&rt, rt.alloc(), body.as_slice(), wanted)?;
    }
    Ok(())
}

/// A frame is the size of its body and a body that is read and written again.
fn is_frame<R: Abort>(rt: &R, alloc: Global, text: &str) -> Result<(), Fail> {
    let frame = hex::decode(alloc, text)?;
    let Some((_, body)) = frame.as_slice().split_first_chunk::<4>() else {
        return Err(Fail::from("a frame has a size"));
    };
    is_read(rt, alloc, body, "")
}

#[test]
fn frames_of_connections_are_read_and_written_again(rt: HostRuntime) -> Result<(), Fail> {
    for text in OPENING_AND_SILENCE {
        is_frame(&rt, rt.alloc(), text)?;
    }
    for text in CREATE_METADATA_DELETE {
        is_frame(&rt, rt.alloc(), text)?;
    }
    for text in SUPER_STREAM_AND_ROUTE {
        is_frame(&rt, rt.alloc(), text)?;
    }
    Ok(())
}
