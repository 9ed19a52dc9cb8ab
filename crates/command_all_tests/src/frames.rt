use command_all::{Command, decode_command, encode_command, fits, frame};
use command_fields::{DecodeError, DecodeFault};
use std::alloc::{AllocError, Global};
use std::process::Abort;
use std::test::Fail;

/// A message that is published and confirmed.
const ONE_MESSAGE: [&str; 2] = [
    "0000001600020001000000000100000000000000010000000161",
    "000000110003000100000000010000000000000001",
];

/// Credit for three subscriptions that there are not, and its answers.
const CREDITS: [&str; 4] = [
    "000000070009000105000a",
    "0000000780090001000405",
    "000000070009000106000a",
    "0000000780090001000406",
];

/// The opening of a connection, and what keeps it alive.
const OPENING: [&str; 12] = [
    "0000000c001100010000000100000000",
    "0000002c8011000100000001000100000002000770726f64756374000773747265616d64000776657273696f6e000131",
    "000000080012000100000002",
    "0000001580120001000000020001000000010005504c41494e",
    "0000001f00130001000000030005504c41494e0000000c006775657374006775657374",
    "0000000a80130001000000030001",
    "0000000c00140001001000000000003c",
    "0000000b001500010000000400012f",
    "000000418015000100000004000100000002000f616476657274697365645f686f737400096c6f63616c686f7374000f616476657274697365645f706f7274000435353532",
    "0000000400170001",
    "000000190016000100000001000d000d756e6b6e6f776e206672616d65",
    "0000001b0016000100000001000e000f6672616d6520746f6f206c61726765",
];

/// Streams, super streams, subscriptions and offsets, and their answers.
const STREAMS: [&str; 14] = [
    "0000000f000d00010000000500017300000000",
    "0000000a800d0001000000050001",
    "00000012000f00010000000600000002000173000178",
    "00000037800f00010000000600000001000000096c6f63616c686f7374000015b00000000200017300010000000000000001780002ffff00000000",
    "0000000b000e000100000007000173",
    "00000027001d00010000000100016f0000000200036f2d3000036f2d310000000200013000013100000000",
    "0000000e001800010000000200013100016f",
    "00000013801800010000000200010000000100036f2d31",
    "00000018000700010000000500000173000400000000000000020001",
    "0000000a80070001000000050001",
    "00000012000a00010001720001730000000000000001",
    "0000000e000b000100000006000172000173",
    "00000012800b00010000000600130000000000000000",
    "0000000a001a0001000000010001",
];

/// Whether a command fits, has this body, and is framed so.
fn is_framed(
    alloc: Global,
    command: &Command,
    body: &[u8],
    wanted: &[u8],
) -> Result<bool, AllocError> {
    if !fits(command) {
        return Ok(false);
    }
    let written = encode_command(alloc, command)?;
    if written.as_slice() != body {
        return Ok(false);
    }
    let framed = frame(alloc, command)?;
    Ok(framed.as_slice() == wanted)
}

/// Whether a body is a command that has this body again, and is framed so.
fn is_framed_again(alloc: Global, body: &[u8], wanted: &[u8]) -> Result<bool, AllocError> {
    match decode_command(alloc, body) {
        Ok(command) => is_framed(alloc, &command, body, wanted),
        Err(_) => Ok(false),
    }
}

/// A frame is the size of its body and a body that is a command, which gives the frame again.
fn is_read(alloc: Global, text: &str) -> Result<bool, Fail> {
    let bytes = hex::decode(alloc, text)?;
    let Some((_, body)) = bytes.as_slice().split_first_chunk::<4>() else {
        return Ok(false);
    };
    Ok(is_framed_again(alloc, body, bytes.as_slice())?)
}

#[test]
fn conversations_are_read_and_framed_again(rt: HostRuntime) -> Result<(), Fail> {
    for text in ONE_MESSAGE {
        assert!(rt; is_read(rt.alloc(), text)?);
    }
    for text in CREDITS {
        assert!(rt; is_read(rt.alloc(), text)?);
    }
    for text in OPENING {
        assert!(rt; is_read(rt.alloc(), text)?);
    }
    for text in STREAMS {
        assert!(rt; is_read(rt.alloc(), text)?);
    }
    Ok(())
}

/// Bodies of no command, of either half and of neither.
const WRONG: [(&str, DecodeFault); 8] = [
    ("", DecodeFault::Short { place: 0 }),
    ("00", DecodeFault::Short { place: 0 }),
    ("00000001", DecodeFault::UnknownKey { place: 0 }),
    ("001f0001", DecodeFault::UnknownKey { place: 0 }),
    ("80020001000000000001", DecodeFault::UnknownKey { place: 0 }),
    ("0009000205000a", DecodeFault::Version { place: 2 }),
    ("0017000100", DecodeFault::Long { place: 4 }),
    (
        "000100010000000702fffe000173",
        DecodeFault::Negative { place: 9 },
    ),
];

fn is_refused(alloc: Global, body: &[u8], wanted: DecodeFault) -> bool {
    match decode_command(alloc, body) {
        Err(DecodeError::Fault(fault)) => fault == wanted,
        _ => false,
    }
}

#[test]
fn bodies_of_no_command_are_refused(rt: HostRuntime) -> Result<(), Fail> {
    for (text, wanted) in WRONG {
        let body = hex::decode(rt.alloc(), text)?;
        assert!(rt; is_refused(rt.alloc(), body.as_slice(), wanted));
    }
    Ok(())
}
