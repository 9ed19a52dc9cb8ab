use command_fields::DecodeFault;
use command_reader::{
    CLIENT_FRAME_MAX, CommandReader, Next, SERVER_FRAME_MAX, answers_are_of_the_bytes,
    the_bytes_alone_count,
};
use std::alloc::{AllocError, Global};
use std::test::Fail;

/// A message that is published, and its confirm.
const TWO_COMMANDS: &str =
    "0000001600020001000000000100000000000000010000000161000000110003000100000000010000000000000001";

/// What an answer tells.
#[derive(Clone, Copy, Debug, PartialEq, Eq)]
enum Told {
    Command,
    Unspelt(DecodeFault),
    TooLarge(u32),
    More,
}

/// Bytes behind two commands, and what is told of them.
const ENDS: [(&str, Told); 9] = [
    ("", Told::More),
    ("000000", Told::More),
    ("00000004001700", Told::More),
    ("00100000", Told::More),
    ("00100001", Told::TooLarge(1_048_577)),
    ("0000000100", Told::Unspelt(DecodeFault::Short { place: 0 })),
    (
        "00000004001f0001",
        Told::Unspelt(DecodeFault::UnknownKey { place: 0 }),
    ),
    (
        "0000000400170002",
        Told::Unspelt(DecodeFault::Version { place: 2 }),
    ),
    (
        "000000050017000100",
        Told::Unspelt(DecodeFault::Long { place: 4 }),
    ),
];

fn next_told(reader: &mut CommandReader) -> Result<Told, AllocError> {
    match reader.next()? {
        Next::Command(_) => Ok(Told::Command),
        Next::Unspelt { fault } => Ok(Told::Unspelt(fault)),
        Next::TooLarge { size } => Ok(Told::TooLarge(size)),
        Next::More => Ok(Told::More),
    }
}

/// Whether two commands are given, and then this for ever, unless more is wanted.
fn ends_so(alloc: Global, end: &[u8], wanted: Told) -> Result<bool, Fail> {
    let commands = hex::decode(alloc, TWO_COMMANDS)?;
    let mut reader = CommandReader::new(alloc, SERVER_FRAME_MAX);
    reader.feed(commands.as_slice())?;
    reader.feed(end)?;
    for _ in 0..2 {
        if next_told(&mut reader)? != Told::Command {
            return Ok(false);
        }
    }
    for _ in 0..3 {
        if next_told(&mut reader)? != wanted {
            return Ok(false);
        }
        if wanted != Told::More {
            reader.feed(commands.as_slice())?;
        }
    }
    Ok(true)
}

#[test]
fn commands_before_the_end_are_given(rt: HostRuntime) -> Result<(), Fail> {
    for (text, wanted) in ENDS {
        let end = hex::decode(rt.alloc(), text)?;
        assert!(rt; ends_so(rt.alloc(), end.as_slice(), wanted)?, "at {text}");
    }
    answers_are_of_the_bytes();
    the_bytes_alone_count();
    Ok(())
}

#[test]
fn a_client_takes_larger_frames(rt: HostRuntime) -> Result<(), Fail> {
    let mut reader = CommandReader::new(rt.alloc(), CLIENT_FRAME_MAX);
    reader.feed(&[0, 0x20, 0, 0])?;
    assert_eq!(rt; next_told(&mut reader)?, Told::More);
    let mut reader = CommandReader::new(rt.alloc(), CLIENT_FRAME_MAX);
    reader.feed(&[0, 0x20, 0, 1])?;
    assert_eq!(rt; next_told(&mut reader)?, Told::TooLarge(2_097_153));
    Ok(())
}
