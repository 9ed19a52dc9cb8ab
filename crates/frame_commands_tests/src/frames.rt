use command_data::DataCommand;
use frame_commands::{Given, commands_have_one_reading, pieces_join, read_commands};
use std::alloc::Global;
use std::process::Abort;
use std::test::Fail;

/// More than each body here has.
const MAX: u32 = 64;

/// Credit of 10 for subscription 5, and of 256 for subscription 6, each in a frame of a body of 7 bytes.
const TWO: [u8; 22] = [
    0, 0, 0, 7, 0, 9, 0, 1, 5, 0, 10, 0, 0, 0, 7, 0, 9, 0, 1, 6, 1, 0,
];

/// These two: the subscription and the credit.
const CREDITS: [(u8, u16); 2] = [(5, 10), (6, 256)];

/// Bytes in hexadecimal, the credits of their frames by subscription, and what is left.
const READ: [(&str, &[(u8, u16)], &[u8]); 7] = [
    ("", &[], &[]),
    ("000000", &[], &[0, 0, 0]),
    ("00000040", &[], &[0, 0, 0, 64]),
    ("000000070009000105000a", &[(5, 10)], &[]),
    ("0000000700090001050000", &[(5, 0)], &[]),
    (
        "000000070009000105000a0000000700090001060100",
        &[(5, 10), (6, 256)],
        &[],
    ),
    (
        "000000070009000105000a0000000700090001060100000000070009",
        &[(5, 10), (6, 256)],
        &[0, 0, 0, 7, 0, 9],
    ),
];

/// Bytes in hexadecimal that are no commands: a size above the greatest, and bodies that spell none.
const REFUSED: [&str; 6] = [
    "00000041",
    "000000070009000105000affffffff00",
    "00000000",
    "0000000400ff0001",
    "000000070009000205000a",
    "000000070009000105000a000000080009000105000a00",
];

fn is_credit(command: &DataCommand, wanted: &(u8, u16)) -> bool {
    match command {
        DataCommand::Credit { sub, credit } => *sub == wanted.0 && *credit == wanted.1,
        _ => false,
    }
}

fn are_credits(given: &Given, wanted: &[(u8, u16)]) -> bool {
    let commands = given.commands.as_slice();
    commands.len() == wanted.len()
        && commands
            .iter()
            .zip(wanted.iter())
            .all(|(command, credit)| is_credit(command, credit))
}

fn read(alloc: Global, max: u32, held: &[u8], piece: &[u8]) -> Result<Given, Fail> {
    match read_commands(alloc, max, held, piece)? {
        Some(given) => Ok(given),
        None => Err(Fail::from("these are no commands")),
    }
}

fn is_read<R: Abort>(
    rt: &R,
    alloc: Global,
    text: &str,
    wanted: &[(u8, u16)],
    rest: &[u8],
) -> Result<(), Fail> {
    let bytes = hex::decode(alloc, text)?;
    let given = read(alloc, MAX, &[], bytes.as_slice())?;
    assert!(rt; are_credits(&given, wanted), "{text}");
    assert_eq!(rt; given.rest.as_slice(), rest, "{text}");
    Ok(())
}

fn is_refused<R: Abort>(rt: &R, alloc: Global, text: &str) -> Result<(), Fail> {
    let bytes = hex::decode(alloc, text)?;
    assert!(rt;
        read_commands(alloc, MAX, &[], bytes.as_slice())?.is_none(),
        "{text}"
    );
    Ok(())
}

/// The first piece gives these credits, and what it leaves and the second those, and both at once give all.
fn is_read_in_two<R: Abort>(
    rt: &R,
    alloc: Global,
    first: (&[u8], &[(u8, u16)]),
    second: (&[u8], &[(u8, u16)]),
) -> Result<(), Fail> {
    let one = read(alloc, MAX, &[], first.0)?;
    assert!(rt; are_credits(&one, first.1));
    let other = read(alloc, MAX, one.rest.as_slice(), second.0)?;
    assert!(rt; are_credits(&other, second.1));
    assert_eq!(rt; other.rest.len(), 0);
    let both = read(alloc, MAX, first.0, second.0)?;
    assert!(rt; are_credits(&both, &CREDITS));
    assert_eq!(rt; both.rest.len(), 0);
    Ok(())
}

#[test]
fn frames_are_read_in_order(rt: HostRuntime) -> Result<(), Fail> {
    for (text, wanted, rest) in READ {
        is_read(&rt, rt.alloc(), text, wanted, rest)?;
    }
    Ok(())
}

#[test]
fn what_is_no_command_is_refused(rt: HostRuntime) -> Result<(), Fail> {
    for text in REFUSED {
        is_refused(&rt, rt.alloc(), text)?;
    }
    Ok(())
}

#[test]
fn two_frames_may_be_cut_anywhere(rt: HostRuntime) -> Result<(), Fail> {
    for cut in 0..23 {
        let (first, second) = TWO.split_at(cut);
        let (before, behind) = CREDITS.split_at(cut / 11);
        is_read_in_two(&rt, rt.alloc(), (first, before), (second, behind))?;
    }
    Ok(())
}

#[test]
fn a_body_may_have_the_greatest_size(rt: HostRuntime) -> Result<(), Fail> {
    commands_have_one_reading();
    pieces_join();
    assert!(&rt; read_commands(rt.alloc(), 7, &[], &TWO)?.is_some());
    assert!(&rt; read_commands(rt.alloc(), 6, &[], &TWO)?.is_none());
    Ok(())
}
