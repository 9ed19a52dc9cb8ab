//! Frames in pieces, and several connections.

use crate::replays::replays_as;
use crate::values::{ONE_MESSAGE_GIVES, OPENING};
use outside_io::MemorySource;
use std::alloc::{AllocError, Global};
use std::process::Abort;
use std::test::Fail;

/// A Publish of id 1 with the one byte `a`, by publisher 0, as hexadecimal text.
const FIRST: &[u8] = b"0000001600020001000000000100000000000000010000000161";

/// The same of id 2 and `b`.
const SECOND: &[u8] = b"0000001600020001000000000100000000000000020000000162";

/// A Publish of two connections, each message with its chunk and its confirm.
const BOTH_GIVE: &str =
    "k 1 5000000100000001000000000000000000000000000000010000000000000001e58c97920000000500000000000000000000000161
k 1 50000001000000010000000000000000000000000000000100000000000000027c85c6280000000500000000000000000000000162
> 1 000000110003000100000000010000000000000001
> 2 000000110003000100000000010000000000000002
end
";

/// Scripts behind `n s` and `b 1 s`, and what they give behind the opening chunk.
const SERVED: [(&str, &str); 10] = [
    // three credits in two pieces
    (
        "c 1 000000070009000105000a000000070009000106000a0000000700\nc 1 09000107000a\n",
        "> 1 0000000780090001000405\n> 1 0000000780090001000406\n> 1 0000000780090001000407\n",
    ),
    // credit without a subscription
    (
        "c 1 000000070009000105000a\n",
        "> 1 0000000780090001000405\n",
    ),
    // a null reference, and an empty one
    (
        "c 1 0000000e000100010000000702ffff000173\n",
        "> 1 0000000a80010001000000070001\n",
    ),
    (
        "c 1 0000000e0001000100000007020000000173\n",
        "> 1 0000000a80010001000000070001\n",
    ),
    // no such stream, also of an id that is declared
    (
        "c 1 0000000e000100010000000702ffff000178\n",
        "> 1 0000000a80010001000000070002\n",
    ),
    (
        "c 1 0000000d000100010000000700ffffffff\n",
        "> 1 0000000a80010001000000070002\n",
    ),
    // publisher 0 is declared
    (
        "c 1 0000000e000100010000000700ffff000173\n",
        "> 1 0000000a80010001000000070011\n",
    ),
    // an undeclared publisher, and one that is declared in the same piece
    (
        "c 1 0000001600020001010000000100000000000000010000000161\ns 1\np 1\n",
        "> 1 0000001300040001010000000100000000000000010012\n",
    ),
    (
        "c 1 0000000e000100010000000701ffff0001730000001600020001010000000100000000000000010000000161\ns 1\np 1\np 1\n",
        "> 1 0000000a80010001000000070001\nk 1 5000000100000001000000000000000000000000000000010000000000000001e58c97920000000500000000000000000000000161\n> 1 000000110003000101000000010000000000000001\n",
    ),
    // no messages
    ("c 1 00000009000200010700000000\ns 1\np 1\n", ""),
];

/// A line that gives these digits to a connection.
fn give(script: &mut Vec<u8>, connection: &str, digits: &[u8]) -> Result<(), AllocError> {
    script.extend_from_slice(b"c ")?;
    script.extend_from_slice(connection.as_bytes())?;
    script.extend_from_slice(b" ")?;
    script.extend_from_slice(digits)?;
    script.extend_from_slice(b"\n")
}

/// The script of one message whose frame comes in two pieces, the first of so many digits.
fn cut_script(alloc: Global, digits: usize) -> Result<Vec<u8>, AllocError> {
    let mut script = Vec::from_slice(alloc, b"n s\nb 1 s\n")?;
    let (front, back) = FIRST.split_at(digits.min(FIRST.len()));
    give(&mut script, "1", front)?;
    give(&mut script, "1", back)?;
    script.extend_from_slice(b"s 1\np 1\n")?;
    Ok(script)
}

/// The frame cut behind so many digits gives what the whole frame gives.
fn cut_at<R: Abort>(rt: &R, alloc: Global, digits: usize) -> Result<(), Fail> {
    let script = cut_script(alloc, digits)?;
    let mut source = MemorySource::new(alloc, script.as_slice(), &[])?;
    replays_as(rt, alloc, &mut source, 0, ONE_MESSAGE_GIVES.as_bytes())
}

#[test]
fn a_frame_comes_in_two_pieces(rt: HostRuntime) -> Result<(), Fail> {
    for bytes in 1usize..26 {
        cut_at(&rt, rt.alloc(), bytes.saturating_mul(2))?;
    }
    Ok(())
}

#[test]
fn a_first_piece_alone_gives_nothing(rt: HostRuntime) -> Result<(), Fail> {
    let alloc = rt.alloc();
    let gives = format!(in alloc; "{OPENING}end\n")?;
    let mut source = MemorySource::new(alloc, b"n s\nb 1 s\nc 1 0000001600\ns 1\np 1\n", &[])?;
    replays_as(&rt, alloc, &mut source, 0, gives.as_bytes())
}

/// Commands behind `n s` and `b 1 s`, and what they give.
fn is_served<R: Abort>(rt: &R, alloc: Global, lines: &str, given: &str) -> Result<(), Fail> {
    let script = format!(in alloc; "n s\nb 1 s\n{lines}")?;
    let gives = format!(in alloc; "{OPENING}{given}end\n")?;
    let mut source = MemorySource::new(alloc, script.as_bytes(), &[])?;
    replays_as(rt, alloc, &mut source, 0, gives.as_bytes())
}

#[test]
fn commands_are_served(rt: HostRuntime) -> Result<(), Fail> {
    for (lines, given) in SERVED {
        is_served(&rt, rt.alloc(), lines, given)?;
    }
    Ok(())
}

/// The script in which two connections give their frames byte by byte in turn.
fn two_script(alloc: Global) -> Result<Vec<u8>, AllocError> {
    let mut script = Vec::from_slice(alloc, b"n s\nb 1 s\nb 2 s\n")?;
    let mut first = FIRST;
    let mut second = SECOND;
    for _ in 0..FIRST.len() {
        if first.len() < 2 || second.len() < 2 {
            break;
        }
        let (one, rest) = first.split_at(2);
        let (other, left) = second.split_at(2);
        give(&mut script, "1", one)?;
        give(&mut script, "2", other)?;
        first = rest;
        second = left;
    }
    script.extend_from_slice(b"s 1\np 1\np 2\n")?;
    Ok(script)
}

#[test]
fn two_connections_come_byte_by_byte(rt: HostRuntime) -> Result<(), Fail> {
    let alloc = rt.alloc();
    let script = two_script(alloc)?;
    let gives = format!(in alloc; "{OPENING}{BOTH_GIVE}")?;
    let mut source = MemorySource::new(alloc, script.as_slice(), &[])?;
    replays_as(&rt, alloc, &mut source, 0, gives.as_bytes())
}
