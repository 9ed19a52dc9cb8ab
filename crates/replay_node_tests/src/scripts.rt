use crate::replays::replays_as;
use crate::sources::CutSource;
use crate::values::{FOUR_MESSAGES, FOUR_MESSAGES_GIVE, ONE_MESSAGE, ONE_MESSAGE_GIVES};
use frame_wire::Limits;
use outside_io::{MemorySink, MemorySource, SureSink, SureSource};
use replay_node::replay;
use std::alloc::Global;
use std::process::Abort;
use std::test::Fail;

/// A script, the reads and the writes that fail, the status, and how many of the bytes are written.
type Failing = (&'static str, &'static [u64], &'static [u64], u8, usize);

/// What is written is that of no line, of the opening, of the message, of the confirm, or of `end` too.
const FAILING: [Failing; 8] = [
    (ONE_MESSAGE, &[1], &[], 4, 0),
    (ONE_MESSAGE, &[2], &[], 4, 267),
    (ONE_MESSAGE, &[], &[1], 5, 0),
    (ONE_MESSAGE, &[], &[2], 5, 109),
    (ONE_MESSAGE, &[], &[3], 5, 220),
    (ONE_MESSAGE, &[], &[4], 5, 267),
    (ONE_MESSAGE, &[3], &[5], 0, 271),
    ("c 9 00\n", &[], &[1], 5, 0),
];

#[test]
fn one_message_is_committed_and_confirmed(rt: HostRuntime) -> Result<(), Fail> {
    let alloc = rt.alloc();
    let mut script = MemorySource::new(alloc, ONE_MESSAGE.as_bytes(), &[])?;
    replays_as(&rt, alloc, &mut script, 0, ONE_MESSAGE_GIVES.as_bytes())
}

#[test]
fn sure_ends_take_a_script(rt: HostRuntime) -> Result<(), Fail> {
    let mut sure = SureSource::new(rt.alloc(), ONE_MESSAGE.as_bytes())?;
    let mut out = SureSink::new();
    let status = replay(rt.alloc(), &mut sure, &mut out, &Limits::standard());
    assert_eq!(rt; status, 0);
    Ok(())
}

#[test]
fn an_empty_script_ends(rt: HostRuntime) -> Result<(), Fail> {
    let alloc = rt.alloc();
    let mut script = MemorySource::new(alloc, &[], &[])?;
    replays_as(&rt, alloc, &mut script, 0, "end\n".as_bytes())
}

/// A script gives the same in pieces of each size.
fn in_pieces<R: Abort>(rt: &R, alloc: Global, script: &[u8], gives: &[u8]) -> Result<(), Fail> {
    for size in [1usize, 2, 7, 4096] {
        let mut pieces = CutSource { rest: script, size };
        replays_as(rt, alloc, &mut pieces, 0, gives)?;
    }
    Ok(())
}

#[test]
fn a_script_comes_in_pieces(rt: HostRuntime) -> Result<(), Fail> {
    let alloc = rt.alloc();
    in_pieces(
        &rt,
        alloc,
        ONE_MESSAGE.as_bytes(),
        ONE_MESSAGE_GIVES.as_bytes(),
    )?;
    in_pieces(
        &rt,
        alloc,
        FOUR_MESSAGES.as_bytes(),
        FOUR_MESSAGES_GIVE.as_bytes(),
    )
}

/// One replay over failing ends.
fn ends_as<R: Abort>(rt: &R, alloc: Global, case: Failing) -> Result<(), Fail> {
    let (script, bad_reads, bad_writes, wanted, size) = case;
    let mut source = MemorySource::new(alloc, script.as_bytes(), bad_reads)?;
    let mut out = MemorySink::new(alloc, bad_writes)?;
    let status = replay(alloc, &mut source, &mut out, &Limits::standard());
    let written = out.written();
    assert_eq!(rt; status, wanted, "{bad_reads:?} {bad_writes:?}");
    assert_eq!(rt; written.len(), size, "{bad_reads:?} {bad_writes:?}");
    assert!(rt; ONE_MESSAGE_GIVES.as_bytes().starts_with(written));
    Ok(())
}

#[test]
fn failing_ends(rt: HostRuntime) -> Result<(), Fail> {
    for case in FAILING {
        ends_as(&rt, rt.alloc(), case)?;
    }
    Ok(())
}
