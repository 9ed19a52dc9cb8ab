use crate::views::{MESSAGE, OPENING, next_pass, stored};
use chunk_format::{ChunkKind, Stored};
use committed_view::{ViewPass, ViewWriter, open_view};
use std::alloc::{AllocError, Global};
use std::sync::Wait;
use std::test::Fail;
use std::thread::{Threads, join};

/// How many chunks are published, each by itself.
const MANY: usize = 100_000;

/// Publishes one and the other in turn. The writer comes back where all was published.
fn publish_all<R: Wait + Drop>(
    mut writer: ViewWriter<R>,
    one: &[Stored],
    other: &[Stored],
) -> Option<ViewWriter<R>> {
    for place in 0..MANY {
        let chunk = if place % 2 == 0 { one } else { other };
        if writer.publish(chunk).is_err() {
            return None;
        }
    }
    Some(writer)
}

/// Whether the chunks from a place on are snapshots and messages in turn.
fn are_in_turn(list: &[Stored], from: usize) -> bool {
    for place in from..list.len() {
        let is_snapshot = matches!(list[place].header().kind, ChunkKind::Snapshot);
        if is_snapshot != (place % 2 == 0) {
            return false;
        }
    }
    true
}

/// Polls until all is published, or until the writer is gone. It tells how many chunks were polled last, and whether each
/// list went on from the one before.
fn poll_all<R: Wait>(rt: &R, mut pass: ViewPass) -> (usize, bool) {
    let mut seen = 0;
    for _ in rt.forever() {
        let Ok(guard) = pass.poll() else {
            break;
        };
        let list = guard.chunks();
        if list.len() < seen || !are_in_turn(list, seen) {
            return (seen, false);
        }
        seen = list.len();
        if seen >= MANY {
            break;
        }
    }
    (seen, true)
}

/// One thread publishes and one polls.
fn race<R: Threads + Wait + Sync>(
    rt: &R,
    alloc: Global,
    one: &[Stored],
    other: &[Stored],
) -> Result<(bool, (usize, bool)), AllocError> {
    let (writer, passes) = open_view(rt, alloc, 1)?;
    let pass = next_pass(&mut passes.into_vec())?;
    let (published, seen) = join(
        rt,
        move || publish_all(writer, one, other),
        move || poll_all(rt, pass),
    );
    Ok((published.is_some(), seen))
}

#[test]
fn a_reader_beside_the_writer_sees_prefixes(rt: HostRuntime) -> Result<(), Fail> {
    let alloc = rt.alloc();
    let one = vec![in alloc; stored(alloc, OPENING)?]?;
    let other = vec![in alloc; stored(alloc, MESSAGE)?]?;
    assert_eq!(rt;
        race(&rt, alloc, one.as_slice(), other.as_slice())?,
        (true, (MANY, true))
    );
    Ok(())
}
