ghost use Rattle.std.specs.Prelude.{◌≡◌, length, IfOk, OnOk, OnErr};
ghost use Rattle.committed_view.specs.Published.{newest, Polls, PollFails};

use chunk_format::Stored;
use committed_view::{ViewPass, open_view};
use std::alloc::{AllocError, Global};
use std::mem::forget;
use std::test::Fail;

/// The snapshot with which epoch 1 opens at offset 0.
pub const OPENING: &str =
    "50020001000000010000000000000000000000000000000100000000000000002144df1c00000004000000000000000000000000";

/// A user chunk of one message at offset 1.
pub const MESSAGE: &str =
    "5000000100000001000000000000000000000000000000010000000000000001e58c97920000000500000000000000000000000161";

/// The chunk that hexadecimal text spells.
pub fn stored(alloc: Global, text: &str) -> Result<Stored, Fail> {
    let bytes = hex::decode(alloc, text)?;
    Ok(Stored::read(alloc, bytes.as_slice())?.stored)
}

/// The pass at the end of those that are left.
pub fn next_pass(passes: &mut Vec<ViewPass>) -> Result<ViewPass, AllocError> {
    match passes.pop() {
        Some(pass) => Ok(pass),
        None => Err(AllocError),
    }
}

/// How many chunks a pass polls.
fn polled(pass: &mut ViewPass) -> Result<usize, AllocError>
    ensures polls { OnOk result (Polls pass.old.known (newest pass.new.known.published) pass.new.known) }
    ensures count { IfOk result (λ count. count ≡ length (newest pass.new.known.published)) }
    ensures fails { OnErr result (PollFails pass.old.known pass.new.known) }
{
    let guard = pass.poll()?;
    Ok(guard.chunks().len())
}

/// Whether a pass polls just these chunks.
fn polls(pass: &mut ViewPass, chunks: &[Stored]) -> bool {
    let Ok(guard) = pass.poll() else {
        return false;
    };
    let list = guard.chunks();
    list.len() == chunks.len() && list.iter().zip(chunks).all(|(a, b)| a.bytes() == b.bytes())
}

#[test]
fn both_passes_poll_what_a_note_tells(rt: HostRuntime) -> Result<(), Fail> {
    let alloc = rt.alloc();
    let (mut writer, passes) = open_view(rt, alloc, 2)?;
    let mut passes = passes.into_vec();
    let mut second = next_pass(&mut passes)?;
    let mut first = next_pass(&mut passes)?;
    assert!(rt; passes.is_empty());
    assert_eq!(rt; polled(&mut first)?, 0);
    let mut list = Vec::new(alloc);
    list.push(stored(alloc, OPENING)?)?;
    writer.publish(list.as_slice())?;
    let note = writer.tell()?;
    first.learn(&note)?;
    second.learn(&note)?;
    assert!(rt; polls(&mut first, list.as_slice()) && polls(&mut second, list.as_slice()));
    Ok(())
}

#[test]
fn told_passes_poll_the_same(rt: HostRuntime) -> Result<(), Fail> {
    let alloc = rt.alloc();
    let (mut writer, passes) = open_view(rt, alloc, 3)?;
    let mut passes = passes.into_vec();
    let mut third = next_pass(&mut passes)?;
    let mut second = next_pass(&mut passes)?;
    let mut first = next_pass(&mut passes)?;
    let mut list = Vec::new(alloc);
    list.push(stored(alloc, OPENING)?)?;
    writer.publish(list.as_slice())?;
    assert!(rt; polls(&mut third, list.as_slice()));
    let message = stored(alloc, MESSAGE)?;
    list.push(message.share()?)?;
    let mut more = Vec::new(alloc);
    more.push(message)?;
    writer.publish(more.as_slice())?;
    let note = writer.tell()?;
    first.learn(&note)?;
    second.learn(&note)?;
    assert!(rt; polls(&mut first, list.as_slice()) && polls(&mut second, list.as_slice()));
    assert!(rt; polls(&mut third, list.as_slice()));
    Ok(())
}

#[test]
fn a_note_of_another_view_is_never_met(rt: HostRuntime) -> Result<(), Fail> {
    let alloc = rt.alloc();
    let (mut writer, passes) = open_view(rt, alloc, 1)?;
    let (mut other, _others) = open_view(rt, alloc, 1)?;
    let mut pass = next_pass(&mut passes.into_vec())?;
    let mut list = Vec::new(alloc);
    list.push(stored(alloc, OPENING)?)?;
    other.publish(list.as_slice())?;
    list.clear();
    list.push(stored(alloc, MESSAGE)?)?;
    writer.publish(list.as_slice())?;
    assert!(rt; polls(&mut pass, list.as_slice()));
    pass.learn(&writer.tell()?)?;
    pass.learn(&other.tell()?)?;
    assert!(rt; polled(&mut pass).is_err());
    assert!(rt; polled(&mut pass).is_err());
    Ok(())
}

#[test]
fn a_forgotten_guard_is_let_go_by_the_next_poll(rt: HostRuntime) -> Result<(), Fail> {
    let alloc = rt.alloc();
    let (mut writer, passes) = open_view(rt, alloc, 1)?;
    let mut pass = next_pass(&mut passes.into_vec())?;
    forget(pass.poll()?);
    let mut list = Vec::new(alloc);
    list.push(stored(alloc, OPENING)?)?;
    writer.publish(list.as_slice())?;
    assert!(rt; polls(&mut pass, list.as_slice()));
    writer.publish(list.as_slice())?;
    assert_eq!(rt; polled(&mut pass)?, 2);
    drop(writer);
    assert!(rt; polled(&mut pass).is_err());
    Ok(())
}
