//! What is done with a session, and what it tells.

use crate::answer::of_end;
use crate::talk::{Talk, answer, begin, hang_up, pass_to, poll, stop};
use std::alloc::Global;

/// A call of a session, or of its hub. Bytes are hexadecimal text. It tells `DONE`, the end, or how many bytes there are in place of those that are
/// wanted, which `answer` names.
#[derive(Clone, Copy, Debug)]
pub enum Step {
    /// The peer's bytes, and those that are answered.
    Hear(&'static str, &'static str),
    /// A moment in milliseconds, and the bytes that are said at it.
    At(u64, &'static str),
    /// The bytes that are said unasked.
    Poll(&'static str),
    /// How the session has ended.
    Ended,
    /// The connection ends.
    HangUp,
    /// The epoch of the stream with this number ends, or the next begins.
    Stop(u32),
    Begin(u32),
}

/// The bytes of hexadecimal text, or none where it is no such text, or memory ran out.
pub(crate) fn bytes_of(alloc: Global, text: &str) -> Vec<u8> {
    match hex::decode(alloc, text.as_bytes()) {
        Ok(bytes) => bytes,
        Err(_) => Vec::new(alloc),
    }
}

/// Makes the call, the peer's bytes at once or one by one, and tells its answer.
pub fn take(alloc: Global, talk: &mut Talk, step: Step, one_by_one: bool) -> i64 {
    match step {
        Step::Hear(bytes, wanted) => answer(
            alloc,
            talk,
            bytes_of(alloc, bytes).as_slice(),
            bytes_of(alloc, wanted).as_slice(),
            one_by_one,
        ),
        Step::At(now, wanted) => pass_to(talk, now, bytes_of(alloc, wanted).as_slice()),
        Step::Poll(wanted) => poll(alloc, talk, bytes_of(alloc, wanted).as_slice()),
        Step::Ended => of_end(talk.session.ended()),
        Step::HangUp => hang_up(talk),
        Step::Stop(stream) => stop(talk, stream),
        Step::Begin(stream) => begin(talk, stream),
    }
}

/// The place of the first step whose answer isn't the one beside it, counted from 1, and that answer; or 0 and 0.
fn wrong_at(
    alloc: Global,
    talk: &mut Talk,
    steps: &[(Step, i64)],
    one_by_one: bool,
) -> (usize, i64) {
    for at in 0..steps.len() {
        let (step, want) = steps[at];
        let told = take(alloc, talk, step, one_by_one);
        if told != want {
            return (at + 1, told);
        }
    }
    (0, 0)
}

/// The place of the first of the parts in which a step is answered otherwise, counted from 1, the place of that step in it,
/// and its answer; or 0, 0 and 0.
pub fn wrong_in(
    alloc: Global,
    talk: &mut Talk,
    parts: &[&[(Step, i64)]],
    one_by_one: bool,
) -> (usize, usize, i64) {
    for at in 0..parts.len() {
        let (place, told) = wrong_at(alloc, talk, parts[at], one_by_one);
        if place != 0 {
            return (at + 1, place, told);
        }
    }
    (0, 0, 0)
}
