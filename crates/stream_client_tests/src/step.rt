//! What is done with a client, and what it tells.

use crate::answer::{
    DONE, MEMORY, NONE, OTHER, of_call, of_entry, of_heard, of_queued, one, some, truth,
};
use command_fields::OffsetSpec;
use std::alloc::Global;
use stream_client::ClientCore;

/// A call of a client. Frames are hexadecimal text. Answers are told as numbers, which `answer` names.
#[derive(Clone, Copy, Debug)]
pub enum Step {
    /// A message, of which the id is told.
    Queue(&'static [u8]),
    Create,
    Query,
    /// The offset from which on a subscription is wished, and its credit.
    Subscribe(u64, u16),
    Connect,
    Lose,
    /// The frame that is wanted next.
    Send(&'static str),
    /// No frame is wanted next.
    Rest,
    /// The server's bytes.
    Hear(&'static str),
    /// The body that is wanted of the next entry, of which offset, records and compression are told.
    Take(&'static [u8]),
    Confirmed,
    Answer,
    Committed,
    Done,
}

/// The bytes of hexadecimal text, or none where it is no such text, or memory ran out.
pub(crate) fn bytes_of(alloc: Global, text: &str) -> Vec<u8> {
    match hex::decode(alloc, text.as_bytes()) {
        Ok(bytes) => bytes,
        Err(_) => Vec::new(alloc),
    }
}

/// Whether the next frame is this one.
pub(crate) fn send(core: &mut ClientCore, wanted: &[u8]) -> i64 {
    match core.next_frame() {
        Ok(Some(frame)) => {
            if frame.as_slice() == wanted {
                DONE
            } else {
                OTHER
            }
        }
        Ok(None) => NONE,
        Err(_) => MEMORY,
    }
}

fn hear(core: &mut ClientCore, bytes: &[u8]) -> i64 {
    of_heard(core.feed(bytes))
}

fn lose(core: &mut ClientCore) -> i64 {
    core.lost();
    DONE
}

fn take_entry(core: &mut ClientCore, body: &[u8]) -> i64 {
    match core.next_received() {
        Ok(Some(entry)) => {
            if entry.body.as_slice() == body {
                of_entry(&entry)
            } else {
                OTHER
            }
        }
        Ok(None) => NONE,
        Err(_) => MEMORY,
    }
}

/// Makes the call, and tells its answer.
pub fn take(alloc: Global, core: &mut ClientCore, step: Step) -> i64 {
    match step {
        Step::Queue(body) => of_queued(core.enqueue(body)),
        Step::Create => of_call(core.create()),
        Step::Query => of_call(core.query()),
        Step::Subscribe(offset, credit) => of_call(core.subscribe(OffsetSpec::At(offset), credit)),
        Step::Connect => of_call(core.connected()),
        Step::Lose => lose(core),
        Step::Send(frame) => send(core, bytes_of(alloc, frame).as_slice()),
        Step::Rest => send(core, &[]),
        Step::Hear(bytes) => hear(core, bytes_of(alloc, bytes).as_slice()),
        Step::Take(body) => take_entry(core, body),
        Step::Confirmed => one(core.confirmed()),
        Step::Answer => some(core.answer()),
        Step::Committed => some(core.committed()),
        Step::Done => truth(core.is_done()),
    }
}
