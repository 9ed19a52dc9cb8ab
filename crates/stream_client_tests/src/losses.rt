//! Many messages `a`, over connections that are lost.

ghost use Rattle.std.specs.Prelude.{◌≤◌};

use crate::answer::{DONE, MEMORY, NONE, OTHER, of_heard, one};
use crate::dialogue::wrong_in;
use crate::step::send;
use crate::tables::{DECLARATION, OPENING};
use frame_wire::{Octets, put_u32, put_u64};
use std::alloc::{AllocError, Global};
use stream_client::ClientCore;

/// Queues messages with the ids up to one, of a client without any: how many there are, or another number.
pub fn fill(core: &mut ClientCore, last: u64) -> u64 {
    for id in 0..last {
        match core.enqueue(b"a") {
            Ok(_) => {}
            Err(_) => return id,
        }
    }
    last
}

/// The frame of the message under an id.
fn publish(alloc: Global, id: u64) -> Result<Octets, AllocError> {
    let mut out = Octets::copy(alloc, &[0, 0, 0, 0x16, 0, 2, 0, 1, 0, 0, 0, 0, 1])?;
    put_u64(&mut out, id)?;
    out.push_slice(&[0, 0, 0, 1, 0x61])?;
    Ok(out)
}

/// The confirm of so many ids.
fn confirm(alloc: Global, first: u64, count: u32) -> Result<Octets, AllocError>
    requires { count ≤ 256 }
{
    let mut out = Octets::new(alloc);
    put_u32(&mut out, 9 + 8 * count)?;
    out.push_slice(&[0, 3, 0, 1, 0])?;
    put_u32(&mut out, count)?;
    for k in 0..count {
        put_u64(&mut out, first.wrapping_add(u64::from(k)))?;
    }
    Ok(out)
}

/// Whether the message under an id is sent next.
fn send_message(alloc: Global, core: &mut ClientCore, id: u64) -> i64 {
    match publish(alloc, id) {
        Ok(frame) => send(core, frame.as_slice()),
        Err(_) => MEMORY,
    }
}

/// How many messages are sent, from an id on, before another frame is to come.
fn sent_from(alloc: Global, core: &mut ClientCore, first: u64) -> i64 {
    for k in 0..1000u64 {
        let told = send_message(alloc, core, first.wrapping_add(k));
        if told == NONE {
            return one(k);
        }
        if told != DONE {
            return told;
        }
    }
    OTHER
}

/// Opens a connection, and tells how many messages are sent from an id on.
pub fn sent_anew(alloc: Global, core: &mut ClientCore, first: u64) -> i64 {
    let (part, _, _) = wrong_in(alloc, core, &[OPENING, DECLARATION]);
    if part != 0 {
        return OTHER;
    }
    sent_from(alloc, core, first)
}

/// Feeds the first bytes of a frame.
fn feed_first(core: &mut ClientCore, frame: &[u8], count: usize) -> i64 {
    let (front, _) = frame.split_at(count.min(frame.len()));
    of_heard(core.feed(front))
}

/// Opens a connection and feeds the first bytes of the confirm of 1: what is then confirmed. Then the connection is lost.
pub fn confirmed_of_cut(alloc: Global, core: &mut ClientCore, count: usize) -> i64 {
    let sent = sent_anew(alloc, core, 1);
    if sent != 256 {
        return OTHER;
    }
    let Ok(frame) = confirm(alloc, 1, 1) else {
        return MEMORY;
    };
    let told = feed_first(core, frame.as_slice(), count);
    let confirmed = one(core.confirmed());
    core.lost();
    if told == DONE { confirmed } else { told }
}

/// Feeds the confirm of 100 ids from one on, and tells how many messages are then sent.
fn sent_behind(alloc: Global, core: &mut ClientCore, first: u64) -> i64 {
    let Ok(frame) = confirm(alloc, first, 100) else {
        return MEMORY;
    };
    let told = feed_first(core, frame.as_slice(), frame.len());
    if told != DONE {
        return told;
    }
    sent_from(alloc, core, first.wrapping_add(256))
}

/// Confirms the ids from one on, 100 at a time, so many times: how many messages are sent meanwhile.
pub fn confirms_all(alloc: Global, core: &mut ClientCore, first: u64, times: u64) -> i64 {
    let mut count = 0i64;
    for k in 0..times {
        let sent = sent_behind(alloc, core, first.wrapping_add(k.wrapping_mul(100)));
        if sent < 0 {
            return sent;
        }
        count = count.saturating_add(sent);
    }
    count
}
