//! Calls of publishers.

ghost use Rattle.std.specs.Prelude.{◌≤◌, length, IsTrue};
ghost use Rattle.std.specs.List.{AllByRecursion};
ghost use Rattle.hub_terms.specs.Meaning.{HasSpelling, IsShortName};

use crate::answer::{MEMORY, NOT_MADE, OTHER, of_offer, of_pass, one};
use crate::item::{items, messages};
use crate::word::{Word, text};
use command_data::Tagged;
use frame_wire::Text;
use hub_terms::Hub;
use std::alloc::Global;
use stream_terms::{Confirm, Pass};

/// A confirm that is wanted.
#[derive(Clone, Copy, Debug)]
pub struct Confirmed {
    /// The number of the stream.
    pub stream: u32,
    /// That of the pass.
    pub serial: u32,
    /// The end of the list for which the confirm waited.
    pub end: u64,
    /// The publishing ids.
    pub ids: &'static [u64],
}

/// Whether a name is null or has at most 255 bytes.
fn is_short(name: &Text) -> bool
    ensures { IsTrue result → IsShortName name.now }
{
    match name.get() {
        None => true,
        Some(bytes) => bytes.len() <= 255,
    }
}

fn declare_as<H: Hub>(hub: &mut H, session: u32, stream: u32, name: &Text) -> i64 {
    if !is_short(name) {
        return NOT_MADE;
    }
    of_pass(session, stream, hub.declare(session, stream, name))
}

pub(crate) fn declare<H: Hub>(
    alloc: Global,
    hub: &mut H,
    session: u32,
    stream: u32,
    name: Word,
) -> i64 {
    match text(alloc, name) {
        Some(name) => declare_as(hub, session, stream, &name),
        None => MEMORY,
    }
}

fn offer_row<H: Hub>(hub: &mut H, pass: &Pass, items: &[Tagged], now: u64) -> i64
    requires { AllByRecursion HasSpelling items.now }
{
    if items.is_empty() || items.len() > 1_048_576 {
        return NOT_MADE;
    }
    of_offer(hub.offer(pass.stream, pass, items, now))
}

pub(crate) fn offer<H: Hub>(alloc: Global, hub: &mut H, pass: &Pass, list: &[(u64, u16)]) -> i64 {
    match items(alloc, list) {
        Ok(row) => offer_row(hub, pass, row.as_slice(), 1_000),
        Err(_) => MEMORY,
    }
}

pub(crate) fn offer_many<H: Hub>(
    alloc: Global,
    hub: &mut H,
    pass: &Pass,
    count: u32,
    now: u64,
) -> i64 {
    match messages(alloc, count) {
        Ok(row) => offer_row(hub, pass, row.as_slice(), now),
        Err(_) => MEMORY,
    }
}

pub(crate) fn store<H: Hub>(
    alloc: Global,
    hub: &mut H,
    stream: u32,
    name: Word,
    offset: u64,
) -> i64 {
    match text(alloc, name) {
        Some(name) => of_offer(hub.store_offset(stream, &name, offset, 1_000)),
        None => MEMORY,
    }
}

fn is_same(confirm: &Confirm, want: &Confirmed) -> bool {
    confirm.stream == want.stream
        && confirm.serial == want.serial
        && confirm.end == want.end
        && confirm.ids.as_slice() == want.ids
}

fn are(confirms: &[Confirm], want: &[Confirmed]) -> bool {
    if confirms.len() != want.len() {
        return false;
    }
    for (confirm, want) in confirms.iter().zip(want) {
        if !is_same(confirm, want) {
            return false;
        }
    }
    true
}

/// How many confirms there are, where they are the wanted ones.
pub(crate) fn confirms<H: Hub>(hub: &mut H, session: u32, want: &[Confirmed]) -> i64 {
    match hub.confirms(session) {
        Ok(row) => {
            if are(row.as_slice(), want) {
                one(want.len() as u64)
            } else {
                OTHER
            }
        }
        Err(_) => MEMORY,
    }
}
