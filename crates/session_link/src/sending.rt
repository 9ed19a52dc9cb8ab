//! What goes over a link: small frames are joined and sent at once, a longer piece goes alone.

ghost use Rattle.std.specs.Prelude.{◌≡◌, ◌≢◌, ◌++◌, [], ℕ, List, Option};
ghost use Rattle.std.specs.List.{AllByRecursion};
ghost use Rattle.command_all.specs.Commands.{frame_of};
ghost use Rattle.outside_io.specs.Causes.{HasCause};
ghost use Rattle.session_core.specs.Outgoing.{bytes_of_outgoing, command_of, IsSayableUnasked};
ghost use Rattle.session_link.specs.Sending.{frames_said, PutBy, SentBy};

use crate::gathering::Due;
use frame_wire::{Octets, Row};
use outside_io::{Gave, Link};
use session_core::{Outgoing, Unasked, make_outgoing, tail_bytes};
use std::alloc::Global;
use std::collections::VecDeque;

/// So many bytes are joined at most.
const MOST_JOINED: usize = 65_536;

/// What came of sending.
#[derive(Clone, Copy, Debug, PartialEq, Eq)]
pub enum Went {
    Sent,
    /// The link failed.
    Failed,
    Memory,
}

/// Sends a piece.
fn send<L: Link>(link: &mut L, bytes: &[u8]) -> Went
    ensures sent { SentBy (L.sent link.old) bytes.now result (L.sent link.new) }
    ensures heard { L.heard link.new ≡ L.heard link.old }
    ensures ended { L.has_ended link.new ≡ L.has_ended link.old }
    ensures cause { HasCause (L.faults link.old) (L.faults link.new) (result ≡ Went.Failed) }
{
    match link.send(bytes) {
        Gave::Done => Went::Sent,
        Gave::Failed => Went::Failed,
    }
}

/// Sends what is joined, if something is.
fn flush<L: Link>(link: &mut L, joined: &mut Octets) -> Went
    ensures sent { SentBy (L.sent link.old) joined.old result (L.sent link.new) }
    ensures none { result ≡ Went.Sent → joined.new ≡ [] }
    ensures heard { L.heard link.new ≡ L.heard link.old }
    ensures ended { L.has_ended link.new ≡ L.has_ended link.old }
    ensures cause { HasCause (L.faults link.old) (L.faults link.new) (result ≡ Went.Failed) }
{
    if joined.len() == 0 {
        return Went::Sent;
    }
    match send(link, joined.as_slice()) {
        Went::Sent => {
            joined.cut(0);
            Went::Sent
        }
        went => went,
    }
}

/// Joins a piece to what is there.
fn join(joined: &mut Octets, bytes: &[u8]) -> Went
    ensures sent { (sent : Option (List ℕ)) → PutBy sent joined.old bytes.now result sent joined.new }
    ensures unfailed { result ≢ Went.Failed }
{
    match joined.push_slice(bytes) {
        Ok(()) => Went::Sent,
        Err(_) => Went::Memory,
    }
}

/// A piece goes behind nothing: it is joined, or goes alone where it is longer than what is joined.
fn put_first<L: Link>(link: &mut L, joined: &mut Octets, bytes: &[u8]) -> Went
    requires { joined.old ≡ [] }
    ensures sent { PutBy (L.sent link.old) joined.old bytes.now result (L.sent link.new) joined.new }
    ensures heard { L.heard link.new ≡ L.heard link.old }
    ensures ended { L.has_ended link.new ≡ L.has_ended link.old }
    ensures cause { HasCause (L.faults link.old) (L.faults link.new) (result ≡ Went.Failed) }
{
    if bytes.len() <= MOST_JOINED {
        return join(joined, bytes);
    }
    send(link, bytes)
}

/// A piece goes behind what is joined: it is joined too, or what is there goes first.
#[tactic(auto, using(crate::proofs::Sendings::goes_behind, crate::proofs::Sendings::flush_stops))]
fn put<L: Link>(link: &mut L, joined: &mut Octets, bytes: &[u8]) -> Went
    ensures sent { PutBy (L.sent link.old) joined.old bytes.now result (L.sent link.new) joined.new }
    ensures heard { L.heard link.new ≡ L.heard link.old }
    ensures ended { L.has_ended link.new ≡ L.has_ended link.old }
    ensures cause { HasCause (L.faults link.old) (L.faults link.new) (result ≡ Went.Failed) }
{
    if joined.as_slice().len() + bytes.len() <= MOST_JOINED {
        return join(joined, bytes);
    }
    match flush(link, joined) {
        Went::Sent => put_first(link, joined, bytes),
        went => went,
    }
}

/// A frame goes: its head, and then its tail, which is not copied where it is long.
fn put_both<L: Link>(link: &mut L, joined: &mut Octets, outgoing: &Outgoing) -> Went
    ensures sent { PutBy (L.sent link.old) joined.old (bytes_of_outgoing outgoing.now) result (L.sent link.new) joined.new }
    ensures heard { L.heard link.new ≡ L.heard link.old }
    ensures ended { L.has_ended link.new ≡ L.has_ended link.old }
    ensures cause { HasCause (L.faults link.old) (L.faults link.new) (result ≡ Went.Failed) }
{
    match put(link, joined, outgoing.head.as_slice()) {
        Went::Sent => put(link, joined, tail_bytes(outgoing)),
        went => went,
    }
}

/// The frame of something said unasked goes.
fn put_one<L: Link>(alloc: Global, link: &mut L, joined: &mut Octets, unasked: Unasked) -> Went
    requires { IsSayableUnasked unasked }
    ensures sent { PutBy (L.sent link.old) joined.old (frame_of (command_of unasked)) result (L.sent link.new) joined.new }
    ensures heard { L.heard link.new ≡ L.heard link.old }
    ensures ended { L.has_ended link.new ≡ L.has_ended link.old }
    ensures cause { HasCause (L.faults link.old) (L.faults link.new) (result ≡ Went.Failed) }
{
    match make_outgoing(alloc, unasked) {
        Ok(outgoing) => put_both(link, joined, &outgoing),
        Err(_) => Went::Memory,
    }
}

/// The frames of all that is said unasked go, in order.
fn put_said<L: Link>(alloc: Global, link: &mut L, joined: &mut Octets, said: Row<Unasked>) -> Went
    requires { AllByRecursion IsSayableUnasked said }
    ensures sent { PutBy (L.sent link.old) joined.old (frames_said said) result (L.sent link.new) joined.new }
    ensures heard { L.heard link.new ≡ L.heard link.old }
    ensures ended { L.has_ended link.new ≡ L.has_ended link.old }
    ensures cause { HasCause (L.faults link.old) (L.faults link.new) (result ≡ Went.Failed) }
{
    let mut left = VecDeque::from(said.into_vec());
    'said: while let Some(unasked) = left.pop_front() {
        match put_one(alloc, link, joined, unasked) {
            Went::Sent => {}
            went => return went,
        }
    }
    Went::Sent
}

/// Sends what is joined and the frames of all that is said unasked.
fn send_said<L: Link>(alloc: Global, link: &mut L, mut joined: Octets, said: Row<Unasked>) -> Went
    requires { AllByRecursion IsSayableUnasked said }
    ensures sent { SentBy (L.sent link.old) (joined ++ frames_said said) result (L.sent link.new) }
    ensures heard { L.heard link.new ≡ L.heard link.old }
    ensures ended { L.has_ended link.new ≡ L.has_ended link.old }
    ensures cause { HasCause (L.faults link.old) (L.faults link.new) (result ≡ Went.Failed) }
{
    match put_said(alloc, link, &mut joined, said) {
        Went::Sent => flush(link, &mut joined),
        went => went,
    }
}

/// Sends the frames that are due.
pub(crate) fn send_due<L: Link>(alloc: Global, link: &mut L, due: Due) -> Went
    requires { AllByRecursion IsSayableUnasked due.said }
    ensures sent { SentBy (L.sent link.old) ((due.fed ++ due.ticked) ++ frames_said due.said) result (L.sent link.new) }
    ensures heard { L.heard link.new ≡ L.heard link.old }
    ensures ended { L.has_ended link.new ≡ L.has_ended link.old }
    ensures cause { HasCause (L.faults link.old) (L.faults link.new) (result ≡ Went.Failed) }
{
    let mut joined = due.fed;
    match put(link, &mut joined, due.ticked.as_slice()) {
        Went::Sent => send_said(alloc, link, joined, due.said),
        went => went,
    }
}
