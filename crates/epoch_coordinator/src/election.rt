//! Counts the members that told their tails, and finds the leader among them.

ghost use Rattle.std.specs.Prelude.{◌≡◌, ◌+◌, ◌≤◌, ◌<◌, ◌∷◌, ◌++◌, [], length, drop, map, OnOk, OnErr, IfOk};
ghost use Rattle.epoch_coordinator.specs.declared.message.Message.TheVariants as messages;
ghost use Rattle.epoch_coordinator.specs.Coordinators.{tell, repliers, better, leader_of, electors_of, untold_from, to_each};
ghost use Rattle.epoch_coordinator.specs.MemberSteps.{mail};

use crate::message::{Message, Sent};
use crate::tail::Tail;
use frame_wire::Row;
use std::alloc::{AllocError, Global};

/// A member and the tail that it told.
#[derive(Clone, Copy)]
struct Candidate {
    number: u8,
    tail: Tail,
}

/// Keeps a member's tail, if it is the first that it tells.
pub(crate) fn tell(told: &mut [Option<Tail>], from: u8, tail: Tail)
    requires least { 1 ≤ from }
    requires most { from ≤ length told.old }
    ensures { told.new ≡ tell from tail told.old }
{
    let place = from as usize - 1;
    if told[place].is_none() {
        told[place] = Some(tail);
    }
}

/// How many told a tail.
pub(crate) fn repliers(told: &[Option<Tail>]) -> u8
    requires { length told.now ≤ 7 }
    ensures count { result ≡ repliers told.now }
    ensures few { result ≤ 7 }
{
    let mut count = 0;
    for tail in told {
        if tail.is_some() {
            count += 1;
        }
    }
    count
}

/// The better of a candidate and a member: the one of greater tail, and of equals the former.
fn better(best: Option<Candidate>, number: u8, told: Option<Tail>) -> Option<Candidate>
    ensures { result ≡ better best number told }
{
    match (best, told) {
        (best, None) => best,
        (None, Some(tail)) => Some(Candidate { number, tail }),
        (Some(best), Some(tail)) => {
            if best.tail.is_behind(tail) {
                Some(Candidate { number, tail })
            } else {
                Some(best)
            }
        }
    }
}

/// Of those that told, the one of greatest tail, and of equals the one of least number; 0 where
/// nobody told.
pub(crate) fn leader_of(told: &[Option<Tail>]) -> u8
    requires { length told.now ≤ 7 }
    ensures { result ≡ leader_of told.now }
{
    let mut best = None;
    let mut number = 1;
    'members: for tail in told {
        best = better(best, number, *tail);
        number += 1;
    }
    match best {
        Some(best) => best.number,
        None => 0,
    }
}

/// The members that told, as bits: 1 for member 1, 2 for member 2, 4 for member 3 and so on.
pub(crate) fn electors_of(told: &[Option<Tail>]) -> u8
    requires { length told.now ≤ 7 }
    ensures { result ≡ electors_of told.now }
{
    let mut bits = 0;
    let mut bit = 1;
    'members: for tail in told {
        if tail.is_some() {
            bits += bit;
        }
        bit *= 2;
    }
    bits
}

fn push_stop(sent: &mut Row<Sent>, to: u8, epoch: u64) -> Result<(), AllocError>
    ensures ok { OnOk result (sent.new ≡ sent.old ++ mail to (messages.Stop epoch) ∷ []) }
{
    let message = Message::Stop { epoch };
    match sent.push(Sent { to, message }) {
        Ok(()) => Ok(()),
        Err(_) => Err(AllocError),
    }
}

/// A Stop of the epoch for each member that told no tail, by number.
pub(crate) fn stops(
    alloc: Global,
    epoch: u64,
    told: &[Option<Tail>],
) -> Result<Row<Sent>, AllocError>
    requires { length told.now ≤ 7 }
    ensures { IfOk result (λ sent. sent ≡ to_each (messages.Stop epoch) (untold_from 1 told.now)) }
{
    let mut sent = Row::new(alloc);
    let mut number = 1;
    'members: for tail in told {
        if tail.is_none() {
            push_stop(&mut sent, number, epoch)?;
        }
        number += 1;
    }
    Ok(sent)
}
