//! Offers to a member that leads.

ghost use Rattle.std.specs.Prelude.{◌≡◌, ◌+◌, ◌≤◌, ◌<◌, None, length, position, false, nat_lt, IfOk, IfErr, OnErr, OnOk};
ghost use Rattle.chunk_format.specs.ByName.{Greatest};
ghost use Rattle.epoch_coordinator.specs.Members.{sequence_of};
ghost use Rattle.member_core.specs.States.{IsOpen};
ghost use Rattle.offer_chunks.specs.Taken.{items_of, is_empty_batch, taken_from};
ghost use Rattle.leader_offers.specs.Adds.{OfferGives, OfferAdded, OfferRefused, references_with};
ghost use Rattle.leader_offers.specs.Leads.{Leads, SomeBehind, IsStopped};

use crate::lay::lay;
use crate::limits::{check_room, more_references};
use crate::put::Stop;
use command_data::Tagged;
use frame_wire::Limits;
use member_core::Member;
use offer_chunks::{any_taken, first_empty};
use std::alloc::Global;
use stream_terms::{OfferFault, Taken, What};

/// The answer to an offer whose chunks have no room, or to want of memory.
pub(crate) fn stop_fault(stop: Stop, limits: &Limits) -> OfferFault
    ensures { IsStopped limits.now stop result }
{
    match stop {
        Stop::Large => OfferFault::Limit {
            what: What::LogBytes,
            most: limits.log_bytes,
        },
        Stop::Memory => OfferFault::Memory,
    }
}

/// Lays an offer of which something is taken, within the limits of bytes and of the queue.
fn lay_within(
    alloc: Global,
    leader: &mut Member,
    limits: &Limits,
    name: &[u8],
    greatest: Option<u64>,
    items: &[Tagged],
    now: u64,
) -> Result<Taken, OfferFault>
    requires leads { Leads leader.old }
    requires short { length name.now ≤ 255 }
    requires few { length items.now ≤ 1048576 }
    requires whole { position is_empty_batch items.now ≡ None }
    requires greatest { greatest ≡ Greatest name.now (sequence_of leader.old) }
    requires taken { 0 < length (taken_from name.now greatest (items_of items.now)) }
    requires names { references_with name.now leader.old ≤ limits.now.references }
    ensures ok { IfOk result (λ t. OfferAdded limits.now leader.old name.now items.now now t leader.new) }
    ensures err { OnErr result (SomeBehind leader.old leader.new) }
    ensures refused { IfErr result (OfferRefused limits.now leader.old name.now items.now now) }
{
    let accepted = match lay(alloc, leader, name, greatest, items, now) {
        Ok(accepted) => accepted,
        Err(stop) => return Err(stop_fault(stop, limits)),
    };
    match check_room(leader, limits) {
        Ok(()) => Ok(Taken {
            end: leader.end(),
            accepted,
        }),
        Err(fault) => Err(fault),
    }
}

/// Adds an offer without a sub-batch of no records, or stops on the way.
fn add_items(
    alloc: Global,
    leader: &mut Member,
    limits: &Limits,
    name: &[u8],
    items: &[Tagged],
    now: u64,
) -> Result<Taken, OfferFault>
    requires leads { Leads leader.old }
    requires short { length name.now ≤ 255 }
    requires few { length items.now ≤ 1048576 }
    requires whole { position is_empty_batch items.now ≡ None }
    ensures ok { IfOk result (λ t. OfferAdded limits.now leader.old name.now items.now now t leader.new) }
    ensures err { OnErr result (SomeBehind leader.old leader.new) }
    ensures refused { IfErr result (OfferRefused limits.now leader.old name.now items.now now) }
{
    let greatest = match leader.greatest(name) {
        Ok(greatest) => greatest,
        Err(_) => return Err(OfferFault::Memory),
    };
    if !any_taken(name, greatest, items) {
        return Ok(Taken {
            end: leader.end(),
            accepted: 0,
        });
    }
    let more = match more_references(leader, limits, name, greatest) {
        Ok(more) => more,
        Err(_) => return Err(OfferFault::Memory),
    };
    if more {
        return Err(OfferFault::Limit {
            what: What::References,
            most: u64::from(limits.references),
        });
    }
    lay_within(alloc, leader, limits, name, greatest, items, now)
}

/// Offers 1 to 1,048,576 items of a publisher, at a moment in milliseconds, to a leader that is opened; the name is empty where
/// the publisher has none. Items of a name are left out whose ids aren't above the greatest one before them. The others make
/// chunks of 4,096 entries, the last of what is left, and behind each that is the 1,024th since a snapshot stands one. It is
/// refused at a sub-batch of no records, and where there would be more publishers, bytes or waiting chunks than there may be,
/// looked at in this order. After a refusal, and where memory runs out, the leader is as it was.
pub fn offer(
    alloc: Global,
    leader: &mut Member,
    limits: &Limits,
    name: &[u8],
    items: &[Tagged],
    now: u64,
) -> Result<Taken, OfferFault>
    requires open { IsOpen leader.old.role }
    requires short { length name.now ≤ 255 }
    requires few { length items.now ≤ 1048576 }
    ensures { OfferGives limits.now leader.old name.now items.now now result leader.new }
{
    if let Some(place) = first_empty(items) {
        return Err(OfferFault::EmptyBatch {
            place: place as u32,
        });
    }
    let mark = leader.mark();
    match add_items(alloc, leader, limits, name, items, now) {
        Ok(taken) => Ok(taken),
        Err(fault) => {
            leader.take_back(mark);
            Err(fault)
        }
    }
}
