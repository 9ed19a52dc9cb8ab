//! Offsets that a member that leads stores.

ghost use Rattle.std.specs.Prelude.{◌≡◌, ◌+◌, ◌≤◌, ◌<◌, Some, length, true, false, nat_lt, IfOk, IfErr, OnErr, OnOk};
ghost use Rattle.member_core.specs.States.{IsOpen};
ghost use Rattle.stream_terms.specs.declared.terms.OfferFault.TheVariants as refused;
ghost use Rattle.stream_terms.specs.Views.{name_of};
ghost use Rattle.stream_terms.specs.Steps.{names_one};
ghost use Rattle.leader_offers.specs.Adds.{OffsetGives, OffsetAdded, OffsetRefused, consumers_with, offset_adds};
ghost use Rattle.leader_offers.specs.Leads.{Leads, Put, SomeBehind, WhyStopped};

use crate::limits::{check_room, more_consumers};
use crate::offers::stop_fault;
use crate::put::{Stop, put};
use frame_wire::{Limits, Text};
use member_core::Member;
use offer_chunks::{delta_chunk, stamp_of};
use std::alloc::Global;
use stream_terms::{OfferFault, Taken, What};

/// The bytes of a name under which an offset is stored.
fn bytes_of(name: &Text) -> Result<&[u8], OfferFault>
    ensures named { IfOk result (λ bytes. (name.now ≡ Some bytes.now) × (1 ≤ length bytes.now) × (length bytes.now ≤ 255)) }
    ensures refused { IfErr result (λ fault. (fault ≡ refused.BadName (length (name_of name.now))) × (names_one name.now ≡ false)) }
{
    match name.get() {
        None => Err(OfferFault::BadName { len: 0 }),
        Some(bytes) => {
            if bytes.is_empty() || bytes.len() > 255 {
                return Err(OfferFault::BadName { len: bytes.len() });
            }
            Ok(bytes)
        }
    }
}

/// Puts the chunk that stores an offset.
fn put_offset(
    alloc: Global,
    leader: &mut Member,
    name: &[u8],
    offset: u64,
    now: u64,
) -> Result<(), Stop>
    requires leads { Leads leader.old }
    requires some { 1 ≤ length name.now }
    requires few { length name.now ≤ 255 }
    ensures ok { OnOk result (Put leader.old (offset_adds leader.old name.now offset now) leader.new) }
    ensures err { OnErr result (SomeBehind leader.old leader.new) }
    ensures stopped { IfErr result (WhyStopped (offset_adds leader.old name.now offset now)) }
{
    let epoch = leader.promise();
    let first = leader.end();
    match delta_chunk(alloc, epoch, stamp_of(now), name, offset, first) {
        Ok(chunk) => put(leader, chunk),
        Err(_) => Err(Stop::Memory),
    }
}

/// Adds an offset for a consumer that is known or may be added, within the limits of bytes and of the queue.
fn store_within(
    alloc: Global,
    leader: &mut Member,
    limits: &Limits,
    name: &[u8],
    offset: u64,
    now: u64,
) -> Result<Taken, OfferFault>
    requires leads { Leads leader.old }
    requires some { 1 ≤ length name.now }
    requires few { length name.now ≤ 255 }
    requires names { consumers_with name.now leader.old ≤ limits.now.consumers }
    ensures ok { IfOk result (λ t. OffsetAdded limits.now leader.old (Some name.now) offset now t leader.new) }
    ensures err { OnErr result (SomeBehind leader.old leader.new) }
    ensures refused { IfErr result (OffsetRefused limits.now leader.old (Some name.now) offset now) }
{
    match put_offset(alloc, leader, name, offset, now) {
        Ok(()) => {}
        Err(stop) => return Err(stop_fault(stop, limits)),
    }
    match check_room(leader, limits) {
        Ok(()) => Ok(Taken {
            end: leader.end(),
            accepted: 1,
        }),
        Err(fault) => Err(fault),
    }
}

/// Adds an offset, or stops on the way.
fn add_offset(
    alloc: Global,
    leader: &mut Member,
    limits: &Limits,
    name: &[u8],
    offset: u64,
    now: u64,
) -> Result<Taken, OfferFault>
    requires leads { Leads leader.old }
    requires some { 1 ≤ length name.now }
    requires few { length name.now ≤ 255 }
    ensures ok { IfOk result (λ t. OffsetAdded limits.now leader.old (Some name.now) offset now t leader.new) }
    ensures err { OnErr result (SomeBehind leader.old leader.new) }
    ensures refused { IfErr result (OffsetRefused limits.now leader.old (Some name.now) offset now) }
{
    let stored = match leader.stored(name) {
        Ok(stored) => stored,
        Err(_) => return Err(OfferFault::Memory),
    };
    let more = match more_consumers(leader, limits, name, stored) {
        Ok(more) => more,
        Err(_) => return Err(OfferFault::Memory),
    };
    if more {
        return Err(OfferFault::Limit {
            what: What::Consumers,
            most: u64::from(limits.consumers),
        });
    }
    store_within(alloc, leader, limits, name, offset, now)
}

/// Gives a leader that is opened an offset to store for a name of 1 to 255 bytes, at a moment in milliseconds: one delta chunk,
/// and a snapshot behind it where it is the 1,024th since the last one. It is refused by its name, and where there would be more
/// consumers, bytes or waiting chunks than there may be, looked at in this order. After a refusal, and where memory runs out, the
/// leader is as it was.
pub fn store_offset(
    alloc: Global,
    leader: &mut Member,
    limits: &Limits,
    name: &Text,
    offset: u64,
    now: u64,
) -> Result<Taken, OfferFault>
    requires { IsOpen leader.old.role }
    ensures { OffsetGives limits.now leader.old name.now offset now result leader.new }
{
    let bytes = match bytes_of(name) {
        Ok(bytes) => bytes,
        Err(fault) => return Err(fault),
    };
    let mark = leader.mark();
    match add_offset(alloc, leader, limits, bytes, offset, now) {
        Ok(taken) => Ok(taken),
        Err(fault) => {
            leader.take_back(mark);
            Err(fault)
        }
    }
}
