//! The leader of the epoch that runs takes offers and stored offsets.

ghost use Rattle.std.specs.Prelude.{◌≡◌, ◌<◌, ◌≤◌, true, length, slice_set, map, IfOk, OnOk, OnErr};
ghost use Rattle.chunk_format.specs.Logs.{end_of};
ghost use Rattle.epoch_coordinator.specs.Members.{MemberState};
ghost use Rattle.member_core.specs.States.{IsOpen};
ghost use Rattle.stream_terms.specs.Steps.{item_id, item_entry};
ghost use Rattle.stream_passes.specs.Keeps.{IsLast};
ghost use Rattle.stream_passes.specs.Parts.{parts_put};
ghost use Rattle.leader_offers.specs.Adds.{OffsetGives};
ghost use Rattle.stream_cluster.specs.Seats.{SeatAt, in_seat};
ghost use Rattle.stream_cluster.specs.Takes.{leading, led_by, wait_of, GoesLast, LeaderTakes, RunsHere};

use crate::copies::{copy_entries, copy_ids};
use crate::place::Place;
use crate::replicas::Replicas;
use command_data::Tagged;
use frame_wire::{Limits, Text};
use member_core::Member;
use std::alloc::{AllocError, Global};
use stream_passes::Passes;
use stream_terms::{Given, OfferFault, Taken, Waits};

/// An offer, with what was given with its pass.
#[derive(Drop)]
pub(crate) struct Offer<'a> {
    pub(crate) given: Given,
    pub(crate) items: &'a [Tagged],
    /// The moment in milliseconds.
    pub(crate) moment: u64,
}

/// What waits for the confirm of items that took a range.
fn wait_for(
    alloc: Global,
    given: Given,
    from: u64,
    end: u64,
    items: &[Tagged],
) -> Result<Waits, AllocError>
    ensures { IfOk result (λ w. w ≡ wait_of given from end items.now) }
{
    let ids = copy_ids(alloc, items)?;
    let entries = copy_entries(alloc, items)?;
    Ok(Waits {
        given,
        from,
        end,
        ids,
        entries,
    })
}

/// Puts what waits for the confirm of items that took the range from one offset to another, while the list ends at an
/// offset. Where memory runs out nothing changes.
fn put_wait(
    alloc: Global,
    passes: &mut Passes,
    end: u64,
    given: Given,
    from: u64,
    to: u64,
    items: &[Tagged],
) -> Result<(), AllocError>
    requires { IsLast passes.old.waiting (wait_of given from to items.now) }
    ensures ok { OnOk result (passes.new ≡ parts_put end (wait_of given from to items.now) passes.old) }
    ensures err { OnErr result (passes.new ≡ passes.old) }
{
    let waits = wait_for(alloc, given, from, to, items)?;
    passes.put(end, waits)
}

/// A leader that is opened takes an offer, and what waits for its confirm is put, while the list ends at an offset. After
/// a refusal, and where memory runs out, both are as they were.
fn take_offer(
    alloc: Global,
    leader: &mut Member,
    passes: &mut Passes,
    limits: &Limits,
    end: u64,
    offer: Offer<'_>,
) -> Result<Taken, OfferFault>
    requires open { IsOpen leader.old.role }
    requires short { length offer.given.name ≤ 255 }
    requires few { length offer.items.now ≤ 1048576 }
    requires last { GoesLast limits.now leader.old offer.given offer.items.now offer.moment passes.old.waiting }
    ensures { LeaderTakes limits.now end offer.entry.given offer.entry.items.now offer.entry.moment result leader.old leader.new passes.old passes.new }
{
    let Offer {
        given,
        items,
        moment,
    } = offer;
    let mark = leader.mark();
    let from = leader.end();
    let taken = match leader_offers::offer(
        alloc,
        leader,
        limits,
        given.name.as_slice(),
        items,
        moment,
    ) {
        Ok(taken) => taken,
        Err(fault) => return Err(fault),
    };
    match put_wait(alloc, passes, end, given, from, taken.end, items) {
        Ok(()) => Ok(taken),
        Err(_) => {
            leader.take_back(mark);
            Err(OfferFault::Memory)
        }
    }
}

impl Place {
    /// A member that is up and is an opened leader takes an offer, with what waits for its confirm.
    fn offer(
        &mut self,
        alloc: Global,
        passes: &mut Passes,
        limits: &Limits,
        end: u64,
        offer: Offer<'_>,
    ) -> Result<Taken, OfferFault>
        requires up { self.old.up ≡ true }
        requires open { IsOpen self.old.state.role }
        requires short { length offer.given.name ≤ 255 }
        requires few { length offer.items.now ≤ 1048576 }
        requires last { GoesLast limits.now self.old.state offer.given offer.items.now offer.moment passes.old.waiting }
        ensures takes { LeaderTakes limits.now end offer.entry.given offer.entry.items.now offer.entry.moment result self.old.state self.new.state passes.old passes.new }
        ensures up { self.new.up ≡ true }
    {
        take_offer(alloc, &mut self.member, passes, limits, end, offer)
    }

    /// A member that is up and is an opened leader takes an offset to be stored.
    fn store_offset(
        &mut self,
        alloc: Global,
        limits: &Limits,
        name: &Text,
        offset: u64,
        now: u64,
    ) -> Result<Taken, OfferFault>
        requires up { self.old.up ≡ true }
        requires open { IsOpen self.old.state.role }
        ensures gives { OffsetGives limits.now self.old.state name.now offset now result self.new.state }
        ensures up { self.new.up ≡ true }
    {
        leader_offers::store_offset(alloc, &mut self.member, limits, name, offset, now)
    }
}

/// The member at a place, which is up and is an opened leader, takes an offer, with what waits for its confirm.
fn offer_at(
    alloc: Global,
    seats: &mut Vec<Place>,
    place: usize,
    passes: &mut Passes,
    limits: &Limits,
    end: u64,
    offer: Offer<'_>,
) -> Result<Taken, OfferFault>
    requires there { place < length seats.old.items }
    requires up { SeatAt seats.old.items place (λ s. s.up ≡ true) }
    requires open { SeatAt seats.old.items place (λ s. IsOpen s.state.role) }
    requires short { length offer.given.name ≤ 255 }
    requires few { length offer.items.now ≤ 1048576 }
    requires last { SeatAt seats.old.items place (λ s. GoesLast limits.now s.state offer.given offer.items.now offer.moment passes.old.waiting) }
    ensures { SeatAt seats.old.items place (λ s. (m : MemberState) × LeaderTakes limits.now end offer.entry.given offer.entry.items.now offer.entry.moment result s.state m passes.old passes.new × (seats.new.items ≡ slice_set seats.old.items place (in_seat m))) }
{
    seats[place].offer(alloc, passes, limits, end, offer)
}

/// The member at a place, which is up and is an opened leader, takes an offset to be stored.
fn store_at(
    alloc: Global,
    seats: &mut Vec<Place>,
    place: usize,
    limits: &Limits,
    name: &Text,
    offset: u64,
    now: u64,
) -> Result<Taken, OfferFault>
    requires there { place < length seats.old.items }
    requires up { SeatAt seats.old.items place (λ s. s.up ≡ true) }
    requires open { SeatAt seats.old.items place (λ s. IsOpen s.state.role) }
    ensures { SeatAt seats.old.items place (λ s. (m : MemberState) × OffsetGives limits.now s.state name.now offset now result m × (seats.new.items ≡ slice_set seats.old.items place (in_seat m))) }
{
    seats[place].store_offset(alloc, limits, name, offset, now)
}

impl Replicas {
    /// The leader of the epoch that runs takes an offer, with what waits for its confirm.
    pub(crate) fn offer(
        &mut self,
        passes: &mut Passes,
        limits: &Limits,
        offer: Offer<'_>,
    ) -> Result<Taken, OfferFault>
        requires runs { RunsHere self.old.cluster }
        requires short { length offer.given.name ≤ 255 }
        requires few { length offer.items.now ≤ 1048576 }
        requires last { GoesLast limits.now (leading self.old.cluster) offer.given offer.items.now offer.moment passes.old.waiting }
        ensures { (m : MemberState) × LeaderTakes limits.now (end_of self.old.cluster.committed) offer.entry.given offer.entry.items.now offer.entry.moment result (leading self.old.cluster) m passes.old passes.new × (self.new ≡ led_by m self.old) }
    {
        let place = self.leader() as usize - 1;
        let end = self.end();
        offer_at(
            self.alloc,
            &mut self.seats,
            place,
            passes,
            limits,
            end,
            offer,
        )
    }

    /// The leader of the epoch that runs takes an offset to be stored.
    pub(crate) fn store_offset(
        &mut self,
        limits: &Limits,
        name: &Text,
        offset: u64,
        now: u64,
    ) -> Result<Taken, OfferFault>
        requires runs { RunsHere self.old.cluster }
        ensures { (m : MemberState) × OffsetGives limits.now (leading self.old.cluster) name.now offset now result m × (self.new ≡ led_by m self.old) }
    {
        let place = self.leader() as usize - 1;
        store_at(
            self.alloc,
            &mut self.seats,
            place,
            limits,
            name,
            offset,
            now,
        )
    }
}
