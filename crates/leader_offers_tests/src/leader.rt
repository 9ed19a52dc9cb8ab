//! One member that leads alone, and what is offered to it.

use chunk_format::{ChunkKind, Entry};
use command_data::Tagged;
use epoch_coordinator::Message;
use frame_wire::{Limits, Octets, Row};
use leader_offers::offer;
use member_core::{Member, MemberStart};
use std::alloc::{AllocError, Global};
use stream_terms::{OfferFault, What};

/// Does the pending job, if there is one.
pub(crate) fn work(member: &mut Member) -> Result<(), AllocError> {
    if member.job().is_none() {
        return Ok(());
    }
    member.done()?;
    Ok(())
}

/// A member that leads epoch 1 and wrote its opening chunk.
pub(crate) fn open_leader(alloc: Global) -> Result<Member, AllocError> {
    let start = MemberStart {
        member: 1,
        promise: 0,
        chunks: Row::new(alloc),
    };
    let mut member = Member::restart(alloc, 1, start)?;
    member.take(&Message::Stop { epoch: 1 }, 0)?;
    work(&mut member)?;
    member.take(&Message::Open { epoch: 1 }, 0)?;
    work(&mut member)?;
    Ok(member)
}

/// Items of one byte each, with ids one after the other from the first on.
pub(crate) fn items_from(alloc: Global, first: u64, count: u64) -> Result<Row<Tagged>, AllocError> {
    let mut items = Row::new(alloc);
    for place in 0..count {
        let entry = Entry::Simple(Octets::copy(alloc, b"x")?);
        let item = Tagged {
            id: first.saturating_add(place),
            entry,
        };
        if let Err(_) = items.push(item) {
            return Err(AllocError);
        }
    }
    Ok(items)
}

/// What an offer came to, as a number: how many items were taken, or 1,000,000 and more by its fault.
pub(crate) fn outcome(
    alloc: Global,
    leader: &mut Member,
    limits: &Limits,
    name: &[u8],
    items: &[Tagged],
) -> u64 {
    if !leader.is_open() || name.len() > 255 || items.len() > 1_048_576 {
        return 9_000_000;
    }
    match offer(alloc, leader, limits, name, items, 7) {
        Ok(taken) => u64::from(taken.accepted),
        Err(fault) => code_of(fault),
    }
}

/// A fault as a number.
pub(crate) fn code_of(fault: OfferFault) -> u64 {
    match fault {
        OfferFault::Stale {
            asked: _,
            running: _,
        } => 1_000_000,
        OfferFault::BadName { len: _ } => 2_000_000,
        OfferFault::EmptyBatch { place: _ } => 3_000_000,
        OfferFault::Limit { what, most: _ } => match what {
            What::References => 4_000_000,
            What::Consumers => 5_000_000,
            What::LogBytes => 6_000_000,
            What::Queue => 7_000_000,
        },
        OfferFault::Memory => 8_000_000,
    }
}

/// How many chunks of a log are snapshots.
pub(crate) fn snapshots(member: &Member) -> u64 {
    let mut count = 0u64;
    for chunk in member.log() {
        if chunk.header().kind == ChunkKind::Snapshot {
            count = count.saturating_add(1);
        }
    }
    count
}
