//! What the streams of a table take and hand out, by their numbers from 1 on.

ghost use Rattle.std.specs.Prelude.{◌≡◌, ◌⊎◌, ◌≤◌, ◌<◌, suc, length, IfSome, IfNone};
ghost use Rattle.hub_terms.specs.Calls.{Declaring, Offering, StoringOffset, Confirming};
ghost use Rattle.hub_terms.specs.Meaning.{IsShortName};
ghost use Rattle.hub_terms.specs.Tables.{HubTable, HoldsFrom, TableHolds, TableDoes};

use command_data::Tagged;
use frame_wire::{Row, Text};
use memory_stream::MemoryStream;
use std::alloc::{AllocError, Global};
use stream_terms::{Confirm, DeclareFault, OfferFault, Pass, Taken};

/// The place of a stream in a table of so many.
pub fn place_of(len: usize, stream: u32) -> Option<usize>
    ensures some { IfSome result (λ place. (stream ≡ suc place) × (place < len)) }
    ensures none { IfNone result ((stream ≡ 0) ⊎ (len < stream)) }
{
    if stream == 0 || stream as usize > len {
        return None;
    }
    Some(stream as usize - 1)
}

/// Declares a publisher.
pub fn declare_in(
    streams: &mut [MemoryStream],
    session: u32,
    stream: u32,
    name: &Text,
) -> Result<Pass, DeclareFault>
    requires { IsShortName name.now }
    ensures { (t : HubTable) → t.views ≡ streams.old → TableHolds t → TableDoes (Declaring session stream name.now) t result (record t { views = streams.new }) }
{
    let Some(place) = place_of(streams.len(), stream) else {
        return Err(DeclareFault::Closed);
    };
    let one = &mut streams[place];
    one.declare(session, name)
}

/// Takes an offer.
pub fn offer_in(
    streams: &mut [MemoryStream],
    stream: u32,
    pass: &Pass,
    items: &[Tagged],
    now: u64,
) -> Result<Taken, OfferFault>
    requires holds { HoldsFrom 1 streams.old }
    requires some { 1 ≤ length items.now }
    requires few { length items.now ≤ 1048576 }
    ensures { (t : HubTable) → t.views ≡ streams.old → TableHolds t → TableDoes (Offering stream pass.now items.now now) t result (record t { views = streams.new }) }
{
    let Some(place) = place_of(streams.len(), stream) else {
        return Err(OfferFault::Stale {
            asked: pass.epoch,
            running: 0,
        });
    };
    let one = &mut streams[place];
    one.offer(pass, items, now)
}

/// Takes an offset to be stored.
pub fn store_in(
    streams: &mut [MemoryStream],
    stream: u32,
    name: &Text,
    offset: u64,
    now: u64,
) -> Result<Taken, OfferFault>
    requires { HoldsFrom 1 streams.old }
    ensures { (t : HubTable) → t.views ≡ streams.old → TableHolds t → TableDoes (StoringOffset stream name.now offset now) t result (record t { views = streams.new }) }
{
    let Some(place) = place_of(streams.len(), stream) else {
        return Err(OfferFault::Stale {
            asked: 0,
            running: 0,
        });
    };
    let one = &mut streams[place];
    one.store_offset(name, offset, now)
}

/// Hands out the confirms of a session. Where memory runs out some are given up.
pub fn confirms_in(
    alloc: Global,
    streams: &mut [MemoryStream],
    session: u32,
) -> Result<Row<Confirm>, AllocError>
    requires { HoldsFrom 1 streams.old }
    ensures { (t : HubTable) → t.views ≡ streams.old → TableHolds t → TableDoes (Confirming session) t result (record t { views = streams.new }) }
{
    let mut out = Row::new(alloc);
    'streams: for i in 0..streams.len() {
        let one = &mut streams[i];
        match one.hand(session, &mut out) {
            Ok(()) => {}
            Err(refused) => return Err(refused),
        }
    }
    Ok(out)
}
