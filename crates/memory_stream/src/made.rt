//! The chunks that a stream adds, and what waits for their confirms.

ghost use Rattle.std.specs.Prelude.{◌≡◌, ◌≤◌, IfOk, IfErr, length};
ghost use Rattle.chunk_format.specs.Chunks.{IsChunk};
ghost use Rattle.stream_terms.specs.Steps.{offset_chunk};
ghost use Rattle.memory_stream.specs.Chosen.{IsLaid, IsMade, IsOffset, IsWait, IsLimit};

use crate::chosen::trailer_for;
use crate::copies::{copy_entries, copy_ids};
use chunk_format::{Chunk, ChunkKind, DeltaParts, Entry, Stored, is_chunk, put_delta};
use command_data::Tagged;
use frame_wire::{Octets, Row};
use std::alloc::{AllocError, Global};
use stream_terms::{Given, OfferFault, Waits, What};

/// A moment as a stamp of a chunk.
fn stamp_of(now: u64) -> i64 {
    match i64::try_from(now) {
        Ok(stamp) => stamp,
        Err(_) => i64::MAX,
    }
}

/// Keeps a chunk, which is refused where it has no spelling.
fn keep(alloc: Global, chunk: &Chunk) -> Result<Stored, OfferFault>
    ensures kept { IfOk result (λ s. (s ≡ chunk.now) × IsChunk s) }
    ensures refused { IfErr result IsLimit }
{
    if !is_chunk(chunk) {
        return Err(OfferFault::Limit {
            what: What::LogBytes,
            most: 4_294_967_040,
        });
    }
    match Stored::make(alloc, chunk) {
        Ok(stored) => Ok(stored),
        Err(_) => Err(OfferFault::Memory),
    }
}

fn user_chunk(
    alloc: Global,
    epoch: u64,
    first: u64,
    name: &[u8],
    items: &[Tagged],
    now: u64,
) -> Result<Chunk, AllocError>
    requires { length name.now ≤ 255 }
    ensures { IfOk result (IsLaid epoch first name.now items.now) }
{
    let entries = copy_entries(alloc, items)?;
    let trailer = trailer_for(alloc, name, items)?;
    Ok(Chunk {
        kind: ChunkKind::User,
        stamp: stamp_of(now),
        epoch,
        first,
        entries,
        trailer,
    })
}

/// The chunk of items from an offset on.
pub(crate) fn make_user(
    alloc: Global,
    epoch: u64,
    first: u64,
    name: &[u8],
    items: &[Tagged],
    now: u64,
) -> Result<Stored, OfferFault>
    requires { length name.now ≤ 255 }
    ensures made { IfOk result (IsMade epoch first name.now items.now) }
    ensures refused { IfErr result IsLimit }
{
    match user_chunk(alloc, epoch, first, name, items, now) {
        Ok(chunk) => keep(alloc, &chunk),
        Err(_) => Err(OfferFault::Memory),
    }
}

fn delta_chunk(
    alloc: Global,
    epoch: u64,
    first: u64,
    name: &[u8],
    offset: u64,
    stamp: i64,
) -> Result<Chunk, AllocError>
    requires some { 1 ≤ length name.now }
    requires few { length name.now ≤ 255 }
    ensures { IfOk result (λ c. c ≡ offset_chunk epoch stamp first name.now offset) }
{
    let mut body = Octets::new(alloc);
    put_delta(&mut body, DeltaParts::Offset { name, offset })?;
    let mut entries = Row::new(alloc);
    match entries.push(Entry::Simple(body)) {
        Ok(()) => {}
        Err(_) => return Err(AllocError),
    }
    Ok(Chunk {
        kind: ChunkKind::Delta,
        stamp,
        epoch,
        first,
        entries,
        trailer: Octets::new(alloc),
    })
}

/// The chunk that stores an offset for a name.
pub(crate) fn make_offset(
    alloc: Global,
    epoch: u64,
    first: u64,
    name: &[u8],
    offset: u64,
    now: u64,
) -> Result<Stored, OfferFault>
    requires some { 1 ≤ length name.now }
    requires few { length name.now ≤ 255 }
    ensures made { IfOk result (IsOffset epoch first name.now offset) }
    ensures refused { IfErr result IsLimit }
{
    match delta_chunk(alloc, epoch, first, name, offset, stamp_of(now)) {
        Ok(chunk) => keep(alloc, &chunk),
        Err(_) => Err(OfferFault::Memory),
    }
}

/// What waits for the confirm of items that took this range.
pub(crate) fn waits_for(
    alloc: Global,
    given: Given,
    from: u64,
    end: u64,
    items: &[Tagged],
) -> Result<Waits, AllocError>
    ensures { IfOk result (IsWait given from end items.now) }
{
    let ids = copy_ids(alloc, items)?;
    let entries = copy_entries(alloc, items)?;
    Ok(Waits {
        given,
        from,
        end,
        ids,
        entries,
    })
}
