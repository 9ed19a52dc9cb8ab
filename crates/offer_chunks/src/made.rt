//! The chunks that an offer is made into.

ghost use Rattle.std.specs.Prelude.{◌≡◌, ◌≤◌, IfOk, length};
ghost use Rattle.chunk_format.specs.declared.chunk.ChunkKind.TheVariants.{User};
ghost use Rattle.epoch_coordinator.specs.MemberSteps.{stamp_at};
ghost use Rattle.epoch_coordinator.specs.Offers.{offset_chunk};

use chunk_format::{Chunk, ChunkKind, DeltaParts, Entry, put_delta};
use frame_wire::{Octets, Row};
use std::alloc::{AllocError, Global};

/// A moment in milliseconds as the stamp of a chunk, which is at most 2^63 - 1.
pub fn stamp_of(now: u64) -> i64
    ensures { result ≡ stamp_at now }
{
    if now > 9_223_372_036_854_775_807 {
        return i64::MAX;
    }
    now as i64
}

/// The user chunk of these entries from an offset on.
pub fn user_chunk(epoch: u64, stamp: i64, first: u64, entries: Row<Entry>, trailer: Octets) -> Chunk
    ensures kind { result.kind ≡ User }
    ensures epoch { result.epoch ≡ epoch }
    ensures stamp { result.stamp ≡ stamp }
    ensures first { result.first ≡ first }
    ensures entries { result.entries ≡ entries }
    ensures trailer { result.trailer ≡ trailer }
{
    Chunk {
        kind: ChunkKind::User,
        stamp,
        epoch,
        first,
        entries,
        trailer,
    }
}

/// The chunk that stores an offset for a name of 1 to 255 bytes. It fails for want of memory alone.
pub fn delta_chunk(
    alloc: Global,
    epoch: u64,
    stamp: i64,
    name: &[u8],
    offset: u64,
    first: u64,
) -> Result<Chunk, AllocError>
    requires some { 1 ≤ length name.now }
    requires few { length name.now ≤ 255 }
    ensures { IfOk result (λ c. c ≡ offset_chunk epoch stamp name.now offset first) }
{
    let mut body = Octets::new(alloc);
    put_delta(&mut body, DeltaParts::Offset { name, offset })?;
    let mut entries = Row::new(alloc);
    match entries.push(Entry::Simple(body)) {
        Ok(()) => {}
        Err(_) => return Err(AllocError),
    }
    Ok(Chunk {
        kind: ChunkKind::Delta,
        stamp,
        epoch,
        first,
        entries,
        trailer: Octets::new(alloc),
    })
}
