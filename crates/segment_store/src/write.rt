//! Writing a chunk.

ghost use Rattle.std.specs.Prelude.{◌≡◌, ◌≤◌, ◌<◌, ◌∷◌, List, ℕ, length, IsErrOf, OnOk};
ghost use Rattle.disk_calls.specs.Disk.{HasCause};
ghost use Rattle.segment_pairs.specs.Log.{segment_of};
ghost use Rattle.segment_pairs.specs.Held.{Segment, EachLog, OldOrNew, OutsideLog, all_chunks};
ghost use Rattle.segment_store.specs.Recoverable.{LogRecoverable};
ghost use Rattle.segment_store.specs.Rows.{LogStands, FrontEnds, IsLast, grown};

use crate::fault::StoreFault;
use crate::rows::{ChunkAt, LastAt, index_place, last_at, row_of};
use chunk_format::Stored;
use disk_calls::{Disk, DiskDid};
use segment_pairs::{segment_bytes, write_last, write_new};
use std::alloc::Global;

// A chunk begins a new segment where that of the last chunk has at least so many bytes.
const SEGMENT_SIZE: u64 = 262_144;

/// Writes a chunk behind the log, which is to end where it begins. Memory is taken before the disk is called.
pub(crate) fn write_chunk<D: Disk>(
    alloc: Global,
    disk: &mut D,
    stream: u32,
    rows: &mut Vec<ChunkAt>,
    chunk: &Stored,
) -> Result<(), StoreFault>
    requires first { FrontEnds rows.old.items (length rows.old.items) chunk.now.first }
    requires stands { D.tells → (segments : List Segment) × LogStands stream rows.old.items segments (D.state disk.old) }
    ensures images { D.tells → (segments : List Segment) → LogStands stream rows.old.items segments (D.state disk.old) → EachLog stream (OldOrNew (all_chunks segments) chunk.now) (D.state disk.new) }
    ensures done { D.tells → (segments : List Segment) → LogStands stream rows.old.items segments (D.state disk.old) → OnOk result (LogStands stream rows.new.items (grown segments chunk.now) (D.state disk.new)) }
    ensures recoverable { D.tells → LogRecoverable stream (D.state disk.new) }
    ensures memory { IsErrOf result StoreFault.Memory → (rows.new.items ≡ rows.old.items) × (disk.new ≡ disk.old) }
    ensures others { OutsideLog stream (D.state disk.old) (D.state disk.new) }
    ensures cause { HasCause (IsErrOf result StoreFault.Disk) (D.state disk.old) (D.state disk.new) }
    ensures undamaged { (segment at : ℕ) → IsErrOf result (StoreFault.Damaged segment at) → ⊥ }
    ensures unworded { (place : ℕ) → IsErrOf result (StoreFault.DamagedWords place) → ⊥ }
{
    let last = last_at(rows);
    if last.size < SEGMENT_SIZE {
        return add_chunk(disk, stream, rows, last, chunk);
    }
    begin_segment(alloc, disk, stream, rows, chunk)
}

// Adds a chunk to the last segment, which is not full.
fn add_chunk<D: Disk>(
    disk: &mut D,
    stream: u32,
    rows: &mut Vec<ChunkAt>,
    last: LastAt,
    chunk: &Stored,
) -> Result<(), StoreFault>
    requires size { last.size < 262144 }
    requires first { FrontEnds rows.old.items (length rows.old.items) chunk.now.first }
    requires stands { D.tells → (x : Segment) × (older : List Segment) × LogStands stream rows.old.items (x ∷ older) (D.state disk.old) × IsLast x last }
    ensures images { D.tells → (x : Segment) (older : List Segment) → LogStands stream rows.old.items (x ∷ older) (D.state disk.old) → IsLast x last → EachLog stream (OldOrNew (all_chunks (x ∷ older)) chunk.now) (D.state disk.new) }
    ensures done { D.tells → (x : Segment) (older : List Segment) → LogStands stream rows.old.items (x ∷ older) (D.state disk.old) → IsLast x last → OnOk result (LogStands stream rows.new.items (grown (x ∷ older) chunk.now) (D.state disk.new)) }
    ensures recoverable { D.tells → LogRecoverable stream (D.state disk.new) }
    ensures memory { IsErrOf result StoreFault.Memory → (rows.new.items ≡ rows.old.items) × (disk.new ≡ disk.old) }
    ensures others { OutsideLog stream (D.state disk.old) (D.state disk.new) }
    ensures cause { HasCause (IsErrOf result StoreFault.Disk) (D.state disk.old) (D.state disk.new) }
    ensures undamaged { (segment at : ℕ) → IsErrOf result (StoreFault.Damaged segment at) → ⊥ }
    ensures unworded { (place : ℕ) → IsErrOf result (StoreFault.DamagedWords place) → ⊥ }
{
    rows.push(row_of(last.segment, last.count, last.size, chunk))?;
    if let DiskDid::Failed = write_last(
        disk,
        stream,
        last.segment,
        last.size as u32,
        index_place(last.count),
        chunk,
    ) {
        return Err(StoreFault::Disk);
    }
    Ok(())
}

// Begins a segment with a chunk, where the last one is full.
fn begin_segment<D: Disk>(
    alloc: Global,
    disk: &mut D,
    stream: u32,
    rows: &mut Vec<ChunkAt>,
    chunk: &Stored,
) -> Result<(), StoreFault>
    requires first { FrontEnds rows.old.items (length rows.old.items) chunk.now.first }
    requires stands { D.tells → (x : Segment) × (older : List Segment) × LogStands stream rows.old.items (x ∷ older) (D.state disk.old) × (262144 ≤ length (segment_of x.chunks)) }
    ensures images { D.tells → (x : Segment) (older : List Segment) → LogStands stream rows.old.items (x ∷ older) (D.state disk.old) → 262144 ≤ length (segment_of x.chunks) → EachLog stream (OldOrNew (all_chunks (x ∷ older)) chunk.now) (D.state disk.new) }
    ensures done { D.tells → (x : Segment) (older : List Segment) → LogStands stream rows.old.items (x ∷ older) (D.state disk.old) → 262144 ≤ length (segment_of x.chunks) → OnOk result (LogStands stream rows.new.items (grown (x ∷ older) chunk.now) (D.state disk.new)) }
    ensures recoverable { D.tells → LogRecoverable stream (D.state disk.new) }
    ensures memory { IsErrOf result StoreFault.Memory → (rows.new.items ≡ rows.old.items) × (disk.new ≡ disk.old) }
    ensures others { OutsideLog stream (D.state disk.old) (D.state disk.new) }
    ensures cause { HasCause (IsErrOf result StoreFault.Disk) (D.state disk.old) (D.state disk.new) }
    ensures undamaged { (segment at : ℕ) → IsErrOf result (StoreFault.Damaged segment at) → ⊥ }
    ensures unworded { (place : ℕ) → IsErrOf result (StoreFault.DamagedWords place) → ⊥ }
{
    let bytes = segment_bytes(alloc, chunk)?;
    let first = chunk.header().first;
    rows.push(row_of(first, 0, 8, chunk))?;
    if let DiskDid::Failed = write_new(disk, stream, first, chunk, &bytes) {
        return Err(StoreFault::Disk);
    }
    Ok(())
}
