//! Changes of the last segment of a stream, and what all of its files then stand for.

ghost use Rattle.std.specs.Prelude.{◌≡◌, ◌++◌, ◌∷◌, ◌+◌, ◌<◌, [], List, ℕ, length, take};
ghost use Rattle.disk_calls.specs.Disk.{HasCause};
ghost use Rattle.chunk_format.specs.declared.chunk.Chunk.{Chunk};
ghost use Rattle.segment_pairs.specs.Log.{segment_of};
ghost use Rattle.segment_pairs.specs.Held.{Segment, OldOrNew, Front, EachLog, CanWrite, CanCut, CanBegin, Held, OutsideLog, all_chunks, BesidesPair};
ghost use Rattle.segment_pairs.specs.Left.{EachLeft};

use crate::pair::{cut_pair, make_pair, remove_pair, write_pair};
use chunk_format::Stored;
use disk_calls::{Disk, DiskDid};

/// Writes a chunk behind those of the last segment, at these places of both files.
pub fn write_last<D: Disk>(
    disk: &mut D,
    stream: u32,
    number: u64,
    place: u32,
    index_place: u64,
    chunk: &Stored,
) -> DiskDid
    requires { D.tells → (cs : List Chunk) × CanWrite stream number cs chunk.now place index_place (D.state disk.old) }
    ensures images { D.tells → (older : List Segment) (cs : List Chunk) → Held stream (record { number = number; chunks = cs } ∷ older) (D.state disk.old) → CanWrite stream number cs chunk.now place index_place (D.state disk.old) → EachLog stream (OldOrNew (all_chunks older ++ cs) chunk.now) (D.state disk.new) }
    ensures left { D.tells → (cs : List Chunk) → CanWrite stream number cs chunk.now place index_place (D.state disk.old) → EachLeft stream number (D.state disk.new) }
    ensures done { D.tells → result ≡ DiskDid.Done → (older : List Segment) (cs : List Chunk) → Held stream (record { number = number; chunks = cs } ∷ older) (D.state disk.old) → CanWrite stream number cs chunk.now place index_place (D.state disk.old) → Held stream (record { number = number; chunks = cs ++ chunk.now ∷ [] } ∷ older) (D.state disk.new) }
    ensures others { BesidesPair stream number (D.state disk.old) (D.state disk.new) }
    ensures cause { HasCause (result ≡ DiskDid.Failed) (D.state disk.old) (D.state disk.new) }
{
    write_pair(disk, stream, number, place, index_place, chunk)
}

/// Begins a segment with a chunk, behind a last one that has chunks. `segment_bytes` are those of the new segment.
pub fn write_new<D: Disk>(
    disk: &mut D,
    stream: u32,
    number: u64,
    chunk: &Stored,
    segment_bytes: &[u8],
) -> DiskDid
    requires whole { segment_bytes.now ≡ segment_of (chunk.now ∷ []) }
    requires first { chunk.now.first ≡ number }
    requires can { D.tells → (segments : List Segment) × CanBegin stream number segments (D.state disk.old) }
    ensures images { D.tells → (segments : List Segment) → CanBegin stream number segments (D.state disk.old) → EachLog stream (OldOrNew (all_chunks segments) chunk.now) (D.state disk.new) }
    ensures left { D.tells → 0 < number → EachLeft stream number (D.state disk.new) }
    ensures done { D.tells → result ≡ DiskDid.Done → (segments : List Segment) → CanBegin stream number segments (D.state disk.old) → Held stream (record { number = number; chunks = chunk.now ∷ [] } ∷ segments) (D.state disk.new) }
    ensures others { BesidesPair stream number (D.state disk.old) (D.state disk.new) }
    ensures cause { HasCause (result ≡ DiskDid.Failed) (D.state disk.old) (D.state disk.new) }
{
    make_pair(disk, stream, number, chunk, segment_bytes)
}

/// Removes the last segment.
pub fn remove_last<D: Disk>(disk: &mut D, stream: u32, number: u64) -> DiskDid
    ensures images { D.tells → (older : List Segment) (cs : List Chunk) → Held stream (record { number = number; chunks = cs } ∷ older) (D.state disk.old) → EachLog stream (Front (length (all_chunks older)) (all_chunks older ++ cs)) (D.state disk.new) }
    ensures left { D.tells → EachLeft stream number (D.state disk.old) → EachLeft stream number (D.state disk.new) }
    ensures done { D.tells → result ≡ DiskDid.Done → (older : List Segment) (cs : List Chunk) → Held stream (record { number = number; chunks = cs } ∷ older) (D.state disk.old) → Held stream older (D.state disk.new) }
    ensures others { BesidesPair stream number (D.state disk.old) (D.state disk.new) }
    ensures cause { HasCause (result ≡ DiskDid.Failed) (D.state disk.old) (D.state disk.new) }
{
    remove_pair(disk, stream, number)
}

/// Cuts the last segment behind some chunk, where both files are to end at these sizes.
pub fn cut_last<D: Disk>(
    disk: &mut D,
    stream: u32,
    number: u64,
    size: u64,
    index_size: u64,
) -> DiskDid
    requires { D.tells → (cs : List Chunk) × (left : ℕ) × CanCut stream number cs left size index_size (D.state disk.old) }
    ensures images { D.tells → (older : List Segment) (cs : List Chunk) (left : ℕ) → Held stream (record { number = number; chunks = cs } ∷ older) (D.state disk.old) → CanCut stream number cs left size index_size (D.state disk.old) → EachLog stream (Front (length (all_chunks older) + left) (all_chunks older ++ cs)) (D.state disk.new) }
    ensures left { D.tells → (cs : List Chunk) (left : ℕ) → CanCut stream number cs left size index_size (D.state disk.old) → EachLeft stream number (D.state disk.new) }
    ensures done { D.tells → result ≡ DiskDid.Done → (older : List Segment) (cs : List Chunk) (left : ℕ) → Held stream (record { number = number; chunks = cs } ∷ older) (D.state disk.old) → CanCut stream number cs left size index_size (D.state disk.old) → Held stream (record { number = number; chunks = take left cs } ∷ older) (D.state disk.new) }
    ensures others { BesidesPair stream number (D.state disk.old) (D.state disk.new) }
    ensures cause { HasCause (result ≡ DiskDid.Failed) (D.state disk.old) (D.state disk.new) }
{
    cut_pair(disk, stream, number, size, index_size)
}
