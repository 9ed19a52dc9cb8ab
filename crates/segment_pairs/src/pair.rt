//! Changes of a segment and its index.

ghost use Rattle.std.specs.Prelude.{◌≡◌, ◌≤◌, ◌<◌, ◌++◌, ◌∷◌, [], List, ℕ, length, take, None, IfOk};
ghost use Rattle.disk_calls.specs.Disk.{Image, HasCause, Only};
ghost use Rattle.disk_calls.specs.Frames.{AtMost, EachImage};
ghost use Rattle.chunk_format.specs.declared.chunk.Chunk.{Chunk};
ghost use Rattle.chunk_format.specs.Chunks.{IsChunk};
ghost use Rattle.segment_pairs.specs.Log.{record_of, segment_of, index_of};
ghost use Rattle.segment_pairs.specs.Held.{Stands, OldOrNew, Front, EachPair, BesidesPair, CanWrite, CanCut, Missing, GoneOrBefore, FoundTorn, segment_file};
ghost use Rattle.segment_pairs.specs.Left.{EachLeft};

use chunk_format::{Stored, index_record};
use disk_calls::{Disk, DiskDid, FileId, FileName, append, make_file, shorten};
use std::alloc::{AllocError, Global};

#[tactic(auto, unfolding(crate::specs::Log::record_of))]
pub(crate) fn record_bytes(place: u32, chunk: &Stored) -> [u8; 29]
    ensures bytes { result ≡ record_of place chunk.now }
    ensures is_chunk { IsChunk chunk.now }
{
    index_record(chunk.header(), place)
}

/// Writes a chunk behind those of a segment, which is to begin at these places of both files, and then its record behind
/// those of the index. Its calls of the disk are `write_at` and `sync` of each.
pub fn write_pair<D: Disk>(
    disk: &mut D,
    stream: u32,
    number: u64,
    place: u32,
    index_place: u64,
    chunk: &Stored,
) -> DiskDid
    requires { D.tells → (cs : List Chunk) × CanWrite stream number cs chunk.now place index_place (D.state disk.old) }
    ensures images { D.tells → (cs : List Chunk) → CanWrite stream number cs chunk.now place index_place (D.state disk.old) → EachPair stream number (OldOrNew cs chunk.now) (D.state disk.new) }
    ensures left { D.tells → (cs : List Chunk) → CanWrite stream number cs chunk.now place index_place (D.state disk.old) → EachLeft stream number (D.state disk.new) }
    ensures done { D.tells → result ≡ DiskDid.Done → (cs : List Chunk) → CanWrite stream number cs chunk.now place index_place (D.state disk.old) → Stands stream (record { number = number; chunks = cs ++ chunk.now ∷ [] }) (D.state disk.new) }
    ensures others { BesidesPair stream number (D.state disk.old) (D.state disk.new) }
    ensures cause { HasCause (result ≡ DiskDid.Failed) (D.state disk.old) (D.state disk.new) }
{
    let record = record_bytes(place, chunk);
    let segment = FileId {
        stream,
        file: FileName::Segment(number),
    };
    let index = FileId {
        stream,
        file: FileName::Index(number),
    };
    if let DiskDid::Failed = append(disk, segment, place as u64, chunk.bytes()) {
        return DiskDid::Failed;
    }
    append(disk, index, index_place, &record)
}

/// Cuts a segment and its index behind some chunk, where they are to end at these sizes, the index first. Its calls of
/// the disk are `cut` and `sync` of each.
pub fn cut_pair<D: Disk>(
    disk: &mut D,
    stream: u32,
    number: u64,
    size: u64,
    index_size: u64,
) -> DiskDid
    requires { D.tells → (cs : List Chunk) × (left : ℕ) × CanCut stream number cs left size index_size (D.state disk.old) }
    ensures images { D.tells → (cs : List Chunk) (left : ℕ) → CanCut stream number cs left size index_size (D.state disk.old) → EachPair stream number (Front left cs) (D.state disk.new) }
    ensures left { D.tells → (cs : List Chunk) (left : ℕ) → CanCut stream number cs left size index_size (D.state disk.old) → EachLeft stream number (D.state disk.new) }
    ensures done { D.tells → result ≡ DiskDid.Done → (cs : List Chunk) (left : ℕ) → CanCut stream number cs left size index_size (D.state disk.old) → Stands stream (record { number = number; chunks = take left cs }) (D.state disk.new) }
    ensures others { BesidesPair stream number (D.state disk.old) (D.state disk.new) }
    ensures cause { HasCause (result ≡ DiskDid.Failed) (D.state disk.old) (D.state disk.new) }
{
    let segment = FileId {
        stream,
        file: FileName::Segment(number),
    };
    let index = FileId {
        stream,
        file: FileName::Index(number),
    };
    if let DiskDid::Failed = shorten(disk, index, index_size) {
        return DiskDid::Failed;
    }
    shorten(disk, segment, size)
}

// What a segment and an index begin with.
pub(crate) const SEGMENT_HEADER: [u8; 8] = [79, 83, 73, 76, 0, 0, 0, 1];

pub(crate) const INDEX_HEADER: [u8; 8] = [79, 83, 73, 73, 0, 0, 0, 1];

/// The bytes of a segment of one chunk.
#[tactic(auto, unfolding(crate::specs::Log::segment_of, crate::specs::Log::spelled))]
pub fn segment_bytes(alloc: Global, chunk: &Stored) -> Result<Vec<u8>, AllocError>
    ensures { IfOk result (λ bytes. bytes.items ≡ segment_of (chunk.now ∷ [])) }
{
    let mut bytes = Vec::with_capacity(alloc, 8 + chunk.bytes().len())?;
    bytes.extend_from_slice(&SEGMENT_HEADER)?;
    bytes.extend_from_slice(chunk.bytes())?;
    Ok(bytes)
}

#[tactic(auto, unfolding(crate::specs::Log::index_of))]
fn index_bytes(chunk: &Stored) -> [u8; 37]
    ensures bytes { result ≡ index_of (chunk.now ∷ []) }
    ensures is_chunk { IsChunk chunk.now }
{
    let mut bytes = [0; 37];
    bytes[..8].copy_from_slice(&INDEX_HEADER);
    bytes[8..].copy_from_slice(&record_bytes(8, chunk));
    bytes
}

/// Begins a segment with a chunk: a file of the header and the chunk, then an index of its header and the record, each
/// in one write. Its calls of the disk are `write_at` and `sync` of each.
pub fn make_pair<D: Disk>(
    disk: &mut D,
    stream: u32,
    number: u64,
    chunk: &Stored,
    segment_bytes: &[u8],
) -> DiskDid
    requires whole { segment_bytes.now ≡ segment_of (chunk.now ∷ []) }
    requires first { chunk.now.first ≡ number }
    requires missing { D.tells → Missing stream number (D.state disk.old) }
    ensures images { D.tells → EachPair stream number (OldOrNew [] chunk.now) (D.state disk.new) }
    ensures left { D.tells → 0 < number → EachLeft stream number (D.state disk.new) }
    ensures done { D.tells → result ≡ DiskDid.Done → Stands stream (record { number = number; chunks = chunk.now ∷ [] }) (D.state disk.new) }
    ensures others { BesidesPair stream number (D.state disk.old) (D.state disk.new) }
    ensures cause { HasCause (result ≡ DiskDid.Failed) (D.state disk.old) (D.state disk.new) }
{
    let index_bytes = index_bytes(chunk);
    let segment = FileId {
        stream,
        file: FileName::Segment(number),
    };
    let index = FileId {
        stream,
        file: FileName::Index(number),
    };
    if let DiskDid::Failed = make_file(disk, segment, segment_bytes) {
        return DiskDid::Failed;
    }
    make_file(disk, index, &index_bytes)
}

/// Begins the log of a stream with segment 0 without chunks: the headers of a segment and an index. Its calls of the disk
/// are `write_at` and `sync` of each.
pub fn begin_pair<D: Disk>(disk: &mut D, stream: u32) -> DiskDid
    requires { D.tells → Missing stream 0 (D.state disk.old) }
    ensures images { D.tells → EachPair stream 0 (λ l. l ≡ []) (D.state disk.new) }
    ensures left { D.tells → EachImage (segment_file stream 0) (AtMost 8) (D.state disk.old) → EachLeft stream 0 (D.state disk.new) }
    ensures done { D.tells → result ≡ DiskDid.Done → Stands stream (record { number = 0; chunks = [] }) (D.state disk.new) }
    ensures others { BesidesPair stream 0 (D.state disk.old) (D.state disk.new) }
    ensures cause { HasCause (result ≡ DiskDid.Failed) (D.state disk.old) (D.state disk.new) }
{
    let segment = FileId {
        stream,
        file: FileName::Segment(0),
    };
    let index = FileId {
        stream,
        file: FileName::Index(0),
    };
    if let DiskDid::Failed = make_file(disk, segment, &SEGMENT_HEADER) {
        return DiskDid::Failed;
    }
    make_file(disk, index, &INDEX_HEADER)
}

/// Removes a segment, its index first. Its calls of the disk are `remove` of each.
pub fn remove_pair<D: Disk>(disk: &mut D, stream: u32, number: u64) -> DiskDid
    ensures images { GoneOrBefore stream number (D.state disk.old) (D.state disk.new) }
    ensures left { D.tells → EachLeft stream number (D.state disk.old) → EachLeft stream number (D.state disk.new) }
    ensures done { D.tells → result ≡ DiskDid.Done → Missing stream number (D.state disk.new) }
    ensures gone { result ≡ DiskDid.Done → Only None ((D.state disk.new).images (segment_file stream number)) }
    ensures others { BesidesPair stream number (D.state disk.old) (D.state disk.new) }
    ensures cause { HasCause (result ≡ DiskDid.Failed) (D.state disk.old) (D.state disk.new) }
{
    let segment = FileId {
        stream,
        file: FileName::Segment(number),
    };
    let index = FileId {
        stream,
        file: FileName::Index(number),
    };
    if let DiskDid::Failed = disk.remove(index) {
        return DiskDid::Failed;
    }
    disk.remove(segment)
}

/// Cuts away what a crash left behind the chunks of a segment, which end at these places, from the index first. Its
/// calls of the disk are `cut` and `sync` of each.
pub fn trim_pair<D: Disk>(
    disk: &mut D,
    stream: u32,
    number: u64,
    place: u64,
    index_place: u64,
) -> DiskDid
    requires { D.tells → (cs : List Chunk) × FoundTorn stream number cs place index_place (D.state disk.old) }
    ensures images { D.tells → (cs : List Chunk) → FoundTorn stream number cs place index_place (D.state disk.old) → EachPair stream number (λ l. l ≡ cs) (D.state disk.new) }
    ensures left { D.tells → (cs : List Chunk) → FoundTorn stream number cs place index_place (D.state disk.old) → EachLeft stream number (D.state disk.new) }
    ensures done { D.tells → result ≡ DiskDid.Done → (cs : List Chunk) → FoundTorn stream number cs place index_place (D.state disk.old) → Stands stream (record { number = number; chunks = cs }) (D.state disk.new) }
    ensures others { BesidesPair stream number (D.state disk.old) (D.state disk.new) }
    ensures cause { HasCause (result ≡ DiskDid.Failed) (D.state disk.old) (D.state disk.new) }
{
    let segment = FileId {
        stream,
        file: FileName::Segment(number),
    };
    let index = FileId {
        stream,
        file: FileName::Index(number),
    };
    if let DiskDid::Failed = shorten(disk, index, index_place) {
        return DiskDid::Failed;
    }
    shorten(disk, segment, place)
}
