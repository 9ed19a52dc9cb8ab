//! The checks of a chunk, in the order of the format.

ghost use Rattle.std.specs.Prelude.{◌≡◌, List, ℕ, length, MatchOption, MatchResult};
ghost use Rattle.chunk_format.specs.declared.entry.Entry.{Entry};
ghost use Rattle.chunk_format.specs.Chunks.{records_of, header_of, IsOneSimple};
ghost use Rattle.chunk_format.specs.Faults.{IsHeader, SpellsEntries, WrongEntry, Counted, CountWrong, TrailerRight, TrailerWrong, NotOneSimple, TrackedRight, TrackedWrong, TrackingRight, TrackingWrong, PartsRight, PartsWrong, ChunkWrong, BeginsWith, HeadsChunk, whole_len};
ghost use Rattle.chunk_format.specs.declared.chunk.Chunk.{Chunk};

use crate::chunk::{ChunkKind, Header};
use crate::fault::ChunkFault;
use crate::lists::{wrong_delta, wrong_snapshot, wrong_tag};
use crate::split::{EntryParts, split_entry};
use crate::valid::MAX_PAYLOAD;
use chunk_crc::crc32;

/// How many records a payload of so many entries has, or the place of its first wrong entry,
/// or of what is left over.
fn walk_entries(payload: &[u8], count: u16) -> Result<u32, usize>
    ensures { MatchResult result (λ records. (entries : List Entry) × SpellsEntries count payload.now entries × (records_of entries ≡ records)) (λ place. WrongEntry count payload.now place) }
{
    let mut at = 0;
    let mut total = 0u32;
    'entries: for _done in 0..count {
        let Some((parts, len)) = split_entry(&payload[at..]) else {
            return Err(at);
        };
        let records = parts.records();
        if records == 0 {
            return Err(at);
        }
        total += u32::from(records);
        at += len;
    }
    if at < payload.len() {
        return Err(at);
    }
    Ok(total)
}

/// Whether the payload is what its header counts, or the place of what is wrong.
fn check_counts(header: &Header, payload: &[u8]) -> Result<(), usize>
    requires fits { IsHeader header.now }
    requires len { length payload.now ≡ header.now.payload_len }
    ensures { MatchResult result (λ _. (entries : List Entry) × Counted header.now payload.now entries) (λ place. CountWrong header.now payload.now place) }
{
    if u64::from(header.payload_len) > MAX_PAYLOAD {
        return Err(36);
    }
    if header.entries == 0 {
        return Err(2);
    }
    match walk_entries(payload, header.entries) {
        Err(at) => Err(48 + at),
        Ok(records) => {
            if records != header.records {
                return Err(4);
            }
            if header.first > u64::MAX - u64::from(records) {
                return Err(24);
            }
            Ok(())
        }
    }
}

/// The place in the trailer of what is wrong in it.
fn wrong_trailer(kind: ChunkKind, entries: u16, trailer: &[u8]) -> Option<usize>
    ensures { MatchOption result (TrailerRight kind entries trailer.now) (λ at. TrailerWrong kind entries trailer.now at) }
{
    if trailer.is_empty() {
        return None;
    }
    match kind {
        ChunkKind::User => wrong_tag(trailer, entries as usize),
        ChunkKind::Delta | ChunkKind::Snapshot => Some(0),
    }
}

/// The body of the one entry of a payload, if there is one and it is simple.
fn body_of_one(entries: u16, payload: &[u8]) -> Option<&[u8]>
    ensures { (all : List Entry) → SpellsEntries entries payload.now all → MatchOption result (NotOneSimple all) (λ body. IsOneSimple all body.now) }
{
    if entries != 1 {
        return None;
    }
    match split_entry(payload) {
        Some((EntryParts::Simple(body), _)) => Some(body),
        Some(
            (
                EntryParts::Batch {
                    compression: _,
                    spare: _,
                    records: _,
                    uncompressed: _,
                    body: _,
                },
                _,
            ),
        ) => None,
        None => None,
    }
}

/// The place in the body of what is wrong in it.
fn wrong_tracked(kind: ChunkKind, body: &[u8]) -> Option<usize>
    ensures { MatchOption result (TrackedRight kind body.now) (λ at. TrackedWrong kind body.now at) }
{
    match kind {
        ChunkKind::User => None,
        ChunkKind::Delta => wrong_delta(body),
        ChunkKind::Snapshot => wrong_snapshot(body),
    }
}

/// The place of what is wrong in the tracking entries.
fn wrong_tracking(kind: ChunkKind, entries: u16, payload: &[u8]) -> Option<usize>
    ensures { (all : List Entry) → SpellsEntries entries payload.now all → MatchOption result (TrackingRight kind all) (λ place. TrackingWrong kind all place) }
{
    if kind == ChunkKind::User {
        return None;
    }
    let Some(body) = body_of_one(entries, payload) else {
        return Some(2);
    };
    match wrong_tracked(kind, body) {
        None => None,
        Some(at) => Some(52 + at),
    }
}

/// The checks of the payload and the trailer behind a header.
fn check_parts(header: &Header, payload: &[u8], trailer: &[u8]) -> Result<(), ChunkFault>
    requires fits { IsHeader header.now }
    requires payload_len { length payload.now ≡ header.now.payload_len }
    requires trailer_len { length trailer.now ≡ header.now.trailer_len }
    ensures { MatchResult result (λ _. (entries : List Entry) × PartsRight header.now payload.now trailer.now entries) (λ fault. PartsWrong header.now payload.now trailer.now fault) }
{
    if let Err(place) = check_counts(header, payload) {
        return Err(ChunkFault::Count { place });
    }
    let computed = crc32(payload);
    if computed != header.crc {
        return Err(ChunkFault::Crc {
            place: 32,
            stored: header.crc,
            computed,
        });
    }
    if let Some(at) = wrong_trailer(header.kind, header.entries, trailer) {
        return Err(ChunkFault::Trailer {
            place: 48 + header.payload_len as usize + at,
        });
    }
    if let Some(place) = wrong_tracking(header.kind, header.entries, payload) {
        return Err(ChunkFault::Tracking { place });
    }
    Ok(())
}

/// The header of the chunk with which the bytes begin, or the first check that fails.
fn checked_header(bytes: &[u8]) -> Result<Header, ChunkFault>
    ensures { MatchResult result (λ h. HeadsChunk h bytes.now) (λ fault. ChunkWrong bytes.now fault) }
{
    let header = match Header::read(bytes) {
        Ok(header) => header,
        Err(fault) => return Err(fault),
    };
    let payload_end = 48 + header.payload_len as usize;
    let end = payload_end + header.trailer_len as usize;
    if bytes.len() < end {
        return Err(ChunkFault::Short { place: bytes.len() });
    }
    let payload = &bytes[48..payload_end];
    let trailer = &bytes[payload_end..end];
    match check_parts(&header, payload, trailer) {
        Ok(()) => Ok(header),
        Err(fault) => Err(fault),
    }
}

/// Checks whether the bytes begin with a chunk, and gives its header. Bytes after it are left.
/// It refuses exactly with the first check that fails, and never where the bytes begin with a
/// chunk. It takes no memory.
pub fn check_chunk(bytes: &[u8]) -> Result<Header, ChunkFault>
    ensures found { MatchResult result (λ h. HeadsChunk h bytes.now) (λ fault. ChunkWrong bytes.now fault) }
    ensures only { (c : Chunk) (used : ℕ) → BeginsWith c used bytes.now → MatchResult result (λ h. (h ≡ header_of c) × (whole_len h ≡ used)) (λ fault. ⊥) }
    ensures told { (fault : ChunkFault) → ChunkWrong bytes.now fault → result ≡ Err fault }
{
    checked_header(bytes)
}
