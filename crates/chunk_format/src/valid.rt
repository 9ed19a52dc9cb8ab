//! Which chunks have a spelling.

ghost use Rattle.std.specs.Prelude.{◌≡◌, ◌<◌, ◌≤◌, ◌^◌, ◌↔◌, ◌⊎◌, List, ℕ, [], length, IsTrue, MatchOption};
ghost use Rattle.std.specs.List.{All};
ghost use Rattle.chunk_format.specs.Chunks.{IsEntry, entry_bytes, entry_records, entries_bytes, records_of, HasRecords, IsOneSimple, HoldsByKind, IsChunk};
ghost use Rattle.chunk_format.specs.Tags.{Tag, SpellsTags, DeltaEntry, SpellsDelta, SnapshotEntry, SpellsSnapshot};

use crate::chunk::{Chunk, ChunkKind};
use crate::entry::Entry;
use crate::lists::{wrong_delta, wrong_snapshot, wrong_tag};

/// The greatest length of a payload, in bytes.
pub const MAX_PAYLOAD: u64 = 4_294_967_040;

fn is_entry(entry: &Entry) -> bool
    ensures { IsTrue result ↔ IsEntry entry.now }
{
    match entry {
        Entry::Simple(body) => body.len() < 0x8000_0000,
        Entry::Batch {
            compression,
            spare,
            records,
            uncompressed,
            body,
        } => {
            let _in_range = (*records, *uncompressed);
            *compression < 8 && *spare < 16 && body.len() < 0x1_0000_0000
        }
    }
}

/// Whether each entry may stand in a chunk.
fn are_entries(entries: &[Entry]) -> bool
    ensures { IsTrue result ↔ (All IsEntry entries.now × All HasRecords entries.now) }
{
    for entry in entries {
        if !is_entry(entry) || records(entry) == 0 {
            return false;
        }
    }
    true
}

/// How many bytes an entry has.
#[tactic(auto, using(crate::proofs::Sizes::simple_length, crate::proofs::Sizes::batch_length))]
fn entry_len(entry: &Entry) -> u64
    requires { IsEntry entry.now }
    ensures len { result ≡ length (entry_bytes entry.now) }
    ensures small { result < 2 ^ 33 }
{
    match entry {
        Entry::Simple(body) => 4 + body.len() as u64,
        Entry::Batch {
            compression: _,
            spare: _,
            records: _,
            uncompressed: _,
            body,
        } => 11 + body.len() as u64,
    }
}

/// How many bytes entries have.
pub fn payload_len(entries: &[Entry]) -> u64
    requires each { All IsEntry entries.now }
    requires few { length entries.now < 2 ^ 16 }
    ensures { result ≡ length (entries_bytes entries.now) }
{
    let mut total = 0u64;
    for entry in entries {
        total += entry_len(entry);
    }
    total
}

/// How many offsets an entry takes.
fn records(entry: &Entry) -> u16
    ensures { result ≡ entry_records entry.now }
{
    match entry {
        Entry::Simple(_) => 1,
        Entry::Batch {
            compression: _,
            spare: _,
            records,
            uncompressed: _,
            body: _,
        } => *records,
    }
}

/// How many offsets entries take.
pub fn count_records(entries: &[Entry]) -> u32
    requires { length entries.now < 2 ^ 16 }
    ensures { result ≡ records_of entries.now }
{
    let mut total = 0u32;
    for entry in entries {
        total += u32::from(records(entry));
    }
    total
}

/// Whether a trailer is empty, or has a tag for each of so many entries, all of one name.
fn holds_tags(trailer: &[u8], entries: usize) -> bool
    ensures { IsTrue result ↔ (trailer.now ≡ [] ⊎ ((tags : List Tag) × SpellsTags entries trailer.now tags)) }
{
    trailer.is_empty() || wrong_tag(trailer, entries).is_none()
}

/// The body of the entry, where there is one and it is simple.
pub fn one_simple(entries: &[Entry]) -> Option<&[u8]>
    ensures { MatchOption result ((body : List ℕ) → IsOneSimple entries.now body → ⊥) (λ body. IsOneSimple entries.now body.now) }
{
    match entries {
        [Entry::Simple(body)] => Some(body.as_slice()),
        _ => None,
    }
}

fn holds_delta(entries: &[Entry]) -> bool
    ensures { IsTrue result ↔ ((body : List ℕ) × (delta : DeltaEntry) × IsOneSimple entries.now body × SpellsDelta body delta) }
{
    match one_simple(entries) {
        Some(body) => wrong_delta(body).is_none(),
        None => false,
    }
}

fn holds_snapshot(entries: &[Entry]) -> bool
    ensures { IsTrue result ↔ ((body : List ℕ) × (snapshot : List SnapshotEntry) × IsOneSimple entries.now body × SpellsSnapshot body snapshot) }
{
    match one_simple(entries) {
        Some(body) => wrong_snapshot(body).is_none(),
        None => false,
    }
}

/// Whether a chunk holds what its kind holds.
fn holds_by_kind(chunk: &Chunk) -> bool
    ensures { IsTrue result ↔ HoldsByKind chunk.now.kind chunk.now.entries chunk.now.trailer }
{
    let entries = chunk.entries.as_slice();
    let trailer = chunk.trailer.as_slice();
    match chunk.kind {
        ChunkKind::User => holds_tags(trailer, entries.len()),
        ChunkKind::Delta => trailer.is_empty() && holds_delta(entries),
        ChunkKind::Snapshot => trailer.is_empty() && holds_snapshot(entries),
    }
}

/// Whether the chunk has a spelling.
pub fn is_chunk(chunk: &Chunk) -> bool
    ensures { IsTrue result ↔ IsChunk chunk.now }
{
    let entries = chunk.entries.as_slice();
    if entries.is_empty() || entries.len() > 65_535 {
        return false;
    }
    if !are_entries(entries) || payload_len(entries) > MAX_PAYLOAD {
        return false;
    }
    let _in_range = (chunk.stamp, chunk.epoch);
    let records = u64::from(count_records(entries));
    chunk.first <= u64::MAX - records && holds_by_kind(chunk)
}
