//! The entries of a payload that its header counts.

ghost use Rattle.std.specs.Prelude.{◌≡◌, length, [], IfOk, MatchResult};
ghost use Rattle.chunk_format.specs.declared.chunk.ChunkKind.TheVariants.{User};
ghost use Rattle.chunk_format.specs.Chunks.{records_of};
ghost use Rattle.chunk_format.specs.Faults.{IsSized, SpellsEntries, Counted, PartsRight};
ghost use Rattle.chunk_format.specs.Parts.{entry_of};
ghost use Rattle.chunk_apart.specs.Apart.{FailsParts};

use chunk_format::{ChunkError, ChunkFault, Entry, EntryParts, Header, crc32, split_entry};
use frame_wire::{Octets, Row};
use std::alloc::{AllocError, Global};

/// The greatest length of a payload, in bytes.
const MAX_PAYLOAD: u64 = 4_294_967_040;

/// Entries, and how many offsets they take.
#[derive(Drop)]
pub struct Taken {
    pub entries: Row<Entry>,
    pub records: u32,
}

/// An entry of its own.
fn own_entry(alloc: Global, parts: EntryParts<'_>) -> Result<Entry, AllocError>
    ensures { IfOk result (λ entry. entry ≡ entry_of parts.entry) }
{
    match parts {
        EntryParts::Simple(body) => Ok(Entry::Simple(Octets::copy(alloc, body)?)),
        EntryParts::Batch {
            compression,
            spare,
            records,
            uncompressed,
            body,
        } => Ok(Entry::Batch {
            compression,
            spare,
            records,
            uncompressed,
            body: Octets::copy(alloc, body)?,
        }),
    }
}

/// A payload that isn't what its header counts.
fn wrong_count(place: usize) -> ChunkError
    ensures { result ≡ ChunkError.Fault (ChunkFault.Count place) }
{
    ChunkError::Fault(ChunkFault::Count { place })
}

/// The entries of a payload, as many as its header says, or the place of the first wrong one, or
/// of what is left over.
fn take_entries(alloc: Global, header: &Header, payload: &[u8]) -> Result<Taken, ChunkError>
    requires { IsSized header.now }
    ensures { MatchResult result (λ taken. SpellsEntries header.now.entries payload.now taken.entries × (records_of taken.entries ≡ taken.records)) (λ error. FailsParts header.now payload.now error) }
{
    let mut entries = Row::new(alloc);
    let mut records = 0u32;
    let mut at = 0;
    'entries: for _done in 0..header.entries {
        let Some((parts, len)) = split_entry(&payload[at..]) else {
            return Err(wrong_count(48 + at));
        };
        let takes = parts.records();
        if takes == 0 {
            return Err(wrong_count(48 + at));
        }
        let Ok(entry) = own_entry(alloc, parts) else {
            return Err(ChunkError::Memory);
        };
        let Ok(()) = entries.push(entry) else {
            return Err(ChunkError::Memory);
        };
        records += u32::from(takes);
        at += len;
    }
    if at < payload.len() {
        return Err(wrong_count(48 + at));
    }
    Ok(Taken { entries, records })
}

/// The entries of a payload that is what its header counts.
fn take_counted(alloc: Global, header: &Header, payload: &[u8]) -> Result<Row<Entry>, ChunkError>
    requires { length payload.now ≡ header.now.payload_len }
    ensures { MatchResult result (λ entries. Counted header.now payload.now entries) (λ error. FailsParts header.now payload.now error) }
{
    if u64::from(header.payload_len) > MAX_PAYLOAD {
        return Err(wrong_count(36));
    }
    if header.entries == 0 {
        return Err(wrong_count(2));
    }
    let taken = take_entries(alloc, header, payload)?;
    if taken.records != header.records {
        return Err(wrong_count(4));
    }
    if header.first > u64::MAX - u64::from(taken.records) {
        return Err(wrong_count(24));
    }
    Ok(taken.entries)
}

/// The entries of the payload of a user chunk without a trailer, or the first check of it that
/// fails.
pub fn take_checked(
    alloc: Global,
    header: &Header,
    payload: &[u8],
) -> Result<Row<Entry>, ChunkError>
    requires len { length payload.now ≡ header.now.payload_len }
    requires kind { header.now.kind ≡ User }
    ensures { MatchResult result (λ entries. PartsRight header.now payload.now [] entries) (λ error. FailsParts header.now payload.now error) }
{
    let entries = take_counted(alloc, header, payload)?;
    let computed = crc32(payload);
    if computed != header.crc {
        return Err(ChunkError::Fault(ChunkFault::Crc {
            place: 32,
            stored: header.crc,
            computed,
        }));
    }
    Ok(entries)
}
