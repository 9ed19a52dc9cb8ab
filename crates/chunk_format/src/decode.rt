//! Reads chunks.

ghost use Rattle.std.specs.Prelude.{◌≡◌, List, ℕ, IfOk};
ghost use Rattle.chunk_format.specs.Parts.{entry_of};
ghost use Rattle.chunk_format.specs.Faults.{SpellsEntries, ChunkWrong, BeginsWith, HeadsChunk, whole_len};
ghost use Rattle.chunk_format.specs.Reads.{Reads, ReadsThis};

use crate::check::check_chunk;
use crate::chunk::{Chunk, Header};
use crate::entry::Entry;
use crate::fault::ChunkFault;
use crate::split::{EntryParts, split_entry};
use frame_wire::{Octets, Row};
use std::alloc::{AllocError, Global};
use thiserror::Error;

/// A chunk that was read from the front of bytes.
#[derive(Debug, Drop)]
pub struct ReadChunk {
    pub chunk: Chunk,
    /// How many bytes spell the chunk.
    pub used: usize,
}

/// Why no chunk was read.
#[derive(Clone, Copy, Debug, PartialEq, Eq, Error)]
pub enum ChunkError {
    /// The bytes begin with no chunk.
    #[error("{0}")]
    Fault(ChunkFault),
    #[error("memory ran out")]
    Memory,
}

/// An entry of its own.
pub fn own_entry(alloc: Global, parts: EntryParts<'_>) -> Result<Entry, AllocError>
    ensures { IfOk result (λ entry. entry ≡ entry_of parts.entry) }
{
    match parts {
        EntryParts::Simple(body) => Ok(Entry::Simple(Octets::copy(alloc, body)?)),
        EntryParts::Batch {
            compression,
            spare,
            records,
            uncompressed,
            body,
        } => Ok(Entry::Batch {
            compression,
            spare,
            records,
            uncompressed,
            body: Octets::copy(alloc, body)?,
        }),
    }
}

/// The entries of a payload that is so many entries.
fn own_entries(alloc: Global, payload: &[u8], count: u16) -> Result<Row<Entry>, AllocError>
    requires { (entries : List Entry) × SpellsEntries count payload.now entries }
    ensures { IfOk result (λ row. SpellsEntries count payload.now row) }
{
    let mut row = Row::new(alloc);
    let mut at = 0;
    'entries: for _done in 0..count {
        let Some((parts, len)) = split_entry(&payload[at..]) else {
            unreachable!()
        };
        let entry = own_entry(alloc, parts)?;
        let Ok(()) = row.push(entry) else {
            return Err(AllocError);
        };
        at += len;
    }
    Ok(row)
}

/// The chunk that a checked header heads.
fn build_chunk(alloc: Global, bytes: &[u8], header: &Header) -> Result<Chunk, AllocError>
    requires { HeadsChunk header.now bytes.now }
    ensures { IfOk result (λ chunk. BeginsWith chunk (whole_len header.now) bytes.now) }
{
    let payload_end = 48 + header.payload_len as usize;
    let end = payload_end + header.trailer_len as usize;
    let entries = own_entries(alloc, &bytes[48..payload_end], header.entries)?;
    let trailer = Octets::copy(alloc, &bytes[payload_end..end])?;
    Ok(Chunk {
        kind: header.kind,
        stamp: header.stamp,
        epoch: header.epoch,
        first: header.first,
        entries,
        trailer,
    })
}

fn read_chunk(alloc: Global, bytes: &[u8]) -> Result<ReadChunk, ChunkError>
    ensures { Reads bytes.now result }
{
    let header = match check_chunk(bytes) {
        Ok(header) => header,
        Err(fault) => return Err(ChunkError::Fault(fault)),
    };
    let used = 48 + header.payload_len as usize + header.trailer_len as usize;
    match build_chunk(alloc, bytes, &header) {
        Ok(chunk) => Ok(ReadChunk { chunk, used }),
        Err(_) => Err(ChunkError::Memory),
    }
}

/// Reads a chunk from the front of the bytes. Bytes after it are left.
/// It refuses exactly with the first check that fails, and never where the bytes begin with a
/// chunk; then it fails for want of memory alone.
pub fn decode_chunk(alloc: Global, bytes: &[u8]) -> Result<ReadChunk, ChunkError>
    ensures read { Reads bytes.now result }
    ensures only { (chunk : Chunk) (used : ℕ) → BeginsWith chunk used bytes.now → ReadsThis chunk used result }
    ensures told { (fault : ChunkFault) → ChunkWrong bytes.now fault → result ≡ Err (ChunkError.Fault fault) }
{
    read_chunk(alloc, bytes)
}
