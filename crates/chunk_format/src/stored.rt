//! Chunks that members and sessions share.

ghost use Rattle.std.specs.Prelude.{◌≡◌, ℕ, IfOk};
ghost use Rattle.chunk_format.specs.declared.chunk.Chunk.{Chunk};
ghost use Rattle.chunk_format.specs.Chunks.{header_of, IsChunk, ChunkSpells};
ghost use Rattle.chunk_format.specs.Faults.{ChunkWrong, BeginsWith};
ghost use Rattle.chunk_format.specs.Reads.{as_read, Reads, ReadsThis};

use crate::check::check_chunk;
use crate::chunk::{Chunk, Header};
use crate::decode::ChunkError;
use crate::encode::encode_whole;
use crate::fault::ChunkFault;
use bytes::Bytes;
use std::alloc::{AllocError, Global};
use std::marker::Model;

/// A header with the bytes of its chunk, seen as that chunk.
#[derive(Debug, Drop)]
pub struct Stored {
    header: Header,
    bytes: Bytes,
}

impl Model for Stored {
    ghost use Rattle.chunk_format.specs.declared.chunk.Chunk.{Chunk};
    ghost use Rattle.chunk_format.specs.ReadBack.{chunk_at, IsViewed};

    ghost Value = { Chunk };

    ghost view = { λ s. chunk_at s.header s.bytes };

    ghost invariant = { λ s. IsViewed s.header s.bytes };
}

/// A stored chunk that was read from the front of bytes.
#[derive(Debug, Drop)]
pub struct ReadStored {
    pub stored: Stored,
    /// How many bytes spell the chunk.
    pub used: usize,
}

/// The stored chunk with which the bytes begin, or the first check that fails.
fn read_stored(alloc: Global, bytes: &[u8]) -> Result<ReadStored, ChunkError>
    ensures { Reads bytes.now (as_read result) }
{
    let header = match check_chunk(bytes) {
        Ok(header) => header,
        Err(fault) => return Err(ChunkError::Fault(fault)),
    };
    let used = 48 + header.payload_len as usize + header.trailer_len as usize;
    match Bytes::copy_from_slice(alloc, &bytes[..used]) {
        Ok(bytes) => Ok(ReadStored {
            stored: Stored { header, bytes },
            used,
        }),
        Err(_) => Err(ChunkError::Memory),
    }
}

impl Stored {
    /// Keeps a chunk for which `is_chunk` holds. It fails for want of memory alone.
    pub fn make(alloc: Global, chunk: &Chunk) -> Result<Stored, AllocError>
        requires { IsChunk chunk.now }
        ensures { IfOk result (λ s. s ≡ chunk.now) }
    {
        let encoded = encode_whole(alloc, chunk)?;
        Ok(Stored {
            header: encoded.header,
            bytes: encoded.bytes,
        })
    }

    /// Keeps the chunk with which the bytes begin, and tells how many they are. Bytes after it are
    /// left. It answers as `decode_chunk` does: it refuses exactly with the first check that
    /// fails, and never where the bytes begin with a chunk; then it fails for want of memory
    /// alone. The bytes are checked once and copied once.
    pub fn read(alloc: Global, bytes: &[u8]) -> Result<ReadStored, ChunkError>
        ensures read { Reads bytes.now (as_read result) }
        ensures only { (chunk : Chunk) (used : ℕ) → BeginsWith chunk used bytes.now → ReadsThis chunk used (as_read result) }
        ensures told { (fault : ChunkFault) → ChunkWrong bytes.now fault → result ≡ Err (ChunkError.Fault fault) }
    {
        read_stored(alloc, bytes)
    }

    /// The same chunk, with one owner more of its bytes. It fails for want of memory alone.
    pub fn share(&self) -> Result<Stored, AllocError>
        ensures { IfOk result (λ s. s ≡ self.now) }
    {
        Ok(Stored {
            header: self.header,
            bytes: self.bytes.clone()?,
        })
    }

    /// The header of the chunk.
    pub fn header(&self) -> &Header
        ensures header { result.now ≡ header_of self.now }
        ensures is_chunk { IsChunk self.now }
    {
        &self.header
    }

    /// All bytes of the chunk: header, payload and trailer.
    pub fn bytes(&self) -> &[u8]
        ensures { ChunkSpells self.now result.now }
    {
        self.bytes.as_slice()
    }
}
