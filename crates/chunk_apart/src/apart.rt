//! Chunks whose header stands apart from their payload.

ghost use Rattle.std.specs.Prelude.{◌≡◌, ◌++◌, IfOk};
ghost use Rattle.chunk_format.specs.declared.chunk.ChunkKind.TheVariants.{User};
ghost use Rattle.chunk_format.specs.Chunks.{header_bytes};
ghost use Rattle.chunk_apart.specs.Apart.{joined, ReadsApart};

use crate::take::take_checked;
use chunk_format::{Chunk, ChunkError, ChunkFault, ChunkKind, Header, decode_chunk, put_header};
use frame_wire::Octets;
use std::alloc::{AllocError, Global};

/// The 48 bytes of a header, and the payload.
fn join(alloc: Global, header: &Header, payload: &[u8]) -> Result<Octets, AllocError>
    ensures { IfOk result (λ bytes. bytes ≡ header_bytes header.now ++ payload.now) }
{
    let mut out = Octets::new(alloc);
    put_header(&mut out, header)?;
    out.push_slice(payload)?;
    Ok(out)
}

/// The chunk with which header and payload begin, of any kind: the bytes are joined.
#[tactic(auto, using(crate::proofs::ApartLaws::decoded))]
fn read_joined(alloc: Global, header: &Header, payload: &[u8]) -> Result<Chunk, ChunkError>
    ensures { ReadsApart (header_bytes header.now ++ payload.now) result }
{
    let Ok(bytes) = join(alloc, header, payload) else {
        return Err(ChunkError::Memory);
    };
    match decode_chunk(alloc, bytes.as_slice()) {
        Ok(read) => Ok(read.chunk),
        Err(error) => Err(error),
    }
}

/// The user chunk with which a header without a trailer and a payload begin.
fn read_user(alloc: Global, header: &Header, payload: &[u8]) -> Result<Chunk, ChunkError>
    requires trailer { header.now.trailer_len ≡ 0 }
    requires kind { header.now.kind ≡ User }
    ensures { ReadsApart (header_bytes header.now ++ payload.now) result }
{
    let len = header.payload_len as usize;
    if payload.len() < len {
        return Err(ChunkError::Fault(ChunkFault::Short {
            place: 48 + payload.len(),
        }));
    }
    match take_checked(alloc, header, &payload[..len]) {
        Ok(entries) => Ok(Chunk {
            kind: header.kind,
            stamp: header.stamp,
            epoch: header.epoch,
            first: header.first,
            entries,
            trailer: Octets::new(alloc),
        }),
        Err(error) => Err(error),
    }
}

/// Reads the chunk with which a header and a payload begin, as if they stood one behind the other
/// and the header counted no trailer. Bytes after the chunk are left. It refuses with the first
/// check that fails, at its place behind the first byte of the header. Entries of a user chunk are
/// copied once, straight from the payload; of another chunk header and payload are joined before.
pub fn read_apart(alloc: Global, header: &Header, payload: &[u8]) -> Result<Chunk, ChunkError>
    ensures { ReadsApart (joined header.now payload.now) result }
{
    let bare = Header {
        trailer_len: 0,
        ..*header
    };
    match bare.kind {
        ChunkKind::User => read_user(alloc, &bare, payload),
        ChunkKind::Delta | ChunkKind::Snapshot => read_joined(alloc, &bare, payload),
    }
}
