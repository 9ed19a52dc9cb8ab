//! Writes chunks.

ghost use Rattle.std.specs.Prelude.{◌≡◌, ◌+◌, ◌≤◌, ◌++◌, length, drop, replicate, IfOk, OnOk, OnErr};
ghost use Rattle.chunk_format.specs.Chunks.{entries_bytes, kind_code, header_bytes, header_of, IsChunk, ChunkSpells};

use crate::chunk::{Chunk, ChunkKind, Header};
use crate::entry::push_entry;
use crate::valid::{count_records, payload_len};
use bytes::Bytes;
use chunk_crc::crc32;
use frame_wire::Octets;
use std::alloc::{AllocError, Global};

/// Magic 5 in the high four bits, version 0 in the low four.
const MAGIC: u8 = 0x50;

/// A chunk's header beside all its bytes.
#[derive(Drop)]
pub struct Encoded {
    pub header: Header,
    pub bytes: Bytes,
}

pub fn code_of(kind: ChunkKind) -> u8
    ensures { result ≡ kind_code kind }
{
    match kind {
        ChunkKind::User => 0,
        ChunkKind::Delta => 1,
        ChunkKind::Snapshot => 2,
    }
}

/// The 48 bytes of a header, the last four of which are 0.
#[tactic(auto, unfolding(crate::specs::Chunks::header_bytes, frame_wire::specs::Fields::u8_bytes, frame_wire::specs::Fields::u16_bytes, frame_wire::specs::Fields::u32_bytes, frame_wire::specs::Fields::u64_bytes, frame_wire::specs::Fields::i64_bytes))]
fn spelled_header(header: &Header) -> [u8; 48]
    ensures { result ≡ header_bytes header.now }
{
    let mut bytes = [0; 48];
    bytes[0] = MAGIC;
    bytes[1] = code_of(header.kind);
    bytes[2..4].copy_from_slice(&header.entries.to_be_bytes());
    bytes[4..8].copy_from_slice(&header.records.to_be_bytes());
    bytes[8..16].copy_from_slice(&header.stamp.to_be_bytes());
    bytes[16..24].copy_from_slice(&header.epoch.to_be_bytes());
    bytes[24..32].copy_from_slice(&header.first.to_be_bytes());
    bytes[32..36].copy_from_slice(&header.crc.to_be_bytes());
    bytes[36..40].copy_from_slice(&header.payload_len.to_be_bytes());
    bytes[40..44].copy_from_slice(&header.trailer_len.to_be_bytes());
    bytes
}

/// Writes the 48 bytes of a header behind the bytes. Where memory runs out they stay as they were.
pub fn put_header(out: &mut Octets, header: &Header) -> Result<(), AllocError>
    ensures ok { OnOk result (out.new ≡ out.old ++ header_bytes header.now) }
    ensures err { OnErr result (out.new ≡ out.old) }
{
    out.push_slice(&spelled_header(header))
}

/// Room for a header, the payload of a chunk, and its trailer.
fn encode_parts(alloc: Global, chunk: &Chunk, payload_end: usize) -> Result<Vec<u8>, AllocError>
    requires is_chunk { IsChunk chunk.now }
    requires payload { payload_end ≡ 48 + length (entries_bytes chunk.now.entries) }
    ensures { IfOk result (λ v. v.items ≡ replicate 48 0 ++ (entries_bytes chunk.now.entries ++ chunk.now.trailer)) }
{
    let trailer = chunk.trailer.as_slice();
    let mut bytes = Vec::with_capacity(alloc, payload_end + trailer.len())?;
    bytes.extend_from_slice(&[0; 48])?;
    for entry in chunk.entries.as_slice() {
        push_entry(&mut bytes, entry)?;
    }
    bytes.extend_from_slice(trailer)?;
    Ok(bytes)
}

fn make_header(chunk: &Chunk, payload: &[u8]) -> Header
    requires is_chunk { IsChunk chunk.now }
    requires payload { payload.now ≡ entries_bytes chunk.now.entries }
    ensures { result ≡ header_of chunk.now }
{
    Header {
        kind: chunk.kind,
        entries: chunk.entries.as_slice().len() as u16,
        records: count_records(chunk.entries.as_slice()),
        stamp: chunk.stamp,
        epoch: chunk.epoch,
        first: chunk.first,
        crc: crc32(payload),
        payload_len: payload.len() as u32,
        trailer_len: chunk.trailer.len() as u32,
    }
}

/// Puts a header in the place of the first 48 bytes.
fn set_header(bytes: &mut [u8], header: &Header)
    requires { 48 ≤ length bytes.old }
    ensures { bytes.new ≡ header_bytes header.now ++ drop 48 bytes.old }
{
    bytes[..48].copy_from_slice(&spelled_header(header));
}

/// A chunk's header and all its bytes, each of which is written once, into the buffer that is shared.
pub fn encode_whole(alloc: Global, chunk: &Chunk) -> Result<Encoded, AllocError>
    requires { IsChunk chunk.now }
    ensures header { IfOk result (λ e. e.header ≡ header_of chunk.now) }
    ensures bytes { IfOk result (λ e. ChunkSpells chunk.now e.bytes) }
{
    let payload_end = 48 + payload_len(chunk.entries.as_slice()) as usize;
    let mut bytes = encode_parts(alloc, chunk, payload_end)?;
    let header = make_header(chunk, &bytes.as_slice()[48..payload_end]);
    set_header(bytes.as_mut_slice(), &header);
    Ok(Encoded {
        header,
        bytes: Bytes::from_vec(bytes)?,
    })
}

/// Writes a chunk for which `is_chunk` holds. It fails for want of memory alone.
pub fn encode_chunk(alloc: Global, chunk: &Chunk) -> Result<Bytes, AllocError>
    requires { IsChunk chunk.now }
    ensures { IfOk result (λ b. ChunkSpells chunk.now b) }
{
    let encoded = encode_whole(alloc, chunk)?;
    Ok(encoded.bytes)
}
