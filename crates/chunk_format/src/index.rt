//! What an index holds of a chunk.

ghost use Rattle.std.specs.Prelude.{◌≡◌, ℕ, ◌<◌, ◌^◌};
ghost use Rattle.chunk_format.specs.declared.chunk.Header.{Header};
ghost use Rattle.chunk_format.specs.declared.chunk.Chunk.{Chunk};
ghost use Rattle.chunk_format.specs.Chunks.{header_of, IsChunk};
ghost use Rattle.chunk_format.specs.Index.{index_bytes, FitsIndex, SameIndexed};

use crate::chunk::Header;
use crate::encode::code_of;

/// The record of a chunk that begins at this place of its segment, in bytes: the first offset, the
/// stamp, the epoch, the place and the kind, big-endian.
#[tactic(auto, unfolding(crate::specs::Index::index_bytes, frame_wire::specs::Fields::u8_bytes, frame_wire::specs::Fields::u32_bytes, frame_wire::specs::Fields::u64_bytes, frame_wire::specs::Fields::i64_bytes))]
pub fn index_record(header: &Header, place: u32) -> [u8; 29]
    ensures { result ≡ index_bytes header.now place }
{
    let mut record = [0; 29];
    record[0..8].copy_from_slice(&header.first.to_be_bytes());
    record[8..16].copy_from_slice(&header.stamp.to_be_bytes());
    record[16..24].copy_from_slice(&header.epoch.to_be_bytes());
    record[24..28].copy_from_slice(&place.to_be_bytes());
    record[28] = code_of(header.kind);
    record
}

/// Equal records are of chunks with the same first offset, stamp, epoch and kind, at the same place, and what a record
/// holds of a chunk fits it. It does nothing.
pub fn equal_index_records_agree()
    ensures agree { (h other : Header) (place other_place : ℕ) → FitsIndex h place → FitsIndex other other_place → index_bytes h place ≡ index_bytes other other_place → SameIndexed h place other other_place }
    ensures fits { (c : Chunk) (place : ℕ) → IsChunk c → place < 2 ^ 32 → FitsIndex (header_of c) place }
{}
