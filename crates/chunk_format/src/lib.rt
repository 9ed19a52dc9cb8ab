//! Chunks of a log: their entries, their bytes and their checksum.
#![tactic(auto)]

mod check;
mod chunk;
mod decode;
mod encode;
mod entry;
mod fault;
mod field;
mod fields;
mod index;
mod laws;
mod lists;
mod put;
mod read;
mod split;
mod stored;
mod tracking;
mod valid;

pub use check::check_chunk;
pub use chunk::{Chunk, ChunkKind, Header};
pub use chunk_crc::crc32;
pub use decode::{ChunkError, ReadChunk, decode_chunk};
pub use encode::{encode_chunk, put_header};
pub use entry::{Entry, put_entry};
pub use fault::ChunkFault;
pub use field::{HeaderFault, chunk_fields_are_lawful, read_header};
pub use index::{equal_index_records_agree, index_record};
pub use laws::{
    a_small_list_says, an_opening_chunk_is_truthful, beginnings_of_one_log,
    bytes_begin_with_one_chunk, entries_without_a_tag_stay, names_stand_where_they_are_first,
    one_chunk_more, rows_have_the_tags_of_their_trailer, user_chunks_above_an_offset,
};
pub use put::{put_delta, put_snapshot, put_tag};
pub use split::{EntryParts, split_entry};
pub use stored::{ReadStored, Stored};
pub use tracking::{DeltaParts, SnapshotParts, TagParts, split_delta, split_snapshot, split_tag};
pub use valid::is_chunk;
