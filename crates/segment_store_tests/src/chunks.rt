//! Chunks that tests write.

use chunk_format::{Chunk, ChunkKind, Entry, Stored, is_chunk};
use frame_wire::{Octets, Row};
use std::alloc::{AllocError, Global};

/// A user chunk of one message of so many bytes, which takes 52 bytes more.
pub fn message(alloc: Global, first: u64, len: usize) -> Result<Stored, AllocError> {
    let bytes = Vec::from_elem(alloc, b'm', len)?;
    let mut entries = Row::new(alloc);
    if let Err(_) = entries.push(Entry::Simple(Octets::copy(alloc, &bytes)?)) {
        return Err(AllocError);
    }
    let chunk = Chunk {
        kind: ChunkKind::User,
        stamp: 0,
        epoch: 1,
        first,
        entries,
        trailer: Octets::new(alloc),
    };
    if !is_chunk(&chunk) {
        return Err(AllocError);
    }
    Stored::make(alloc, &chunk)
}
