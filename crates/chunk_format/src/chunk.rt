//! Chunks and their headers as plain data.

use crate::entry::Entry;
use frame_wire::{Octets, Row};

/// What a chunk is for.
#[derive(Clone, Copy, Debug, PartialEq, Eq)]
pub enum ChunkKind {
    /// Entries of publishers.
    User,
    /// One stored offset.
    Delta,
    /// All ids and stored offsets of the log before it.
    Snapshot,
}

/// The 48 bytes before a payload, as numbers.
#[derive(Clone, Copy, Debug, PartialEq, Eq)]
pub struct Header {
    pub kind: ChunkKind,
    /// How many entries there are.
    pub entries: u16,
    /// How many offsets the entries take.
    pub records: u32,
    /// Milliseconds since 1970.
    pub stamp: i64,
    pub epoch: u64,
    /// The offset of the first record.
    pub first: u64,
    /// The CRC-32 of the payload.
    pub crc: u32,
    /// The length of the payload in bytes, at most 4,294,967,040.
    pub payload_len: u32,
    /// The length of the trailer in bytes.
    pub trailer_len: u32,
}

/// A chunk. `is_chunk` tells whether it has a spelling.
#[derive(Debug, Drop)]
pub struct Chunk {
    pub kind: ChunkKind,
    /// Milliseconds since 1970.
    pub stamp: i64,
    pub epoch: u64,
    /// The offset of the first record.
    pub first: u64,
    /// At least one and at most 65,535 entries.
    pub entries: Row<Entry>,
    /// The bytes after the payload.
    pub trailer: Octets,
}
