//! Why bytes begin no chunk.

use thiserror::Error;

/// The first check that failed, and its place in the bytes.
#[derive(Clone, Copy, Debug, PartialEq, Eq, Error)]
pub enum ChunkFault {
    /// The header, the payload or the trailer isn't whole. The place is the number of bytes.
    #[error("the chunk ends early, at {place}")]
    Short {
        place: usize,
    },
    /// The high four bits of the first byte aren't 5.
    #[error("wrong magic, at {place}")]
    Magic {
        place: usize,
    },
    /// The low four bits of the first byte aren't 0.
    #[error("unknown version, at {place}")]
    Version {
        place: usize,
    },
    /// The kind is none of user, delta and snapshot.
    #[error("unknown kind, at {place}")]
    Kind {
        place: usize,
    },
    /// The last four bytes of the header aren't zero.
    #[error("reserved bytes aren't zero, at {place}")]
    Reserved {
        place: usize,
    },
    /// The payload doesn't hold what the header counts.
    #[error("the payload isn't what the header counts, at {place}")]
    Count {
        place: usize,
    },
    /// The payload has another checksum.
    #[error("wrong checksum, at {place}: {stored:08x} is stored, {computed:08x} is computed")]
    Crc {
        place: usize,
        stored: u32,
        computed: u32,
    },
    /// The trailer isn't empty, and doesn't have one tag of one name for each entry of a user chunk.
    #[error("wrong trailer, at {place}")]
    Trailer {
        place: usize,
    },
    /// A delta or snapshot chunk doesn't hold one simple entry of tracking entries.
    #[error("wrong tracking entry, at {place}")]
    Tracking {
        place: usize,
    },
}
