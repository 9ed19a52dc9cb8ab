//! Answers as numbers.

use chunk_format::ChunkFault;
use client_terms::{ClientFault, EnqueueFault, Received};
use command_fields::DecodeFault;
use std::alloc::AllocError;

/// It was done, or it is the one that is wanted.
pub const DONE: i64 = 0;
/// There is none.
pub const NONE: i64 = -1;
/// There is another than the one that is wanted.
pub const OTHER: i64 = -2;
/// There was not enough memory.
pub const MEMORY: i64 = -3;
/// A message is too long.
pub const TOO_LONG: i64 = -4;
/// There is no next id.
pub const LAST_ID: i64 = -5;

/// A frame that no command spells; to it the place is added.
pub const FRAME: i64 = 0x1_0000_0000;
/// A frame that is too large; to it the size is added.
pub const TOO_LARGE: i64 = 0x2_0000_0000;
/// A chunk's wrong checksum; to it the checksum that its bytes have is added.
pub const CRC: i64 = 0x3_0000_0000;
/// Another fault of a chunk.
pub const CHUNK: i64 = 0x4_0000_0000;
/// A frame that nothing asked for; to it its key is added.
pub const UNEXPECTED: i64 = 0x5_0000_0000;
/// A refusal; to it the key of the request times 65,536, and the code, are added.
pub const REFUSED: i64 = 0x6_0000_0000;
/// The server's Close; to it the code is added.
pub const CLOSED: i64 = 0x7_0000_0000;
/// A stream's loss; to it the code is added.
pub const STREAM_LOST: i64 = 0x8_0000_0000;

/// The compression of a message, which has none.
const MESSAGE: u8 = 9;

/// A number, or `OTHER` where it is too great.
pub(crate) fn one(number: u64) -> i64 {
    match i64::try_from(number) {
        Ok(number) => number,
        Err(_) => OTHER,
    }
}

/// A number above a base.
fn above(base: i64, number: u64) -> i64 {
    base.saturating_add(one(number))
}

/// 1 or 0.
pub(crate) fn truth(is: bool) -> i64 {
    if is { 1 } else { 0 }
}

/// The number, or `NONE`.
pub(crate) fn some(number: Option<u64>) -> i64 {
    match number {
        Some(number) => one(number),
        None => NONE,
    }
}

pub(crate) fn of_call(told: Result<(), AllocError>) -> i64 {
    match told {
        Ok(()) => DONE,
        Err(_) => MEMORY,
    }
}

pub(crate) fn of_queued(told: Result<u64, EnqueueFault>) -> i64 {
    match told {
        Ok(id) => one(id),
        Err(EnqueueFault::TooLong { len: _ }) => TOO_LONG,
        Err(EnqueueFault::LastId) => LAST_ID,
        Err(EnqueueFault::Memory) => MEMORY,
    }
}

fn place_of(fault: DecodeFault) -> usize {
    match fault {
        DecodeFault::UnknownKey { place } => place,
        DecodeFault::Version { place } => place,
        DecodeFault::Short { place } => place,
        DecodeFault::Long { place } => place,
        DecodeFault::Negative { place } => place,
        DecodeFault::Flag { place } => place,
        DecodeFault::OffsetType { place } => place,
    }
}

fn of_chunk(fault: ChunkFault) -> i64 {
    match fault {
        ChunkFault::Crc {
            place: _,
            stored: _,
            computed,
        } => above(CRC, u64::from(computed)),
        _ => CHUNK,
    }
}

/// A request and its code as one number.
fn of_request(key: u16, code: u16) -> u64 {
    u64::from(key)
        .wrapping_mul(65_536)
        .wrapping_add(u64::from(code))
}

fn of_fault(fault: ClientFault) -> i64 {
    match fault {
        ClientFault::Frame(fault) => above(FRAME, place_of(fault) as u64),
        ClientFault::TooLarge { size } => above(TOO_LARGE, u64::from(size)),
        ClientFault::Chunk(fault) => of_chunk(fault),
        ClientFault::Unexpected { key } => above(UNEXPECTED, u64::from(key)),
        ClientFault::Refused { key, code } => above(REFUSED, of_request(key, code)),
        ClientFault::Closed { code } => above(CLOSED, u64::from(code)),
        ClientFault::StreamLost { code } => above(STREAM_LOST, u64::from(code)),
        ClientFault::Memory => MEMORY,
    }
}

pub(crate) fn of_heard(told: Result<(), ClientFault>) -> i64 {
    match told {
        Ok(()) => DONE,
        Err(fault) => of_fault(fault),
    }
}

/// An entry's offset times 1,000, ten times its records, and its compression, 9 of a message.
pub(crate) fn of_entry(entry: &Received) -> i64 {
    let compression = entry.compression.unwrap_or(MESSAGE);
    let small = u64::from(entry.records) * 10 + u64::from(compression);
    one(entry.offset.saturating_mul(1_000).saturating_add(small))
}
