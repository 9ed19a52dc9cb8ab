//! Calls about what a stream holds.

use crate::answer::{MEMORY, NONE, one, some, two};
use crate::word::{Word, text};
use chunk_format::Stored;
use command_fields::OffsetSpec;
use hub_terms::Hub;
use std::alloc::{AllocError, Global};

pub(crate) fn start<H: Hub>(hub: &mut H, stream: u32, spec: &OffsetSpec) -> i64 {
    match hub.start(stream, spec) {
        Ok(offset) => one(offset),
        Err(_) => MEMORY,
    }
}

/// The epoch of a chunk times 10,000, its first offset times 100, and its records.
fn shape(chunk: &Stored) -> i64 {
    let header = chunk.header();
    let place = header
        .epoch
        .saturating_mul(100)
        .saturating_add(header.first);
    two(place, u64::from(header.records))
}

pub(crate) fn next_chunk<H: Hub>(hub: &mut H, stream: u32, from: u64) -> i64 {
    match hub.next_chunk(stream, from) {
        Ok(Some(chunk)) => shape(&chunk),
        Ok(None) => NONE,
        Err(_) => MEMORY,
    }
}

/// The number that was told, or `NONE`.
fn told(number: Result<Option<u64>, AllocError>) -> i64 {
    match number {
        Ok(number) => some(number),
        Err(_) => MEMORY,
    }
}

pub(crate) fn greatest<H: Hub>(alloc: Global, hub: &mut H, stream: u32, name: Word) -> i64 {
    match text(alloc, name) {
        Some(name) => told(hub.greatest(stream, &name)),
        None => MEMORY,
    }
}

pub(crate) fn stored<H: Hub>(alloc: Global, hub: &mut H, stream: u32, name: Word) -> i64 {
    match text(alloc, name) {
        Some(name) => told(hub.stored(stream, &name)),
        None => MEMORY,
    }
}

pub(crate) fn last_chunk<H: Hub>(hub: &mut H, stream: u32) -> i64 {
    told(hub.last_chunk(stream))
}
