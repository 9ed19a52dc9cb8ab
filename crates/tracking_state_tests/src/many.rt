use chunk_format::{
    Chunk, ChunkKind, DeltaParts, Entry, Stored, TagParts, is_chunk, put_delta, put_tag,
};
use frame_wire::{Octets, Row, put_u16};
use std::alloc::{AllocError, Global};
use std::process::Abort;
use std::test::Fail;
use tracking_state::{Tracking, first_untruthful};

/// How many publishers and how many consumers there are.
const MANY: u16 = 1_024;

/// A name of 255 bytes, another for each number.
fn name_of(alloc: Global, number: u16) -> Result<Octets, AllocError> {
    let mut name = Octets::new(alloc);
    for _ in 0..253 {
        name.push_slice(b"n")?;
    }
    put_u16(&mut name, number)?;
    Ok(name)
}

/// A chunk of one entry, where it has a spelling.
fn chunk_of(
    alloc: Global,
    kind: ChunkKind,
    first: u64,
    body: Octets,
    trailer: Octets,
) -> Result<Stored, Fail> {
    let mut entries = Row::new(alloc);
    entries.push(Entry::Simple(body)).map_err(|_| "no memory")?;
    let chunk = Chunk {
        kind,
        stamp: 0,
        epoch: 1,
        first,
        entries,
        trailer,
    };
    if !is_chunk(&chunk) {
        return Err("no chunk".into());
    }
    Ok(Stored::make(alloc, &chunk)?)
}

/// A message of a publisher, whose id is its number.
fn published(alloc: Global, number: u16, first: u64) -> Result<Stored, Fail> {
    let name = name_of(alloc, number)?;
    let name = name.as_slice();
    let mut trailer = Octets::new(alloc);
    if name.len() == 255 {
        let id = u64::from(number);
        put_tag(&mut trailer, TagParts { name, id })?;
    }
    chunk_of(alloc, ChunkKind::User, first, Octets::new(alloc), trailer)
}

/// The offset of a consumer, which is its number.
fn kept(alloc: Global, number: u16, first: u64) -> Result<Stored, Fail> {
    let name = name_of(alloc, number)?;
    let name = name.as_slice();
    let mut body = Octets::new(alloc);
    if name.len() == 255 {
        let offset = u64::from(number);
        put_delta(&mut body, DeltaParts::Offset { name, offset })?;
    }
    chunk_of(alloc, ChunkKind::Delta, first, body, Octets::new(alloc))
}

/// A publisher has its number as its id, and a consumer as its offset.
fn has_one<R: Abort>(rt: &R, alloc: Global, tracking: &Tracking, number: u16) -> Result<(), Fail> {
    let name = name_of(alloc, number)?;
    assert_eq!(rt; tracking.greatest(name.as_slice()), Some(u64::from(number)));
    assert_eq!(rt; tracking.stored(name.as_slice()), Some(u64::from(number)));
    Ok(())
}

fn has_all<R: Abort>(rt: &R, alloc: Global, tracking: &Tracking) -> Result<(), Fail> {
    assert_eq!(rt; tracking.names(), (u64::from(MANY), u64::from(MANY)));
    assert_eq!(rt; tracking.snapshot_len(), 550_912);
    for number in 0..MANY {
        has_one(rt, alloc, tracking, number)?;
    }
    Ok(())
}

/// Puts a chunk behind the log.
fn take(log: &mut Vec<Stored>, tracking: &mut Tracking, chunk: Stored) -> Result<(), Fail> {
    tracking.apply(&chunk)?;
    log.push(chunk).map_err(|_| "no memory")?;
    Ok(())
}

/// All publishers, then all consumers.
fn fill(alloc: Global, log: &mut Vec<Stored>, tracking: &mut Tracking) -> Result<(), Fail> {
    for number in 0..MANY {
        take(log, tracking, published(alloc, number, u64::from(number))?)?;
    }
    for number in 0..MANY {
        let first = u64::from(MANY) + u64::from(number);
        take(log, tracking, kept(alloc, number, first)?)?;
    }
    Ok(())
}

/// The snapshot of what is tracked.
fn snapshot(alloc: Global, tracking: &Tracking, first: u64) -> Result<Stored, Fail> {
    if tracking.snapshot_len() >= 0x8000_0000 {
        return Err("too long".into());
    }
    match tracking.snapshot_entry(alloc)? {
        Entry::Simple(body) => {
            chunk_of(alloc, ChunkKind::Snapshot, first, body, Octets::new(alloc))
        }
        _ => Err("a sub-batch".into()),
    }
}

/// From the last snapshot on it is the same.
fn is_read_again<R: Abort>(rt: &R, alloc: Global, log: &[Stored]) -> Result<(), Fail> {
    match first_untruthful(alloc, log)? {
        None => {
            let tracking = Tracking::of_log(alloc, log)?;
            has_all(rt, alloc, &tracking)
        }
        Some(_) => Err("an untruthful snapshot".into()),
    }
}

#[test]
fn many_long_names_are_tracked(rt: HostRuntime) -> Result<(), Fail> {
    let alloc = rt.alloc();
    let mut log = Vec::new(alloc);
    let mut tracking = Tracking::empty(alloc);
    fill(alloc, &mut log, &mut tracking)?;
    has_all(&rt, alloc, &tracking)?;
    let opening = snapshot(alloc, &tracking, 2 * u64::from(MANY))?;
    take(&mut log, &mut tracking, opening)?;
    has_all(&rt, alloc, &tracking)?;
    is_read_again(&rt, alloc, log.as_slice())
}
