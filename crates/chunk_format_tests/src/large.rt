use chunk_format::{Chunk, ChunkKind, Entry, Stored, decode_chunk, is_chunk};
use frame_wire::{Octets, Row};
use std::alloc::Global;
use std::process::Abort;
use std::test::Fail;

/// The length of a large message, and how many small ones there are.
const LARGE: usize = 200_000;

const SMALL: u32 = 5_000;

fn large_body(alloc: Global) -> Result<Octets, Fail> {
    let mut body = Octets::new(alloc);
    for _done in 0..LARGE / 8 {
        body.push_slice(b"abcdefgh")?;
    }
    Ok(body)
}

fn many_entries(alloc: Global) -> Result<Row<Entry>, Fail> {
    let mut entries = Row::new(alloc);
    let large = Entry::Simple(large_body(alloc)?);
    entries.push(large).map_err(|_| "no memory")?;
    for number in 0..SMALL {
        let body = Octets::copy(alloc, &number.to_be_bytes())?;
        entries.push(Entry::Simple(body)).map_err(|_| "no memory")?;
    }
    Ok(entries)
}

/// The chunk is kept, and its bytes are read again with others behind them.
fn is_kept<R: Abort>(rt: &R, alloc: Global, chunk: &Chunk, len: usize) -> Result<(), Fail> {
    assert!(rt; is_chunk(chunk));
    let stored = Stored::make(alloc, chunk)?;
    assert_eq!(rt; stored.bytes().len(), len);
    let mut bytes = Octets::copy(alloc, stored.bytes())?;
    bytes.push_slice(b"P")?;
    let read = Stored::read(alloc, bytes.as_slice())?;
    assert_eq!(rt; read.used, len);
    assert_eq!(rt; read.stored.bytes(), stored.bytes());
    assert_eq!(rt; *read.stored.header(), *stored.header());
    let decoded = decode_chunk(alloc, bytes.as_slice())?;
    assert!(rt; decoded.chunk.entries.as_slice() == chunk.entries.as_slice());
    Ok(())
}

#[test]
fn a_large_chunk_is_kept_and_read(rt: HostRuntime) -> Result<(), Fail> {
    let alloc = rt.alloc();
    let chunk = Chunk {
        kind: ChunkKind::User,
        stamp: 0,
        epoch: 1,
        first: 7,
        entries: many_entries(alloc)?,
        trailer: Octets::new(alloc),
    };
    // a header, 4 bytes before each body, and the bodies
    is_kept(&rt, alloc, &chunk, 48 + 4 * 5_001 + 200_000 + 4 * 5_000)
}
