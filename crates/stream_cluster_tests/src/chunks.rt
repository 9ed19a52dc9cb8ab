//! What the disks of three members had.

ghost use Rattle.std.specs.Prelude.{◌≡◌, ◌++◌, ◌∷◌, [], IfOk, OnOk, length};
ghost use Rattle.stream_cluster.specs.Opens.{AreNumbered};

use chunk_format::{Chunk, ChunkKind, Entry, Stored, is_chunk};
use frame_wire::{Octets, Row};
use segment_store::Recovered;
use std::alloc::{AllocError, Global};

/// The log of a member of a test.
#[derive(Clone, Copy)]
pub(crate) enum Log {
    /// It has no chunk.
    Empty,
    /// It has the opening chunk of epoch 1, with this stamp.
    Opened(i64),
    /// It has such a chunk whose snapshot tells of a publisher of which there is no id.
    Untruthful,
}

/// The snapshot of one publisher, `p`, whose greatest id is 3 at offset 0.
const OF_P: &[u8] = b"\x00\x01p\0\0\0\0\0\0\0\0\x03\0\0\0\0\0\0\0";

/// A snapshot of epoch 1 at offset 0.
fn snapshot(alloc: Global, stamp: i64, body: &[u8]) -> Result<Stored, AllocError> {
    let mut entries = Row::new(alloc);
    if entries
        .push(Entry::Simple(Octets::copy(alloc, body)?))
        .is_err()
    {
        return Err(AllocError);
    }
    let chunk = Chunk {
        kind: ChunkKind::Snapshot,
        stamp,
        epoch: 1,
        first: 0,
        entries,
        trailer: Octets::new(alloc),
    };
    if !is_chunk(&chunk) {
        return Err(AllocError);
    }
    Stored::make(alloc, &chunk)
}

/// The only chunk of a log, if it has one.
fn only_chunk(alloc: Global, log: Log) -> Result<Option<Stored>, AllocError> {
    match log {
        Log::Empty => Ok(None),
        Log::Opened(stamp) => Ok(Some(snapshot(alloc, stamp, b"")?)),
        Log::Untruthful => Ok(Some(snapshot(alloc, 0, OF_P)?)),
    }
}

fn chunks(alloc: Global, log: Log) -> Result<Row<Stored>, AllocError> {
    let mut row = Row::new(alloc);
    if let Some(chunk) = only_chunk(alloc, log)? {
        if row.push(chunk).is_err() {
            return Err(AllocError);
        }
    }
    Ok(row)
}

/// What the disk of a member had.
pub(crate) fn had(
    alloc: Global,
    member: u8,
    promise: u64,
    log: Log,
) -> Result<Recovered, AllocError>
    ensures { IfOk result (λ r. r.member ≡ member) }
{
    let chunks = chunks(alloc, log)?;
    Ok(Recovered {
        member,
        promise,
        chunks,
    })
}

fn add(starts: &mut Row<Recovered>, start: Recovered) -> Result<(), AllocError>
    ensures { OnOk result (starts.new ≡ starts.old ++ start ∷ []) }
{
    match starts.push(start) {
        Ok(()) => Ok(()),
        Err(_) => Err(AllocError),
    }
}

/// What the disks of three members had, by member, with the same promise.
pub(crate) fn three(
    alloc: Global,
    promise: u64,
    one: Log,
    two: Log,
    other: Log,
) -> Result<Row<Recovered>, AllocError>
    ensures numbered { IfOk result AreNumbered }
    ensures three { IfOk result (λ starts. length starts ≡ 3) }
{
    let one = had(alloc, 1, promise, one)?;
    let two = had(alloc, 2, promise, two)?;
    let other = had(alloc, 3, promise, other)?;
    let mut starts = Row::new(alloc);
    add(&mut starts, one)?;
    add(&mut starts, two)?;
    add(&mut starts, other)?;
    Ok(starts)
}
