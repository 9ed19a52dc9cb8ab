//! What is counted of chunks.

ghost use Rattle.std.specs.Prelude.{◌≡◌, ◌+◌, ◌≤◌, [], length, IfOk};
ghost use Rattle.chunk_format.specs.Chunks.{chunk_bytes, IsChunk};
ghost use Rattle.epoch_coordinator.specs.Offers.{counted_by};
ghost use Rattle.member_core.specs.Kept.{AreCounted};

use chunk_format::{ChunkKind, Stored};
use std::alloc::AllocError;

/// Numbers of chunks and of their bytes.
#[derive(Clone, Copy)]
pub(crate) struct Counted {
    /// How many bytes the chunks have.
    pub bytes: u64,
    /// How many chunks stand behind the last snapshot.
    pub since: u64,
    /// How many chunks that aren't snapshots wait.
    pub waiting: u64,
}

/// A number with more. More than 2^64 - 1 are more than memory holds.
fn more(count: u64, by: u64) -> Result<u64, AllocError>
    ensures { IfOk result (λ n. n ≡ count + by) }
{
    count.checked_add(by).ok_or(AllocError)
}

/// A number of chunks with one more of this kind, which counts where it isn't a snapshot.
fn more_of(count: u64, kind: ChunkKind) -> Result<u64, AllocError>
    ensures { IfOk result (λ n. n ≡ count + counted_by kind 0) }
{
    match kind {
        ChunkKind::User => more(count, 1),
        ChunkKind::Delta => more(count, 1),
        ChunkKind::Snapshot => Ok(count),
    }
}

/// How many chunks stand behind the last snapshot, with one more of this kind.
fn since_with(since: u64, kind: ChunkKind) -> Result<u64, AllocError>
    ensures { IfOk result (λ n. n ≡ counted_by kind since) }
{
    match kind {
        ChunkKind::User => more(since, 1),
        ChunkKind::Delta => more(since, 1),
        ChunkKind::Snapshot => Ok(0),
    }
}

/// A number of chunks without one of this kind, which was counted.
pub(crate) fn without(count: u64, kind: ChunkKind) -> u64
    requires { counted_by kind 0 ≤ count }
    ensures { result + counted_by kind 0 ≡ count }
{
    match kind {
        ChunkKind::User => count - 1,
        ChunkKind::Delta => count - 1,
        ChunkKind::Snapshot => count,
    }
}

impl Counted {
    /// The numbers with one chunk more, which waits.
    pub(crate) fn with(self, chunk: &Stored) -> Result<Counted, AllocError>
        ensures bytes { IfOk result (λ n. n.bytes ≡ self.bytes + length (chunk_bytes chunk.now)) }
        ensures since { IfOk result (λ n. n.since ≡ counted_by chunk.now.kind self.since) }
        ensures waiting { IfOk result (λ n. n.waiting ≡ self.waiting + counted_by chunk.now.kind 0) }
        ensures is_chunk { IsChunk chunk.now }
    {
        let kind = chunk.header().kind;
        let len = chunk.bytes().len();
        let bytes = more(self.bytes, len as u64)?;
        let since = since_with(self.since, kind)?;
        let waiting = more_of(self.waiting, kind)?;
        Ok(Counted {
            bytes,
            since,
            waiting,
        })
    }

    /// The numbers of these chunks, none of which waits.
    pub(crate) fn of(chunks: &[Stored]) -> Result<Counted, AllocError>
        ensures { IfOk result (λ n. AreCounted chunks.now [] n.bytes n.since n.waiting) }
    {
        let mut counted = Counted {
            bytes: 0,
            since: 0,
            waiting: 0,
        };
        for chunk in chunks {
            counted = counted.with(chunk)?;
        }
        Ok(Counted {
            bytes: counted.bytes,
            since: counted.since,
            waiting: 0,
        })
    }
}
