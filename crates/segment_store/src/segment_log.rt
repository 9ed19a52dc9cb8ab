//! A log over the segments of a disk.

ghost use Rattle.std.specs.Prelude.{◌≡◌, ◌∷◌, [], List, ℕ, IfOk, IsErrOf, IsTrue, OnOk};
ghost use Rattle.disk_calls.specs.Disk.{HasCause};
ghost use Rattle.epoch_coordinator.specs.MemberSteps.{cut_at};
ghost use Rattle.segment_pairs.specs.Held.{Segment, EachLog, OldOrNew, OutsideLog, all_chunks, segment_file};
ghost use Rattle.disk_calls.specs.Frames.{AtMost, EachImage};
ghost use Rattle.segment_store.specs.Recoverable.{LogRecoverable};
ghost use Rattle.segment_store.specs.Rows.{grown};
ghost use Rattle.segment_store.specs.Jobs.{Between};
ghost use Rattle.segment_store.specs.Logs.{Standing, LogEnds, EndsChunk, NoLog};
ghost use Rattle.segment_store.specs.Stores.{EndsRise};

use crate::cut::cut_log;
use crate::ends::has_end;
use crate::fault::StoreFault;
use crate::rows::{ChunkAt, log_end};
use crate::write::write_chunk;
use chunk_format::Stored;
use disk_calls::{Disk, DiskDid};
use segment_pairs::begin_pair;
use std::alloc::Global;
use std::marker::Model;

/// A member's log of a stream, in segments of its disk.
///
/// It knows where each chunk stands and where it ends, so that a write costs nothing of the log's length, and a cut only
/// what it cuts. A contract sees the stream and this table. After a call that the disk failed it is used no more, nor
/// after a crash.
#[derive(Drop)]
pub struct SegmentLog {
    alloc: Global,
    stream: u32,
    rows: Vec<ChunkAt>,
}

impl Model for SegmentLog {
    ghost use Rattle.segment_store.specs.Logs.{LogInHand};

    ghost Value = { LogInHand };

    ghost view = { λ l. record { stream = l.stream; rows = l.rows.items } };
}

impl SegmentLog {
    /// Begins the log of a stream that has no files: segment 0 without chunks. It takes no memory.
    pub fn begin<D: Disk>(
        alloc: Global,
        disk: &mut D,
        stream: u32,
    ) -> Result<SegmentLog, StoreFault>
        requires { D.tells → NoLog stream (D.state disk.old) }
        ensures images { D.tells → EachLog stream (λ log. log ≡ []) (D.state disk.new) }
        ensures stands { D.tells → IfOk result (λ log. Standing log (record { number = 0; chunks = [] } ∷ []) (D.state disk.new)) }
        ensures recoverable { D.tells → EachImage (segment_file stream 0) (AtMost 8) (D.state disk.old) → LogRecoverable stream (D.state disk.new) }
        ensures stream { IfOk result (λ log. log.stream ≡ stream) }
        ensures others { OutsideLog stream (D.state disk.old) (D.state disk.new) }
        ensures cause { HasCause (IsErrOf result StoreFault.Disk) (D.state disk.old) (D.state disk.new) }
    {
        let rows = Vec::new(alloc);
        if let DiskDid::Failed = begin_pair(disk, stream) {
            return Err(StoreFault::Disk);
        }
        Ok(SegmentLog {
            alloc,
            stream,
            rows,
        })
    }

    /// The log of a table that tells where its chunks stand.
    pub(crate) fn of_rows(alloc: Global, stream: u32, rows: Vec<ChunkAt>) -> SegmentLog
        ensures stream { result.stream ≡ stream }
        ensures rows { result.rows ≡ rows.items }
    {
        SegmentLog {
            alloc,
            stream,
            rows,
        }
    }

    /// The first offset behind the log.
    pub fn end(&self) -> u64
        ensures { LogEnds self.now result }
    {
        log_end(&self.rows)
    }

    /// Whether some chunk of the log ends at an offset, or it is 0. It looks at one chunk for each halving of the log, and
    /// finds the chunk where ends don't fall.
    pub fn ends_chunk(&self, end: u64) -> bool
        ensures found { IsTrue result → EndsChunk self.now end }
        ensures all { EndsRise self.now.rows → EndsChunk self.now end → IsTrue result }
    {
        has_end(&self.rows, end)
    }

    /// Writes a chunk that begins where the log ends. It begins a new segment, named by its first offset, exactly where
    /// that of the last chunk has at least 262,144 bytes.
    ///
    /// Its calls of the disk are `write_at` and `sync` of the segment, then of the index; where it begins a segment, the
    /// first write also has the segment's header and the second that of the index. Memory is taken before: after
    /// `Memory` nothing has changed. It fails with `Disk` only where the disk failed; on every answer a crash leaves the
    /// log with the chunk or without it.
    pub fn write<D: Disk>(&mut self, disk: &mut D, chunk: &Stored) -> Result<(), StoreFault>
        requires follows { LogEnds self.old chunk.now.first }
        requires stands { D.tells → (segments : List Segment) × Standing self.old segments (D.state disk.old) }
        ensures images { D.tells → (segments : List Segment) → Standing self.old segments (D.state disk.old) → EachLog self.old.stream (OldOrNew (all_chunks segments) chunk.now) (D.state disk.new) }
        ensures done { D.tells → (segments : List Segment) → Standing self.old segments (D.state disk.old) → OnOk result (Standing self.new (grown segments chunk.now) (D.state disk.new)) }
        ensures recoverable { D.tells → LogRecoverable self.old.stream (D.state disk.new) }
        ensures memory { IsErrOf result StoreFault.Memory → (self.new ≡ self.old) × (disk.new ≡ disk.old) }
        ensures stream { self.new.stream ≡ self.old.stream }
        ensures others { OutsideLog self.old.stream (D.state disk.old) (D.state disk.new) }
        ensures cause { HasCause (IsErrOf result StoreFault.Disk) (D.state disk.old) (D.state disk.new) }
        ensures undamaged { (segment at : ℕ) → IsErrOf result (StoreFault.Damaged segment at) → ⊥ }
        ensures unworded { (place : ℕ) → IsErrOf result (StoreFault.DamagedWords place) → ⊥ }
    {
        write_chunk(self.alloc, disk, self.stream, &mut self.rows, chunk)
    }

    /// Cuts the log to the chunks that end at an offset or before it, where one of them ends at it, or it is 0. It takes
    /// no memory.
    ///
    /// Its calls of the disk are, from the last segment down to the first that begins there or behind and above 0,
    /// `remove` of the index and of the segment; then, where the last segment left has a chunk behind the offset, `cut`
    /// and `sync` of its index and of the segment. On every answer a crash leaves a beginning of the log that begins
    /// with what the cut leaves.
    pub fn cut<D: Disk>(&mut self, disk: &mut D, end: u64) -> DiskDid
        requires { D.tells → (segments : List Segment) × Standing self.old segments (D.state disk.old) × EndsChunk self.old end }
        ensures images { D.tells → (segments : List Segment) → Standing self.old segments (D.state disk.old) → EachLog self.old.stream (Between end (all_chunks segments)) (D.state disk.new) }
        ensures done { D.tells → result ≡ DiskDid.Done → (segments : List Segment) → Standing self.old segments (D.state disk.old) → (now : List Segment) × Standing self.new now (D.state disk.new) × (all_chunks now ≡ cut_at end (all_chunks segments)) }
        ensures recoverable { D.tells → LogRecoverable self.old.stream (D.state disk.new) }
        ensures stream { self.new.stream ≡ self.old.stream }
        ensures others { OutsideLog self.old.stream (D.state disk.old) (D.state disk.new) }
        ensures cause { HasCause (result ≡ DiskDid.Failed) (D.state disk.old) (D.state disk.new) }
    {
        cut_log(disk, self.stream, &mut self.rows, end)
    }
}
