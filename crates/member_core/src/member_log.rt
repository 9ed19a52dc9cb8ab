//! The chunks of a member.

ghost use Rattle.std.specs.Prelude.{◌≡◌, ◌+◌, ◌<◌, ◌≤◌, ◌^◌, [], ◌∷◌, ◌++◌, length, IfOk, OnOk, OnErr, IsTrue, ◌↔◌};
ghost use Rattle.chunk_format.specs.declared.chunk.ChunkKind.TheVariants.{Snapshot};
ghost use Rattle.chunk_format.specs.Chunks.{IsChunk};
ghost use Rattle.chunk_format.specs.Logs.{IsLog, Truthful, end_of, last_epoch, opening_chunk};
ghost use Rattle.chunk_format.specs.ByName.{Greatest, LastStored, first_seen, tag_names, stored_names, snapshot_body, snapshot_entry_of};
ghost use Rattle.epoch_coordinator.specs.Tails.{tail_of, runs_of};
ghost use Rattle.epoch_coordinator.specs.MemberSteps.{cut_at, chunk_from, kept_end, ends_in, has_epoch, is_true_after};
ghost use Rattle.epoch_coordinator.specs.Offers.{since_snapshot};
ghost use Rattle.member_core.specs.Kept.{whole, only, with_chunk, written, withdrawn, GoesBehind, AreCounted, bytes_of, plain_count, snapshot_chunk};

use crate::counted::{Counted, without};
use crate::known::Known;
use crate::runs::{add_run, run_of, runs_of};
use crate::search::{cut_tail, ended, ends_in, has_epoch, kept_end, share_from, tail_of};
use chunk_format::{Chunk, ChunkKind, Entry, Stored};
use epoch_coordinator::{Run, Tail};
use frame_wire::{Octets, Row};
use std::alloc::{AllocError, Global};
use std::marker::Model;

/// The chunks of a member's log and those that wait behind it, with what is kept of both.
#[derive(Drop)]
pub(crate) struct MemberLog {
    pub(crate) alloc: Global,
    /// The chunks of the log, and behind them those that wait.
    pub(crate) chunks: Vec<Stored>,
    /// How many are of the log.
    pub(crate) written: usize,
    /// The runs of the log.
    pub(crate) runs: Vec<Run>,
    pub(crate) counted: Counted,
    pub(crate) known: Known,
}

impl Model for MemberLog {
    ghost use Rattle.std.specs.Prelude.{take, drop};
    ghost use Rattle.member_core.specs.Kept.{LogState, IsKept, AreCounted, IsKnown};

    ghost Value = { LogState };

    ghost view = { λ l. record { log = take l.written l.chunks.items; ahead = drop l.written l.chunks.items } };

    ghost invariant = { λ l. IsKept l.chunks.items l.written l.runs.items × AreCounted l.chunks.items (drop l.written l.chunks.items) l.counted.bytes l.counted.since l.counted.waiting × IsKnown l.chunks.items l.known.count l.known.tracking };
}

impl MemberLog {
    /// A log from these chunks, which are one after the other from offset 0 on and truthful, and
    /// nothing that waits. It looks at each header once.
    pub(crate) fn of_chunks(alloc: Global, chunks: Row<Stored>) -> Result<MemberLog, AllocError>
        requires is_log { IsLog chunks }
        requires truthful { Truthful chunks }
        ensures { IfOk result (λ l. l ≡ only chunks) }
    {
        let runs = runs_of(alloc, chunks.as_slice())?;
        let counted = Counted::of(chunks.as_slice())?;
        let chunks = chunks.into_vec();
        let written = chunks.len();
        Ok(MemberLog {
            alloc,
            chunks,
            written,
            runs,
            counted,
            known: Known::nothing(alloc),
        })
    }

    /// A chunk more waits, behind all others. Where memory runs out nothing changes.
    pub(crate) fn put(&mut self, chunk: Stored) -> Result<(), AllocError>
        requires { GoesBehind (whole self.old) chunk }
        ensures ok { OnOk result (self.new ≡ with_chunk chunk self.old) }
        ensures err { OnErr result (self.new ≡ self.old) }
    {
        let counted = self.counted.with(&chunk)?;
        push_chunk(&mut self.chunks, chunk)?;
        self.counted = counted;
        Ok(())
    }

    /// The first chunk that waits is written. Where memory runs out nothing changes.
    pub(crate) fn write(&mut self) -> Result<(), AllocError>
        requires { 0 < length self.old.ahead }
        ensures ok { OnOk result (self.new ≡ written self.old) }
        ensures err { OnErr result (self.new ≡ self.old) }
    {
        let chunk = &self.chunks[self.written];
        let run = run_of(chunk);
        let waiting = without(self.counted.waiting, chunk.header().kind);
        add_run(&mut self.runs, run)?;
        self.counted.waiting = waiting;
        self.written += 1;
        Ok(())
    }

    /// The log is cut to the chunks that end at this offset or before it; none may wait. It looks at
    /// each header that is left once. Where memory runs out nothing changes.
    pub(crate) fn cut(&mut self, end: u64) -> Result<(), AllocError>
        requires { self.old.ahead ≡ [] }
        ensures ok { OnOk result (self.new ≡ only (cut_at end self.old.log)) }
        ensures epoch { OnOk result (last_epoch self.new.log ≤ last_epoch self.old.log) }
        ensures err { OnErr result (self.new ≡ self.old) }
    {
        let kept = ended(self.chunks.as_slice(), end);
        let runs = runs_of(self.alloc, &self.chunks[..kept])?;
        let counted = Counted::of(&self.chunks[..kept])?;
        self.chunks.truncate(kept);
        self.written = kept;
        self.runs = runs;
        self.counted = counted;
        self.known = Known::nothing(self.alloc);
        Ok(())
    }

    /// Only the first chunks that wait still do; all chunks that are left have these numbers. It takes no memory.
    pub(crate) fn withdraw(&mut self, count: usize, counted: Counted)
        requires within { count ≤ length self.old.ahead }
        requires counted { AreCounted (whole (withdrawn count self.old)) (withdrawn count self.old).ahead counted.bytes counted.since counted.waiting }
        ensures is { self.new ≡ withdrawn count self.old }
        ensures epoch { last_epoch (whole self.new) ≤ last_epoch (whole self.old) }
    {
        let len = self.written + count;
        self.known.shorten(self.alloc, self.chunks.as_slice(), len);
        self.chunks.truncate(len);
        self.counted = counted;
    }

    /// The numbers of the chunks.
    pub(crate) fn counted(&self) -> Counted
        ensures { AreCounted (whole self.now) self.now.ahead result.bytes result.since result.waiting }
    {
        self.counted
    }

    /// The chunks of the log.
    pub(crate) fn log(&self) -> &[Stored]
        ensures log { result.now ≡ self.now.log }
        ensures is_log { IsLog (whole self.now) }
        ensures truthful { Truthful (whole self.now) }
    {
        &self.chunks[..self.written]
    }

    /// The chunks that wait, in order.
    pub(crate) fn ahead(&self) -> &[Stored]
        ensures { result.now ≡ self.now.ahead }
    {
        &self.chunks[self.written..]
    }

    /// The runs of the log.
    pub(crate) fn runs(&self) -> &[Run]
        ensures { result.now ≡ runs_of self.now.log }
    {
        self.runs.as_slice()
    }

    /// The tail of the log.
    pub(crate) fn tail(&self) -> Tail
        ensures { result ≡ tail_of self.now.log }
    {
        tail_of(self.log())
    }

    /// Where the chunks end, those that wait included.
    pub(crate) fn end(&self) -> u64
        ensures { result ≡ end_of (whole self.now) }
    {
        tail_of(self.chunks.as_slice()).end
    }

    /// How many bytes all chunks have, those that wait included.
    pub(crate) fn bytes(&self) -> u64
        ensures { result ≡ bytes_of (whole self.now) }
    {
        self.counted.bytes
    }

    /// How many chunks stand behind the last snapshot, those that wait included.
    pub(crate) fn since_snapshot(&self) -> u64
        ensures { result ≡ since_snapshot (whole self.now) }
    {
        self.counted.since
    }

    /// How many chunks wait that aren't snapshots.
    pub(crate) fn waiting(&self) -> u64
        ensures { result ≡ plain_count self.now.ahead }
    {
        self.counted.waiting
    }

    /// The end of the longest beginning of the log whose tail the runs contain.
    pub(crate) fn kept_end(&self, runs: &[Run]) -> u64
        ensures { result ≡ kept_end runs.now self.now.log }
    {
        kept_end(self.log(), runs)
    }

    /// The chunk of the log that begins at an offset. It looks at one chunk for each halving of the log.
    pub(crate) fn chunk_from(&self, offset: u64) -> Result<Option<Stored>, AllocError>
        ensures { IfOk result (λ found. found ≡ chunk_from offset self.now.log) }
    {
        share_from(self.log(), offset)
    }

    /// Whether the last chunk of the log has this epoch.
    pub(crate) fn ends_in(&self, epoch: u64) -> bool
        ensures { result ≡ ends_in epoch self.now.log }
    {
        ends_in(self.log(), epoch)
    }

    /// Whether a chunk of the log has this epoch, which none of them is above.
    pub(crate) fn has_epoch(&self, epoch: u64) -> bool
        requires { last_epoch self.now.log ≤ epoch }
        ensures { result ≡ has_epoch epoch self.now.log }
    {
        has_epoch(self.log(), epoch)
    }

    /// The tail of the log, were it cut at this offset.
    pub(crate) fn cut_tail(&self, end: u64) -> Tail
        ensures { result ≡ tail_of (cut_at end self.now.log) }
    {
        cut_tail(self.log(), end)
    }

    /// The greatest id of a publisher in all chunks, those that wait included. What was put since
    /// the last question of this kind is taken in first.
    pub(crate) fn greatest(&mut self, name: &[u8]) -> Result<Option<u64>, AllocError>
        ensures greatest { IfOk result (λ id. id ≡ Greatest name.now (whole self.old)) }
        ensures same { self.new ≡ self.old }
    {
        self.known.catch_up(self.alloc, self.chunks.as_slice())?;
        Ok(self.known.tracking.greatest(name))
    }

    /// The last offset that was stored for a consumer in all chunks, those that wait included.
    pub(crate) fn stored(&mut self, name: &[u8]) -> Result<Option<u64>, AllocError>
        ensures stored { IfOk result (λ offset. offset ≡ LastStored name.now (whole self.old)) }
        ensures same { self.new ≡ self.old }
    {
        self.known.catch_up(self.alloc, self.chunks.as_slice())?;
        Ok(self.known.tracking.stored(name))
    }

    /// How many publishers and how many consumers have a name in all chunks.
    pub(crate) fn names(&mut self) -> Result<(u64, u64), AllocError>
        ensures publishers { IfOk result (λ n. n.0 ≡ length (first_seen (tag_names (whole self.old)))) }
        ensures consumers { IfOk result (λ n. n.1 ≡ length (first_seen (stored_names (whole self.old)))) }
        ensures same { self.new ≡ self.old }
    {
        self.known.catch_up(self.alloc, self.chunks.as_slice())?;
        Ok(self.known.tracking.names())
    }

    /// How many bytes the entry of a snapshot of all chunks has.
    pub(crate) fn snapshot_len(&mut self) -> Result<u64, AllocError>
        ensures len { IfOk result (λ len. len ≡ length (snapshot_body (whole self.old))) }
        ensures same { self.new ≡ self.old }
    {
        self.known.catch_up(self.alloc, self.chunks.as_slice())?;
        Ok(self.known.tracking.snapshot_len())
    }

    /// The snapshot of all chunks, as the chunk that follows them. It is not put.
    pub(crate) fn snapshot(&mut self, epoch: u64, stamp: i64) -> Result<Stored, AllocError>
        requires end { end_of (whole self.old) + 1 < 2 ^ 64 }
        requires len { length (snapshot_body (whole self.old)) < 2 ^ 31 }
        ensures chunk { IfOk result (λ c. c ≡ opening_chunk epoch stamp (whole self.old)) }
        ensures same { self.new ≡ self.old }
    {
        let first = tail_of(self.chunks.as_slice()).end;
        self.known.catch_up(self.alloc, self.chunks.as_slice())?;
        let entry = self.known.tracking.snapshot_entry(self.alloc)?;
        make_snapshot(self.alloc, epoch, stamp, first, entry)
    }

    /// Whether a chunk that follows all others is a truthful snapshot of them, or none.
    pub(crate) fn agrees(&mut self, chunk: &Stored) -> Result<bool, AllocError>
        ensures is { IfOk result (λ b. b ≡ is_true_after (whole self.old) chunk.now.kind chunk.now) }
        ensures truthful { IfOk result (λ b. IsTrue b → chunk.now.kind ≡ Snapshot → chunk.now.entries ≡ snapshot_entry_of (whole self.old) ∷ []) }
        ensures same { self.new ≡ self.old }
    {
        let _header = chunk.header();
        self.known.catch_up(self.alloc, self.chunks.as_slice())?;
        self.known.tracking.agrees(self.alloc, chunk)
    }
}

/// Adds a chunk at the end. Where memory runs out nothing changes.
fn push_chunk(chunks: &mut Vec<Stored>, chunk: Stored) -> Result<(), AllocError>
    ensures ok { OnOk result (chunks.new.items ≡ chunks.old.items ++ chunk ∷ []) }
    ensures err { OnErr result (chunks.new.items ≡ chunks.old.items) }
{
    match chunks.push(chunk) {
        Ok(()) => Ok(()),
        Err(_) => Err(AllocError),
    }
}

/// A snapshot chunk with this one entry.
fn make_snapshot(
    alloc: Global,
    epoch: u64,
    stamp: i64,
    first: u64,
    entry: Entry,
) -> Result<Stored, AllocError>
    requires { IsChunk (snapshot_chunk epoch stamp first entry) }
    ensures { IfOk result (λ c. c ≡ snapshot_chunk epoch stamp first entry) }
{
    let mut entries = Row::new(alloc);
    if let Err(_) = entries.push(entry) {
        return Err(AllocError);
    }
    let chunk = Chunk {
        kind: ChunkKind::Snapshot,
        stamp,
        epoch,
        first,
        entries,
        trailer: Octets::new(alloc),
    };
    Stored::make(alloc, &chunk)
}
