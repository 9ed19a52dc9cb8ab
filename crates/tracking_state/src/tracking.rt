//! What is tracked of a log.

ghost use Rattle.std.specs.Prelude.{◌≡◌, ◌<◌, ◌≤◌, ◌+◌, ◌++◌, ◌∷◌, [], List, length, fold, flat_map, take, map, slice_get, IfOk, OnOk, OnErr, Some, None, MatchOption, IfSome, IsTrue, ◌^◌, ◌↔◌};
ghost use Rattle.std.specs.List.{All, HoldsAt};
ghost use Rattle.chunk_format.specs.declared.entry.Entry.TheVariants.{Simple};
ghost use Rattle.chunk_format.specs.declared.chunk.Chunk.{Chunk};
ghost use Rattle.chunk_format.specs.declared.chunk.ChunkKind.TheVariants.{Snapshot};
ghost use Rattle.chunk_format.specs.Tags.{SnapshotEntry, snapshot_bytes, IsSnapshot, SpellsSnapshot};
ghost use Rattle.chunk_format.specs.Chunks.{IsChunk};
ghost use Rattle.chunk_format.specs.Parts.{snapshot_of};
ghost use Rattle.chunk_format.specs.ByName.{first_seen, tag_names, stored_names, Greatest, LastStored, snapshot_body, snapshot_entry_of};
ghost use Rattle.chunk_format.specs.Logs.{Truthful};
ghost use Rattle.tracking_state.specs.Tracked.{Tracked, tracked_of, body_of, sequence_entry, offset_entry};
ghost use Rattle.tracking_state.specs.Notes.{noted};

use crate::named::Named;
use crate::note::{Latest, note_id, note_offset};
use crate::parts::body_of_one;
use crate::said::said_by;
use chunk_format::{ChunkKind, Entry, SnapshotParts, Stored, put_snapshot, split_snapshot};
use frame_wire::Octets;
use std::alloc::{AllocError, Global};
use std::marker::Model;

/// The greatest id of each publisher and the last offset that each consumer stored, by name.
#[derive(Drop)]
pub struct Tracking {
    references: Named<Latest>,
    consumers: Named<u64>,
    /// How many bytes the entry of a snapshot has.
    len: u64,
}

impl Model for Tracking {
    ghost use Rattle.tracking_state.specs.Tracked.{Tracked, IsTracked};

    ghost Value = { Tracked };

    ghost view = { λ t. record { sequences = t.references; offsets = t.consumers } };

    ghost invariant = { λ t. IsTracked t.len (record { sequences = t.references; offsets = t.consumers }) };
}

impl Tracking {
    /// What is tracked of no chunk.
    pub fn empty(alloc: Global) -> Tracking
        ensures { result ≡ tracked_of [] }
    {
        Tracking {
            references: Named::new(alloc),
            consumers: Named::new(alloc),
            len: 0,
        }
    }

    /// Notes what a snapshot entry says. Where memory runs out nothing changes.
    fn note(&mut self, item: SnapshotParts<'_>) -> Result<(), AllocError>
        requires { IsSnapshot (snapshot_of item) }
        ensures ok { OnOk result (self.new ≡ noted self.old (snapshot_of item.entry)) }
        ensures err { OnErr result (self.new ≡ self.old) }
    {
        match item {
            SnapshotParts::Sequence { name, first, id } => {
                let latest = Latest { id, first };
                note_id(&mut self.references, &mut self.len, name, latest)
            }
            SnapshotParts::Offset { name, offset } => {
                note_offset(&mut self.consumers, &mut self.len, name, offset)
            }
        }
    }

    /// Notes what each entry of a snapshot says. Where memory runs out what was noted before stays.
    fn note_all(&mut self, body: &[u8]) -> Result<(), AllocError>
        ensures { OnOk result ((items : List SnapshotEntry) → SpellsSnapshot body.now items → self.new ≡ fold noted self.old items) }
    {
        let mut at = 0;
        'items: while at < body.len() {
            let Some((item, len)) = split_snapshot(&body[at..]) else {
                return Ok(());
            };
            self.note(item)?;
            at += len;
        }
        Ok(())
    }

    /// Takes in what one chunk more of the log says. It costs the tags of the chunk's trailer and looks up one name.
    /// Where memory runs out nothing changes.
    pub fn apply(&mut self, chunk: &Stored) -> Result<(), AllocError>
        ensures tracks { OnOk result ((log : List Chunk) → self.old ≡ tracked_of log → self.new ≡ tracked_of (log ++ chunk.now ∷ [])) }
        ensures err { OnErr result (self.new ≡ self.old) }
    {
        match said_by(chunk) {
            Some(item) => self.note(item),
            None => Ok(()),
        }
    }

    /// Takes in what chunks say, in order. Where memory runs out some of them are taken in.
    fn apply_all(&mut self, chunks: &[Stored]) -> Result<(), AllocError>
        ensures { OnOk result ((log : List Chunk) → self.old ≡ tracked_of log → self.new ≡ tracked_of (log ++ chunks.now)) }
    {
        for chunk in chunks {
            self.apply(chunk)?;
        }
        Ok(())
    }

    /// The greatest id of a publisher in the log.
    pub fn greatest(&self, name: &[u8]) -> Option<u64>
        ensures { (log : List Chunk) → self.now ≡ tracked_of log → result ≡ Greatest name.now log }
    {
        let latest = self.references.get(name)?;
        Some(latest.id)
    }

    /// The last offset that was stored for a consumer in the log.
    pub fn stored(&self, name: &[u8]) -> Option<u64>
        ensures { (log : List Chunk) → self.now ≡ tracked_of log → result ≡ LastStored name.now log }
    {
        self.consumers.get(name)
    }

    /// How many publishers and how many consumers have a name in the log.
    pub fn names(&self) -> (u64, u64)
        ensures publishers { (log : List Chunk) → self.now ≡ tracked_of log → result.0 ≡ length (first_seen (tag_names log)) }
        ensures consumers { (log : List Chunk) → self.now ≡ tracked_of log → result.1 ≡ length (first_seen (stored_names log)) }
    {
        (self.references.len() as u64, self.consumers.len() as u64)
    }

    /// How many bytes the entry of a snapshot of the log has.
    pub fn snapshot_len(&self) -> u64
        ensures len { result ≡ length (body_of self.now) }
        ensures log { (log : List Chunk) → self.now ≡ tracked_of log → result ≡ length (snapshot_body log) }
    {
        self.len
    }

    /// The bytes of what a snapshot of the log lists.
    fn snapshot_body(&self, alloc: Global) -> Result<Octets, AllocError>
        ensures body { IfOk result (λ body. body ≡ body_of self.now) }
        ensures log { (log : List Chunk) → self.now ≡ tracked_of log → IfOk result (λ body. body ≡ snapshot_body log) }
    {
        let mut body = Octets::new(alloc);
        put_references(&mut body, &self.references)?;
        put_consumers(&mut body, &self.consumers)?;
        Ok(body)
    }

    /// The entry of a snapshot of the log. It fails for want of memory alone.
    pub fn snapshot_entry(&self, alloc: Global) -> Result<Entry, AllocError>
        requires { length (body_of self.now) < 2 ^ 31 }
        ensures entry { IfOk result (λ entry. entry ≡ Simple (body_of self.now)) }
        ensures log { (log : List Chunk) → self.now ≡ tracked_of log → IfOk result (λ entry. entry ≡ snapshot_entry_of log) }
    {
        let body = self.snapshot_body(alloc)?;
        Ok(Entry::Simple(body))
    }

    /// Whether a chunk behind the log is a truthful snapshot of it, or none. It fails for want of memory alone.
    pub fn agrees(&self, alloc: Global, chunk: &Stored) -> Result<bool, AllocError>
        ensures { (log : List Chunk) → self.now ≡ tracked_of log → IfOk result (λ b. IsTrue b ↔ (chunk.now.kind ≡ Snapshot → chunk.now.entries ≡ snapshot_entry_of log ∷ [])) }
    {
        match chunk.header().kind {
            ChunkKind::User => Ok(true),
            ChunkKind::Delta => Ok(true),
            ChunkKind::Snapshot => {
                let body = self.snapshot_body(alloc)?;
                Ok(is_same(body_of_one(chunk), body.as_slice()))
            }
        }
    }

    /// What is tracked of the chunks before a snapshot of them.
    fn restored(alloc: Global, snapshot: &Stored) -> Result<Tracking, AllocError>
        ensures { (log : List Chunk) → All IsChunk log → snapshot.now.entries ≡ snapshot_entry_of log ∷ [] → IfOk result (λ t. t ≡ tracked_of log) }
    {
        let mut tracking = Tracking::empty(alloc);
        tracking.note_all(body_of_one(snapshot))?;
        Ok(tracking)
    }

    /// What is tracked of a log, each snapshot of which is truthful. It begins at the last snapshot, of whose entry it
    /// looks up each name once. It fails for want of memory alone.
    pub fn of_log(alloc: Global, log: &[Stored]) -> Result<Tracking, AllocError>
        requires { Truthful log.now }
        ensures { IfOk result (λ t. t ≡ tracked_of log.now) }
    {
        let Some(last) = last_snapshot(log) else {
            let mut tracking = Tracking::empty(alloc);
            tracking.apply_all(log)?;
            return Ok(tracking);
        };
        let mut tracking = Tracking::restored(alloc, &log[last])?;
        tracking.apply_all(&log[last + 1..])?;
        Ok(tracking)
    }
}

/// The place of the first snapshot in a log that is not truthful. It fails for want of memory alone.
pub fn first_untruthful(alloc: Global, log: &[Stored]) -> Result<Option<usize>, AllocError>
    ensures { IfOk result (λ found. MatchOption found (Truthful log.now) (λ place. (place < length log.now) × Truthful (take place log.now) × (Truthful (take (place + 1) log.now) → ⊥))) }
{
    let mut tracking = Tracking::empty(alloc);
    for (place, chunk) in log.iter().enumerate() {
        if !tracking.agrees(alloc, chunk)? {
            return Ok(Some(place));
        }
        tracking.apply(chunk)?;
    }
    Ok(None)
}

fn is_same(one: &[u8], other: &[u8]) -> bool
    ensures { IsTrue result ↔ (one.now ≡ other.now) }
{
    one == other
}

/// The place of the last snapshot chunk.
fn last_snapshot(log: &[Stored]) -> Option<usize>
    ensures each { All IsChunk log.now }
    ensures place { IfSome result (λ place. (place < length log.now) × HoldsAt (λ c. c.kind ≡ Snapshot) log.now place) }
{
    let mut last = None;
    for (place, chunk) in log.iter().enumerate() {
        if let ChunkKind::Snapshot = chunk.header().kind {
            last = Some(place);
        }
    }
    last
}

/// Writes what a snapshot says of publishers.
fn put_references(out: &mut Octets, references: &Named<Latest>) -> Result<(), AllocError>
    requires { All IsSnapshot (map sequence_entry references.now) }
    ensures { OnOk result (out.new ≡ out.old ++ flat_map snapshot_bytes (map sequence_entry references.now)) }
{
    for index in 0..references.len() {
        let (name, latest) = references.at(index);
        let first = latest.first;
        let id = latest.id;
        put_snapshot(out, SnapshotParts::Sequence { name, first, id })?;
    }
    Ok(())
}

/// Writes what a snapshot says of consumers.
fn put_consumers(out: &mut Octets, consumers: &Named<u64>) -> Result<(), AllocError>
    requires { All IsSnapshot (map offset_entry consumers.now) }
    ensures { OnOk result (out.new ≡ out.old ++ flat_map snapshot_bytes (map offset_entry consumers.now)) }
{
    for index in 0..consumers.len() {
        let (name, offset) = consumers.at(index);
        put_snapshot(out, SnapshotParts::Offset { name, offset })?;
    }
    Ok(())
}
