//! One stream in memory.

ghost use Rattle.std.specs.Prelude.{◌≡◌, ◌≤◌, ◌↔◌, IsTrue, false, length, map, position, List, IfOk, IfErr, IfSome, IfNone, OnOk, OnErr, ◌<◌, Some, None, [], ◌∷◌, ◌++◌};
ghost use Rattle.std.specs.List.{filter, Contains};
ghost use Rattle.chunk_format.specs.declared.chunk.Chunk.{Chunk};
ghost use Rattle.chunk_format.specs.Chunks.{end_of_chunk};
ghost use Rattle.chunk_format.specs.Logs.{next_above};
ghost use Rattle.chunk_format.specs.ByName.{Greatest, LastStored};
ghost use Rattle.command_data.specs.Starts.{StartOf};
ghost use Rattle.tracking_state.specs.Tracked.{tracked_of};
ghost use Rattle.stream_terms.specs.declared.terms.OfferFault.TheVariants as refused;
ghost use Rattle.stream_terms.specs.Lists.{last_first};
ghost use Rattle.stream_terms.specs.Views.{StreamView, StreamHolds, name_of};
ghost use Rattle.stream_terms.specs.Steps.{DeclareStep, IsOfUse, has_none, names_one, is_of, is_other, confirm_of};
ghost use Rattle.memory_stream.specs.Chosen.{chosen};
ghost use Rattle.memory_stream.specs.Gives.{fresh, ended, OfferGives, OffsetGives, HandGives};

use crate::chosen::{chosen, first_empty};
use crate::made::{make_offset, make_user, waits_for};
use crate::passes::{given_with, is_of_use, name_of, push_given};
use chunk_format::Stored;
use command_data::Tagged;
use command_fields::OffsetSpec;
use frame_wire::{Row, Text};
use std::alloc::{AllocError, Global};
use std::collections::VecDeque;
use std::marker::Model;
use stream_terms::{
    Confirm, DeclareFault, Given, OfferFault, Pass, Taken, Waits, end_of, last_first, next_above,
    start_of,
};
use tracking_state::Tracking;

/// A stream whose list is in memory, seen as its view. One offer makes one chunk, of at most 65,535 entries. Epochs begin
/// at 1.
#[derive(Drop)]
pub struct MemoryStream {
    alloc: Global,
    number: u32,
    runs: bool,
    epoch: u64,
    end: u64,
    tracking: Tracking,
    chunks: Vec<Stored>,
    passes: Vec<Given>,
    ready: Vec<Waits>,
}

impl Model for MemoryStream {
    ghost use Rattle.std.specs.Prelude.{[], Some, None, if◌then◌else◌};
    ghost use Rattle.stream_terms.specs.Views.{StreamView};
    ghost use Rattle.memory_stream.specs.Kept.{Keeps};

    ghost Value = { StreamView };

    ghost view = { λ s. record { number = s.number; chunks = s.chunks.items; queue = []; running = (if s.runs then Some s.epoch else None); passes = s.passes.items; waiting = []; ready = s.ready.items } };

    ghost invariant = { λ s. Keeps s.end s.epoch s.tracking s.chunks.items s.passes.items };
}

impl MemoryStream {
    /// A stream without chunks. Its epoch 1 runs.
    pub fn new(alloc: Global, number: u32) -> MemoryStream
        ensures { result ≡ fresh number }
    {
        MemoryStream {
            alloc,
            number,
            runs: true,
            epoch: 1,
            end: 0,
            tracking: Tracking::empty(alloc),
            chunks: Vec::new(alloc),
            passes: Vec::new(alloc),
            ready: Vec::new(alloc),
        }
    }

    /// Gives the next pass of the epoch that runs.
    pub fn declare(&mut self, session: u32, name: &Text) -> Result<Pass, DeclareFault>
        requires { length (name_of name.now) ≤ 255 }
        ensures { DeclareStep self.old session name.now result self.new }
    {
        let serial = self.passes.as_slice().len();
        if !self.runs || serial >= 4_294_967_295 {
            return Err(DeclareFault::Closed);
        }
        let pass = Pass {
            stream: self.number,
            session,
            serial: serial as u32,
            epoch: self.epoch,
        };
        let name = match name_of(self.alloc, name) {
            Ok(name) => name,
            Err(_) => return Err(DeclareFault::Memory),
        };
        push_given(&mut self.passes, Given { pass, name })?;
        Ok(pass)
    }

    /// The number of the stream.
    pub fn number(&self) -> u32
        ensures { result ≡ self.now.number }
    {
        self.number
    }

    /// The epoch that runs.
    pub fn running(&self) -> Option<u64>
        ensures { result ≡ self.now.running }
    {
        if self.runs { Some(self.epoch) } else { None }
    }

    /// Where a subscription starts.
    pub fn start(&self, spec: &OffsetSpec) -> u64
        ensures { result ≡ StartOf spec.now self.now.chunks }
    {
        start_of(self.chunks.as_slice(), spec)
    }

    /// The first user chunk whose end is above an offset.
    pub fn next_chunk(&self, from: u64) -> Result<Option<Stored>, AllocError>
        requires { StreamHolds self.now [] }
        ensures { IfOk result (λ next. next ≡ next_above from self.now.chunks) }
    {
        next_above(self.chunks.as_slice(), from)
    }

    /// The first offset of the last chunk.
    pub fn last(&self) -> Option<u64>
        ensures { result ≡ last_first self.now.chunks }
    {
        last_first(self.chunks.as_slice())
    }

    /// The greatest id of a publisher.
    pub fn greatest(&self, name: &[u8]) -> Option<u64>
        ensures { result ≡ Greatest name.now self.now.chunks }
    {
        self.tracking.greatest(name)
    }

    /// The last offset that was stored for a consumer.
    pub fn stored(&self, name: &[u8]) -> Option<u64>
        ensures { result ≡ LastStored name.now self.now.chunks }
    {
        self.tracking.stored(name)
    }
}

/// Adds a chunk to a list and to what is tracked of it, or changes nothing.
fn add_chunk(
    chunks: &mut Vec<Stored>,
    tracking: &mut Tracking,
    chunk: Stored,
) -> Result<(), OfferFault>
    ensures chunks { OnOk result (chunks.new.items ≡ chunks.old.items ++ chunk ∷ []) }
    ensures tracks { OnOk result ((log : List Chunk) → tracking.old ≡ tracked_of log → tracking.new ≡ tracked_of (log ++ chunk ∷ [])) }
    ensures same_chunks { OnErr result (chunks.new.items ≡ chunks.old.items) }
    ensures same_tracks { OnErr result (tracking.new ≡ tracking.old) }
    ensures memory { IfErr result (λ fault. fault ≡ refused.Memory) }
{
    let len = chunks.len();
    let shared = match chunk.share() {
        Ok(shared) => shared,
        Err(_) => return Err(OfferFault::Memory),
    };
    match chunks.push(chunk) {
        Ok(()) => {}
        Err(_) => return Err(OfferFault::Memory),
    }
    match tracking.apply(&shared) {
        Ok(()) => Ok(()),
        Err(_) => {
            chunks.truncate(len);
            Err(OfferFault::Memory)
        }
    }
}

fn add_wait(ready: &mut Vec<Waits>, waits: Waits) -> Result<(), OfferFault>
    ensures ok { OnOk result (ready.new.items ≡ ready.old.items ++ waits ∷ []) }
    ensures err { OnErr result (ready.new.items ≡ ready.old.items) }
    ensures memory { IfErr result (λ fault. fault ≡ refused.Memory) }
{
    match ready.push(waits) {
        Ok(()) => Ok(()),
        Err(_) => Err(OfferFault::Memory),
    }
}

/// Adds to all, or changes nothing.
fn add_offer(
    chunks: &mut Vec<Stored>,
    tracking: &mut Tracking,
    ready: &mut Vec<Waits>,
    chunk: Stored,
    waits: Waits,
) -> Result<(), OfferFault>
    ensures chunks { OnOk result (chunks.new.items ≡ chunks.old.items ++ chunk ∷ []) }
    ensures tracks { OnOk result ((log : List Chunk) → tracking.old ≡ tracked_of log → tracking.new ≡ tracked_of (log ++ chunk ∷ [])) }
    ensures ready { OnOk result (ready.new.items ≡ ready.old.items ++ waits ∷ []) }
    ensures same_chunks { OnErr result (chunks.new.items ≡ chunks.old.items) }
    ensures same_tracks { OnErr result (tracking.new ≡ tracking.old) }
    ensures same_ready { OnErr result (ready.new.items ≡ ready.old.items) }
    ensures memory { IfErr result (λ fault. fault ≡ refused.Memory) }
{
    let len = ready.len();
    add_wait(ready, waits)?;
    match add_chunk(chunks, tracking, chunk) {
        Ok(()) => Ok(()),
        Err(fault) => {
            ready.truncate(len);
            Err(fault)
        }
    }
}

impl MemoryStream {
    /// Takes an offer. What is new is in the list at once, and the confirm is ready.
    pub fn offer(&mut self, pass: &Pass, items: &[Tagged], now: u64) -> Result<Taken, OfferFault>
        requires holds { StreamHolds self.old [] }
        requires some { 1 ≤ length items.now }
        requires few { length items.now ≤ 1048576 }
        ensures { OfferGives self.old pass.now items.now result self.new }
    {
        let running = self.running();
        if !is_of_use(running, self.passes.as_slice(), pass) {
            return Err(OfferFault::Stale {
                asked: pass.epoch,
                running: running.unwrap_or(0),
            });
        }
        if let Some(place) = first_empty(items) {
            return Err(OfferFault::EmptyBatch {
                place: place as u32,
            });
        }
        self.take(pass, items, now)
    }

    /// Takes an offer that nothing refuses but a limit.
    fn take(&mut self, pass: &Pass, items: &[Tagged], now: u64) -> Result<Taken, OfferFault>
        requires holds { StreamHolds self.old [] }
        requires some { 1 ≤ length items.now }
        requires few { length items.now ≤ 1048576 }
        requires useful { IsOfUse self.old pass.now }
        requires whole { position has_none items.now ≡ None }
        ensures { OfferGives self.old pass.now items.now result self.new }
    {
        let given = match given_with(self.alloc, self.passes.as_slice(), pass) {
            Ok(given) => given,
            Err(_) => return Err(OfferFault::Memory),
        };
        let greatest = self.tracking.greatest(given.name.as_slice());
        let kept = match chosen(self.alloc, given.name.as_slice(), greatest, items) {
            Ok(kept) => kept,
            Err(_) => return Err(OfferFault::Memory),
        };
        if kept.as_slice().is_empty() {
            return self.confirm_again(given, items);
        }
        self.append(given, items, kept, now)
    }

    /// Nothing is new: the confirm is ready.
    fn confirm_again(&mut self, given: Given, items: &[Tagged]) -> Result<Taken, OfferFault>
        requires holds { StreamHolds self.old [] }
        requires some { 1 ≤ length items.now }
        requires few { length items.now ≤ 1048576 }
        requires useful { IsOfUse self.old given.pass }
        requires whole { position has_none items.now ≡ None }
        requires known { Contains self.old.passes given }
        requires none { chosen given.name (Greatest given.name self.old.chunks) items.now ≡ [] }
        ensures { OfferGives self.old given.pass items.now result self.new }
    {
        let end = self.end;
        let waits = match waits_for(self.alloc, given, end, end, items) {
            Ok(waits) => waits,
            Err(_) => return Err(OfferFault::Memory),
        };
        add_wait(&mut self.ready, waits)?;
        Ok(Taken { end, accepted: 0 })
    }

    /// What is new makes a chunk, and the confirm is ready.
    fn append(
        &mut self,
        given: Given,
        items: &[Tagged],
        kept: Row<Tagged>,
        now: u64,
    ) -> Result<Taken, OfferFault>
        requires holds { StreamHolds self.old [] }
        requires some { 1 ≤ length items.now }
        requires few { length items.now ≤ 1048576 }
        requires useful { IsOfUse self.old given.pass }
        requires whole { position has_none items.now ≡ None }
        requires known { Contains self.old.passes given }
        requires short { length given.name ≤ 255 }
        requires kept { kept ≡ chosen given.name (Greatest given.name self.old.chunks) items.now }
        ensures { OfferGives self.old given.pass items.now result self.new }
    {
        let accepted = kept.as_slice().len() as u32;
        let chunk = make_user(
            self.alloc,
            self.epoch,
            self.end,
            given.name.as_slice(),
            kept.as_slice(),
            now,
        )?;
        let end = end_of_stored(&chunk);
        let waits = match waits_for(self.alloc, given, self.end, end, items) {
            Ok(waits) => waits,
            Err(_) => return Err(OfferFault::Memory),
        };
        add_offer(
            &mut self.chunks,
            &mut self.tracking,
            &mut self.ready,
            chunk,
            waits,
        )?;
        self.end = end;
        Ok(Taken { end, accepted })
    }
}

/// The bytes of a name under which an offset is stored.
fn bytes_of(name: &Text) -> Result<&[u8], OfferFault>
    ensures named { IfOk result (λ bytes. (name.now ≡ Some bytes.now) × (1 ≤ length bytes.now) × (length bytes.now ≤ 255)) }
    ensures refused { IfErr result (λ fault. (fault ≡ refused.BadName (length (name_of name.now))) × (names_one name.now ≡ false)) }
{
    match name.get() {
        None => Err(OfferFault::BadName { len: 0 }),
        Some(bytes) => {
            if bytes.is_empty() || bytes.len() > 255 {
                return Err(OfferFault::BadName { len: bytes.len() });
            }
            Ok(bytes)
        }
    }
}

impl MemoryStream {
    /// Takes an offset to be stored. Its chunk is in the list at once.
    pub fn store_offset(&mut self, name: &Text, offset: u64, now: u64) -> Result<Taken, OfferFault>
        requires { StreamHolds self.old [] }
        ensures { OffsetGives self.old name.now offset result self.new }
    {
        if !self.runs {
            return Err(OfferFault::Stale {
                asked: 0,
                running: 0,
            });
        }
        let bytes = bytes_of(name)?;
        let chunk = make_offset(self.alloc, self.epoch, self.end, bytes, offset, now)?;
        let end = end_of_stored(&chunk);
        add_chunk(&mut self.chunks, &mut self.tracking, chunk)?;
        self.end = end;
        Ok(Taken { end, accepted: 1 })
    }

    /// Hands out the confirms of a session, in the order of their offers. Where memory runs out all are given up.
    pub fn hand(&mut self, session: u32, out: &mut Row<Confirm>) -> Result<(), AllocError>
        ensures { HandGives self.old session out.old out.new result self.new }
    {
        let empty = Vec::new(self.alloc);
        let ready = std::mem::replace(&mut self.ready, empty);
        match part_ready(self.alloc, ready, session, out) {
            Ok(kept) => {
                self.ready = kept;
                Ok(())
            }
            Err(refused) => Err(refused),
        }
    }

    /// Ends the stream. What waited for confirms is dropped, and the list stays.
    pub fn end(&mut self)
        ensures { self.new ≡ ended self.old }
    {
        self.runs = false;
        self.ready.clear();
    }

    /// Ends the epoch that runs. What is ready stays so.
    pub fn stop(&mut self)
        ensures { self.new ≡ record self.old { running = None } }
    {
        self.runs = false;
    }

    /// Begins the next epoch, and tells its number, or does nothing where there is none.
    pub fn begin(&mut self) -> Option<u64>
        ensures begun { IfSome result (λ epoch. self.new ≡ record self.old { running = Some epoch }) }
        ensures later { IfSome result (λ epoch. IfSome self.old.running (λ before. before < epoch)) }
        ensures none { IfNone result (self.new ≡ self.old) }
    {
        let epoch = self.epoch.checked_add(1)?;
        self.epoch = epoch;
        self.runs = true;
        Some(epoch)
    }
}

/// Parts those of a session from the others.
fn part_ready(
    alloc: Global,
    ready: Vec<Waits>,
    session: u32,
    out: &mut Row<Confirm>,
) -> Result<Vec<Waits>, AllocError>
    ensures kept { IfOk result (λ kept. kept.items ≡ filter (is_other session) ready.items) }
    ensures out { OnOk result (out.new ≡ out.old ++ map confirm_of (filter (is_of session) ready.items)) }
{
    let mut ready = VecDeque::from(ready);
    let mut kept = Vec::new(alloc);
    'ready: while let Some(waits) = ready.pop_front() {
        if waits.given.pass.session == session {
            let confirm = confirm_of(waits);
            match out.push(confirm) {
                Ok(()) => {}
                Err(_) => return Err(AllocError),
            }
        } else {
            match kept.push(waits) {
                Ok(()) => {}
                Err(_) => return Err(AllocError),
            }
        }
    }
    Ok(kept)
}

fn confirm_of(waits: Waits) -> Confirm
    ensures { result ≡ confirm_of waits }
{
    Confirm {
        stream: waits.given.pass.stream,
        serial: waits.given.pass.serial,
        end: waits.end,
        ids: waits.ids,
    }
}

/// The offset behind a chunk.
fn end_of_stored(chunk: &Stored) -> u64
    ensures { result ≡ end_of_chunk chunk.now }
{
    let header = chunk.header();
    header.first + u64::from(header.records)
}
