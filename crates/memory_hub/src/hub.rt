//! The hub.

ghost use Rattle.std.specs.Prelude.{◌≡◌, ◌≤◌, ◌<◌, ◌+◌, true, false, [], map, None, Some, IfOk, IfSome, IfNone, IsTrue, ◌↔◌};
ghost use Rattle.stream_catalog.specs.Names.{is_live};
ghost use Rattle.stream_catalog.specs.Rules.{changed, creates, creates_super, deletes, deletes_super};
ghost use Rattle.stream_catalog.specs.Asking.{Asks};
ghost use Rattle.stream_catalog.specs.Files.{fits};
ghost use Rattle.stream_catalog.specs.Adding.{Comes as BringsNames, Goes};
ghost use Rattle.hub_terms.specs.Tables.{TableHolds, stands, running_by, view_at};
ghost use Rattle.memory_hub.specs.Hubs.{empty_hub, FailsNext, counted, with_fault, at_hub, run_as};
ghost use Rattle.memory_hub.specs.Steps.{told_as, with_streams, after_change, Comes};

use crate::asking::{bytes_of, find, is_active, parts, route};
use crate::names::{add_names, done, stand_all, take_names, told_as};
use crate::streams::{begin_in, stop_in};
use active_groups::Groups;
use chunk_format::Stored;
use command_data::Tagged;
use command_fields::{OffsetSpec, ResponseCode};
use frame_wire::{Row, Text};
use hub_terms::{Change, ConsumerId, Found, Hub, HubDid};
use memory_stream::MemoryStream;
use std::alloc::{AllocError, Global};
use std::marker::Model;
use stream_catalog::{
    CatalogFault, Change as NameChange, Listed, ask_create, ask_create_super, ask_delete,
    ask_delete_super,
};
use stream_table::{
    confirms_in, declare_in, greatest_in, last_in, next_in, offer_in, start_in, store_in, stored_in,
};
use stream_terms::{Confirm, DeclareFault, OfferFault, Pass, Taken};

/// A hub in memory. What is offered is in a stream's list at once. No disk is behind its names, and of the changes of the
/// catalog those fail that are listed.
#[derive(Drop)]
pub struct MemoryHub {
    alloc: Global,
    limit: u32,
    listed: Listed,
    streams: Vec<MemoryStream>,
    groups: Groups,
    fails: Vec<u64>,
    changes: u64,
    faults: u64,
}

impl Model for MemoryHub {
    ghost use Rattle.std.specs.Prelude.{◌≤◌};
    ghost use Rattle.hub_terms.specs.Tables.{TableHolds};
    ghost use Rattle.memory_hub.specs.Hubs.{HubInMemory, table_of, hub_of};

    ghost Value = { HubInMemory };

    ghost view = { λ h. hub_of h.listed h.limit h.streams.items h.groups h.faults h.fails.items h.changes };

    ghost invariant = { λ h. TableHolds (table_of h.listed h.limit h.streams.items h.groups h.faults) × (h.limit ≤ 16) };
}

impl MemoryHub {
    /// No streams. There may be at most so many live ones. `fails` has the numbers, from 1, of the changes of the catalog
    /// that fail. It takes memory.
    pub fn new(alloc: Global, limit: u32, fails: &[u64]) -> Result<MemoryHub, AllocError>
        requires { limit ≤ 16 }
        ensures { IfOk result (λ h. h ≡ empty_hub limit fails.now) }
    {
        Ok(MemoryHub {
            alloc,
            limit,
            listed: Listed::empty(alloc)?,
            streams: Vec::new(alloc),
            groups: Groups::new(alloc),
            fails: Vec::from_slice(alloc, fails)?,
            changes: 0,
            faults: 0,
        })
    }

    /// Ends the epoch that runs of a stream. What is ready stays so.
    pub fn stop(&mut self, stream: u32)
        ensures { self.new ≡ at_hub (run_as None) stream self.old }
    {
        stop_in(self.streams.as_mut_slice(), stream);
    }

    /// Begins the next epoch of a live stream, and tells its number, or does nothing where there is none.
    pub fn begin(&mut self, stream: u32) -> Option<u64>
        ensures begun { IfSome result (λ epoch. self.new ≡ at_hub (run_as (Some epoch)) stream self.old) }
        ensures live { IfSome result (λ epoch. is_live stream self.old.table.names ≡ true) }
        ensures later { IfSome result (λ epoch. IfSome (running_by (view_at self.old.table.views stream)) (λ before. before < epoch)) }
        ensures none { IfNone result (self.new ≡ self.old) }
    {
        if !self.listed.is_live(stream) {
            return None;
        }
        begin_in(self.streams.as_mut_slice(), stream)
    }

    /// Counts a change that is asked for, and tells whether it is one of those that fail.
    fn count_change(&mut self) -> bool
        ensures listed { IsTrue result ↔ FailsNext self.old }
        ensures counted { self.new ≡ counted false self.old }
        ensures holds { TableHolds self.old.table }
        ensures alone { self.old.table.others ≡ [] }
    {
        self.changes = self.changes.saturating_add(1);
        self.fails.contains(&self.changes)
    }

    /// Counts a failure.
    fn count_fault(&mut self)
        ensures counted { self.new ≡ with_fault self.old }
        ensures later { self.old.table.faults ≤ self.new.table.faults }
    {
        self.faults = self.faults.saturating_add(1);
    }

    /// Counts a change that is asked for, and its failure where it is one of those that fail, and tells which.
    fn next_fails(&mut self) -> bool
        ensures listed { IsTrue result ↔ FailsNext self.old }
        ensures counted { self.new ≡ counted result self.old }
        ensures later { self.old.table.faults ≤ self.new.table.faults }
        ensures holds { TableHolds self.old.table }
        ensures alone { self.old.table.others ≡ [] }
    {
        if self.count_change() {
            self.count_fault();
            return true;
        }
        false
    }

    /// The stream of a name that is to come, or why none does.
    fn stream_to_come(&self, name: &Text) -> Result<NameChange, CatalogFault>
        ensures asks { Asks result (creates self.now.table.limit name.now self.now.table.names) }
        ensures fits { IfOk result (λ change. fits change self.now.table.names ≡ true) }
    {
        ask_create(self.alloc, &self.listed, self.limit, name)
    }

    /// The super stream that is to come, or why none does.
    fn super_to_come(
        &self,
        name: &Text,
        parts: &[Text],
        keys: &[Text],
    ) -> Result<NameChange, CatalogFault>
        ensures asks { Asks result (creates_super self.now.table.limit name.now parts.now keys.now self.now.table.names) }
        ensures fits { IfOk result (λ change. fits change self.now.table.names ≡ true) }
    {
        ask_create_super(self.alloc, &self.listed, self.limit, name, parts, keys)
    }

    /// The stream of a name that is to go, or why none does.
    fn stream_to_go(&self, name: &Text) -> Result<NameChange, CatalogFault>
        ensures { Asks result (deletes name.now self.now.table.names) }
    {
        ask_delete(self.alloc, &self.listed, name)
    }

    /// The super stream that is to go, or why none does.
    fn super_to_go(&self, name: &Text) -> Result<NameChange, CatalogFault>
        ensures { Asks result (deletes_super name.now self.now.table.names) }
    {
        ask_delete_super(self.alloc, &self.listed, name)
    }

    /// Nothing changes, for this cause.
    fn refuse(&mut self, fault: CatalogFault) -> HubDid
        ensures told { result ≡ told_as fault }
        ensures after { self.new ≡ with_streams self.old.table.names (map (stands self.old.table.names) self.old.table.views) self.old }
    {
        stand_all(&self.listed, &mut self.streams);
        told_as(fault)
    }

    /// Names come with their streams, so many.
    fn come(&mut self, change: NameChange, count: usize) -> HubDid
        requires fits { fits change self.old.table.names ≡ true }
        requires brings { BringsNames change.kind }
        requires last { (changed change self.old.table.names).last ≡ self.old.table.names.last + count }
        ensures { Comes change count self.old result self.new }
    {
        let added = add_names(
            self.alloc,
            &mut self.listed,
            &mut self.streams,
            change,
            count,
        );
        done(added)
    }

    /// Names go, and their streams end.
    fn go(&mut self, change: NameChange) -> HubDid
        requires { Goes change.kind }
        ensures { Comes change 0 self.old result self.new }
    {
        take_names(&mut self.listed, &mut self.streams, &change);
        HubDid::Code(ResponseCode::Ok)
    }
}

impl Hub for MemoryHub {
    ghost use Rattle.memory_hub.specs.Hubs.{memory_meaning};
    ghost use Rattle.memory_hub.specs.Laws.{memory_laws};

    ghost meaning = { memory_meaning };

    ghost laws = { memory_laws };

    fn find(&mut self, name: &[u8]) -> Found {
        find(&self.listed, self.streams.as_slice(), name)
    }

    fn create(&mut self, name: &Text) -> HubDid {
        if self.next_fails() {
            return HubDid::Failed;
        }
        match self.stream_to_come(name) {
            Ok(change) => self.come(change, 1),
            Err(fault) => self.refuse(fault),
        }
    }

    fn delete(&mut self, name: &Text) -> HubDid {
        if self.next_fails() {
            return HubDid::Failed;
        }
        match self.stream_to_go(name) {
            Ok(change) => self.go(change),
            Err(fault) => self.refuse(fault),
        }
    }

    fn create_super(&mut self, name: &Text, parts: &[Text], keys: &[Text]) -> HubDid {
        if self.next_fails() {
            return HubDid::Failed;
        }
        match self.super_to_come(name, parts, keys) {
            Ok(change) => self.come(change, parts.len()),
            Err(fault) => self.refuse(fault),
        }
    }

    fn delete_super(&mut self, name: &Text) -> HubDid {
        if self.next_fails() {
            return HubDid::Failed;
        }
        match self.super_to_go(name) {
            Ok(change) => self.go(change),
            Err(fault) => self.refuse(fault),
        }
    }

    fn parts(&mut self, name: &Text) -> Result<Option<Row<Text>>, AllocError> {
        parts(self.alloc, &self.listed, name)
    }

    fn route(&mut self, key: &Text, name: &Text) -> Result<Option<Row<Text>>, AllocError> {
        route(self.alloc, &self.listed, key, name)
    }

    fn declare(&mut self, session: u32, stream: u32, name: &Text) -> Result<Pass, DeclareFault> {
        declare_in(self.streams.as_mut_slice(), session, stream, name)
    }

    fn offer(
        &mut self,
        stream: u32,
        pass: &Pass,
        items: &[Tagged],
        now: u64,
    ) -> Result<Taken, OfferFault> {
        offer_in(self.streams.as_mut_slice(), stream, pass, items, now)
    }

    fn store_offset(
        &mut self,
        stream: u32,
        name: &Text,
        offset: u64,
        now: u64,
    ) -> Result<Taken, OfferFault> {
        store_in(self.streams.as_mut_slice(), stream, name, offset, now)
    }

    fn confirms(&mut self, session: u32) -> Result<Row<Confirm>, AllocError> {
        confirms_in(self.alloc, self.streams.as_mut_slice(), session)
    }

    fn start(&mut self, stream: u32, spec: &OffsetSpec) -> Result<u64, AllocError> {
        Ok(start_in(self.streams.as_slice(), stream, spec))
    }

    fn next_chunk(&mut self, stream: u32, from: u64) -> Result<Option<Stored>, AllocError> {
        next_in(self.streams.as_slice(), stream, from)
    }

    fn greatest(&mut self, stream: u32, name: &Text) -> Result<Option<u64>, AllocError> {
        Ok(greatest_in(self.streams.as_slice(), stream, bytes_of(name)))
    }

    fn stored(&mut self, stream: u32, name: &Text) -> Result<Option<u64>, AllocError> {
        Ok(stored_in(self.streams.as_slice(), stream, bytes_of(name)))
    }

    fn last_chunk(&mut self, stream: u32) -> Result<Option<u64>, AllocError> {
        Ok(last_in(self.streams.as_slice(), stream))
    }

    fn join(&mut self, stream: u32, name: &Text, consumer: ConsumerId) -> Result<(), AllocError> {
        self.groups.leave(consumer);
        let index = self.listed.part_index(stream);
        self.groups.join(stream, name, index, consumer)
    }

    fn leave(&mut self, consumer: ConsumerId) {
        self.groups.leave(consumer);
    }

    fn change(&mut self, session: u32) -> Option<Change> {
        self.groups.poll(session)
    }

    fn answered(&mut self, consumer: ConsumerId) -> bool {
        self.groups.answered(consumer)
    }

    fn active(&mut self, consumer: ConsumerId) -> bool {
        is_active(self.groups.state(consumer))
    }
}
