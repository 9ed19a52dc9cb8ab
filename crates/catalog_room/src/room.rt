//! What the lock of the catalog holds.

ghost use Rattle.std.specs.Prelude.{◌≡◌, ℕ, IfOk, IsErrOf, OnOk};
ghost use Rattle.disk_calls.specs.Disk.{HasCause};
ghost use Rattle.disk_calls.specs.Frames.{Besides};
ghost use Rattle.gated_words.specs.Files.{second_file};
ghost use Rattle.gated_words.specs.Backing.{Backs, KeepsPairs, MayAdd};
ghost use Rattle.segment_store.specs.Words.{epochs_file, word_of, EachWord};
ghost use Rattle.stream_catalog.specs.Adding.{AreNumbered};
ghost use Rattle.stream_catalog.specs.InHand.{Backed, OtherFiles};
ghost use Rattle.stream_catalog.specs.Names.{find, part_index, streams};
ghost use Rattle.stream_catalog.specs.Rules.{creates, creates_super, deletes, deletes_super};
ghost use Rattle.hub_terms.specs.Meaning.{AreFew, IfTold};
ghost use Rattle.hub_terms.specs.Tables.{HubTable, parts_in, routes_in};
ghost use Rattle.catalog_room.specs.Rooms.{HasFailed, HasHubCode, RoomDoes, room_of};

use crate::asking::{parts, route};
use crate::telling::tell;
use disk_calls::Disk;
use frame_wire::{Row, Text};
use hub_terms::HubDid;
use segment_store::{EpochStore, Receipt, StoreFault};
use std::alloc::{AllocError, Global};
use std::marker::Model;
use stream_catalog::Catalog;

/// What the lock of a server's catalog holds: the catalog and the epochs of the streams, with the disk on which both
/// stand. Whoever has the lock may make each call: that catalog and epochs belong to the disk is in the type.
///
/// A contract sees the catalog, the epochs, the disk, and how often the catalog was found damaged.
#[derive(Drop)]
pub struct CatalogRoom<D: Disk + Drop> {
    alloc: Global,
    catalog: Catalog,
    epochs: EpochStore,
    disk: D,
    damages: u64,
}

impl<D: Disk + Drop> Model for CatalogRoom<D> {
    ghost use Rattle.std.specs.Prelude.{◌≡◌};
    ghost use Rattle.gated_words.specs.Backing.{Backs};
    ghost use Rattle.segment_store.specs.Words.{epochs_file};
    ghost use Rattle.stream_catalog.specs.InHand.{Backed};
    ghost use Rattle.catalog_room.specs.Rooms.{Room, room_of};

    ghost Value = { Room D };

    ghost view = { λ r. room_of r.catalog r.epochs r.disk r.damages };

    ghost invariant = { λ r. (D.tells → Backed r.catalog (D.state r.disk)) × (D.tells → Backs r.epochs (D.state r.disk)) × (r.epochs.id ≡ epochs_file) };
}

impl<D: Disk + Drop> CatalogRoom<D> {
    /// Puts a catalog and epochs together with the disk on which they stand.
    pub fn new(alloc: Global, catalog: Catalog, epochs: EpochStore, disk: D) -> CatalogRoom<D>
        requires catalog { D.tells → Backed catalog (D.state disk) }
        requires epochs { D.tells → Backs epochs (D.state disk) }
        requires file { epochs.id ≡ epochs_file }
        ensures { result ≡ room_of catalog epochs disk 0 }
    {
        CatalogRoom {
            alloc,
            catalog,
            epochs,
            disk,
            damages: 0,
        }
    }

    /// A stream of a name of 1 to 255 bytes is to come. By the rules it is told, in this order: `PreconditionFailed` for
    /// another name, `StreamAlreadyExists`, `PreconditionFailed` where there is no room for a stream more, `Ok`.
    ///
    /// `Failed` comes only where the disk failed in this call, or the files were found damaged; `Memory` for want of
    /// memory. Then the change isn't in the names in hand, and each image that a crash may leave has it or has it not;
    /// the next change first reads the files again. Where a disk tells what it holds they are never damaged. The calls of
    /// the disk are those of `Catalog::create`.
    pub fn create(&mut self, name: &Text) -> HubDid
        ensures does { D.tells → RoomDoes (creates self.old.catalog.limit name.now) self.old.catalog self.new.catalog result (D.state self.old.disk) (D.state self.new.disk) }
        ensures code { HasHubCode result }
        ensures cause { HasFailed result (D.state self.old.disk).faults (D.state self.new.disk).faults self.old.damages self.new.damages }
        ensures undamaged { D.tells → self.new.damages ≡ self.old.damages }
        ensures others { OtherFiles (D.state self.old.disk) (D.state self.new.disk) }
        ensures epochs { self.new.epochs ≡ self.old.epochs }
    {
        let made = self.catalog.create(&mut self.disk, name);
        tell(made, &mut self.damages)
    }

    /// A stream is to go. By the rules it is told, in this order: `StreamDoesNotExist`, also for the name of a super
    /// stream, `PreconditionFailed` for a partition, `Ok`. Else it is as with `create`.
    pub fn delete(&mut self, name: &Text) -> HubDid
        ensures does { D.tells → RoomDoes (deletes name.now) self.old.catalog self.new.catalog result (D.state self.old.disk) (D.state self.new.disk) }
        ensures code { HasHubCode result }
        ensures cause { HasFailed result (D.state self.old.disk).faults (D.state self.new.disk).faults self.old.damages self.new.damages }
        ensures undamaged { D.tells → self.new.damages ≡ self.old.damages }
        ensures others { OtherFiles (D.state self.old.disk) (D.state self.new.disk) }
        ensures epochs { self.new.epochs ≡ self.old.epochs }
    {
        let made = self.catalog.delete(&mut self.disk, name);
        tell(made, &mut self.damages)
    }

    /// A super stream is to come, with these partitions, each with its binding key. By the rules it is told, in this order:
    /// `PreconditionFailed` for a name, of it or of a partition, that has not 1 to 255 bytes, and for partitions that are
    /// none, have not as many keys, a null key or two equal names; `StreamAlreadyExists`; `PreconditionFailed` where there
    /// is no room for so many streams more; `Ok`. Else it is as with `create`.
    pub fn create_super(&mut self, name: &Text, parts: &[Text], keys: &[Text]) -> HubDid
        ensures does { D.tells → RoomDoes (creates_super self.old.catalog.limit name.now parts.now keys.now) self.old.catalog self.new.catalog result (D.state self.old.disk) (D.state self.new.disk) }
        ensures code { HasHubCode result }
        ensures cause { HasFailed result (D.state self.old.disk).faults (D.state self.new.disk).faults self.old.damages self.new.damages }
        ensures undamaged { D.tells → self.new.damages ≡ self.old.damages }
        ensures others { OtherFiles (D.state self.old.disk) (D.state self.new.disk) }
        ensures epochs { self.new.epochs ≡ self.old.epochs }
    {
        let made = self.catalog.create_super(&mut self.disk, name, parts, keys);
        tell(made, &mut self.damages)
    }

    /// A super stream is to go, with its partitions. By the rules it is told `StreamDoesNotExist`, or `Ok`. Else it is as
    /// with `create`.
    pub fn delete_super(&mut self, name: &Text) -> HubDid
        ensures does { D.tells → RoomDoes (deletes_super name.now) self.old.catalog self.new.catalog result (D.state self.old.disk) (D.state self.new.disk) }
        ensures code { HasHubCode result }
        ensures cause { HasFailed result (D.state self.old.disk).faults (D.state self.new.disk).faults self.old.damages self.new.damages }
        ensures undamaged { D.tells → self.new.damages ≡ self.old.damages }
        ensures others { OtherFiles (D.state self.old.disk) (D.state self.new.disk) }
        ensures epochs { self.new.epochs ≡ self.old.epochs }
    {
        let made = self.catalog.delete_super(&mut self.disk, name);
        tell(made, &mut self.damages)
    }

    /// The number of the stream of a name.
    pub fn find(&self, name: &[u8]) -> Option<u32>
        ensures { result ≡ find name.now self.now.catalog.names }
    {
        self.catalog.find(name)
    }

    /// The names of a super stream's partitions, `None` where no live super stream has the name. It needs memory for them.
    pub fn parts(&self, name: &Text) -> Result<Option<Row<Text>>, AllocError>
        ensures few { AreFew result }
        ensures told { (t : HubTable) → t.names ≡ self.now.catalog.names → IfTold (parts_in t name.now) result }
    {
        parts(self.alloc, &self.catalog, name)
    }

    /// The partitions of a super stream whose binding key is this routing key, `None` where no live super stream has the
    /// name. It needs memory for them.
    pub fn route(&self, key: &Text, name: &Text) -> Result<Option<Row<Text>>, AllocError>
        ensures few { AreFew result }
        ensures told { (t : HubTable) → t.names ≡ self.now.catalog.names → IfTold (routes_in t key.now name.now) result }
    {
        route(self.alloc, &self.catalog, key, name)
    }

    /// The place of a stream in its super stream, counted from 0; 0 for any other number.
    pub fn part_index(&self, stream: u32) -> u32
        ensures { result ≡ part_index stream self.now.catalog.names }
    {
        self.catalog.part_index(stream)
    }

    /// The numbers of the live streams. They rise. After a change each of them is to have a stream, and no other number;
    /// also where the change was refused or failed, since it may have read the files again.
    pub fn streams(&self) -> &[u32]
        ensures numbers { result.now ≡ streams self.now.catalog.names }
        ensures rising { AreNumbered self.now.catalog.names }
    {
        self.catalog.streams()
    }

    /// The epoch of a stream, 0 where it has none.
    pub fn epoch(&self, stream: u32) -> u64
        ensures { result ≡ word_of stream self.now.epochs.pairs }
    {
        self.epochs.epoch(stream)
    }

    /// Gives a stream an epoch, which is a job of its coordinator, and hands out the receipt. It fails with `Disk` only
    /// where the disk failed in this call, and with `Memory` for want of memory; then the epochs of each image that a crash
    /// may leave are those from before, or have it too. `DamagedWords` never comes where a disk tells what it holds.
    pub fn perform_epoch(
        &mut self,
        stream: u32,
        number: u64,
        epoch: u64,
    ) -> Result<Receipt, StoreFault>
        ensures images { D.tells → MayAdd epochs_file (stream, epoch) (D.state self.old.disk) (D.state self.new.disk) }
        ensures given { OnOk result (word_of stream self.new.epochs.pairs ≡ epoch) }
        ensures only { D.tells → (other : ℕ) → OnOk result (EachWord epochs_file other (λ word. word ≡ word_of other self.new.epochs.pairs) (D.state self.new.disk)) }
        ensures receipt { IfOk result (λ r. (r.stream ≡ stream) × (r.member ≡ 0) × (r.number ≡ number)) }
        ensures memory { D.tells → IsErrOf result StoreFault.Memory → KeepsPairs epochs_file (D.state self.old.disk) (D.state self.new.disk) }
        ensures undamaged { D.tells → (place : ℕ) → IsErrOf result (StoreFault.DamagedWords place) → ⊥ }
        ensures no_segment { (segment at : ℕ) → IsErrOf result (StoreFault.Damaged segment at) → ⊥ }
        ensures cause { HasCause (IsErrOf result StoreFault.Disk) (D.state self.old.disk) (D.state self.new.disk) }
        ensures others { Besides epochs_file (second_file epochs_file) (D.state self.old.disk) (D.state self.new.disk) }
        ensures catalog { self.new.catalog ≡ self.old.catalog }
        ensures damages { self.new.damages ≡ self.old.damages }
    {
        self.epochs.perform(&mut self.disk, stream, number, epoch)
    }
}
