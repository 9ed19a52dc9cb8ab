//! The catalog over a disk.

ghost use Rattle.std.specs.Prelude.{◌≡◌, ◌≤◌, [], true, Ok, ℕ, IsTrue, IsErrOf, IfOk, IfErr};
ghost use Rattle.disk_calls.specs.Disk.{HasCause};
ghost use Rattle.gated_words.specs.Files.{Opens};
ghost use Rattle.frame_wire.specs.Limits.{IsLimits};
ghost use Rattle.stream_catalog.specs.Names.{find, parts, route, part_index, streams};
ghost use Rattle.stream_catalog.specs.Rules.{creates, creates_super, deletes, deletes_super};
ghost use Rattle.stream_catalog.specs.ChangeBytes.{IsChange};
ghost use Rattle.stream_catalog.specs.Files.{fits, catalog_of, seen_files, words_id};
ghost use Rattle.stream_catalog.specs.Adding.{AreNumbered};
ghost use Rattle.stream_catalog.specs.InHand.{KnownFiles, Known, Backed, Shows, EachCatalog, KeepsCatalog, OtherFiles, DamagesCatalog, Does, ReadAgain, Made, TellsNumber, TellsGone, streams_without, IsOpenFault};

use crate::apply::apply_change;
use crate::asking::{ask_create, ask_create_super, ask_delete, ask_delete_super};
use crate::change::Change;
use crate::disk_files::{ReadFiles, read_files};
use crate::fault::CatalogFault;
use crate::listed::{Listed, numbers_going, streams_without};
use disk_calls::Disk;
use frame_wire::{Limits, Row, Text};
use gated_words::Gated;
use std::alloc::{AllocError, Global};
use std::marker::Model;

/// Streams and super streams by name, over the files of a disk.
///
/// A contract sees the names, the limit of live streams, the pairs, the length of the file of changes,
/// whether all this is sure, and the streams that came and went when the files were last read again. It is
/// sure, but after a change that the disk failed, or for which memory ran out half way: the next change
/// then first reads the files again.
#[derive(Drop)]
pub struct Catalog {
    alloc: Global,
    limit: u32,
    listed: Listed,
    words: Gated,
    len: u64,
    sure: bool,
    came: Row<u32>,
    went: Row<u32>,
}

impl Model for Catalog {
    ghost use Rattle.std.specs.Prelude.{◌≡◌, ◌≤◌};
    ghost use Rattle.stream_catalog.specs.Files.{words_id};
    ghost use Rattle.stream_catalog.specs.InHand.{Catalogued};

    ghost Value = { Catalogued };

    ghost view = { λ c. record { names = c.listed; limit = c.limit; words = c.words; len = c.len; sure = c.sure; came = c.came; went = c.went } };

    ghost invariant = { λ c. (c.limit ≤ 16) × (c.words.id ≡ words_id) };
}

/// What reading the files again finds.
#[derive(Drop)]
struct Again {
    read: ReadFiles,
    came: Row<u32>,
    went: Row<u32>,
}

// Reads the files, and tells the streams that came and went since these names.
fn find_again<D: Disk>(alloc: Global, disk: &mut D, old: &Listed) -> Result<Again, CatalogFault>
    ensures images { D.tells → KeepsCatalog (D.state disk.old) (D.state disk.new) }
    ensures known { D.tells → IfOk result (λ a. KnownFiles a.read.listed a.read.words a.read.len (D.state disk.new)) }
    ensures id { IfOk result (λ a. a.read.words.id ≡ words_id) }
    ensures names { D.tells → IfOk result (λ a. catalog_of (seen_files (D.state disk.old)) ≡ Ok a.read.listed) }
    ensures came { IfOk result (λ a. a.came ≡ streams_without old.now a.read.listed) }
    ensures went { IfOk result (λ a. a.went ≡ streams_without a.read.listed old.now) }
    ensures damaged { D.tells → (place : ℕ) → IsErrOf result (CatalogFault.Damaged place) → DamagesCatalog place (seen_files (D.state disk.old)) }
    ensures others { OtherFiles (D.state disk.old) (D.state disk.new) }
    ensures fault { IfErr result IsOpenFault }
    ensures cause { HasCause (IsErrOf result CatalogFault.Disk) (D.state disk.old) (D.state disk.new) }
{
    let read = read_files(alloc, disk)?;
    let came = streams_without(alloc, old, &read.listed)?;
    let went = streams_without(alloc, &read.listed, old)?;
    Ok(Again { read, came, went })
}

impl Catalog {
    /// Reads the catalog from its files on a disk; it needs memory for the whole file of changes and for the
    /// names. With no files there are no names.
    ///
    /// Its calls of the disk are, for the file of changes, `size`, then `sync` and `read` where it is there,
    /// else `remove`; and then those of `Gated::open` for the pairs.
    ///
    /// It fails with `Damaged` exactly where the file of pairs that counts is damaged, or a pair lies outside
    /// the bytes, spells no change, or one that doesn't fit the changes before it; with `Disk` only where the
    /// disk failed, and with `Memory` for want of memory. Then too each image that a crash may leave has the
    /// catalog of one from before.
    pub fn recover<D: Disk>(
        alloc: Global,
        disk: &mut D,
        limits: &Limits,
    ) -> Result<Catalog, CatalogFault>
        requires { IsLimits limits.now }

        // After each answer.
        ensures images { D.tells → KeepsCatalog (D.state disk.old) (D.state disk.new) }
        ensures others { OtherFiles (D.state disk.old) (D.state disk.new) }

        ensures names { D.tells → IfOk result (λ c. catalog_of (seen_files (D.state disk.old)) ≡ Ok c.names) }
        ensures opens { D.tells → IfOk result (λ c. Opens (seen_files (D.state disk.old)).words) }
        ensures known { D.tells → IfOk result (λ c. Known c (D.state disk.new)) }
        ensures backed { D.tells → IfOk result (λ c. Backed c (D.state disk.new)) }
        ensures only { D.tells → IfOk result (λ c. EachCatalog (Shows c.names) (D.state disk.new)) }
        ensures sure { IfOk result (λ c. IsTrue c.sure) }
        ensures limit { IfOk result (λ c. c.limit ≡ limits.now.streams) }

        ensures damaged { D.tells → (place : ℕ) → IsErrOf result (CatalogFault.Damaged place) → DamagesCatalog place (seen_files (D.state disk.old)) }
        ensures fault { IfErr result IsOpenFault }
        ensures cause { HasCause (IsErrOf result CatalogFault.Disk) (D.state disk.old) (D.state disk.new) }
    {
        let ReadFiles { listed, words, len } = read_files(alloc, disk)?;
        Ok(Catalog {
            alloc,
            limit: limits.streams,
            listed,
            words,
            len,
            sure: true,
            came: Row::new(alloc),
            went: Row::new(alloc),
        })
    }

    // Reads the files again where they aren't sure.
    fn read_again<D: Disk>(&mut self, disk: &mut D) -> Result<(), CatalogFault>
        requires { D.tells → Backed self.old (D.state disk.old) }
        ensures again { D.tells → ReadAgain self.old self.new result (D.state disk.old) (D.state disk.new) }
        ensures others { OtherFiles (D.state disk.old) (D.state disk.new) }
        ensures cause { HasCause (IsErrOf result CatalogFault.Disk) (D.state disk.old) (D.state disk.new) }
    {
        self.came = Row::new(self.alloc);
        self.went = Row::new(self.alloc);
        if self.sure {
            return Ok(());
        }
        let Again { read, came, went } = find_again(self.alloc, disk, &self.listed)?;
        let ReadFiles { listed, words, len } = read;
        self.listed = listed;
        self.words = words;
        self.len = len;
        self.sure = true;
        self.came = came;
        self.went = went;
        Ok(())
    }

    // Makes a change that fits, in a catalog that is sure.
    fn make<D: Disk>(&mut self, disk: &mut D, change: Change) -> Result<u32, CatalogFault>
        requires known { D.tells → Known self.old (D.state disk.old) }
        requires fits { fits change self.old.names ≡ true }
        requires spelled { IsChange change }
        ensures made { D.tells → Made change self.old self.new result (D.state disk.new) }
        ensures others { OtherFiles (D.state disk.old) (D.state disk.new) }
        ensures cause { HasCause (IsErrOf result CatalogFault.Disk) (D.state disk.old) (D.state disk.new) }
    {
        apply_change(
            self.alloc,
            disk,
            &mut self.listed,
            &mut self.words,
            &mut self.len,
            &mut self.sure,
            change,
        )
    }

    /// Makes a stream of a name of 1 to 255 bytes, and gives its number. Numbers begin at 1, and none is
    /// given twice.
    ///
    /// Where the catalog is sure its calls of the disk are `write_at` and `sync` of the file of changes, and
    /// the two of each kind of `Gated::put`; else those of `recover` come first, also where the change is
    /// then refused. It fails by the rules in this order: `Refused(Name)`, `Exists`, `Refused(Streams)`; with
    /// `Disk` only where the disk failed, and with `Memory` for want of memory. After each answer each image
    /// that a crash may leave has the catalog from before, or that after the change.
    pub fn create<D: Disk>(&mut self, disk: &mut D, name: &Text) -> Result<u32, CatalogFault>
        requires { D.tells → Backed self.old (D.state disk.old) }
        ensures does { D.tells → Does TellsNumber (creates self.old.limit name.now) self.old self.new result (D.state disk.old) (D.state disk.new) }
        ensures others { OtherFiles (D.state disk.old) (D.state disk.new) }
        ensures cause { HasCause (IsErrOf result CatalogFault.Disk) (D.state disk.old) (D.state disk.new) }
    {
        self.read_again(disk)?;
        let change = ask_create(self.alloc, &self.listed, self.limit, name)?;
        self.make(disk, change)
    }

    /// Takes a stream away that is no partition, and gives the number that it had. It fails by the rules in
    /// this order: `Missing`, also for the name of a super stream, `Refused(InSuper)`; else as `create`.
    pub fn delete<D: Disk>(&mut self, disk: &mut D, name: &Text) -> Result<u32, CatalogFault>
        requires { D.tells → Backed self.old (D.state disk.old) }
        ensures does { D.tells → Does TellsNumber (deletes name.now) self.old self.new result (D.state disk.old) (D.state disk.new) }
        ensures others { OtherFiles (D.state disk.old) (D.state disk.new) }
        ensures cause { HasCause (IsErrOf result CatalogFault.Disk) (D.state disk.old) (D.state disk.new) }
    {
        self.read_again(disk)?;
        let change = ask_delete(self.alloc, &self.listed, name)?;
        self.make(disk, change)
    }

    /// Makes a super stream of partitions with binding keys, in this order, and gives the number of the first
    /// partition; the numbers of the others follow it. It fails by the rules in this order: `Refused(Name)`,
    /// `Refused(Parts)`, `Exists`, `Refused(Streams)`; else as `create`.
    pub fn create_super<D: Disk>(
        &mut self,
        disk: &mut D,
        name: &Text,
        parts: &[Text],
        keys: &[Text],
    ) -> Result<u32, CatalogFault>
        requires { D.tells → Backed self.old (D.state disk.old) }
        ensures does { D.tells → Does TellsNumber (creates_super self.old.limit name.now parts.now keys.now) self.old self.new result (D.state disk.old) (D.state disk.new) }
        ensures others { OtherFiles (D.state disk.old) (D.state disk.new) }
        ensures cause { HasCause (IsErrOf result CatalogFault.Disk) (D.state disk.old) (D.state disk.new) }
    {
        self.read_again(disk)?;
        let change = ask_create_super(self.alloc, &self.listed, self.limit, name, parts, keys)?;
        self.make(disk, change)
    }

    /// Takes a super stream away with its partitions, and gives the numbers that they had, rising. It fails
    /// by the rules with `Missing`; else as `create`.
    pub fn delete_super<D: Disk>(
        &mut self,
        disk: &mut D,
        name: &Text,
    ) -> Result<Row<u32>, CatalogFault>
        requires { D.tells → Backed self.old (D.state disk.old) }
        ensures does { D.tells → Does TellsGone (deletes_super name.now) self.old self.new result (D.state disk.old) (D.state disk.new) }
        ensures others { OtherFiles (D.state disk.old) (D.state disk.new) }
        ensures cause { HasCause (IsErrOf result CatalogFault.Disk) (D.state disk.old) (D.state disk.new) }
    {
        self.read_again(disk)?;
        let numbers = numbers_going(
            self.alloc,
            self.listed.names().holder_at(name),
            self.listed.streams(),
        )?;
        let change = ask_delete_super(self.alloc, &self.listed, name)?;
        self.make(disk, change)?;
        Ok(numbers)
    }

    /// The number of the stream of a name.
    pub fn find(&self, name: &[u8]) -> Option<u32>
        ensures { result ≡ find name.now self.now.names }
    {
        self.listed.find(name)
    }

    /// The names of the partitions of a super stream, in their order. It needs memory for them.
    pub fn parts(&self, alloc: Global, name: &[u8]) -> Result<Option<Row<Text>>, AllocError>
        ensures { IfOk result (λ row. row ≡ parts name.now self.now.names) }
    {
        self.listed.parts(alloc, name)
    }

    /// The names of the partitions of a super stream whose binding key is the routing key, in their order. It
    /// needs memory for them.
    pub fn route(
        &self,
        alloc: Global,
        key: &[u8],
        name: &[u8],
    ) -> Result<Option<Row<Text>>, AllocError>
        ensures { IfOk result (λ row. row ≡ route key.now name.now self.now.names) }
    {
        self.listed.route(alloc, key, name)
    }

    /// The place of a stream in its super stream, counted from 0; 0 for any other number.
    pub fn part_index(&self, stream: u32) -> u32
        ensures { result ≡ part_index stream self.now.names }
    {
        self.listed.part_index(stream)
    }

    /// The numbers of the live streams. They rise.
    pub fn streams(&self) -> &[u32]
        ensures numbers { result.now ≡ streams self.now.names }
        ensures rising { AreNumbered self.now.names }
    {
        self.listed.streams()
    }

    /// The greatest number ever given, or 0.
    pub fn last(&self) -> u32
        ensures { result ≡ self.now.names.last }
    {
        self.listed.last()
    }

    /// The streams that the last change found when it read the files again, rising.
    pub fn came(&self) -> &[u32]
        ensures { result.now ≡ self.now.came }
    {
        self.came.as_slice()
    }

    /// The streams that the last change found deleted when it read the files again, rising.
    pub fn went(&self) -> &[u32]
        ensures { result.now ≡ self.now.went }
    {
        self.went.as_slice()
    }
}
