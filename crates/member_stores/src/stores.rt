//! The stores of members.

ghost use Rattle.std.specs.Prelude.{◌≡◌, ◌+◌, ◌<◌, ◌≤◌, ℕ, IfErr, IfSome, IsErrOf, IsSome, List, None, Some, OnErr, OnOk, length, true};
ghost use Rattle.std.specs.Vec.{vec_capacity};
ghost use Rattle.disk_calls.specs.Disk.{HasCause};
ghost use Rattle.disk_calls.specs.Frames.{OtherStreams};
ghost use Rattle.chunk_format.specs.declared.chunk.Chunk.{Chunk};
ghost use Rattle.segment_store.specs.declared.fault.StoreFault.TheVariants as faults;
ghost use Rattle.segment_store.specs.Stores.{BackedStore};
ghost use Rattle.member_stores.specs.declared.fault.WorkFault.TheVariants.{Apart, NoStore, Store};
ghost use Rattle.member_stores.specs.declared.shelf.Shelf.{Shelf};
ghost use Rattle.member_stores.specs.Shelves.{BackedShelf, OthersStay, fresh, has_done, keeping, shelf_of, store_on};
ghost use Rattle.member_stores.specs.Works.{IsToDo, JobLeft, JobStands, Suits, UnlessBroken, WorkGives, asked};

use crate::fault::WorkFault;
use crate::shelf::Shelf;
use disk_calls::Disk;
use epoch_coordinator::Job;
use segment_store::{MemberStore, Receipt};
use std::alloc::{AllocError, Global};
use std::marker::Model;

/// The stores of the members of a stream that are up, and beside each the receipt of a job that it did and that the stream
/// had no memory to take, where one is kept. A contract sees what is there of each member, at the place of its number.
#[derive(Drop)]
pub struct Stores {
    shelves: Vec<Option<Shelf>>,
}

impl Model for Stores {
    ghost use Rattle.std.specs.Prelude.{List, Option};
    ghost use Rattle.member_stores.specs.declared.shelf.Shelf.{Shelf};

    ghost Value = { List (Option Shelf) };

    ghost view = { λ s. s.shelves.items };
}

/// Fills places behind others with nothing, so that there is one of this number. There is room for them.
fn fill(shelves: &mut Vec<Option<Shelf>>, place: usize)
    requires { place + 1 ≤ vec_capacity shelves.old }
    ensures same { (member : ℕ) → shelf_of member shelves.new.items ≡ shelf_of member shelves.old.items }
    ensures there { place < length shelves.new.items }
{
    'room: while shelves.len() <= place {
        shelves.push_reserved(None);
    }
}

/// Makes places behind others, so that there is one of this number. Where memory runs out nothing changes.
fn make_room(shelves: &mut Vec<Option<Shelf>>, place: u8) -> Result<(), AllocError>
    ensures same { (member : ℕ) → shelf_of member shelves.new.items ≡ shelf_of member shelves.old.items }
    ensures there { OnOk result (place < length shelves.new.items) }
    ensures err { OnErr result (shelves.new.items ≡ shelves.old.items) }
{
    let place = place as usize;
    let len = shelves.len();
    if place < len {
        return Ok(());
    }
    shelves.reserve(place - len + 1)?;
    fill(shelves, place);
    Ok(())
}

/// Keeps a receipt beside a store, if one is there, or hands it back.
fn keep_on(shelf: &mut Option<Shelf>, receipt: Receipt) -> Result<(), Receipt>
    ensures kept { OnOk result (IfSome shelf.old (λ on. shelf.new ≡ Some (keeping receipt on))) }
    ensures there { OnOk result (IsSome shelf.old) }
    ensures none { OnErr result (shelf.old ≡ None) }
    ensures same { OnErr result (shelf.new ≡ shelf.old) }
    ensures back { IfErr result (λ back. back ≡ receipt) }
{
    match shelf {
        None => Err(receipt),
        Some(on) => {
            on.kept = Some(receipt);
            Ok(())
        }
    }
}

/// Takes the store, if one is there.
fn take_from(shelf: &mut Option<Shelf>) -> Option<MemberStore>
    ensures store { result ≡ store_on shelf.old }
    ensures gone { shelf.new ≡ None }
{
    match shelf.take() {
        None => None,
        Some(on) => Some(on.store),
    }
}

/// Gives the receipt of a job by the store, if one is there.
fn perform_on<D: Disk>(
    shelf: &mut Option<Shelf>,
    disk: &mut D,
    stream: u32,
    member: u8,
    number: u64,
    job: &Job,
) -> Result<Receipt, WorkFault>
    requires backed { D.tells → BackedShelf shelf.old (D.state disk.old) }
    ensures gives { WorkGives (asked stream member number job.now) result shelf.old shelf.new }
    ensures rests { IfSome shelf.old (λ on. has_done stream member number on ≡ true → disk.new ≡ disk.old) }
    ensures none { IsErrOf result NoStore → disk.new ≡ disk.old }
    ensures apart { IsErrOf result Apart → disk.new ≡ disk.old }
    ensures exact { D.tells → IsErrOf result Apart → IfSome shelf.old (λ on. Suits (asked stream member number job.now) on.store → ⊥) }
    ensures left { D.tells → (on : Shelf) (chunks : List Chunk) → IsToDo (asked stream member number job.now) shelf.old on → Suits (asked stream member number job.now) on.store → BackedStore on.store chunks (D.state disk.old) → JobLeft job.now on.store chunks (D.state disk.new) }
    ensures stands { D.tells → (on : Shelf) (chunks : List Chunk) → IsToDo (asked stream member number job.now) shelf.old on → BackedStore on.store chunks (D.state disk.old) → OnOk result (IfSome shelf.new (λ new. JobStands job.now on.store new.store chunks (D.state disk.new))) }
    ensures backed { D.tells → UnlessBroken result (BackedShelf shelf.new (D.state disk.new)) }
    ensures memory { D.tells → IsErrOf result (Store faults.Memory) → (shelf.new ≡ shelf.old) × (disk.new ≡ disk.old) }
    ensures undamaged { (segment at : ℕ) → IsErrOf result (Store (faults.Damaged segment at)) → ⊥ }
    ensures unworded { D.tells → (place : ℕ) → IsErrOf result (Store (faults.DamagedWords place)) → ⊥ }
    ensures others { OtherStreams stream (D.state disk.old) (D.state disk.new) }
    ensures cause { HasCause (IsErrOf result (Store faults.Disk)) (D.state disk.old) (D.state disk.new) }
{
    match shelf {
        None => Err(WorkFault::NoStore),
        Some(on) => on.perform(disk, stream, member, number, job),
    }
}

impl Stores {
    /// No stores.
    pub fn new(alloc: Global) -> Stores
        ensures { (member : ℕ) → shelf_of member result ≡ None }
    {
        let shelves = Vec::new(alloc);
        Stores { shelves }
    }

    /// Puts the store of a member, which takes the place of one that is there and of what was kept beside it. It hands the
    /// store back where memory runs out, and then nothing changes.
    #[tactic(auto, using(crate::proofs::Placing::put_own, crate::proofs::Placing::put_others))]
    pub fn put(&mut self, member: u8, store: MemberStore) -> Result<(), MemberStore>
        ensures own { OnOk result (shelf_of member self.new ≡ Some (fresh store)) }
        ensures others { OthersStay member self.old self.new }
        ensures back { IfErr result (λ back. back ≡ store) }
        ensures same { OnErr result (self.new ≡ self.old) }
    {
        if make_room(&mut self.shelves, member).is_err() {
            return Err(store);
        }
        self.shelves[member as usize] = Some(Shelf { store, kept: None });
        Ok(())
    }

    /// Takes the store of a member out, if one is there. What was kept beside it goes.
    #[tactic(auto, using(crate::proofs::Placing::own, crate::proofs::Placing::others, crate::proofs::Placing::behind))]
    pub fn take(&mut self, member: u8) -> Option<MemberStore>
        ensures store { result ≡ store_on (shelf_of member self.old) }
        ensures own { shelf_of member self.new ≡ None }
        ensures others { OthersStay member self.old self.new }
    {
        let place = member as usize;
        if place >= self.shelves.len() {
            return None;
        }
        take_from(&mut self.shelves[place])
    }

    /// Keeps the receipt of a job of a member that the stream had no memory to take, beside its store and in place of one
    /// that is kept there. It hands the receipt back where no store is there, and then nothing changes.
    #[tactic(auto, using(crate::proofs::Placing::own, crate::proofs::Placing::others, crate::proofs::Placing::behind))]
    pub fn keep(&mut self, member: u8, receipt: Receipt) -> Result<(), Receipt>
        ensures own { OnOk result (IfSome (shelf_of member self.old) (λ on. shelf_of member self.new ≡ Some (keeping receipt on))) }
        ensures there { OnOk result (IsSome (shelf_of member self.old)) }
        ensures none { OnErr result (shelf_of member self.old ≡ None) }
        ensures others { OthersStay member self.old self.new }
        ensures back { IfErr result (λ back. back ≡ receipt) }
        ensures same { OnErr result (self.new ≡ self.old) }
    {
        let place = member as usize;
        if place >= self.shelves.len() {
            return Err(receipt);
        }
        keep_on(&mut self.shelves[place], receipt)
    }

    /// Performs a pending job of a member of a stream, of this number, on the member's disk by its store, and gives the
    /// receipt. Where the receipt of that very job is kept, it is handed out and the disk is not called.
    ///
    /// It is `NoStore` exactly where no store of the member is there. It is `Apart` where the store is of another stream or
    /// member, or the job does not continue its log, over a disk that tells what it holds exactly there. After both
    /// nothing has changed. `Store` has the fault of the store: after `Memory` nothing has changed, `Disk` comes only where
    /// the disk failed, the store is then to be taken out and recovered again, and others do not come.
    #[tactic(auto, using(crate::proofs::Placing::own, crate::proofs::Placing::others, crate::proofs::Placing::behind))]
    pub fn perform<D: Disk>(
        &mut self,
        disk: &mut D,
        stream: u32,
        member: u8,
        number: u64,
        job: &Job,
    ) -> Result<Receipt, WorkFault>
        requires { D.tells → BackedShelf (shelf_of member self.old) (D.state disk.old) }
        ensures gives { WorkGives (asked stream member number job.now) result (shelf_of member self.old) (shelf_of member self.new) }
        ensures others { OthersStay member self.old self.new }
        ensures rests { IfSome (shelf_of member self.old) (λ on. has_done stream member number on ≡ true → disk.new ≡ disk.old) }
        ensures none { IsErrOf result NoStore → disk.new ≡ disk.old }
        ensures apart { IsErrOf result Apart → disk.new ≡ disk.old }
        ensures exact { D.tells → IsErrOf result Apart → IfSome (shelf_of member self.old) (λ on. Suits (asked stream member number job.now) on.store → ⊥) }
        ensures left { D.tells → (on : Shelf) (chunks : List Chunk) → IsToDo (asked stream member number job.now) (shelf_of member self.old) on → Suits (asked stream member number job.now) on.store → BackedStore on.store chunks (D.state disk.old) → JobLeft job.now on.store chunks (D.state disk.new) }
        ensures stands { D.tells → (on : Shelf) (chunks : List Chunk) → IsToDo (asked stream member number job.now) (shelf_of member self.old) on → BackedStore on.store chunks (D.state disk.old) → OnOk result (IfSome (shelf_of member self.new) (λ new. JobStands job.now on.store new.store chunks (D.state disk.new))) }
        ensures backed { D.tells → UnlessBroken result (BackedShelf (shelf_of member self.new) (D.state disk.new)) }
        ensures memory { D.tells → IsErrOf result (Store faults.Memory) → (shelf_of member self.new ≡ shelf_of member self.old) × (disk.new ≡ disk.old) }
        ensures undamaged { (segment at : ℕ) → IsErrOf result (Store (faults.Damaged segment at)) → ⊥ }
        ensures unworded { D.tells → (place : ℕ) → IsErrOf result (Store (faults.DamagedWords place)) → ⊥ }
        ensures streams { OtherStreams stream (D.state disk.old) (D.state disk.new) }
        ensures cause { HasCause (IsErrOf result (Store faults.Disk)) (D.state disk.old) (D.state disk.new) }
    {
        let place = member as usize;
        if place >= self.shelves.len() {
            return Err(WorkFault::NoStore);
        }
        perform_on(&mut self.shelves[place], disk, stream, member, number, job)
    }
}
