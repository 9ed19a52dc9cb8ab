//! A store, and what is kept beside it.

ghost use Rattle.std.specs.Prelude.{◌≡◌, ℕ, IfSome, IsErrOf, IsNone, IsTrue, List, None, Some, OnOk, false, true};
ghost use Rattle.disk_calls.specs.Disk.{HasCause};
ghost use Rattle.disk_calls.specs.Frames.{OtherStreams};
ghost use Rattle.chunk_format.specs.declared.chunk.Chunk.{Chunk};
ghost use Rattle.segment_store.specs.declared.fault.StoreFault.TheVariants as faults;
ghost use Rattle.segment_store.specs.Stores.{BackedStore, EndsRise};
ghost use Rattle.member_stores.specs.declared.fault.WorkFault.TheVariants.{Apart, Store};
ghost use Rattle.member_stores.specs.Shelves.{has_done, is_kept_of, is_receipt_of};
ghost use Rattle.member_stores.specs.Works.{IsUndone, JobLeft, JobStands, ShelfGives, Suits, UnlessBroken, asked};

use crate::fault::WorkFault;
use disk_calls::Disk;
use epoch_coordinator::Job;
use segment_store::{MemberStore, Receipt};

/// A store, and the receipt of a job that it did, where one is kept.
#[derive(Drop)]
pub struct Shelf {
    /// The store.
    pub store: MemberStore,
    /// The receipt.
    pub kept: Option<Receipt>,
}

/// Whether a receipt is of a job.
fn is_receipt_of(receipt: &Receipt, stream: u32, member: u8, number: u64) -> bool
    ensures { result ≡ is_receipt_of stream member number receipt.now }
{
    if receipt.stream() != stream {
        return false;
    }
    if receipt.member() != member {
        return false;
    }
    receipt.number() == number
}

/// Whether there is a receipt, and it is of a job.
fn is_kept_of(kept: &Option<Receipt>, stream: u32, member: u8, number: u64) -> bool
    ensures { result ≡ is_kept_of stream member number kept.now }
{
    match kept {
        None => false,
        Some(receipt) => is_receipt_of(receipt, stream, member, number),
    }
}

/// Hands out the receipt of a job, if that is kept.
fn hand_out(kept: &mut Option<Receipt>, stream: u32, member: u8, number: u64) -> Option<Receipt>
    ensures was { IfSome result (λ r. kept.old ≡ Some r) }
    ensures of { IfSome result (λ r. is_receipt_of stream member number r ≡ true) }
    ensures none { IsNone result → is_kept_of stream member number kept.old ≡ false }
    ensures left { IfSome result (λ r. kept.new ≡ None) }
    ensures same { IsNone result → kept.new ≡ kept.old }
{
    if !is_kept_of(kept, stream, member, number) {
        return None;
    }
    kept.take()
}

impl Shelf {
    /// Whether the store is of a member of a stream, and a job continues its log.
    fn suits(&self, stream: u32, member: u8, job: &Job) -> bool
        ensures found { IsTrue result → (number : ℕ) → Suits (asked stream member number job.now) self.now.store }
        ensures all { EndsRise self.now.store.log.rows → (number : ℕ) → Suits (asked stream member number job.now) self.now.store → IsTrue result }
    {
        if self.store.stream() != stream {
            return false;
        }
        if self.store.member() != member {
            return false;
        }
        self.store.continues(job)
    }

    /// The store does a job of which no receipt is kept, if it is for it.
    fn work<D: Disk>(
        &mut self,
        disk: &mut D,
        stream: u32,
        member: u8,
        number: u64,
        job: &Job,
    ) -> Result<Receipt, WorkFault>
        requires backed { D.tells → (chunks : List Chunk) × BackedStore self.old.store chunks (D.state disk.old) }
        requires undone { IsUndone (asked stream member number job.now) self.old }
        ensures gives { ShelfGives (asked stream member number job.now) result self.old self.new }
        ensures apart { IsErrOf result Apart → disk.new ≡ disk.old }
        ensures exact { D.tells → IsErrOf result Apart → Suits (asked stream member number job.now) self.old.store → ⊥ }
        ensures left { D.tells → (chunks : List Chunk) → BackedStore self.old.store chunks (D.state disk.old) → Suits (asked stream member number job.now) self.old.store → JobLeft job.now self.old.store chunks (D.state disk.new) }
        ensures stands { D.tells → (chunks : List Chunk) → BackedStore self.old.store chunks (D.state disk.old) → OnOk result (JobStands job.now self.old.store self.new.store chunks (D.state disk.new)) }
        ensures memory { D.tells → IsErrOf result (Store faults.Memory) → (self.new ≡ self.old) × (disk.new ≡ disk.old) }
        ensures undamaged { (segment at : ℕ) → IsErrOf result (Store (faults.Damaged segment at)) → ⊥ }
        ensures unworded { D.tells → (place : ℕ) → IsErrOf result (Store (faults.DamagedWords place)) → ⊥ }
        ensures others { OtherStreams stream (D.state disk.old) (D.state disk.new) }
        ensures cause { HasCause (IsErrOf result (Store faults.Disk)) (D.state disk.old) (D.state disk.new) }
    {
        if !self.suits(stream, member, job) {
            return Err(WorkFault::Apart);
        }
        match self.store.perform(disk, number, job) {
            Ok(receipt) => Ok(receipt),
            Err(fault) => Err(WorkFault::Store(fault)),
        }
    }

    /// Gives the receipt of a job: that which is kept of it, or else that of the store, which does it.
    pub(crate) fn perform<D: Disk>(
        &mut self,
        disk: &mut D,
        stream: u32,
        member: u8,
        number: u64,
        job: &Job,
    ) -> Result<Receipt, WorkFault>
        requires backed { D.tells → (chunks : List Chunk) × BackedStore self.old.store chunks (D.state disk.old) }
        ensures gives { ShelfGives (asked stream member number job.now) result self.old self.new }
        ensures rests { has_done stream member number self.old ≡ true → disk.new ≡ disk.old }
        ensures apart { IsErrOf result Apart → disk.new ≡ disk.old }
        ensures exact { D.tells → IsErrOf result Apart → Suits (asked stream member number job.now) self.old.store → ⊥ }
        ensures left { D.tells → (chunks : List Chunk) → BackedStore self.old.store chunks (D.state disk.old) → IsUndone (asked stream member number job.now) self.old → Suits (asked stream member number job.now) self.old.store → JobLeft job.now self.old.store chunks (D.state disk.new) }
        ensures stands { D.tells → (chunks : List Chunk) → BackedStore self.old.store chunks (D.state disk.old) → IsUndone (asked stream member number job.now) self.old → OnOk result (JobStands job.now self.old.store self.new.store chunks (D.state disk.new)) }
        ensures backed { D.tells → UnlessBroken result ((chunks : List Chunk) × BackedStore self.new.store chunks (D.state disk.new)) }
        ensures memory { D.tells → IsErrOf result (Store faults.Memory) → (self.new ≡ self.old) × (disk.new ≡ disk.old) }
        ensures undamaged { (segment at : ℕ) → IsErrOf result (Store (faults.Damaged segment at)) → ⊥ }
        ensures unworded { D.tells → (place : ℕ) → IsErrOf result (Store (faults.DamagedWords place)) → ⊥ }
        ensures others { OtherStreams stream (D.state disk.old) (D.state disk.new) }
        ensures cause { HasCause (IsErrOf result (Store faults.Disk)) (D.state disk.old) (D.state disk.new) }
    {
        match hand_out(&mut self.kept, stream, member, number) {
            Some(receipt) => Ok(receipt),
            None => self.work(disk, stream, member, number, job),
        }
    }
}
