//! The calls of the stores over a disk in memory. There a file that is missing has no other image, so recovery asks for
//! nothing.

ghost use Rattle.std.specs.Prelude.{◌≡◌, ◌≤◌, IfOk, IsTrue, OnOk};
ghost use Rattle.gated_words.specs.Backing.{Backs};
ghost use Rattle.gated_words.specs.InHand.{InHand};
ghost use Rattle.member_disk.specs.MemoryDisks.{state_of};
ghost use Rattle.segment_store.specs.Stores.{StoreInHand};
ghost use Rattle.segment_store_tests.specs.Backed.{IsBacked};

use crate::chunks::message;
use epoch_coordinator::Job;
use member_disk::MemoryDisk;
use segment_store::{EpochStore, MemberStore, Receipt, Recovery, StoreFault, stores_stay_backed};
use std::alloc::{AllocError, Global};

/// Recovers member 1 of stream 1.
pub fn recover(alloc: Global, disk: &mut MemoryDisk) -> Result<Recovery, StoreFault>
    ensures { IfOk result (λ r. IsBacked r.store (state_of disk.new.streams disk.new.faults)) }
{
    MemberStore::recover(alloc, disk, 1, 1)
}

/// Does a job. One that does not continue the log is answered as if memory ran out.
pub fn perform(
    disk: &mut MemoryDisk,
    store: &mut MemberStore,
    number: u64,
    job: &Job,
) -> Result<Receipt, StoreFault>
    requires { IsBacked store.old (state_of disk.old.streams disk.old.faults) }
    ensures { OnOk result (IsBacked store.new (state_of disk.new.streams disk.new.faults)) }
{
    if !store.continues(job) {
        return Err(StoreFault::Memory);
    }
    store.perform(disk, number, job)
}

/// Writes a message of so many bytes behind the log; whether it was done.
pub fn write(
    alloc: Global,
    disk: &mut MemoryDisk,
    store: &mut MemberStore,
    first: u64,
    len: usize,
) -> bool
    requires { IsBacked store.old (state_of disk.old.streams disk.old.faults) }
    ensures { IsTrue result → IsBacked store.new (state_of disk.new.streams disk.new.faults) }
{
    match message(alloc, first, len) {
        Ok(chunk) => perform(disk, store, first, &Job::Write(chunk)).is_ok(),
        Err(_) => false,
    }
}

/// Opens the epochs.
pub fn recover_epochs(alloc: Global, disk: &mut MemoryDisk) -> Result<EpochStore, StoreFault>
    ensures { IfOk result (λ s. Backs s (state_of disk.new.streams disk.new.faults)) }
{
    EpochStore::recover(alloc, disk)
}

/// Gives a stream an epoch.
pub fn give_epoch(
    disk: &mut MemoryDisk,
    epochs: &mut EpochStore,
    stream: u32,
    epoch: u64,
) -> Result<Receipt, StoreFault>
    requires { Backs epochs.old (state_of disk.old.streams disk.old.faults) }
    ensures { Backs epochs.new (state_of disk.new.streams disk.new.faults) }
{
    epochs.perform(disk, stream, 1, epoch)
}

/// Lets the nth next call on a stream's files fail.
pub fn fail_call(disk: &mut MemoryDisk, stream: u32, n: u64) -> Result<(), AllocError>
    requires { 1 ≤ n }
    ensures store { (store : StoreInHand) → IsBacked store (state_of disk.old.streams disk.old.faults) → IsBacked store (state_of disk.new.streams disk.new.faults) }
    ensures pairs { (pairs : InHand) → Backs pairs (state_of disk.old.streams disk.old.faults) → Backs pairs (state_of disk.new.streams disk.new.faults) }
{
    stores_stay_backed::<MemoryDisk>();
    disk.fail_after(stream, n)
}
