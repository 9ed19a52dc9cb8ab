//! Recovery of a log, over the files that a stream has.

ghost use Rattle.std.specs.Prelude.{◌≡◌, ℕ, IfOk, IsErrOf, OnOk};
ghost use Rattle.disk_calls.specs.Disk.{HasCause, Looks};
ghost use Rattle.segment_pairs.specs.Log.{Finder};
ghost use Rattle.segment_pairs.specs.Held.{EachLog, KeepsLog, OutsideLog};
ghost use Rattle.segment_store.specs.Recoverable.{LogRecoverable};
ghost use Rattle.segment_store.specs.Recovery.{CanRecover, Covers, NoneReturns, Recovers, Rising, SeenDamaged};

use crate::clear::{clear_numbers, numbers_of};
use crate::fault::StoreFault;
use crate::found::Found;
use crate::recover::read_log;
use crate::segment_log::SegmentLog;
use chunk_format::Stored;
use disk_calls::{Disk, DiskNames};
use std::alloc::Global;

// The numbers above 0 of a stream's segments and indexes, rising.
fn list_files<D: Disk>(alloc: Global, disk: &mut D, stream: u32) -> Result<Vec<u64>, StoreFault>
    ensures looks { Looks (D.state disk.old) (D.state disk.new) }
    ensures rising { IfOk result (λ numbers. Rising 1 numbers.items) }
    ensures covers { D.tells → NoneReturns stream (D.state disk.old) → IfOk result (λ numbers. Covers stream numbers.items (D.state disk.new)) }
    ensures undamaged { (segment at : ℕ) → IsErrOf result (StoreFault.Damaged segment at) → ⊥ }
    ensures unworded { (place : ℕ) → IsErrOf result (StoreFault.DamagedWords place) → ⊥ }
    ensures cause { HasCause (IsErrOf result StoreFault.Disk) (D.state disk.old) (D.state disk.new) }
{
    let names = disk.names(alloc, stream)?;
    match names {
        DiskNames::Failed => Err(StoreFault::Disk),
        DiskNames::Names(names) => Ok(numbers_of(alloc, names.as_slice())?),
    }
}

// Finds a log, and makes it stand.
fn find_log<D: Disk>(alloc: Global, disk: &mut D, stream: u32) -> Result<Found, StoreFault>
    requires { D.tells → NoneReturns stream (D.state disk.old) }
    ensures images { D.tells → KeepsLog stream (D.state disk.old) (D.state disk.new) }
    ensures recovers { D.tells → IfOk result (λ found. Recovers stream found.rows.items found.chunks.items (D.state disk.old) (D.state disk.new)) }
    ensures recoverable { D.tells → LogRecoverable stream (D.state disk.old) → LogRecoverable stream (D.state disk.new) }
    ensures damaged { D.tells → (F : Finder) (segment at : ℕ) → IsErrOf result (StoreFault.Damaged segment at) → SeenDamaged F stream (D.state disk.old) segment at }
    ensures sound { D.tells → (F : Finder) (segment at : ℕ) → OnOk result (SeenDamaged F stream (D.state disk.old) segment at → ⊥) }
    ensures unworded { (place : ℕ) → IsErrOf result (StoreFault.DamagedWords place) → ⊥ }
    ensures others { OutsideLog stream (D.state disk.old) (D.state disk.new) }
    ensures cause { HasCause (IsErrOf result StoreFault.Disk) (D.state disk.old) (D.state disk.new) }
{
    let numbers = list_files(alloc, disk, stream)?;
    let kept = clear_numbers(alloc, disk, stream, &numbers)?;
    read_log(alloc, disk, stream, &kept)
}

/// A log that was recovered, and its chunks.
#[derive(Drop)]
pub(crate) struct RecoveredLog {
    /// Where each chunk stands.
    pub(crate) log: SegmentLog,
    /// The chunks, with their bytes to be shared.
    pub(crate) chunks: Vec<Stored>,
}

/// Recovers the log of a stream: the names of its files, the removal of segments without records, and the walk over the
/// others.
pub(crate) fn recover_log<D: Disk>(
    alloc: Global,
    disk: &mut D,
    stream: u32,
) -> Result<RecoveredLog, StoreFault>
    requires { D.tells → NoneReturns stream (D.state disk.old) }
    ensures images { D.tells → KeepsLog stream (D.state disk.old) (D.state disk.new) }
    ensures recovers { D.tells → IfOk result (λ r. Recovers stream r.log.rows r.chunks.items (D.state disk.old) (D.state disk.new)) }
    ensures exact { D.tells → IfOk result (λ r. EachLog stream (λ log. log ≡ r.chunks.items) (D.state disk.new)) }
    ensures recoverable { D.tells → LogRecoverable stream (D.state disk.old) → LogRecoverable stream (D.state disk.new) }
    ensures stream { IfOk result (λ r. r.log.stream ≡ stream) }
    ensures damaged { D.tells → (F : Finder) (segment at : ℕ) → IsErrOf result (StoreFault.Damaged segment at) → SeenDamaged F stream (D.state disk.old) segment at }
    ensures sound { D.tells → (F : Finder) (segment at : ℕ) → OnOk result (SeenDamaged F stream (D.state disk.old) segment at → ⊥) }
    ensures never { D.tells → CanRecover stream (D.state disk.old) → (F : Finder) (segment at : ℕ) → IsErrOf result (StoreFault.Damaged segment at) → ⊥ }
    ensures unworded { (place : ℕ) → IsErrOf result (StoreFault.DamagedWords place) → ⊥ }
    ensures others { OutsideLog stream (D.state disk.old) (D.state disk.new) }
    ensures cause { HasCause (IsErrOf result StoreFault.Disk) (D.state disk.old) (D.state disk.new) }
{
    let found = find_log(alloc, disk, stream)?;
    Ok(RecoveredLog {
        log: SegmentLog::of_rows(alloc, stream, found.rows),
        chunks: found.chunks,
    })
}
