//! The numbers of the segments of a log, and the removal of those without records.

ghost use Rattle.std.specs.Prelude.{◌≡◌, ◌<◌, ◌↔◌, IsTrue, IfOk, IfSome, IsErrOf, OnOk, None, ℕ};
ghost use Rattle.disk_calls.specs.Disk.{HasCause, Looks};
ghost use Rattle.segment_pairs.specs.Held.{BesidesPair, GoneOrBefore, KeepsLog, Missing, OutsideLog};
ghost use Rattle.segment_pairs.specs.Left.{EachLeft};
ghost use Rattle.segment_store.specs.Recoverable.{LogRecoverable};
ghost use Rattle.segment_store.specs.Recovery.{AddsNumber, AreNumbers, Clears, Covers, HasNumbers, HasRecords, Rising, Sifts, number_of};

use crate::fault::StoreFault;
use disk_calls::{Disk, DiskDid, DiskSize, FileId, FileName};
use segment_pairs::remove_pair;
use std::alloc::{AllocError, Global};

// The bytes of a header.
const HEADER: u64 = 8;

// The number of a segment or an index.
fn number_of(file: FileName) -> Option<u64>
    ensures { result ≡ number_of file }
{
    match file {
        FileName::Segment(number) | FileName::Index(number) => Some(number),
        _ => None,
    }
}

// Adds the number of a segment or an index, if it is above 0.
fn add_number(numbers: &mut Vec<u64>, id: &FileId) -> Result<(), AllocError>
    ensures { OnOk result (AddsNumber id.now.file numbers.old.items numbers.new.items) }
{
    let Some(number) = number_of(id.file) else {
        return Ok(());
    };
    if number == 0 {
        return Ok(());
    }
    numbers.push(number)?;
    Ok(())
}

// The numbers above 0 of segments and indexes, in any order.
fn list_numbers(alloc: Global, names: &[FileId]) -> Result<Vec<u64>, AllocError>
    ensures { IfOk result (λ numbers. HasNumbers names.now numbers.items) }
{
    let mut numbers = Vec::new(alloc);
    for id in names {
        add_number(&mut numbers, id)?;
    }
    Ok(numbers)
}

/// The numbers above 0 of segments and indexes, each once, rising.
pub(crate) fn numbers_of(alloc: Global, names: &[FileId]) -> Result<Vec<u64>, AllocError>
    ensures { IfOk result (λ numbers. AreNumbers names.now numbers.items) }
{
    let mut numbers = list_numbers(alloc, names)?;
    numbers.sort_unstable();
    numbers.dedup();
    Ok(numbers)
}

// Whether the index of a number has more than a header.
fn has_records<D: Disk>(disk: &mut D, stream: u32, number: u64) -> Option<bool>
    ensures looks { Looks (D.state disk.old) (D.state disk.new) }
    ensures told { D.tells → IfSome result (λ b. IsTrue b ↔ HasRecords stream (D.state disk.old) number) }
    ensures cause { HasCause (result ≡ None) (D.state disk.old) (D.state disk.new) }
{
    match disk.size(FileId {
        stream,
        file: FileName::Index(number),
    }) {
        DiskSize::Size(size) => Some(size > HEADER),
        DiskSize::Missing => Some(false),
        DiskSize::Failed => None,
    }
}

// Removes a segment, its index first.
fn remove_number<D: Disk>(disk: &mut D, stream: u32, number: u64) -> Result<(), StoreFault>
    ensures images { GoneOrBefore stream number (D.state disk.old) (D.state disk.new) }
    ensures left { D.tells → EachLeft stream number (D.state disk.old) → EachLeft stream number (D.state disk.new) }
    ensures done { D.tells → OnOk result (Missing stream number (D.state disk.new)) }
    ensures others { BesidesPair stream number (D.state disk.old) (D.state disk.new) }
    ensures undamaged { (segment at : ℕ) → IsErrOf result (StoreFault.Damaged segment at) → ⊥ }
    ensures unworded { (place : ℕ) → IsErrOf result (StoreFault.DamagedWords place) → ⊥ }
    ensures cause { HasCause (IsErrOf result StoreFault.Disk) (D.state disk.old) (D.state disk.new) }
{
    match remove_pair(disk, stream, number) {
        DiskDid::Done => Ok(()),
        DiskDid::Failed => Err(StoreFault::Disk),
    }
}

// Removes a segment whose index is missing or has at most a header, or else keeps its number.
fn sift_number<D: Disk>(
    disk: &mut D,
    stream: u32,
    number: u64,
    kept: &mut Vec<u64>,
) -> Result<(), StoreFault>
    ensures images { D.tells → KeepsLog stream (D.state disk.old) (D.state disk.new) }
    ensures sifts { D.tells → OnOk result (Sifts stream number kept.old.items kept.new.items (D.state disk.old) (D.state disk.new)) }
    ensures recoverable { D.tells → 0 < number → LogRecoverable stream (D.state disk.old) → LogRecoverable stream (D.state disk.new) }
    ensures others { BesidesPair stream number (D.state disk.old) (D.state disk.new) }
    ensures undamaged { (segment at : ℕ) → IsErrOf result (StoreFault.Damaged segment at) → ⊥ }
    ensures unworded { (place : ℕ) → IsErrOf result (StoreFault.DamagedWords place) → ⊥ }
    ensures cause { HasCause (IsErrOf result StoreFault.Disk) (D.state disk.old) (D.state disk.new) }
{
    match has_records(disk, stream, number) {
        None => Err(StoreFault::Disk),
        Some(false) => remove_number(disk, stream, number),
        Some(true) => {
            kept.push(number)?;
            Ok(())
        }
    }
}

/// Removes each of these numbers whose index is missing or has at most a header, the index first: a segment that could
/// not be removed, or that had no record yet. The others are given. It needs memory for them.
pub(crate) fn clear_numbers<D: Disk>(
    alloc: Global,
    disk: &mut D,
    stream: u32,
    numbers: &[u64],
) -> Result<Vec<u64>, StoreFault>
    requires rising { Rising 1 numbers.now }
    requires covers { D.tells → Covers stream numbers.now (D.state disk.old) }
    ensures images { D.tells → KeepsLog stream (D.state disk.old) (D.state disk.new) }
    ensures clears { D.tells → IfOk result (λ kept. Clears stream (D.state disk.old) (D.state disk.new) kept.items) }
    ensures recoverable { D.tells → LogRecoverable stream (D.state disk.old) → LogRecoverable stream (D.state disk.new) }
    ensures others { OutsideLog stream (D.state disk.old) (D.state disk.new) }
    ensures undamaged { (segment at : ℕ) → IsErrOf result (StoreFault.Damaged segment at) → ⊥ }
    ensures unworded { (place : ℕ) → IsErrOf result (StoreFault.DamagedWords place) → ⊥ }
    ensures cause { HasCause (IsErrOf result StoreFault.Disk) (D.state disk.old) (D.state disk.new) }
{
    let mut kept = Vec::new(alloc);
    for number in numbers {
        sift_number(disk, stream, *number, &mut kept)?;
    }
    Ok(kept)
}
