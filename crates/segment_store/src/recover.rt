//! Recovery of a log.

ghost use Rattle.std.specs.Prelude.{◌≡◌, ◌+◌, ◌<◌, List, ℕ, [], length, IfOk, IsErrOf, IsTrue, OnOk, ◌↔◌};
ghost use Rattle.disk_calls.specs.Disk.{HasCause};
ghost use Rattle.chunk_format.specs.declared.chunk.Chunk.{Chunk};
ghost use Rattle.segment_pairs.specs.Log.{Finder};
ghost use Rattle.segment_pairs.specs.Held.{BesidesPair, EachPair, FoundTorn, KeepsLog, OutsideLog, Stands, files_of};
ghost use Rattle.segment_pairs.specs.Found.{ShowsAt};
ghost use Rattle.segment_pairs.specs.Left.{EachLeft};
ghost use Rattle.segment_store.specs.Recoverable.{LogRecoverable};
ghost use Rattle.segment_store.specs.Recovery.{Ends, Exceeds, IsEnough, IsSpoiltHead, Listed, LogOrBefore, ReachedLast, Recovers, Restarts, SeenDamaged};

use crate::fault::StoreFault;
use crate::found::{Found, read_older};
use disk_calls::{Disk, DiskDid};
use segment_pairs::{Headless, Seen, Walk, begin_pair, look_at, remove_pair, trim_pair};
use std::alloc::Global;

// The bytes of one record of an index, which a crash may leave behind the others.
const RECORD: u64 = 29;

// Removes the segment of a number, which has no chunks; 0 is made anew.
fn restart<D: Disk>(disk: &mut D, stream: u32, number: u64) -> DiskDid
    ensures images { D.tells → LogOrBefore stream number [] (D.state disk.old) (D.state disk.new) }
    ensures done { D.tells → result ≡ DiskDid.Done → Restarts stream number (D.state disk.new) }
    ensures left { D.tells → EachLeft stream number (D.state disk.old) → EachLeft stream number (D.state disk.new) }
    ensures others { BesidesPair stream number (D.state disk.old) (D.state disk.new) }
    ensures cause { HasCause (result ≡ DiskDid.Failed) (D.state disk.old) (D.state disk.new) }
{
    if let DiskDid::Failed = remove_pair(disk, stream, number) {
        return DiskDid::Failed;
    }
    if number > 0 {
        return DiskDid::Done;
    }
    begin_pair(disk, stream)
}

// Cuts away what stands behind the chunks of a segment, if anything does.
fn settle<D: Disk>(
    disk: &mut D,
    stream: u32,
    number: u64,
    place: u64,
    index_place: u64,
    size: u64,
    index_size: u64,
) -> DiskDid
    requires { D.tells → (cs : List Chunk) × (t : FoundTorn stream number cs place index_place (D.state disk.old)) × (size ≡ place + length t.rest) × (index_size ≡ index_place + length t.index_rest) }
    ensures images { D.tells → (cs : List Chunk) → FoundTorn stream number cs place index_place (D.state disk.old) → EachPair stream number (λ l. l ≡ cs) (D.state disk.new) }
    ensures left { D.tells → (cs : List Chunk) → FoundTorn stream number cs place index_place (D.state disk.old) → EachLeft stream number (D.state disk.new) }
    ensures done { D.tells → result ≡ DiskDid.Done → (cs : List Chunk) (t : FoundTorn stream number cs place index_place (D.state disk.old)) → size ≡ place + length t.rest → index_size ≡ index_place + length t.index_rest → Stands stream (record { number = number; chunks = cs }) (D.state disk.new) }
    ensures others { BesidesPair stream number (D.state disk.old) (D.state disk.new) }
    ensures cause { HasCause (result ≡ DiskDid.Failed) (D.state disk.old) (D.state disk.new) }
{
    if size == place && index_size == index_place {
        return DiskDid::Done;
    }
    trim_pair(disk, stream, number, place, index_place)
}

// Whether a crash leaves no such files of the last number, of which one has not its whole header.
fn is_spoilt(number: u64, seen: &Headless) -> bool
    ensures { IsTrue result ↔ IsSpoiltHead number seen.now }
{
    if seen.index_size > 37 {
        return true;
    }
    if number > 0 {
        return false;
    }
    if seen.size > 8 && !seen.segment_whole {
        return true;
    }
    seen.index_size > 8 && !seen.index_whole
}

// Ends recovery at a last number of which a file has not its whole header, and which so has no chunks.
fn end_headless<D: Disk>(
    disk: &mut D,
    stream: u32,
    number: u64,
    seen: &Headless,
) -> Result<(), StoreFault>
    requires { D.tells → ShowsAt stream number (D.state disk.old) (Seen.Headless seen.now) }
    ensures images { D.tells → LogOrBefore stream number [] (D.state disk.old) (D.state disk.new) }
    ensures restarts { D.tells → OnOk result (Restarts stream number (D.state disk.new)) }
    ensures left { D.tells → EachLeft stream number (D.state disk.old) → EachLeft stream number (D.state disk.new) }
    ensures damaged { D.tells → (segment at : ℕ) → IsErrOf result (StoreFault.Damaged segment at) → (segment ≡ number) × Exceeds number (files_of stream (D.state disk.old).seen number) at }
    ensures sound { D.tells → OnOk result (IsEnough number (files_of stream (D.state disk.old).seen number)) }
    ensures unworded { (place : ℕ) → IsErrOf result (StoreFault.DamagedWords place) → ⊥ }
    ensures others { BesidesPair stream number (D.state disk.old) (D.state disk.new) }
    ensures cause { HasCause (IsErrOf result StoreFault.Disk) (D.state disk.old) (D.state disk.new) }
{
    if is_spoilt(number, seen) {
        return Err(StoreFault::Damaged {
            segment: number,
            at: 0,
        });
    }
    if let DiskDid::Failed = restart(disk, stream, number) {
        return Err(StoreFault::Disk);
    }
    Ok(())
}

// Whether a last segment of so many chunks is to go: it is not 0, and has none.
fn is_leftover(number: u64, count: usize) -> bool
    ensures { IsTrue result ↔ ((0 < number) × (count ≡ 0)) }
{
    number > 0 && count == 0
}

// Ends recovery at a last number whose files were read.
fn end_chunks<D: Disk>(
    disk: &mut D,
    stream: u32,
    number: u64,
    walk: Walk,
    found: &mut Found,
) -> Result<(), StoreFault>
    requires { D.tells → ShowsAt stream number (D.state disk.old) (Seen.Chunks walk) }
    ensures images { D.tells → LogOrBefore stream number walk.chunks (D.state disk.old) (D.state disk.new) }
    ensures ends { D.tells → OnOk result (Ends stream number walk.chunks found.old.rows.items found.new.rows.items found.old.chunks.items found.new.chunks.items (D.state disk.new)) }
    ensures left { D.tells → EachLeft stream number (D.state disk.old) → EachLeft stream number (D.state disk.new) }
    ensures damaged { D.tells → (segment at : ℕ) → IsErrOf result (StoreFault.Damaged segment at) → (segment ≡ number) × Exceeds number (files_of stream (D.state disk.old).seen number) at }
    ensures sound { D.tells → OnOk result (IsEnough number (files_of stream (D.state disk.old).seen number)) }
    ensures unworded { (place : ℕ) → IsErrOf result (StoreFault.DamagedWords place) → ⊥ }
    ensures others { BesidesPair stream number (D.state disk.old) (D.state disk.new) }
    ensures cause { HasCause (IsErrOf result StoreFault.Disk) (D.state disk.old) (D.state disk.new) }
{
    let chunks = walk.chunks.into_vec();
    if walk.index_size.saturating_sub(walk.index_place) > RECORD {
        return Err(StoreFault::Damaged {
            segment: number,
            at: chunks.len() as u64,
        });
    }
    if is_leftover(number, chunks.len()) {
        if let DiskDid::Failed = restart(disk, stream, number) {
            return Err(StoreFault::Disk);
        }
        return Ok(());
    }
    found.add(number, chunks)?;
    if let DiskDid::Failed = settle(
        disk,
        stream,
        number,
        walk.place,
        walk.index_place,
        walk.size,
        walk.index_size,
    ) {
        return Err(StoreFault::Disk);
    }
    Ok(())
}

// Recovers the last number, behind segments that stand.
fn end_recovery<D: Disk>(
    alloc: Global,
    disk: &mut D,
    stream: u32,
    number: u64,
    found: &mut Found,
) -> Result<(), StoreFault>
    requires { D.tells → ReachedLast stream number found.old.rows.items found.old.chunks.items (D.state disk.old) }
    ensures images { D.tells → KeepsLog stream (D.state disk.old) (D.state disk.new) }
    ensures recovers { D.tells → OnOk result (Recovers stream found.new.rows.items found.new.chunks.items (D.state disk.old) (D.state disk.new)) }
    ensures recoverable { D.tells → LogRecoverable stream (D.state disk.old) → LogRecoverable stream (D.state disk.new) }
    ensures damaged { D.tells → (F : Finder) (segment at : ℕ) → IsErrOf result (StoreFault.Damaged segment at) → SeenDamaged F stream (D.state disk.old) segment at }
    ensures sound { D.tells → (F : Finder) (segment at : ℕ) → OnOk result (SeenDamaged F stream (D.state disk.old) segment at → ⊥) }
    ensures unworded { (place : ℕ) → IsErrOf result (StoreFault.DamagedWords place) → ⊥ }
    ensures others { OutsideLog stream (D.state disk.old) (D.state disk.new) }
    ensures cause { HasCause (IsErrOf result StoreFault.Disk) (D.state disk.old) (D.state disk.new) }
{
    let seen = look_at(alloc, disk, stream, number)?;
    match seen {
        Seen::Failed => Err(StoreFault::Disk),
        Seen::Headless(headless) => end_headless(disk, stream, number, &headless),
        Seen::Chunks(walk) => end_chunks(disk, stream, number, walk, found),
    }
}

/// Recovers a log whose numbers above 0 with records in their index are these, rising, where no others have files.
pub(crate) fn read_log<D: Disk>(
    alloc: Global,
    disk: &mut D,
    stream: u32,
    numbers: &[u64],
) -> Result<Found, StoreFault>
    requires { D.tells → Listed stream 1 numbers.now (D.state disk.old) }
    ensures images { D.tells → KeepsLog stream (D.state disk.old) (D.state disk.new) }
    ensures recovers { D.tells → IfOk result (λ found. Recovers stream found.rows.items found.chunks.items (D.state disk.old) (D.state disk.new)) }
    ensures recoverable { D.tells → LogRecoverable stream (D.state disk.old) → LogRecoverable stream (D.state disk.new) }
    ensures damaged { D.tells → (F : Finder) (segment at : ℕ) → IsErrOf result (StoreFault.Damaged segment at) → SeenDamaged F stream (D.state disk.old) segment at }
    ensures sound { D.tells → (F : Finder) (segment at : ℕ) → OnOk result (SeenDamaged F stream (D.state disk.old) segment at → ⊥) }
    ensures unworded { (place : ℕ) → IsErrOf result (StoreFault.DamagedWords place) → ⊥ }
    ensures others { OutsideLog stream (D.state disk.old) (D.state disk.new) }
    ensures cause { HasCause (IsErrOf result StoreFault.Disk) (D.state disk.old) (D.state disk.new) }
{
    let mut found = Found::new(alloc);
    let mut number = 0;
    for next in numbers {
        let end = read_older(alloc, disk, stream, number, &mut found)?;
        if *next != end {
            return Err(StoreFault::Damaged {
                segment: *next,
                at: 0,
            });
        }
        number = *next;
    }
    end_recovery(alloc, disk, stream, number, &mut found)?;
    Ok(found)
}
