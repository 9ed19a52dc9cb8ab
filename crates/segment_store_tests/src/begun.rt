ghost use Rattle.std.specs.Prelude.{⊤, MatchOption};
ghost use Rattle.member_disk.specs.MemoryDisks.{state_of};
ghost use Rattle.segment_store_tests.specs.Backed.{IsBacked};

use crate::over_memory::{fail_call, perform, recover, write};
use crate::stopped::begin;
use chunk_format::Stored;
use epoch_coordinator::Job;
use frame_wire::Row;
use member_disk::{Disk, DiskDid, DiskNames, DiskSize, FileId, FileName, MemoryDisk};
use segment_store::{MemberStore, Recovery, StoreFault};
use std::alloc::Global;

// The opening chunk of an epoch.
const OPENING: &[u8] =
    b"\x50\x02\0\x01\0\0\0\x01\0\0\0\0\0\0\0\0\0\0\0\0\0\0\0\x01\0\0\0\0\0\0\0\0\x21\x44\xdf\x1c\0\0\0\x04\0\0\0\0\0\0\0\0\0\0\0\0";

fn segment(number: u64) -> FileId {
    FileId {
        stream: 1,
        file: FileName::Segment(number),
    }
}

fn index(number: u64) -> FileId {
    FileId {
        stream: 1,
        file: FileName::Index(number),
    }
}

// A store that has written the opening chunk.
fn open(alloc: Global, disk: &mut MemoryDisk) -> Option<MemberStore>
    ensures { MatchOption result ⊤ (λ s. IsBacked s (state_of disk.new.streams disk.new.faults)) }
{
    let Ok(
        Recovery {
            mut store,
            recovered: _,
        },
    ) = recover(alloc, disk)
    else {
        return None;
    };
    let Ok(read) = Stored::read(alloc, OPENING) else {
        return None;
    };
    let Ok(_) = perform(disk, &mut store, 1, &Job::Write(read.stored)) else {
        return None;
    };
    Some(store)
}

// A store that has written the opening chunk and so many user chunks of 60 bytes.
fn grow(alloc: Global, disk: &mut MemoryDisk, count: u64) -> Option<MemberStore>
    ensures { MatchOption result ⊤ (λ s. IsBacked s (state_of disk.new.streams disk.new.faults)) }
{
    let mut store = open(alloc, disk)?;
    for written in 0..count {
        if !write(alloc, disk, &mut store, written.saturating_add(1), 8) {
            return None;
        }
    }
    Some(store)
}

fn has_size(disk: &mut MemoryDisk, id: FileId, size: u64) -> bool {
    disk.size(id) == DiskSize::Size(size)
}

// How many of a stream's files are segments.
fn count_segments(names: &[FileId]) -> usize {
    names
        .iter()
        .filter(|id| matches!(id.file, FileName::Segment(_)))
        .count()
}

fn has_segments(alloc: Global, disk: &mut MemoryDisk, count: usize) -> bool {
    match disk.names(alloc, 1) {
        Ok(DiskNames::Names(names)) => count_segments(names.as_slice()) == count,
        _ => false,
    }
}

// Whether 5,000 user chunks stand in the segments 0 and 4370.
fn are_begun(alloc: Global) -> bool {
    let mut disk = MemoryDisk::new(alloc);
    if grow(alloc, &mut disk, 5_000).is_none() {
        return false;
    }
    has_segments(alloc, &mut disk, 2)
        && has_size(&mut disk, segment(0), 262_200)
        && has_size(&mut disk, index(0), 8 + 29 * 4_370)
        && has_size(&mut disk, segment(4_370), 8 + 60 * 631)
        && has_size(&mut disk, index(4_370), 8 + 29 * 631)
}

// Cuts the second segment away, with two calls of the disk: the third fails.
fn cut_second(alloc: Global, disk: &mut MemoryDisk) -> Option<MemberStore>
    ensures { MatchOption result ⊤ (λ s. IsBacked s (state_of disk.new.streams disk.new.faults)) }
{
    let mut store = grow(alloc, disk, 5_000)?;
    fail_call(disk, 1, 3).ok()?;
    let Ok(_) = perform(disk, &mut store, 1, &Job::Cut(4_370)) else {
        return None;
    };
    Some(store)
}

fn is_cut_by_two_calls(alloc: Global) -> bool {
    let mut disk = MemoryDisk::new(alloc);
    if cut_second(alloc, &mut disk).is_none() {
        return false;
    }
    disk.size(segment(0)) == DiskSize::Failed
        && has_segments(alloc, &mut disk, 1)
        && has_size(&mut disk, segment(0), 262_200)
}

// Whether the next chunk begins the second segment again.
fn begins_again(alloc: Global) -> bool {
    let mut disk = MemoryDisk::new(alloc);
    let Some(mut store) = grow(alloc, &mut disk, 5_000) else {
        return false;
    };
    let Ok(_) = perform(&mut disk, &mut store, 1, &Job::Cut(4_370)) else {
        return false;
    };
    write(alloc, &mut disk, &mut store, 4_370, 8)
        && has_segments(alloc, &mut disk, 2)
        && has_size(&mut disk, segment(4_370), 68)
}

#[test]
fn a_new_segment_begins(rt: HostRuntime) {
    assert!(rt; are_begun(rt.alloc()));
    assert!(rt; is_cut_by_two_calls(rt.alloc()));
    assert!(rt; begins_again(rt.alloc()));
}

// How many segments there are after a chunk behind one that makes segment 0 so large.
fn segments_behind(alloc: Global, size: usize) -> usize {
    let mut disk = MemoryDisk::new(alloc);
    if begin(alloc, &mut disk, &[size.saturating_sub(60), 8]).is_none() {
        return 0;
    }
    match disk.names(alloc, 1) {
        Ok(DiskNames::Names(names)) => count_segments(names.as_slice()),
        _ => 0,
    }
}

#[test]
fn a_segment_is_full_at_its_size(rt: HostRuntime) {
    for (size, want) in [
        (262_143, 1),
        (262_144, 2),
        (262_145, 2),
        (100_000, 1),
        (10_000_000, 2),
    ] {
        assert_eq!(rt; segments_behind(rt.alloc(), size), want, "{size}");
    }
}

// Changes one byte of a file that is there, on the disk.
fn change(disk: &mut MemoryDisk, id: FileId, place: u64) -> bool {
    disk.write_at(id, place, b"\x07") == DiskDid::Done && disk.sync(id) == DiskDid::Done
}

// A log whose second segment has one chunk, with another last byte in an index.
fn spoil(alloc: Global, disk: &mut MemoryDisk, id: FileId, place: u64) -> bool {
    grow(alloc, disk, 4_370).is_some()
        && has_size(disk, id, place.saturating_add(1))
        && change(disk, id, place)
}

fn count(chunks: &Row<Stored>) -> usize {
    chunks.as_slice().len()
}

fn is_given_up(alloc: Global) -> bool {
    let mut disk = MemoryDisk::new(alloc);
    if !spoil(alloc, &mut disk, index(4_370), 36) {
        return false;
    }
    let Ok(
        Recovery {
            store: _,
            recovered,
        },
    ) = recover(alloc, &mut disk)
    else {
        return false;
    };
    count(&recovered.chunks) == 4_370 && has_segments(alloc, &mut disk, 1)
}

#[test]
fn a_torn_new_segment_is_given_up(rt: HostRuntime) {
    assert!(rt; is_given_up(rt.alloc()));
}

fn damage(alloc: Global) -> Option<(u64, u64)> {
    let mut disk = MemoryDisk::new(alloc);
    if !spoil(alloc, &mut disk, index(0), 7 + 29 * 4_370) {
        return None;
    }
    match recover(alloc, &mut disk) {
        Err(StoreFault::Damaged { segment, at }) => Some((segment, at)),
        _ => None,
    }
}

#[test]
fn a_damaged_older_index(rt: HostRuntime) {
    assert_eq!(rt; damage(rt.alloc()), Some((0, 4_369)));
}
