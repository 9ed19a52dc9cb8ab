ghost use Rattle.std.specs.Prelude.{◌≡◌, ◌≤◌, None};
ghost use Rattle.disk_calls.specs.Disk.{Rose};

use crate::chunks::message;
use crate::stopped::is_front;
use epoch_coordinator::Job;
use frame_wire::Row;
use member_disk::{
    Disk, DiskDid, DiskNames, DiskSize, FileId, FileName, MemoryDisk, WholeFile, read_file,
};
use segment_store::{MemberStore, Recovery, StoreFault};
use std::alloc::{AllocError, Global};

// A disk in memory that does not tell what it holds. One removal of a file is seen as done and still fails, and a crash
// brings the file back.
#[derive(Drop)]
struct ReturningDisk {
    alloc: Global,
    disk: MemoryDisk,
    faults: u64,
    // The file whose removal fails, until it does.
    stays: Option<FileId>,
    // Its bytes, once its removal has failed.
    kept: Vec<u8>,
}

fn count(faults: &mut u64)
    ensures later { faults.old ≤ faults.new }
    ensures rose { Rose faults.old faults.new }
{
    *faults = faults.saturating_add(1);
}

fn outcome(faults: &mut u64, did: DiskDid) -> DiskDid
    ensures same { result ≡ did }
    ensures later { faults.old ≤ faults.new }
    ensures rose { result ≡ DiskDid.Failed → Rose faults.old faults.new }
{
    if let DiskDid::Failed = did {
        count(faults);
    }
    did
}

fn read_within(disk: &mut MemoryDisk, id: FileId, place: u64, buf: &mut [u8]) -> DiskDid {
    let DiskSize::Size(size) = disk.size(id) else {
        return DiskDid::Failed;
    };
    let Some(end) = place.checked_add(buf.len() as u64) else {
        return DiskDid::Failed;
    };
    if size < end {
        return DiskDid::Failed;
    }
    disk.read(id, place, buf)
}

fn cut_there(disk: &mut MemoryDisk, id: FileId, size: u64) -> DiskDid {
    match disk.size(id) {
        DiskSize::Size(_) => disk.cut(id, size),
        _ => DiskDid::Failed,
    }
}

impl ReturningDisk {
    fn new(alloc: Global) -> ReturningDisk {
        ReturningDisk {
            alloc,
            disk: MemoryDisk::new(alloc),
            faults: 0,
            stays: None,
            kept: Vec::new(alloc),
        }
    }

    // The file whose removal failed is there again.
    fn bring_back(&mut self, id: FileId) -> bool {
        self.disk.write_at(id, 0, &self.kept) == DiskDid::Done
            && self.disk.sync(id) == DiskDid::Done
    }

    fn lose(&mut self, id: FileId) -> DiskDid
        ensures later { self.old.faults ≤ self.new.faults }
        ensures rose { result ≡ DiskDid.Failed → Rose self.old.faults self.new.faults }
    {
        self.stays = None;
        if let Ok(WholeFile::Bytes(bytes)) = read_file(self.alloc, &mut self.disk, id) {
            self.kept = bytes;
        }
        let _ = self.disk.remove(id);
        outcome(&mut self.faults, DiskDid::Failed)
    }
}

impl Disk for ReturningDisk {
    ghost tells = { ⊥ };

    ghost state = { λ d. record { seen = λ f. None; images = λ f c. ⊥; faults = d.faults } };

    ghost reads_image = { λ d f told. absurd told };

    fn size(&mut self, id: FileId) -> DiskSize {
        let size = self.disk.size(id);
        if let DiskSize::Failed = size {
            count(&mut self.faults);
        }
        size
    }

    fn read(&mut self, id: FileId, place: u64, buf: &mut [u8]) -> DiskDid {
        let did = read_within(&mut self.disk, id, place, buf);
        outcome(&mut self.faults, did)
    }

    fn write_at(&mut self, id: FileId, place: u64, bytes: &[u8]) -> DiskDid {
        let did = self.disk.write_at(id, place, bytes);
        outcome(&mut self.faults, did)
    }

    fn cut(&mut self, id: FileId, size: u64) -> DiskDid {
        let did = cut_there(&mut self.disk, id, size);
        outcome(&mut self.faults, did)
    }

    fn sync(&mut self, id: FileId) -> DiskDid {
        let did = self.disk.sync(id);
        outcome(&mut self.faults, did)
    }

    fn remove(&mut self, id: FileId) -> DiskDid {
        if self.stays == Some(id) {
            return self.lose(id);
        }
        let did = self.disk.remove(id);
        outcome(&mut self.faults, did)
    }

    fn names(&mut self, alloc: Global, stream: u32) -> Result<DiskNames, AllocError> {
        let names = self.disk.names(alloc, stream)?;
        if let DiskNames::Failed = names {
            count(&mut self.faults);
        }
        Ok(names)
    }
}

fn segment(number: u64) -> FileId {
    FileId {
        stream: 1,
        file: FileName::Segment(number),
    }
}

fn recover(alloc: Global, disk: &mut ReturningDisk) -> Result<Recovery, StoreFault> {
    MemberStore::recover(alloc, disk, 1, 1)
}

fn perform(disk: &mut ReturningDisk, store: &mut MemberStore, job: &Job) -> Result<(), StoreFault> {
    if !store.continues(job) {
        return Err(StoreFault::Memory);
    }
    store.perform(disk, 1, job)?;
    Ok(())
}

fn write(
    alloc: Global,
    disk: &mut ReturningDisk,
    store: &mut MemberStore,
    first: u64,
    len: usize,
) -> bool {
    match message(alloc, first, len) {
        Ok(chunk) => perform(disk, store, &Job::Write(chunk)).is_ok(),
        Err(_) => false,
    }
}

// A message that makes a segment alone so large that the next chunk begins a new one.
const FULL: usize = 262_084;

// The messages of a log of the segments 0, 2, 3 and 4.
const LOG: [usize; 6] = [8, FULL, FULL, FULL, 8, 8];

fn begin(alloc: Global, disk: &mut ReturningDisk) -> Option<MemberStore> {
    let mut store = recover(alloc, disk).ok()?.store;
    for first in 0..LOG.len() {
        if !write(alloc, disk, &mut store, first as u64, LOG[first]) {
            return None;
        }
    }
    Some(store)
}

// How many of these messages are recovered, if no others are.
fn left(alloc: Global, disk: &mut ReturningDisk, log: &[usize]) -> Option<usize> {
    let recovery = recover(alloc, disk).ok()?;
    let chunks = recovery.recovered.chunks.as_slice();
    if is_front(chunks, log) {
        Some(chunks.len())
    } else {
        None
    }
}

fn is_there(disk: &mut ReturningDisk, id: FileId) -> bool {
    matches!(disk.size(id), DiskSize::Size(_))
}

// A cut across three segments, of which the removal of one fails.
fn cut(alloc: Global, disk: &mut ReturningDisk, number: u64) -> Option<()> {
    let mut store = begin(alloc, disk)?;
    disk.stays = Some(segment(number));
    match perform(disk, &mut store, &Job::Cut(1)) {
        Err(StoreFault::Disk) => Some(()),
        _ => None,
    }
}

// How many chunks are recovered where the segment comes back at once.
fn left_at_once(alloc: Global, number: u64) -> Option<usize> {
    let mut disk = ReturningDisk::new(alloc);
    cut(alloc, &mut disk, number)?;
    if is_there(&mut disk, segment(number)) || !disk.bring_back(segment(number)) {
        return None;
    }
    let first = left(alloc, &mut disk, &LOG)?;
    let second = left(alloc, &mut disk, &LOG)?;
    if first == second && !is_there(&mut disk, segment(number)) {
        Some(first)
    } else {
        None
    }
}

// How many are recovered where the segment is first gone, and comes back in a later crash.
fn left_later(alloc: Global, number: u64) -> Option<usize> {
    let mut disk = ReturningDisk::new(alloc);
    cut(alloc, &mut disk, number)?;
    let first = left(alloc, &mut disk, &LOG)?;
    if !disk.bring_back(segment(number)) || left(alloc, &mut disk, &LOG)? != first {
        return None;
    }
    Some(first)
}

// How many are recovered where segment 4 comes back behind a segment that was begun since, of which the index is torn.
fn left_behind(alloc: Global, is_torn: bool) -> Option<usize> {
    let mut disk = ReturningDisk::new(alloc);
    cut(alloc, &mut disk, 4)?;
    let mut store = recover(alloc, &mut disk).ok()?.store;
    perform(&mut disk, &mut store, &Job::Cut(2)).ok()?;
    if !write(alloc, &mut disk, &mut store, 2, 8) || !disk.bring_back(segment(4)) {
        return None;
    }
    if is_torn && !tear(&mut disk) {
        return None;
    }
    let log = [8, FULL, 8];
    let first = left(alloc, &mut disk, &log)?;
    if is_there(&mut disk, segment(4)) || left(alloc, &mut disk, &log)? != first {
        return None;
    }
    Some(first)
}

// Another last byte in the index of segment 2.
fn tear(disk: &mut ReturningDisk) -> bool {
    let index = FileId {
        stream: 1,
        file: FileName::Index(2),
    };
    disk.write_at(index, 36, b"\x07") == DiskDid::Done
}

#[test]
fn a_removed_segment_comes_back(rt: HostRuntime) {
    for (number, want) in [(4, 4), (3, 3), (2, 2)] {
        assert_eq!(rt; left_at_once(rt.alloc(), number), Some(want), "{number}");
        assert_eq!(rt; left_later(rt.alloc(), number), Some(want), "{number}");
    }
    assert_eq!(rt; left_behind(rt.alloc(), false), Some(3));
    assert_eq!(rt; left_behind(rt.alloc(), true), Some(2));
}
