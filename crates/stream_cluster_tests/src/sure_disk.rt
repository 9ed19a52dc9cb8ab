//! A disk that keeps nothing, for stores that are never recovered again.

ghost use Rattle.std.specs.Prelude.{◌≡◌, ◌≤◌, None};
ghost use Rattle.disk_calls.specs.Disk.{Rose};

use frame_wire::Row;
use member_disk::{Disk, DiskDid, DiskNames, DiskSize, FileId};
use std::alloc::{AllocError, Global};

/// A disk that keeps nothing and tells nothing. Its calls are done, but writes and reads that no file has room for.
#[derive(Drop)]
pub(crate) struct SureDisk {
    faults: u64,
}

fn count(faults: &mut u64)
    ensures later { faults.old ≤ faults.new }
    ensures rose { Rose faults.old faults.new }
{
    *faults = faults.saturating_add(1);
}

impl SureDisk {
    pub(crate) fn new() -> SureDisk {
        SureDisk { faults: 0 }
    }
}

impl Disk for SureDisk {
    ghost tells = { ⊥ };

    ghost state = { λ d. record { seen = λ f. None; images = λ f c. ⊥; faults = d.faults } };

    ghost reads_image = { λ d f told. absurd told };

    fn size(&mut self, _id: FileId) -> DiskSize {
        DiskSize::Missing
    }

    fn read(&mut self, _id: FileId, _place: u64, _buf: &mut [u8]) -> DiskDid {
        count(&mut self.faults);
        DiskDid::Failed
    }

    fn write_at(&mut self, _id: FileId, place: u64, bytes: &[u8]) -> DiskDid {
        if place >= 1 << 62 || bytes.len() >= 1 << 62 {
            count(&mut self.faults);
            return DiskDid::Failed;
        }
        DiskDid::Done
    }

    fn cut(&mut self, _id: FileId, _size: u64) -> DiskDid {
        DiskDid::Done
    }

    fn sync(&mut self, _id: FileId) -> DiskDid {
        DiskDid::Done
    }

    fn remove(&mut self, _id: FileId) -> DiskDid {
        DiskDid::Done
    }

    fn names(&mut self, alloc: Global, _stream: u32) -> Result<DiskNames, AllocError> {
        Ok(DiskNames::Names(Row::new(alloc)))
    }
}
