use crate::over_memory::recover;
use member_disk::{Disk, DiskDid, FileId, FileName, MemoryDisk};
use segment_store::StoreFault;
use std::alloc::Global;

// The opening chunk of epoch 1 and a message.
const SEGMENT: &[u8] =
    b"OSIL\0\0\0\x01\x50\x02\0\x01\0\0\0\x01\0\0\0\0\0\0\0\0\0\0\0\0\0\0\0\x01\0\0\0\0\0\0\0\0\x21\x44\xdf\x1c\0\0\0\x04\0\0\0\0\0\0\0\0\0\0\0\0\x50\0\0\x01\0\0\0\x01\0\0\0\0\0\0\0\0\0\0\0\0\0\0\0\x01\0\0\0\0\0\0\0\x01\xe5\x8c\x97\x92\0\0\0\x05\0\0\0\0\0\0\0\0\0\0\0\x01\x61";

// Their records.
const INDEX: &[u8] =
    b"OSII\0\0\0\x01\0\0\0\0\0\0\0\0\0\0\0\0\0\0\0\0\0\0\0\0\0\0\0\x01\0\0\0\x08\x02\0\0\0\0\0\0\0\x01\0\0\0\0\0\0\0\0\0\0\0\0\0\0\0\x01\0\0\0\x3c\0";

// Files of segment 0, cut to so many bytes each, with another byte at a place of the index, if any. What recovery tells:
// how many chunks, or minus one and the number of the damaged record, or less.
struct Case {
    segment: usize,
    index: usize,
    changed: Option<u64>,
    more: usize,
    told: i64,
}

const CASES: [Case; 12] = [
    // As they are.
    Case {
        segment: 113,
        index: 66,
        changed: None,
        more: 0,
        told: 2,
    },
    // The last byte of the last record, and of the first.
    Case {
        segment: 113,
        index: 66,
        changed: Some(65),
        more: 0,
        told: 1,
    },
    Case {
        segment: 113,
        index: 66,
        changed: Some(36),
        more: 0,
        told: -1,
    },
    // A record that is cut, and none.
    Case {
        segment: 113,
        index: 65,
        changed: None,
        more: 0,
        told: 1,
    },
    Case {
        segment: 113,
        index: 37,
        changed: None,
        more: 0,
        told: 1,
    },
    Case {
        segment: 113,
        index: 8,
        changed: None,
        more: 0,
        told: 0,
    },
    // A chunk that is cut.
    Case {
        segment: 112,
        index: 66,
        changed: None,
        more: 0,
        told: 1,
    },
    Case {
        segment: 59,
        index: 66,
        changed: None,
        more: 0,
        told: -1,
    },
    // Bytes behind the last record: as many as one has, and one more.
    Case {
        segment: 113,
        index: 66,
        changed: None,
        more: 29,
        told: 2,
    },
    Case {
        segment: 113,
        index: 66,
        changed: None,
        more: 30,
        told: -3,
    },
    // Another header, and one that is cut.
    Case {
        segment: 113,
        index: 66,
        changed: Some(3),
        more: 0,
        told: -1,
    },
    Case {
        segment: 113,
        index: 7,
        changed: None,
        more: 0,
        told: 0,
    },
];

fn file(name: FileName) -> FileId {
    FileId {
        stream: 1,
        file: name,
    }
}

fn lay_file(disk: &mut MemoryDisk, name: FileName, bytes: &[u8]) -> bool {
    disk.write_at(file(name), 0, bytes) == DiskDid::Done
}

fn front(bytes: &[u8], len: usize) -> &[u8] {
    match bytes.get(..len) {
        Some(front) => front,
        None => bytes,
    }
}

fn lay(alloc: Global, disk: &mut MemoryDisk, case: &Case) -> bool {
    let index = front(INDEX, case.index);
    let Ok(more) = Vec::from_elem(alloc, 0, case.more) else {
        return false;
    };
    if !lay_file(disk, FileName::Segment(0), front(SEGMENT, case.segment))
        || !lay_file(disk, FileName::Index(0), index)
    {
        return false;
    }
    if disk.write_at(file(FileName::Index(0)), index.len() as u64, &more) == DiskDid::Failed {
        return false;
    }
    match case.changed {
        Some(place) => disk.write_at(file(FileName::Index(0)), place, b"\x01") == DiskDid::Done,
        None => true,
    }
}

fn told(alloc: Global, disk: &mut MemoryDisk) -> i64 {
    match recover(alloc, disk) {
        Ok(recovery) => recovery.recovered.chunks.as_slice().len().min(1_000) as i64,
        Err(StoreFault::Damaged { segment: 0, at }) => -1 - at.min(1_000) as i64,
        Err(_) => -10_000,
    }
}

fn found(alloc: Global, case: &Case) -> i64 {
    let mut disk = MemoryDisk::new(alloc);
    if !lay(alloc, &mut disk, case) {
        return -20_000;
    }
    told(alloc, &mut disk)
}

#[test]
fn inspect_and_recover(rt: HostRuntime) {
    for case in &CASES {
        assert_eq!(rt;
            found(rt.alloc(), case),
            case.told,
            "{} and {} bytes, {:?}, and {} more",
            case.segment,
            case.index,
            case.changed,
            case.more
        );
    }
}
