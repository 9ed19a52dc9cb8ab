ghost use Rattle.std.specs.Prelude.{IfOk};
ghost use Rattle.member_disk.specs.MemoryDisks.{state_of};
ghost use Rattle.gated_words.specs.Backing.{Backs};

use disk_calls::{WholeFile, read_file};
use gated_words::{GateFault, Gated};
use member_disk::{Disk, DiskDid, DiskSize, FileId, FileName, MemoryDisk};
use std::alloc::Global;

pub(crate) const FIRST: FileId = FileId {
    stream: 1,
    file: FileName::Promise,
};

pub(crate) const SECOND: FileId = FileId {
    stream: 1,
    file: FileName::PromiseTwo,
};

// The pair (1, 2) in a first file.
pub(crate) const ONE: &[u8] = b"STGW\0\0\0\x01\0\0\0\0\0\0\0\x01\0\0\0\0\0\0\0\x02\xa5";

// The same, with another byte in place of the gate.
const ONE_SHUT: &[u8] = b"STGW\0\0\0\x01\0\0\0\0\0\0\0\x01\0\0\0\0\0\0\0\x02\0";

// The pair (1, 2) in a second file.
pub(crate) const TWO: &[u8] = b"STGW\0\0\0\x02\0\0\0\0\0\0\0\x01\0\0\0\0\0\0\0\x02\x03\xa5";

// The same, with another byte in place of the gate.
const TWO_SHUT: &[u8] = b"STGW\0\0\0\x02\0\0\0\0\0\0\0\x01\0\0\0\0\0\0\0\x02\x03\0";

// The same, with another xor.
const TWO_WRONG: &[u8] = b"STGW\0\0\0\x02\0\0\0\0\0\0\0\x01\0\0\0\0\0\0\0\x02\x04\xa5";

pub(crate) const TWO_HEADER: &[u8] = b"STGW\0\0\0\x02";

// The pairs (1, 2) and (3, 4) in a second file.
const TWO_PAIRS: &[u8] =
    b"STGW\0\0\0\x02\0\0\0\0\0\0\0\x01\0\0\0\0\0\0\0\x02\x03\xa5\0\0\0\0\0\0\0\x03\0\0\0\0\0\0\0\x04\x07\xa5";

pub(crate) fn open(alloc: Global, disk: &mut MemoryDisk) -> Result<Gated, GateFault>
    ensures { IfOk result (λ g. Backs g (state_of disk.new.streams disk.new.faults)) }
{
    Gated::open(alloc, disk, FIRST)
}

pub(crate) fn put(
    disk: &mut MemoryDisk,
    gated: &mut Gated,
    pair: (u64, u64),
) -> Result<(), GateFault>
    requires { Backs gated.old (state_of disk.old.streams disk.old.faults) }
    ensures { Backs gated.new (state_of disk.new.streams disk.new.faults) }
{
    gated.put(disk, pair.0, pair.1)
}

// Whether a file was made of these bytes, one part behind the other, of which the first is sure. It is
// not made where there are none.
pub(crate) fn lay(disk: &mut MemoryDisk, id: FileId, sure: &[u8], more: &[u8]) -> bool {
    if sure.is_empty() && more.is_empty() {
        return true;
    }
    if disk.write_at(id, 0, sure) == DiskDid::Failed || disk.sync(id) == DiskDid::Failed {
        return false;
    }
    disk.write_at(id, sure.len() as u64, more) == DiskDid::Done
}

// Whether opening finds these pairs.
pub(crate) fn finds(alloc: Global, disk: &mut MemoryDisk, want: &[(u64, u64)]) -> bool {
    match open(alloc, disk) {
        Ok(gated) => gated.pairs() == want,
        Err(_) => false,
    }
}

// Whether the first file is gone, and the second has just these bytes.
fn stands(alloc: Global, disk: &mut MemoryDisk, bytes: &[u8]) -> bool {
    if disk.size(FIRST) != DiskSize::Missing {
        return false;
    }
    match read_file(alloc, disk, SECOND) {
        Ok(WholeFile::Bytes(found)) => found.as_slice() == bytes,
        _ => false,
    }
}

// Whether files of these bytes open with these pairs, and leave a second file of these bytes alone.
fn opens(alloc: Global, first: &[u8], second: &[u8], want: &[(u64, u64)], left: &[u8]) -> bool {
    let mut disk = MemoryDisk::new(alloc);
    if !lay(&mut disk, FIRST, first, b"") || !lay(&mut disk, SECOND, second, b"") {
        return false;
    }
    finds(alloc, &mut disk, want) && stands(alloc, &mut disk, left)
}

// Where files of these bytes are damaged.
fn damaged(alloc: Global, first: &[u8], second: &[u8]) -> Option<u64> {
    let mut disk = MemoryDisk::new(alloc);
    if !lay(&mut disk, FIRST, first, b"") || !lay(&mut disk, SECOND, second, b"") {
        return None;
    }
    match open(alloc, &mut disk) {
        Err(GateFault::Damaged { place }) => Some(place),
        _ => None,
    }
}

// Whether a put of (3, 4) behind what these files hold leaves a second file of these bytes alone.
fn puts(alloc: Global, first: &[u8], left: &[u8]) -> bool {
    let mut disk = MemoryDisk::new(alloc);
    if !lay(&mut disk, FIRST, first, b"") {
        return false;
    }
    let Ok(mut gated) = open(alloc, &mut disk) else {
        return false;
    };
    put(&mut disk, &mut gated, (3, 4)).is_ok() && stands(alloc, &mut disk, left)
}

#[test]
fn gated_words_torn_and_damaged(rt: HostRuntime) {
    // The first file, the second, the pairs that opening finds, and the second file that it leaves.
    let opened: [(&[u8], &[u8], &[(u64, u64)], &[u8]); 14] = [
        (ONE, b"", &[(1, 2)], TWO),
        (
            b"STGW\0\0\0\x01\0\0\0\0\0\0\0\x01\0\0\0\0\0\0\0\x02\xa5\x01\x02\x03\x04\x05",
            b"",
            &[(1, 2)],
            TWO,
        ),
        (ONE_SHUT, b"", &[], TWO_HEADER),
        (ONE, TWO_PAIRS, &[(1, 2)], TWO),
        (ONE, b"123456789", &[(1, 2)], TWO),
        (b"STG", TWO, &[], TWO_HEADER),
        (b"12345678", TWO, &[], TWO_HEADER),
        (b"", TWO, &[(1, 2)], TWO),
        (b"", TWO_PAIRS, &[(1, 2), (3, 4)], TWO_PAIRS),
        (b"", TWO_SHUT, &[], TWO_HEADER),
        (b"", b"STGW\0\0\0\x020123456789abcdefgh", &[], TWO_HEADER),
        (b"", TWO_HEADER, &[], TWO_HEADER),
        (b"", b"12345678", &[], TWO_HEADER),
        (b"", b"", &[], TWO_HEADER),
    ];
    for (first, second, want, left) in opened {
        assert!(rt;
            opens(rt.alloc(), first, second, want, left),
            "{first:?}, {second:?}"
        );
    }
    // The first file, the second, and the place where the one that counts is damaged.
    let cases: [(&[u8], &[u8], u64); 8] = [
        (
            b"STGW\0\0\0\x01\0\0\0\0\0\0\0\x01\0\0\0\0\0\0\0\x02\00123456789abcdefgh",
            TWO,
            8,
        ),
        (
            b"STGW\0\0\0\x01\0\0\0\0\0\0\0\x01\0\0\0\0\0\0\0\x02\00",
            TWO,
            8,
        ),
        (b"STGW\0\0\0\x020", TWO, 0),
        (b"", TWO_WRONG, 8),
        (b"", b"STGW\0\0\0\x020123456789abcdefgh0", 8),
        (
            b"",
            b"STGW\0\0\0\x02\0\0\0\0\0\0\0\x01\0\0\0\0\0\0\0\x02\x03\xa50123456789abcdefgh0",
            26,
        ),
        (b"", b"STGW\0\0\0\x010", 0),
        (b"", b"123456789", 0),
    ];
    for (first, second, place) in cases {
        assert_eq!(rt;
            damaged(rt.alloc(), first, second),
            Some(place),
            "{first:?}, {second:?}"
        );
    }
    // A put makes the second file longer.
    assert!(rt; puts(rt.alloc(), ONE, TWO_PAIRS));
}

// The pairs after so many puts of (k, k + 1), and an opening.
fn puts_many(alloc: Global, count: u64) -> Option<usize> {
    let mut disk = MemoryDisk::new(alloc);
    let Ok(mut gated) = open(alloc, &mut disk) else {
        return None;
    };
    for k in 0..count {
        put(&mut disk, &mut gated, (k, u64::MAX)).ok()?;
    }
    let Ok(found) = open(alloc, &mut disk) else {
        return None;
    };
    if found.pairs() == gated.pairs() {
        Some(found.pairs().len())
    } else {
        None
    }
}

#[test]
fn many_pairs_have_room(rt: HostRuntime) {
    assert_eq!(rt; puts_many(rt.alloc(), 3_000), Some(3_000));
}
