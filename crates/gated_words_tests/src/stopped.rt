use crate::crashed::fail_call;
use crate::over_memory::{FIRST, ONE, SECOND, TWO, TWO_HEADER, finds, lay, open, put};
use gated_words::GateFault;
use member_disk::MemoryDisk;
use std::alloc::Global;

// Files before an opening: of each the sure bytes, and those behind them. How many calls of the disk the
// opening makes, and its pairs.
struct Before {
    first: (&'static [u8], &'static [u8]),
    second: (&'static [u8], &'static [u8]),
    calls: u64,
    pairs: &'static [(u64, u64)],
}

const OPENINGS: [Before; 8] = [
    // Neither is there.
    Before {
        first: (b"", b""),
        second: (b"", b""),
        calls: 6,
        pairs: &[],
    },
    // The first alone, whole and torn.
    Before {
        first: (ONE, b""),
        second: (b"", b""),
        calls: 7,
        pairs: &[(1, 2)],
    },
    Before {
        first: (ONE, b"\x01\x02\x03\x04\x05"),
        second: (b"", b""),
        calls: 7,
        pairs: &[(1, 2)],
    },
    // Both: the second is ignored.
    Before {
        first: (ONE, b""),
        second: (TWO_HEADER, b"0123456789abcdefgh0"),
        calls: 7,
        pairs: &[(1, 2)],
    },
    Before {
        first: (b"STG", b""),
        second: (TWO, b""),
        calls: 7,
        pairs: &[],
    },
    // The second alone, whole, torn and new.
    Before {
        first: (b"", b""),
        second: (TWO, b""),
        calls: 5,
        pairs: &[(1, 2)],
    },
    Before {
        first: (b"", b""),
        second: (TWO, b"0123456789abcdef\x07"),
        calls: 7,
        pairs: &[(1, 2)],
    },
    Before {
        first: (b"", b""),
        second: (b"", b"STG"),
        calls: 8,
        pairs: &[],
    },
];

fn crash(disk: &mut MemoryDisk, image: u8) -> bool {
    disk.crash(1, image.min(3)).is_ok()
}

fn lay_both(disk: &mut MemoryDisk, before: &Before) -> bool {
    lay(disk, FIRST, before.first.0, before.first.1)
        && lay(disk, SECOND, before.second.0, before.second.1)
}

// Whether an opening whose nth call fails comes to its end, if after a crash the pairs are found, and found
// again.
fn open_stopped(alloc: Global, before: &Before, n: u64, image: u8) -> Option<bool> {
    let mut disk = MemoryDisk::new(alloc);
    if !lay_both(&mut disk, before) {
        return None;
    }
    fail_call(&mut disk, 1, n.max(1)).ok()?;
    let opened = match open(alloc, &mut disk) {
        Ok(gated) => gated.pairs() == before.pairs,
        Err(GateFault::Disk) => false,
        Err(_) => return None,
    };
    if !crash(&mut disk, image) || !finds(alloc, &mut disk, before.pairs) {
        return None;
    }
    if crash(&mut disk, image) && finds(alloc, &mut disk, before.pairs) {
        Some(opened)
    } else {
        None
    }
}

#[test]
fn an_opening_is_stopped_at_each_call(rt: HostRuntime) {
    for before in &OPENINGS {
        for n in 1..10 {
            for image in 0..4 {
                assert_eq!(rt;
                    open_stopped(rt.alloc(), before, n, image),
                    Some(n > before.calls),
                    "call {n}, image {image} of {:?}, {:?}",
                    before.first,
                    before.second
                );
            }
        }
    }
}

// Whether an opening whose nth call fails does fail, and the next one finds the pairs.
fn open_repeated(alloc: Global, before: &Before, n: u64) -> bool {
    let mut disk = MemoryDisk::new(alloc);
    if !lay_both(&mut disk, before) || fail_call(&mut disk, 1, n.max(1)).is_err() {
        return false;
    }
    match open(alloc, &mut disk) {
        Err(GateFault::Disk) => finds(alloc, &mut disk, before.pairs),
        _ => false,
    }
}

#[test]
fn a_failed_opening_is_repeated(rt: HostRuntime) {
    for before in &OPENINGS {
        for n in 1..=before.calls {
            assert!(rt;
                open_repeated(rt.alloc(), before, n),
                "call {n} of {:?}, {:?}",
                before.first,
                before.second
            );
        }
    }
}

// Whether, after a put of which the nth call of the disk failed, and a crash, opening finds the pair.
fn put_stopped(alloc: Global, n: u64, image: u8) -> Option<bool> {
    let mut disk = MemoryDisk::new(alloc);
    let Ok(mut gated) = open(alloc, &mut disk) else {
        return None;
    };
    put(&mut disk, &mut gated, (1, 2)).ok()?;
    fail_call(&mut disk, 1, n.max(1)).ok()?;
    let done = put(&mut disk, &mut gated, (3, 4)).is_ok();
    if done != (n > 4) || gated.is_sure() != done {
        return None;
    }
    if !crash(&mut disk, image) {
        return None;
    }
    if finds(alloc, &mut disk, &[(1, 2)]) {
        return Some(false);
    }
    if finds(alloc, &mut disk, &[(1, 2), (3, 4)]) {
        return Some(true);
    }
    None
}

#[test]
fn a_put_is_stopped_at_each_call(rt: HostRuntime) {
    // The call that fails: a write, a sync, the write of the gate, a sync, or none of the put. With
    // which images the pair is found.
    let cases = [
        (1, [false, false, false, false]),
        (2, [false, false, false, false]),
        (3, [false, false, false, false]),
        (4, [false, true, false, true]),
        (5, [true, true, true, true]),
    ];
    for (n, wants) in cases {
        for (image, want) in (0u8..4).zip(wants) {
            assert_eq!(rt;
                put_stopped(rt.alloc(), n, image),
                Some(want),
                "call {n}, image {image}"
            );
        }
    }
}

// The pairs that may be found after a put of (3, 4) that failed, and one of (5, 6).
const LISTS: [&[(u64, u64)]; 4] = [
    &[(1, 2)],
    &[(1, 2), (3, 4)],
    &[(1, 2), (5, 6)],
    &[(1, 2), (3, 4), (5, 6)],
];

fn is_listed(alloc: Global, disk: &mut MemoryDisk) -> bool {
    for list in LISTS {
        if finds(alloc, disk, list) {
            return true;
        }
    }
    false
}

// Whether the second put comes to its end, where the nth call of the first one failed and the mth of the
// second, if after a crash one of the lists is found.
fn puts_stopped(alloc: Global, n: u64, m: u64, image: u8) -> Option<bool> {
    let mut disk = MemoryDisk::new(alloc);
    if !lay(&mut disk, FIRST, ONE, b"") {
        return None;
    }
    let Ok(mut gated) = open(alloc, &mut disk) else {
        return None;
    };
    fail_call(&mut disk, 1, n.max(1)).ok()?;
    if put(&mut disk, &mut gated, (3, 4)) != Err(GateFault::Disk) {
        return None;
    }
    fail_call(&mut disk, 1, m.max(1)).ok()?;
    let done = put(&mut disk, &mut gated, (5, 6)).is_ok();
    if done && gated.last() != Some((5, 6)) {
        return None;
    }
    if crash(&mut disk, image) && is_listed(alloc, &mut disk) {
        Some(done)
    } else {
        None
    }
}

#[test]
fn a_failed_put_is_opened_again(rt: HostRuntime) {
    // The call of the first put that fails, and the calls of the second: it looks for the first file and
    // removes it again, opens the second, cuts a torn record away, and puts.
    for (n, calls) in [(1, 9), (2, 11), (3, 11), (4, 9)] {
        for m in 1..13 {
            for image in 0..4 {
                assert_eq!(rt;
                    puts_stopped(rt.alloc(), n, m, image),
                    Some(m > calls),
                    "calls {n} and {m}, image {image}"
                );
            }
        }
    }
}
