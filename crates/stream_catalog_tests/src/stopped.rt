ghost use Rattle.std.specs.Prelude.{⊤, MatchOption};
ghost use Rattle.member_disk.specs.MemoryDisks.{state_of};
ghost use Rattle.stream_catalog.specs.InHand.{Backed};

use crate::asked::{DISK, Request, ask, crash, fail_call, recover, sign};
use member_disk::MemoryDisk;
use std::alloc::Global;
use stream_catalog::Catalog;

const PARTS: &[&[u8]] = &[b"a", b"b"];

const KEYS: &[&[u8]] = &[b"x", b"y"];

// A change behind two others, its answer, and the live streams and greatest number before it and after.
struct Case {
    before: [Request; 2],
    change: Request,
    told: i64,
    old: (&'static [u32], u32),
    new: (&'static [u32], u32),
}

const CASES: [Case; 4] = [
    Case {
        before: [Request::Create(b"s"), Request::Create(b"t")],
        change: Request::Create(b"u"),
        told: 3,
        old: (&[1, 2], 2),
        new: (&[1, 2, 3], 3),
    },
    Case {
        before: [Request::Create(b"s"), Request::Create(b"t")],
        change: Request::Delete(b"s"),
        told: 1,
        old: (&[1, 2], 2),
        new: (&[2], 2),
    },
    Case {
        before: [Request::Create(b"s"), Request::Create(b"t")],
        change: Request::CreateSuper(b"u", PARTS, KEYS),
        told: 3,
        old: (&[1, 2], 2),
        new: (&[1, 2, 3, 4], 4),
    },
    Case {
        before: [
            Request::CreateSuper(b"u", PARTS, KEYS),
            Request::Create(b"s"),
        ],
        change: Request::DeleteSuper(b"u"),
        told: 2,
        old: (&[1, 2, 3], 3),
        new: (&[3], 3),
    },
];

// Calls of the disk that a change makes: a write and a sync of the bytes, and two of each for the pair.
const CALLS: u64 = 6;

fn is(catalog: &Catalog, want: (&[u32], u32)) -> bool {
    catalog.streams() == want.0 && catalog.last() == want.1
}

// A catalog in which the two changes before were made.
fn begin(alloc: Global, disk: &mut MemoryDisk, case: &Case) -> Option<Catalog>
    ensures { MatchOption result ⊤ (λ c. Backed c (state_of disk.new.streams disk.new.faults)) }
{
    let Ok(mut catalog) = recover(alloc, disk) else {
        return None;
    };
    let [first, second] = case.before;
    ask(alloc, disk, &mut catalog, first).ok()?;
    ask(alloc, disk, &mut catalog, second).ok()?;
    Some(catalog)
}

// Whether the catalog that the files have after a crash is the new one. None where it is neither, or where
// reading it again finds another.
fn is_new(alloc: Global, disk: &mut MemoryDisk, case: &Case, image: u8) -> Option<bool> {
    crash(disk, image.min(3)).ok()?;
    let first = recover(alloc, disk).ok()?;
    let second = recover(alloc, disk).ok()?;
    if is(&first, case.new) && is(&second, case.new) {
        return Some(true);
    }
    if is(&first, case.old) && is(&second, case.old) {
        return Some(false);
    }
    None
}

// Whether the files have the new catalog, after a change of which the nth call of the disk failed.
fn stopped(alloc: Global, case: &Case, n: u64, image: u8) -> Option<bool> {
    let mut disk = MemoryDisk::new(alloc);
    let mut catalog = begin(alloc, &mut disk, case)?;
    fail_call(&mut disk, n.max(1)).ok()?;
    let told = sign(ask(alloc, &mut disk, &mut catalog, case.change));
    if n > CALLS {
        if told != case.told || !is(&catalog, case.new) {
            return None;
        }
    } else if told != DISK || !is(&catalog, case.old) {
        return None;
    }
    is_new(alloc, &mut disk, case, image)
}

#[test]
fn a_change_is_stopped_at_each_call(rt: HostRuntime) {
    // The call that fails, and with which images the change is found: the write of the pair's gate is the
    // fifth, its sync the sixth.
    let found = [
        (1, [false, false, false, false]),
        (4, [false, false, false, false]),
        (5, [false, false, false, false]),
        (6, [false, true, false, true]),
        (7, [true, true, true, true]),
    ];
    for case in &CASES {
        for (n, images) in found {
            for (image, want) in (0u8..4).zip(images) {
                assert_eq!(rt;
                    stopped(rt.alloc(), case, n, image),
                    Some(want),
                    "call {n}, image {image} of {:?}",
                    case.change
                );
            }
        }
    }
}

// Whether, after a change of which the nth call of the disk failed, the next change finds and tells what
// became of it, and is made.
fn goes_on(alloc: Global, case: &Case, n: u64) -> bool {
    let mut disk = MemoryDisk::new(alloc);
    let Some(mut catalog) = begin(alloc, &mut disk, case) else {
        return false;
    };
    if fail_call(&mut disk, n.max(1)).is_err() {
        return false;
    }
    let _ = ask(alloc, &mut disk, &mut catalog, case.change);
    let more = sign(ask(alloc, &mut disk, &mut catalog, Request::Create(b"more")));
    let made = n == CALLS;
    let last = if made { case.new.1 } else { case.old.1 };
    let came = case.new.0.len() > case.old.0.len();
    more == last as i64 + 1
        && catalog.came().is_empty() != (made && came)
        && catalog.went().is_empty() != (made && !came)
}

#[test]
fn the_next_change_reads_the_files_again(rt: HostRuntime) {
    for case in &CASES {
        for n in 1..=CALLS {
            assert!(rt;
                goes_on(rt.alloc(), case, n),
                "call {n} of {:?}",
                case.change
            );
        }
    }
}
