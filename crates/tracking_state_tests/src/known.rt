use chunk_format::{Entry, Stored};
use std::alloc::Global;
use std::process::Abort;
use std::test::Fail;
use tracking_state::{Tracking, first_untruthful};

/// The snapshot with which epoch 1 opens at offset 0.
const OPENING: &str =
    "50020001000000010000000000000000000000000000000100000000000000002144df1c00000004000000000000000000000000";

/// Ids 4, 7 and 7 again of p.
const P_4: &str =
    "5000000100000001000000000000000000000000000000010000000000000000e58c9792000000050000000b0000000000000001610001700000000000000004";

const P_7: &str =
    "5000000100000001000000000000000000000000000000010000000000000001e58c9792000000050000000b0000000000000001610001700000000000000007";

const P_7_AGAIN: &str =
    "5000000100000001000000000000000000000000000000010000000000000003e58c9792000000050000000b0000000000000001610001700000000000000007";
/// Offsets 1 of d, 0 of c, and 3 of d.
const D_1: &str =
    "5001000100000001000000000000000000000000000000010000000000000002fe85f3290000000f00000000000000000000000b0101640000000000000001";

const C_0: &str =
    "5001000100000001000000000000000000000000000000010000000000000004ede3ae760000000f00000000000000000000000b0101630000000000000000";

const D_3: &str =
    "5001000100000001000000000000000000000000000000010000000000000005108b92050000000f00000000000000000000000b0101640000000000000003";
/// A message without a tag.
const BARE: &str =
    "50000001000000010000000000000000000000000000000100000000000000067c85c6280000000500000000000000000000000162";

/// A name with its greatest id and its last offset.
type Named = (&'static [u8], Option<u64>, Option<u64>);

/// What a log is, its chunks in hexadecimal, names, how many publishers and consumers have one, and the entry of the
/// snapshot that follows.
type Case = (
    &'static str,
    &'static [&'static str],
    &'static [Named],
    (u64, u64),
    &'static str,
);

const CASES: [Case; 5] = [
    ("no chunk", &[], &[(b"p", None, None)], (0, 0), ""),
    (
        "ids 1 and 3 of p in one chunk",
        &[
            OPENING,
            "50000002000000020000000000000000000000000000000100000000000000014bf5be9e0000000a00000016000000000000000161000000016300017000000000000000010001700000000000000003",
        ],
        &[(b"p", Some(3), None), (b"q", None, None)],
        (1, 0),
        "00017000000000000000010000000000000003",
    ),
    (
        "id 1 of p before a new epoch",
        &[
            OPENING,
            "5000000100000001000000000000000000000000000000010000000000000001e58c9792000000050000000b0000000000000001610001700000000000000001",
        ],
        &[(b"p", Some(1), None)],
        (1, 0),
        "00017000000000000000010000000000000001",
    ),
    (
        "a repeated id, two consumers, one of them twice, and no tag",
        &[P_4, P_7, D_1, P_7_AGAIN, C_0, D_3, BARE],
        &[
            (b"p", Some(7), None),
            (b"c", None, Some(0)),
            (b"d", None, Some(3)),
        ],
        (1, 2),
        "0001700000000000000001000000000000000701016400000000000000030101630000000000000000",
    ),
    (
        "chunks behind a snapshot, with an id in a delta chunk, which is not tracked",
        &[
            P_4,
            P_7,
            D_1,
            P_7_AGAIN,
            C_0,
            D_3,
            BARE,
            "5002000100000001000000000000000000000000000000020000000000000007d0727d0e0000002d0000000000000000000000290001700000000000000001000000000000000701016400000000000000030101630000000000000000",
            "5000000200000002000000000000000000000000000000020000000000000008924e14b70000000a00000016000000000000000178000000017900017100000000000000020001710000000000000009",
            "500100010000000100000000000000000000000000000002000000000000000a08c4244d0000000f00000000000000000000000b0101700000000000000005",
            "5001000100000001000000000000000000000000000000010000000000000001c0fcb7a60000000f00000000000000000000000b0001700000000000000009",
        ],
        &[
            (b"p", Some(7), Some(5)),
            (b"q", Some(9), None),
            (b"c", None, Some(0)),
            (b"d", None, Some(3)),
        ],
        (2, 3),
        "0001700000000000000001000000000000000700017100000000000000080000000000000009010164000000000000000301016300000000000000000101700000000000000005",
    ),
];

/// Snapshots of these chunks and their places: one that lists c before d, and one of no chunk that names p.
const UNTRUTHFUL: [(&[&str], usize); 2] = [
    (
        &[
            P_4,
            P_7,
            D_1,
            P_7_AGAIN,
            C_0,
            D_3,
            "5002000100000001000000000000000000000000000000020000000000000007bbc0351e0000002d0000000000000000000000290001700000000000000001000000000000000701016300000000000000000101640000000000000003",
        ],
        6,
    ),
    (
        &[
            "5002000100000001000000000000000000000000000000010000000000000000c12e8aaf0000001700000000000000000000001300017000000000000000000000000000000001",
            P_7,
        ],
        0,
    ),
];

fn stored(alloc: Global, text: &str) -> Result<Stored, Fail> {
    let bytes = hex::decode(alloc, text)?;
    Ok(Stored::read(alloc, bytes.as_slice())?.stored)
}

fn log_of(alloc: Global, chunks: &[&str]) -> Result<Vec<Stored>, Fail> {
    let mut log = Vec::new(alloc);
    for text in chunks {
        log.push(stored(alloc, text)?).map_err(|_| "no memory")?;
    }
    Ok(log)
}

/// The bytes of a simple entry's body.
fn has_body<R: Abort>(
    rt: &R,
    alloc: Global,
    entry: &Entry,
    text: &str,
    name: &str,
) -> Result<(), Fail> {
    let body = hex::decode(alloc, text)?;
    match entry {
        Entry::Simple(found) => assert_eq!(rt; found.as_slice(), body.as_slice(), "{name}"),
        _ => panic!(rt; "a sub-batch in {name}"),
    }
    Ok(())
}

fn has_names<R: Abort>(rt: &R, tracking: &Tracking, names: &[Named], name: &str) {
    for (of, greatest, last) in names {
        assert_eq!(rt; tracking.greatest(of), *greatest, "{name}");
        assert_eq!(rt; tracking.stored(of), *last, "{name}");
    }
}

/// A snapshot lists this.
fn has_entry<R: Abort>(
    rt: &R,
    alloc: Global,
    tracking: &Tracking,
    text: &str,
    name: &str,
) -> Result<(), Fail> {
    let len = tracking.snapshot_len();
    assert_eq!(rt; len, text.len() as u64 / 2, "{name}");
    if len >= 0x8000_0000 {
        return Err("a long snapshot".into());
    }
    let entry = tracking.snapshot_entry(alloc)?;
    has_body(rt, alloc, &entry, text, name)
}

/// What is tracked has these names, and a snapshot lists this.
fn says<R: Abort>(rt: &R, alloc: Global, tracking: &Tracking, case: &Case) -> Result<(), Fail> {
    has_names(rt, tracking, case.2, case.0);
    assert_eq!(rt; tracking.names(), case.3, "{}", case.0);
    has_entry(rt, alloc, tracking, case.4, case.0)
}

/// From the last snapshot on it is the same.
fn is_read_again<R: Abort>(rt: &R, alloc: Global, log: &[Stored], case: &Case) -> Result<(), Fail> {
    match first_untruthful(alloc, log)? {
        None => {
            let tracking = Tracking::of_log(alloc, log)?;
            says(rt, alloc, &tracking, case)
        }
        Some(_) => Err("an untruthful snapshot".into()),
    }
}

fn is_tracked<R: Abort>(rt: &R, alloc: Global, case: &Case) -> Result<(), Fail> {
    let log = log_of(alloc, case.1)?;
    let mut tracking = Tracking::empty(alloc);
    for chunk in &log {
        tracking.apply(chunk)?;
    }
    says(rt, alloc, &tracking, case)?;
    is_read_again(rt, alloc, log.as_slice(), case)
}

#[test]
fn known_logs_are_tracked(rt: HostRuntime) -> Result<(), Fail> {
    for case in &CASES {
        is_tracked(&rt, rt.alloc(), case)?;
    }
    Ok(())
}

#[test]
fn untruthful_snapshots_are_found(rt: HostRuntime) -> Result<(), Fail> {
    let alloc = rt.alloc();
    for (chunks, place) in UNTRUTHFUL {
        let log = log_of(alloc, chunks)?;
        assert_eq!(rt; first_untruthful(alloc, &log)?, Some(place));
    }
    Ok(())
}
