use crate::leader::{items_from, open_leader, outcome, snapshots, work};
use frame_wire::Limits;
use member_core::Member;
use std::alloc::{AllocError, Global};
use std::test::Fail;

/// An offer of a test: the publisher's name, the first id, the number of items, what comes of it, and where the sequence
/// ends then.
type Case = (&'static [u8], u64, u64, u64, u64);

/// Ids rise: a repeat is left out, and what is new is taken. Without a name nothing is left out.
const NAMED: &[Case] = &[
    (b"p", 1, 3, 3, 4),
    (b"p", 1, 3, 0, 4),
    (b"p", 2, 4, 2, 6),
    (b"q", 2, 4, 4, 10),
    (b"", 1, 3, 3, 13),
    (b"", 1, 3, 3, 16),
    (b"p", 5, 1, 0, 16),
];

/// A queue of one chunk is full with one; an offer of which nothing is taken adds nothing.
const FULL: &[Case] = &[
    (b"p", 1, 3, 3, 4),
    (b"p", 4, 1, 7_000_000, 4),
    (b"p", 2, 2, 0, 4),
    (b"", 1, 5000, 7_000_000, 4),
];

/// One publisher is enough: another one is refused, and one without a name is not.
const NAMES: &[Case] = &[
    (b"p", 1, 1, 1, 2),
    (b"q", 1, 1, 4_000_000, 2),
    (b"", 1, 1, 1, 3),
    (b"p", 2, 1, 1, 4),
];

/// Publishers are looked at before bytes, and bytes before the queue.
const BYTES: &[Case] = &[
    (b"p", 1, 1, 1, 2),
    (b"q", 1, 4097, 4_000_000, 2),
    (b"p", 2, 4097, 6_000_000, 2),
    (b"p", 2, 1, 7_000_000, 2),
];

/// A chunk has at most 4,096 entries, and a large offer is taken whole.
const LARGE: &[Case] = &[
    (b"", 1, 70_000, 70_000, 70_001),
    (b"p", 1, 4097, 4097, 74_098),
];

fn is_case(
    alloc: Global,
    leader: &mut Member,
    limits: &Limits,
    case: &Case,
) -> Result<bool, AllocError> {
    let (name, first, count, wanted, end) = *case;
    let items = items_from(alloc, first, count)?;
    let came = outcome(alloc, leader, limits, name, items.as_slice());
    Ok(came == wanted && leader.end() == end)
}

/// Whether each offer comes to what is wanted.
fn are_cases(
    alloc: Global,
    leader: &mut Member,
    limits: &Limits,
    cases: &[Case],
) -> Result<bool, AllocError> {
    for case in cases {
        if !is_case(alloc, leader, limits, case)? {
            return Ok(false);
        }
    }
    Ok(true)
}

fn with_limits(queue: u32, references: u32, log_bytes: u64) -> Limits {
    Limits {
        members: 3,
        streams: 16,
        log_bytes,
        queue,
        references,
        consumers: 1024,
    }
}

/// Whether a new leader, with these limits, comes to what is wanted of each offer.
fn comes_to(alloc: Global, limits: &Limits, cases: &[Case]) -> Result<bool, AllocError> {
    let mut leader = open_leader(alloc)?;
    are_cases(alloc, &mut leader, limits, cases)
}

/// A leader writes each of so many offers of one item before the next: where its sequence ends, and how many snapshots are in
/// its log.
fn end_of_singles(alloc: Global, count: u64) -> Result<(u64, u64), AllocError> {
    let mut leader = open_leader(alloc)?;
    let items = items_from(alloc, 1, 1)?;
    for _ in 0..count {
        outcome(
            alloc,
            &mut leader,
            &Limits::standard(),
            b"",
            items.as_slice(),
        );
        work(&mut leader)?;
        work(&mut leader)?;
    }
    Ok((leader.end(), snapshots(&leader)))
}

#[test]
fn named_ids_rise_and_repeats_are_left_out(rt: HostRuntime) -> Result<(), Fail> {
    assert!(rt; comes_to(rt.alloc(), &Limits::standard(), NAMED)?);
    Ok(())
}

#[test]
fn a_full_queue_refuses(rt: HostRuntime) -> Result<(), Fail> {
    assert!(rt; comes_to(rt.alloc(), &with_limits(1, 1024, 67_108_864), FULL)?);
    assert!(rt; comes_to(rt.alloc(), &with_limits(4096, 1, 67_108_864), NAMES)?);
    assert!(rt; comes_to(rt.alloc(), &with_limits(1, 1, 300), BYTES)?);
    Ok(())
}

#[test]
fn a_large_offer_is_taken_whole(rt: HostRuntime) -> Result<(), Fail> {
    assert!(rt; comes_to(rt.alloc(), &Limits::standard(), LARGE)?);
    Ok(())
}

#[test]
fn a_snapshot_follows_the_1024th_chunk(rt: HostRuntime) -> Result<(), Fail> {
    assert_eq!(rt; end_of_singles(rt.alloc(), 1023)?, (1024, 1));
    assert_eq!(rt; end_of_singles(rt.alloc(), 1024)?, (1026, 2));
    Ok(())
}
