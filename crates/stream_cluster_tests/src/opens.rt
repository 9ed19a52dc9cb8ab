use crate::answers::open_fault;
use crate::chunks::{Log, three};
use Log::{Empty, Opened, Untruthful};
use frame_wire::Limits;
use std::alloc::Global;
use stream_cluster::Cluster;

/// An opening of a test: the promise of all members, the epoch, the logs by member, and what comes of it.
type Case = (u64, u64, Log, Log, Log, u64);

const TOGETHER: &[Case] = &[
    (0, 0, Empty, Empty, Empty, 0),
    (1, 1, Opened(0), Opened(0), Opened(0), 0),
    (1, 1, Opened(0), Empty, Opened(0), 0),
    (1, 2, Opened(5), Opened(5), Empty, 0),
];

const APART: &[Case] = &[
    (1, 1, Opened(0), Opened(1), Empty, 1_120_000),
    (1, 1, Opened(0), Empty, Opened(1), 1_130_000),
    (1, 1, Empty, Opened(0), Opened(1), 1_230_000),
    (1, 0, Opened(0), Opened(0), Opened(0), 3_101_000),
    (1, 0, Opened(0), Opened(1), Opened(0), 3_101_000),
];

const BROKEN: &[Case] = &[
    (1, 1, Untruthful, Empty, Empty, 2_001_000),
    (1, 0, Opened(0), Opened(1), Untruthful, 2_003_000),
    (0, 1, Empty, Opened(0), Empty, 2_002_000),
];

/// What an opening comes to: 0 where there is a stream.
fn opened(alloc: Global, promise: u64, epoch: u64, one: Log, two: Log, other: Log) -> u64 {
    let Ok(starts) = three(alloc, promise, one, two, other) else {
        return 9_000_000;
    };
    match Cluster::open(alloc, 1, Limits::standard(), starts, epoch) {
        Ok(_) => 0,
        Err(fault) => open_fault(fault),
    }
}

fn is_case(alloc: Global, case: &Case) -> bool {
    let (promise, epoch, one, two, other, wanted) = *case;
    opened(alloc, promise, epoch, one, two, other) == wanted
}

/// The place of the first case that comes to something else, or their number.
fn held(alloc: Global, cases: &[Case]) -> usize {
    let mut held = 0usize;
    for case in cases {
        if !is_case(alloc, case) {
            return held;
        }
        held = held.saturating_add(1);
    }
    held
}

#[test]
fn logs_that_stand_together_are_opened(rt: HostRuntime) {
    assert_eq!(rt; held(rt.alloc(), TOGETHER), 4);
}

#[test]
fn logs_that_cannot_stand_together(rt: HostRuntime) {
    assert_eq!(rt; held(rt.alloc(), APART), 5);
}

#[test]
fn an_untruthful_snapshot_is_broken(rt: HostRuntime) {
    assert_eq!(rt; held(rt.alloc(), BROKEN), 3);
}
