use crate::chunks::Log;
use crate::played::{Played, Step};
use Step::{
    Committed, Confirms, Declare, Elect, Greatest, Held, Offer, Restart, Running, Settle, Stop,
    Store, Stored,
};
use frame_wire::Limits;
use std::alloc::Global;
use std::test::Fail;

/// A call, and what it answers.
type Case = (Step, u64);

/// Ids rise, and a repeat is confirmed when the list has the first copy.
const NAMED: &[Case] = &[
    (Declare(b"p"), 1_000_000),
    (Elect, 1),
    (Settle, 0),
    (Running, 1),
    (Committed, 1),
    (Declare(b"p"), 0),
    (Offer(&[1, 3, 2]), 3_002),
    (Confirms, 0),
    (Offer(&[1, 3, 2]), 3_000),
    (Confirms, 0),
    (Greatest(b"p"), 0),
    (Settle, 0),
    (Committed, 2),
    (Confirms, 2_012),
    (Confirms, 0),
    (Greatest(b"p"), 3),
    (Greatest(b"q"), 0),
    (Offer(&[3]), 3_000),
    (Confirms, 1_003),
    (Offer(&[4]), 4_001),
    (Settle, 0),
    (Greatest(b"p"), 4),
    (Store(2), 5_001),
    (Stored, 0),
    (Settle, 0),
    (Stored, 2),
    (Confirms, 1_004),
];

/// A queue of one chunk is full with one, and a pass is of use while its epoch runs.
const FULL: &[Case] = &[
    (Elect, 1),
    (Settle, 0),
    (Declare(b""), 0),
    (Offer(&[1]), 2_001),
    (Offer(&[2]), 7_000_001),
    (Settle, 0),
    (Confirms, 1_001),
    (Offer(&[2]), 3_001),
    (Settle, 0),
    (Elect, 1),
    (Settle, 0),
    (Running, 2),
    (Offer(&[3]), 1_001_002),
    (Confirms, 1_002),
    (Declare(b""), 1),
    (Offer(&[3]), 5_001),
];

/// A member comes up with what was left on its disk, and with nothing else.
const BACK: &[Case] = &[
    (Stop(3), 1),
    (Stop(3), 2),
    (Held(3), 9_000_000),
    (Restart(3, 1, Log::Empty), 5_001_000),
    (Restart(3, 1, Log::Opened(0)), 1),
    (Restart(3, 1, Log::Opened(0)), 2),
    (Held(3), 1),
];

fn is_case(played: &mut Played, case: &Case) -> bool {
    let (step, wanted) = *case;
    played.answer(step) == wanted
}

/// The place of the first case that answers something else, or their number.
fn held(played: &mut Played, cases: &[Case]) -> usize {
    let mut held = 0usize;
    for case in cases {
        if !is_case(played, case) {
            return held;
        }
        held = held.saturating_add(1);
    }
    held
}

fn with_queue(queue: u32) -> Limits {
    Limits {
        members: 3,
        streams: 16,
        log_bytes: 67_108_864,
        queue,
        references: 1024,
        consumers: 1024,
    }
}

/// How many cases a new stream of such a queue answers as they say.
fn new_held(alloc: Global, queue: u32, cases: &[Case]) -> usize {
    match Played::new(alloc, with_queue(queue)) {
        Ok(played) => held_by(played, cases),
        Err(_) => 1_000,
    }
}

fn held_by(mut played: Played, cases: &[Case]) -> usize {
    held(&mut played, cases)
}

#[test]
fn named_ids_rise(rt: HostRuntime) {
    assert_eq!(rt; new_held(rt.alloc(), 4096, NAMED), 27);
}

#[test]
fn a_full_queue_refuses(rt: HostRuntime) {
    assert_eq!(rt; new_held(rt.alloc(), 1, FULL), 16);
}

#[test]
fn a_member_comes_up_with_what_it_left(rt: HostRuntime) -> Result<(), Fail> {
    let played = Played::over(rt.alloc(), Limits::standard(), 1, Log::Opened(0))?;
    assert_eq!(rt; held_by(played, BACK), 7);
    Ok(())
}
