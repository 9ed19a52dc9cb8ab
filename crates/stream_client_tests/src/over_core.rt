//! A client's core.

use crate::answer::MEMORY;
use crate::dialogue::{new_client, told_behind, wrong_in};
use crate::faults::{EARLY_FAULTS, FAULTS};
use crate::losses::{confirmed_of_cut, confirms_all, fill, sent_anew};
use crate::step::Step;
use crate::tables::{
    BEGINNING_BEHIND_1, FROM_BEHIND, FROM_INSIDE, GREETING, RESUMING, SUBSCRIBING, WISHING,
};
use std::alloc::Global;
use std::test::Fail;

const RIGHT: (usize, usize, i64) = (0, 0, 0);

// Up to which id all is confirmed at the beginning, and the dialogue.
const DIALOGUES: [(u64, &[&[(Step, i64)]]); 5] = [
    (0, RESUMING),
    (1, BEGINNING_BEHIND_1),
    (7, WISHING),
    (0, FROM_INSIDE),
    (0, FROM_BEHIND),
];

// What `wrong_in` tells of a new client.
fn wrong_of(alloc: Global, confirmed: u64, parts: &[&[(Step, i64)]]) -> (usize, usize, i64) {
    match new_client(alloc, confirmed) {
        Ok(mut core) => wrong_in(alloc, &mut core, parts),
        Err(_) => (0, 0, MEMORY),
    }
}

// What a new client tells of a frame behind a dialogue.
fn fault_of(alloc: Global, parts: &[&[(Step, i64)]], frame: &'static str) -> i64 {
    match new_client(alloc, 0) {
        Ok(mut core) => told_behind(alloc, &mut core, parts, Step::Hear(frame)),
        Err(_) => MEMORY,
    }
}

#[test]
fn dialogues_go_as_told(rt: HostRuntime) {
    for at in 0..DIALOGUES.len() {
        let (confirmed, parts) = DIALOGUES[at];
        assert_eq!(rt;
            wrong_of(rt.alloc(), confirmed, parts),
            RIGHT,
            "dialogue {at}"
        );
    }
}

#[test]
fn each_fault_has_its_frame(rt: HostRuntime) {
    for at in 0..FAULTS.len() {
        let (frame, fault) = FAULTS[at];
        assert_eq!(rt;
            fault_of(rt.alloc(), SUBSCRIBING, frame),
            fault,
            "fault {at}"
        );
    }
    for at in 0..EARLY_FAULTS.len() {
        let (frame, fault) = EARLY_FAULTS[at];
        assert_eq!(rt;
            fault_of(rt.alloc(), GREETING, frame),
            fault,
            "early fault {at}"
        );
    }
}

#[test]
fn a_connection_is_lost_after_each_byte_of_a_confirm(rt: HostRuntime) -> Result<(), Fail> {
    let mut core = new_client(rt.alloc(), 0)?;
    assert_eq!(rt; fill(&mut core, 10_000), 10_000);
    for count in 0..21 {
        assert_eq!(rt;
            confirmed_of_cut(rt.alloc(), &mut core, count),
            0,
            "at {count}"
        );
    }
    assert_eq!(rt; confirmed_of_cut(rt.alloc(), &mut core, 21), 1);
    assert_eq!(rt; sent_anew(rt.alloc(), &mut core, 2), 256);
    assert_eq!(rt; confirms_all(rt.alloc(), &mut core, 2, 100), 9_743);
    assert_eq!(rt; core.confirmed(), 10_000);
    assert!(rt; core.is_done());
    Ok(())
}
