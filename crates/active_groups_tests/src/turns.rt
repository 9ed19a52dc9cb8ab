//! Consumers that take turns.

use active_groups::{Change, ConsumerId, GroupState, Groups};
use frame_wire::Text;
use std::alloc::Global;
use std::process::Abort;
use std::test::Fail;

/// The consumer of a session's first subscription.
pub fn consumer_of(session: u32) -> ConsumerId {
    ConsumerId { session, serial: 0 }
}

/// Joins the group of that name on stream 1; whether it did. One that is in a group does not.
pub fn join(groups: &mut Groups, name: &Text, index: u32, consumer: ConsumerId) -> bool {
    match groups.state(consumer) {
        None => groups.join(1, name, index, consumer).is_ok(),
        Some(_) => false,
    }
}

/// The session's consumer is told, and nobody else of these many sessions.
pub fn is_told<R: Abort>(rt: &R, groups: &mut Groups, session: u32, active: bool) {
    let change = Change {
        consumer: consumer_of(session),
        active,
    };
    assert_eq!(rt; groups.poll(session), Some(change), "session {session}");
    assert_eq!(rt; groups.poll(session), None, "session {session} again");
}

/// The session's consumer answers what it was told, and its second answer is not awaited.
pub fn answers<R: Abort>(rt: &R, groups: &mut Groups, session: u32, state: GroupState) {
    assert!(rt; groups.answered(consumer_of(session)), "session {session}");
    assert!(rt;
        !groups.answered(consumer_of(session)),
        "session {session} again"
    );
    assert_eq!(rt;
        groups.state(consumer_of(session)),
        Some(state),
        "session {session}"
    );
}

/// Nobody of four sessions is told anything.
pub fn is_at_rest<R: Abort>(rt: &R, groups: &mut Groups) {
    for session in 0..4 {
        assert_eq!(rt; groups.poll(session), None, "session {session}");
    }
}

#[test]
fn one_active_consumer_at_a_time(rt: HostRuntime) -> Result<(), Fail> {
    let alloc: Global = rt.alloc();
    let name = Text::copy(alloc, b"g")?;
    let first = ConsumerId {
        session: 1,
        serial: 0,
    };
    let second = ConsumerId {
        session: 1,
        serial: 1,
    };
    let mut groups = Groups::new(alloc);
    assert!(rt; join(&mut groups, &name, 0, first));
    assert!(rt; join(&mut groups, &name, 0, second));
    assert_eq!(rt;
        groups.poll(1),
        Some(Change {
            consumer: first,
            active: true
        })
    );
    assert_eq!(rt; groups.state(first), Some(GroupState::Starting));
    assert_eq!(rt; groups.state(second), Some(GroupState::Waiting));
    groups.leave(first);
    assert_eq!(rt;
        groups.poll(1),
        Some(Change {
            consumer: second,
            active: true
        })
    );
    assert!(rt; !groups.answered(first), "a late answer");
    assert!(rt; groups.answered(second));
    assert_eq!(rt; groups.state(second), Some(GroupState::Active));
    Ok(())
}

/// Index in the super stream, number of consumers, and which of them is wanted.
const WANTED: [(u32, u32, u32); 12] = [
    (0, 1, 0),
    (0, 2, 0),
    (0, 3, 0),
    (0, 4, 0),
    (1, 1, 0),
    (1, 2, 1),
    (1, 3, 1),
    (1, 4, 1),
    (2, 1, 0),
    (2, 2, 0),
    (2, 3, 2),
    (2, 4, 2),
];

/// So many consumers join, one a session; the wanted one is told at once, and is active once it answered.
fn starts_wanted<R: Abort>(rt: &R, groups: &mut Groups, index: u32, consumers: u32, wanted: u32) {
    let name = Text::null();
    for session in 0..consumers {
        assert!(rt;
            join(groups, &name, index, consumer_of(session)),
            "session {session}"
        );
    }
    is_told(rt, groups, wanted, true);
    is_at_rest(rt, groups);
    answers(rt, groups, wanted, GroupState::Active);
    is_at_rest(rt, groups);
}

#[test]
fn the_wanted_consumer_starts(rt: HostRuntime) {
    for (index, consumers, wanted) in WANTED {
        let mut groups = Groups::new(rt.alloc());
        starts_wanted(&rt, &mut groups, index, consumers, wanted);
    }
}

#[test]
fn the_next_starts_once_the_one_before_answered(rt: HostRuntime) {
    let name = Text::null();
    let mut groups = Groups::new(rt.alloc());
    assert!(rt; join(&mut groups, &name, 2, consumer_of(0)));
    is_told(&rt, &mut groups, 0, true);
    assert!(rt; join(&mut groups, &name, 2, consumer_of(1)));
    assert!(rt;
        join(&mut groups, &name, 0, consumer_of(2)),
        "the group keeps its index"
    );
    is_at_rest(&rt, &mut groups);
    answers(&rt, &mut groups, 0, GroupState::Active);
    is_told(&rt, &mut groups, 0, false);
    is_at_rest(&rt, &mut groups);
    answers(&rt, &mut groups, 0, GroupState::Waiting);
    is_told(&rt, &mut groups, 2, true);
    is_at_rest(&rt, &mut groups);
    answers(&rt, &mut groups, 2, GroupState::Active);
    is_at_rest(&rt, &mut groups);
}
