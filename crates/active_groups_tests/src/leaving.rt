//! Consumers that leave.

use crate::turns::{answers, consumer_of, is_at_rest, is_told, join};
use active_groups::{ConsumerId, GroupState, Groups};
use frame_wire::Text;
use std::alloc::{AllocError, Global};
use std::process::Abort;
use std::test::Fail;

/// Two consumers of sessions 0 and 1, of which the second is wanted; the first joined alone and came to a state.
fn two_consumers<R: Abort>(rt: &R, groups: &mut Groups, state: GroupState) {
    let name = Text::null();
    assert!(rt; join(groups, &name, 1, consumer_of(0)));
    if state != GroupState::Waiting {
        is_told(rt, groups, 0, true);
    }
    if state == GroupState::Active || state == GroupState::Stopping {
        answers(rt, groups, 0, GroupState::Active);
    }
    assert!(rt; join(groups, &name, 1, consumer_of(1)));
    if state == GroupState::Stopping {
        is_told(rt, groups, 0, false);
    }
    assert_eq!(rt; groups.state(consumer_of(0)), Some(state), "{state:?}");
}

/// The first one leaves in this state, and its answer is not awaited any more; the other is told to start.
fn leaves<R: Abort>(rt: &R, groups: &mut Groups, state: GroupState) {
    two_consumers(rt, groups, state);
    groups.leave(consumer_of(0));
    assert_eq!(rt; groups.state(consumer_of(0)), None, "{state:?}");
    assert!(rt; !groups.answered(consumer_of(0)), "{state:?}");
    is_told(rt, groups, 1, true);
    answers(rt, groups, 1, GroupState::Active);
    is_at_rest(rt, groups);
}

const STATES: [GroupState; 4] = [
    GroupState::Waiting,
    GroupState::Starting,
    GroupState::Active,
    GroupState::Stopping,
];

#[test]
fn a_consumer_leaves_in_each_state(rt: HostRuntime) {
    for state in STATES {
        let mut groups = Groups::new(rt.alloc());
        leaves(&rt, &mut groups, state);
    }
}

#[test]
fn a_group_goes_with_its_last_consumer(rt: HostRuntime) {
    let name = Text::null();
    let mut groups = Groups::new(rt.alloc());
    assert!(rt; join(&mut groups, &name, 0, consumer_of(0)));
    groups.leave(consumer_of(1));
    groups.leave(consumer_of(0));
    assert!(rt;
        join(&mut groups, &name, 1, consumer_of(0)),
        "into a new group, with another index"
    );
    assert!(rt; join(&mut groups, &name, 1, consumer_of(1)));
    is_told(&rt, &mut groups, 1, true);
}

/// A name of so many bytes.
fn long_name(alloc: Global, len: u16) -> Result<Text, AllocError> {
    let mut bytes = Vec::new(alloc);
    for _ in 0..len {
        bytes.push(0x67)?;
    }
    Text::copy(alloc, bytes.as_slice()).map_err(|_| AllocError)
}

#[test]
fn many_consumers_of_a_long_name(rt: HostRuntime) -> Result<(), Fail> {
    let name = long_name(rt.alloc(), 32_767)?;
    let mut groups = Groups::new(rt.alloc());
    for serial in 0..1024 {
        let consumer = ConsumerId { session: 9, serial };
        assert!(rt;
            join(&mut groups, &name, 1023, consumer),
            "consumer {serial}"
        );
    }
    let last = ConsumerId {
        session: 9,
        serial: 1023,
    };
    assert!(rt; groups.poll(9).is_some());
    assert_eq!(rt; groups.state(last), Some(GroupState::Starting));
    Ok(())
}
