//! Sessions over a hub in memory.

use crate::answer::{CLOSED, MEMORY, MISSING};
use crate::consumer_tables::{DELIVERING, DELIVERING_SECOND, STORING, TURNING};
use crate::opening_tables::{
    BROKEN_LOGIN, CLOSING, CREDITS, EARLY_FRAME, HANGING_UP, LARGEST_FRAME, LOGINS, SILENCE,
    TOO_LARGE_FRAME, UNKNOWN_FRAME, WRONG_LOGIN,
};
use crate::step::{Step, wrong_in};
use crate::stream_tables::{CREATING, LOSING, PARTITIONED, PREPARED, PUBLISHING, TEXTS};
use crate::talk::{Talk, new_talk, prepared_on, prepared_talk};
use std::alloc::{AllocError, Global};

const RIGHT: (usize, usize, i64) = (0, 0, 0);

const DIALOGUES: [&[&[(Step, i64)]]; 20] = [
    SILENCE,
    LOGINS,
    WRONG_LOGIN,
    BROKEN_LOGIN,
    LARGEST_FRAME,
    TOO_LARGE_FRAME,
    UNKNOWN_FRAME,
    EARLY_FRAME,
    CREDITS,
    TEXTS,
    CREATING,
    PARTITIONED,
    PUBLISHING,
    DELIVERING,
    STORING,
    DELIVERING_SECOND,
    TURNING,
    LOSING,
    CLOSING,
    HANGING_UP,
];

// What `wrong_in` tells of a session.
fn wrong_with(
    alloc: Global,
    talk: Result<Talk, AllocError>,
    parts: &[&[(Step, i64)]],
    one_by_one: bool,
) -> (usize, usize, i64) {
    match talk {
        Ok(mut talk) => wrong_in(alloc, &mut talk, parts, one_by_one),
        Err(_) => (0, 0, MEMORY),
    }
}

// What `wrong_in` tells of a new session.
fn wrong_of(alloc: Global, parts: &[&[(Step, i64)]], one_by_one: bool) -> (usize, usize, i64) {
    wrong_with(alloc, new_talk(alloc), parts, one_by_one)
}

// What `wrong_in` tells of a prepared one.
fn wrong_prepared(alloc: Global, one_by_one: bool) -> (usize, usize, i64) {
    wrong_with(alloc, prepared_talk(alloc), PREPARED, one_by_one)
}

#[test]
fn dialogues_go_as_told(rt: HostRuntime) {
    for at in 0..DIALOGUES.len() {
        assert_eq!(rt;
            wrong_of(rt.alloc(), DIALOGUES[at], false),
            RIGHT,
            "dialogue {at}"
        );
    }
}

#[test]
fn bytes_one_by_one_have_the_same_answers(rt: HostRuntime) {
    for at in 0..DIALOGUES.len() {
        assert_eq!(rt;
            wrong_of(rt.alloc(), DIALOGUES[at], true),
            RIGHT,
            "dialogue {at}"
        );
    }
}

#[test]
fn a_session_is_prepared_where_an_epoch_runs(rt: HostRuntime) {
    assert_eq!(rt; wrong_prepared(rt.alloc(), false), RIGHT);
    assert_eq!(rt; wrong_prepared(rt.alloc(), true), RIGHT);
    assert_eq!(rt; prepared_on(rt.alloc(), b"x", true), MISSING);
    assert_eq!(rt; prepared_on(rt.alloc(), b"s", false), CLOSED);
}
