//! Dialogues, in parts: each step with its answer.

use crate::answer::{DONE, NONE};
use crate::frames::{
    ASK_MECHANISMS, ASK_PEER, ASK_VERSIONS, CONFIRM_1, CONFIRM_2, CONFIRM_3_4, CREATE, CREATED,
    CREDIT, DECLARE, DECLARE_7, DECLARED, DELIVERY, DELIVERY_9, HOST, LOGIN, MECHANISMS, OPEN_HOST,
    PEER, PUBLISH_1, PUBLISH_2, PUBLISH_3, PUBLISH_8, QUERY_7, SEQUENCE_7, SUBSCRIBE_0,
    SUBSCRIBE_2, SUBSCRIBE_4, SUBSCRIBED, SUBSCRIBED_7, TUNE, TUNED, VERSIONS, WELCOME,
};
use crate::step::Step;

/// A connection is opened.
pub const OPENING: &[(Step, i64)] = &[
    (Step::Rest, NONE),
    (Step::Connect, DONE),
    (Step::Send(ASK_PEER), DONE),
    (Step::Rest, NONE),
    (Step::Hear(PEER), DONE),
    (Step::Send(ASK_MECHANISMS), DONE),
    (Step::Hear(MECHANISMS), DONE),
    (Step::Send(LOGIN), DONE),
    (Step::Hear(WELCOME), DONE),
    (Step::Rest, NONE),
    (Step::Hear(TUNE), DONE),
    (Step::Send(TUNED), DONE),
    (Step::Send(OPEN_HOST), DONE),
    (Step::Hear(HOST), DONE),
    (Step::Send(ASK_VERSIONS), DONE),
    (Step::Hear(VERSIONS), DONE),
];

/// The publisher is declared, right behind the opening.
pub const DECLARATION: &[(Step, i64)] = &[
    (Step::Send(DECLARE), DONE),
    (Step::Hear(DECLARED), DONE),
];

const THREE_QUEUED: &[(Step, i64)] = &[
    (Step::Done, 1),
    (Step::Queue(b"a"), 1),
    (Step::Queue(b"b"), 2),
    (Step::Queue(b"c"), 3),
    (Step::Done, 0),
];

const FIRST_CONFIRMED: &[(Step, i64)] = &[
    (Step::Send(PUBLISH_1), DONE),
    (Step::Send(PUBLISH_2), DONE),
    (Step::Send(PUBLISH_3), DONE),
    (Step::Rest, NONE),
    (Step::Hear(CONFIRM_1), DONE),
    (Step::Confirmed, 1),
    (Step::Lose, DONE),
];

const OTHERS_CONFIRMED: &[(Step, i64)] = &[
    (Step::Send(PUBLISH_2), DONE),
    (Step::Send(PUBLISH_3), DONE),
    (Step::Rest, NONE),
    (Step::Hear(CONFIRM_3_4), DONE),
    (Step::Confirmed, 1),
    (Step::Hear(CONFIRM_2), DONE),
    (Step::Confirmed, 3),
    (Step::Rest, NONE),
    (Step::Done, 1),
];

/// Three messages are sent and the first is confirmed; after a loss the others are sent again, and confirmed the last first.
pub const RESUMING: &[&[(Step, i64)]] = &[
    THREE_QUEUED,
    OPENING,
    DECLARATION,
    FIRST_CONFIRMED,
    OPENING,
    DECLARATION,
    OTHERS_CONFIRMED,
];

/// A client that begins with 1 as confirmed.
pub const BEGINNING_BEHIND_1: &[&[(Step, i64)]] = &[
    &[(Step::Confirmed, 1), (Step::Queue(b"b"), 2)],
    OPENING,
    DECLARATION,
    &[(Step::Send(PUBLISH_2), DONE), (Step::Rest, NONE)],
];

const WISHES: &[(Step, i64)] = &[
    (Step::Query, DONE),
    (Step::Queue(b"a"), 8),
    (Step::Create, DONE),
    (Step::Answer, NONE),
    (Step::Done, 0),
];

const CREATED_FIRST: &[(Step, i64)] = &[
    (Step::Send(CREATE), DONE),
    (Step::Hear(CREATED), DONE),
    (Step::Send(DECLARE_7), DONE),
    (Step::Rest, NONE),
    (Step::Lose, DONE),
];

const ASKED_AGAIN: &[(Step, i64)] = &[
    (Step::Send(QUERY_7), DONE),
    (Step::Send(PUBLISH_8), DONE),
    (Step::Rest, NONE),
    (Step::Hear(SEQUENCE_7), DONE),
    (Step::Answer, 7),
    (Step::Confirmed, 7),
    (Step::Rest, NONE),
];

/// The stream is made first, then the publisher is declared, then the query is asked: what a loss left without an answer is
/// asked for again. Of a client that begins with 7 as confirmed.
pub const WISHING: &[&[(Step, i64)]] = &[
    WISHES,
    OPENING,
    CREATED_FIRST,
    OPENING,
    DECLARATION,
    ASKED_AGAIN,
];

/// A subscription from the offset 2 on, which is inside a sub-batch.
pub const FROM_INSIDE: &[&[(Step, i64)]] = &[
    &[(Step::Subscribe(2, 1), DONE)],
    OPENING,
    &[
        (Step::Send(SUBSCRIBE_2), DONE),
        (Step::Hear(SUBSCRIBED), DONE),
        (Step::Rest, NONE),
        (Step::Hear(DELIVERY), DONE),
        (Step::Send(CREDIT), DONE),
        (Step::Rest, NONE),
        (Step::Take(b"abcdef"), 1_030),
        (Step::Take(b"b"), 4_019),
        (Step::Take(b""), NONE),
        (Step::Committed, NONE),
    ],
];

/// A subscription from behind it, to which the chunk comes in version 2 too.
pub const FROM_BEHIND: &[&[(Step, i64)]] = &[
    &[(Step::Subscribe(4, 1), DONE)],
    OPENING,
    &[
        (Step::Send(SUBSCRIBE_4), DONE),
        (Step::Hear(SUBSCRIBED), DONE),
        (Step::Hear(DELIVERY_9), DONE),
        (Step::Hear(DELIVERY), DONE),
        (Step::Committed, 9),
        (Step::Send(CREDIT), DONE),
        (Step::Send(CREDIT), DONE),
        (Step::Rest, NONE),
        (Step::Take(b"b"), 4_019),
        (Step::Lose, DONE),
        (Step::Take(b"b"), 4_019),
        (Step::Take(b""), NONE),
    ],
];

/// A connection on which a message was sent and a subscription was answered.
pub const SUBSCRIBING: &[&[(Step, i64)]] = &[
    &[(Step::Subscribe(0, 1), DONE), (Step::Queue(b"a"), 1)],
    OPENING,
    DECLARATION,
    &[
        (Step::Send(SUBSCRIBE_0), DONE),
        (Step::Hear(SUBSCRIBED_7), DONE),
        (Step::Send(PUBLISH_1), DONE),
    ],
];

/// A connection on which the first request was sent.
pub const GREETING: &[&[(Step, i64)]] = &[&[(Step::Connect, DONE), (Step::Send(ASK_PEER), DONE)]];
