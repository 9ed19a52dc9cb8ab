//! Dialogues with consumers.

use crate::answer::DONE;
use crate::frames::{
    CONF, CONF_4, CONF_BATCH, CONF_BOTH, CREDIT_0, CREDIT_0_FAULT, DELIVER_2, DELIVER_4,
    DELIVER_A_AND_B, DELIVER_BATCH, DELIVER_SINGLE, NO_NAME, NO_NAME_TOLD, PUB, PUB_4, PUB_B,
    PUB_BATCH, QUERY, QUERY_NONE_TOLD, QUERY_TOLD, STATS, STATS_TOLD, STORE, SUBSCRIBE_2,
    SUBSCRIBE_2_AGAIN_TOLD, SUBSCRIBE_2_TOLD, SUBSCRIBE_FIRST, SUBSCRIBE_FIRST_TOLD,
    SUBSCRIBE_SINGLE_0, SUBSCRIBE_SINGLE_0_TOLD, SUBSCRIBE_SINGLE_1, SUBSCRIBE_SINGLE_1_TOLD,
    UNSUBSCRIBE, UNSUBSCRIBE_3, UNSUBSCRIBE_3_TOLD, UNSUBSCRIBE_AGAIN_TOLD, UNSUBSCRIBE_TOLD,
    UPDATE_0, UPDATE_0_ANSWER, UPDATE_1, UPDATE_1_ANSWER, VERSIONS, VERSIONS_OLD, VERSIONS_TOLD,
};
use crate::opening_tables::{ENTERING, GREETING, LOGGING_IN, TUNING_QUIETLY};
use crate::step::Step;
use crate::stream_tables::{DECLARING, MAKING};

/// A credit is a chunk, whole also where the subscription starts inside it. A second chunk waits for another credit.
pub const DELIVERING: &[&[(Step, i64)]] = &[
    GREETING,
    LOGGING_IN,
    TUNING_QUIETLY,
    ENTERING,
    MAKING,
    DECLARING,
    &[
        (Step::Hear(PUB_BATCH, ""), DONE),
        (Step::Poll(CONF_BATCH), DONE),
        (Step::Hear(SUBSCRIBE_2, SUBSCRIBE_2_TOLD), DONE),
        (Step::Hear(SUBSCRIBE_2, SUBSCRIBE_2_AGAIN_TOLD), DONE),
        (Step::Poll(DELIVER_BATCH), DONE),
        (Step::Hear(PUB_4, ""), DONE),
        (Step::Poll(CONF_4), DONE),
        (Step::Hear(CREDIT_0, ""), DONE),
        (Step::Poll(DELIVER_4), DONE),
        (Step::Hear(CREDIT_0, ""), DONE),
        (Step::Poll(""), DONE),
        (Step::Hear(UNSUBSCRIBE, UNSUBSCRIBE_TOLD), DONE),
        (Step::Hear(UNSUBSCRIBE, UNSUBSCRIBE_AGAIN_TOLD), DONE),
        (Step::Hear(CREDIT_0, CREDIT_0_FAULT), DONE),
    ],
];

/// Two messages, and between them an offset that a consumer stored.
const STORED: &[(Step, i64)] = &[
    (Step::Hear(QUERY, QUERY_NONE_TOLD), DONE),
    (Step::Hear(PUB, ""), DONE),
    (Step::Hear(STORE, ""), DONE),
    (Step::Hear(PUB_B, ""), DONE),
];

pub const STORING: &[&[(Step, i64)]] = &[
    GREETING,
    LOGGING_IN,
    TUNING_QUIETLY,
    ENTERING,
    MAKING,
    DECLARING,
    STORED,
    &[
        (Step::Hear(QUERY, QUERY_TOLD), DONE),
        (Step::Poll(CONF_BOTH), DONE),
        (Step::Hear(STATS, STATS_TOLD), DONE),
        (Step::Hear(SUBSCRIBE_FIRST, SUBSCRIBE_FIRST_TOLD), DONE),
        (Step::Poll(DELIVER_A_AND_B), DONE),
    ],
];

/// Who takes version 2 of a delivery is told what is committed, until it takes version 1 alone.
pub const DELIVERING_SECOND: &[&[(Step, i64)]] = &[
    GREETING,
    LOGGING_IN,
    TUNING_QUIETLY,
    ENTERING,
    MAKING,
    DECLARING,
    STORED,
    &[
        (Step::Poll(CONF_BOTH), DONE),
        (Step::Hear(VERSIONS, VERSIONS_TOLD), DONE),
        (Step::Hear(SUBSCRIBE_FIRST, SUBSCRIBE_FIRST_TOLD), DONE),
        (Step::Poll(DELIVER_2), DONE),
        (Step::Hear(UNSUBSCRIBE, UNSUBSCRIBE_TOLD), DONE),
        (Step::Hear(VERSIONS_OLD, VERSIONS_TOLD), DONE),
        (Step::Hear(SUBSCRIBE_FIRST, SUBSCRIBE_FIRST_TOLD), DONE),
        (Step::Poll(DELIVER_A_AND_B), DONE),
    ],
];

/// A message, and two consumers of one group.
const JOINED: &[(Step, i64)] = &[
    (Step::Hear(PUB, ""), DONE),
    (Step::Poll(CONF), DONE),
    (Step::Hear(NO_NAME, NO_NAME_TOLD), DONE),
    (
        Step::Hear(SUBSCRIBE_SINGLE_0, SUBSCRIBE_SINGLE_0_TOLD),
        DONE,
    ),
    (
        Step::Hear(SUBSCRIBE_SINGLE_1, SUBSCRIBE_SINGLE_1_TOLD),
        DONE,
    ),
    (Step::Poll(UPDATE_0), DONE),
    (Step::Poll(""), DONE),
];

/// The first consumer leaves before it answers; the second is asked next, and gets the chunk once it answered.
pub const TURNING: &[&[(Step, i64)]] = &[
    GREETING,
    LOGGING_IN,
    TUNING_QUIETLY,
    ENTERING,
    MAKING,
    DECLARING,
    JOINED,
    &[
        (Step::Hear(UNSUBSCRIBE_3, UNSUBSCRIBE_3_TOLD), DONE),
        (Step::Poll(UPDATE_1), DONE),
        (Step::Hear(UPDATE_0_ANSWER, ""), DONE),
        (Step::Poll(""), DONE),
        (Step::Hear(UPDATE_1_ANSWER, ""), DONE),
        (Step::Poll(DELIVER_SINGLE), DONE),
    ],
];
