//! Dialogues about streams and publishers.

use crate::answer::{CLOSED_BY_US, DONE};
use crate::frames::{
    CONF, CONF_AND_LOST, CONFIRM, CREATE, CREATE_AGAIN_TOLD, CREATE_SUPER, CREATE_SUPER_TOLD,
    CREATE_TOLD, CREDIT_0, CREDIT_0_FAULT, DECLARE, DECLARE_7_TOLD, DECLARE_AGAIN_TOLD,
    DECLARE_CLOSED_TOLD, DECLARE_EMPTY, DECLARE_MISSING, DECLARE_MISSING_TOLD, DECLARE_NEGATIVE,
    DECLARE_NULL, DECLARE_TOLD, DECLARE_UNNAMED, DECLARE_UNNAMED_AGAIN_TOLD, DECLARE_UNNAMED_TOLD,
    DELETE, DELETE_AGAIN_TOLD, DELETE_PART, DELETE_PART_TOLD, DELETE_PUBLISHER,
    DELETE_PUBLISHER_AGAIN_TOLD, DELETE_PUBLISHER_TOLD, DELETE_SUPER, DELETE_SUPER_TOLD,
    DELETE_TOLD, METADATA, METADATA_CLOSED_TOLD, METADATA_TOLD, NO_SEQUENCE_TOLD, PARTITIONS,
    PARTITIONS_AGAIN_TOLD, PARTITIONS_TOLD, PEER, PUB, PUB_B, PUB_B_UNDECLARED, PUBLISH,
    PUBLISH_UNDECLARED, PUBLISH_UNDECLARED_TOLD, QUERY_SEQUENCE, ROUTE, ROUTE_AGAIN_TOLD,
    ROUTE_TOLD, SEQUENCE_TOLD, SUBSCRIBE_FIRST, SUBSCRIBE_FIRST_TOLD, UNKNOWN_TOLD,
};
use crate::opening_tables::{ENTERING, GREETING, LOGGING_IN, TUNING_QUIETLY};
use crate::step::Step;

/// A connection is opened, and the stream `s` is made.
pub const MAKING: &[(Step, i64)] = &[(Step::Hear(CREATE, CREATE_TOLD), DONE)];

/// A publisher without a name under the id 0.
pub const DECLARING: &[(Step, i64)] = &[(Step::Hear(DECLARE_UNNAMED, DECLARE_UNNAMED_TOLD), DONE)];

/// A null and an empty reference are none, and a negative length is no text.
pub const TEXTS: &[&[(Step, i64)]] = &[
    GREETING,
    LOGGING_IN,
    TUNING_QUIETLY,
    ENTERING,
    MAKING,
    &[
        (Step::Hear(DECLARE_NULL, DECLARE_7_TOLD), DONE),
        (Step::Hear(DECLARE_EMPTY, DECLARE_7_TOLD), DONE),
        (Step::Hear(DECLARE_NEGATIVE, UNKNOWN_TOLD), DONE),
        (Step::Ended, CLOSED_BY_US + 13),
    ],
];

pub const CREATING: &[&[(Step, i64)]] = &[
    GREETING,
    LOGGING_IN,
    TUNING_QUIETLY,
    ENTERING,
    MAKING,
    &[
        (Step::Hear(CREATE, CREATE_AGAIN_TOLD), DONE),
        (Step::Hear(METADATA, METADATA_TOLD), DONE),
        (Step::Stop(1), DONE),
        (Step::Hear(METADATA, METADATA_CLOSED_TOLD), DONE),
        (Step::Hear(DELETE, DELETE_TOLD), DONE),
        (Step::Hear(DELETE, DELETE_AGAIN_TOLD), DONE),
    ],
];

pub const PARTITIONED: &[&[(Step, i64)]] = &[
    GREETING,
    LOGGING_IN,
    TUNING_QUIETLY,
    ENTERING,
    &[
        (Step::Hear(CREATE_SUPER, CREATE_SUPER_TOLD), DONE),
        (Step::Hear(ROUTE, ROUTE_TOLD), DONE),
        (Step::Hear(PARTITIONS, PARTITIONS_TOLD), DONE),
        (Step::Hear(DELETE_PART, DELETE_PART_TOLD), DONE),
        (Step::Hear(DELETE_SUPER, DELETE_SUPER_TOLD), DONE),
        (Step::Hear(ROUTE, ROUTE_AGAIN_TOLD), DONE),
        (Step::Hear(PARTITIONS, PARTITIONS_AGAIN_TOLD), DONE),
    ],
];

/// The ids 1, 3 and 2 of a named publisher are confirmed as they were sent; 3 is the greatest.
pub const PUBLISHING: &[&[(Step, i64)]] = &[
    GREETING,
    LOGGING_IN,
    TUNING_QUIETLY,
    ENTERING,
    MAKING,
    &[
        (Step::Hear(DECLARE_MISSING, DECLARE_MISSING_TOLD), DONE),
        (Step::Hear(DECLARE, DECLARE_TOLD), DONE),
        (Step::Hear(DECLARE, DECLARE_AGAIN_TOLD), DONE),
        (Step::Hear(QUERY_SEQUENCE, NO_SEQUENCE_TOLD), DONE),
        (
            Step::Hear(PUBLISH_UNDECLARED, PUBLISH_UNDECLARED_TOLD),
            DONE,
        ),
        (Step::Hear(PUBLISH, ""), DONE),
        (Step::Poll(CONFIRM), DONE),
        (Step::Poll(""), DONE),
        (Step::Hear(QUERY_SEQUENCE, SEQUENCE_TOLD), DONE),
        (Step::Hear(DELETE_PUBLISHER, DELETE_PUBLISHER_TOLD), DONE),
        (
            Step::Hear(DELETE_PUBLISHER, DELETE_PUBLISHER_AGAIN_TOLD),
            DONE,
        ),
    ],
];

/// The epoch ends under a publisher and a subscription. What was confirmed is told first.
pub const LOSING: &[&[(Step, i64)]] = &[
    GREETING,
    LOGGING_IN,
    TUNING_QUIETLY,
    ENTERING,
    MAKING,
    DECLARING,
    &[
        (Step::Hear(PUB, ""), DONE),
        (Step::Hear(SUBSCRIBE_FIRST, SUBSCRIBE_FIRST_TOLD), DONE),
        (Step::Stop(1), DONE),
        (Step::Poll(CONF_AND_LOST), DONE),
        (Step::Poll(""), DONE),
        (Step::Hear(CREDIT_0, CREDIT_0_FAULT), DONE),
        (Step::Hear(PUB_B, PUB_B_UNDECLARED), DONE),
        (Step::Hear(DECLARE_UNNAMED, DECLARE_CLOSED_TOLD), DONE),
        (Step::Begin(1), DONE),
        (Step::Hear(DECLARE_UNNAMED, DECLARE_UNNAMED_TOLD), DONE),
    ],
];

/// A session that is open from the start, with a publisher and without heartbeats.
pub const PREPARED: &[&[(Step, i64)]] = &[&[
    (Step::Hear(PUB, ""), DONE),
    (Step::Poll(CONF), DONE),
    (Step::At(1_000_000, ""), DONE),
    (
        Step::Hear(DECLARE_UNNAMED, DECLARE_UNNAMED_AGAIN_TOLD),
        DONE,
    ),
    (Step::Hear(PEER, UNKNOWN_TOLD), DONE),
    (Step::Ended, CLOSED_BY_US + 13),
]];
