//! Dialogues of a connection: each step with its answer, in parts.

use crate::answer::{CLOSED_BY_PEER, CLOSED_BY_US, DONE, PEER_ENDED, SILENT, STANDS};
use crate::frames::{
    CLOSE, CLOSE_TOLD, CREDIT_5_AND_6, CREDIT_5_AND_6_TOLD, CREDIT_7_REST, CREDIT_7_TOLD,
    HANDSHAKE, HANDSHAKE_TOLD, HEARTBEAT, HOST, HOST_TOLD, LARGEST, LOGIN, LOGIN_TOLD,
    LONG_HEARTBEAT, NO_PASSWORD, NO_PASSWORD_TOLD, OTHER_HOST, OTHER_HOST_TOLD, OTHER_MECHANISM,
    OTHER_MECHANISM_TOLD, PEER, PEER_TOLD, TOO_LARGE, TOO_LARGE_TOLD, TUNE, TUNE_ANSWER,
    UNKNOWN_TOLD, WRONG_PASSWORD, WRONG_PASSWORD_TOLD,
};
use crate::step::Step;

/// What a session is asked first, up to the limits that it offers.
pub const GREETING: &[(Step, i64)] = &[
    (Step::Hear(PEER, PEER_TOLD), DONE),
    (Step::Hear(HANDSHAKE, HANDSHAKE_TOLD), DONE),
];

pub const LOGGING_IN: &[(Step, i64)] = &[
    (Step::Hear(LOGIN, LOGIN_TOLD), DONE),
    (Step::Ended, STANDS),
];

/// Both take 60 seconds as the interval.
const TUNING: &[(Step, i64)] = &[(Step::Hear(TUNE, ""), DONE)];

/// No heartbeats, by the answer's own key.
pub const TUNING_QUIETLY: &[(Step, i64)] = &[(Step::Hear(TUNE_ANSWER, ""), DONE)];

pub const ENTERING: &[(Step, i64)] = &[
    (Step::Hear(HOST, HOST_TOLD), DONE),
    (Step::Poll(""), DONE),
    (Step::Ended, STANDS),
];

/// A Heartbeat is said after one interval without a word, and after two without a byte the session ends.
pub const SILENCE: &[&[(Step, i64)]] = &[
    GREETING,
    LOGGING_IN,
    TUNING,
    ENTERING,
    &[
        (Step::At(59_999, ""), DONE),
        (Step::At(60_000, HEARTBEAT), DONE),
        (Step::At(60_001, ""), DONE),
        (Step::Hear(HEARTBEAT, ""), DONE),
        (Step::At(119_999, ""), DONE),
        (Step::At(120_000, HEARTBEAT), DONE),
        (Step::At(180_000, HEARTBEAT), DONE),
        (Step::Ended, STANDS),
        (Step::At(180_001, ""), DONE),
        (Step::Ended, SILENT),
        (Step::Hear(HEARTBEAT, ""), DONE),
        (Step::At(240_000, ""), DONE),
        (Step::HangUp, DONE),
        (Step::Ended, SILENT),
    ],
];

/// Another mechanism, and then another host, may be followed by the right one. A wrong password ends the session without a Close.
pub const LOGINS: &[&[(Step, i64)]] = &[
    GREETING,
    &[
        (Step::Hear(OTHER_MECHANISM, OTHER_MECHANISM_TOLD), DONE),
        (Step::Ended, STANDS),
    ],
    LOGGING_IN,
    TUNING_QUIETLY,
    &[
        (Step::Hear(OTHER_HOST, OTHER_HOST_TOLD), DONE),
        (Step::Ended, STANDS),
    ],
    ENTERING,
    &[(Step::At(1_000_000, ""), DONE), (Step::Ended, STANDS)],
];

pub const WRONG_LOGIN: &[&[(Step, i64)]] = &[
    GREETING,
    &[
        (Step::Hear(WRONG_PASSWORD, WRONG_PASSWORD_TOLD), DONE),
        (Step::Ended, CLOSED_BY_US + 8),
        (Step::Hear(LOGIN, ""), DONE),
    ],
];

pub const BROKEN_LOGIN: &[&[(Step, i64)]] = &[
    GREETING,
    &[
        (Step::Hear(NO_PASSWORD, NO_PASSWORD_TOLD), DONE),
        (Step::Ended, CLOSED_BY_US + 9),
    ],
];

/// The greatest size is taken, and its bytes are waited for.
pub const LARGEST_FRAME: &[&[(Step, i64)]] = &[&[
    (Step::Hear(LARGEST, ""), DONE),
    (Step::Ended, STANDS),
]];

pub const TOO_LARGE_FRAME: &[&[(Step, i64)]] = &[&[
    (Step::Hear(TOO_LARGE, TOO_LARGE_TOLD), DONE),
    (Step::Ended, CLOSED_BY_US + 14),
    (Step::Hear("00", ""), DONE),
    (Step::Poll(""), DONE),
]];

/// A Heartbeat is taken at once, and a byte behind its fields is not.
pub const UNKNOWN_FRAME: &[&[(Step, i64)]] = &[&[
    (Step::Hear(HEARTBEAT, ""), DONE),
    (Step::Hear(LONG_HEARTBEAT, UNKNOWN_TOLD), DONE),
    (Step::Ended, CLOSED_BY_US + 13),
]];

/// What the state doesn't take.
pub const EARLY_FRAME: &[&[(Step, i64)]] = &[&[
    (Step::Hear(HANDSHAKE, UNKNOWN_TOLD), DONE),
    (Step::Ended, CLOSED_BY_US + 13),
]];

/// Credit of no subscription, in two pieces.
pub const CREDITS: &[&[(Step, i64)]] = &[
    GREETING,
    LOGGING_IN,
    TUNING_QUIETLY,
    ENTERING,
    &[
        (Step::Hear(CREDIT_5_AND_6, CREDIT_5_AND_6_TOLD), DONE),
        (Step::Hear(CREDIT_7_REST, CREDIT_7_TOLD), DONE),
    ],
];

pub const CLOSING: &[&[(Step, i64)]] = &[
    GREETING,
    &[
        (Step::Hear(CLOSE, CLOSE_TOLD), DONE),
        (Step::Ended, CLOSED_BY_PEER),
        (Step::Hear(LOGIN, ""), DONE),
        (Step::HangUp, DONE),
        (Step::Ended, CLOSED_BY_PEER),
    ],
];

pub const HANGING_UP: &[&[(Step, i64)]] = &[
    GREETING,
    &[
        (Step::HangUp, DONE),
        (Step::Ended, PEER_ENDED),
        (Step::Hear(LOGIN, ""), DONE),
    ],
];
