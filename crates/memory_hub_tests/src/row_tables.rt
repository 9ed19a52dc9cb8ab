//! Rows of session 1 over a new hub, each with its answer.

use crate::rows::RowStep;
use command_fields::OffsetSpec;
use hub_call_tests::answer::{DONE, NONE};
use hub_call_tests::{Confirmed, Step, Word};

// Codes of responses.
const OK: i64 = 0x01;

const NO_STREAM: i64 = 0x02;

const SUBSCRIBED: i64 = 0x03;

const UNAVAILABLE: i64 = 0x06;

const REFUSED: i64 = 0x11;

const NO_PUBLISHER: i64 = 0x12;

const S: Word = Word::Bytes(b"s");

const P: Word = Word::Bytes(b"p");

/// Publishers are declared and publish. What is refused closes one with a name.
pub const PUBLISHING: &[(RowStep, i64)] = &[
    (RowStep::Declare(1, Word::Null, b"s"), NO_STREAM),
    (RowStep::Call(Step::Create(S)), DONE),
    (RowStep::Declare(1, Word::Null, b"s"), OK),
    (RowStep::Declare(1, Word::Null, b"s"), REFUSED),
    (RowStep::Declare(2, Word::Long(256), b"s"), REFUSED),
    (RowStep::Declare(3, P, b"x"), NO_STREAM),
    (RowStep::Declare(3, P, b"s"), OK),
    (RowStep::Publish(1, &[]), NONE),
    (RowStep::Publish(1, &[(1, 1)]), NONE),
    (RowStep::Publish(9, &[(1, 1), (2, 1)]), 2_00 + NO_PUBLISHER),
    (RowStep::Publish(3, &[(7, 1)]), NONE),
    (RowStep::Publish(3, &[(8, 0)]), 1_00 + REFUSED),
    (RowStep::Publish(3, &[(8, 1)]), 1_00 + NO_PUBLISHER),
    (RowStep::Publish(1, &[(2, 0)]), 1_00 + REFUSED),
    (RowStep::Publish(1, &[(2, 1)]), NONE),
    (RowStep::Call(Step::Greatest(1, P)), 7),
    (
        RowStep::Call(Step::Confirms(
            1,
            &[
                Confirmed {
                    stream: 1,
                    serial: 0,
                    end: 1,
                    ids: &[1],
                },
                Confirmed {
                    stream: 1,
                    serial: 1,
                    end: 2,
                    ids: &[7],
                },
                Confirmed {
                    stream: 1,
                    serial: 0,
                    end: 3,
                    ids: &[2],
                },
            ],
        )),
        3,
    ),
];

/// Publishers over a turn of the epoch.
pub const TURNING: &[(RowStep, i64)] = &[
    (RowStep::Call(Step::Create(S)), DONE),
    (RowStep::Declare(1, Word::Null, b"s"), OK),
    (RowStep::Declare(2, P, b"s"), OK),
    (RowStep::Call(Step::Stop(1)), DONE),
    (RowStep::Declare(3, Word::Null, b"s"), UNAVAILABLE),
    (
        RowStep::Subscribe(1, b"s", OffsetSpec::First, 1),
        UNAVAILABLE,
    ),
    (RowStep::Publish(1, &[(1, 1)]), 1_00 + UNAVAILABLE),
    (RowStep::Call(Step::Begin(1)), 2),
    (RowStep::Publish(1, &[(1, 1)]), 1_00 + UNAVAILABLE),
    (RowStep::Publish(2, &[(1, 1)]), 1_00 + UNAVAILABLE),
    (RowStep::Publish(2, &[(1, 1)]), 1_00 + NO_PUBLISHER),
    (RowStep::Declare(2, P, b"s"), OK),
    (RowStep::Publish(2, &[(1, 1)]), NONE),
];

/// Subscriptions get each chunk once, as far as they have credit.
pub const SUBSCRIBING: &[(RowStep, i64)] = &[
    (RowStep::Subscribe(7, b"s", OffsetSpec::First, 1), NO_STREAM),
    (RowStep::Deliver(7, &[]), NONE),
    (RowStep::Call(Step::Create(S)), DONE),
    (RowStep::Declare(1, Word::Null, b"s"), OK),
    (RowStep::Publish(1, &[(1, 1), (2, 1)]), NONE),
    (RowStep::Call(Step::Store(1, P, 0)), 3_01),
    (RowStep::Publish(1, &[(3, 1)]), NONE),
    (RowStep::Subscribe(7, b"s", OffsetSpec::First, 1), OK),
    (
        RowStep::Subscribe(7, b"s", OffsetSpec::First, 1),
        SUBSCRIBED,
    ),
    (RowStep::Subscribe(8, b"s", OffsetSpec::At(1), 9), OK),
    (RowStep::Subscribe(9, b"s", OffsetSpec::Next, 1), OK),
    (RowStep::Deliver(7, &[0]), 0),
    (RowStep::Deliver(7, &[]), 0),
    (RowStep::Deliver(8, &[0, 3]), 7),
    (RowStep::Deliver(8, &[]), 7),
    (RowStep::Deliver(9, &[]), 1),
    (RowStep::Publish(1, &[(4, 1)]), NONE),
    (RowStep::Deliver(8, &[4]), 6),
    (RowStep::Deliver(9, &[4]), 0),
];
