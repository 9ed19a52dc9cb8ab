//! Steps of a new hub, each with its answer. Streams are numbered from 1 on, and the first epoch of a stream is 1.

use crate::answer::{
    BAD_NAME, CLOSED, DONE, EMPTY_BATCH, EXISTS, LOG_BYTES, NO_STREAM, NONE, REFUSED, STALE,
};
use crate::publish::Confirmed;
use crate::step::Step;
use crate::word::Word;
use command_fields::OffsetSpec;
use hub_terms::ConsumerId;
use stream_terms::Pass;

const S: Word = Word::Bytes(b"s");

const T: Word = Word::Bytes(b"t");

const O: Word = Word::Bytes(b"o");

const P: Word = Word::Bytes(b"p");

const X: Word = Word::Bytes(b"x");

const EMPTY: Word = Word::Bytes(b"");

const ZERO: Word = Word::Bytes(b"0");

const ONE: Word = Word::Bytes(b"1");

const PARTS: &[Word] = &[Word::Bytes(b"o-0"), Word::Bytes(b"o-1")];

const KEYS: &[Word] = &[ZERO, ONE];

/// Streams come and go. Of a hub of at most two live streams.
pub const STREAMS: &[(Step, i64)] = &[
    (Step::Find(b"s"), NONE),
    (Step::Create(S), DONE),
    (Step::Find(b"s"), 1_01),
    (Step::Create(S), EXISTS),
    (Step::Create(EMPTY), REFUSED),
    (Step::Create(Word::Null), REFUSED),
    (Step::Create(Word::Long(256)), REFUSED),
    (Step::Create(T), DONE),
    (Step::Create(X), REFUSED),
    (Step::Find(b"x"), NONE),
    (Step::Delete(X), NO_STREAM),
    (Step::Delete(Word::Null), NO_STREAM),
    (Step::Delete(S), DONE),
    (Step::Find(b"s"), NONE),
    (Step::Find(b"t"), 2_01),
    (Step::Delete(S), NO_STREAM),
    (Step::Create(S), DONE),
    (Step::Find(b"s"), 3_01),
    (Step::Find(b""), NONE),
];

/// A super stream comes and goes, with its partitions and routes.
pub const SUPER_STREAMS: &[(Step, i64)] = &[
    (Step::Parts(O, &[]), NONE),
    (Step::Route(ZERO, O, &[]), NONE),
    (Step::CreateSuper(O, PARTS, KEYS), DONE),
    (Step::Find(b"o-0"), 1_01),
    (Step::Find(b"o-1"), 2_01),
    (Step::Find(b"o"), NONE),
    (Step::Parts(O, &[b"o-0", b"o-1"]), 2),
    (Step::Parts(Word::Null, &[]), NONE),
    (Step::Parts(Word::Bytes(b"o-0"), &[]), NONE),
    (Step::Route(ONE, O, &[b"o-1"]), 1),
    (Step::Route(ZERO, O, &[b"o-0"]), 1),
    (Step::Route(X, O, &[]), 0),
    (Step::Route(Word::Null, O, &[]), 0),
    (Step::Route(ZERO, X, &[]), NONE),
    (Step::Route(Word::Null, X, &[]), NONE),
    (Step::Route(ZERO, Word::Null, &[]), NONE),
    (Step::CreateSuper(O, PARTS, KEYS), EXISTS),
    (Step::CreateSuper(S, &[], &[]), REFUSED),
    (Step::CreateSuper(S, &[T], KEYS), REFUSED),
    (Step::CreateSuper(S, &[T], &[Word::Null]), REFUSED),
    (Step::CreateSuper(Word::Null, &[T], &[ONE]), REFUSED),
    (Step::Delete(Word::Bytes(b"o-0")), REFUSED),
    (Step::Delete(O), NO_STREAM),
    (Step::DeleteSuper(Word::Bytes(b"o-0")), NO_STREAM),
    (Step::DeleteSuper(O), DONE),
    (Step::DeleteSuper(O), NO_STREAM),
    (Step::Parts(O, &[]), NONE),
    (Step::Route(ONE, O, &[]), NONE),
    (Step::Find(b"o-1"), NONE),
    (Step::CreateSuper(O, &[T, S], &[X, X]), DONE),
    (Step::Find(b"s"), 4_01),
    (Step::Route(X, O, &[b"t", b"s"]), 2),
];

// The pass of a stream's first declaration, by session 1.
const FIRST: Pass = Pass {
    stream: 1,
    session: 1,
    serial: 0,
    epoch: 1,
};

// That of the second.
const SECOND: Pass = Pass {
    stream: 1,
    session: 1,
    serial: 1,
    epoch: 1,
};

// That of the third, by session 2.
const THIRD: Pass = Pass {
    stream: 1,
    session: 2,
    serial: 2,
    epoch: 1,
};

// The first pass of stream 2, by session 1.
const ELSEWHERE: Pass = Pass {
    stream: 2,
    session: 1,
    serial: 0,
    epoch: 1,
};

/// Passes are given one after the other, and none where no stream is.
pub const PASSES: &[(Step, i64)] = &[
    (Step::Declare(1, 1, P), CLOSED),
    (Step::Create(S), DONE),
    (Step::Declare(1, 1, P), 0_01),
    (Step::Declare(1, 1, P), 1_01),
    (Step::Declare(2, 1, Word::Null), 2_01),
    (Step::Declare(2, 1, Word::Long(255)), 3_01),
    (Step::Declare(1, 2, P), CLOSED),
    (Step::Declare(1, 0, P), CLOSED),
    (Step::Create(T), DONE),
    (Step::Declare(1, 2, P), 0_01),
];

/// What is offered is taken at the end of the list, and ids of a name once.
pub const OFFERS: &[(Step, i64)] = &[
    (Step::Create(S), DONE),
    (Step::Declare(1, 1, Word::Null), 0_01),
    (Step::Declare(1, 1, P), 1_01),
    (Step::Offer(FIRST, &[(1, 1), (2, 1)]), 2_02),
    (Step::Offer(FIRST, &[(1, 1)]), 3_01),
    (Step::Offer(FIRST, &[(7, 3)]), 6_01),
    (Step::Offer(FIRST, &[(1, 1), (2, 0)]), EMPTY_BATCH + 1),
    (Step::Greatest(1, P), NONE),
    (Step::Offer(SECOND, &[(5, 1), (6, 1)]), 8_02),
    (Step::Offer(SECOND, &[(6, 1), (7, 1)]), 9_01),
    (Step::Offer(SECOND, &[(3, 1)]), 9_00),
    (Step::Offer(SECOND, &[(8, 1), (8, 1)]), 10_01),
    (Step::Greatest(1, P), 8),
    (Step::OfferMany(FIRST, 65_536, 0), LOG_BYTES),
    (Step::LastChunk(1), 9),
];

// A pass that was given to session 1 and not to session 2.
const OF_ANOTHER_SESSION: Pass = Pass {
    stream: 1,
    session: 2,
    serial: 0,
    epoch: 1,
};

const NEVER_GIVEN: Pass = Pass {
    stream: 1,
    session: 1,
    serial: 1,
    epoch: 1,
};

const OF_ANOTHER_EPOCH: Pass = Pass {
    stream: 1,
    session: 1,
    serial: 0,
    epoch: 3,
};

/// A pass that is of no use is refused.
pub const STALE_PASSES: &[(Step, i64)] = &[
    (Step::Offer(FIRST, &[(1, 1)]), STALE + 1_00),
    (Step::Create(S), DONE),
    (Step::Offer(FIRST, &[(1, 1)]), STALE + 1_01),
    (Step::Declare(1, 1, Word::Null), 0_01),
    (Step::Offer(OF_ANOTHER_SESSION, &[(1, 1)]), STALE + 1_01),
    (Step::Offer(NEVER_GIVEN, &[(1, 1)]), STALE + 1_01),
    (Step::Offer(OF_ANOTHER_EPOCH, &[(1, 1)]), STALE + 3_01),
    (Step::Offer(ELSEWHERE, &[(1, 1)]), STALE + 1_00),
    (Step::Offer(OF_ANOTHER_SESSION, &[(1, 0)]), STALE + 1_01),
    (Step::LastChunk(1), NONE),
    (Step::Offer(FIRST, &[(1, 1)]), 1_01),
];

/// Each confirm is handed out once, to its session, by number of stream and in the order of offers.
pub const CONFIRMS: &[(Step, i64)] = &[
    (Step::Confirms(1, &[]), 0),
    (Step::Create(S), DONE),
    (Step::Create(T), DONE),
    (Step::Declare(1, 1, Word::Null), 0_01),
    (Step::Declare(1, 1, P), 1_01),
    (Step::Declare(2, 1, Word::Null), 2_01),
    (Step::Declare(1, 2, Word::Null), 0_01),
    (Step::Offer(ELSEWHERE, &[(9, 1)]), 1_01),
    (Step::Offer(FIRST, &[(1, 1), (2, 2)]), 3_02),
    (Step::Offer(THIRD, &[(4, 1)]), 4_01),
    (Step::Offer(SECOND, &[(5, 1), (5, 1)]), 5_01),
    (Step::Offer(SECOND, &[(5, 1)]), 5_00),
    (Step::Confirms(3, &[]), 0),
    (
        Step::Confirms(
            1,
            &[
                Confirmed {
                    stream: 1,
                    serial: 0,
                    end: 3,
                    ids: &[1, 2],
                },
                Confirmed {
                    stream: 1,
                    serial: 1,
                    end: 5,
                    ids: &[5, 5],
                },
                Confirmed {
                    stream: 1,
                    serial: 1,
                    end: 5,
                    ids: &[5],
                },
                Confirmed {
                    stream: 2,
                    serial: 0,
                    end: 1,
                    ids: &[9],
                },
            ],
        ),
        4,
    ),
    (Step::Confirms(1, &[]), 0),
    (
        Step::Confirms(
            2,
            &[Confirmed {
                stream: 1,
                serial: 2,
                end: 4,
                ids: &[4],
            }],
        ),
        1,
    ),
    (Step::Confirms(2, &[]), 0),
];

/// Offsets are stored in the list, one chunk each.
pub const STORED_OFFSETS: &[(Step, i64)] = &[
    (Step::Store(1, X, 5), STALE),
    (Step::Create(S), DONE),
    (Step::Stored(1, X), NONE),
    (Step::Store(1, X, 5), 1_01),
    (Step::Stored(1, X), 5),
    (Step::Store(1, P, 7), 2_01),
    (Step::Store(1, X, 4), 3_01),
    (Step::Stored(1, X), 4),
    (Step::Stored(1, P), 7),
    (Step::Stored(1, S), NONE),
    (Step::LastChunk(1), 2),
    (Step::NextChunk(1, 0), NONE),
    (Step::Greatest(1, X), NONE),
    (Step::Store(1, Word::Null, 5), BAD_NAME),
    (Step::Store(1, EMPTY, 5), BAD_NAME),
    (Step::Store(1, Word::Long(256), 5), BAD_NAME + 256),
    (Step::Store(1, Word::Long(255), 6), 4_01),
    (Step::Stored(1, Word::Long(255)), 6),
    (Step::Store(2, X, 5), STALE),
];

/// Where subscriptions start, and which chunk is next: two messages at 0, an offset at 2, and a message at 3.
pub const READING: &[(Step, i64)] = &[
    (Step::Start(1, OffsetSpec::Last), 0),
    (Step::NextChunk(1, 0), NONE),
    (Step::LastChunk(1), NONE),
    (Step::Create(S), DONE),
    (Step::Declare(1, 1, Word::Null), 0_01),
    (Step::Start(1, OffsetSpec::Next), 0),
    (Step::LastChunk(1), NONE),
    (Step::OfferMany(FIRST, 2, 10), 2_02),
    (Step::Store(1, X, 1), 3_01),
    (Step::Start(1, OffsetSpec::Last), 0),
    (Step::OfferMany(FIRST, 1, 30), 4_01),
    (Step::LastChunk(1), 3),
    (Step::Start(1, OffsetSpec::Unset), 4),
    (Step::Start(1, OffsetSpec::First), 0),
    (Step::Start(1, OffsetSpec::Last), 3),
    (Step::Start(1, OffsetSpec::Next), 4),
    (Step::Start(1, OffsetSpec::At(1)), 1),
    (Step::Start(1, OffsetSpec::At(70)), 70),
    (Step::Start(1, OffsetSpec::Since(10)), 0),
    (Step::Start(1, OffsetSpec::Since(11)), 3),
    (Step::Start(1, OffsetSpec::Since(31)), 4),
    (Step::NextChunk(1, 0), 1_00_02),
    (Step::NextChunk(1, 1), 1_00_02),
    (Step::NextChunk(1, 2), 1_03_01),
    (Step::NextChunk(1, 3), 1_03_01),
    (Step::NextChunk(1, 4), NONE),
    (Step::NextChunk(2, 0), NONE),
    (Step::NextChunk(0, 0), NONE),
    (Step::Start(2, OffsetSpec::First), 0),
    (Step::Greatest(2, P), NONE),
    (Step::Stored(2, P), NONE),
    (Step::LastChunk(0), NONE),
];

// The pass of a stream's second declaration, in its second epoch.
const OF_THE_NEXT_EPOCH: Pass = Pass {
    stream: 1,
    session: 1,
    serial: 1,
    epoch: 2,
};

/// An epoch ends, and the next begins: passes of the first are of no use any more.
pub const EPOCHS: &[(Step, i64)] = &[
    (Step::Begin(1), NONE),
    (Step::Create(S), DONE),
    (Step::Declare(1, 1, Word::Null), 0_01),
    (Step::Offer(FIRST, &[(1, 1)]), 1_01),
    (Step::Stop(1), DONE),
    (Step::Find(b"s"), 1_00),
    (Step::Declare(1, 1, Word::Null), CLOSED),
    (Step::Offer(FIRST, &[(2, 1)]), STALE + 1_00),
    (Step::Store(1, X, 5), STALE),
    (Step::NextChunk(1, 0), 1_00_01),
    (
        Step::Confirms(
            1,
            &[Confirmed {
                stream: 1,
                serial: 0,
                end: 1,
                ids: &[1],
            }],
        ),
        1,
    ),
    (Step::Begin(1), 2),
    (Step::Find(b"s"), 1_02),
    (Step::Offer(FIRST, &[(2, 1)]), STALE + 1_02),
    (Step::Offer(OF_THE_NEXT_EPOCH, &[(2, 1)]), STALE + 2_02),
    (Step::Declare(1, 1, Word::Null), 1_02),
    (Step::Offer(OF_THE_NEXT_EPOCH, &[(2, 1)]), 2_01),
    (Step::NextChunk(1, 1), 2_01_01),
    (Step::Begin(1), 3),
    (Step::Find(b"s"), 1_03),
    (
        Step::Confirms(
            1,
            &[Confirmed {
                stream: 1,
                serial: 1,
                end: 2,
                ids: &[2],
            }],
        ),
        1,
    ),
    (Step::Confirms(1, &[]), 0),
];

/// A stream that went keeps its list and nothing else.
pub const ENDED: &[(Step, i64)] = &[
    (Step::Create(S), DONE),
    (Step::Declare(1, 1, P), 0_01),
    (Step::Offer(FIRST, &[(4, 1)]), 1_01),
    (Step::Delete(S), DONE),
    (Step::Find(b"s"), NONE),
    (Step::Declare(1, 1, P), CLOSED),
    (Step::Offer(FIRST, &[(5, 1)]), STALE + 1_00),
    (Step::Store(1, X, 5), STALE),
    (Step::Confirms(1, &[]), 0),
    (Step::Begin(1), NONE),
    (Step::NextChunk(1, 0), 1_00_01),
    (Step::LastChunk(1), 0),
    (Step::Greatest(1, P), 4),
    (Step::Create(S), DONE),
    (Step::Find(b"s"), 2_01),
    (Step::NextChunk(2, 0), NONE),
    (Step::Greatest(2, P), NONE),
    (Step::Declare(1, 2, P), 0_01),
];

const ANN: ConsumerId = ConsumerId {
    session: 1,
    serial: 0,
};

const BEN: ConsumerId = ConsumerId {
    session: 2,
    serial: 0,
};

/// Consumers take turns: one at a time is active, and the next starts once the one before it left or answered.
pub const GROUPS: &[(Step, i64)] = &[
    (Step::Create(S), DONE),
    (Step::Change(1), NONE),
    (Step::Active(ANN), 0),
    (Step::Answered(ANN), 0),
    (Step::Leave(ANN), DONE),
    (Step::Join(1, P, ANN), DONE),
    (Step::Answered(ANN), 0),
    (Step::Change(2), NONE),
    (Step::Change(1), 1_00_01),
    (Step::Change(1), NONE),
    (Step::Active(ANN), 0),
    (Step::Answered(ANN), 1),
    (Step::Active(ANN), 1),
    (Step::Answered(ANN), 0),
    (Step::Join(1, P, BEN), DONE),
    (Step::Change(1), NONE),
    (Step::Change(2), NONE),
    (Step::Active(BEN), 0),
    (Step::Leave(ANN), DONE),
    (Step::Active(ANN), 0),
    (Step::Change(2), 2_00_01),
    (Step::Answered(BEN), 1),
    (Step::Active(BEN), 1),
    (Step::Join(1, Word::Null, BEN), DONE),
    (Step::Active(BEN), 0),
    (Step::Change(2), 2_00_01),
    (Step::Answered(BEN), 1),
];

/// Of a partition's group the consumer at the partition's place is wanted.
pub const GROUPS_OF_PARTITIONS: &[(Step, i64)] = &[
    (Step::CreateSuper(O, PARTS, KEYS), DONE),
    (Step::Join(2, P, ANN), DONE),
    (Step::Change(1), 1_00_01),
    (Step::Answered(ANN), 1),
    (Step::Join(2, P, BEN), DONE),
    (Step::Change(2), NONE),
    (Step::Change(1), 1_00_00),
    (Step::Active(ANN), 0),
    (Step::Change(2), NONE),
    (Step::Answered(ANN), 1),
    (Step::Change(2), 2_00_01),
    (Step::Answered(BEN), 1),
    (Step::Active(BEN), 1),
    (Step::Active(ANN), 0),
];
