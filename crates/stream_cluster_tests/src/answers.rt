//! What a stream answers, as numbers.

use cluster_core::Outcome;
use stream_cluster::OpenFault;
use stream_terms::{OfferFault, Taken, What};

/// An outcome: 1 where it happened.
pub(crate) fn outcome(outcome: Outcome) -> u64 {
    match outcome {
        Outcome::Did => 1,
        Outcome::Nothing => 2,
        Outcome::Later { member } => 3_000 + member as u64,
        Outcome::Last { epoch: _ } => 4_000,
        Outcome::Differs {
            expected_end,
            found_end,
        } => told(5_000_000, expected_end, found_end),
        Outcome::Memory => 6_000,
    }
}

/// Two numbers behind a base.
fn told(base: u64, one: u64, other: u64) -> u64 {
    one.saturating_mul(1_000)
        .saturating_add(other)
        .saturating_add(base)
}

/// Why a stream wasn't opened.
pub(crate) fn open_fault(fault: OpenFault) -> u64 {
    match fault {
        OpenFault::Diverged { a, b, offset } => {
            told(
                1_000_000 + a as u64 * 100_000 + b as u64 * 10_000,
                0,
                offset,
            )
        }
        OpenFault::Broken { member, offset } => told(2_000_000, member as u64, offset),
        OpenFault::Ahead {
            member,
            promise,
            epoch,
        } => told(3_000_000 + member as u64 * 100_000, promise, epoch),
        OpenFault::Memory => 9_000_000,
    }
}

/// What came of an offer: 1,000 times the end, and how many items were added.
pub(crate) fn taken(taken: Taken) -> u64 {
    told(0, taken.end, u64::from(taken.accepted))
}

/// Why an offer wasn't taken.
pub(crate) fn offer_fault(fault: OfferFault) -> u64 {
    match fault {
        OfferFault::Stale { asked, running } => told(1_000_000, asked, running),
        OfferFault::BadName { len: _ } => 2_000_000,
        OfferFault::EmptyBatch { place: _ } => 3_000_000,
        OfferFault::Limit { what, most } => match what {
            What::References => told(4_000_000, 0, most),
            What::Consumers => told(5_000_000, 0, most),
            What::LogBytes => told(6_000_000, 0, most),
            What::Queue => told(7_000_000, 0, most),
        },
        OfferFault::Memory => 9_000_000,
    }
}
