//! Answers as numbers.

use command_fields::ResponseCode;
use hub_terms::{Found, HubDid};
use stream_terms::{DeclareFault, OfferFault, Pass, Taken, What};

/// There is none, or no live stream has the name.
pub const NONE: i64 = -1;
/// No epoch runs.
pub const CLOSED: i64 = -2;
/// A disk failed.
pub const FAILED: i64 = -3;
/// There was not enough memory.
pub const MEMORY: i64 = -4;
/// The answer has another content than the one that is wanted.
pub const OTHER: i64 = -5;
/// The call was not made, since it asks for more of what it is given.
pub const NOT_MADE: i64 = -6;
/// There would be too many bytes in the log.
pub const LOG_BYTES: i64 = -7;
/// There would be too much of something else.
pub const LIMIT: i64 = -8;

/// An offer of a pass that is of no use; to it the epoch of the pass times 100 and the epoch that runs are added.
pub const STALE: i64 = 1_000_000;
/// A name that is none; to it its length is added.
pub const BAD_NAME: i64 = 2_000_000;
/// A sub-batch of no records; to it its place is added.
pub const EMPTY_BATCH: i64 = 3_000_000;

/// A change of the catalog was made.
pub const DONE: i64 = 0x01;
/// There is no such stream.
pub const NO_STREAM: i64 = 0x02;
/// The name stands for something.
pub const EXISTS: i64 = 0x05;
/// What is asked for may not be.
pub const REFUSED: i64 = 0x11;

/// A number, or `OTHER` where it is too great.
pub fn one(number: u64) -> i64 {
    match i64::try_from(number) {
        Ok(number) => number,
        Err(_) => OTHER,
    }
}

/// The first times 100, and the second.
pub fn two(first: u64, second: u64) -> i64 {
    one(first.saturating_mul(100).saturating_add(second))
}

/// A number above a base.
fn above(base: i64, number: i64) -> i64 {
    base.saturating_add(number)
}

/// 1 or 0.
pub(crate) fn truth(is: bool) -> i64 {
    if is { 1 } else { 0 }
}

/// The number, or `NONE`.
pub(crate) fn some(number: Option<u64>) -> i64 {
    match number {
        Some(number) => one(number),
        None => NONE,
    }
}

/// The number of a stream times 100, and its epoch, 0 where none runs.
pub(crate) fn of_found(found: Found) -> i64 {
    match found {
        Found::Missing => NONE,
        Found::Closed { stream } => two(u64::from(stream), 0),
        Found::Running { stream, epoch } => two(u64::from(stream), epoch),
    }
}

/// The number of the code.
pub fn of_code(code: ResponseCode) -> i64 {
    i64::from(code as u16)
}

/// The number of the code, or why there is none.
pub(crate) fn of_change(did: HubDid) -> i64 {
    match did {
        HubDid::Code(code) => of_code(code),
        HubDid::Failed => FAILED,
        HubDid::Memory => MEMORY,
    }
}

/// The serial of a pass times 100, and its epoch, where it is of this session and stream.
pub(crate) fn of_pass(session: u32, stream: u32, given: Result<Pass, DeclareFault>) -> i64 {
    match given {
        Ok(pass) => {
            if pass.session != session || pass.stream != stream {
                return OTHER;
            }
            two(u64::from(pass.serial), pass.epoch)
        }
        Err(DeclareFault::Closed) => CLOSED,
        Err(DeclareFault::Memory) => MEMORY,
    }
}

fn limit(what: What) -> i64 {
    match what {
        What::LogBytes => LOG_BYTES,
        What::References | What::Consumers | What::Queue => LIMIT,
    }
}

fn refused(fault: OfferFault) -> i64 {
    match fault {
        OfferFault::Stale { asked, running } => above(STALE, two(asked, running)),
        OfferFault::BadName { len } => above(BAD_NAME, one(len as u64)),
        OfferFault::EmptyBatch { place } => above(EMPTY_BATCH, one(u64::from(place))),
        OfferFault::Limit { what, most: _ } => limit(what),
        OfferFault::Memory => MEMORY,
    }
}

/// The end times 100, and how many items were added.
pub(crate) fn of_offer(told: Result<Taken, OfferFault>) -> i64 {
    match told {
        Ok(taken) => two(taken.end, u64::from(taken.accepted)),
        Err(fault) => refused(fault),
    }
}
