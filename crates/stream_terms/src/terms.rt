//! Passes, and what comes of using them.

use chunk_format::Entry;
use frame_wire::{Octets, Row};

/// What a stream gave a session for one declaration of a publisher. It is of use while its epoch runs.
#[derive(Clone, Copy, Debug, PartialEq, Eq)]
pub struct Pass {
    /// The number of the stream.
    pub stream: u32,
    /// The number of the session.
    pub session: u32,
    /// The passes of a stream are numbered from 0.
    pub serial: u32,
    /// The epoch that ran when it was given.
    pub epoch: u64,
}

/// A pass that was given, with the name of the publisher for which it was.
#[derive(Debug, Drop)]
pub struct Given {
    pub pass: Pass,
    /// It is empty where the publisher has none.
    pub name: Octets,
}

/// One offer that was taken, and waits for its confirm.
#[derive(Debug, Drop)]
pub struct Waits {
    pub given: Given,
    /// The first offset that it took. The range is empty where nothing was added.
    pub from: u64,
    /// The offset behind the last. The list holds all that was taken once it reaches this end.
    pub end: u64,
    /// The publishing ids of its items, in order.
    pub ids: Row<u64>,
    /// The entries of its items, in order.
    pub entries: Row<Entry>,
}

/// An offer that was taken.
#[derive(Clone, Copy, Debug, PartialEq, Eq)]
pub struct Taken {
    /// The list holds all that was taken once it reaches this end.
    pub end: u64,
    /// How many items were added. Those of a named publisher that repeat an id are left out.
    pub accepted: u32,
}

/// Why a publisher was not declared.
#[derive(Clone, Copy, Debug, PartialEq, Eq)]
pub enum DeclareFault {
    /// No epoch runs with an open leader, or the last pass was given.
    Closed,
    /// There was not enough memory.
    Memory,
}

/// What there may not be more of.
#[derive(Clone, Copy, Debug, PartialEq, Eq)]
pub enum What {
    /// Names of publishers.
    References,
    /// Names of consumers that stored offsets.
    Consumers,
    /// Bytes of the log.
    LogBytes,
    /// Chunks that were taken and not yet written.
    Queue,
}

/// Why an offer was not taken.
#[derive(Clone, Copy, Debug, PartialEq, Eq)]
pub enum OfferFault {
    /// Another epoch runs than that of the pass, or none, which is told as 0.
    Stale { asked: u64, running: u64 },
    /// The name of a stored offset does not have 1 to 255 bytes.
    BadName { len: usize },
    /// The item at this place, counted from 0, is a sub-batch of no records.
    EmptyBatch { place: u32 },
    /// There would be more than `most` of it.
    Limit { what: What, most: u64 },
    /// There was not enough memory.
    Memory,
}

/// The ids of one offer, all of whose entries are in the list.
#[derive(Debug, Drop)]
pub struct Confirm {
    /// The number of the stream.
    pub stream: u32,
    /// That of the pass with which they were offered.
    pub serial: u32,
    /// The end of the list for which the confirm waited.
    pub end: u64,
    /// The publishing ids, in the order of the offer.
    pub ids: Row<u64>,
}
