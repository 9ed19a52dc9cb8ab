//! What happens to a stream, and what came of it.

/// What came of an event. After every outcome but `Did` the stream is unchanged.
#[derive(Clone, Copy, Debug, PartialEq, Eq)]
pub enum Outcome {
    /// It happened.
    Did,
    /// The message, the member or its job isn't there; or the member is down, or up where it is to come up.
    Nothing,
    /// The member of this number, or the coordinator as 0, has a job pending.
    Later { member: u8 },
    /// The epoch is the greatest number, so no election can follow it.
    Last { epoch: u64 },
    /// What a disk had is not what was left on it: the log ends, or the epoch is, as found and not as expected.
    Differs { expected_end: u64, found_end: u64 },
    /// There was not enough memory.
    Memory,
}
