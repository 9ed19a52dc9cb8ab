//! What a hub answers.

use command_fields::ResponseCode;

/// What a name of a stream leads to.
#[derive(Clone, Copy, Debug, PartialEq, Eq)]
pub enum Found {
    /// No live stream has the name.
    Missing,
    /// No epoch runs with an open leader.
    Closed { stream: u32 },
    /// The number of the stream, and the epoch that runs.
    Running { stream: u32, epoch: u64 },
}

/// What came of a change of the catalog.
#[derive(Clone, Copy, Debug, PartialEq, Eq)]
pub enum HubDid {
    /// `Ok`, `StreamDoesNotExist`, `StreamAlreadyExists` or `PreconditionFailed`.
    Code(ResponseCode),
    /// A disk failed.
    Failed,
    /// There was not enough memory.
    Memory,
}
