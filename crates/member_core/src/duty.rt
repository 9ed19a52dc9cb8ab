//! What a member does in the epoch that it promised.

use epoch_coordinator::Run;
use frame_wire::Row;

/// What a member does, as it is told to callers.
#[derive(Clone, Copy, Debug, PartialEq, Eq)]
pub enum Role {
    /// It takes part in no epoch, and may be elected.
    Stopped,
    /// It leads. It is opened once its first chunk is written.
    Leader { opened: bool },
    /// It follows the member of this number.
    Follower { leader: u8 },
}

/// What a leader keeps.
#[derive(Drop)]
pub(crate) struct Lead {
    pub opened: bool,
    /// The runs of its log before the first chunk that it wrote.
    pub kept: Row<Run>,
    /// Of each member, by number from 1 on, the end that it acknowledged.
    pub acknowledged: [u64; 7],
}

/// What a member does.
#[derive(Drop)]
pub(crate) enum Duty {
    Stopped,
    Follower { leader: u8 },
    Leader(Lead),
}
