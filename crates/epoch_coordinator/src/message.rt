//! What members and the coordinator of a stream send each other, and what they do on their disks.

use crate::tail::{Run, Tail};
use chunk_format::Stored;
use frame_wire::Row;

/// A message of replication. Each has the epoch in which it was sent.
#[derive(Debug, Drop)]
pub enum Message {
    /// The coordinator begins an epoch: members of an earlier one are to stop.
    Stop {
        epoch: u64,
    },
    /// A member has stopped for the epoch, and its log ends so.
    Stopped {
        epoch: u64,
        from: u8,
        tail: Tail,
    },
    /// The coordinator makes the receiver the leader of the epoch.
    Open {
        epoch: u64,
    },
    /// The coordinator names the leader of the epoch.
    Follow {
        epoch: u64,
        leader: u8,
    },
    /// A leader tells the runs that its log had when it opened the epoch.
    Shape {
        epoch: u64,
        runs: Row<Run>,
    },
    /// A follower's log ends so: it has all up to there, and asks for the next chunk.
    Ask {
        epoch: u64,
        from: u8,
        tail: Tail,
    },
    /// A leader's chunk, and the tail of its log before it.
    Append {
        epoch: u64,
        previous: Tail,
        chunk: Stored,
    },
}

/// A message and its receiver: a member's number, or 0 for the coordinator.
#[derive(Debug, Drop)]
pub struct Sent {
    pub to: u8,
    pub message: Message,
}

/// What a member or the coordinator has to do on its disk before it goes on.
#[derive(Debug, Drop)]
pub enum Job {
    /// The chunk goes to the end of the member's log.
    Write(Stored),
    /// The member's log is cut to the chunks that end at this offset or before it.
    Cut(u64),
    /// The member promises this epoch.
    Promise(u64),
    /// The coordinator's epoch becomes this one.
    Epoch(u64),
}
