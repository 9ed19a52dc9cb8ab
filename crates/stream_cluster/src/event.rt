//! What happens to a stream.

use segment_store::{Receipt, Recovered};

/// What happens to a stream. Member 0 is its coordinator.
#[derive(Drop)]
pub enum Event {
    /// An election: the next epoch is to be made durable.
    Elect,
    /// The message of this number comes to its receiver.
    Deliver(u64),
    /// The message of this number is lost.
    Lose(u64),
    /// All messages are forgotten, and numbers begin again from 1.
    Forget,
    /// The coordinator and the members that are up send again what may have been lost.
    Nudge,
    /// A job was done.
    Done(Receipt),
    /// The coordinator or a member goes down, as after a fault of its disk.
    Stop { member: u8 },
    /// A member comes up with what its disk has.
    Restart(Recovered),
    /// The coordinator comes up with the epoch that its disk has.
    Reopen { epoch: u64 },
}
