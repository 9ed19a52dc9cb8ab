//! The rules of replication of one stream: what members and the coordinator send, and the coordinator.
#![tactic(auto)]

mod coordinator;
mod election;
mod laws;
mod message;
mod tail;

pub use coordinator::{Coordinator, Elected, MOST_MEMBERS, Phase, StoppedDid};
pub use laws::worked_scripts;
pub use message::{Job, Message, Sent};
pub use tail::{Run, Tail};
