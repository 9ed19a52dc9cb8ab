//! Single active consumers: of the consumers that share a name on a stream one is active, and the next one starts
//! only when the one before has answered.
#![tactic(auto)]

mod consumer;
mod group;
mod groups;
mod laws;

pub use consumer::{Change, ConsumerId, GroupState};
pub use groups::Groups;
pub use laws::groups_settle;
