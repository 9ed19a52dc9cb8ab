//! A stream comes to rest over its disks.
#![tactic(auto)]

mod jobs;
mod next;
mod settled;
mod turns;

pub use settled::Settled;
pub use turns::settle;
