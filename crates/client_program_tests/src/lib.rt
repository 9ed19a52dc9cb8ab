//! Tests of a client's program over a connection in memory: what no clause says.
#![tactic(auto)]

#[cfg(test)]
mod acts;
mod drip;
#[cfg(test)]
mod faults;
mod frames;
#[cfg(test)]
mod inputs;
mod played;

pub use drip::Drip;
pub use played::{Fails, Play, Played, bytes_of, run_play};
