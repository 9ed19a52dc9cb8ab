//! A table of streams in memory: what a hub's calls do to them.
#![tactic(auto)]

mod asked;
mod taken;

pub use asked::{found_in, greatest_in, last_in, next_in, start_in, stored_in};
pub use taken::{confirms_in, declare_in, offer_in, place_of, store_in};
