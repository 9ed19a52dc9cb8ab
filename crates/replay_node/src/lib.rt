//! A node that is driven by the lines of a script, and the replay of a whole script.
#![tactic(auto)]

mod examples;
mod laws;
mod node;
mod output;
mod player;
mod session;

pub use examples::list_machine_on_literals;
pub use laws::{given_bytes_join, pieces_are_cut, rows_are_written_out};
pub use node::Node;
pub use player::{ReplayEnd, replay};
pub use session::{Link, Offer, Served};
