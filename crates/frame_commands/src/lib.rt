//! The commands that a connection's bytes spell, frame by frame.
#![tactic(auto)]

mod given;
mod laws;

pub use given::{Given, read_commands};
pub use laws::{commands_have_one_reading, pieces_join};
