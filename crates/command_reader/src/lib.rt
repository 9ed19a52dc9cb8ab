//! Reads the commands of a peer from its bytes, in whatever pieces they come.
#![tactic(auto)]

mod laws;
mod pending;
mod reader;

pub use laws::{answers_are_of_the_bytes, the_bytes_alone_count};
pub use reader::{CLIENT_FRAME_MAX, CommandReader, Next, SERVER_FRAME_MAX};
