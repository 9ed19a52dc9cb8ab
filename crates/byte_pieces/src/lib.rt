//! A list of bytes that grows in pieces of 1 MiB.
#![tactic(auto)]

mod pieces;

pub use pieces::Pieces;
