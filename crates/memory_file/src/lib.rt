//! A file in memory, which a crash may leave in one of four images.
#![tactic(auto)]

mod file;

pub use file::{Call, MemoryFile, Took};
