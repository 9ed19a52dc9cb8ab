//! A hub in memory.
#![tactic(auto)]

mod asking;
mod hub;
mod names;
mod streams;

pub use hub::MemoryHub;
