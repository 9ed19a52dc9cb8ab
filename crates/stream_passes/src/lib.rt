//! The passes that a stream gave, and its offers that wait for confirms.
#![tactic(auto)]

mod confirms;
mod given;
mod laws;
mod passes;
mod queue;

pub use laws::{calls_are_steps, moves_keep_what_holds};
pub use passes::Passes;
