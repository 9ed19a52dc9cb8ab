//! Callers of gated words that are proved from their contracts alone, and tests of what no clause says.
#![tactic(auto)]

mod crashed;
#[cfg(test)]
mod over_memory;
#[cfg(test)]
mod stopped;

pub use crashed::{fail_call, open_crashed, put_crashed};
