//! The calls of a catalog, one after the other, and what each answers by the rules.
#![tactic(auto)]

mod call;
#[cfg(test)]
mod calls;

pub use call::{Call, make};
