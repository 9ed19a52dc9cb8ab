//! Tests of `stream_terms`: a search takes few steps.
#![tactic(auto)]

mod few;

pub use few::{search_none, search_some};
