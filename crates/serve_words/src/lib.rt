//! The words behind `serve` on the server's command line.
#![tactic(auto)]

mod options;
mod words;

pub use words::{ServeWords, WordsFault, serve_words};
