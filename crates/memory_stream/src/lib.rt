//! One stream in memory: what is offered is in its list at once, and its confirm is ready.
#![tactic(auto)]

mod chosen;
mod copies;
mod made;
mod passes;
mod stream;

pub use stream::MemoryStream;
