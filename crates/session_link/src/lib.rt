//! A served link: a session's turns over a connection, from its first bytes to its end.
#![tactic(auto)]

mod ending;
mod gathering;
mod sending;
mod serving;

pub use gathering::Due;
pub use sending::Went;
pub use serving::serve_link;
