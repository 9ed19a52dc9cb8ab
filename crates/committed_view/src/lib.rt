//! The committed list of a stream, for readers that never wait: one writer publishes chunks, and each pass polls a list
//! that goes on from all that it polled before.
#![tactic(auto)]

mod laws;
mod pass;
mod share;
mod shown;
mod writer;

pub use laws::polls_go_on;
pub use pass::{ViewGuard, ViewNote, ViewPass};
pub use writer::{ViewWriter, open_view};
