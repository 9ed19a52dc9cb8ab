//! A client of streams: what it keeps, what it says next, and what each frame means to it. Definitions stand in `specs/`.
#![tactic(auto)]

mod fault;
mod terms;

pub use command_all::Identity;
pub use confirmed_ids::Range;
pub use fault::{ClientFault, EnqueueFault};
pub use terms::{Received, Request, Stage, Wish};
