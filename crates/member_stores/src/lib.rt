//! The stores of the members of a stream that are up, each over a disk of its own.
#![tactic(auto)]

mod fault;
mod shelf;
mod stores;

pub use fault::WorkFault;
pub use shelf::Shelf;
pub use stores::Stores;
