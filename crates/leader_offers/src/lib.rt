//! What an offer and a stored offset add to the sequence of a member that leads: exactly their chunks, or nothing.
#![tactic(auto)]

mod laws;
mod lay;
mod limits;
mod offers;
mod put;
mod store;

pub use laws::{added_chunks_are_of_their_kind, added_chunks_have_a_spelling};
pub use offers::offer;
pub use store::store_offset;
