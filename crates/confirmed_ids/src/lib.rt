//! Ids that are confirmed, in whatever order they come: all up to one, and ranges above it.
#![tactic(auto)]

mod ids;
mod ranges;

pub use ids::ConfirmedIds;
pub use ranges::Range;
