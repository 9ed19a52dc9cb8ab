//! What a log says by name: the greatest ids of publishers and the last offsets that consumers stored.
#![tactic(auto)]

mod laws;
mod named;
mod note;
mod parts;
mod said;
mod tracking;

pub use laws::a_snapshot_changes_nothing;
pub use note::Latest;
pub use tracking::{Tracking, first_untruthful};
