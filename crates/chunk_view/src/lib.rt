//! Chunks of a log as views: the entries are slices of the chunk's bytes, and no call takes memory.
#![tactic(auto)]

mod entries;
mod entry;
mod view;

pub use entries::EntryViews;
pub use entry::EntryView;
pub use view::ChunkView;
