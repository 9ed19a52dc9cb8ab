//! What an offer is made into: the items of it that are taken, in runs, and the chunks that hold them.
#![tactic(auto)]

mod copies;
mod items;
mod made;
mod run;

pub use copies::{copy_entries, copy_ids};
pub use items::{any_taken, first_empty};
pub use made::{delta_chunk, stamp_of, user_chunk};
pub use run::{Run, next_run};
