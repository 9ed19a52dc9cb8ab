//! A stream over its members, in parts: messages by their numbers, the committed list, the epoch that runs, what events do
//! to a stream of which the reigns are not kept, and the tests of the logs over which it is opened.
#![tactic(auto)]

mod agree;
mod committed;
mod event_laws;
mod laws;
mod mail;
mod outcome;
mod whole;

pub use agree::{common, diverged_at, same_chunk};
pub use committed::{commit, list_end};
pub use event_laws::{
    events_are_steps, openings_are_streams, steps_are_moves, steps_keep_what_holds,
    the_committed_list_is_a_log, what_was_shared_is_enough,
};
pub use laws::{
    electors_are_told_to_follow, messages_are_found_by_number, the_running_epoch,
    what_is_committed_stands_ahead,
};
pub use mail::{Numbered, mark, place_of, post, post_did, post_follows, post_one};
pub use outcome::Outcome;
pub use whole::broken_at;
