//! What a stream and those that use it say to each other.
#![tactic(auto)]

mod laws;
mod lists;
mod search;
mod steps;
mod terms;

pub use laws::{
    confirmed_entries_are_counted, declarations_and_offers_keep_what_holds,
    handed_confirms_have_their_cause, moves_keep_what_was_handed_out,
};
pub use lists::{end_of, last_first, next_above, start_of};
pub use search::{Ends, StoredEnds, find_place};
pub use steps::Steps;
pub use terms::{Confirm, DeclareFault, Given, OfferFault, Pass, Taken, Waits, What};
