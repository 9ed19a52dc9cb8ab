//! A session's way to streams, catalog and groups.
#![tactic(auto)]

mod hub;
mod laws;
mod terms;

pub use active_groups::{Change, ConsumerId};
pub use hub::Hub;
pub use laws::a_table_of_streams_is_a_hub;
pub use stream_terms::{Confirm, DeclareFault, OfferFault, Pass, Taken, What};
pub use terms::{Found, HubDid};
