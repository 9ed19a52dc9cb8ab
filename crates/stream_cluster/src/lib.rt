//! One stream over its members: a coordinator, the members with their logs, the messages between them and the committed
//! list. Each event that happens to it is one call, after which the stream is sound; and so are the declarations, offers, stored
//! offsets and confirms of those that use it.
#![tactic(auto)]

mod calm;
mod cluster;
mod copies;
mod deliver;
mod event;
mod fault;
mod found;
mod hear;
mod index;
mod jobs;
mod laws;
mod nudge;
mod open;
mod place;
mod reads;
mod replicas;
mod restart;
mod running;
mod serve;
mod share;
mod takes;
mod whole;

pub use cluster::Cluster;
pub use event::Event;
pub use fault::OpenFault;
pub use laws::{ids_rise_on, kept_lists_stay_kept};
