//! Chunks whose header stands apart from their payload, as deliveries have them: entries are read straight from the payload.
#![tactic(auto)]

mod apart;
mod take;

pub use apart::read_apart;
