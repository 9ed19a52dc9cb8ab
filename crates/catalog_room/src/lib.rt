//! The catalog of a server over threads: what its lock holds, and the calls on it.
#![tactic(auto)]

mod asking;
mod laws;
mod room;
mod telling;

pub use laws::catalog_and_epochs_stand_apart;
pub use room::CatalogRoom;
