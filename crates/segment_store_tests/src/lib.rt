//! A member's store on a disk in memory whose calls fail, and which crashes.
#![tactic(auto)]

#[cfg(test)]
mod begun;
mod chunks;
#[cfg(test)]
mod epochs;
#[cfg(test)]
mod found;
mod over_memory;
#[cfg(test)]
mod returning;
#[cfg(test)]
mod stopped;

pub use chunks::message;
pub use over_memory::{fail_call, give_epoch, perform, recover, recover_epochs, write};
