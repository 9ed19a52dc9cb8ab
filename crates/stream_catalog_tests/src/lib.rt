//! The catalog on a disk in memory whose calls fail, and which crashes.
#![tactic(auto)]

mod asked;
#[cfg(test)]
mod large;
#[cfg(test)]
mod stopped;

pub use asked::{
    DISK, EXISTS, IN_SUPER, MISSING, NO_NAME, NO_PARTS, Request, STREAMS, ask, crash, fail_call,
    recover, sign,
};
