//! Pairs of words that last, each behind a gate.
//!
//! They stand in two files, of which one counts: the first where it is there, else the second. The first
//! is `STGW`, 1 as a u32, and a record of 17 bytes for each pair: two big-endian u64 and the gate 0xa5. The
//! second is `STGW`, 2 as a u32, and records of 18 bytes: two u64, the xor of their sixteen bytes, and the
//! gate. Opening moves the pairs of a first file into the second. The gate is written only once the words
//! are sure, so that a crash at any moment leaves the old pairs, or the old and the new one.
#![tactic(auto)]

mod add_pair;
mod fault;
mod gated;
mod laws;
mod open_file;
mod record;

pub use fault::GateFault;
pub use gated::Gated;
pub use laws::{gated_files_are_lawful, pairs_stay_backed};
