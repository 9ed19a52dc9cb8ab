//! A log over the segments of a disk, and the epochs of streams on the disk of the coordinator.
//!
//! A chunk begins a new segment where that of the last chunk has at least 262,144 bytes; a segment is named by the
//! first offset of its first chunk. A table tells where each chunk stands.
#![tactic(auto)]

mod clear;
mod cut;
mod ends;
mod epochs;
mod fault;
mod find;
mod found;
mod member_store;
mod receipt;
mod recover;
mod recovered;
mod rows;
mod segment_log;
mod store_laws;
mod write;

pub use epochs::EpochStore;
pub use fault::StoreFault;
pub use member_store::MemberStore;
pub use receipt::Receipt;
pub use recovered::{Recovered, Recovery};
pub use segment_log::SegmentLog;
pub use store_laws::{
    epochs_recover, jobs_continue_logs, logs_outlast_crashes, recoverable_files_recover,
    recovery_may_begin, stores_stay_backed,
};
