//! The disks of a stream, over what happens to its members: what a crash may leave of them belongs to the stream, so more
//! than half of them keep what is committed. Each function does nothing; its contract is the law.
#![tactic(auto)]

mod durable_laws;
mod epoch_laws;
mod job_laws;
mod member_laws;
mod refused_disks;
mod return_laws;
mod stream_laws;

pub use durable_laws::committed_lists_are_durable;
pub use epoch_laws::{
    a_job_keeps_an_epoch_backed, a_recovered_epoch_is_backed, epochs_stay_backed,
};
pub use job_laws::{
    coordinators_jobs_keep_streams_backed, crashes_keep_streams_backed,
    members_jobs_keep_streams_backed, pending_jobs_can_be_done,
};
pub use member_laws::{
    a_job_keeps_a_member_backed, a_recovered_member_is_backed, members_disks_stay_backed,
};
pub use refused_disks::disks_that_do_not_belong;
pub use return_laws::{
    opened_streams_are_backed, recovered_coordinators_return, recovered_members_return,
};
pub use stream_laws::{one_disk_changes, quiet_events_keep_streams_backed};
