//! The laws of coming to rest: what a settle is, that it ends, and what it brings about. Each function does nothing; its
//! contract is the law.
#![tactic(auto)]

mod complete_laws;
mod ending_laws;
mod refused_runs;
mod step_laws;

pub use complete_laws::{
    a_settle_completes, a_settle_leaves_nothing, an_election_opens, no_claim_waits,
};
pub use ending_laws::{a_settle_ends, jobs_run_out, numbers_rise};
pub use refused_runs::{
    a_fault_stops_its_member, messages_are_delivered_first, numbering_begins_again,
    one_nudge_behind_the_jobs,
};
pub use step_laws::{
    a_settle_keeps_soundness, messages_stand_in_order, settle_steps_are_events, steps_follow_steps,
};
