//! The list machine: what a stream server must be, with no member, file, queue or thread in it. Definitions stand in
//! `specs/`; each law is a function that does nothing, whose contract is the law.
#![tactic(auto)]

mod examples;
mod joining;
mod laws;
mod server;

pub use examples::{
    inspections_are_told_apart, nothing_else_is_written, runs_before_wrong_events_stand,
    transcripts_are_told_apart, worked_runs_stand, wrong_answers_have_no_run,
    wrong_chunks_are_refused, wrong_confirms_are_refused, wrong_confirms_have_no_run,
    wrong_deliveries_are_refused, wrong_deliveries_have_no_run, wrong_rows_have_no_run,
    wrong_runs_are_none,
};
pub use joining::{handed_out_is_confirmed, moves_are_commits};
pub use laws::{
    answers_are_written_once, commit_lines_are_commits, confirmed_stand_once, deliveries_are_runs,
    inspections_look_at_the_list, items_were_given, lines_wait_for_answers, lists_only_grow,
    nothing_comes_behind_the_end, rows_are_right, unasked_frames_are_steps,
};
pub use server::{a_server_at_work, a_server_commits, a_server_confirms};
