//! The laws of replication: what is committed stays, for every order, loss and repeat of messages and whoever stops and
//! comes back. Each function does nothing; its contract is the law.
#![tactic(auto)]

mod clause_laws;
mod confirm_laws;
mod event_laws;
mod history_laws;
mod opening_laws;
mod property_laws;
mod refused_runs;

pub use clause_laws::a_sound_stream;
pub use confirm_laws::{
    Claim, an_offer_is_what_its_confirm_claims, an_open_leaders_sequence_stays,
    claims_wait_and_stand,
};
pub use event_laws::{
    events_keep_soundness, kept_lists_stay_kept, members_are_sound_before_their_commit,
    the_committed_list_begins_the_open_leaders_log, the_committed_list_only_grows,
    the_committed_list_reaches_what_is_due,
};
pub use history_laws::what_stands_was_sent;
pub use opening_laws::{electors_are_flags, openings_are_sound, what_is_left_is_opened_again};
pub use property_laws::{
    IdsRise, LogProperty, SnapshotsAreTruthful, ids_rise, openings_have_the_property,
    properties_of_logs_stay, properties_that_offers_keep, snapshots_are_truthful,
};
pub use refused_runs::{
    a_leader_alone_is_no_majority, a_shape_doesnt_cut_its_own_epoch, older_epochs_dont_count,
};
