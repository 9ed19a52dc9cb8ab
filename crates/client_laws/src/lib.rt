//! Why what a client publishes is disciplined: laws over its steps and the list machine. Definitions stand in `specs/`; each
//! law is a function that does nothing, whose contract is the law.
#![tactic(auto)]

mod laws;

pub use laws::{a_client_is_disciplined, kept_ids_would_leave_gaps};
