//! One member of a stream: what it does with each message, finished job and offer. It keeps the chunks of its log, those
//! that wait behind it, and what is known of both.
#![tactic(auto)]

mod back;
mod commit;
mod counted;
mod done;
mod duty;
mod known;
mod member;
mod member_log;
mod runs;
mod search;
mod send;
mod take;

pub use back::Mark;
pub use duty::Role;
pub use member::{Member, MemberStart};
pub use take::Taken;
