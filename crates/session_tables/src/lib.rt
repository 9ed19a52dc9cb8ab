//! What a session needs no hub for: its tables, the opening of a connection, its heartbeats, and how its replies are spelled.
#![tactic(auto)]

mod moments;
mod opening;
mod publishers;
mod reply;
mod spelling;
mod streams;
mod tables;
mod text;
mod words;

pub use command_all::Identity;
pub use moments::{Moments, Pulse};
pub use opening::{close, open, part};
pub use publishers::{Publisher, Publishers, is_over};
pub use reply::{Reply, Request};
pub use spelling::put_reply;
pub use streams::{StreamName, Streams};
pub use tables::{SessionEnd, Stage, Subscription, Tables};
pub use text::{bytes_of, group_name, is_single, takes_second};
