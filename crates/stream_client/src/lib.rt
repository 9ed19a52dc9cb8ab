//! A client of one stream, under one name, without its connection: what it keeps, and what is done to it. Definitions of its
//! steps stand in `client_terms`.
#![tactic(auto)]

mod asking;
mod client;
mod client_core;
mod due;
mod frames;
mod heard;
mod hearing;
mod outbox;
mod queue;
mod receiving;
mod sending;

pub use client_core::ClientCore;
pub use client_terms::{EnqueueFault, Received};
pub use due::Due;
pub use outbox::Outbox;
pub use queue::Queue;
