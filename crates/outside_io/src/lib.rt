//! Where bytes come from and go to: sources, sinks and links, with clocks, listeners and spawners.
//!
//! A [`Source`] gives bytes and a [`Sink`] takes them; a [`Link`] does both, over a connection that
//! a [`Listener`] hands out. A [`Clock`] tells the time, and [`start`] runs a [`Work`] in a thread by
//! a [`Spawner`]. Each but the clock keeps a count of its failures, which never falls, and answers
//! `Failed` only where that count rose in the call. An object may also tell what is left or written;
//! code over the traits then has clauses on it.
//!
//! [`MemorySource`], [`MemorySink`], [`MemoryLink`], [`MemoryListener`] and [`MemorySpawner`] fail at
//! listed calls, and [`StepClock`] answers listed moments. [`SureSource`] and [`SureSink`] never
//! fail. [`StdSource`] and [`StdSink`] stand over a reader and a writer of std, [`TcpLink`] and
//! [`TcpListen`] over sockets, [`StdSpawner`] and [`StdClock`] over the machine.
#![tactic(auto)]

mod clock;
mod fail_plan;
mod link;
mod listener;
mod machine;
mod memory;
mod memory_link;
mod memory_listener;
mod memory_spawner;
mod sink;
mod sockets;
mod source;
mod spawner;
mod std_forms;
mod step_clock;
mod sure;

pub use clock::Clock;
pub use link::{Heard, Hearing, Link};
pub use listener::{Accepted, Listener};
pub use machine::{StdClock, StdSpawner};
pub use memory::{MemorySink, MemorySource};
pub use memory_link::MemoryLink;
pub use memory_listener::MemoryListener;
pub use memory_spawner::MemorySpawner;
pub use sink::{Gave, Sink};
pub use sockets::{TcpLink, TcpListen};
pub use source::{Source, Took};
pub use spawner::{Spawner, Started, Work, start};
pub use std_forms::{StdSink, StdSource};
pub use step_clock::StepClock;
pub use sure::{SureSink, SureSource};
