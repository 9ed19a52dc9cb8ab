ghost use Rattle.std.specs.Prelude.{◌≡◌, ◌↔◌, false, IfOk};
ghost use Rattle.outside_io.specs.Causes.{HasCause};
ghost use Rattle.outside_io.specs.Listeners.{HandsOut, over_after};
ghost use Rattle.outside_io.specs.Memory.{Counts, FailsNext};

use crate::fail_plan::FailPlan;
use crate::link::Link;
use crate::listener::{Accepted, Listener};
use frame_wire::Row;
use std::alloc::{AllocError, Global};
use std::collections::VecDeque;
use std::marker::Model;

/// A listener over a list of links, whose listed accepts fail.
#[derive(Debug, Drop)]
pub struct MemoryListener<L> {
    links: VecDeque<L>,
    has_ended: bool,
    accepts: FailPlan,
}

impl<L> Model for MemoryListener<L> {
    ghost use Rattle.outside_io.specs.Memory.{ListenerState};

    ghost Value = { ListenerState L };

    ghost view = { λ l. record {
      links = l.links.items;
      has_ended = l.has_ended;
      accepts = l.accepts;
    } };
}

impl<L: Link> MemoryListener<L> {
    /// A listener that hands out these links. `fails` has the numbers, from 1, of the accepts that
    /// fail. It takes memory for a copy of them.
    pub fn new(alloc: Global, links: Row<L>, fails: &[u64]) -> Result<MemoryListener<L>, AllocError>
        ensures { IfOk result (λ l. l ≡ record {
          links = links;
          has_ended = false;
          accepts = record { fails = fails.now; calls = 0; faults = 0 };
        }) }
    {
        Ok(MemoryListener {
            links: VecDeque::from(links.into_vec()),
            has_ended: false,
            accepts: FailPlan::new(alloc, fails)?,
        })
    }
}

impl<L: Link> Listener for MemoryListener<L> {
    type Conn = L;

    ghost has_ended = { λ l. l.has_ended };

    ghost faults = { λ l. l.accepts.faults };

    /// Fails exactly at the listed accepts. Else it hands out the links in order, and then answers
    /// Ended. It takes no memory.
    fn accept(&mut self) -> Accepted<L>
        ensures ended { self.new.has_ended ≡ over_after self.old.has_ended result }
        ensures cause { HasCause self.old.accepts.faults self.new.accepts.faults
            (result ≡ Accepted.Failed) }
        ensures listed { (result ≡ Accepted.Failed)
            ↔ FailsNext self.old.accepts.fails self.old.accepts.calls }
        ensures links { HandsOut self.old.links result self.new.links }
        ensures accepts { Counts self.old.accepts self.new.accepts (result ≡ Accepted.Failed) }
    {
        if self.accepts.next_fails() {
            self.accepts.count_fault();
            return Accepted::Failed;
        }
        match self.links.pop_front() {
            Some(link) => Accepted::Got(link),
            None => {
                self.has_ended = true;
                Accepted::Ended
            }
        }
    }
}
