//! One stream over its members, and what it does for those that use it.

ghost use Rattle.std.specs.Prelude.{◌≡◌, ◌⊎◌, ◌↔◌, IsTrue};
ghost use Rattle.chunk_format.specs.Logs.{GoesOn};
ghost use Rattle.cluster_core.specs.declared.outcome.Outcome.TheVariants.{Did};
ghost use Rattle.cluster_core.specs.States.{IsStream, IfDid, Happened, Gives};
ghost use Rattle.cluster_core.specs.Kept.{after_done};
ghost use Rattle.stream_cluster.specs.Happens.{EventGives, receipt_due, numbered_state};
ghost use Rattle.stream_cluster.specs.Served.{members_of, Moves};

use crate::event::Event;
use crate::index::Index;
use crate::replicas::Replicas;
use cluster_core::Outcome;
use frame_wire::Limits;
use segment_store::Receipt;
use std::alloc::Global;
use std::marker::Model;
use stream_passes::Passes;

/// One stream over its members, the passes that it gave, and the offers that wait for confirms. It is sound at every moment,
/// each offer that waits stands in the sequence of the leader whose epoch runs, and each that is ready has its cause in the
/// committed list.
#[derive(Drop)]
pub struct Cluster {
    pub(crate) alloc: Global,
    pub(crate) limits: Limits,
    pub(crate) replicas: Replicas,
    /// They keep the number of the stream.
    pub(crate) passes: Passes,
    /// Of the committed list.
    pub(crate) index: Index,
}

impl Model for Cluster {
    ghost use Rattle.member_core.specs.Kept.{IsKnown};
    ghost use Rattle.stream_cluster.specs.Served.{ServedState, served, IsServed};

    ghost Value = { ServedState };

    ghost view = { λ c. served c.limits c.replicas c.passes };

    ghost invariant = { λ c. IsServed (served c.limits c.replicas c.passes) × IsKnown c.replicas.cluster.committed c.index.count c.index.tracking };
}

impl Replicas {
    /// A job of which there is a receipt is done. A receipt of another stream is of none here.
    fn receive(&mut self, stream: u32, receipt: &Receipt) -> Outcome
        requires { IsStream self.old.cluster }
        ensures { Gives (receipt_due receipt.now (numbered_state stream self.old)) result self.old self.new (after_done receipt.now.member self.old) }
    {
        if receipt.stream() != stream {
            return Outcome::Nothing;
        }
        self.done(receipt.member(), receipt.number())
    }

    /// One event happens to a stream of this number, at a moment in milliseconds.
    fn happen(&mut self, stream: u32, event: &Event, now: u64) -> Outcome
        requires { IsStream self.old.cluster }
        ensures { EventGives event.now now result (numbered_state stream self.old) self.new }
    {
        match event {
            Event::Elect => self.elect(),
            Event::Deliver(number) => self.deliver(*number, now),
            Event::Lose(number) => self.lose(*number),
            Event::Forget => self.forget(),
            Event::Nudge => self.nudge(),
            Event::Done(receipt) => self.receive(stream, receipt),
            Event::Stop { member } => self.stop(*member),
            Event::Restart(found) => self.restart(found),
            Event::Reopen { epoch } => self.reopen(*epoch),
        }
    }
}

/// Whether an event happened.
fn is_did(outcome: &Outcome) -> bool
    ensures { IsTrue result ↔ (outcome.now ≡ Did) }
{
    match outcome {
        Outcome::Did => true,
        Outcome::Nothing => false,
        Outcome::Later { member: _ } => false,
        Outcome::Last { epoch: _ } => false,
        Outcome::Differs {
            expected_end: _,
            found_end: _,
        } => false,
        Outcome::Memory => false,
    }
}

impl Cluster {
    /// One event happens, at a moment in milliseconds. It is Later where the receiver of a message, or the coordinator
    /// that is to elect, has a job pending; Last where no epoch follows; Differs where a disk has what was not left on it;
    /// and Nothing where the message, the member or the job of the receipt isn't there, or the member is down for a
    /// message, an election or a stop, or up for a restart or a reopening. Else it happened, unless memory ran out. After
    /// every outcome but Did the stream is unchanged; the committed list only grows. Offers that it then reaches are ready
    /// for their confirms, and of the others those go on waiting whose epoch runs on; the rest are dropped.
    pub fn event(&mut self, event: &Event, now: u64) -> Outcome
        ensures gives { EventGives event.now now result (members_of self.old) self.new.state }
        ensures number { self.new.number ≡ self.old.number }
        ensures sound { IsStream self.new.state.cluster }
        ensures grows { GoesOn self.old.state.cluster.committed self.new.state.cluster.committed }
        ensures step { IfDid result (Happened now self.old.state.cluster self.new.state.cluster) }
        ensures moved { IfDid result (Moves self.old self.new) }
        ensures same { (result ≡ Did) ⊎ (self.new ≡ self.old) }
    {
        let number = self.passes.number();
        let outcome = self.replicas.happen(number, event, now);
        if !is_did(&outcome) {
            return outcome;
        }
        let end = self.replicas.end();
        let running = self.replicas.running();
        self.passes.moved(end, running);
        outcome
    }
}
