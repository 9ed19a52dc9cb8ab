//! What comes of a settle, and of its steps.

ghost use Rattle.std.specs.Prelude.{◌≡◌, ◌≢◌, None, Some};
ghost use Rattle.cluster_core.specs.declared.outcome.Outcome.TheVariants as outcomes;
ghost use Rattle.stream_cluster.specs.Served.{members_of};
ghost use Rattle.stream_cluster.specs.Happens.{EventGives};
ghost use Rattle.stream_settle.specs.Settles.{TurnedBy};

use cluster_core::Outcome;
use stream_cluster::{Cluster, Event};

/// What came of a settle.
#[derive(Clone, Copy, Debug, PartialEq, Eq)]
pub enum Settled {
    /// No job is pending and no message is left.
    Did,
    /// Memory ran out. What was done so far has happened.
    Memory,
}

/// What came of one step of a settle.
#[derive(Clone, Copy)]
pub(crate) enum Turned {
    /// A job was answered, or a message delivered.
    On,
    /// There was none.
    Rest,
    /// Memory ran out.
    Memory,
}

/// Whether an event happened.
fn settled_of(outcome: &Outcome) -> Settled
    ensures did { result ≡ Settled.Did → outcome.now ≡ outcomes.Did }
    ensures memory { result ≡ Settled.Memory → outcome.now ≢ outcomes.Did }
{
    match outcome {
        Outcome::Did => Settled::Did,
        Outcome::Nothing => Settled::Memory,
        Outcome::Later { member: _ } => Settled::Memory,
        Outcome::Last { epoch: _ } => Settled::Memory,
        Outcome::Differs {
            expected_end: _,
            found_end: _,
        } => Settled::Memory,
        Outcome::Memory => Settled::Memory,
    }
}

/// What a step comes to, if the settle ends with it.
pub(crate) fn ended(turned: Turned) -> Option<Settled>
    ensures did { result ≡ Some Settled.Did → turned ≡ Turned.Rest }
{
    match turned {
        Turned::On => None,
        Turned::Rest => Some(Settled::Did),
        Turned::Memory => Some(Settled::Memory),
    }
}

/// The step that a part of a settle made.
pub(crate) fn turned_on(settled: Settled) -> Turned
    ensures { result ≢ Turned.Rest }
{
    match settled {
        Settled::Did => Turned::On,
        Settled::Memory => Turned::Memory,
    }
}

/// One event of a settle.
#[tactic(auto, using(crate::proofs::Advancing::turned_by))]
pub(crate) fn turn(cluster: &mut Cluster, event: &Event, now: u64) -> Settled
    ensures { TurnedBy (EventGives event.now now outcomes.Did (members_of cluster.old) cluster.new.state) result cluster.old cluster.new }
{
    let outcome = cluster.event(event, now);
    settled_of(&outcome)
}
