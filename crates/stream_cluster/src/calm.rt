//! Events of which no member hears.

ghost use Rattle.std.specs.Prelude.{◌≡◌};
ghost use Rattle.cluster_core.specs.declared.outcome.Outcome.TheVariants.{Did};
ghost use Rattle.cluster_core.specs.States.{IsStream, Gives, elect_due, lose_due, stop_due, may_begin, reopen_due};
ghost use Rattle.cluster_core.specs.Kept.{after_elect, after_lose, after_forget, after_stop, after_reopen};
ghost use Rattle.stream_cluster.specs.Seats.{outcome_of};

use crate::jobs::count_on;
use crate::replicas::Replicas;
use cluster_core::{Outcome, place_of};
use epoch_coordinator::{Coordinator, Elected, Job};

/// What came of an election.
fn outcome_of(elected: Elected) -> Outcome
    ensures { result ≡ outcome_of elected }
{
    match elected {
        Elected::Asked { epoch: _ } => Outcome::Did,
        Elected::Later => Outcome::Later { member: 0 },
        Elected::Last { epoch } => Outcome::Last { epoch },
    }
}

/// Whether the coordinator's disk may have an epoch: the durable one, or that of the job that was cut off.
fn may_begin(coordinator: &Coordinator, epoch: u64) -> bool
    ensures { result ≡ may_begin coordinator.now epoch }
{
    if coordinator.epoch() == epoch {
        return true;
    }
    match coordinator.job() {
        Some(Job::Epoch(next)) => next == epoch,
        _ => false,
    }
}

impl Replicas {
    /// An election: the next epoch is to be made durable.
    pub(crate) fn elect(&mut self) -> Outcome
        ensures { Gives (elect_due self.old.cluster) result self.old self.new (after_elect self.old) }
    {
        if !self.coordinator_up {
            return Outcome::Nothing;
        }
        outcome_of(self.coordinator.elect())
    }

    /// One message is lost.
    pub(crate) fn lose(&mut self, number: u64) -> Outcome
        ensures { Gives (lose_due number self.old.cluster) result self.old self.new (after_lose number self.old) }
    {
        let Some(place) = place_of(self.mail.as_slice(), number) else {
            return Outcome::Nothing;
        };
        let _lost = self.mail.remove(place);
        Outcome::Did
    }

    /// All messages are forgotten, and numbers begin again from 1.
    pub(crate) fn forget(&mut self) -> Outcome
        ensures { Gives Did result self.old self.new (after_forget self.old) }
    {
        self.mail.clear();
        self.last = 0;
        Outcome::Did
    }

    /// The coordinator, number 0, or a member goes down.
    pub(crate) fn stop(&mut self, member: u8) -> Outcome
        ensures { Gives (stop_due member self.old.cluster) result self.old self.new (after_stop member self.old) }
    {
        if !self.is_up(member) {
            return Outcome::Nothing;
        }
        if member == 0 {
            self.coordinator_up = false;
            return Outcome::Did;
        }
        self.seats[member as usize - 1].go_down();
        Outcome::Did
    }

    /// The coordinator comes up, idle, with the epoch that its disk has.
    pub(crate) fn reopen(&mut self, epoch: u64) -> Outcome
        requires { IsStream self.old.cluster }
        ensures { Gives (reopen_due epoch self.old.cluster) result self.old self.new (after_reopen epoch self.old) }
    {
        if self.coordinator_up {
            return Outcome::Nothing;
        }
        if !may_begin(&self.coordinator, epoch) {
            return Outcome::Differs {
                expected_end: self.coordinator.epoch(),
                found_end: epoch,
            };
        }
        let members = self.seats.len() as u8;
        let Ok(coordinator) = Coordinator::open(self.alloc, members, epoch) else {
            return Outcome::Memory;
        };
        self.coordinator_up = true;
        self.coordinator = coordinator;
        count_on(&mut self.numbers, 0);
        Outcome::Did
    }
}
