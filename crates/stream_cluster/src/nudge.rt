//! What is sent again.

ghost use Rattle.std.specs.Prelude.{◌≡◌, ◌++◌, [], length, OnOk, OnErr, IfOk};
ghost use Rattle.epoch_coordinator.specs.MemberSteps as members;
ghost use Rattle.epoch_coordinator.specs.Coordinators as coordinators;
ghost use Rattle.replication_laws.specs.Events.{nudges, nudges_by, member_nudges};
ghost use Rattle.cluster_core.specs.declared.outcome.Outcome.TheVariants.{Did};
ghost use Rattle.cluster_core.specs.States.{Gives};
ghost use Rattle.cluster_core.specs.Kept.{after_nudge};

use crate::place::Place;
use crate::replicas::Replicas;
use cluster_core::{Outcome, post};
use epoch_coordinator::{Coordinator, Sent};
use frame_wire::Row;
use std::alloc::{AllocError, Global};

/// Puts messages behind others.
fn add_all(sent: &mut Row<Sent>, more: Row<Sent>) -> Result<(), AllocError>
    ensures { OnOk result (sent.new ≡ sent.old ++ more) }
{
    let mut left = more.into_vec();
    'more: while !left.is_empty() {
        let one = left.remove(0);
        if sent.push(one).is_err() {
            return Err(AllocError);
        }
    }
    Ok(())
}

/// What a member sends again, if it is up, behind other messages.
fn add_nudge(alloc: Global, sent: &mut Row<Sent>, seat: &Place) -> Result<(), AllocError>
    ensures { OnOk result (sent.new ≡ sent.old ++ nudges_by seat.now.up (members.nudged seat.now.state)) }
{
    if !seat.up {
        return Ok(());
    }
    let more = seat.member.nudge(alloc)?;
    add_all(sent, more)
}

/// What the members that are up send again, by number, behind other messages.
fn add_nudges(alloc: Global, sent: &mut Row<Sent>, seats: &[Place]) -> Result<(), AllocError>
    ensures { OnOk result (sent.new ≡ sent.old ++ member_nudges seats.now) }
{
    for seat in seats {
        add_nudge(alloc, sent, seat)?;
    }
    Ok(())
}

/// What the coordinator sends again, if it is up.
fn coordinator_nudges(
    alloc: Global,
    up: bool,
    coordinator: &Coordinator,
) -> Result<Row<Sent>, AllocError>
    ensures { IfOk result (λ sent. sent ≡ nudges_by up (coordinators.nudged coordinator.now)) }
{
    if !up {
        return Ok(Row::new(alloc));
    }
    coordinator.nudge(alloc)
}

impl Replicas {
    /// What the coordinator and the members that are up send again.
    fn nudges(&self) -> Result<Row<Sent>, AllocError>
        ensures { IfOk result (λ sent. sent ≡ nudges self.now.cluster) }
    {
        let mut sent = coordinator_nudges(self.alloc, self.coordinator_up, &self.coordinator)?;
        add_nudges(self.alloc, &mut sent, self.seats.as_slice())?;
        Ok(sent)
    }

    /// The coordinator and the members that are up send again what may have been lost.
    pub(crate) fn nudge(&mut self) -> Outcome
        ensures { Gives Did result self.old self.new (after_nudge self.old) }
    {
        let Ok(sent) = self.nudges() else {
            return Outcome::Memory;
        };
        if self.mail.reserve(sent.as_slice().len()).is_err() {
            return Outcome::Memory;
        }
        self.last = post(&mut self.mail, self.last, sent);
        Outcome::Did
    }
}
