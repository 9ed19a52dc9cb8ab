//! Jobs are done.

ghost use Rattle.std.specs.Prelude.{◌≡◌, ◌<◌, suc, true, length, IfOk, OnOk, OnErr};
ghost use Rattle.cluster_core.specs.Up.{is_up, has_job};
ghost use Rattle.cluster_core.specs.States.{IsStream, Gives, done_due, counted_on};
ghost use Rattle.cluster_core.specs.Kept.{after_done, ahead_at};
ghost use Rattle.stream_cluster.specs.Seats.{SeatAt, is_due};

use crate::hear::finish_at;
use crate::place::Place;
use crate::replicas::Replicas;
use crate::share::ahead;
use chunk_format::Stored;
use cluster_core::{Outcome, commit, post};
use std::alloc::{AllocError, Global};

/// The number of a place goes on.
pub(crate) fn count_on(numbers: &mut [u64; 8], place: usize)
    requires { place < 8 }
    ensures { numbers.new ≡ counted_on place numbers.old }
{
    numbers[place] = numbers[place].wrapping_add(1);
}

/// What the member at a place may commit next, behind so many chunks.
pub(crate) fn ahead_of_seat(
    alloc: Global,
    seats: &[Place],
    place: usize,
    count: usize,
) -> Result<Vec<Stored>, AllocError>
    requires there { place < length seats.now }
    requires up { SeatAt seats.now place (λ s. s.up ≡ true) }
    ensures { IfOk result (λ v. SeatAt seats.now place (λ s. v.items ≡ ahead_at count s.state)) }
{
    let seat = &seats[place];
    ahead(alloc, &seat.member, count)
}

impl Replicas {
    /// The coordinator's epoch is durable.
    fn begin(&mut self) -> Result<(), AllocError>
        requires stream { IsStream self.old.cluster }
        requires up { is_up self.old.cluster 0 ≡ true }
        requires job { has_job self.old.cluster 0 ≡ true }
        ensures ok { OnOk result (self.new ≡ after_done 0 self.old) }
        ensures err { OnErr result (self.new ≡ self.old) }
    {
        self.mail.reserve(7)?;
        let sent = self.coordinator.done()?;
        self.last = post(&mut self.mail, self.last, sent);
        count_on(&mut self.numbers, 0);
        Ok(())
    }

    /// The pending job of the member at a place is done.
    fn finish(&mut self, place: usize) -> Result<(), AllocError>
        requires stream { IsStream self.old.cluster }
        requires up { is_up self.old.cluster (suc place) ≡ true }
        requires job { has_job self.old.cluster (suc place) ≡ true }
        ensures ok { OnOk result (self.new ≡ after_done (suc place) self.old) }
        ensures err { OnErr result (self.new ≡ self.old) }
    {
        let count = self.committed.len();
        let ahead = ahead_of_seat(self.alloc, self.seats.as_slice(), place, count)?;
        self.committed.reserve(ahead.len())?;
        self.mail.reserve(7)?;
        let did = finish_at(&mut self.seats, place)?;
        commit(&mut self.committed, ahead, did.end);
        self.last = post(&mut self.mail, self.last, did.sent);
        count_on(&mut self.numbers, place + 1);
        Ok(())
    }

    /// The pending job of the coordinator, number 0, or of a member is done, if it has this number.
    pub(crate) fn done(&mut self, member: u8, number: u64) -> Outcome
        requires { IsStream self.old.cluster }
        ensures { Gives (done_due member number self.old) result self.old self.new (after_done member self.old) }
    {
        if !self.is_due(member, number) {
            return Outcome::Nothing;
        }
        let Ok(()) = self.perform(member) else {
            return Outcome::Memory;
        };
        Outcome::Did
    }

    /// The pending job of the coordinator, number 0, or of a member is done.
    fn perform(&mut self, member: u8) -> Result<(), AllocError>
        requires stream { IsStream self.old.cluster }
        requires up { is_up self.old.cluster member ≡ true }
        requires job { has_job self.old.cluster member ≡ true }
        ensures ok { OnOk result (self.new ≡ after_done member self.old) }
        ensures err { OnErr result (self.new ≡ self.old) }
    {
        if member == 0 {
            return self.begin();
        }
        self.finish(member as usize - 1)
    }

    /// Whether the coordinator, number 0, or a member is up and its pending job has this number.
    fn is_due(&self, member: u8, number: u64) -> bool
        requires { IsStream self.now.cluster }
        ensures { result ≡ is_due member number self.now }
    {
        if !self.is_up(member) {
            return false;
        }
        if !self.has_job(member) {
            return false;
        }
        self.numbers[member as usize] == number
    }
}
