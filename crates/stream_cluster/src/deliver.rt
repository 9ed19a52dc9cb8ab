//! Messages come to their receivers.

ghost use Rattle.std.specs.Prelude.{◌≡◌, ◌<◌, suc, true, false, ℕ, length, OnOk, OnErr};
ghost use Rattle.cluster_core.specs.Up.{is_up, has_job};
ghost use Rattle.cluster_core.specs.States.{IsStream, Gives, deliver_due};
ghost use Rattle.cluster_core.specs.Kept.{after_deliver};
ghost use Rattle.stream_cluster.specs.Letters.{ComesTo};

use crate::hear::{take_at, tell};
use crate::jobs::ahead_of_seat;
use crate::replicas::Replicas;
use cluster_core::{Outcome, commit, mark, place_of, post};
use std::alloc::AllocError;

impl Replicas {
    /// The message at a place comes to the coordinator.
    fn tell(&mut self, place: usize) -> Result<(), AllocError>
        requires stream { IsStream self.old.cluster }
        requires there { place < length self.old.cluster.mail }
        requires up { is_up self.old.cluster 0 ≡ true }
        ensures ok { OnOk result ((now number : ℕ) → ComesTo number place 0 self.old.cluster.mail → self.new ≡ after_deliver number now self.old) }
        ensures err { OnErr result (self.new ≡ self.old) }
    {
        let members = self.seats.len() as u8;
        let next = tell(
            &mut self.coordinator,
            members,
            &mut self.mail,
            self.last,
            place,
        )?;
        self.last = next;
        Ok(())
    }

    /// The message at a place comes to a member.
    fn take(&mut self, place: usize, seat: usize, now: u64) -> Result<(), AllocError>
        requires stream { IsStream self.old.cluster }
        requires there { place < length self.old.cluster.mail }
        requires up { is_up self.old.cluster (suc seat) ≡ true }
        requires idle { has_job self.old.cluster (suc seat) ≡ false }
        ensures ok { OnOk result ((number : ℕ) → ComesTo number place (suc seat) self.old.cluster.mail → self.new ≡ after_deliver number now self.old) }
        ensures err { OnErr result (self.new ≡ self.old) }
    {
        let count = self.committed.len();
        let ahead = ahead_of_seat(self.alloc, self.seats.as_slice(), seat, count)?;
        self.committed.reserve(ahead.len())?;
        self.mail.reserve(1)?;
        let did = take_at(&mut self.seats, seat, &self.mail[place].sent.message, now)?;
        commit(&mut self.committed, ahead, did.end);
        mark(&mut self.mail, place);
        self.last = post(&mut self.mail, self.last, did.sent);
        Ok(())
    }

    /// The message at a place comes to its receiver.
    fn come(&mut self, place: usize, to: u8, now: u64) -> Result<(), AllocError>
        requires stream { IsStream self.old.cluster }
        requires there { place < length self.old.cluster.mail }
        requires up { is_up self.old.cluster to ≡ true }
        requires idle { has_job self.old.cluster to ≡ false }
        ensures ok { OnOk result ((number : ℕ) → ComesTo number place to self.old.cluster.mail → self.new ≡ after_deliver number now self.old) }
        ensures err { OnErr result (self.new ≡ self.old) }
    {
        if to == 0 {
            return self.tell(place);
        }
        self.take(place, to as usize - 1, now)
    }

    /// The message of a number comes to its receiver, and stays.
    pub(crate) fn deliver(&mut self, number: u64, now: u64) -> Outcome
        requires { IsStream self.old.cluster }
        ensures { Gives (deliver_due number self.old.cluster) result self.old self.new (after_deliver number now self.old) }
    {
        let Some(place) = place_of(self.mail.as_slice(), number) else {
            return Outcome::Nothing;
        };
        let to = self.mail[place].sent.to;
        if !self.is_up(to) {
            return Outcome::Nothing;
        }
        if self.has_job(to) {
            return Outcome::Later { member: to };
        }
        let Ok(()) = self.come(place, to, now) else {
            return Outcome::Memory;
        };
        Outcome::Did
    }
}
