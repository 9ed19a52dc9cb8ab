//! A member comes up again.

ghost use Rattle.std.specs.Prelude.{◌≡◌, ◌<◌, ◌↔◌, suc, true, length, IsTrue, OnOk, OnErr};
ghost use Rattle.replication_laws.specs.Cluster.{member};
ghost use Rattle.cluster_core.specs.States.{IsStream};
ghost use Rattle.stream_cluster.specs.Restarts.{MayHave, RestartGives, is_down, after_restart};

use crate::found::may_have;
use crate::jobs::count_on;
use crate::place::Place;
use crate::replicas::Replicas;
use crate::share::share_all;
use chunk_format::Stored;
use cluster_core::{Outcome, list_end};
use frame_wire::Row;
use member_core::{Member, MemberStart};
use segment_store::Recovered;
use std::alloc::AllocError;

impl Replicas {
    /// Whether a member is there and down.
    fn is_down(&self, member: u8) -> bool
        ensures { result ≡ is_down self.now.cluster member }
    {
        if member == 0 {
            return false;
        }
        match self.seats.get(member as usize - 1) {
            None => false,
            Some(seat) => !seat.up,
        }
    }

    /// The member at a place comes up with this promise and these chunks.
    fn come_up(&mut self, place: usize, promise: u64, found: &[Stored]) -> Result<(), AllocError>
        requires stream { IsStream self.old.cluster }
        requires down { is_down self.old.cluster (suc place) ≡ true }
        requires may { MayHave (member self.old.cluster (suc place)) promise found.now }
        ensures ok { OnOk result (self.new ≡ after_restart (suc place) promise found.now self.old) }
        ensures err { OnErr result (self.new ≡ self.old) }
    {
        let chunks = share_all(self.alloc, found)?;
        let start = MemberStart {
            member: place as u8 + 1,
            promise,
            chunks,
        };
        let members = self.seats.len() as u8;
        let member = Member::restart(self.alloc, members, start)?;
        self.seats[place] = Place { up: true, member };
        count_on(&mut self.numbers, place + 1);
        Ok(())
    }

    /// Whether the disk of the member at a place may have this.
    fn may_have(&self, place: usize, found: &Recovered) -> bool
        requires { place < length self.now.cluster.seats }
        ensures { IsTrue result ↔ MayHave (member self.now.cluster (suc place)) found.now.promise found.now.chunks }
    {
        let seat = &self.seats[place];
        may_have(&seat.member, found.promise, found.chunks.as_slice())
    }

    /// A member that is down comes up with what its disk has.
    pub(crate) fn restart(&mut self, found: &Recovered) -> Outcome
        requires { IsStream self.old.cluster }
        ensures { RestartGives found.now.member found.now.promise found.now.chunks result self.old self.new }
    {
        if !self.is_down(found.member) {
            return Outcome::Nothing;
        }
        let place = found.member as usize - 1;
        if !self.may_have(place, found) {
            return Outcome::Differs {
                expected_end: self.seats[place].end(),
                found_end: list_end(found.chunks.as_slice()),
            };
        }
        match self.come_up(place, found.promise, found.chunks.as_slice()) {
            Ok(()) => Outcome::Did,
            Err(_) => Outcome::Memory,
        }
    }
}
