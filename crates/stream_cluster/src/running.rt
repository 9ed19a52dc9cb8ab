//! The epoch that runs.

ghost use Rattle.std.specs.Prelude.{◌≡◌};
ghost use Rattle.chunk_format.specs.Logs.{end_of};
ghost use Rattle.cluster_core.specs.Up.{running, is_open_in};
ghost use Rattle.stream_cluster.specs.Leads.{seat_leads, place_leads};
ghost use Rattle.stream_cluster.specs.Takes.{leader_of};

use crate::place::Place;
use crate::replicas::Replicas;
use chunk_format::Stored;
use cluster_core::list_end;

impl Place {
    /// Whether the member is up and is the opened leader of an epoch.
    #[tactic(auto, using(crate::proofs::Leading::opened_is))]
    fn leads(&self, epoch: u64) -> bool
        ensures { result ≡ seat_leads epoch self.now }
    {
        if !self.up {
            return false;
        }
        if self.member.promise() != epoch {
            return false;
        }
        self.member.is_open()
    }
}

/// Whether the member at a place is up and is the opened leader of an epoch. There may be no such place.
fn place_leads(seats: &[Place], place: usize, epoch: u64) -> bool
    ensures { result ≡ place_leads epoch seats.now place }
{
    match seats.get(place) {
        None => false,
        Some(seat) => seat.leads(epoch),
    }
}

impl Replicas {
    /// The committed list.
    pub(crate) fn list(&self) -> &[Stored]
        ensures { result.now ≡ self.now.cluster.committed }
    {
        self.committed.as_slice()
    }

    /// Where the committed list ends.
    pub(crate) fn end(&self) -> u64
        ensures { result ≡ end_of self.now.cluster.committed }
    {
        list_end(self.committed.as_slice())
    }

    /// The number of the leader of the coordinator's epoch, or 0 where there is none.
    pub(crate) fn leader(&self) -> u8
        ensures { result ≡ leader_of self.now.cluster }
    {
        if !self.coordinator_up {
            return 0;
        }
        match self.coordinator.running() {
            Some((_, leader)) => leader,
            None => 0,
        }
    }

    /// Whether a member is up and is the opened leader of an epoch.
    fn is_open_in(&self, leader: u8, epoch: u64) -> bool
        ensures { result ≡ is_open_in self.now.cluster leader epoch }
    {
        if leader == 0 {
            return false;
        }
        place_leads(self.seats.as_slice(), leader as usize - 1, epoch)
    }

    /// The epoch that runs with an open leader, if one does.
    pub(crate) fn running(&self) -> Option<u64>
        ensures { result ≡ running self.now.cluster }
    {
        if !self.coordinator_up {
            return None;
        }
        let Some(runs) = self.coordinator.running() else {
            return None;
        };
        if !self.is_open_in(runs.1, runs.0) {
            return None;
        }
        Some(runs.0)
    }
}
