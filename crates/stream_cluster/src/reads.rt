//! What a stream tells.

ghost use Rattle.std.specs.Prelude.{◌≡◌, true, false, MatchOption, slice_index_or, None, Some};
ghost use Rattle.chunk_format.specs.Logs.{IsLog, Truthful};
ghost use Rattle.replication_laws.specs.Cluster.{member};
ghost use Rattle.cluster_core.specs.Up.{is_up, running};
ghost use Rattle.cluster_core.specs.Parts.{lettered};
ghost use Rattle.cluster_core.specs.States.{number_at};
ghost use Rattle.stream_cluster.specs.Leads.{is_member_up, JobShown, HasNoJob, EpochShown, HasNoEpoch};

use crate::cluster::Cluster;
use crate::place::Place;
use crate::replicas::Replicas;
use chunk_format::Stored;
use cluster_core::Numbered;
use epoch_coordinator::Job;

impl Place {
    /// The pending job of the member, or the one that was cut off.
    fn job(&self) -> Option<&Job>
        ensures { MatchOption result (self.now.state.job ≡ None) (λ job. self.now.state.job ≡ Some job.now) }
    {
        self.member.job()
    }
}

/// The number at a place, or 0 where there is no such place.
fn number_in(numbers: &[u64], place: usize) -> u64
    ensures { result ≡ slice_index_or numbers.now place 0 }
{
    match numbers.get(place) {
        None => 0,
        Some(next) => *next,
    }
}

impl Replicas {
    /// The number of the next job of the coordinator, number 0, or of a member, or of the one that is pending.
    fn number_of(&self, number: u8) -> u64
        ensures { result ≡ number_at self.now number }
    {
        number_in(&self.numbers[..], number as usize)
    }

    /// The epoch that the coordinator is to make durable, with the number of that job, while it is up.
    fn epoch_job(&self) -> Option<(u64, u64)>
        ensures { MatchOption result (HasNoEpoch self.now) (λ p. EpochShown p.0 p.1 self.now) }
    {
        if !self.coordinator_up {
            return None;
        }
        match self.coordinator.job() {
            Some(Job::Epoch(epoch)) => Some((self.number_of(0), epoch)),
            _ => None,
        }
    }

    /// The pending job of a member that is up, with its number.
    fn job(&self, number: u8) -> Option<(u64, &Job)>
        ensures { MatchOption result (HasNoJob number self.now) (λ p. JobShown number p.0 p.1.now self.now) }
    {
        let Some(seat) = self.seat(number) else {
            return None;
        };
        let Some(job) = seat.job() else {
            return None;
        };
        Some((self.number_of(number), job))
    }
}

impl Cluster {
    /// The number of the stream.
    pub fn stream(&self) -> u32
        ensures { result ≡ self.now.number }
    {
        self.passes.number()
    }

    /// The committed list: one chunk after the other from offset 0 on, with truthful snapshots. It only grows.
    pub fn committed(&self) -> &[Stored]
        ensures list { result.now ≡ self.now.state.cluster.committed }
        ensures is_log { IsLog self.now.state.cluster.committed }
        ensures truthful { Truthful self.now.state.cluster.committed }
    {
        self.replicas.committed.as_slice()
    }

    /// The messages that were neither lost nor forgotten, in the order in which they were sent.
    pub fn messages(&self) -> &[Numbered]
        ensures { lettered result.now ≡ self.now.state.cluster.mail }
    {
        self.replicas.mail.as_slice()
    }

    /// Whether the coordinator, number 0, or a member is there and up.
    pub fn is_up(&self, member: u8) -> bool
        ensures { result ≡ is_up self.now.state.cluster member }
    {
        self.replicas.is_up(member)
    }

    /// The epoch that runs with an open leader, if one does.
    pub fn running(&self) -> Option<u64>
        ensures { result ≡ running self.now.state.cluster }
    {
        self.replicas.running()
    }

    /// The log of a member that is up.
    pub fn log(&self, number: u8) -> Option<&[Stored]>
        ensures { MatchOption result (is_member_up self.now.state.cluster number ≡ false) (λ log. (is_member_up self.now.state.cluster number ≡ true) × (log.now ≡ (member self.now.state.cluster number).log)) }
    {
        match self.replicas.seat(number) {
            None => None,
            Some(seat) => Some(seat.member.log()),
        }
    }

    /// The epoch that a member promised, of one that is up.
    pub fn promise(&self, number: u8) -> Option<u64>
        ensures { MatchOption result (is_member_up self.now.state.cluster number ≡ false) (λ promise. (is_member_up self.now.state.cluster number ≡ true) × (promise ≡ (member self.now.state.cluster number).promise)) }
    {
        match self.replicas.seat(number) {
            None => None,
            Some(seat) => Some(seat.member.promise()),
        }
    }

    /// The pending job of a member that is up, with its number.
    pub fn job(&self, number: u8) -> Option<(u64, &Job)>
        ensures { MatchOption result (HasNoJob number self.now.state) (λ p. JobShown number p.0 p.1.now self.now.state) }
    {
        self.replicas.job(number)
    }

    /// The epoch that the coordinator is to make durable, with the number of that job, while it is up: the number first.
    pub fn epoch_job(&self) -> Option<(u64, u64)>
        ensures { MatchOption result (HasNoEpoch self.now.state) (λ p. EpochShown p.0 p.1 self.now.state) }
    {
        self.replicas.epoch_job()
    }
}
