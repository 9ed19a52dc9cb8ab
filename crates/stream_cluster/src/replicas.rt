//! The members of a stream and its coordinator, the messages between them and the committed list.

ghost use Rattle.std.specs.Prelude.{◌≡◌, true, false, MatchOption, slice_index_or};
ghost use Rattle.replication_laws.specs.Cluster.{seat, nobody};
ghost use Rattle.cluster_core.specs.Up.{is_up, has_job};
ghost use Rattle.stream_cluster.specs.Leads.{is_member_up};
ghost use Rattle.stream_cluster.specs.Seats.{seat_up, seat_job};

use crate::place::Place;
use chunk_format::Stored;
use cluster_core::Numbered;
use epoch_coordinator::Coordinator;
use std::alloc::Global;
use std::marker::Model;

/// The members of a stream and its coordinator, the messages between them and the committed list.
#[derive(Drop)]
pub(crate) struct Replicas {
    pub(crate) alloc: Global,
    /// The members, by number from 1 on.
    pub(crate) seats: Vec<Place>,
    pub(crate) coordinator_up: bool,
    pub(crate) coordinator: Coordinator,
    pub(crate) mail: Vec<Numbered>,
    /// The number of the last message that got one.
    pub(crate) last: u64,
    pub(crate) committed: Vec<Stored>,
    /// Of the coordinator and of each member, by number from 0 on, the number of the next job, or of the one that is pending.
    pub(crate) numbers: [u64; 8],
}

impl Model for Replicas {
    ghost use Rattle.cluster_core.specs.States.{ReplicaState, state_of};

    ghost Value = { ReplicaState };

    ghost view = { λ r. state_of r.seats.items r.coordinator_up r.coordinator r.mail.items r.last r.committed.items r.numbers };
}

/// Whether the member at a place is up. There may be no such place.
fn is_seat_up(seats: &[Place], place: usize) -> bool
    ensures { result ≡ seat_up seats.now place }
{
    match seats.get(place) {
        None => false,
        Some(seat) => seat.up,
    }
}

/// Whether the member at a place has a job. There may be no such place.
fn seat_has_job(seats: &[Place], place: usize) -> bool
    ensures { result ≡ seat_job seats.now place }
{
    match seats.get(place) {
        None => false,
        Some(seat) => seat.member.job().is_some(),
    }
}

impl Replicas {
    /// Whether the coordinator, number 0, or a member is there and up.
    pub(crate) fn is_up(&self, member: u8) -> bool
        ensures { result ≡ is_up self.now.cluster member }
    {
        if member == 0 {
            return self.coordinator_up;
        }
        is_seat_up(self.seats.as_slice(), member as usize - 1)
    }

    /// Whether the coordinator, number 0, or a member has a job pending, or one that was cut off.
    pub(crate) fn has_job(&self, member: u8) -> bool
        ensures { result ≡ has_job self.now.cluster member }
    {
        if member == 0 {
            return self.coordinator.job().is_some();
        }
        seat_has_job(self.seats.as_slice(), member as usize - 1)
    }

    /// The member of a number, if it is there and up.
    pub(crate) fn seat(&self, number: u8) -> Option<&Place>
        ensures { MatchOption result (is_member_up self.now.cluster number ≡ false) (λ s. (is_member_up self.now.cluster number ≡ true) × (s.now ≡ seat self.now.cluster number)) }
    {
        if number == 0 {
            return None;
        }
        up_seat(self.seats.as_slice(), number as usize - 1)
    }
}

/// The member at a place, if it is there and up.
fn up_seat(seats: &[Place], place: usize) -> Option<&Place>
    ensures { MatchOption result (seat_up seats.now place ≡ false) (λ s. (seat_up seats.now place ≡ true) × (s.now ≡ slice_index_or seats.now place nobody)) }
{
    match seats.get(place) {
        None => None,
        Some(seat) => { if seat.up { Some(seat) } else { None } }
    }
}
