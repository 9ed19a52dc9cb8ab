//! A stream is opened over what the disks of its members had.

ghost use Rattle.std.specs.Prelude.{◌≡◌, ◌≤◌, ◌++◌, ◌∷◌, [], length, map, IfOk, IfErr, OnOk};
ghost use Rattle.replication_laws.specs.Openings.{start_seats};
ghost use Rattle.stream_cluster.specs.Served.{served_first};
ghost use Rattle.stream_cluster.specs.Opens.{AreNumbered, IsWhole, AllWhole, MayOpen, RefusedBy, started, start_of, opened_state};

use crate::cluster::Cluster;
use crate::fault::OpenFault;
use crate::index::Index;
use crate::place::Place;
use crate::replicas::Replicas;
use crate::whole::{refuse_ahead, refuse_broken, refuse_diverged};
use epoch_coordinator::Coordinator;
use frame_wire::{Limits, Row};
use member_core::{Member, MemberStart};
use segment_store::Recovered;
use std::alloc::{AllocError, Global};
use stream_passes::Passes;

/// A member that comes up with what its disk had.
fn seat_of(alloc: Global, members: u8, start: Recovered) -> Result<Place, AllocError>
    requires least { 1 ≤ members }
    requires most { members ≤ 7 }
    requires whole { IsWhole start }
    ensures { IfOk result (λ seat. seat ≡ started members start) }
{
    let start = MemberStart {
        member: start.member,
        promise: start.promise,
        chunks: start.chunks,
    };
    let member = Member::restart(alloc, members, start)?;
    Ok(Place { up: true, member })
}

/// Puts a member behind others.
fn add_seat(seats: &mut Vec<Place>, seat: Place) -> Result<(), AllocError>
    ensures { OnOk result (seats.new.items ≡ seats.old.items ++ seat ∷ []) }
{
    match seats.push(seat) {
        Ok(()) => Ok(()),
        Err(_) => Err(AllocError),
    }
}

/// The members, as they come up with what their disks had.
fn seats_of(alloc: Global, members: u8, starts: Row<Recovered>) -> Result<Vec<Place>, AllocError>
    requires least { 1 ≤ members }
    requires most { members ≤ 7 }
    requires whole { AllWhole starts }
    requires numbered { AreNumbered starts }
    ensures { IfOk result (λ seats. seats.items ≡ start_seats members 1 (map start_of starts)) }
{
    let mut seats = Vec::new(alloc);
    let mut left = starts.into_vec();
    'starts: while !left.is_empty() {
        let start = left.remove(0);
        let seat = seat_of(alloc, members, start)?;
        add_seat(&mut seats, seat)?;
    }
    Ok(seats)
}

/// Whether a stream may be opened: all logs are looked at first, then all promises, then all pairs of logs.
fn refuse(alloc: Global, starts: &[Recovered], epoch: u64) -> Result<(), OpenFault>
    ensures ok { OnOk result (MayOpen epoch starts.now) }
    ensures err { IfErr result (RefusedBy epoch starts.now) }
{
    refuse_broken(alloc, starts)?;
    refuse_ahead(starts, epoch)?;
    refuse_diverged(starts)
}

impl Cluster {
    /// Opens a stream of 1 to 7 members over what their disks had, in order of number, and what the disk of the coordinator
    /// had; its leaders take what the limits let them. All are up and stopped, and nothing is committed. It is Broken where the log of a member isn't whole, Ahead
    /// where a promise is above the epoch, and Diverged where two logs can't be those of one stream: all logs are looked at
    /// first, by number, then all promises, then all pairs. No pass was given yet.
    pub fn open(
        alloc: Global,
        stream: u32,
        limits: Limits,
        starts: Row<Recovered>,
        epoch: u64,
    ) -> Result<Cluster, OpenFault>
        requires least { 1 ≤ length starts }
        requires most { length starts ≤ 7 }
        requires numbered { AreNumbered starts }
        ensures may { OnOk result (MayOpen epoch starts) }
        ensures ok { IfOk result (λ c. c ≡ served_first stream limits (opened_state epoch starts)) }
        ensures err { IfErr result (RefusedBy epoch starts) }
    {
        refuse(alloc, starts.as_slice(), epoch)?;
        let members = starts.as_slice().len() as u8;
        let Ok(seats) = seats_of(alloc, members, starts) else {
            return Err(OpenFault::Memory);
        };
        let Ok(coordinator) = Coordinator::open(alloc, members, epoch) else {
            return Err(OpenFault::Memory);
        };
        let replicas = Replicas {
            alloc,
            seats,
            coordinator_up: true,
            coordinator,
            mail: Vec::new(alloc),
            last: 0,
            committed: Vec::new(alloc),
            numbers: [0; 8],
        };
        Ok(Cluster {
            alloc,
            limits,
            replicas,
            passes: Passes::new(alloc, stream),
            index: Index::nothing(alloc),
        })
    }
}
