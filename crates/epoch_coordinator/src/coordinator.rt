//! The coordinator of a stream: it counts epochs, and chooses the leader of each.

ghost use Rattle.std.specs.Prelude.{◌≡◌, ◌≤◌, ◌<◌, Some, None, Ok, IfOk, OnOk, OnErr, IsSome, option_map, unwrap_or};
ghost use Rattle.epoch_coordinator.specs.Coordinators.{opened_with, elect, begun, stop_all, stopped, IfOpened, tell, told_before, counted, open_or_follow, running_in, nudged};
ghost use Rattle.epoch_coordinator.specs.declared.message.Job.TheVariants.{Epoch};

use crate::election::{electors_of, leader_of, repliers, stops, tell};
use crate::message::{Job, Message, Sent};
use crate::tail::Tail;
use frame_wire::Row;
use std::alloc::{AllocError, Global};
use std::marker::Model;

/// The greatest number of members of a stream.
pub const MOST_MEMBERS: u8 = 7;

/// What a coordinator does in its epoch.
#[derive(Clone, Copy, Debug, PartialEq, Eq)]
pub enum Phase {
    /// It was opened, and no epoch was begun since.
    Idle,
    /// Members are told to stop, and tell their tails.
    Electing,
    /// The epoch has a leader.
    Running { leader: u8 },
}

/// What came of the wish for an election.
#[derive(Clone, Copy, Debug, PartialEq, Eq)]
pub enum Elected {
    /// This epoch is to be made durable.
    Asked { epoch: u64 },
    /// A job is pending, and nothing changed.
    Later,
    /// The epoch is the greatest number, and nothing changed.
    Last { epoch: u64 },
}

/// What came of a member's telling that it has stopped.
#[derive(Debug, Drop)]
pub enum StoppedDid {
    /// A job is pending, and nothing changed.
    Later,
    /// Nothing is to be sent.
    Nothing,
    /// This message is to be sent.
    Send1(Sent),
    /// A majority has told its tails: Open goes to the leader, and Follow to each other elector.
    /// The electors are a set of bits, 1 for member 1, 2 for member 2, 4 for member 3 and so on.
    Opened {
        epoch: u64,
        leader: u8,
        electors: u8,
    },
}

/// The coordinator of a stream, member number 0: its epoch, the job that is to make the next one
/// durable, and which members told their tails in its epoch.
#[derive(Debug, Drop)]
pub struct Coordinator {
    alloc: Global,
    members: u8,
    epoch: u64,
    job: Option<u64>,
    phase: Phase,
    told: [Option<Tail>; 7],
}

impl Model for Coordinator {
    ghost use Rattle.std.specs.Prelude.{◌≤◌, take};
    ghost use Rattle.epoch_coordinator.specs.Coordinators.{CoordinatorState};

    ghost Value = { CoordinatorState };

    ghost view = { λ c. record { members = c.members; epoch = c.epoch; job = c.job; phase = c.phase; told = take c.members c.told } };

    ghost invariant = { λ c. (1 ≤ c.members) × (c.members ≤ 7) };
}

impl Coordinator {
    /// An idle coordinator of 1 to 7 members, with its durable epoch. It takes no memory, as it
    /// has room for each member's tail in itself.
    pub fn open(alloc: Global, members: u8, epoch: u64) -> Result<Coordinator, AllocError>
        requires least { 1 ≤ members }
        requires most { members ≤ 7 }
        ensures { result ≡ Ok (opened_with members epoch) }
    {
        Ok(Coordinator {
            alloc,
            members,
            epoch,
            job: None,
            phase: Phase::Idle,
            told: [None; 7],
        })
    }

    /// Begins an election: the next epoch is to be made durable.
    pub fn elect(&mut self) -> Elected
        ensures state { self.new ≡ (elect self.old).state }
        ensures answer { result ≡ (elect self.old).answer }
    {
        if self.job.is_some() {
            return Elected::Later;
        }
        if self.epoch == u64::MAX {
            return Elected::Last { epoch: self.epoch };
        }
        let epoch = self.epoch + 1;
        self.job = Some(epoch);
        Elected::Asked { epoch }
    }

    /// The pending job, which is to make an epoch durable.
    pub fn job(&self) -> Option<Job>
        ensures { result ≡ option_map Epoch self.now.job }
    {
        match self.job {
            Some(epoch) => Some(Job::Epoch(epoch)),
            None => None,
        }
    }

    /// The durable epoch: that of the last job that was done, or the one with which it was opened.
    pub fn epoch(&self) -> u64
        ensures { result ≡ self.now.epoch }
    {
        self.epoch
    }

    /// The pending job is done: its epoch is durable, and each member is told to stop, by number.
    pub fn done(&mut self) -> Result<Row<Sent>, AllocError>
        requires { IsSome self.old.job }
        ensures ok { OnOk result (self.new ≡ begun (unwrap_or self.old.job 0) self.old) }
        ensures sent { IfOk result (λ sent. sent ≡ stop_all self.new) }
        ensures err { OnErr result (self.new ≡ self.old) }
    {
        let Some(epoch) = self.job else {
            unreachable!()
        };
        let none: [Option<Tail>; 7] = [None; 7];
        let sent = stops(self.alloc, epoch, &none[..self.members as usize])?;
        self.epoch = epoch;
        self.job = None;
        self.phase = Phase::Electing;
        self.told = none;
        Ok(sent)
    }

    /// A member tells that it has stopped for an epoch, and how its log ends. It takes no memory.
    /// What names no member, or a later epoch, changes nothing. An epoch is opened with the member of
    /// greatest tail among those that told, and the one of least number among equals.
    pub fn stopped(&mut self, epoch: u64, from: u8, tail: Tail) -> StoppedDid
        ensures state { self.new ≡ (stopped epoch from tail self.old).state }
        ensures answer { result ≡ (stopped epoch from tail self.old).answer }
        ensures rightly { IfOpened self.new result }
    {
        self.hear(epoch, from, tail)
    }

    fn hear(&mut self, epoch: u64, from: u8, tail: Tail) -> StoppedDid
        ensures state { self.new ≡ (stopped epoch from tail self.old).state }
        ensures answer { result ≡ (stopped epoch from tail self.old).answer }
    {
        if let Some(_pending) = self.job {
            return StoppedDid::Later;
        }
        if from == 0 || from > self.members || epoch > self.epoch {
            return StoppedDid::Nothing;
        }
        if epoch < self.epoch {
            return self.stop_again(from);
        }
        match self.phase {
            Phase::Idle => StoppedDid::Nothing,
            Phase::Electing => {
                self.tell(from, tail);
                self.count()
            }
            Phase::Running { leader } => {
                self.tell(from, tail);
                StoppedDid::Send1(open_or_follow(self.epoch, leader, from))
            }
        }
    }

    /// Keeps a member's tail, if it is the first that it tells in the epoch.
    fn tell(&mut self, from: u8, tail: Tail)
        requires least { 1 ≤ from }
        requires most { from ≤ self.old.members }
        ensures { self.new ≡ record self.old { told = tell from tail self.old.told } }
    {
        tell(&mut self.told[..self.members as usize], from, tail);
    }

    /// A member of an earlier epoch is told to stop, unless no epoch was begun.
    fn stop_again(&self, from: u8) -> StoppedDid
        ensures { result ≡ (told_before self.now.phase from self.now).answer }
    {
        if self.phase == Phase::Idle {
            return StoppedDid::Nothing;
        }
        let message = Message::Stop { epoch: self.epoch };
        StoppedDid::Send1(Sent { to: from, message })
    }

    /// With a majority the leader is chosen, and the epoch runs.
    fn count(&mut self) -> StoppedDid
        ensures state { self.new ≡ (counted self.old).state }
        ensures answer { result ≡ (counted self.old).answer }
    {
        let told = &self.told[..self.members as usize];
        if 2 * repliers(told) <= self.members {
            return StoppedDid::Nothing;
        }
        let leader = leader_of(told);
        let electors = electors_of(told);
        self.phase = Phase::Running { leader };
        StoppedDid::Opened {
            epoch: self.epoch,
            leader,
            electors,
        }
    }

    /// The epoch that runs, and its leader.
    pub fn running(&self) -> Option<(u64, u8)>
        ensures { result ≡ running_in self.now.phase self.now.epoch }
    {
        match self.phase {
            Phase::Running { leader } => Some((self.epoch, leader)),
            Phase::Idle | Phase::Electing => None,
        }
    }

    /// Tells each member that hasn't answered in the epoch to stop, by number; none where no epoch
    /// was begun.
    pub fn nudge(&self, alloc: Global) -> Result<Row<Sent>, AllocError>
        ensures { IfOk result (λ sent. sent ≡ nudged self.now) }
    {
        if self.phase == Phase::Idle {
            return Ok(Row::new(alloc));
        }
        stops(alloc, self.epoch, &self.told[..self.members as usize])
    }
}

/// The leader of an epoch is to open it, and another member to follow.
fn open_or_follow(epoch: u64, leader: u8, to: u8) -> Sent
    ensures { result ≡ open_or_follow epoch leader to }
{
    let message = if to == leader {
        Message::Open { epoch }
    } else {
        Message::Follow { epoch, leader }
    };
    Sent { to, message }
}
