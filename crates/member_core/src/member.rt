//! A member and what it knows.

ghost use Rattle.std.specs.Prelude.{◌≡◌, ◌≤◌, ◌<◌, ◌++◌, length, Some, None, OnOk, OnErr, IfOk, IsTrue, MatchOption};
ghost use Rattle.chunk_format.specs.Logs.{IsLog, Truthful, last_epoch, end_of};
ghost use Rattle.chunk_format.specs.ByName.{Greatest, LastStored, first_seen, tag_names, stored_names, snapshot_body};
ghost use Rattle.epoch_coordinator.specs.Tails.{tail_of};
ghost use Rattle.epoch_coordinator.specs.Members.{sequence_of, job_chunks, role_chunks, is_stopped};
ghost use Rattle.epoch_coordinator.specs.MemberSteps.{restarted, says_stopped, asks, nudged};
ghost use Rattle.epoch_coordinator.specs.Offers.{since_snapshot};
ghost use Rattle.member_core.specs.Kept.{bytes_of, plain_count};
ghost use Rattle.member_core.specs.States.{told_role, is_open, followed, IsOpen};

use crate::duty::{Duty, Role};
use crate::member_log::MemberLog;
use crate::send::one;
use chunk_format::Stored;
use epoch_coordinator::{Job, Message, Sent, Tail};
use frame_wire::Row;
use std::alloc::{AllocError, Global};
use std::marker::Model;

/// A member of a stream, by what it knows while it is up.
#[derive(Drop)]
pub struct Member {
    pub(crate) alloc: Global,
    pub(crate) number: u8,
    pub(crate) members: u8,
    pub(crate) promise: u64,
    pub(crate) duty: Duty,
    pub(crate) log: MemberLog,
    pub(crate) job: Option<Job>,
}

impl Model for Member {
    ghost use Rattle.epoch_coordinator.specs.Members.{MemberState};
    ghost use Rattle.member_core.specs.States.{role_of, IsMember};

    ghost Value = { MemberState };

    ghost view = { λ m. record { number = m.number; members = m.members; promise = m.promise; role = role_of m.members m.duty m.log.ahead; log = m.log.log; job = m.job } };

    ghost invariant = { λ m. IsMember m.members m.promise m.duty m.log m.job };
}

/// What a member's disk has when it comes up.
#[derive(Drop)]
pub struct MemberStart {
    /// The member's number, from 1 on.
    pub member: u8,
    /// The epoch that it promised.
    pub promise: u64,
    /// The chunks of its log.
    pub chunks: Row<Stored>,
}

impl Member {
    /// A member of 1 to 7 that comes up with what its disk has: it is stopped, and no job is pending.
    /// Its chunks are one after the other from offset 0 on, in epochs that don't fall and aren't
    /// above its promise, and its snapshots are truthful. It fails for want of memory alone.
    pub fn restart(alloc: Global, members: u8, start: MemberStart) -> Result<Member, AllocError>
        requires least { 1 ≤ members }
        requires most { members ≤ 7 }
        requires is_log { IsLog start.chunks }
        requires truthful { Truthful start.chunks }
        requires promised { last_epoch start.chunks ≤ start.promise }
        ensures { IfOk result (λ m. m ≡ restarted members start.member start.promise start.chunks) }
    {
        let MemberStart {
            member,
            promise,
            chunks,
        } = start;
        let log = MemberLog::of_chunks(alloc, chunks)?;
        Ok(Member {
            alloc,
            number: member,
            members,
            promise,
            duty: Duty::Stopped,
            log,
            job: None,
        })
    }

    /// The chunks of its log: one after the other from offset 0 on, in epochs that don't fall and
    /// aren't above its promise, with truthful snapshots.
    pub fn log(&self) -> &[Stored]
        ensures log { result.now ≡ self.now.log }
        ensures is_log { IsLog self.now.log }
        ensures truthful { Truthful self.now.log }
        ensures promised { last_epoch self.now.log ≤ self.now.promise }
    {
        self.log.log()
    }

    /// How its log ends.
    pub fn tail(&self) -> Tail
        ensures { result ≡ tail_of self.now.log }
    {
        self.log.tail()
    }

    /// The epoch that it promised.
    pub fn promise(&self) -> u64
        ensures { result ≡ self.now.promise }
    {
        self.promise
    }

    /// Its number, from 1 on.
    pub fn number(&self) -> u8
        ensures { result ≡ self.now.number }
    {
        self.number
    }

    /// What it does in the epoch that it promised.
    pub fn role(&self) -> Role
        ensures { result ≡ told_role self.now.role }
    {
        match &self.duty {
            Duty::Stopped => Role::Stopped,
            Duty::Follower { leader } => Role::Follower { leader: *leader },
            Duty::Leader(lead) => Role::Leader {
                opened: lead.opened,
            },
        }
    }

    /// Its pending job.
    pub fn job(&self) -> Option<&Job>
        ensures { MatchOption result (self.now.job ≡ None) (λ job. self.now.job ≡ Some job.now) }
    {
        self.job.as_ref()
    }

    /// Where its sequence ends: its log, the chunk that is being written, and those that wait.
    pub fn end(&self) -> u64
        ensures { result ≡ end_of (sequence_of self.now) }
    {
        self.log.end()
    }

    /// How many bytes the chunks of its sequence have.
    pub fn bytes(&self) -> u64
        ensures { result ≡ bytes_of (sequence_of self.now) }
    {
        self.log.bytes()
    }

    /// How many chunks other than snapshots are being written or wait.
    pub fn queued(&self) -> u64
        ensures { result ≡ plain_count (job_chunks self.now.job ++ role_chunks self.now.role) }
    {
        self.log.waiting()
    }

    /// How many chunks of its sequence stand behind the last snapshot.
    pub fn since_snapshot(&self) -> u64
        ensures { result ≡ since_snapshot (sequence_of self.now) }
    {
        self.log.since_snapshot()
    }

    /// The greatest id of a publisher in its sequence. What the sequence got since the last question
    /// of this kind is taken in first. It fails for want of memory alone.
    pub fn greatest(&mut self, name: &[u8]) -> Result<Option<u64>, AllocError>
        ensures greatest { IfOk result (λ id. id ≡ Greatest name.now (sequence_of self.old)) }
        ensures same { self.new ≡ self.old }
    {
        self.log.greatest(name)
    }

    /// The last offset that was stored for a consumer in its sequence.
    pub fn stored(&mut self, name: &[u8]) -> Result<Option<u64>, AllocError>
        ensures stored { IfOk result (λ offset. offset ≡ LastStored name.now (sequence_of self.old)) }
        ensures same { self.new ≡ self.old }
    {
        self.log.stored(name)
    }

    /// How many publishers and how many consumers have a name in its sequence.
    pub fn names(&mut self) -> Result<(u64, u64), AllocError>
        ensures publishers { IfOk result (λ n. n.0 ≡ length (first_seen (tag_names (sequence_of self.old)))) }
        ensures consumers { IfOk result (λ n. n.1 ≡ length (first_seen (stored_names (sequence_of self.old)))) }
        ensures same { self.new ≡ self.old }
    {
        self.log.names()
    }

    /// How many bytes the entry of a snapshot of its sequence has.
    pub fn snapshot_len(&mut self) -> Result<u64, AllocError>
        ensures len { IfOk result (λ len. len ≡ length (snapshot_body (sequence_of self.old))) }
        ensures same { self.new ≡ self.old }
    {
        self.log.snapshot_len()
    }

    /// Whether it is stopped.
    pub(crate) fn is_stopped(&self) -> bool
        ensures { result ≡ is_stopped self.now.role }
    {
        match &self.duty {
            Duty::Stopped => true,
            Duty::Follower { leader: _ } => false,
            Duty::Leader(_) => false,
        }
    }

    /// Whether it leads and is opened: then it takes offers.
    pub fn is_open(&self) -> bool
        ensures is { result ≡ is_open self.now.role }
        ensures open { IsTrue result → IsOpen self.now.role }
    {
        match &self.duty {
            Duty::Stopped => false,
            Duty::Follower { leader: _ } => false,
            Duty::Leader(lead) => lead.opened,
        }
    }

    /// Whom it follows.
    pub(crate) fn followed(&self) -> Option<u8>
        ensures { result ≡ followed self.now.role }
    {
        match &self.duty {
            Duty::Stopped => None,
            Duty::Follower { leader } => Some(*leader),
            Duty::Leader(_) => None,
        }
    }

    /// Tells the coordinator how its log ends.
    pub(crate) fn says_stopped(&self) -> Result<Row<Sent>, AllocError>
        ensures { IfOk result (λ sent. sent ≡ (says_stopped self.now).sent) }
    {
        let message = Message::Stopped {
            epoch: self.promise,
            from: self.number,
            tail: self.log.tail(),
        };
        one(self.alloc, 0, message)
    }

    /// Tells a leader how its log ends.
    pub(crate) fn asks(&self, leader: u8) -> Result<Row<Sent>, AllocError>
        ensures { IfOk result (λ sent. sent ≡ (asks leader self.now).sent) }
    {
        let message = Message::Ask {
            epoch: self.promise,
            from: self.number,
            tail: self.log.tail(),
        };
        one(self.alloc, leader, message)
    }

    /// A stopped member and a follower tell their tails again. It fails for want of memory alone.
    pub fn nudge(&self, alloc: Global) -> Result<Row<Sent>, AllocError>
        ensures { IfOk result (λ sent. sent ≡ nudged self.now) }
    {
        match &self.duty {
            Duty::Stopped => self.says_stopped(),
            Duty::Follower { leader } => self.asks(*leader),
            Duty::Leader(_) => Ok(Row::new(alloc)),
        }
    }
}
