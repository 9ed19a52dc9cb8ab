//! What a member does when its job is done, and with offers.

ghost use Rattle.std.specs.Prelude.{◌≡◌, ◌+◌, ◌<◌, ◌≤◌, ◌^◌, ◌∷◌, [], length, Some, None, IsSome, OnOk, OnErr, IfOk};
ghost use Rattle.chunk_format.specs.declared.chunk.ChunkKind.TheVariants.{Snapshot};
ghost use Rattle.chunk_format.specs.Chunks.{IsChunk};
ghost use Rattle.chunk_format.specs.Logs.{end_of, opening_chunk};
ghost use Rattle.chunk_format.specs.ByName.{snapshot_body, snapshot_entry_of};
ghost use Rattle.epoch_coordinator.specs.declared.message.Job.TheVariants as jobs;
ghost use Rattle.epoch_coordinator.specs.Members.{sequence_of};
ghost use Rattle.epoch_coordinator.specs.MemberSteps.{Took, finished, asks_by, cut_at, wrote, says_stopped, next_job, behind_first, offered};
ghost use Rattle.member_core.specs.Kept.{GoesBehind};
ghost use Rattle.member_core.specs.States.{IsOpen, wrote_mail, first_kept, opened_duty};

use crate::duty::{Duty, Lead};
use crate::member::Member;
use crate::search::tail_after;
use crate::send::{appends, copy_runs, one};
use chunk_format::{Chunk, Stored};
use epoch_coordinator::{Job, Message, Run, Sent};
use frame_wire::Row;
use std::alloc::AllocError;

/// The next chunk that waits is the next job.
fn next_of(ahead: &[Stored]) -> Result<Option<Job>, AllocError>
    ensures { IfOk result (λ job. job ≡ next_job (behind_first ahead.now)) }
{
    if ahead.len() < 2 {
        return Ok(None);
    }
    let chunk = ahead[1].share()?;
    Ok(Some(Job::Write(chunk)))
}

/// A leader's first chunk opens it.
fn open_duty(duty: &mut Duty, kept: Row<Run>)
    ensures { duty.new ≡ opened_duty kept duty.old }
{
    match duty {
        Duty::Stopped => {}
        Duty::Follower { leader: _ } => {}
        Duty::Leader(lead) => {
            if !lead.opened {
                lead.opened = true;
                lead.kept = kept;
            }
        }
    }
}

impl Member {
    /// Its pending job is done. Where memory runs out nothing changes.
    pub fn done(&mut self) -> Result<Row<Sent>, AllocError>
        requires { IsSome self.old.job }
        ensures sent { IfOk result (λ sent. sent ≡ (finished self.old).sent) }
        ensures state { OnOk result (self.new ≡ (finished self.old).state) }
        ensures err { OnErr result (self.new ≡ self.old) }
    {
        match &self.job {
            None => Ok(Row::new(self.alloc)),
            Some(Job::Epoch(_)) => Ok(Row::new(self.alloc)),
            Some(Job::Promise(epoch)) => {
                let epoch = *epoch;
                self.done_promise(epoch)
            }
            Some(Job::Cut(end)) => {
                let end = *end;
                self.done_cut(end)
            }
            Some(Job::Write(chunk)) => {
                let chunk = chunk.share()?;
                self.done_write(&chunk)
            }
        }
    }

    /// It has promised an epoch, and tells so.
    fn done_promise(&mut self, epoch: u64) -> Result<Row<Sent>, AllocError>
        requires { self.old.job ≡ Some (jobs.Promise epoch) }
        ensures sent { IfOk result (λ sent. sent ≡ (says_stopped (record self.old { promise = epoch; job = None })).sent) }
        ensures state { OnOk result (self.new ≡ record self.old { promise = epoch; job = None }) }
        ensures err { OnErr result (self.new ≡ self.old) }
    {
        let message = Message::Stopped {
            epoch,
            from: self.number,
            tail: self.log.tail(),
        };
        let sent = one(self.alloc, 0, message)?;
        self.promise = epoch;
        self.job = None;
        Ok(sent)
    }

    /// What a member sends once its log is cut.
    fn cut_mail(&self, end: u64) -> Result<Row<Sent>, AllocError>
        ensures { IfOk result (λ sent. sent ≡ (asks_by self.now.role (record self.now { log = cut_at end self.now.log; job = None })).sent) }
    {
        match &self.duty {
            Duty::Stopped => Ok(Row::new(self.alloc)),
            Duty::Follower { leader } => {
                let message = Message::Ask {
                    epoch: self.promise,
                    from: self.number,
                    tail: self.log.cut_tail(end),
                };
                one(self.alloc, *leader, message)
            }
            Duty::Leader(_) => Ok(Row::new(self.alloc)),
        }
    }

    /// Its log is cut.
    fn done_cut(&mut self, end: u64) -> Result<Row<Sent>, AllocError>
        requires { self.old.job ≡ Some (jobs.Cut end) }
        ensures sent { IfOk result (λ sent. sent ≡ (asks_by self.old.role (record self.old { log = cut_at end self.old.log; job = None })).sent) }
        ensures state { OnOk result (self.new ≡ record self.old { log = cut_at end self.old.log; job = None }) }
        ensures err { OnErr result (self.new ≡ self.old) }
    {
        let sent = self.cut_mail(end)?;
        self.log.cut(end)?;
        self.job = None;
        Ok(sent)
    }

    /// What a member sends once a chunk is written.
    fn write_mail(&self, chunk: &Stored) -> Result<Row<Sent>, AllocError>
        ensures { IfOk result (λ sent. sent ≡ wrote_mail self.now.role chunk.now self.now) }
    {
        match &self.duty {
            Duty::Stopped => Ok(Row::new(self.alloc)),
            Duty::Follower { leader } => {
                let message = Message::Ask {
                    epoch: self.promise,
                    from: self.number,
                    tail: tail_after(chunk),
                };
                one(self.alloc, *leader, message)
            }
            Duty::Leader(_) => {
                let tail = self.log.tail();
                appends(
                    self.alloc,
                    self.members,
                    self.number,
                    self.promise,
                    tail,
                    chunk,
                )
            }
        }
    }

    /// The runs that a leader keeps when its first chunk is written.
    fn kept_runs(&self) -> Result<Row<Run>, AllocError>
        ensures { IfOk result (λ runs. runs ≡ first_kept self.now.role self.now.log) }
    {
        match &self.duty {
            Duty::Stopped => Ok(Row::new(self.alloc)),
            Duty::Follower { leader: _ } => Ok(Row::new(self.alloc)),
            Duty::Leader(lead) => {
                if lead.opened {
                    return Ok(Row::new(self.alloc));
                }
                copy_runs(self.alloc, self.log.runs())
            }
        }
    }

    /// A chunk is written, and the next one that waits is the next job.
    fn done_write(&mut self, chunk: &Stored) -> Result<Row<Sent>, AllocError>
        requires { self.old.job ≡ Some (jobs.Write chunk.now) }
        ensures sent { IfOk result (λ sent. sent ≡ (wrote self.old.role chunk.now self.old).sent) }
        ensures state { OnOk result (self.new ≡ (wrote self.old.role chunk.now self.old).state) }
        ensures err { OnErr result (self.new ≡ self.old) }
    {
        let sent = self.write_mail(chunk)?;
        let kept = self.kept_runs()?;
        let next = next_of(self.log.ahead())?;
        self.log.write()?;
        open_duty(&mut self.duty, kept);
        self.job = next;
        Ok(sent)
    }

    /// Takes a chunk behind its sequence: it is written next, or waits behind what is being written.
    fn queue(&mut self, chunk: Stored) -> Result<(), AllocError>
        requires open { IsOpen self.old.role }
        requires behind { GoesBehind (sequence_of self.old) chunk }
        requires promised { chunk.epoch ≤ self.old.promise }
        ensures ok { OnOk result (self.new ≡ offered chunk self.old) }
        ensures err { OnErr result (self.new ≡ self.old) }
    {
        if self.job.is_some() {
            return self.log.put(chunk);
        }
        let shared = chunk.share()?;
        self.log.put(chunk)?;
        self.job = Some(Job::Write(shared));
        Ok(())
    }

    /// Offers a chunk of its epoch to a leader that is opened. It begins where the leader's sequence
    /// ends, and where it is a snapshot it says what the sequence says. Where memory runs out nothing
    /// changes.
    pub fn offer(&mut self, chunk: Chunk) -> Result<(), AllocError>
        requires open { IsOpen self.old.role }
        requires epoch { chunk.epoch ≡ self.old.promise }
        requires is_chunk { IsChunk chunk }
        requires begins { chunk.first ≡ end_of (sequence_of self.old) }
        requires truthful { chunk.kind ≡ Snapshot → chunk.entries ≡ snapshot_entry_of (sequence_of self.old) ∷ [] }
        ensures ok { OnOk result (self.new ≡ offered chunk self.old) }
        ensures err { OnErr result (self.new ≡ self.old) }
    {
        let stored = Stored::make(self.alloc, &chunk)?;
        self.queue(stored)
    }

    /// A leader that is opened takes a snapshot of its sequence behind it, with this stamp in
    /// milliseconds. An offset is left behind the sequence, and the snapshot's entry has at most
    /// 2,147,483,647 bytes. Where memory runs out nothing changes.
    pub fn offer_snapshot(&mut self, stamp: i64) -> Result<(), AllocError>
        requires open { IsOpen self.old.role }
        requires end { end_of (sequence_of self.old) + 1 < 2 ^ 64 }
        requires len { length (snapshot_body (sequence_of self.old)) < 2 ^ 31 }
        ensures ok { OnOk result (self.new ≡ offered (opening_chunk self.old.promise stamp (sequence_of self.old)) self.old) }
        ensures err { OnErr result (self.new ≡ self.old) }
    {
        let chunk = self.log.snapshot(self.promise, stamp)?;
        self.queue(chunk)
    }
}
