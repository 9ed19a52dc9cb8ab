//! What a member does with a message.

ghost use Rattle.std.specs.Prelude.{◌≡◌, ◌≤◌, ◌∷◌, ◌&&◌, [], None, length, OnOk, OnErr, IfOk, IsTrue};
ghost use Rattle.std.specs.Int.{w64};
ghost use Rattle.std.specs.Int.RustNames.{FitsSigned};
ghost use Rattle.epoch_coordinator.specs.declared.message.Message.TheVariants as messages;
ghost use Rattle.epoch_coordinator.specs.Members.{is_stopped};
ghost use Rattle.epoch_coordinator.specs.MemberSteps.{taken, heard, names_another, epoch_of, is_later_stop, is_another, mail, raise, stamp_at, after_stop, can_open, after_open, after_follow, after_shape, goes_on, after_append, after_ask};
ghost use Rattle.member_core.specs.Kept.{GoesBehind};
ghost use Rattle.member_core.specs.States.{answer_by, state_by, is_heard, kept_of, with_end, next_mail, follows};

use crate::duty::{Duty, Lead};
use crate::member::Member;
use crate::search::contains;
use crate::send::{copy_runs, one};
use chunk_format::Stored;
use epoch_coordinator::{Job, Message, Run, Sent, Tail};
use frame_wire::Row;
use std::alloc::{AllocError, Global};

/// What came of a message.
#[derive(Debug, Drop)]
pub enum Taken {
    /// It was taken or ignored, and these messages are to be sent.
    Done(Row<Sent>),
    /// A job is pending, and nothing changed.
    Later,
}

/// Whether a number is that of a member, and not the receiver's own.
fn is_another(members: u8, me: u8, number: u8) -> bool
    ensures { result ≡ is_another members me number }
{
    0 < number && number <= members && number != me
}

/// Whether who is named as sender or leader is another member.
fn names_another(members: u8, me: u8, message: &Message) -> bool
    ensures { result ≡ names_another members me message.now }
{
    match message {
        Message::Stop { .. } => true,
        Message::Stopped { from, .. } => is_another(members, me, *from),
        Message::Open { .. } => true,
        Message::Follow { leader, .. } => is_another(members, me, *leader),
        Message::Shape { .. } => true,
        Message::Ask { from, .. } => is_another(members, me, *from),
        Message::Append { .. } => true,
    }
}

/// The epoch of a message.
fn epoch_of(message: &Message) -> u64
    ensures { result ≡ epoch_of message.now }
{
    match message {
        Message::Stop { epoch } => *epoch,
        Message::Stopped { epoch, .. } => *epoch,
        Message::Open { epoch } => *epoch,
        Message::Follow { epoch, .. } => *epoch,
        Message::Shape { epoch, .. } => *epoch,
        Message::Ask { epoch, .. } => *epoch,
        Message::Append { epoch, .. } => *epoch,
    }
}

/// Whether it is a Stop of a later epoch than the promised one.
fn is_later_stop(promise: u64, message: &Message) -> bool
    ensures { result ≡ is_later_stop promise message.now }
{
    match message {
        Message::Stop { epoch } => promise < *epoch,
        _ => false,
    }
}

/// Whether a message is taken at all.
fn is_heard(members: u8, me: u8, promise: u64, message: &Message) -> bool
    ensures { result ≡ is_heard members me promise message.now }
{
    if !names_another(members, me, message) {
        return false;
    }
    if epoch_of(message) == promise {
        return true;
    }
    is_later_stop(promise, message)
}

/// The stamp of a chunk that is made at a moment, in milliseconds.
fn stamp_at(now: u64) -> i64
    ensures stamp { result ≡ stamp_at now }
    ensures fits { FitsSigned w64 result }
{
    if now > 9_223_372_036_854_775_807 {
        return i64::MAX;
    }
    now as i64
}

/// Whether a chunk goes on from a log at the tail that is named, in an epoch that doesn't fall and
/// isn't above the promise.
fn follows(tail: Tail, promise: u64, previous: Tail, epoch: u64, first: u64) -> bool
    ensures { result ≡ follows tail promise previous epoch first }
{
    if previous.epoch != tail.epoch || previous.end != tail.end {
        return false;
    }
    if first != previous.end {
        return false;
    }
    previous.epoch <= epoch && epoch <= promise
}

/// The Append of the next chunk, if there is one.
fn append_next(
    alloc: Global,
    next: Option<Stored>,
    from: u8,
    epoch: u64,
    tail: Tail,
) -> Result<Row<Sent>, AllocError>
    ensures { IfOk result (λ sent. sent ≡ next_mail next from epoch tail) }
{
    match next {
        None => Ok(Row::new(alloc)),
        Some(chunk) => {
            let message = Message::Append {
                epoch,
                previous: tail,
                chunk,
            };
            one(alloc, from, message)
        }
    }
}

/// A member's end is raised, if this one is more.
fn raise(ends: &mut [u64], from: u8, end: u64)
    requires least { 1 ≤ from }
    requires most { from ≤ length ends.old }
    ensures { ends.new ≡ raise from end ends.old }
{
    let place = from as usize - 1;
    if ends[place] < end {
        ends[place] = end;
    }
}

impl Member {
    /// Takes a message at a moment, in milliseconds. While a job is pending it takes none. Where memory
    /// runs out nothing changes.
    pub fn take(&mut self, message: &Message, now: u64) -> Result<Taken, AllocError>
        ensures answer { IfOk result (λ answer. answer ≡ answer_by self.old.job (taken now message.now self.old)) }
        ensures state { OnOk result (self.new ≡ state_by self.old.job self.old (taken now message.now self.old)) }
        ensures err { OnErr result (self.new ≡ self.old) }
    {
        if self.job.is_some() {
            return Ok(Taken::Later);
        }
        let sent = self.take_idle(message, now)?;
        Ok(Taken::Done(sent))
    }

    /// Takes a message while no job is pending.
    fn take_idle(&mut self, message: &Message, now: u64) -> Result<Row<Sent>, AllocError>
        requires { self.old.job ≡ None }
        ensures sent { IfOk result (λ sent. sent ≡ (taken now message.now self.old).sent) }
        ensures state { OnOk result (self.new ≡ (taken now message.now self.old).state) }
        ensures err { OnErr result (self.new ≡ self.old) }
    {
        if !is_heard(self.members, self.number, self.promise, message) {
            return Ok(Row::new(self.alloc));
        }
        self.hear(message, now)
    }

    /// Does what the message asks for.
    fn hear(&mut self, message: &Message, now: u64) -> Result<Row<Sent>, AllocError>
        requires idle { self.old.job ≡ None }
        requires named { IsTrue (is_heard self.old.members self.old.number self.old.promise message.now) }
        ensures sent { IfOk result (λ sent. sent ≡ (heard now message.now self.old).sent) }
        ensures state { OnOk result (self.new ≡ (heard now message.now self.old).state) }
        ensures err { OnErr result (self.new ≡ self.old) }
    {
        match message {
            Message::Stop { epoch } => self.stop(*epoch),
            Message::Stopped { .. } => Ok(Row::new(self.alloc)),
            Message::Open { .. } => self.open(now),
            Message::Follow { leader, .. } => self.follow(*leader),
            Message::Shape { runs, .. } => self.shape(runs.as_slice()),
            Message::Ask { from, tail, .. } => self.ask(*from, *tail),
            Message::Append {
                previous,
                chunk,
                ..
            } => self.append(*previous, chunk),
        }
    }

    /// A Stop above the promise is to be promised; one of the promise is answered again.
    fn stop(&mut self, epoch: u64) -> Result<Row<Sent>, AllocError>
        requires { self.old.job ≡ None }
        ensures sent { IfOk result (λ sent. sent ≡ (after_stop epoch self.old).sent) }
        ensures state { OnOk result (self.new ≡ (after_stop epoch self.old).state) }
        ensures err { OnErr result (self.new ≡ self.old) }
    {
        if self.promise < epoch {
            self.duty = Duty::Stopped;
            self.job = Some(Job::Promise(epoch));
            return Ok(Row::new(self.alloc));
        }
        if epoch == self.promise && self.is_stopped() {
            return self.says_stopped();
        }
        Ok(Row::new(self.alloc))
    }

    /// Whether it may begin to lead.
    fn may_open(&mut self) -> Result<bool, AllocError>
        requires { self.old.job ≡ None }
        ensures may { IfOk result (λ b. b ≡ (is_stopped self.old.role && can_open self.old.promise self.old.log)) }
        ensures same { self.new ≡ self.old }
    {
        if !self.is_stopped() || self.log.has_epoch(self.promise) {
            return Ok(false);
        }
        if self.log.end() == u64::MAX {
            return Ok(false);
        }
        let len = self.log.snapshot_len()?;
        Ok(len <= 2_147_483_647)
    }

    /// A stopped member begins to lead.
    fn open(&mut self, now: u64) -> Result<Row<Sent>, AllocError>
        requires { self.old.job ≡ None }
        ensures sent { IfOk result (λ sent. sent ≡ (after_open now self.old).sent) }
        ensures state { OnOk result (self.new ≡ (after_open now self.old).state) }
        ensures err { OnErr result (self.new ≡ self.old) }
    {
        if !self.may_open()? {
            return Ok(Row::new(self.alloc));
        }
        let chunk = self.log.snapshot(self.promise, stamp_at(now))?;
        let shared = chunk.share()?;
        self.log.put(chunk)?;
        self.duty = Duty::Leader(Lead {
            opened: false,
            kept: Row::new(self.alloc),
            acknowledged: [0; 7],
        });
        self.job = Some(Job::Write(shared));
        Ok(Row::new(self.alloc))
    }

    /// A stopped member follows a leader.
    fn follow(&mut self, leader: u8) -> Result<Row<Sent>, AllocError>
        requires { self.old.job ≡ None }
        ensures sent { IfOk result (λ sent. sent ≡ (after_follow leader self.old).sent) }
        ensures state { OnOk result (self.new ≡ (after_follow leader self.old).state) }
        ensures err { OnErr result (self.new ≡ self.old) }
    {
        if !self.is_stopped() {
            return Ok(Row::new(self.alloc));
        }
        let sent = self.asks(leader)?;
        self.duty = Duty::Follower { leader };
        Ok(sent)
    }

    /// A follower cuts what its leader's log didn't have, or asks at once.
    fn shape(&mut self, runs: &[Run]) -> Result<Row<Sent>, AllocError>
        requires { self.old.job ≡ None }
        ensures sent { IfOk result (λ sent. sent ≡ (after_shape self.old.role runs.now self.old).sent) }
        ensures state { OnOk result (self.new ≡ (after_shape self.old.role runs.now self.old).state) }
        ensures err { OnErr result (self.new ≡ self.old) }
    {
        let Some(leader) = self.followed() else {
            return Ok(Row::new(self.alloc));
        };
        if self.log.ends_in(self.promise) {
            return Ok(Row::new(self.alloc));
        }
        let kept = self.log.kept_end(runs);
        if kept < self.log.tail().end {
            self.job = Some(Job::Cut(kept));
            return Ok(Row::new(self.alloc));
        }
        self.asks(leader)
    }

    /// Whether a chunk goes on from the log at the tail that is named.
    fn goes_on(&mut self, previous: Tail, chunk: &Stored) -> Result<bool, AllocError>
        requires { self.old.job ≡ None }
        ensures goes { IfOk result (λ b. b ≡ goes_on self.old.promise previous chunk.now self.old.log) }
        ensures behind { IfOk result (λ b. IsTrue b → GoesBehind self.old.log chunk.now × (chunk.now.epoch ≤ self.old.promise)) }
        ensures same { self.new ≡ self.old }
    {
        let header = chunk.header();
        let tail = self.log.tail();
        if !follows(tail, self.promise, previous, header.epoch, header.first) {
            return Ok(false);
        }
        self.log.agrees(chunk)
    }

    /// A follower takes the chunk that follows its log.
    fn append(&mut self, previous: Tail, chunk: &Stored) -> Result<Row<Sent>, AllocError>
        requires { self.old.job ≡ None }
        ensures sent { IfOk result (λ sent. sent ≡ (after_append self.old.role previous chunk.now self.old).sent) }
        ensures state { OnOk result (self.new ≡ (after_append self.old.role previous chunk.now self.old).state) }
        ensures err { OnErr result (self.new ≡ self.old) }
    {
        if self.followed().is_none() {
            return Ok(Row::new(self.alloc));
        }
        if !self.goes_on(previous, chunk)? {
            return Ok(Row::new(self.alloc));
        }
        let kept = chunk.share()?;
        let shared = chunk.share()?;
        self.log.put(kept)?;
        self.job = Some(Job::Write(shared));
        Ok(Row::new(self.alloc))
    }

    /// The runs that a leader kept, for a member whose tail its log lacks.
    fn tell_shape(&self, from: u8) -> Result<Row<Sent>, AllocError>
        ensures { IfOk result (λ sent. sent ≡ mail from (messages.Shape self.now.promise (kept_of self.now.role)) ∷ []) }
    {
        let runs = match &self.duty {
            Duty::Stopped => Row::new(self.alloc),
            Duty::Follower { leader: _ } => Row::new(self.alloc),
            Duty::Leader(lead) => copy_runs(self.alloc, lead.kept.as_slice())?,
        };
        let message = Message::Shape {
            epoch: self.promise,
            runs,
        };
        one(self.alloc, from, message)
    }

    /// A leader hears that a member has all up to an end.
    fn acknowledge(&mut self, from: u8, end: u64)
        requires least { 1 ≤ from }
        requires most { from ≤ self.old.members }
        ensures { self.new ≡ record self.old { role = with_end from end self.old.role } }
    {
        let members = self.members as usize;
        match &mut self.duty {
            Duty::Stopped => {}
            Duty::Follower { leader: _ } => {}
            Duty::Leader(lead) => raise(&mut lead.acknowledged[..members], from, end),
        }
    }

    /// A leader tells its runs where its log lacks the tail; else it hears the acknowledgement and
    /// sends the next chunk.
    fn ask(&mut self, from: u8, tail: Tail) -> Result<Row<Sent>, AllocError>
        requires least { 1 ≤ from }
        requires most { from ≤ self.old.members }
        ensures sent { IfOk result (λ sent. sent ≡ (after_ask self.old.role from tail self.old).sent) }
        ensures state { OnOk result (self.new ≡ (after_ask self.old.role from tail self.old).state) }
        ensures err { OnErr result (self.new ≡ self.old) }
    {
        if !self.is_open() {
            return Ok(Row::new(self.alloc));
        }
        if !contains(self.log.runs(), tail) {
            return self.tell_shape(from);
        }
        let next = self.log.chunk_from(tail.end)?;
        let sent = append_next(self.alloc, next, from, self.promise, tail)?;
        if tail.epoch == self.promise {
            self.acknowledge(from, tail.end);
        }
        Ok(sent)
    }
}
