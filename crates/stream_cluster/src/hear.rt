//! A message comes to the coordinator or to a member.

ghost use Rattle.std.specs.Prelude.{◌≡◌, ◌+◌, ◌<◌, ◌≤◌, ◌++◌, true, None, length, slice_set, IsSome, OnOk, OnErr, IfOk};
ghost use Rattle.std.specs.Vec.{vec_len};
ghost use Rattle.replication_laws.specs.Cluster.{numbered};
ghost use Rattle.epoch_coordinator.specs.MemberSteps.{taken, finished, commit_end};
ghost use Rattle.cluster_core.specs.Parts.{lettered, delivered_at, did_mail};
ghost use Rattle.cluster_core.specs.States.{told_by};
ghost use Rattle.cluster_core.specs.Kept.{At};
ghost use Rattle.stream_cluster.specs.Seats.{SeatAt, in_seat};

use crate::place::Place;
use cluster_core::{Numbered, mark, post_did};
use epoch_coordinator::{Coordinator, Message, Sent, StoppedDid};
use frame_wire::Row;
use member_core::Taken;
use std::alloc::AllocError;

/// What a member did: what it sends, and up to where its chunks are then committed.
#[derive(Drop)]
pub(crate) struct MemberDid {
    pub(crate) sent: Row<Sent>,
    pub(crate) end: u64,
}

/// The coordinator hears a message: it takes Stopped alone.
fn told(coordinator: &mut Coordinator, message: &Message) -> StoppedDid
    ensures state { coordinator.new ≡ (told_by message.now coordinator.old).state }
    ensures answer { result ≡ (told_by message.now coordinator.old).answer }
{
    match message {
        Message::Stop { .. } => StoppedDid::Nothing,
        Message::Stopped { epoch, from, tail } => coordinator.stopped(*epoch, *from, *tail),
        Message::Open { .. } => StoppedDid::Nothing,
        Message::Follow { .. } => StoppedDid::Nothing,
        Message::Shape { .. } => StoppedDid::Nothing,
        Message::Ask { .. } => StoppedDid::Nothing,
        Message::Append { .. } => StoppedDid::Nothing,
    }
}

/// The coordinator of so many members hears the message at a place, which is marked, and what it sends is numbered on
/// behind the last number. Where memory runs out nothing changes.
pub(crate) fn tell(
    coordinator: &mut Coordinator,
    members: u8,
    mail: &mut Vec<Numbered>,
    last: u64,
    place: usize,
) -> Result<u64, AllocError>
    requires there { place < length mail.old.items }
    requires few { members ≤ 7 }
    ensures state { OnOk result (At mail.old.items place (λ n. coordinator.new ≡ (told_by n.sent.message coordinator.old).state)) }
    ensures mail { OnOk result (At mail.old.items place (λ n. lettered mail.new.items ≡ lettered (delivered_at place mail.old.items) ++ numbered last (did_mail members (told_by n.sent.message coordinator.old).answer))) }
    ensures last { IfOk result (λ next. At mail.old.items place (λ n. next ≡ last + length (numbered last (did_mail members (told_by n.sent.message coordinator.old).answer)))) }
    ensures err_state { OnErr result (coordinator.new ≡ coordinator.old) }
    ensures err_mail { OnErr result (mail.new.items ≡ mail.old.items) }
{
    mail.reserve(8)?;
    let did = told(coordinator, &mail[place].sent.message);
    mark(mail, place);
    Ok(post_did(mail, last, members, did))
}

impl Place {
    /// A member that is up and has no job takes a message. Where memory runs out nothing changes.
    fn take(&mut self, message: &Message, now: u64) -> Result<MemberDid, AllocError>
        requires up { self.old.up ≡ true }
        requires idle { self.old.state.job ≡ None }
        ensures state { OnOk result (self.new ≡ in_seat (taken now message.now self.old.state).state) }
        ensures sent { IfOk result (λ did. did.sent ≡ (taken now message.now self.old.state).sent) }
        ensures end { IfOk result (λ did. did.end ≡ commit_end (taken now message.now self.old.state).state) }
        ensures err { OnErr result (self.new ≡ self.old) }
    {
        match self.member.take(message, now)? {
            Taken::Done(sent) => {
                let end = self.member.commit_end();
                Ok(MemberDid { sent, end })
            }
            Taken::Later => unreachable!(),
        }
    }

    /// The pending job of a member that is up is done. Where memory runs out nothing changes.
    fn finish(&mut self) -> Result<MemberDid, AllocError>
        requires up { self.old.up ≡ true }
        requires job { IsSome self.old.state.job }
        ensures state { OnOk result (self.new ≡ in_seat (finished self.old.state).state) }
        ensures sent { IfOk result (λ did. did.sent ≡ (finished self.old.state).sent) }
        ensures end { IfOk result (λ did. did.end ≡ commit_end (finished self.old.state).state) }
        ensures err { OnErr result (self.new ≡ self.old) }
    {
        let sent = self.member.done()?;
        let end = self.member.commit_end();
        Ok(MemberDid { sent, end })
    }
}

/// The member at a place, which is up and has no job, takes a message. Where memory runs out nothing changes.
pub(crate) fn take_at(
    seats: &mut Vec<Place>,
    place: usize,
    message: &Message,
    now: u64,
) -> Result<MemberDid, AllocError>
    requires there { place < length seats.old.items }
    requires up { SeatAt seats.old.items place (λ s. s.up ≡ true) }
    requires idle { SeatAt seats.old.items place (λ s. s.state.job ≡ None) }
    ensures state { OnOk result (SeatAt seats.old.items place (λ s. seats.new.items ≡ slice_set seats.old.items place (in_seat (taken now message.now s.state).state))) }
    ensures sent { IfOk result (λ did. SeatAt seats.old.items place (λ s. did.sent ≡ (taken now message.now s.state).sent)) }
    ensures end { IfOk result (λ did. SeatAt seats.old.items place (λ s. did.end ≡ commit_end (taken now message.now s.state).state)) }
    ensures err { OnErr result (seats.new.items ≡ seats.old.items) }
{
    seats[place].take(message, now)
}

/// The pending job of the member at a place, which is up, is done. Where memory runs out nothing changes.
pub(crate) fn finish_at(seats: &mut Vec<Place>, place: usize) -> Result<MemberDid, AllocError>
    requires there { place < length seats.old.items }
    requires up { SeatAt seats.old.items place (λ s. s.up ≡ true) }
    requires job { SeatAt seats.old.items place (λ s. IsSome s.state.job) }
    ensures state { OnOk result (SeatAt seats.old.items place (λ s. seats.new.items ≡ slice_set seats.old.items place (in_seat (finished s.state).state))) }
    ensures sent { IfOk result (λ did. SeatAt seats.old.items place (λ s. did.sent ≡ (finished s.state).sent)) }
    ensures end { IfOk result (λ did. SeatAt seats.old.items place (λ s. did.end ≡ commit_end (finished s.state).state)) }
    ensures err { OnErr result (seats.new.items ≡ seats.old.items) }
{
    seats[place].finish()
}
