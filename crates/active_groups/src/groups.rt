//! All groups.

ghost use Rattle.std.specs.Prelude.{◌≡◌, [], ◌<◌, length, filter, position, not, Some, None, IsTrue, IfOk, IfSome, IfNone, OnOk, OnErr};
ghost use Rattle.active_groups.specs.Seating.{is_of, sits, state_of};
ghost use Rattle.active_groups.specs.Changes.{tells};
ghost use Rattle.active_groups.specs.Steps.{GroupStep, Joins, Leaves, Polls, Answers, ChangesAt, TellsAt, AnswersAt, new_group, with_consumer, without, has_seats, AreGroups};

use crate::consumer::{Change, ConsumerId, GroupState};
use crate::group::Group;
use frame_wire::Text;
use std::alloc::{AllocError, Global};
use std::marker::Model;

/// All groups, in the order of their making. Of each group's consumers at most one is not waiting, and no
/// consumer is in two groups.
#[derive(Debug, Drop)]
pub struct Groups {
    alloc: Global,
    groups: Vec<Group>,
}

impl Model for Groups {
    ghost use Rattle.std.specs.Prelude.{List};
    ghost use Rattle.active_groups.specs.Seating.{Seating};
    ghost use Rattle.active_groups.specs.Steps.{AreGroups};

    ghost Value = { List Seating };

    ghost view = { λ g. g.groups.items };

    ghost invariant = { λ g. AreGroups g.groups.items };
}

/// The place of the group of a stream and a name.
fn group_named(groups: &[Group], stream: u32, name: &Text) -> Option<usize>
    ensures is { result ≡ position (is_of stream name.now) groups.now }
    ensures inside { IfSome result (λ place. place < length groups.now) }
{
    groups.iter().position(|group| group.is_of(stream, name))
}

/// The place of the group that a consumer is in.
fn group_with(groups: &[Group], consumer: ConsumerId) -> Option<usize>
    ensures is { result ≡ position (sits consumer) groups.now }
    ensures inside { IfSome result (λ place. place < length groups.now) }
{
    groups.iter().position(|group| group.sits(consumer))
}

/// The place of the first group with a change for a session.
fn group_to_tell(groups: &[Group], session: u32) -> Option<usize>
    ensures is { result ≡ position (tells session) groups.now }
    ensures inside { IfSome result (λ place. place < length groups.now) }
{
    groups.iter().position(|group| group.tells(session))
}

fn join_at(groups: &mut Vec<Group>, place: usize, consumer: ConsumerId) -> Result<(), AllocError>
    requires { place < length groups.old.items }
    ensures ok { OnOk result (ChangesAt place (with_consumer consumer) groups.old.items groups.new.items) }
    ensures err { OnErr result (groups.new.items ≡ groups.old.items) }
{
    let group = &mut groups[place];
    group.join(consumer)
}

fn leave_at(groups: &mut Vec<Group>, place: usize, consumer: ConsumerId)
    requires { place < length groups.old.items }
    ensures { ChangesAt place (without consumer) groups.old.items groups.new.items }
{
    let group = &mut groups[place];
    group.leave(consumer);
}

fn tell_at(groups: &mut Vec<Group>, place: usize) -> Option<Change>
    requires { place < length groups.old.items }
    ensures { TellsAt place groups.old.items result groups.new.items }
{
    let group = &mut groups[place];
    group.tell()
}

fn answer_at(groups: &mut Vec<Group>, place: usize, consumer: ConsumerId) -> bool
    requires { place < length groups.old.items }
    ensures { AnswersAt place consumer groups.old.items result groups.new.items }
{
    let group = &mut groups[place];
    group.answer(consumer)
}

/// Groups of nobody go.
fn drop_empty(groups: &mut Vec<Group>)
    ensures { groups.new.items ≡ filter has_seats groups.old.items }
{
    groups.retain(|group| !group.is_empty());
}

/// A group of one consumer, which waits. It takes memory for the name and the consumer.
fn group_of_one(
    alloc: Global,
    stream: u32,
    name: &Text,
    index: u32,
    consumer: ConsumerId,
) -> Result<Group, AllocError>
    ensures { IfOk result (λ g. g ≡ with_consumer consumer (new_group stream name.now index)) }
{
    let mut group = Group::new(alloc, stream, name, index)?;
    group.join(consumer)?;
    Ok(group)
}

impl Groups {
    /// No groups. It takes no memory.
    pub fn new(alloc: Global) -> Groups
        ensures { result ≡ [] }
    {
        Groups {
            alloc,
            groups: Vec::new(alloc),
        }
    }

    /// A consumer joins the group of a stream and a name, and waits behind its other consumers. Where there is no
    /// such group, one is made with this index, the stream's place in its super stream, or 0. Want of memory leaves
    /// all as it was.
    pub fn join(
        &mut self,
        stream: u32,
        name: &Text,
        index: u32,
        consumer: ConsumerId,
    ) -> Result<(), AllocError>
        requires { state_of self.old consumer ≡ None }
        ensures ok { OnOk result (GroupStep self.old (Joins stream name.now index consumer) self.new) }
        ensures waits { OnOk result (state_of self.new consumer ≡ Some GroupState.Waiting) }
        ensures err { OnErr result (self.new ≡ self.old) }
    {
        match group_named(self.groups.as_slice(), stream, name) {
            Some(place) => join_at(&mut self.groups, place, consumer),
            None => {
                let group = group_of_one(self.alloc, stream, name, index, consumer)?;
                self.groups.push(group)?;
                Ok(())
            }
        }
    }

    /// A consumer leaves its group, in any state; the group goes with its last consumer. Nothing changes where the
    /// consumer is in no group.
    pub fn leave(&mut self, consumer: ConsumerId)
        ensures step { GroupStep self.old (Leaves consumer) self.new }
        ensures gone { state_of self.new consumer ≡ None }
    {
        if let Some(place) = group_with(self.groups.as_slice(), consumer) {
            leave_at(&mut self.groups, place, consumer);
            drop_empty(&mut self.groups);
        }
    }

    /// The first change, in the order of the groups' making, that is for a consumer of this session. It counts as
    /// told: nobody of that group is told more before the consumer has answered.
    pub fn poll(&mut self, session: u32) -> Option<Change>
        ensures step { GroupStep self.old (Polls session result) self.new }
        ensures session { IfSome result (λ change. change.consumer.session ≡ session) }
        ensures unchanged { IfNone result (self.new ≡ self.old) }
    {
        let place = group_to_tell(self.groups.as_slice(), session)?;
        tell_at(&mut self.groups, place)
    }

    /// A consumer answers what it was told: one that is starting is active then, and one that is stopping waits.
    /// `false` where no answer of it was awaited, and then nothing changes.
    pub fn answered(&mut self, consumer: ConsumerId) -> bool
        ensures step { GroupStep self.old (Answers consumer result) self.new }
        ensures unchanged { IsTrue (not result) → self.new ≡ self.old }
    {
        match group_with(self.groups.as_slice(), consumer) {
            None => false,
            Some(place) => answer_at(&mut self.groups, place, consumer),
        }
    }

    /// The state of a consumer, `None` where it is in no group.
    pub fn state(&self, consumer: ConsumerId) -> Option<GroupState>
        ensures state { result ≡ state_of self.now consumer }
        ensures groups { AreGroups self.now }
    {
        let place = group_with(self.groups.as_slice(), consumer)?;
        self.groups[place].state(consumer)
    }
}
