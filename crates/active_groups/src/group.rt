//! One group: the consumers of one name on one stream.

ghost use Rattle.std.specs.Prelude.{◌≡◌, ◌==◌, ◌<◌, length, not, filter, position, IfOk, IfSome, OnOk, OnErr};
ghost use Rattle.std.specs.List.{list_any};
ghost use Rattle.active_groups.specs.Seating.{is_of, sits, seats_one, state_in, is_active, is_open};
ghost use Rattle.active_groups.specs.Changes.{at_place, with_state, change_at, change_of, tells, told, answered};
ghost use Rattle.active_groups.specs.Steps.{new_group, with_consumer, without, is_awaited};

use crate::consumer::{Change, ConsumerId, GroupState, Seat};
use frame_wire::Text;
use std::alloc::{AllocError, Global};
use std::marker::Model;

/// The consumers of one name on one stream, in the order of joining.
#[derive(Debug, Drop)]
pub struct Group {
    stream: u32,
    name: Text,
    index: u32,
    seats: Vec<Seat>,
}

impl Model for Group {
    ghost use Rattle.active_groups.specs.Seating.{Seating};

    ghost Value = { Seating };

    ghost view = { λ g. record { stream = g.stream; name = g.name; index = g.index; seats = g.seats.items } };
}

/// The place of a consumer.
fn place_of(seats: &[Seat], consumer: ConsumerId) -> Option<usize>
    ensures is { result ≡ position (seats_one consumer) seats.now }
    ensures inside { IfSome result (λ place. place < length seats.now) }
{
    seats.iter().position(|seat| seat.is_of(consumer))
}

/// The place of the active one.
fn active_place(seats: &[Seat]) -> Option<usize>
    ensures is { result ≡ position (λ s. is_active s.state) seats.now }
    ensures inside { IfSome result (λ place. place < length seats.now) }
{
    seats.iter().position(|seat| seat.state.is_active())
}

/// Whether an answer of one is awaited.
fn is_any_open(seats: &[Seat]) -> bool
    ensures { result ≡ list_any (λ s. is_open s.state) seats.now }
{
    seats.iter().any(|seat| seat.state.is_open())
}

/// A consumer gets a state.
fn set_state(seats: &mut Vec<Seat>, place: usize, state: GroupState)
    requires { place < length seats.old.items }
    ensures { seats.new.items ≡ at_place place (with_state state) seats.old.items }
{
    seats[place].state = state;
}

/// All seats of a consumer go.
fn remove(seats: &mut Vec<Seat>, consumer: ConsumerId)
    ensures { seats.new.items ≡ filter (λ s. not (seats_one consumer s)) seats.old.items }
{
    seats.retain(|seat| !seat.is_of(consumer));
}

impl Group {
    /// A group of nobody. It takes memory for its name.
    pub fn new(alloc: Global, stream: u32, name: &Text, index: u32) -> Result<Group, AllocError>
        ensures { IfOk result (λ g. g ≡ new_group stream name.now index) }
    {
        let name = name.clone()?;
        Ok(Group {
            stream,
            name,
            index,
            seats: Vec::new(alloc),
        })
    }

    /// Whether this is the group of that stream and name.
    pub fn is_of(&self, stream: u32, name: &Text) -> bool
        ensures { result ≡ is_of stream name.now self.now }
    {
        self.stream == stream && self.name == *name
    }

    /// Whether a consumer is in the group.
    pub fn sits(&self, consumer: ConsumerId) -> bool
        ensures { result ≡ sits consumer self.now }
    {
        self.seats.iter().any(|seat| seat.is_of(consumer))
    }

    /// Whether nobody is in the group.
    pub fn is_empty(&self) -> bool
        ensures { result ≡ (length self.now.seats == 0) }
    {
        self.seats.is_empty()
    }

    /// The state of a consumer, `None` where it is not in the group.
    pub fn state(&self, consumer: ConsumerId) -> Option<GroupState>
        ensures { result ≡ state_in self.now.seats consumer }
    {
        let place = place_of(self.seats.as_slice(), consumer)?;
        Some(self.seats[place].state)
    }

    /// A consumer joins: it waits, behind the others.
    pub fn join(&mut self, consumer: ConsumerId) -> Result<(), AllocError>
        ensures ok { OnOk result (self.new ≡ with_consumer consumer self.old) }
        ensures err { OnErr result (self.new ≡ self.old) }
    {
        self.seats.push(Seat {
            consumer,
            state: GroupState::Waiting,
        })?;
        Ok(())
    }

    /// A consumer leaves, in any state.
    pub fn leave(&mut self, consumer: ConsumerId)
        ensures { self.new ≡ without consumer self.old }
    {
        remove(&mut self.seats, consumer);
    }

    /// The place of the consumer that is to be told, and whether it is to be active.
    fn change_place(&self) -> Option<(usize, bool)>
        ensures is { result ≡ change_at self.now }
        ensures inside { IfSome result (λ p. p.0 < length self.now.seats) }
    {
        if is_any_open(self.seats.as_slice()) {
            return None;
        }
        match active_place(self.seats.as_slice()) {
            None => {
                if self.seats.is_empty() {
                    None
                } else {
                    Some((self.index as usize % self.seats.len(), true))
                }
            }
            Some(place) => {
                if place == self.index as usize % self.seats.len() {
                    None
                } else {
                    Some((place, false))
                }
            }
        }
    }

    /// The change that this group has to tell.
    pub fn change(&self) -> Option<Change>
        ensures { result ≡ change_of self.now }
    {
        let (place, active) = self.change_place()?;
        Some(Change {
            consumer: self.seats[place].consumer,
            active,
        })
    }

    /// Whether the change is for a consumer of this session.
    pub fn tells(&self, session: u32) -> bool
        ensures { result ≡ tells session self.now }
    {
        match self.change() {
            None => false,
            Some(change) => change.consumer.session == session,
        }
    }

    /// The change is told, where there is one.
    pub fn tell(&mut self) -> Option<Change>
        ensures change { result ≡ change_of self.old }
        ensures after { self.new ≡ told self.old }
    {
        let (place, active) = self.change_place()?;
        let consumer = self.seats[place].consumer;
        set_state(&mut self.seats, place, GroupState::on_the_way(active));
        Some(Change { consumer, active })
    }

    /// A consumer answers; whether its answer was awaited.
    pub fn answer(&mut self, consumer: ConsumerId) -> bool
        ensures awaited { result ≡ is_awaited (state_in self.old.seats consumer) }
        ensures after { self.new ≡ answered consumer self.old }
    {
        let Some(place) = place_of(self.seats.as_slice(), consumer) else {
            return false;
        };
        let state = self.seats[place].state;
        set_state(&mut self.seats, place, state.after_answer());
        state.is_open()
    }
}
