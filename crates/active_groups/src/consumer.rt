//! Consumers, their states, and what they are told.

ghost use Rattle.std.specs.Prelude.{◌≡◌, if◌then◌else◌};
ghost use Rattle.active_groups.specs.Seating.{is_active, is_open, seats_one};
ghost use Rattle.active_groups.specs.Changes.{after_answer};

/// A subscription of a session: the session's number, and the number that the session gave it.
#[derive(Clone, Copy, Debug, PartialEq, Eq)]
pub struct ConsumerId {
    pub session: u32,
    pub serial: u32,
}

/// What a consumer does in its group.
#[derive(Clone, Copy, Debug, PartialEq, Eq)]
pub enum GroupState {
    /// It gets nothing.
    Waiting,
    /// It was told to be active and has not answered.
    Starting,
    /// It answered that it is active: chunks are delivered to it.
    Active,
    /// It was told not to be active any more and has not answered.
    Stopping,
}

/// What a consumer is told: whether it is active from now on.
#[derive(Clone, Copy, Debug, PartialEq, Eq)]
pub struct Change {
    pub consumer: ConsumerId,
    pub active: bool,
}

/// A consumer in its group.
#[derive(Clone, Copy, Debug, PartialEq, Eq)]
pub struct Seat {
    pub consumer: ConsumerId,
    pub state: GroupState,
}

impl GroupState {
    pub(crate) fn is_active(self) -> bool
        ensures { result ≡ is_active self }
    {
        match self {
            GroupState::Active => true,
            GroupState::Waiting | GroupState::Starting | GroupState::Stopping => false,
        }
    }

    /// Whether it was told something and has not answered.
    pub(crate) fn is_open(self) -> bool
        ensures { result ≡ is_open self }
    {
        match self {
            GroupState::Starting | GroupState::Stopping => true,
            GroupState::Waiting | GroupState::Active => false,
        }
    }

    /// The state of one that was told whether to be active.
    pub(crate) fn on_the_way(active: bool) -> GroupState
        ensures { result ≡ (if active then GroupState.Starting else GroupState.Stopping) }
    {
        if active {
            GroupState::Starting
        } else {
            GroupState::Stopping
        }
    }

    pub(crate) fn after_answer(self) -> GroupState
        ensures { result ≡ after_answer self }
    {
        match self {
            GroupState::Starting => GroupState::Active,
            GroupState::Stopping => GroupState::Waiting,
            GroupState::Waiting | GroupState::Active => self,
        }
    }
}

impl Seat {
    /// Whether this consumer sits here.
    pub(crate) fn is_of(&self, consumer: ConsumerId) -> bool
        ensures { result ≡ seats_one consumer self.now }
    {
        self.consumer == consumer
    }
}
