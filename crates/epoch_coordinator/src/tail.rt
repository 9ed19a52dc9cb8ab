//! The ends of logs and of their epochs.

ghost use Rattle.std.specs.Prelude.{◌≡◌};
ghost use Rattle.epoch_coordinator.specs.Tails.{is_behind, same_tail};

/// Where a log ends: the epoch of its last chunk, and the offset behind it. A log without chunks
/// has (0, 0).
#[derive(Clone, Copy, Debug, PartialEq, Eq)]
pub struct Tail {
    pub epoch: u64,
    /// The offset behind the last record.
    pub end: u64,
}

/// An epoch of a log, and the offset behind its last chunk of that epoch.
#[derive(Clone, Copy, Debug, PartialEq, Eq)]
pub struct Run {
    pub epoch: u64,
    pub end: u64,
}

impl Tail {
    /// Whether this tail is less than another: by epoch, then by end.
    pub fn is_behind(self, other: Tail) -> bool
        ensures { result ≡ is_behind self other }
    {
        self.epoch < other.epoch || (self.epoch == other.epoch && self.end < other.end)
    }
}
