ghost use Rattle.std.specs.Prelude.{◌≡◌, ℕ, Bool};
ghost use Rattle.outside_io.specs.Causes.{HasCause};
ghost use Rattle.outside_io.specs.Listeners.{over_after};

use crate::link::Link;

/// What came of an accept.
#[derive(Debug, Drop)]
pub enum Accepted<L> {
    /// The next connection.
    Got(L),
    /// No connection comes any more.
    Ended,
    /// The accept failed and took no connection.
    Failed,
}

/// Where connections come from.
pub trait Listener: Drop {
    type Conn: Link;

    // Whether an accept has answered Ended.
    ghost has_ended: { Self → Bool };

    // How many accepts failed. At its greatest value the count stands still.
    ghost faults: { Self → ℕ };

    /// Waits for the next connection.
    fn accept(&mut self) -> Accepted<Self::Conn>
        ensures ended { has_ended self.new ≡ over_after (has_ended self.old) result }
        ensures cause { HasCause (faults self.old) (faults self.new) (result ≡ Accepted.Failed) };
}
