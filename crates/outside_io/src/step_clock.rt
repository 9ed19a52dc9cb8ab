ghost use Rattle.std.specs.Prelude.{◌≡◌, ◌<◌, length, IfOk, Some};
ghost use Rattle.std.specs.Option.{option_map};
ghost use Rattle.outside_io.specs.Clocks.{IsFirst, later_moments};

use crate::clock::Clock;
use std::alloc::{AllocError, Global};
use std::marker::Model;

/// A clock that answers the moments of a list in order, and then the last of them again and again.
#[derive(Debug, Drop)]
pub struct StepClock {
    moments: Vec<u64>,
    at: usize,
}

// It is seen as the moments that it is still to answer.
impl Model for StepClock {
    ghost use Rattle.std.specs.Prelude.{List, ℕ, drop, length, ◌<◌};

    ghost Value = { List ℕ };

    ghost view = { λ c. drop c.at c.moments.items };

    ghost invariant = { λ c. c.at < length c.moments.items };
}

impl StepClock {
    /// A clock of these moments, of which there is at least one. It takes memory for a copy of them.
    pub fn new(alloc: Global, moments: &[u64]) -> Result<StepClock, AllocError>
        requires { 0 < length moments.now }
        ensures { IfOk result (λ c. c ≡ moments.now) }
    {
        Ok(StepClock {
            moments: Vec::from_slice(alloc, moments)?,
            at: 0,
        })
    }
}

impl Clock for StepClock {
    ghost use Rattle.std.specs.Prelude.{Some};

    ghost moments = { λ c. Some c };

    /// The next moment of the list. It takes no memory.
    fn now(&mut self) -> u64
        ensures first { IsFirst (Some self.old) result }
        ensures later { Some self.new ≡ option_map later_moments (Some self.old) }
    {
        let moment = self.moments[self.at];
        if self.at + 1 < self.moments.len() {
            self.at += 1;
        }
        moment
    }
}
