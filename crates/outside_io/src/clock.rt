ghost use Rattle.std.specs.Prelude.{◌≡◌, ℕ, List, Option};
ghost use Rattle.std.specs.Option.{option_map};
ghost use Rattle.outside_io.specs.Clocks.{IsFirst, later_moments};

/// What tells the time. It has no failures.
pub trait Clock: Drop {
    // The moments that it is to answer, where the clock tells them. There is at least one. No call
    // changes whether it does.
    ghost moments: { Self → Option (List ℕ) };

    /// The moment, in milliseconds: the first of those told, which is then let go unless it is the
    /// only one.
    fn now(&mut self) -> u64
        ensures first { IsFirst (moments self.old) result }
        ensures later { moments self.new ≡ option_map later_moments (moments self.old) };
}
