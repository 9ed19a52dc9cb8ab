ghost use Rattle.std.specs.Prelude.{◌≡◌, ◌≤◌, IsTrue, false, None};
ghost use Rattle.std.specs.Option.{option_map};
ghost use Rattle.outside_io.specs.Causes.{HasCause, next_count};
ghost use Rattle.outside_io.specs.Clocks.{IsFirst, later_moments};
ghost use Rattle.outside_io.specs.Spawners.{IsListed, after_start};

use crate::clock::Clock;
use crate::spawner::Spawner;
use std::marker::Model;
use std::thread::Threads;
use std::time;

/// The spawner of threads of this process. It lists no start, and keeps no handle of a thread.
#[derive(Drop)]
pub struct StdSpawner<R: Threads + Drop> {
    rt: R,
    faults: u64,
}

// It is seen as its count of failures.
impl<R: Threads + Drop> Model for StdSpawner<R> {
    ghost use Rattle.std.specs.Prelude.{ℕ};

    ghost Value = { ℕ };

    ghost view = { λ s. s.faults };
}

impl<R: Threads + Drop> StdSpawner<R> {
    /// A spawner by this handle.
    pub fn new(rt: R) -> StdSpawner<R>
        ensures { result ≡ 0 }
    {
        StdSpawner { rt, faults: 0 }
    }
}

impl<R: Threads + Drop> Spawner for StdSpawner<R> {
    ghost use Rattle.std.specs.Prelude.{None};

    type Rt = R;

    ghost starts = { λ _. None };

    ghost faults = { λ s. s };

    fn threads(&self) -> &R {
        &self.rt
    }

    fn is_to_fail(&mut self) -> bool
        ensures listed { IsListed None → IsTrue result }
        ensures starts { None ≡ after_start None }
        ensures cause { HasCause self.old self.new (IsTrue result) }
        ensures unfaulted { result ≡ false → self.new ≡ self.old }
        ensures never { result ≡ false }
    {
        false
    }

    fn count_fault(&mut self)
        ensures cause { HasCause self.old self.new (Unit {0}) }
        ensures counted { self.new ≡ next_count self.old }
    {
        self.faults = self.faults.saturating_add(1);
    }
}

/// The clock of the machine, in milliseconds since 1970. It never goes back.
#[derive(Drop)]
pub struct StdClock<R: time::Clock + Drop> {
    rt: R,
    last: u64,
}

// It is seen as its last moment.
impl<R: time::Clock + Drop> Model for StdClock<R> {
    ghost use Rattle.std.specs.Prelude.{ℕ};

    ghost Value = { ℕ };

    ghost view = { λ c. c.last };
}

impl<R: time::Clock + Drop> StdClock<R> {
    /// A clock by this handle, whose last moment is 0.
    pub fn new(rt: R) -> StdClock<R>
        ensures { result ≡ 0 }
    {
        StdClock { rt, last: 0 }
    }
}

impl<R: time::Clock + Drop> Clock for StdClock<R> {
    ghost use Rattle.std.specs.Prelude.{None};

    ghost moments = { λ _. None };

    /// The machine's moment, or the last one again where that can't be read, went back, or has more
    /// milliseconds than a u64 holds.
    fn now(&mut self) -> u64
        ensures first { IsFirst None result }
        ensures later { None ≡ option_map later_moments None }
        ensures forward { self.old ≤ result }
        ensures last { self.new ≡ result }
    {
        if let Ok(since) = self.rt.since_1970() {
            self.last = self.last.max(u64::try_from(since.as_millis()).unwrap_or(0));
        }
        self.last
    }
}
