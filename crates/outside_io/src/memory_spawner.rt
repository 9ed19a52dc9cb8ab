ghost use Rattle.std.specs.Prelude.{◌≡◌, ◌≤◌, IsTrue, false, IfOk, Some, ◌⊎◌};
ghost use Rattle.outside_io.specs.Causes.{HasCause, Rose, next_count};
ghost use Rattle.outside_io.specs.Memory.{Counts, FailsNext};
ghost use Rattle.outside_io.specs.Spawners.{IsListed, after_start};

use crate::fail_plan::FailPlan;
use crate::spawner::Spawner;
use std::alloc::{AllocError, Global};
use std::marker::Model;

/// A spawner that starts through another one, and whose listed starts fail.
#[derive(Debug, Drop)]
pub struct MemorySpawner<P> {
    inner: P,
    starts: FailPlan,
}

impl<P> Model for MemorySpawner<P> {
    ghost use Rattle.outside_io.specs.Memory.{SpawnerState};

    ghost Value = { SpawnerState P };

    ghost view = { λ s. record { inner = s.inner; starts = s.starts } };
}

impl<P: Spawner> MemorySpawner<P> {
    /// A spawner over this one. `fails` has the numbers, from 1, of the starts that fail. It takes
    /// memory for a copy of them.
    pub fn new(alloc: Global, inner: P, fails: &[u64]) -> Result<MemorySpawner<P>, AllocError>
        ensures { IfOk result (λ s. s ≡ record {
          inner = inner;
          starts = record { fails = fails.now; calls = 0; faults = 0 };
        }) }
    {
        Ok(MemorySpawner {
            inner,
            starts: FailPlan::new(alloc, fails)?,
        })
    }
}

impl<P: Spawner> Spawner for MemorySpawner<P> {
    ghost use Rattle.std.specs.Prelude.{Some};

    type Rt = P::Rt;

    ghost starts = { λ s. Some (s.starts.fails, s.starts.calls) };

    ghost faults = { λ s. s.starts.faults };

    fn threads(&self) -> &P::Rt {
        self.inner.threads()
    }

    /// A start is to fail exactly where it is listed, or where the inner spawner fails it, whose
    /// count then rose. At a listed start the inner one is not asked.
    fn is_to_fail(&mut self) -> bool
        ensures listed { IsListed (Some (self.old.starts.fails, self.old.starts.calls)) →
            IsTrue result }
        ensures starts { Some (self.new.starts.fails, self.new.starts.calls)
            ≡ after_start (Some (self.old.starts.fails, self.old.starts.calls)) }
        ensures cause { HasCause self.old.starts.faults self.new.starts.faults (IsTrue result) }
        ensures unfaulted { result ≡ false → self.new.starts.faults ≡ self.old.starts.faults }
        ensures counts { Counts self.old.starts self.new.starts (IsTrue result) }
        ensures exact { IsTrue result → FailsNext self.old.starts.fails self.old.starts.calls
            ⊎ Rose (P.faults self.old.inner) (P.faults self.new.inner) }
        ensures unasked { FailsNext self.old.starts.fails self.old.starts.calls →
            self.new.inner ≡ self.old.inner }
        ensures asked { ¬ FailsNext self.old.starts.fails self.old.starts.calls →
            P.starts self.new.inner ≡ after_start (P.starts self.old.inner) }
        ensures inner { ¬ FailsNext self.old.starts.fails self.old.starts.calls →
            IsListed (P.starts self.old.inner) → IsTrue result }
    {
        if self.starts.next_fails() || self.inner.is_to_fail() {
            self.starts.count_fault();
            return true;
        }
        false
    }

    /// Counts the failure here and at the inner spawner.
    fn count_fault(&mut self)
        ensures fails { self.new.starts.fails ≡ self.old.starts.fails }
        ensures calls { self.new.starts.calls ≡ self.old.starts.calls }
        ensures cause { HasCause self.old.starts.faults self.new.starts.faults (Unit {0}) }
        ensures counted { self.new.starts.faults ≡ next_count self.old.starts.faults }
        ensures inner { Rose (P.faults self.old.inner) (P.faults self.new.inner) }
    {
        self.starts.count_fault();
        self.inner.count_fault();
    }
}
