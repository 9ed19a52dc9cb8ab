ghost use Rattle.std.specs.Prelude.{◌≡◌, ◌≤◌, ◌↔◌, IsTrue, IfOk};
ghost use Rattle.outside_io.specs.Causes.{next_count};
ghost use Rattle.outside_io.specs.Memory.{FailsNext};

use std::alloc::{AllocError, Global};
use std::marker::Model;

/// The numbers of the calls that fail, the calls so far and the failures so far.
#[derive(Debug, Drop)]
pub struct FailPlan {
    listed: Vec<u64>,
    calls: u64,
    faults: u64,
}

impl Model for FailPlan {
    ghost use Rattle.outside_io.specs.Memory.{PlanState};

    ghost Value = { PlanState };

    ghost view = { λ p. record { fails = p.listed.items; calls = p.calls; faults = p.faults } };
}

impl FailPlan {
    pub fn new(alloc: Global, fails: &[u64]) -> Result<FailPlan, AllocError>
        ensures { IfOk result (λ p. p ≡ record { fails = fails.now; calls = 0; faults = 0 }) }
    {
        Ok(FailPlan {
            listed: Vec::from_slice(alloc, fails)?,
            calls: 0,
            faults: 0,
        })
    }

    /// Counts a call, and tells whether it is one of those that fail.
    pub fn next_fails(&mut self) -> bool
        ensures listed { IsTrue result ↔ FailsNext self.old.fails self.old.calls }
        ensures fails { self.new.fails ≡ self.old.fails }
        ensures calls { self.new.calls ≡ next_count self.old.calls }
        ensures faults { self.new.faults ≡ self.old.faults }
    {
        self.calls = self.calls.saturating_add(1);
        self.listed.contains(&self.calls)
    }

    /// The calls so far.
    pub fn calls(&self) -> u64
        ensures { result ≡ self.now.calls }
    {
        self.calls
    }

    /// Counts a failure.
    pub fn count_fault(&mut self)
        ensures later { self.old.faults ≤ self.new.faults }
        ensures fails { self.new.fails ≡ self.old.fails }
        ensures calls { self.new.calls ≡ self.old.calls }
        ensures faults { self.new.faults ≡ next_count self.old.faults }
    {
        self.faults = self.faults.saturating_add(1);
    }
}
