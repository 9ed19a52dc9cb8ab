ghost use Rattle.std.specs.Prelude.{◌≡◌, ◌≢◌, ◌<◌, ◌≤◌, ◌++◌, ◌↔◌, [], min, length, take, drop, IfOk, Some};
ghost use Rattle.outside_io.specs.Causes.{HasCause, next_count};
ghost use Rattle.outside_io.specs.Memory.{FailsNext, count_of};
ghost use Rattle.outside_io.specs.Known.{Reads, Writes};

use crate::fail_plan::FailPlan;
use crate::sink::{Gave, Sink};
use crate::source::{Source, Took};
use crate::sure::SureSource;
use std::alloc::{AllocError, Global};
use std::marker::Model;

/// A source over bytes in memory, whose listed reads fail.
#[derive(Debug, Drop)]
pub struct MemorySource {
    bytes: SureSource,
    plan: FailPlan,
}

impl Model for MemorySource {
    ghost use Rattle.outside_io.specs.Memory.{SourceState};

    ghost Value = { SourceState };

    ghost view = { λ s. record {
      left = s.bytes;
      fails = s.plan.fails;
      calls = s.plan.calls;
      faults = s.plan.faults;
    } };
}

impl MemorySource {
    /// A source of these bytes. `fails` has the numbers, from 1, of the reads that fail. It takes
    /// memory for a copy of both.
    pub fn new(alloc: Global, bytes: &[u8], fails: &[u64]) -> Result<MemorySource, AllocError>
        ensures { IfOk result (λ s. s ≡ record {
          left = bytes.now;
          fails = fails.now;
          calls = 0;
          faults = 0;
        }) }
    {
        Ok(MemorySource {
            bytes: SureSource::new(alloc, bytes)?,
            plan: FailPlan::new(alloc, fails)?,
        })
    }
}

impl Source for MemorySource {
    ghost use Rattle.std.specs.Prelude.{Some};

    ghost left = { λ s. Some s.left };

    ghost faults = { λ s. s.faults };

    /// Fails exactly at the listed reads. Else it gives as many bytes as are left and fit. It takes
    /// no memory.
    fn read(&mut self, buf: &mut [u8]) -> Took
        requires { 0 < length buf.old }
        ensures took { Reads (Some self.old.left) result buf.new (Some self.new.left) }
        ensures cause { HasCause self.old.faults self.new.faults (result ≡ Took.Failed) }
        ensures listed { (result ≡ Took.Failed) ↔ FailsNext self.old.fails self.old.calls }
        ensures end { (result ≡ Took.End)
            ↔ ((self.old.left ≡ []) × ¬ FailsNext self.old.fails self.old.calls) }
        ensures size { result ≢ Took.Failed →
            count_of result ≡ min (length buf.old) (length self.old.left) }
        ensures buffer { buf.new ≡
            take (count_of result) self.old.left ++ drop (count_of result) buf.old }
        ensures left { self.new.left ≡ drop (count_of result) self.old.left }
        ensures fails { self.new.fails ≡ self.old.fails }
        ensures calls { self.new.calls ≡ next_count self.old.calls }
        ensures faulted { result ≡ Took.Failed → self.new.faults ≡ next_count self.old.faults }
        ensures unfaulted { result ≢ Took.Failed → self.new.faults ≡ self.old.faults }
    {
        if self.plan.next_fails() {
            self.plan.count_fault();
            return Took::Failed;
        }
        self.bytes.read(buf)
    }
}

/// A sink in memory, whose listed writes fail.
#[derive(Debug, Drop)]
pub struct MemorySink {
    bytes: Vec<u8>,
    plan: FailPlan,
}

impl Model for MemorySink {
    ghost use Rattle.outside_io.specs.Memory.{SinkState};

    ghost Value = { SinkState };

    ghost view = { λ s. record {
      written = s.bytes.items;
      fails = s.plan.fails;
      calls = s.plan.calls;
      faults = s.plan.faults;
    } };
}

impl MemorySink {
    /// A sink with nothing written. `fails` has the numbers, from 1, of the writes that fail. It
    /// takes memory for a copy of them.
    pub fn new(alloc: Global, fails: &[u64]) -> Result<MemorySink, AllocError>
        ensures { IfOk result (λ s. s ≡ record {
          written = [];
          fails = fails.now;
          calls = 0;
          faults = 0;
        }) }
    {
        Ok(MemorySink {
            bytes: Vec::new(alloc),
            plan: FailPlan::new(alloc, fails)?,
        })
    }

    /// The bytes written so far.
    pub fn written(&self) -> &[u8]
        ensures { result.now ≡ self.now.written }
    {
        self.bytes.as_slice()
    }
}

impl Sink for MemorySink {
    ghost use Rattle.std.specs.Prelude.{Some};

    ghost written = { λ s. Some s.written };

    ghost faults = { λ s. s.faults };

    /// Fails at the listed writes, and for want of memory. A write that fails adds nothing.
    fn write_all(&mut self, bytes: &[u8]) -> Gave
        ensures gave { Writes (Some self.old.written) result bytes.now (Some self.new.written) }
        ensures cause { HasCause self.old.faults self.new.faults (result ≡ Gave.Failed) }
        ensures listed { FailsNext self.old.fails self.old.calls → result ≡ Gave.Failed }
        ensures empty { ¬ FailsNext self.old.fails self.old.calls →
            bytes.now ≡ [] → result ≡ Gave.Done }
        ensures failed { result ≡ Gave.Failed → self.new.written ≡ self.old.written }
        ensures fails { self.new.fails ≡ self.old.fails }
        ensures calls { self.new.calls ≡ next_count self.old.calls }
        ensures faulted { result ≡ Gave.Failed → self.new.faults ≡ next_count self.old.faults }
        ensures unfaulted { result ≡ Gave.Done → self.new.faults ≡ self.old.faults }
    {
        if self.plan.next_fails() || self.bytes.extend_from_slice(bytes).is_err() {
            self.plan.count_fault();
            return Gave::Failed;
        }
        Gave::Done
    }
}
