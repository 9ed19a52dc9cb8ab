ghost use Rattle.std.specs.Prelude.{◌≡◌, ◌≢◌, ◌<◌, ◌≤◌, ◌++◌, ◌↔◌, [], min, length, take, drop, IfOk, Some, None};
ghost use Rattle.outside_io.specs.Causes.{HasCause};
ghost use Rattle.outside_io.specs.Memory.{count_of};
ghost use Rattle.outside_io.specs.Known.{Reads, Writes};

use crate::sink::{Gave, Sink};
use crate::source::{Source, Took};
use std::alloc::{AllocError, Global};
use std::marker::Model;

/// A source over bytes in memory that never fails.
#[derive(Debug, Drop)]
pub struct SureSource {
    bytes: Vec<u8>,
    at: usize,
}

// It is seen as the bytes that are left.
impl Model for SureSource {
    ghost use Rattle.std.specs.Prelude.{List, ℕ, drop, length, ◌≤◌};

    ghost Value = { List ℕ };

    ghost view = { λ s. drop s.at s.bytes.items };

    ghost invariant = { λ s. s.at ≤ length s.bytes.items };
}

impl SureSource {
    /// A source of these bytes. It takes memory for a copy of them.
    pub fn new(alloc: Global, bytes: &[u8]) -> Result<SureSource, AllocError>
        ensures { IfOk result (λ s. s ≡ bytes.now) }
    {
        Ok(SureSource {
            bytes: Vec::from_slice(alloc, bytes)?,
            at: 0,
        })
    }

    /// The bytes that are left.
    pub fn rest(&self) -> &[u8]
        ensures { result.now ≡ self.now }
    {
        &self.bytes.as_slice()[self.at..]
    }
}

impl Source for SureSource {
    ghost use Rattle.std.specs.Prelude.{Some};

    ghost left = { λ s. Some s };

    ghost faults = { λ _. 0 };

    /// Gives as many bytes as are left and fit, and takes no memory.
    fn read(&mut self, buf: &mut [u8]) -> Took
        requires { 0 < length buf.old }
        ensures took { Reads (Some self.old) result buf.new (Some self.new) }
        ensures cause { HasCause 0 0 (result ≡ Took.Failed) }
        ensures sure { result ≢ Took.Failed }
        ensures size { count_of result ≡ min (length buf.old) (length self.old) }
        ensures end { (result ≡ Took.End) ↔ (self.old ≡ []) }
        ensures buffer { buf.new ≡
            take (count_of result) self.old ++ drop (count_of result) buf.old }
        ensures left { self.new ≡ drop (count_of result) self.old }
    {
        let rest = &self.bytes.as_slice()[self.at..];
        let count = rest.len().min(buf.len());
        if count == 0 {
            return Took::End;
        }
        buf[..count].copy_from_slice(&rest[..count]);
        self.at += count;
        Took::Got(count)
    }
}

/// A sink that never fails. It keeps nothing, and does not tell its bytes.
#[derive(Debug, Drop)]
pub struct SureSink;

impl SureSink {
    /// A sink. It takes no memory.
    pub fn new() -> SureSink {
        SureSink
    }
}

impl Sink for SureSink {
    ghost use Rattle.std.specs.Prelude.{None};

    ghost written = { λ _. None };

    ghost faults = { λ _. 0 };

    /// Lets the piece go.
    fn write_all(&mut self, bytes: &[u8]) -> Gave
        ensures gave { Writes None result bytes.now None }
        ensures cause { HasCause 0 0 (result ≡ Gave.Failed) }
        ensures sure { result ≡ Gave.Done }
    {
        Gave::Done
    }
}
