//! Sources that decide how many bytes a read gives.

ghost use Rattle.std.specs.Prelude.{◌≡◌, ◌<◌, length, Some, None};
ghost use Rattle.outside_io.specs.Causes.{HasCause};
ghost use Rattle.outside_io.specs.Known.{Reads};

use outside_io::{Source, Took};

/// A source that gives at most `size` of its bytes at once, and at least one.
#[derive(Drop)]
pub(crate) struct CutSource<'a> {
    pub(crate) rest: &'a [u8],
    pub(crate) size: usize,
}

impl Source for CutSource<'_> {
    ghost use Rattle.std.specs.Prelude.{Some};

    ghost left = { λ s. Some s.rest.now };

    ghost faults = { λ _. 0 };

    fn read(&mut self, buf: &mut [u8]) -> Took
        requires { 0 < length buf.old }
        ensures took { Reads (Some self.old.rest.now) result buf.new (Some self.new.rest.now) }
        ensures cause { HasCause 0 0 (result ≡ Took.Failed) }
    {
        let count = self.rest.len().min(buf.len()).min(self.size.max(1));
        if count == 0 {
            return Took::End;
        }
        let (piece, rest) = self.rest.split_at(count);
        buf[..count].copy_from_slice(piece);
        self.rest = rest;
        Took::Got(count)
    }
}

/// A source that gives the byte `x` without end, and counts those that it gave.
#[derive(Drop)]
pub(crate) struct EndlessSource {
    pub(crate) given: u64,
}

impl Source for EndlessSource {
    ghost use Rattle.std.specs.Prelude.{None};

    ghost left = { λ _. None };

    ghost faults = { λ _. 0 };

    fn read(&mut self, buf: &mut [u8]) -> Took
        requires { 0 < length buf.old }
        ensures took { Reads None result buf.new None }
        ensures cause { HasCause 0 0 (result ≡ Took.Failed) }
    {
        buf.fill(b'x');
        self.given = self.given.saturating_add(buf.len() as u64);
        Took::Got(buf.len())
    }
}
