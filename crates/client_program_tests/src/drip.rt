//! A connection over which a server's bytes come in small pieces.

ghost use Rattle.std.specs.Prelude.{◌≡◌, ◌<◌, ◌+◌, length};
ghost use Rattle.outside_io.specs.Causes.{HasCause};
ghost use Rattle.outside_io.specs.Known.{Writes};
ghost use Rattle.outside_io.specs.Links.{Hears, ended_after};

use outside_io::{Gave, Heard, Link, MemoryLink};

/// A link in memory, of which each receive gives at most so many bytes, at least one. It does not tell its bytes.
#[derive(Debug, Drop)]
pub struct Drip {
    pub link: MemoryLink,
    pub most: usize,
}

impl Link for Drip {
    ghost use Rattle.std.specs.Prelude.{None, ◌+◌};

    ghost heard = { λ _. None };

    ghost sent = { λ _. None };

    ghost has_ended = { λ d. d.link.has_ended };

    ghost faults = { λ d. d.link.receives.faults + d.link.sends.faults };

    /// Receives at most so many bytes.
    fn receive(&mut self, buf: &mut [u8]) -> Heard
        requires { 0 < length buf.old }
        ensures heard { Hears None result buf.new None }
        ensures ended { self.new.link.has_ended ≡ ended_after self.old.link.has_ended result }
        ensures cause { HasCause (self.old.link.receives.faults + self.old.link.sends.faults) (self.new.link.receives.faults + self.new.link.sends.faults) (result ≡ Heard.Failed) }
    {
        let room = self.most.min(buf.len()).max(1);
        self.link.receive(&mut buf[..room])
    }

    /// Sends the piece.
    fn send(&mut self, bytes: &[u8]) -> Gave
        ensures sent { Writes None result bytes.now None }
        ensures ended { self.new.link.has_ended ≡ self.old.link.has_ended }
        ensures cause { HasCause (self.old.link.receives.faults + self.old.link.sends.faults) (self.new.link.receives.faults + self.new.link.sends.faults) (result ≡ Gave.Failed) }
    {
        self.link.send(bytes)
    }
}
