ghost use Rattle.std.specs.Prelude.{◌≡◌, ◌<◌, ℕ, Bool, List, Option, length};
ghost use Rattle.outside_io.specs.Causes.{HasCause};
ghost use Rattle.outside_io.specs.Known.{Writes};
ghost use Rattle.outside_io.specs.Links.{Hears, ended_after};

use crate::sink::Gave;
use frame_wire::Octets;

/// What came of a receive.
#[derive(Clone, Copy, Debug, PartialEq, Eq)]
pub enum Heard {
    /// This many bytes, at least one, stand at the front of the buffer.
    Got(usize),
    /// Nothing came for a while.
    Quiet,
    /// The peer sends no more.
    Ended,
    /// The receive failed and took no byte.
    Failed,
}

/// What a receive that didn't fail answered, a piece with its bytes.
#[derive(Debug, PartialEq, Eq, Drop)]
pub enum Hearing {
    /// The bytes that it gave.
    Piece(Octets),
    /// Nothing came for a while.
    Quiet,
    /// The peer sends no more.
    Ended,
}

/// A connection to a peer, over which bytes go both ways.
pub trait Link: Drop {
    ghost use Rattle.outside_io.specs.declared.link.Hearing.{Hearing};

    // The answers of the receives so far that didn't fail, where the link tells them. No call
    // changes whether it does.
    ghost heard: { Self → Option (List Hearing) };

    // The bytes sent so far, where the link tells them. No call changes whether it does.
    ghost sent: { Self → Option (List ℕ) };

    // Whether a receive has answered Ended.
    ghost has_ended: { Self → Bool };

    // How many calls failed. At its greatest value the count stands still.
    ghost faults: { Self → ℕ };

    /// Receives into the front of a buffer that is not empty, and sends nothing.
    fn receive(&mut self, buf: &mut [u8]) -> Heard
        requires { 0 < length buf.old }
        ensures heard { Hears (heard self.old) result buf.new (heard self.new) }
        ensures sent { sent self.new ≡ sent self.old }
        ensures ended { has_ended self.new ≡ ended_after (has_ended self.old) result }
        ensures cause { HasCause (faults self.old) (faults self.new) (result ≡ Heard.Failed) };

    /// Sends all bytes of a piece, or fails where a prefix of it was sent, maybe none of it.
    fn send(&mut self, bytes: &[u8]) -> Gave
        ensures sent { Writes (sent self.old) result bytes.now (sent self.new) }
        ensures heard { heard self.new ≡ heard self.old }
        ensures ended { has_ended self.new ≡ has_ended self.old }
        ensures cause { HasCause (faults self.old) (faults self.new) (result ≡ Gave.Failed) };
}
