//! The bytes of a peer that no frame was taken from yet.

ghost use Rattle.std.specs.Prelude.{◌≡◌, ◌≤◌, ◌+◌, ◌++◌, [], length, drop, IsTrue, OnOk, OnErr};
ghost use Rattle.frame_wire.specs.Frames.{IsPartial};
ghost use Rattle.command_reader.specs.Fronts.{Unread, Wants, Shows};

use frame_wire::Scan;
use std::alloc::{AllocError, Global};
use std::marker::Model;

/// What stands in front of bytes.
#[derive(Clone, Copy)]
pub(crate) enum Front<'a> {
    /// A whole frame, with this body.
    Frame { body: &'a [u8] },
    /// A size above the greatest.
    TooLarge { size: u32 },
    /// Nothing can be told before so many bytes are there.
    Short { wanted: usize },
}

fn look(rest: &[u8], max: u32) -> Front<'_>
    ensures { Shows max rest.now result }
{
    let Ok(size) = Scan::new(rest).u32() else {
        return Front::Short { wanted: 4 };
    };
    if size > max {
        return Front::TooLarge { size };
    }
    let len = size as usize;
    if rest.len() - 4 < len {
        return Front::Short { wanted: 4 + len };
    }
    Front::Frame {
        body: &rest[4..4 + len],
    }
}

/// Bytes that come in pieces, from which frames are taken. Each byte is copied in once, and once more at most. It knows how
/// many bytes the frame in front wants, so that one comparison tells that nothing can be told yet.
#[derive(Debug, Drop)]
pub(crate) struct Pending {
    bytes: Vec<u8>,
    /// The bytes before this place were taken.
    at: usize,
    /// The greatest size of a body.
    max: u32,
    /// While there are fewer bytes, nothing can be told of those in front.
    wanted: usize,
}

impl Model for Pending {
    ghost use Rattle.std.specs.Prelude.{drop, ◌≤◌, ◌-◌, length};
    ghost use Rattle.command_reader.specs.Fronts.{Unread, Wants};

    ghost Value = { Unread };

    ghost view = { λ p. record { max = p.max; rest = drop p.at p.bytes.items } };

    ghost invariant = { λ p. (p.at ≤ length p.bytes.items) × Wants p.max (drop p.at p.bytes.items) (p.wanted - p.at) };
}

impl Pending {
    /// Holds no bytes yet, and takes bodies of at most `max` bytes. It takes no memory.
    pub(crate) fn new(alloc: Global, max: u32) -> Pending
        ensures { result ≡ record { max = max; rest = [] } }
    {
        Pending {
            bytes: Vec::new(alloc),
            at: 0,
            max,
            wanted: 4,
        }
    }

    /// Whether less than a whole frame is known to stand in front.
    #[inline]
    pub(crate) fn is_short(&self) -> bool
        ensures { IsTrue result → IsPartial self.now.max self.now.rest }
    {
        self.bytes.len() < self.wanted
    }

    /// Takes the next piece. Want of memory leaves the bytes as they were.
    #[inline]
    pub(crate) fn push(&mut self, piece: &[u8]) -> Result<(), AllocError>
        ensures pushed { OnOk result (self.new ≡ record { max = self.old.max; rest = self.old.rest ++ piece.now }) }
        ensures err { OnErr result (self.new ≡ self.old) }
    {
        match piece {
            [byte] => match self.bytes.push(*byte) {
                Ok(()) => Ok(()),
                Err(_) => Err(AllocError),
            },
            _ => self.bytes.extend_from_slice(piece),
        }
    }

    /// What stands in front. It takes no memory and copies nothing.
    pub(crate) fn front(&self) -> Front<'_>
        ensures { Shows self.now.max self.now.rest result }
    {
        look(&self.bytes.as_slice()[self.at..], self.max)
    }

    /// Nothing is told before so many bytes are there.
    pub(crate) fn wait(&mut self, wanted: usize)
        requires { Wants self.old.max self.old.rest wanted }
        ensures { self.new ≡ self.old }
    {
        self.wanted = self.at + wanted;
    }

    /// Takes a frame with so many bytes of body off. The bytes before those that are left go once they are as many, so that
    /// each byte is moved at most once.
    pub(crate) fn take(&mut self, len: usize)
        requires { 4 + len ≤ length self.old.rest }
        ensures { self.new ≡ record { max = self.old.max; rest = drop (4 + len) self.old.rest } }
    {
        let begins = self.at;
        self.at = begins + (4 + len);
        if self.at >= self.bytes.len() - self.at {
            let _taken = self.bytes.drain(..self.at);
            self.at = 0;
        }
        self.wanted = self.at + 4;
    }
}
