ghost use Rattle.std.specs.Prelude.{◌≡◌, [], OnOk, OnErr};
ghost use Rattle.frame_wire.specs.Cutting.{Cuts, Looks, IsStuck, fed};

use crate::number::first_u32;
use std::alloc::{AllocError, Global};
use std::marker::Model;

/// What came of a cut.
#[derive(Clone, Copy, Debug, PartialEq, Eq)]
pub enum Cut {
    /// A whole frame, whose body the cutter has.
    Frame,
    /// No whole frame is left, and no size above the greatest.
    More,
    /// A size above the greatest stands in a frame's place. Every later cut says so too.
    TooLarge { size: u32 },
}

/// What stands at the front of the bytes that are left.
#[derive(Clone, Copy)]
pub enum Front<'a> {
    /// A whole frame, with this body.
    Frame { body: &'a [u8] },
    /// Less than a whole frame, and no size above the greatest.
    More,
    /// A size above the greatest.
    TooLarge { size: u32 },
}

#[inline]
fn look(rest: &[u8], max: u32) -> Front<'_>
    ensures { Looks max rest.now result }
{
    let Some(size) = first_u32(rest) else {
        return Front::More;
    };
    if size > max {
        return Front::TooLarge { size };
    }
    let len = size as usize;
    if rest.len() - 4 < len {
        return Front::More;
    }
    let body = &rest[4..4 + len];
    Front::Frame { body }
}

/// Cuts a stream of bytes that comes in pieces into frames: a size of four bytes, and so many bytes, the body. Each byte
/// is copied in once, and once more at most, in whatever pieces it comes and whenever it is cut off.
#[derive(Debug, Drop)]
pub struct Cutter {
    bytes: Vec<u8>,
    body_at: usize,
    at: usize,
    max: u32,
}

impl Model for Cutter {
    ghost use Rattle.std.specs.Prelude.{take, drop, ◌≤◌, length};
    ghost use Rattle.frame_wire.specs.Cutting.{Held};

    ghost Value = { Held };

    ghost view = { λ c. record { max = c.max; body = drop c.body_at (take c.at c.bytes.items); rest = drop c.at c.bytes.items } };

    ghost invariant = { λ c. (c.body_at ≤ c.at) × (c.at ≤ length c.bytes.items) };
}

impl Cutter {
    /// Holds no bytes yet, and takes bodies of at most `max` bytes. It takes no memory.
    pub fn new(alloc: Global, max: u32) -> Cutter
        ensures { result ≡ record { max = max; body = []; rest = [] } }
    {
        Cutter {
            bytes: Vec::new(alloc),
            body_at: 0,
            at: 0,
            max,
        }
    }

    /// Takes the next piece of the stream, and gives up the last body. Where a size above the greatest stands at the front
    /// it keeps nothing more, and takes no memory. Want of memory leaves it as it was.
    #[inline]
    pub fn feed(&mut self, piece: &[u8]) -> Result<(), AllocError>
        ensures fed { OnOk result (¬ IsStuck self.old → self.new ≡ fed self.old piece.now) }
        ensures stuck { IsStuck self.old → (result ≡ Ok tt) × (self.new ≡ self.old) }
        ensures err { OnErr result (self.new ≡ self.old) }
    {
        if let Front::TooLarge { .. } = look(&self.bytes.as_slice()[self.at..], self.max) {
            return Ok(());
        }
        self.bytes.extend_from_slice(piece)?;
        self.give_up_taken();
        Ok(())
    }

    /// Gives up the last body. The bytes before those that are left go once they are as many, so that each byte is moved
    /// at most once.
    #[inline]
    fn give_up_taken(&mut self)
        ensures { self.new ≡ fed self.old [] }
    {
        if self.at >= self.bytes.len() - self.at {
            let _taken = self.bytes.drain(..self.at);
            self.at = 0;
        }
        self.body_at = self.at;
    }

    /// What stands at the front: the next cut takes it off. It takes no memory and copies nothing.
    #[inline]
    pub fn front(&self) -> Front<'_>
        ensures { Looks self.now.max self.now.rest result }
    {
        look(&self.bytes.as_slice()[self.at..], self.max)
    }

    /// Cuts the next frame off. It takes no memory and copies nothing.
    #[inline]
    pub fn next(&mut self) -> Cut
        ensures { Cuts self.old result self.new }
    {
        match look(&self.bytes.as_slice()[self.at..], self.max) {
            Front::More => Cut::More,
            Front::TooLarge { size } => Cut::TooLarge { size },
            Front::Frame { body } => {
                let end = self.at + 4 + body.len();
                self.body_at = self.at + 4;
                self.at = end;
                Cut::Frame
            }
        }
    }

    /// The body of the last frame, until the next feed.
    #[inline]
    pub fn body(&self) -> &[u8]
        ensures { result.now ≡ self.now.body }
    {
        let bytes = self.bytes.as_slice();
        &bytes[self.body_at..self.at]
    }
}
