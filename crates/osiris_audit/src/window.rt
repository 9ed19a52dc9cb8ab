//! A file that is read in pieces.

ghost use Rattle.std.specs.Prelude.{◌≡◌, ◌+◌, ◌<◌, ◌≤◌, ◌++◌, [], false, length, drop, Ok, Err, OnOk, MatchResult};
ghost use Rattle.outside_io.specs.Causes.{HasCause};
ghost use Rattle.osiris_audit.specs.Windows.{Grew, Drained, Held, most_bytes, size_read};

use outside_io::{Source, Took};
use std::alloc::Global;
use std::marker::Model;

/// The most bytes that are taken of a file.
const MOST_BYTES: u64 = 268_435_456;

/// How many bytes are asked for at once.
const PIECE: usize = 16_384;

/// Why a file is not read on, or nothing more is written.
#[derive(Clone, Copy, Debug, PartialEq, Eq)]
pub enum Fault {
    /// A read failed.
    Read,
    /// A write failed.
    Write,
    /// Want of memory.
    Memory,
    /// More than 268,435,456 bytes of the file were taken.
    TooLong,
}

/// The bytes of a file that were read and not passed over yet. Each byte is moved twice at most.
#[derive(Debug, Drop)]
pub struct Window {
    bytes: Vec<u8>,
    // how many of the bytes were passed over
    at: usize,
    // how many bytes of the file were passed over
    place: u64,
    ended: bool,
}

impl Model for Window {
    ghost use Rattle.std.specs.Prelude.{drop, ◌≤◌, ◌+◌, length};
    ghost use Rattle.osiris_audit.specs.Windows.{WindowState, most_bytes};

    ghost Value = { WindowState };

    ghost view = { λ w. record { place = w.place; rest = drop w.at w.bytes.items; ended = w.ended } };

    ghost invariant = { λ w. (w.at ≤ length w.bytes.items) × (w.place + length w.bytes.items ≤ most_bytes + w.at) };
}

impl Window {
    /// A file of which nothing was read. It takes no memory.
    pub fn new(alloc: Global) -> Window
        ensures { result ≡ record { place = 0; rest = []; ended = false } }
    {
        Window {
            bytes: Vec::new(alloc),
            at: 0,
            place: 0,
            ended: false,
        }
    }

    /// The bytes that were read and not passed over.
    pub fn rest(&self) -> &[u8]
        ensures { result.now ≡ self.now.rest }
    {
        &self.bytes.as_slice()[self.at..]
    }

    /// Where these bytes begin in the file.
    pub fn place(&self) -> u64
        ensures place { result ≡ self.now.place }
        ensures most { size_read self.now ≤ most_bytes }
    {
        self.place
    }

    /// Passes over the first bytes.
    pub fn skip(&mut self, len: usize)
        requires { len ≤ length self.old.rest }
        ensures { self.new ≡ record { place = self.old.place + len; rest = drop len self.old.rest; ended = self.old.ended } }
    {
        self.at += len;
        self.place += len as u64;
    }

    /// Gives up the bytes that were passed over.
    fn give_up_passed(&mut self)
        ensures { self.new ≡ self.old }
    {
        if self.at > 0 {
            let _passed = self.bytes.drain(..self.at);
            self.at = 0;
        }
    }

    /// Takes a piece behind the bytes, and gives up those that were passed over.
    fn hold(&mut self, piece: &[u8]) -> Result<(), Fault>
        ensures { Held result piece.now self.old self.new }
    {
        let size = self.place + (self.bytes.len() - self.at) as u64;
        if piece.len() as u64 > MOST_BYTES - size {
            return Err(Fault::TooLong);
        }
        let Ok(()) = self.bytes.extend_from_slice(piece) else {
            return Err(Fault::Memory);
        };
        self.give_up_passed();
        Ok(())
    }

    /// Reads a piece, where the file did not end, and tells whether one came.
    pub fn fill<S: Source>(&mut self, source: &mut S) -> Result<bool, Fault>
        ensures grew { Grew (1 + length self.old.rest) result (S.left source.old) (S.left source.new) self.old self.new }
        ensures cause { HasCause (S.faults source.old) (S.faults source.new) (result ≡ Err Fault.Read) }
    {
        if self.ended {
            return Ok(false);
        }
        let mut piece = [0u8; PIECE];
        match source.read(&mut piece) {
            Took::Failed => Err(Fault::Read),
            Took::End => {
                self.ended = true;
                Ok(false)
            }
            Took::Got(count) => {
                self.hold(&piece[..count])?;
                Ok(true)
            }
        }
    }

    /// Reads until there are so many bytes, and tells whether there are; the file ended where there are fewer.
    pub fn need<S: Source>(&mut self, source: &mut S, len: usize) -> Result<bool, Fault>
        ensures grew { Grew len result (S.left source.old) (S.left source.new) self.old self.new }
        ensures cause { HasCause (S.faults source.old) (S.faults source.new) (result ≡ Err Fault.Read) }
    {
        let _within = self.place();
        'pieces: while self.rest().len() < len {
            match self.fill(source) {
                Ok(true) => {}
                Ok(false) => return Ok(false),
                Err(fault) => return Err(fault),
            }
        }
        Ok(true)
    }

    /// Passes over all bytes, and reads and passes over the rest of the file.
    pub fn drain<S: Source>(&mut self, source: &mut S) -> Result<(), Fault>
        ensures drained { Drained result (S.left source.old) (S.left source.new) self.old }
        ensures cause { HasCause (S.faults source.old) (S.faults source.new) (result ≡ Err Fault.Read) }
    {
        let _within = self.place();
        self.skip(self.rest().len());
        'pieces: loop {
            match self.fill(source) {
                Ok(true) => self.skip(self.rest().len()),
                Ok(false) => return Ok(()),
                Err(fault) => return Err(fault),
            }
        }
    }
}
