//! A client that a server's frames are played to.

use crate::drip::Drip;
use client_program::{client, client_words};
use frame_wire::{Octets, Row};
use outside_io::{MemoryLink, MemorySink, MemorySource};
use std::alloc::{AllocError, Global};
use std::sync::Wait;

/// What is played: the words of the program, its input, and the server's frames as hexadecimal text.
#[derive(Clone, Copy, Debug)]
pub struct Play {
    pub words: &'static [&'static [u8]],
    pub input: &'static [u8],
    pub server: &'static [&'static str],
}

/// The numbers, from 1, of the reads, receives, sends and writes that fail.
#[derive(Clone, Copy, Debug)]
pub struct Fails {
    pub reads: &'static [u64],
    pub receives: &'static [u64],
    pub sends: &'static [u64],
    pub writes: &'static [u64],
}

impl Fails {
    /// No call fails.
    pub const NONE: Fails = Fails {
        reads: &[],
        receives: &[],
        sends: &[],
        writes: &[],
    };
}

/// What came of it: the status, what was written, and what was sent.
#[derive(Debug, Drop)]
pub struct Played {
    pub status: u8,
    pub written: Octets,
    pub sent: Octets,
}

/// The bytes of frames, one behind the other.
pub fn bytes_of(alloc: Global, frames: &[&str]) -> Result<Octets, AllocError> {
    let mut out = Octets::new(alloc);
    for frame in frames {
        match hex::decode(alloc, frame.as_bytes()) {
            Ok(bytes) => out.push_slice(bytes.as_slice())?,
            Err(_) => return Err(AllocError),
        }
    }
    Ok(out)
}

fn words_of(alloc: Global, words: &[&[u8]]) -> Result<Row<Octets>, AllocError> {
    let mut out = Row::new(alloc);
    for word in words {
        let word = Octets::copy(alloc, word)?;
        if out.push(word).is_err() {
            return Err(AllocError);
        }
    }
    Ok(out)
}

/// Plays, in pieces of so many bytes. The status is 2 where the words ask for nothing.
pub fn run_play<W: Wait>(
    rt: &W,
    alloc: Global,
    play: &Play,
    fails: &Fails,
    most: usize,
) -> Result<Played, AllocError> {
    let server = bytes_of(alloc, play.server)?;
    let link = MemoryLink::new(alloc, server.as_slice(), &[], fails.receives, fails.sends)?;
    let mut link = Drip { link, most };
    let mut source = MemorySource::new(alloc, play.input, fails.reads)?;
    let mut out = MemorySink::new(alloc, fails.writes)?;
    let words = words_of(alloc, play.words)?;
    let status = match client_words(words.as_slice()) {
        Some(words) => client(rt, alloc, &words, &mut source, &mut link, &mut out),
        None => 2,
    };
    Ok(Played {
        status,
        written: Octets::copy(alloc, out.written())?,
        sent: Octets::copy(alloc, link.link.sent())?,
    })
}
