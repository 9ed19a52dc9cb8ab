//! Files at the limit and above it, and files whose bytes come one by one.

ghost use Rattle.std.specs.Prelude.{◌≡◌, ◌<◌, length, None};
ghost use Rattle.outside_io.specs.Causes.{HasCause};
ghost use Rattle.outside_io.specs.Known.{Reads};

use crate::files::{INDEX, SEGMENT, inspects_as, reindexes_as};
use outside_io::{Source, Took};
use std::alloc::Global;
use std::process::Abort;
use std::test::Fail;

/// The most bytes that are taken of a file.
const MOST: u64 = 268_435_456;

/// A source of some bytes, then so many zeros, that gives at most `size` bytes at once, and at least one.
#[derive(Drop)]
struct LongSource<'a> {
    front: &'a [u8],
    zeros: u64,
    size: usize,
}

impl Source for LongSource<'_> {
    ghost use Rattle.std.specs.Prelude.{None};

    ghost left = { λ _. None };

    ghost faults = { λ _. 0 };

    fn read(&mut self, buf: &mut [u8]) -> Took
        requires { 0 < length buf.old }
        ensures took { Reads None result buf.new None }
        ensures cause { HasCause 0 0 (result ≡ Took.Failed) }
    {
        let most = buf.len().min(self.size.max(1));
        let count = self.front.len().min(most);
        if count > 0 {
            let (piece, rest) = self.front.split_at(count);
            buf[..count].copy_from_slice(piece);
            self.front = rest;
            return Took::Got(count);
        }
        let count = (most as u64).min(self.zeros) as usize;
        if count == 0 {
            return Took::End;
        }
        buf[..count].fill(0);
        self.zeros = self.zeros.saturating_sub(count as u64);
        Took::Got(count)
    }
}

/// How many zeros follow the headers of a segment and of its index, the status, and what is written.
type Case = (u64, u64, u8, &'static str);

const CASES: [Case; 6] = [
    (MOST - 8, 0, 0, "ok 0\n"),
    (MOST - 7, 0, 9, ""),
    (u64::MAX, 0, 9, ""),
    (0, MOST - 8, 3, "bad 0\n"),
    (0, MOST - 7, 9, ""),
    (0, u64::MAX, 9, ""),
];

/// A source of a header and so many zeros.
fn headed(header: &[u8], zeros: u64) -> LongSource<'_> {
    LongSource {
        front: header,
        zeros,
        size: 16_384,
    }
}

/// Of a source that had so many zeros no more than the most bytes and a piece were taken.
fn is_left<R: Abort>(rt: &R, source: &LongSource<'_>, zeros: u64) {
    let taken = zeros.saturating_sub(source.zeros);
    assert!(rt; taken <= MOST + 16_384, "{taken}");
}

fn inspects_long<R: Abort>(rt: &R, alloc: Global, case: &Case) -> Result<(), Fail> {
    let (segment_zeros, index_zeros, status, text) = *case;
    let mut segment = headed(b"OSIL\x00\x00\x00\x01", segment_zeros);
    let mut index = headed(b"OSII\x00\x00\x00\x01", index_zeros);
    inspects_as(rt, alloc, &mut segment, &mut index, status, text.as_bytes())?;
    is_left(rt, &segment, segment_zeros);
    is_left(rt, &index, index_zeros);
    Ok(())
}

#[test]
fn an_inspection_takes_268435456_bytes_of_each_file(rt: HostRuntime) -> Result<(), Fail> {
    for case in &CASES {
        inspects_long(&rt, rt.alloc(), case)?;
    }
    Ok(())
}

#[test]
fn a_rebuilding_takes_268435456_bytes(rt: HostRuntime) -> Result<(), Fail> {
    for (zeros, status) in [(MOST - 8, 0), (MOST - 7, 9), (u64::MAX, 9)] {
        let mut segment = headed(b"OSIL\x00\x00\x00\x01", zeros);
        reindexes_as(
            &rt,
            rt.alloc(),
            &mut segment,
            status,
            b"OSII\x00\x00\x00\x01",
        )?;
        is_left(&rt, &segment, zeros);
    }
    Ok(())
}

#[test]
fn bytes_may_come_one_by_one(rt: HostRuntime) -> Result<(), Fail> {
    let alloc = rt.alloc();
    let segment = hex::decode(alloc, SEGMENT)?;
    let index = hex::decode(alloc, INDEX)?;
    let mut source = LongSource {
        front: segment.as_slice(),
        zeros: 0,
        size: 1,
    };
    reindexes_as(&rt, alloc, &mut source, 0, index.as_slice())
}
