use crate::drip::Drip;
use crate::frames::{CONFIRM_1, DECLARED, HOST, MECHANISMS, PEER, TUNE, VERSIONS, WELCOME};
use crate::played::bytes_of;
use client_program::{Act, ClientWords, client};
use outside_io::{MemoryLink, MemorySink, MemorySource};
use std::alloc::{AllocError, Global};
use std::sync::Wait;

// A text of one line of so many bytes, without a line feed.
fn line_of(alloc: Global, len: usize) -> Result<Vec<u8>, AllocError> {
    let mut text = Vec::new(alloc);
    for _ in 0..len {
        text.push(b'x')?;
    }
    Ok(text)
}

// The status with which a line of so many bytes is published, and whether this was written.
fn publishes<W: Wait>(
    rt: &W,
    alloc: Global,
    len: usize,
    written: &[u8],
) -> Result<(u8, bool), AllocError> {
    let text = line_of(alloc, len)?;
    let server = bytes_of(
        alloc,
        &[
            PEER, MECHANISMS, WELCOME, TUNE, HOST, VERSIONS, DECLARED, CONFIRM_1,
        ],
    )?;
    let link = MemoryLink::new(alloc, server.as_slice(), &[], &[], &[])?;
    let mut link = Drip { link, most: 5 };
    let mut source = MemorySource::new(alloc, text.as_slice(), &[])?;
    let mut out = MemorySink::new(alloc, &[])?;
    let words = ClientWords {
        address: b"host:5552",
        stream: b"s",
        act: Act::Publish { name: b"p" },
    };
    let status = client(rt, alloc, &words, &mut source, &mut link, &mut out);
    Ok((status, out.written() == written))
}

#[test]
fn a_line_of_a_million_bytes_is_the_longest(rt: HostRuntime) {
    let longest = publishes(&rt, rt.alloc(), 1_000_000, b"confirmed 1\n");
    assert!(rt; matches!(longest, Ok((0, true))));
    let longer = publishes(&rt, rt.alloc(), 1_000_001, b"");
    assert!(rt; matches!(longer, Ok((9, true))));
}
