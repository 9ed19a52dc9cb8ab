//! Publish frames of many entries, and the chunks that they make. Each entry is empty. The checksums are another program's.

use crate::replays::replays_as;
use crate::values::OPENING;
use outside_io::MemorySource;
use std::alloc::{AllocError, Global};
use std::process::Abort;
use std::test::Fail;

/// The first offset of a chunk, the number of its entries and its checksum.
type Part = (u64, u64, &'static str);

/// The chunks of 4,096, of 4,097 and of the last of 87,000 entries.
const WHOLE: &str = "ab54d286";

const ONE: &str = "2144df1c";

const LAST: &str = "ac5557e8";

/// A Publish of so many empty entries, with the ids from 1 on, settled and polled.
fn script_of(alloc: Global, count: u64) -> Result<Vec<u8>, AllocError> {
    let size = count.saturating_mul(12).saturating_add(9);
    let head = format!(in alloc; "n s\nb 1 s\nc 1 {size:08x}0002000100{count:08x}")?;
    let mut script = Vec::from_slice(alloc, head.as_bytes())?;
    for id in 0..count {
        let item = format!(in alloc; "{:016x}00000000", id.saturating_add(1))?;
        script.extend_from_slice(item.as_bytes())?;
    }
    script.extend_from_slice(b"\ns 1\np 1\n")?;
    Ok(script)
}

/// Adds the line of one chunk.
fn add_chunk(alloc: Global, text: &mut Vec<u8>, part: Part) -> Result<(), AllocError> {
    let (first, count, crc) = part;
    let size = count.saturating_mul(4);
    let head = format!(in alloc;
        "k 1 5000{count:04x}{count:08x}{:016x}{:016x}{first:016x}{crc}{size:08x}{:016x}",
        0, 1, 0
    )?;
    text.extend_from_slice(head.as_bytes())?;
    for _ in 0..count {
        text.extend_from_slice(b"00000000")?;
    }
    text.extend_from_slice(b"\n")
}

/// Adds the line of the confirm.
fn add_confirm(alloc: Global, text: &mut Vec<u8>, count: u64) -> Result<(), AllocError> {
    let size = count.saturating_mul(8).saturating_add(9);
    let head = format!(in alloc; "> 1 {size:08x}0003000100{count:08x}")?;
    text.extend_from_slice(head.as_bytes())?;
    for id in 0..count {
        let item = format!(in alloc; "{:016x}", id.saturating_add(1))?;
        text.extend_from_slice(item.as_bytes())?;
    }
    text.extend_from_slice(b"\nend\n")
}

/// What a Publish of so many entries gives: so many whole chunks, one more, and one confirm.
fn gives(alloc: Global, count: u64, whole: u64, last: Part) -> Result<Vec<u8>, AllocError> {
    let mut text = Vec::from_slice(alloc, OPENING.as_bytes())?;
    for k in 0..whole {
        add_chunk(
            alloc,
            &mut text,
            (k.saturating_mul(4096).saturating_add(1), 4096, WHOLE),
        )?;
    }
    add_chunk(alloc, &mut text, last)?;
    add_confirm(alloc, &mut text, count)?;
    Ok(text)
}

/// A Publish of so many entries, looked at from outside.
fn is_cut<R: Abort>(rt: &R, alloc: Global, count: u64, whole: u64, last: Part) -> Result<(), Fail> {
    let script = script_of(alloc, count)?;
    let wanted = gives(alloc, count, whole, last)?;
    let mut source = MemorySource::new(alloc, script.as_slice(), &[])?;
    replays_as(rt, alloc, &mut source, 0, wanted.as_slice())
}

#[test]
fn a_chunk_has_at_most_4096_entries(rt: HostRuntime) -> Result<(), Fail> {
    is_cut(&rt, rt.alloc(), 4096, 0, (1, 4096, WHOLE))?;
    is_cut(&rt, rt.alloc(), 4097, 1, (4097, 1, ONE))?;
    is_cut(&rt, rt.alloc(), 87_000, 21, (86_017, 984, LAST))
}
