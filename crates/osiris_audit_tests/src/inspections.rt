use crate::files::{
    BATCHES, BATCHES_INDEX, INDEX, SEGMENT, UNORDERED, UNORDERED_INDEX, inspects_as,
};
use osiris_audit::inspect;
use outside_io::{MemorySink, MemorySource};
use std::alloc::Global;
use std::process::Abort;
use std::test::Fail;

const FIRST: &str = "chunk 0 snapshot 1 1 0 1\nentry 0 1 0\n";

const BOTH: &str = "chunk 0 snapshot 1 1 0 1\nentry 0 1 0\nchunk 1 user 1 1 0 1\nentry 1 1 1\n";

/// An inspection of these bytes ends with this status and writes this.
fn tells<R: Abort>(
    rt: &R,
    alloc: Global,
    segment: &[u8],
    index: &[u8],
    wanted: u8,
    text: &[u8],
) -> Result<(), Fail> {
    let mut segment = MemorySource::new(alloc, segment, &[])?;
    let mut index = MemorySource::new(alloc, index, &[])?;
    inspects_as(rt, alloc, &mut segment, &mut index, wanted, text)
}

/// So many chunks of `SEGMENT` match, and nothing else stands in the index where that is right.
fn matches_so_many<R: Abort>(
    rt: &R,
    alloc: Global,
    segment: &[u8],
    index: &[u8],
    right: bool,
    count: usize,
) -> Result<(), Fail> {
    let lines = match count {
        0 => "",
        1 => FIRST,
        _ => BOTH,
    };
    let word = if right { "ok" } else { "bad" };
    let status = if right { 0 } else { 3 };
    let text = format!(in alloc; "{lines}{word} {count}\n")?;
    tells(rt, alloc, segment, index, status, text.as_bytes())
}

/// The digits of a segment and of its index, the status, and what is written.
type Case = (&'static str, &'static str, u8, &'static str);

const CASES: [Case; 6] = [
    (
        SEGMENT,
        INDEX,
        0,
        "chunk 0 snapshot 1 1 0 1\nentry 0 1 0\nchunk 1 user 1 1 0 1\nentry 1 1 1\nok 2\n",
    ),
    (
        BATCHES,
        BATCHES_INDEX,
        0,
        "chunk 0 snapshot 1 1 0 1\nentry 0 1 0\nchunk 1 user 2 4 0 1\nentry 1 3 6\nentry 4 1 1\nok 2\n",
    ),
    (
        UNORDERED,
        UNORDERED_INDEX,
        0,
        "chunk 1 user 1 1 0 1\nentry 1 1 1\nok 1\n",
    ),
    // the records of another segment, files exchanged, no byte
    (SEGMENT, UNORDERED_INDEX, 3, "bad 0\n"),
    (INDEX, SEGMENT, 3, "bad 0\n"),
    ("", "", 3, "bad 0\n"),
];

#[test]
fn inspect_tells_chunks_and_entries(rt: HostRuntime) -> Result<(), Fail> {
    let alloc = rt.alloc();
    for (segment, index, status, text) in CASES {
        let segment = hex::decode(alloc, segment)?;
        let index = hex::decode(alloc, index)?;
        tells(
            &rt,
            alloc,
            segment.as_slice(),
            index.as_slice(),
            status,
            text.as_bytes(),
        )?;
    }
    Ok(())
}

#[test]
fn a_cut_index_is_right_where_a_record_ends(rt: HostRuntime) -> Result<(), Fail> {
    let alloc = rt.alloc();
    let segment = hex::decode(alloc, SEGMENT)?;
    let index = hex::decode(alloc, INDEX)?;
    for len in 0..67usize {
        let cut = index.as_slice().get(..len).unwrap_or(b"none");
        let right = len == 8 || len == 37 || len == 66;
        let count = len.saturating_sub(8) / 29;
        matches_so_many(&rt, alloc, segment.as_slice(), cut, right, count)?;
    }
    Ok(())
}

#[test]
fn a_cut_segment_is_told_at_its_last_whole_chunk(rt: HostRuntime) -> Result<(), Fail> {
    let alloc = rt.alloc();
    let segment = hex::decode(alloc, SEGMENT)?;
    let index = hex::decode(alloc, INDEX)?;
    for len in 0..114usize {
        let cut = segment.as_slice().get(..len).unwrap_or(b"none");
        let count = usize::from(len >= 60).wrapping_add(usize::from(len >= 113));
        matches_so_many(&rt, alloc, cut, index.as_slice(), len == 113, count)?;
    }
    Ok(())
}

/// The bytes with one of them changed.
fn change(bytes: &mut Vec<u8>, place: usize) {
    if let Some(byte) = bytes.as_mut_slice().get_mut(place) {
        *byte ^= 1;
    }
}

#[test]
fn each_byte_of_an_index_counts(rt: HostRuntime) -> Result<(), Fail> {
    let alloc = rt.alloc();
    let segment = hex::decode(alloc, SEGMENT)?;
    for place in 0..66usize {
        let mut index = hex::decode(alloc, INDEX)?;
        change(&mut index, place);
        let count = usize::from(place >= 37);
        matches_so_many(
            &rt,
            alloc,
            segment.as_slice(),
            index.as_slice(),
            false,
            count,
        )?;
    }
    Ok(())
}

/// The reads of the segment, of the index, and the writes that fail, the status, and what is written.
type Failing = ([u64; 1], [u64; 1], [u64; 1], u8, &'static str);

const FAILING: [Failing; 10] = [
    ([1], [0], [0], 4, ""),
    ([0], [1], [0], 4, ""),
    ([2], [0], [0], 4, BOTH),
    ([0], [2], [0], 4, BOTH),
    ([0], [0], [1], 5, ""),
    ([0], [0], [2], 5, FIRST),
    ([0], [0], [3], 5, BOTH),
    ([2], [1], [0], 4, ""),
    ([2], [0], [1], 5, ""),
    (
        [3],
        [3],
        [4],
        0,
        "chunk 0 snapshot 1 1 0 1\nentry 0 1 0\nchunk 1 user 1 1 0 1\nentry 1 1 1\nok 2\n",
    ),
];

/// An inspection of `SEGMENT` and `INDEX` of which these calls fail.
fn fails_as<R: Abort>(rt: &R, alloc: Global, case: &Failing) -> Result<(), Fail> {
    let (segment_fails, index_fails, fails, wanted, text) = case;
    let segment = hex::decode(alloc, SEGMENT)?;
    let index = hex::decode(alloc, INDEX)?;
    let mut segment = MemorySource::new(alloc, segment.as_slice(), segment_fails)?;
    let mut index = MemorySource::new(alloc, index.as_slice(), index_fails)?;
    let mut out = MemorySink::new(alloc, fails)?;
    let status = inspect(alloc, &mut segment, &mut index, &mut out);
    assert_eq!(rt; status, *wanted);
    assert_eq!(rt; out.written(), text.as_bytes());
    Ok(())
}

#[test]
fn each_failing_call_ends_an_inspection(rt: HostRuntime) -> Result<(), Fail> {
    for case in &FAILING {
        fails_as(&rt, rt.alloc(), case)?;
    }
    Ok(())
}
