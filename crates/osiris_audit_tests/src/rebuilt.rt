use crate::files::{
    BATCHES, BATCHES_INDEX, INDEX, SEGMENT, UNORDERED, UNORDERED_INDEX, reindexes_as,
};
use osiris_audit::reindex;
use outside_io::{MemorySink, MemorySource};
use std::alloc::Global;
use std::process::Abort;
use std::test::Fail;

/// The index of these bytes is made with this status, and is this.
fn rebuilds<R: Abort>(
    rt: &R,
    alloc: Global,
    segment: &[u8],
    wanted: u8,
    index: &[u8],
) -> Result<(), Fail> {
    let mut segment = MemorySource::new(alloc, segment, &[])?;
    reindexes_as(rt, alloc, &mut segment, wanted, index)
}

/// The digits of a segment and of its index.
const CASES: [(&str, &str); 4] = [
    (SEGMENT, INDEX),
    (BATCHES, BATCHES_INDEX),
    // a chunk that doesn't begin where the one before ended ends the run
    (UNORDERED, UNORDERED_INDEX),
    ("4f53494c00000001", "4f53494900000001"),
];

#[test]
fn an_index_is_rebuilt(rt: HostRuntime) -> Result<(), Fail> {
    let alloc = rt.alloc();
    for (segment, index) in CASES {
        let segment = hex::decode(alloc, segment)?;
        let index = hex::decode(alloc, index)?;
        rebuilds(&rt, alloc, segment.as_slice(), 0, index.as_slice())?;
    }
    let other = hex::decode(alloc, INDEX)?;
    rebuilds(&rt, alloc, other.as_slice(), 3, b"")
}

#[test]
fn a_cut_segment_has_the_records_of_its_whole_chunks(rt: HostRuntime) -> Result<(), Fail> {
    let alloc = rt.alloc();
    let segment = hex::decode(alloc, SEGMENT)?;
    let index = hex::decode(alloc, INDEX)?;
    for len in 0..114usize {
        let cut = segment.as_slice().get(..len).unwrap_or(b"none");
        let size = if len < 8 {
            0
        } else if len < 60 {
            8
        } else if len < 113 {
            37
        } else {
            66
        };
        let status = if len < 8 { 3 } else { 0 };
        let front = index.as_slice().get(..size).unwrap_or(b"none");
        rebuilds(&rt, alloc, cut, status, front)?;
    }
    Ok(())
}

/// The reads and the writes that fail, the status, and how many bytes of the index are written.
type Failing = ([u64; 1], [u64; 1], u8, usize);

const FAILING: [Failing; 7] = [
    ([1], [0], 4, 0),
    ([2], [0], 4, 66),
    ([0], [1], 5, 0),
    ([0], [2], 5, 8),
    ([0], [3], 5, 37),
    ([2], [3], 5, 37),
    ([3], [4], 0, 66),
];

/// A rebuilding of `INDEX` of which these calls fail.
fn fails_as<R: Abort>(rt: &R, alloc: Global, case: &Failing) -> Result<(), Fail> {
    let (reads, writes, wanted, size) = case;
    let segment = hex::decode(alloc, SEGMENT)?;
    let index = hex::decode(alloc, INDEX)?;
    let mut segment = MemorySource::new(alloc, segment.as_slice(), reads)?;
    let mut out = MemorySink::new(alloc, writes)?;
    let status = reindex(alloc, &mut segment, &mut out);
    assert_eq!(rt; status, *wanted);
    assert_eq!(rt; out.written().len(), *size);
    assert!(rt; index.as_slice().starts_with(out.written()));
    Ok(())
}

#[test]
fn each_failing_call_ends_a_rebuilding(rt: HostRuntime) -> Result<(), Fail> {
    for case in &FAILING {
        fails_as(&rt, rt.alloc(), case)?;
    }
    Ok(())
}
