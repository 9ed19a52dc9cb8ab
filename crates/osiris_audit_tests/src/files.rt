//! Segments and indexes whose bytes are known from outside, and what calls over them leave.

use osiris_audit::{inspect, reindex};
use outside_io::{MemorySink, Source};
use std::alloc::Global;
use std::process::Abort;
use std::test::Fail;

/// A segment of an opening snapshot of 52 bytes and a message of 53.
pub(crate) const SEGMENT: &str =
    "4f53494c0000000150020001000000010000000000000000000000000000000100000000000000002144df1c000000040000000000000000000000005000000100000001000000000000000000000000000000010000000000000001e58c97920000000500000000000000000000000161";

/// Its index.
pub(crate) const INDEX: &str =
    "4f5349490000000100000000000000000000000000000000000000000000000100000008020000000000000001000000000000000000000000000000010000003c00";

/// A segment of an opening snapshot, and of a sub-batch of three records with a message.
pub(crate) const BATCHES: &str =
    "4f53494c0000000150020001000000010000000000000000000000000000000100000000000000002144df1c0000000400000000000000000000000050000002000000040000000000000000000000000000000100000000000000013c42414400000016000000000000000080000300000006000000066162636465660000000162";

/// Its index.
pub(crate) const BATCHES_INDEX: &str =
    "4f5349490000000100000000000000000000000000000000000000000000000100000008020000000000000001000000000000000000000000000000010000003c00";

/// A segment of the message alone, which begins at offset 1, and of the snapshot behind it, which doesn't follow.
pub(crate) const UNORDERED: &str =
    "4f53494c000000015000000100000001000000000000000000000000000000010000000000000001e58c9792000000050000000000000000000000016150020001000000010000000000000000000000000000000100000000000000002144df1c00000004000000000000000000000000";

/// Its index.
pub(crate) const UNORDERED_INDEX: &str =
    "4f534949000000010000000000000001000000000000000000000000000000010000000800";

/// An inspection of these files ends with this status and writes this.
pub(crate) fn inspects_as<R: Abort, S: Source, T: Source>(
    rt: &R,
    alloc: Global,
    segment: &mut S,
    index: &mut T,
    wanted: u8,
    text: &[u8],
) -> Result<(), Fail> {
    let mut out = MemorySink::new(alloc, &[])?;
    let status = inspect(alloc, segment, index, &mut out);
    assert_eq!(rt; status, wanted);
    assert_eq!(rt; out.written(), text);
    Ok(())
}

/// The index of this segment is made with this status, and is this.
pub(crate) fn reindexes_as<R: Abort, S: Source>(
    rt: &R,
    alloc: Global,
    segment: &mut S,
    wanted: u8,
    index: &[u8],
) -> Result<(), Fail> {
    let mut out = MemorySink::new(alloc, &[])?;
    let status = reindex(alloc, segment, &mut out);
    assert_eq!(rt; status, wanted);
    assert_eq!(rt; out.written(), index);
    Ok(())
}
