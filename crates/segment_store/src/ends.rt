//! Where chunks of a log end.

ghost use Rattle.std.specs.Prelude.{◌≡◌, ◌≤◌, ℕ, length, ltb, IsTrue};
ghost use Rattle.segment_store.specs.Rows.{FrontEnds};
ghost use Rattle.segment_store.specs.Stores.{EndsRise, NoneBefore};

use crate::rows::ChunkAt;

/// How many chunks end before an offset. It looks at one row for each halving of the table.
fn rows_before(rows: &[ChunkAt], end: u64) -> usize
    ensures within { result ≤ length rows.now }
    ensures none_before { EndsRise rows.now → NoneBefore end rows.now result }
{
    rows.partition_point(
        |row: &ChunkAt| -> bool
            ensures { result ≡ ltb row.now.end end }
        { row.end < end },
    )
}

/// Whether some chunk ends at an offset, or it is 0. It looks at one row for each halving of the table, and finds the
/// chunk where ends don't fall.
pub(crate) fn has_end(rows: &[ChunkAt], end: u64) -> bool
    ensures found { IsTrue result → (kept : ℕ) × FrontEnds rows.now kept end }
    ensures all { EndsRise rows.now → (kept : ℕ) → FrontEnds rows.now kept end → IsTrue result }
{
    if end == 0 {
        return true;
    }
    let at = rows_before(rows, end);
    match rows.get(at) {
        None => false,
        Some(row) => row.end == end,
    }
}
