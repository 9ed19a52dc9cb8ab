//! Where the chunks of a log stand.

ghost use Rattle.std.specs.Prelude.{◌≡◌, ◌+◌, ◌*◌, ◌<◌, ◌^◌, ◌∷◌, ℕ, List, length};
ghost use Rattle.chunk_format.specs.Chunks.{end_of_chunk, IsChunk};
ghost use Rattle.segment_pairs.specs.Log.{size_of};
ghost use Rattle.segment_pairs.specs.Held.{Segment};
ghost use Rattle.segment_store.specs.Rows.{IsKept, row_of, rows_of, FrontEnds, CanLook, IsLast};

use chunk_format::Stored;

/// Where a chunk stands.
#[derive(Clone, Copy, Debug, PartialEq, Eq)]
pub(crate) struct ChunkAt {
    /// The first offset of its segment.
    pub(crate) segment: u64,
    /// How many chunks are before it there.
    pub(crate) nth: u64,
    /// Where it begins there, in bytes.
    pub(crate) place: u64,
    /// Where it ends there.
    pub(crate) after: u64,
    /// The first offset after it.
    pub(crate) end: u64,
}

/// How many chunks end at an offset or before it. It takes a step for each chunk behind them.
pub(crate) fn kept_rows(rows: &[ChunkAt], end: u64) -> usize
    ensures { IsKept end rows.now result }
{
    let mut kept = rows.len();
    while kept > 0 && rows[kept - 1].end > end {
        kept -= 1;
    }
    kept
}

/// Where the log ends.
pub(crate) fn log_end(rows: &[ChunkAt]) -> u64
    ensures { FrontEnds rows.now (length rows.now) result }
{
    match rows.last() {
        None => 0,
        Some(row) => row.end,
    }
}

/// The row of a chunk behind `nth` others of a segment, at a place of it.
pub(crate) fn row_of(segment: u64, nth: u64, place: u64, chunk: &Stored) -> ChunkAt
    ensures row { place < 2 ^ 63 → result ≡ row_of segment nth place chunk.now }
    ensures is_chunk { IsChunk chunk.now }
{
    let header = chunk.header();
    ChunkAt {
        segment,
        nth,
        place,
        after: place.saturating_add(chunk.bytes().len() as u64),
        end: header.first + header.records as u64,
    }
}

/// The last segment of a table: its first offset, how many chunks it has, and its size in bytes.
#[derive(Clone, Copy, Debug, PartialEq, Eq)]
pub(crate) struct LastAt {
    pub(crate) segment: u64,
    pub(crate) count: u64,
    pub(crate) size: u64,
}

/// The last segment of a table, which is 0 without chunks where the table is empty.
pub(crate) fn last_at(rows: &[ChunkAt]) -> LastAt
    ensures { (x : Segment) (older : List Segment) → rows.now ≡ rows_of (x ∷ older) → CanLook x older → IsLast x result }
{
    match rows.last() {
        None => LastAt {
            segment: 0,
            count: 0,
            size: 8,
        },
        Some(row) => LastAt {
            segment: row.segment,
            count: row.nth.saturating_add(1),
            size: row.after,
        },
    }
}

/// Where the record of a chunk behind so many others begins in an index.
pub(crate) fn index_place(count: u64) -> u64
    ensures { count < 2 ^ 40 → result ≡ 8 + 29 * count }
{
    count.saturating_mul(29).saturating_add(8)
}
