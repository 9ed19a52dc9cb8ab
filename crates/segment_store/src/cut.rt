//! Cutting a log.

ghost use Rattle.std.specs.Prelude.{◌≡◌, ◌∷◌, List, ℕ, length, slice_get, MatchOption};
ghost use Rattle.disk_calls.specs.Disk.{HasCause};
ghost use Rattle.segment_pairs.specs.Held.{Segment, EachLog, OutsideLog, all_chunks};
ghost use Rattle.epoch_coordinator.specs.MemberSteps.{cut_at};
ghost use Rattle.segment_store.specs.Recoverable.{LogRecoverable};
ghost use Rattle.segment_store.specs.Rows.{LogStands, FrontEnds, CanTrim, Dropped, NoneBehind, IsBehind};
ghost use Rattle.segment_store.specs.Jobs.{Between};

use crate::rows::{ChunkAt, index_place, kept_rows};
use disk_calls::{Disk, DiskDid};
use segment_pairs::{cut_last, remove_last};

/// Cuts a log to the chunks that end at an offset or before it, where one of them ends at it, or it is 0. From the last
/// segment on each that begins there or behind is removed; then, where the last one left has a chunk behind it, its
/// index and the segment are cut. It takes no memory, and as many steps as it cuts chunks.
pub(crate) fn cut_log<D: Disk>(
    disk: &mut D,
    stream: u32,
    rows: &mut Vec<ChunkAt>,
    end: u64,
) -> DiskDid
    requires { D.tells → (segments : List Segment) × (kept : ℕ) × LogStands stream rows.old.items segments (D.state disk.old) × FrontEnds rows.old.items kept end }
    ensures images { D.tells → (segments : List Segment) (kept : ℕ) → LogStands stream rows.old.items segments (D.state disk.old) → FrontEnds rows.old.items kept end → EachLog stream (Between end (all_chunks segments)) (D.state disk.new) }
    ensures done { D.tells → result ≡ DiskDid.Done → (segments : List Segment) (kept : ℕ) → LogStands stream rows.old.items segments (D.state disk.old) → FrontEnds rows.old.items kept end → (now : List Segment) × LogStands stream rows.new.items now (D.state disk.new) × (all_chunks now ≡ cut_at end (all_chunks segments)) }
    ensures recoverable { D.tells → LogRecoverable stream (D.state disk.new) }
    ensures others { OutsideLog stream (D.state disk.old) (D.state disk.new) }
    ensures cause { HasCause (result ≡ DiskDid.Failed) (D.state disk.old) (D.state disk.new) }
{
    if let DiskDid::Failed = drop_segments(disk, stream, rows, end) {
        return DiskDid::Failed;
    }
    trim_chunks(disk, stream, rows, end)
}

// Removes the segments above 0 that begin at an offset or behind it, from the last on.
fn drop_segments<D: Disk>(disk: &mut D, stream: u32, rows: &mut Vec<ChunkAt>, end: u64) -> DiskDid
    requires { D.tells → (segments : List Segment) × (kept : ℕ) × LogStands stream rows.old.items segments (D.state disk.old) × FrontEnds rows.old.items kept end }
    ensures images { D.tells → (segments : List Segment) (kept : ℕ) → LogStands stream rows.old.items segments (D.state disk.old) → FrontEnds rows.old.items kept end → EachLog stream (Between end (all_chunks segments)) (D.state disk.new) }
    ensures done { D.tells → result ≡ DiskDid.Done → (segments : List Segment) (kept : ℕ) → LogStands stream rows.old.items segments (D.state disk.old) → FrontEnds rows.old.items kept end → Dropped stream end kept rows.new.items segments (D.state disk.new) }
    ensures recoverable { D.tells → LogRecoverable stream (D.state disk.new) }
    ensures others { OutsideLog stream (D.state disk.old) (D.state disk.new) }
    ensures cause { HasCause (result ≡ DiskDid.Failed) (D.state disk.old) (D.state disk.new) }
{
    match last_behind(rows, end) {
        None => DiskDid::Done,
        Some(last) => {
            if let DiskDid::Failed = remove_last(disk, stream, last.segment) {
                return DiskDid::Failed;
            }
            let left = rows
                .len()
                .saturating_sub(last.nth as usize)
                .saturating_sub(1);
            rows.truncate(left);
            drop_segments(disk, stream, rows, end)
        }
    }
}

// The last row, if its segment begins at an offset or behind it, and is not 0.
fn last_behind(rows: &[ChunkAt], end: u64) -> Option<ChunkAt>
    ensures { MatchOption result (NoneBehind end rows.now) (IsBehind end rows.now) }
{
    match rows.last() {
        None => None,
        Some(last) => {
            if last.segment < end || last.segment == 0 {
                return None;
            }
            Some(*last)
        }
    }
}

fn row_at(rows: &[ChunkAt], at: usize) -> Option<ChunkAt>
    ensures { result ≡ slice_get rows.now at }
{
    rows.get(at).copied()
}

// Cuts the last segment, which begins before an offset or at 0, to the chunks that end there.
fn trim_chunks<D: Disk>(disk: &mut D, stream: u32, rows: &mut Vec<ChunkAt>, end: u64) -> DiskDid
    requires { D.tells → (last : Segment) × (older : List Segment) × (kept : ℕ) × CanTrim stream end kept rows.old.items last older (D.state disk.old) }
    ensures images { D.tells → (last : Segment) (older : List Segment) (kept : ℕ) → CanTrim stream end kept rows.old.items last older (D.state disk.old) → EachLog stream (Between end (all_chunks (last ∷ older))) (D.state disk.new) }
    ensures done { D.tells → result ≡ DiskDid.Done → (last : Segment) (older : List Segment) (kept : ℕ) → CanTrim stream end kept rows.old.items last older (D.state disk.old) → (now : List Segment) × LogStands stream rows.new.items now (D.state disk.new) × (all_chunks now ≡ cut_at end (all_chunks (last ∷ older))) }
    ensures recoverable { D.tells → LogRecoverable stream (D.state disk.new) }
    ensures others { OutsideLog stream (D.state disk.old) (D.state disk.new) }
    ensures cause { HasCause (result ≡ DiskDid.Failed) (D.state disk.old) (D.state disk.new) }
{
    let kept = kept_rows(rows, end);
    match row_at(rows, kept) {
        None => DiskDid::Done,
        Some(first) => {
            let index_size = index_place(first.nth);
            if let DiskDid::Failed = cut_last(
                disk,
                stream,
                first.segment,
                first.place,
                index_size,
            ) {
                return DiskDid::Failed;
            }
            rows.truncate(kept);
            DiskDid::Done
        }
    }
}
