//! Places in a log, and whether runs contain a tail.

ghost use Rattle.std.specs.Prelude.{◌≡◌, ◌==◌, ◌&&◌, ◌≤◌, length, nat_le, IfOk};
ghost use Rattle.std.specs.List.{list_any};
ghost use Rattle.chunk_format.specs.Chunks.{end_of_chunk};
ghost use Rattle.chunk_format.specs.Logs.{IsLog, last_epoch};
ghost use Rattle.epoch_coordinator.specs.Tails.{contains, tail_of};
ghost use Rattle.epoch_coordinator.specs.MemberSteps.{tail_after, kept_end, chunk_from, ends_in, has_epoch, cut_at};
ghost use Rattle.member_core.specs.Kept.{ended, reaches};

use chunk_format::Stored;
use epoch_coordinator::{Run, Tail};
use std::alloc::AllocError;

/// The offset behind a chunk.
pub(crate) fn chunk_end(chunk: &Stored) -> u64
    ensures { result ≡ end_of_chunk chunk.now }
{
    let header = chunk.header();
    header.first + header.records as u64
}

/// The tail of a log that ends with this chunk.
pub(crate) fn tail_after(chunk: &Stored) -> Tail
    ensures { result ≡ tail_after chunk.now }
{
    let header = chunk.header();
    Tail {
        epoch: header.epoch,
        end: header.first + header.records as u64,
    }
}

/// The tail of a log.
pub(crate) fn tail_of(log: &[Stored]) -> Tail
    ensures { result ≡ tail_of log.now }
{
    let len = log.len();
    if len == 0 {
        return Tail { epoch: 0, end: 0 };
    }
    tail_after(&log[len - 1])
}

/// Whether the last chunk of a log has this epoch.
pub(crate) fn ends_in(log: &[Stored], epoch: u64) -> bool
    ensures { result ≡ ends_in epoch log.now }
{
    let len = log.len();
    if len == 0 {
        return false;
    }
    tail_after(&log[len - 1]).epoch == epoch
}

/// Whether a chunk of a log has this epoch, which none of them is above: then the last has it.
pub(crate) fn has_epoch(log: &[Stored], epoch: u64) -> bool
    requires is_log { IsLog log.now }
    requires above { last_epoch log.now ≤ epoch }
    ensures { result ≡ has_epoch epoch log.now }
{
    ends_in(log, epoch)
}

/// The tail of a log, were it cut at this offset.
pub(crate) fn cut_tail(log: &[Stored], end: u64) -> Tail
    requires { IsLog log.now }
    ensures { result ≡ tail_of (cut_at end log.now) }
{
    let kept = ended(log, end);
    tail_of(&log[..kept])
}

/// The chunk of a log that begins at an offset.
pub(crate) fn share_from(log: &[Stored], offset: u64) -> Result<Option<Stored>, AllocError>
    requires { IsLog log.now }
    ensures { IfOk result (λ found. found ≡ chunk_from offset log.now) }
{
    let place = ended(log, offset);
    if place == log.len() {
        return Ok(None);
    }
    let chunk = &log[place];
    if chunk.header().first != offset {
        return Ok(None);
    }
    let shared = chunk.share()?;
    Ok(Some(shared))
}

/// How many chunks at the front of a log end at an offset or before it. It looks at one chunk for
/// each halving of the log.
pub(crate) fn ended(log: &[Stored], end: u64) -> usize
    requires { IsLog log.now }
    ensures is { result ≡ ended end log.now }
    ensures within { result ≤ length log.now }
{
    log.partition_point(
        |chunk: &Stored| -> bool
            ensures { result ≡ nat_le (end_of_chunk chunk.now) end }
        { chunk_end(chunk) <= end },
    )
}

/// Whether a run has the tail's epoch and reaches its end.
fn reaches(run: Run, tail: Tail) -> bool
    ensures { result ≡ reaches tail run }
{
    run.epoch == tail.epoch && tail.end <= run.end
}

/// Whether some run reaches the tail.
fn has_run(runs: &[Run], tail: Tail) -> bool
    ensures { result ≡ list_any (reaches tail) runs.now }
{
    runs.iter().any(|run| reaches(*run, tail))
}

/// Whether it is the tail of no chunks.
fn is_of_nothing(tail: Tail) -> bool
    ensures { result ≡ ((tail.epoch == 0) && (tail.end == 0)) }
{
    tail.epoch == 0 && tail.end == 0
}

/// Whether runs contain a tail.
pub(crate) fn contains(runs: &[Run], tail: Tail) -> bool
    ensures { result ≡ contains runs.now tail }
{
    if is_of_nothing(tail) {
        return true;
    }
    has_run(runs, tail)
}

/// The end of the longest beginning of a log whose tail the runs contain. It looks at no chunk
/// before that end.
pub(crate) fn kept_end(log: &[Stored], runs: &[Run]) -> u64
    ensures { result ≡ kept_end runs.now log.now }
{
    let mut place = log.len();
    'chunks: while place > 0 {
        let tail = tail_after(&log[place - 1]);
        if contains(runs, tail) {
            return tail.end;
        }
        place -= 1;
    }
    0
}
