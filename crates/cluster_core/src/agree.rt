//! Whether logs can stand together.

ghost use Rattle.std.specs.Prelude.{◌≡◌, ◌≤◌, ◌<◌, ◌↔◌, ℕ, true, false, length, take, drop, IsTrue, IfSome, None, slice_index_or};
ghost use Rattle.chunk_format.specs.declared.chunk.Chunk.{Chunk};
ghost use Rattle.chunk_format.specs.Logs.{IsLog};
ghost use Rattle.replication_laws.specs.Openings.{Diverges, Agrees};
ghost use Rattle.cluster_core.specs.Fronts.{Shares, SharesNone, Differ};

use chunk_format::Stored;

fn same_bytes(one: &[u8], other: &[u8]) -> bool
    ensures { IsTrue result ↔ (one.now ≡ other.now) }
{
    one == other
}

/// Whether two chunks are the same: their bytes are.
pub fn same_chunk(one: &Stored, other: &Stored) -> bool
    ensures { IsTrue result ↔ (one.now ≡ other.now) }
{
    same_bytes(one.bytes(), other.bytes())
}

/// How many chunks two lists have in common at their fronts.
pub fn common(one: &[Stored], other: &[Stored]) -> usize
    ensures front { take result one.now ≡ take result other.now }
    ensures within { result ≤ length one.now }
    ensures within_other { result ≤ length other.now }
    ensures differ { Differ one.now other.now result }
{
    let mut at = 0;
    'chunks: while at < one.len() {
        if other.len() <= at {
            return at;
        }
        if !same_chunk(&one[at], &other[at]) {
            return at;
        }
        at += 1;
    }
    at
}

/// Whether two logs both have a chunk of some epoch behind so many. It looks at each chunk behind them once at most.
fn shares_epoch(one: &[Stored], other: &[Stored], at: usize) -> bool
    requires one_log { IsLog one.now }
    requires other_log { IsLog other.now }
    requires within { at ≤ length one.now }
    requires within_other { at ≤ length other.now }
    ensures shares { result ≡ true → Shares (drop at one.now) (drop at other.now) }
    ensures none { result ≡ false → SharesNone (drop at one.now) (drop at other.now) }
{
    let mut place = at;
    let mut other_place = at;
    'both: while place < one.len() {
        if other.len() <= other_place {
            return false;
        }
        let epoch = one[place].header().epoch;
        let other_epoch = other[other_place].header().epoch;
        if epoch == other_epoch {
            return true;
        }
        if epoch < other_epoch {
            place += 1;
        } else {
            other_place += 1;
        }
    }
    false
}

/// The first offset at which two logs hold different chunks, if both have a chunk of one epoch there or later: such logs
/// can't be those of members of one stream.
pub fn diverged_at(one: &[Stored], other: &[Stored]) -> Option<u64>
    requires one_log { IsLog one.now }
    requires other_log { IsLog other.now }
    ensures some { IfSome result (λ offset. Diverges one.now other.now offset) }
    ensures none { result ≡ None → Agrees one.now other.now }
{
    let at = common(one, other);
    if one.len() <= at {
        return None;
    }
    if other.len() <= at {
        return None;
    }
    if !shares_epoch(one, other, at) {
        return None;
    }
    Some(one[at].header().first)
}
