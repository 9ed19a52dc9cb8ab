//! Whether the log of a member is whole.

ghost use Rattle.std.specs.Prelude.{◌≡◌, ◌≤◌, ◌==◌, ◌&&◌, nat_le, IfSome, None};
ghost use Rattle.chunk_format.specs.Logs.{IsLog, last_epoch};
ghost use Rattle.cluster_core.specs.Breaks.{Breaks};

use crate::committed::chunk_end;
use chunk_format::{Header, Stored};

/// Whether a chunk begins at an end, in an epoch that isn't below one or above the promise.
fn fits(header: &Header, end: u64, epoch: u64, promise: u64) -> bool
    ensures { result ≡ ((header.now.first == end) && (nat_le epoch header.now.epoch && nat_le header.now.epoch promise)) }
{
    if header.first != end {
        return false;
    }
    epoch <= header.epoch && header.epoch <= promise
}

/// The first offset of the first chunk that doesn't begin where those before it end, or whose epoch is below theirs or
/// above the member's promise.
pub fn broken_at(chunks: &[Stored], promise: u64) -> Option<u64>
    ensures some { IfSome result (λ offset. Breaks chunks.now promise offset) }
    ensures none { result ≡ None → IsLog chunks.now × (last_epoch chunks.now ≤ promise) }
{
    let mut end = 0;
    let mut epoch = 0;
    'chunks: for chunk in chunks {
        let header = chunk.header();
        if !fits(header, end, epoch, promise) {
            return Some(header.first);
        }
        end = chunk_end(chunk);
        epoch = header.epoch;
    }
    None
}
