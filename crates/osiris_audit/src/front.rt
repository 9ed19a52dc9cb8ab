//! The chunk in front of bytes that may go on.

ghost use Rattle.std.specs.Prelude.{◌≡◌, ℕ, false};
ghost use Rattle.chunk_format.specs.Faults.{BeginsWith};
ghost use Rattle.segment_pairs.specs.Log.{size_of};
ghost use Rattle.osiris_audit.specs.Fronts.{Stands};

use chunk_format::ChunkFault;
use chunk_view::ChunkView;

/// What stands in front of bytes that may go on.
#[derive(Debug, Drop)]
pub enum Front<'a> {
    /// A whole chunk.
    Chunk(ChunkView<'a>),
    /// No whole chunk so far.
    More,
    /// No chunk, whatever follows.
    Never,
}

/// Whether bytes are missing.
fn is_short(fault: ChunkFault) -> bool
    ensures { result ≡ false → (place : ℕ) → fault ≡ ChunkFault.Short place → ⊥ }
{
    match fault {
        ChunkFault::Short { .. } => true,
        ChunkFault::Magic { .. }
        | ChunkFault::Version { .. }
        | ChunkFault::Kind { .. }
        | ChunkFault::Reserved { .. }
        | ChunkFault::Count { .. }
        | ChunkFault::Crc { .. }
        | ChunkFault::Trailer { .. }
        | ChunkFault::Tracking { .. } => false,
    }
}

/// What stands in front of bytes that may go on. Where a whole chunk stands there it reads all of it, for the checksum, and
/// else no more than a header.
pub fn chunk_in_front(bytes: &[u8]) -> Front<'_>
    ensures { Stands bytes.now result }
{
    match ChunkView::open(bytes) {
        Ok(view) => Front::Chunk(view),
        Err(fault) => {
            if is_short(fault) {
                return Front::More;
            }
            Front::Never
        }
    }
}
