//! The search for the chunk that holds an offset.

ghost use Rattle.std.specs.Prelude.{◌≡◌, ◌+◌, ◌-◌, ◌*◌, ◌^◌, ◌≤◌, ◌<◌, ℕ, List, length, map, nat_lt, slice_index};
ghost use Rattle.std.specs.List.{position_or_len};
ghost use Rattle.std.specs.List.Sorted.{IsStrictlyIncreasing};
ghost use Rattle.chunk_format.specs.Chunks.{end_of_chunk};

use crate::lists::end_of_stored;
use crate::steps::Steps;
use chunk_format::Stored;
use std::marker::Model;
use std::sync::ledger::Ledger;

/// Chunks one after the other, of which is told whether their ends are above an offset.
pub trait Ends {
    // The offsets behind the chunks, in order.
    ghost ends: { Self → List ℕ };

    /// How many chunks there are.
    fn len(&self) -> usize
        ensures { result ≡ length (ends self.now) };

    /// Whether the end of the chunk at a place is above an offset. It is one step.
    fn end_above<L: Ledger>(&self, place: usize, offset: u64, steps: &mut Steps<L>) -> bool
        requires { place < length (ends self.now) }
        ensures above { result ≡ nat_lt offset (slice_index (ends self.now) place) }
        ensures step { steps.new ≡ steps.old + 1 };
}

/// The place of the first chunk whose end is above an offset, or the number of chunks where there is none. It halves what
/// is left at each step: over n chunks it takes at most s steps, where 2^s is at most 2n + 1.
pub fn find_place<E: Ends, L: Ledger>(list: &E, offset: u64, steps: &mut Steps<L>) -> usize
    requires { IsStrictlyIncreasing (E.ends list.now) }
    ensures place { result ≡ position_or_len (nat_lt offset) (E.ends list.now) }
    ensures within { result ≤ length (E.ends list.now) }
    ensures steps { 2 ^ (steps.new - steps.old) ≤ 2 * length (E.ends list.now) + 1 }
{
    let mut low = 0;
    let mut left = list.len();
    'search: while left > 0 {
        let half = left / 2;
        let middle = low + half;
        if list.end_above(middle, offset, steps) {
            left = half;
        } else {
            low = middle + 1;
            left = left - half - 1;
        }
    }
    low
}

/// Chunks that are kept, seen as these.
#[derive(Debug, Drop)]
pub struct StoredEnds<'a> {
    chunks: &'a [Stored],
}

impl<'a> Model for StoredEnds<'a> {
    ghost use Rattle.std.specs.Prelude.{List};
    ghost use Rattle.chunk_format.specs.declared.chunk.Chunk.{Chunk};

    ghost Value = { List Chunk };

    ghost view = { λ s. s.chunks.now };
}

impl<'a> StoredEnds<'a> {
    /// These chunks.
    pub fn new(chunks: &'a [Stored]) -> StoredEnds<'a>
        ensures { result ≡ chunks.now }
    {
        StoredEnds { chunks }
    }
}

impl<'a> Ends for StoredEnds<'a> {
    ghost use Rattle.std.specs.Prelude.{map};
    ghost use Rattle.chunk_format.specs.Chunks.{end_of_chunk};

    ghost ends = { λ chunks. map end_of_chunk chunks };

    fn len(&self) -> usize {
        self.chunks.len()
    }

    fn end_above<L: Ledger>(&self, place: usize, offset: u64, steps: &mut Steps<L>) -> bool {
        steps.tick();
        ends_above(self.chunks, place, offset)
    }
}

/// Whether the end of the chunk at a place is above an offset.
fn ends_above(chunks: &[Stored], place: usize, offset: u64) -> bool
    requires { place < length chunks.now }
    ensures { result ≡ nat_lt offset (slice_index (map end_of_chunk chunks.now) place) }
{
    offset < end_of_stored(&chunks[place])
}
