//! The chunks that recovery finds, and where they stand.

ghost use Rattle.std.specs.Prelude.{◌≡◌, ◌++◌, ◌↔◌, [], IfOk, IsErrOf, IsTrue, OnOk, ℕ};
ghost use Rattle.disk_calls.specs.Disk.{HasCause, Looks};
ghost use Rattle.segment_pairs.specs.Log.{Chain};
ghost use Rattle.segment_pairs.specs.Held.{files_of};
ghost use Rattle.segment_store.specs.Rows.{rows_at};
ghost use Rattle.segment_store.specs.Recovery.{Adds, IsUneven};

use crate::fault::StoreFault;
use crate::rows::{ChunkAt, row_of};
use chunk_format::Stored;
use disk_calls::Disk;
use segment_pairs::{Seen, look_at};
use std::alloc::{AllocError, Global};

/// The chunks that were found so far, and where they stand.
#[derive(Drop)]
pub(crate) struct Found {
    pub(crate) rows: Vec<ChunkAt>,
    pub(crate) chunks: Vec<Stored>,
}

// Adds the rows of the chunks of a segment.
fn add_rows(rows: &mut Vec<ChunkAt>, number: u64, chunks: &[Stored]) -> Result<(), AllocError>
    ensures { Chain 8 number chunks.now → OnOk result (rows.new.items ≡ rows.old.items ++ rows_at number 0 8 chunks.now) }
{
    let mut place = 8;
    let mut nth = 0;
    for chunk in chunks {
        let row = row_of(number, nth, place, chunk);
        rows.push(row)?;
        place = row.after;
        nth = nth.saturating_add(1);
    }
    Ok(())
}

impl Found {
    /// Nothing found yet.
    pub(crate) fn new(alloc: Global) -> Found
        ensures rows { result.rows.items ≡ [] }
        ensures chunks { result.chunks.items ≡ [] }
    {
        Found {
            rows: Vec::new(alloc),
            chunks: Vec::new(alloc),
        }
    }

    /// Adds the chunks of a segment. After an error it is of no more use.
    pub(crate) fn add(&mut self, number: u64, mut chunks: Vec<Stored>) -> Result<(), AllocError>
        ensures rows { Chain 8 number chunks.items → OnOk result (self.new.rows.items ≡ self.old.rows.items ++ rows_at number 0 8 chunks.items) }
        ensures chunks { OnOk result (self.new.chunks.items ≡ self.old.chunks.items ++ chunks.items) }
    {
        add_rows(&mut self.rows, number, &chunks)?;
        self.chunks.append(&mut chunks)?;
        Ok(())
    }
}

/// Whether no bytes stand behind the chunks of a segment and their records, which end at these places.
pub(crate) fn is_even(size: u64, place: u64, index_size: u64, index_place: u64) -> bool
    ensures { IsTrue result ↔ ((size ≡ place) × (index_size ≡ index_place)) }
{
    size == place && index_size == index_place
}

/// Reads a segment that is not the last, and adds its chunks. It gives the first offset after them. Its files are chunks
/// and nothing else, and on the disk, or the answer is `Damaged`.
pub(crate) fn read_older<D: Disk>(
    alloc: Global,
    disk: &mut D,
    stream: u32,
    number: u64,
    found: &mut Found,
) -> Result<u64, StoreFault>
    ensures looks { Looks (D.state disk.old) (D.state disk.new) }
    ensures adds { D.tells → IfOk result (Adds stream number found.old.rows.items found.new.rows.items found.old.chunks.items found.new.chunks.items (D.state disk.new)) }
    ensures damaged { D.tells → (segment at : ℕ) → IsErrOf result (StoreFault.Damaged segment at) → (segment ≡ number) × IsUneven number (files_of stream (D.state disk.new).seen number) at }
    ensures unworded { (place : ℕ) → IsErrOf result (StoreFault.DamagedWords place) → ⊥ }
    ensures cause { HasCause (IsErrOf result StoreFault.Disk) (D.state disk.old) (D.state disk.new) }
{
    match look_at(alloc, disk, stream, number)? {
        Seen::Failed => Err(StoreFault::Disk),
        Seen::Headless(_) => Err(StoreFault::Damaged {
            segment: number,
            at: 0,
        }),
        Seen::Chunks(walk) => {
            let chunks = walk.chunks.into_vec();
            if !is_even(walk.size, walk.place, walk.index_size, walk.index_place) {
                return Err(StoreFault::Damaged {
                    segment: number,
                    at: chunks.len() as u64,
                });
            }
            found.add(number, chunks)?;
            Ok(walk.end)
        }
    }
}
