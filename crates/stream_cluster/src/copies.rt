//! Copies of what is offered.

ghost use Rattle.std.specs.Prelude.{◌≡◌, IfOk, map};
ghost use Rattle.stream_terms.specs.Steps.{item_id, item_entry};

use chunk_format::Entry;
use command_data::Tagged;
use frame_wire::{Octets, Row};
use std::alloc::{AllocError, Global};

fn copy_entry(alloc: Global, entry: &Entry) -> Result<Entry, AllocError>
    ensures { IfOk result (λ e. e ≡ entry.now) }
{
    match entry {
        Entry::Simple(body) => Ok(Entry::Simple(Octets::copy(alloc, body.as_slice())?)),
        Entry::Batch {
            compression,
            spare,
            records,
            uncompressed,
            body,
        } => Ok(Entry::Batch {
            compression: *compression,
            spare: *spare,
            records: *records,
            uncompressed: *uncompressed,
            body: Octets::copy(alloc, body.as_slice())?,
        }),
    }
}

/// The entries of items.
pub(crate) fn copy_entries(alloc: Global, items: &[Tagged]) -> Result<Row<Entry>, AllocError>
    ensures { IfOk result (λ row. row ≡ map item_entry items.now) }
{
    let mut out = Row::new(alloc);
    'items: for item in items {
        let entry = copy_entry(alloc, &item.entry)?;
        match out.push(entry) {
            Ok(()) => {}
            Err(_) => return Err(AllocError),
        }
    }
    Ok(out)
}

/// The ids of items.
pub(crate) fn copy_ids(alloc: Global, items: &[Tagged]) -> Result<Row<u64>, AllocError>
    ensures { IfOk result (λ row. row ≡ map item_id items.now) }
{
    let mut out = Row::new(alloc);
    'items: for item in items {
        match out.push(item.id) {
            Ok(()) => {}
            Err(_) => return Err(AllocError),
        }
    }
    Ok(out)
}
