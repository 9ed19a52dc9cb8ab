//! Items that tests offer.

ghost use Rattle.std.specs.Prelude.{IfOk};
ghost use Rattle.std.specs.List.{AllByRecursion};
ghost use Rattle.chunk_format.specs.Chunks.{IsEntry};
ghost use Rattle.hub_terms.specs.Meaning.{HasSpelling};

use chunk_format::Entry;
use command_data::Tagged;
use frame_wire::{Octets, Row};
use std::alloc::{AllocError, Global};

/// A message where it is to have one record, else a sub-batch of so many.
fn entry(alloc: Global, records: u16) -> Result<Entry, AllocError>
    ensures { IfOk result (λ e. IsEntry e) }
{
    let body = Octets::copy(alloc, b"m")?;
    if records == 1 {
        return Ok(Entry::Simple(body));
    }
    Ok(Entry::Batch {
        compression: 0,
        spare: 0,
        records,
        uncompressed: 1,
        body,
    })
}

#[tactic(auto, using(chunk_format::proofs::NameLaws::each_join))]
fn push_item(
    alloc: Global,
    items: &mut Row<Tagged>,
    id: u64,
    records: u16,
) -> Result<(), AllocError>
    requires { AllByRecursion HasSpelling items.old }
    ensures { AllByRecursion HasSpelling items.new }
{
    let entry = entry(alloc, records)?;
    match items.push(Tagged { id, entry }) {
        Ok(()) => Ok(()),
        Err(_) => Err(AllocError),
    }
}

/// Items of these ids, each with a number of records: a message has one, and any other number makes a sub-batch. It takes
/// memory.
pub fn items(alloc: Global, list: &[(u64, u16)]) -> Result<Row<Tagged>, AllocError>
    ensures { IfOk result (λ row. AllByRecursion HasSpelling row) }
{
    let mut row = Row::new(alloc);
    for item in list {
        push_item(alloc, &mut row, item.0, item.1)?;
    }
    Ok(row)
}

/// So many messages of id 0.
pub(crate) fn messages(alloc: Global, count: u32) -> Result<Row<Tagged>, AllocError>
    ensures { IfOk result (λ row. AllByRecursion HasSpelling row) }
{
    let mut row = Row::new(alloc);
    for _ in 0..count {
        push_item(alloc, &mut row, 0, 1)?;
    }
    Ok(row)
}
