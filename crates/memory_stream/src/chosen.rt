//! The items of an offer that are new.

ghost use Rattle.std.specs.Prelude.{◌≡◌, ◌≤◌, ◌<◌, ◌^◌, ◌++◌, ◌∷◌, [], IfOk, OnOk, flat_map, length, position};
ghost use Rattle.std.specs.List.{AllByRecursion};
ghost use Rattle.chunk_format.specs.Tags.{IsName, tag_bytes};
ghost use Rattle.stream_terms.specs.Steps.{has_none};
ghost use Rattle.memory_stream.specs.Chosen.{is_new, new_items, chosen, tag_for, trailer_for, HasId, HaveIds};

use crate::copies::copy_item;
use chunk_format::{Entry, TagParts, put_tag};
use command_data::Tagged;
use frame_wire::{Octets, Row};
use std::alloc::{AllocError, Global};

/// Whether an item is a sub-batch of no records.
fn has_none(item: &Tagged) -> bool
    ensures { result ≡ has_none item.now }
{
    match &item.entry {
        Entry::Simple(_) => false,
        Entry::Batch {
            compression: _,
            spare: _,
            records,
            uncompressed: _,
            body: _,
        } => *records == 0,
    }
}

/// The place of the first sub-batch of no records.
pub(crate) fn first_empty(items: &[Tagged]) -> Option<usize>
    ensures { result ≡ position has_none items.now }
{
    items.iter().position(|item| has_none(item))
}

fn is_new(greatest: Option<u64>, id: u64) -> bool
    ensures { result ≡ is_new greatest id }
{
    match greatest {
        None => true,
        Some(greatest) => greatest < id,
    }
}

fn push_item(alloc: Global, out: &mut Row<Tagged>, item: &Tagged) -> Result<(), AllocError>
    ensures { OnOk result (out.new ≡ out.old ++ item.now ∷ []) }
{
    let item = copy_item(alloc, item)?;
    match out.push(item) {
        Ok(()) => Ok(()),
        Err(_) => Err(AllocError),
    }
}

/// Those with rising ids, from above the greatest on.
fn new_items(
    alloc: Global,
    greatest: Option<u64>,
    items: &[Tagged],
) -> Result<Row<Tagged>, AllocError>
    ensures { IfOk result (λ row. row ≡ new_items greatest items.now) }
{
    let mut out = Row::new(alloc);
    let mut last = greatest;
    let mut rest = items;
    'items: while let Some((item, more)) = rest.split_first() {
        if is_new(last, item.id) {
            push_item(alloc, &mut out, item)?;
            last = Some(item.id);
        }
        rest = more;
    }
    Ok(out)
}

fn all_items(alloc: Global, items: &[Tagged]) -> Result<Row<Tagged>, AllocError>
    ensures { IfOk result (λ row. row ≡ items.now) }
{
    let mut out = Row::new(alloc);
    let mut rest = items;
    'items: while let Some((item, more)) = rest.split_first() {
        push_item(alloc, &mut out, item)?;
        rest = more;
    }
    Ok(out)
}

/// Of a named publisher the items that are new, else all.
pub(crate) fn chosen(
    alloc: Global,
    name: &[u8],
    greatest: Option<u64>,
    items: &[Tagged],
) -> Result<Row<Tagged>, AllocError>
    ensures { IfOk result (λ row. row ≡ chosen name.now greatest items.now) }
{
    if name.is_empty() {
        all_items(alloc, items)
    } else {
        new_items(alloc, greatest, items)
    }
}

fn put_id(out: &mut Octets, name: &[u8], id: u64) -> Result<(), AllocError>
    requires { IsName name.now }
    ensures ok { OnOk result (out.new ≡ out.old ++ tag_bytes (record { name = name.now; id = id })) }
    ensures fits { id < 2 ^ 64 }
{
    put_tag(out, TagParts { name, id })
}

fn tags(alloc: Global, name: &[u8], items: &[Tagged]) -> Result<Octets, AllocError>
    requires { IsName name.now }
    ensures bytes { IfOk result (λ bytes. bytes ≡ flat_map (λ t. tag_bytes (tag_for name.now t)) items.now) }
    ensures ids { IfOk result (λ bytes. AllByRecursion HasId items.now) }
{
    let mut out = Octets::new(alloc);
    let mut rest = items;
    'items: while let Some((item, more)) = rest.split_first() {
        put_id(&mut out, name, item.id)?;
        rest = more;
    }
    Ok(out)
}

/// A tag for each, where the publisher has a name.
pub(crate) fn trailer_for(
    alloc: Global,
    name: &[u8],
    items: &[Tagged],
) -> Result<Octets, AllocError>
    requires { length name.now ≤ 255 }
    ensures bytes { IfOk result (λ bytes. bytes ≡ trailer_for name.now items.now) }
    ensures ids { IfOk result (λ bytes. HaveIds name.now items.now) }
{
    if name.is_empty() {
        Ok(Octets::new(alloc))
    } else {
        tags(alloc, name, items)
    }
}
