//! The items of an offer that are taken, in runs.

ghost use Rattle.std.specs.Prelude.{◌≡◌, ◌≤◌, ◌<◌, ◌++◌, ◌∷◌, [], IfOk, OnOk, length};
ghost use Rattle.offer_chunks.specs.Taken.{items_of, tag_for, IsRun};

use crate::copies::copy_entry;
use crate::items::is_taken;
use chunk_format::{Entry, TagParts, put_tag};
use command_data::Tagged;
use frame_wire::{Octets, Row};
use std::alloc::{AllocError, Global};

/// The next items of an offer that are taken, as their chunk has them.
#[derive(Drop)]
pub struct Run<'a> {
    /// Copies of their entries.
    pub entries: Row<Entry>,
    /// A tag for each, where the publisher has a name.
    pub trailer: Octets,
    /// The greatest id of the publisher, theirs included.
    pub greatest: Option<u64>,
    /// The items that were not looked at. Of these the first is taken next, if there is one.
    pub rest: &'a [Tagged],
}

fn put_entry(alloc: Global, entries: &mut Row<Entry>, entry: &Entry) -> Result<(), AllocError>
    ensures { OnOk result (entries.new ≡ entries.old ++ entry.now ∷ []) }
{
    let entry = copy_entry(alloc, entry)?;
    match entries.push(entry) {
        Ok(()) => Ok(()),
        Err(_) => Err(AllocError),
    }
}

/// Writes the tag of an id, where the publisher has a name.
fn put_id(trailer: &mut Octets, name: &[u8], id: u64) -> Result<(), AllocError>
    requires { length name.now ≤ 255 }
    ensures { OnOk result (trailer.new ≡ trailer.old ++ tag_for name.now id) }
{
    if name.is_empty() {
        return Ok(());
    }
    put_tag(trailer, TagParts { name, id })
}

/// The first items that are taken, at most so many, behind a greatest id of their publisher. Each entry is copied once, and
/// each item that is passed is looked at once. It fails for want of memory alone.
pub fn next_run<'a>(
    alloc: Global,
    name: &[u8],
    greatest: Option<u64>,
    items: &'a [Tagged],
    most: usize,
) -> Result<Run<'a>, AllocError>
    requires short { length name.now ≤ 255 }
    requires some { 0 < most }
    ensures { IfOk result (IsRun name.now greatest most (items_of items.now)) }
{
    let mut entries = Row::new(alloc);
    let mut trailer = Octets::new(alloc);
    let mut last = greatest;
    let mut left = most;
    let mut rest = items;
    'items: while let Some((item, more)) = rest.split_first() {
        if is_taken(name, last, item.id) {
            if left == 0 {
                return Ok(Run {
                    entries,
                    trailer,
                    greatest: last,
                    rest,
                });
            }
            put_entry(alloc, &mut entries, &item.entry)?;
            put_id(&mut trailer, name, item.id)?;
            last = Some(item.id);
            left -= 1;
        }
        rest = more;
    }
    Ok(Run {
        entries,
        trailer,
        greatest: last,
        rest,
    })
}
