//! The changes that are asked for: the one that happens by the rules, or why none does.

ghost use Rattle.std.specs.Prelude.{◌≡◌, ◌≤◌, ◌++◌, ◌∷◌, [], true, IfOk};
ghost use Rattle.std.specs.List.{AllByRecursion};
ghost use Rattle.frame_wire.specs.Fields.{IsText};
ghost use Rattle.stream_catalog.specs.Rules.{has_room, creates, creates_super, deletes, deletes_super};
ghost use Rattle.stream_catalog.specs.ChangeBytes.{IsChange};
ghost use Rattle.stream_catalog.specs.Files.{fits};
ghost use Rattle.stream_catalog.specs.Adding.{Goes};
ghost use Rattle.stream_catalog.specs.Asking.{Asks};

use crate::change::{Change, ChangeKind};
use crate::fault::{CatalogFault, Why};
use crate::holder::Holder;
use crate::listed::Listed;
use crate::rules::{create_refused, super_refused};
use frame_wire::{Row, Text};
use std::alloc::{AllocError, Global};

/// A copy of a text. It takes memory for its bytes.
pub(crate) fn copy_text(alloc: Global, text: &Text) -> Result<Text, AllocError>
    ensures copy { IfOk result (λ copy. copy ≡ text.now) }
    ensures short { IsText text.now }
{
    match text.get() {
        None => Ok(Text::null()),
        Some(bytes) => match Text::copy(alloc, bytes) {
            Ok(copy) => Ok(copy),
            Err(_) => Err(AllocError),
        },
    }
}

/// A copy of texts. It takes memory for them.
pub(crate) fn copy_texts(alloc: Global, texts: &[Text]) -> Result<Row<Text>, AllocError>
    ensures copy { IfOk result (λ row. row ≡ texts.now) }
    ensures short { IfOk result (λ row. AllByRecursion IsText row) }
{
    let mut row = Row::new(alloc);
    for index in 0..texts.len() {
        let text = copy_text(alloc, &texts[index])?;
        if let Err(_) = row.push(text) {
            return Err(AllocError);
        }
    }
    Ok(row)
}

/// Whether so many streams more are within a limit of live streams, and their numbers below 2^32.
fn has_room(listed: &Listed, limit: u32, count: usize) -> bool
    ensures { result ≡ has_room limit count listed.now }
{
    let live = listed.streams().len();
    let limit = limit as usize;
    live <= limit && count <= limit - live && count < 4_294_967_296 - listed.last() as usize
}

/// A stream of a name that is to come, where there may be at most so many live streams. It fails by the rules in this order:
/// `Refused(Name)`, `Exists`, `Refused(Streams)`; or for want of memory.
pub fn ask_create(
    alloc: Global,
    listed: &Listed,
    limit: u32,
    name: &Text,
) -> Result<Change, CatalogFault>
    ensures asks { Asks result (creates limit name.now listed.now) }
    ensures fits { IfOk result (λ change. fits change listed.now ≡ true) }
    ensures spelled { IfOk result IsChange }
{
    if let Some(fault) = create_refused(listed.names(), name) {
        return Err(fault);
    }
    if !has_room(listed, limit, 1) {
        return Err(CatalogFault::Refused(Why::Streams));
    }
    let name = copy_text(alloc, name)?;
    Ok(Change {
        kind: ChangeKind::Create,
        number: listed.last() + 1,
        name,
        parts: Row::new(alloc),
        keys: Row::new(alloc),
    })
}

/// A super stream of partitions with binding keys that is to come. It fails by the rules in this order: `Refused(Name)`,
/// `Refused(Parts)`, `Exists`, `Refused(Streams)`; or for want of memory.
pub fn ask_create_super(
    alloc: Global,
    listed: &Listed,
    limit: u32,
    name: &Text,
    parts: &[Text],
    keys: &[Text],
) -> Result<Change, CatalogFault>
    requires { limit ≤ 16 }
    ensures asks { Asks result (creates_super limit name.now parts.now keys.now listed.now) }
    ensures fits { IfOk result (λ change. fits change listed.now ≡ true) }
    ensures spelled { IfOk result IsChange }
{
    if let Some(fault) = super_refused(alloc, listed.names(), name, parts, keys)? {
        return Err(fault);
    }
    if !has_room(listed, limit, parts.len()) {
        return Err(CatalogFault::Refused(Why::Streams));
    }
    let name = copy_text(alloc, name)?;
    let parts = copy_texts(alloc, parts)?;
    let keys = copy_texts(alloc, keys)?;
    Ok(Change {
        kind: ChangeKind::CreateSuper,
        number: listed.last() + 1,
        name,
        parts,
        keys,
    })
}

/// A change that takes names away.
fn deletion(alloc: Global, kind: ChangeKind, number: u32, name: &Text) -> Result<Change, AllocError>
    requires { Goes kind }
    ensures change { IfOk result (λ c. c ≡ record { kind = kind; number = number; name = name.now; parts = []; keys = [] }) }
    ensures spelled { IfOk result IsChange }
{
    let name = copy_text(alloc, name)?;
    Ok(Change {
        kind,
        number,
        name,
        parts: Row::new(alloc),
        keys: Row::new(alloc),
    })
}

/// A stream that is to go. It fails by the rules in this order: `Missing`, also for the name of a super stream,
/// `Refused(InSuper)`; or for want of memory.
pub fn ask_delete(alloc: Global, listed: &Listed, name: &Text) -> Result<Change, CatalogFault>
    ensures asks { Asks result (deletes name.now listed.now) }
    ensures fits { IfOk result (λ change. fits change listed.now ≡ true) }
    ensures spelled { IfOk result IsChange }
{
    match listed.names().holder_at(name) {
        Some(Holder::Stream { number }) => {
            let change = deletion(alloc, ChangeKind::Delete, *number, name)?;
            Ok(change)
        }
        Some(
            Holder::Part {
                number: _,
                place: _,
            },
        ) => Err(CatalogFault::Refused(Why::InSuper)),
        _ => Err(CatalogFault::Missing),
    }
}

/// A super stream that is to go, with its partitions. It fails by the rules with `Missing`; or for want of memory.
pub fn ask_delete_super(alloc: Global, listed: &Listed, name: &Text) -> Result<Change, CatalogFault>
    ensures asks { Asks result (deletes_super name.now listed.now) }
    ensures fits { IfOk result (λ change. fits change listed.now ≡ true) }
    ensures spelled { IfOk result IsChange }
{
    match listed.names().holder_at(name) {
        Some(
            Holder::Super {
                first,
                parts: _,
                keys: _,
            },
        ) => {
            let change = deletion(alloc, ChangeKind::DeleteSuper, *first, name)?;
            Ok(change)
        }
        _ => Err(CatalogFault::Missing),
    }
}
