//! The rules of the catalog, each in its order.

ghost use Rattle.std.specs.Prelude.{◌≡◌, ◌∷◌, ◌+◌, ◌≤◌, IfOk, None, is_some};
ghost use Rattle.std.specs.List.{list_all};
ghost use Rattle.stream_catalog.specs.Rules.{is_name, are_parts, create_refused, super_refused, deletes_held, deletes_super_held};
ghost use Rattle.stream_catalog.specs.Files.{answers, are_new, fits};
ghost use Rattle.std.specs.Option.{option_copied};

use crate::change::{Change, ChangeKind};
use crate::fault::{CatalogFault, Why};
use crate::holder::Holder;
use crate::names::{NameList, all_differ};
use frame_wire::Text;
use std::alloc::{AllocError, Global};

/// Whether a text is a name: of 1 to 255 bytes.
pub(crate) fn is_name(text: &Text) -> bool
    ensures { result ≡ is_name text.now }
{
    match text.get() {
        None => false,
        Some(bytes) => 0 < bytes.len() && bytes.len() < 256,
    }
}

fn are_names(texts: &[Text]) -> bool
    ensures { result ≡ list_all is_name texts.now }
{
    texts.iter().all(|text| is_name(text))
}

fn are_keys(texts: &[Text]) -> bool
    ensures { result ≡ list_all is_some texts.now }
{
    texts.iter().all(|text| text.get().is_some())
}

/// Why a stream of a name is refused, but for want of room.
pub(crate) fn create_refused(names: &NameList, name: &Text) -> Option<CatalogFault>
    ensures { result ≡ create_refused name.now names.now }
{
    if !is_name(name) {
        return Some(CatalogFault::Refused(Why::Name));
    }
    if names.is_taken(name) {
        return Some(CatalogFault::Exists);
    }
    None
}

/// Whether there are partitions, a key for each that isn't null, and no two equal names.
fn are_parts(alloc: Global, name: &Text, parts: &[Text], keys: &[Text]) -> Result<bool, AllocError>
    ensures { IfOk result (λ right. right ≡ are_parts name.now parts.now keys.now) }
{
    if parts.len() == 0 || keys.len() != parts.len() {
        return Ok(false);
    }
    let differ = all_differ(alloc, name, parts)?;
    Ok(differ && are_keys(keys))
}

/// Why a super stream of a name with these partitions and keys is refused, but for want of room. It needs
/// memory for the names.
pub(crate) fn super_refused(
    alloc: Global,
    names: &NameList,
    name: &Text,
    parts: &[Text],
    keys: &[Text],
) -> Result<Option<CatalogFault>, AllocError>
    ensures { IfOk result (λ refused. refused ≡ super_refused name.now parts.now keys.now names.now) }
{
    if !is_name(name) || !are_names(parts) {
        return Ok(Some(CatalogFault::Refused(Why::Name)));
    }
    if !are_parts(alloc, name, parts, keys)? {
        return Ok(Some(CatalogFault::Refused(Why::Parts)));
    }
    if names.is_taken(name) || names.is_any_taken(parts) {
        return Ok(Some(CatalogFault::Exists));
    }
    Ok(None)
}

/// Whether so many numbers from this one on are above all that were given, and below 2^32.
fn are_new(names: &NameList, number: u32, count: usize) -> bool
    ensures { result ≡ are_new number count names.now }
{
    names.last() < number && count <= 4_294_967_296 - number as usize
}

/// Whether a change fits the changes before it.
pub(crate) fn fits(alloc: Global, names: &NameList, change: &Change) -> Result<bool, AllocError>
    ensures { IfOk result (λ fit. fit ≡ fits change.now names.now) }
{
    let number = change.number;
    match change.kind {
        ChangeKind::Create => Ok(
            create_refused(names, &change.name).is_none() && are_new(names, number, 1),
        ),
        ChangeKind::CreateSuper => {
            let parts = change.parts.as_slice();
            let refused = super_refused(alloc, names, &change.name, parts, change.keys.as_slice())?;
            Ok(refused.is_none() && are_new(names, number, parts.len()))
        }
        ChangeKind::Delete => Ok(is_stream(names.holder_at(&change.name), number)),
        ChangeKind::DeleteSuper => Ok(is_super(names.holder_at(&change.name), number)),
    }
}

fn is_stream(holder: Option<&Holder>, number: u32) -> bool
    ensures { result ≡ answers number (deletes_held None (option_copied holder.entry)) }
{
    match holder {
        Some(Holder::Stream { number: found }) => *found == number,
        _ => false,
    }
}

fn is_super(holder: Option<&Holder>, number: u32) -> bool
    ensures { result ≡ answers number (deletes_super_held None (option_copied holder.entry)) }
{
    match holder {
        Some(
            Holder::Super {
                first,
                parts: _,
                keys: _,
            },
        ) => *first == number,
        _ => false,
    }
}
