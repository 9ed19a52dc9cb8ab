//! The names that pairs and bytes stand for.

ghost use Rattle.std.specs.Prelude.{◌≡◌, ◌+◌, ◌≤◌, ◌<◌, length, take, drop, Some, None, Ok, Err, IfOk, IfErr, IfSome, IfNone, OnOk, IsErrOf, ℕ};
ghost use Rattle.stream_catalog.specs.Names.{no_names};
ghost use Rattle.stream_catalog.specs.Files.{change_at, one_more, names_in, names_after};
ghost use Rattle.stream_catalog.specs.Adding.{AreNumbered, IsReadFault, TakesPair};

use crate::change::Change;
use crate::change_bytes::read_change;
use crate::fault::CatalogFault;
use crate::names::NameList;
use crate::rules::fits;
use std::alloc::{AllocError, Global};

/// So many bytes from a place on, where there are so many.
fn piece(bytes: &[u8], place: u64, len: u64) -> Option<&[u8]>
    ensures some { IfSome result (λ p. (place + len ≤ length bytes.now) × (p.now ≡ take len (drop place bytes.now))) }
    ensures none { IfNone result (length bytes.now < place + len) }
{
    let end = place.checked_add(len)?;
    if end > bytes.len() as u64 {
        return None;
    }
    Some(&bytes[place as usize..end as usize])
}

/// The change of a pair, if its bytes are there and spell one.
fn change_at(alloc: Global, bytes: &[u8], pair: (u64, u64)) -> Result<Option<Change>, AllocError>
    ensures { IfOk result (λ change. change ≡ change_at bytes.now pair) }
{
    match piece(bytes, pair.0, pair.1) {
        None => Ok(None),
        Some(piece) => read_change(alloc, piece),
    }
}

/// Makes the change of a pair, where it is one that fits.
fn take_pair(
    alloc: Global,
    bytes: &[u8],
    pair: (u64, u64),
    names: &mut NameList,
) -> Result<bool, AllocError>
    requires { AreNumbered names.old }
    ensures took { IfOk result (λ took. TakesPair took (one_more bytes.now pair names.old) names.new) }
    ensures numbered { AreNumbered names.new }
{
    let Some(change) = change_at(alloc, bytes, pair)? else {
        return Ok(false);
    };
    if !fits(alloc, names, &change)? {
        return Ok(false);
    }
    names.apply(change)?;
    Ok(true)
}

/// The names after the changes of all pairs. It fails with `Damaged` at the place of the first pair whose
/// bytes aren't there, are no change, or are one that doesn't fit.
pub(crate) fn read_names(
    alloc: Global,
    bytes: &[u8],
    pairs: &[(u64, u64)],
) -> Result<NameList, CatalogFault>
    ensures names { IfOk result (λ names. names_in bytes.now pairs.now ≡ Ok names) }
    ensures numbered { IfOk result AreNumbered }
    ensures damaged { (place : ℕ) → IsErrOf result (CatalogFault.Damaged place) → names_in bytes.now pairs.now ≡ Err place }
    ensures fault { IfErr result IsReadFault }
{
    let mut names = NameList::new(alloc);
    for index in 0..pairs.len() {
        if !take_pair(alloc, bytes, pairs[index], &mut names)? {
            return Err(CatalogFault::Damaged {
                place: 8 + 18 * index as u64,
            });
        }
    }
    Ok(names)
}
