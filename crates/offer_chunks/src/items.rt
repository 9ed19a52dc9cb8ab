//! Which items of an offer are taken.

ghost use Rattle.std.specs.Prelude.{◌≡◌, ◌<◌, ◌^◌, [], length, position, false, IsTrue};
ghost use Rattle.std.specs.List.{AllByRecursion};
ghost use Rattle.epoch_coordinator.specs.Offers.{is_new};
ghost use Rattle.offer_chunks.specs.Taken.{is_empty_batch, is_taken, taken_from, items_of, IdFits};

use chunk_format::Entry;
use command_data::Tagged;

/// Whether an item is a sub-batch of no records.
fn is_empty_batch(item: &Tagged) -> bool
    ensures { result ≡ is_empty_batch item.now }
{
    match &item.entry {
        Entry::Simple(_) => false,
        Entry::Batch {
            compression: _,
            spare: _,
            records,
            uncompressed: _,
            body: _,
        } => *records == 0,
    }
}

/// The place of the first sub-batch of no records.
pub fn first_empty(items: &[Tagged]) -> Option<usize>
    ensures { result ≡ position is_empty_batch items.now }
{
    items.iter().position(|item| is_empty_batch(item))
}

fn is_new(greatest: Option<u64>, id: u64) -> bool
    ensures { result ≡ is_new greatest id }
{
    match greatest {
        None => true,
        Some(greatest) => greatest < id,
    }
}

/// Whether an item with this id is taken behind the greatest id of its publisher.
pub(crate) fn is_taken(name: &[u8], greatest: Option<u64>, id: u64) -> bool
    ensures taken { result ≡ is_taken name.now greatest id }
    ensures fits { id < 2 ^ 64 }
{
    name.is_empty() || is_new(greatest, id)
}

/// Whether some item is taken. It looks at the items up to the first that is, or at all.
pub fn any_taken(name: &[u8], greatest: Option<u64>, items: &[Tagged]) -> bool
    ensures some { IsTrue result → 0 < length (taken_from name.now greatest (items_of items.now)) }
    ensures none { (result ≡ false) → taken_from name.now greatest (items_of items.now) ≡ [] }
    ensures fits { (result ≡ false) → AllByRecursion IdFits (items_of items.now) }
{
    let mut rest = items;
    'items: while let Some((item, more)) = rest.split_first() {
        if is_taken(name, greatest, item.id) {
            return true;
        }
        rest = more;
    }
    false
}
