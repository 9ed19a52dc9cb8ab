//! The entries of a chunk in order.

ghost use Rattle.std.specs.Prelude.{◌≡◌, ◌+◌, ◌^◌, ◌<◌, List, [], ◌∷◌, MatchOption, IfSome};
ghost use Rattle.chunk_view.specs.Shown.{EntryShown, shown_by};

use crate::entry::{EntryView, first_view};
use std::marker::Model;

/// Entries of a chunk in order, seen as the list of those that are left. `front` shows the first
/// of them, and `next` takes it.
#[derive(Debug, Drop)]
pub struct EntryViews<'a> {
    /// The entries that are left.
    pub(crate) bytes: &'a [u8],
    /// The offset of the first of them.
    pub(crate) first: u64,
    /// How many they are.
    pub(crate) left: u16,
}

impl<'a> Model for EntryViews<'a> {
    ghost use Rattle.std.specs.Prelude.{List};
    ghost use Rattle.chunk_view.specs.Shown.{EntryShown, shown_from};
    ghost use Rattle.chunk_format.specs.ReadBack.{entries_at, AreLeft};

    ghost Value = { List EntryShown };

    ghost view = { λ s. shown_from s.first (entries_at s.left s.bytes.now) };

    ghost invariant = { λ s. AreLeft s.left s.first s.bytes.now };
}

impl<'a> EntryViews<'a> {
    /// The first of the entries that are left, which stays among them. The offset behind it is a
    /// number of 64 bits.
    pub fn front(&self) -> Option<EntryView<'a>>
        ensures front { MatchOption result (self.now ≡ []) (λ view. (more : List EntryShown) × (self.now ≡ shown_by view ∷ more)) }
        ensures fits { IfSome result (λ view. view.first + view.records < 2 ^ 64) }
    {
        if self.left == 0 {
            return None;
        }
        Some(first_view(self.bytes, self.first))
    }
}

impl<'a> Iterator for EntryViews<'a> {
    ghost use Rattle.std.specs.Iterator.{YieldsFirstBy, item_count};
    ghost use Rattle.chunk_view.specs.Shown.{shown_by};

    type Item = EntryView<'a>;

    ghost next_gives = { YieldsFirstBy shown_by (λ left. left) };

    ghost remaining = { item_count (λ left. left) };

    /// Takes the first of the entries that are left.
    fn next(&mut self) -> Option<EntryView<'a>> {
        if self.left == 0 {
            return None;
        }
        let view = first_view(self.bytes, self.first);
        self.bytes = &self.bytes[view.spelling.len()..];
        self.first += u64::from(view.records);
        self.left -= 1;
        Some(view)
    }
}
