//! What holds of an index that is made anew, whatever makes it.

ghost use Rattle.std.specs.Prelude.{◌≡◌, ℕ, List, true};
ghost use Rattle.segment_pairs.specs.Log.{Finder, begins, segment_header, index_header};
ghost use Rattle.osiris_audit.specs.Indexing.{Keeps};

/// The index of a segment's longest run begins with the records of any old index of it that matched, at their places,
/// whatever offset the old log was to begin at. It does nothing.
pub fn an_index_made_anew_keeps_records()
    ensures keeps { (F : Finder) (end : ℕ) (seg idx : List ℕ) → begins segment_header seg ≡ true → begins index_header idx ≡ true → Keeps F end seg idx }
{}
