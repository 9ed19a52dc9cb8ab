//! What holds of the names of a catalog over any changes.

ghost use Rattle.std.specs.Prelude.{◌≡◌, ◌+◌, ◌≤◌, ℕ, List, Option, Some, None, Ok, true, false};
ghost use Rattle.stream_catalog.specs.declared.change.Change.{Change};
ghost use Rattle.stream_catalog.specs.declared.holder.Holder.{Holder};
ghost use Rattle.stream_catalog.specs.Names.{Names, no_names, holder_of, is_live};
ghost use Rattle.stream_catalog.specs.Rules.{changed, creates, creates_super, deletes, deletes_super, holder_at};
ghost use Rattle.stream_catalog.specs.Files.{CatalogFiles, catalog_of, fits};
ghost use Rattle.stream_catalog.specs.Adding.{Goes, Rising};
ghost use Rattle.catalog_laws.specs.Changing.{FitAll, IsMade, after_all, all_given, goes_with};

/// Over any changes of which each fits those before it: the numbers that they give rise, from above the greatest that
/// was ever given before; and a stream that is not live, of a number that was given before, is never live again. It does
/// nothing.
pub fn numbers_are_never_used_again()
    ensures rise { (names : Names) (changes : List Change) → FitAll changes names → Rising (names.last + 1) (all_given changes) (after_all changes names).last }
    ensures gone { (names : Names) (changes : List Change) (number : ℕ) → FitAll changes names → number ≤ names.last → is_live number names ≡ false → is_live number (after_all changes names) ≡ false }
{}

/// The names of a catalog's files are those that changes made of none, and those after one change more, as each that the
/// rules answer with, are so again. It does nothing.
pub fn names_are_made_by_changes()
    ensures read { (files : CatalogFiles) (names : Names) → catalog_of files ≡ Ok names → IsMade names }
    ensures next { (names : Names) (c : Change) → IsMade names → fits c names ≡ true → IsMade (changed c names) }
    ensures creates { (limit : ℕ) (name : Option (List ℕ)) (names : Names) (c : Change) → creates limit name names ≡ Ok c → fits c names ≡ true }
    ensures creates_super { (limit : ℕ) (name : Option (List ℕ)) (parts keys : List (Option (List ℕ))) (names : Names) (c : Change) → creates_super limit name parts keys names ≡ Ok c → fits c names ≡ true }
    ensures deletes { (name : Option (List ℕ)) (names : Names) (c : Change) → deletes name names ≡ Ok c → fits c names ≡ true }
    ensures deletes_super { (name : Option (List ℕ)) (names : Names) (c : Change) → deletes_super name names ≡ Ok c → fits c names ≡ true }
{}

/// After a stream or a super stream went, its name stands for nothing, as each name whose number went with it; each other
/// name stands for what it stood for. It does nothing.
pub fn names_go_with_their_numbers()
    ensures own { (names : Names) (c : Change) → IsMade names → Goes c.kind → fits c names ≡ true → holder_at c.name (changed c names) ≡ None }
    ensures each { (names : Names) (c : Change) (name : List ℕ) (held : Holder) → IsMade names → Goes c.kind → holder_of name names ≡ Some held → goes_with c names held ≡ true → holder_of name (changed c names) ≡ None }
    ensures others { (names : Names) (c : Change) (name : List ℕ) (held : Holder) → Goes c.kind → holder_of name names ≡ Some held → goes_with c names held ≡ false → holder_of name (changed c names) ≡ Some held }
    ensures none { (names : Names) (c : Change) (name : List ℕ) → Goes c.kind → holder_of name names ≡ None → holder_of name (changed c names) ≡ None }
{}
