//! Laws of a stream's view.

ghost use Rattle.std.specs.Prelude.{ℕ, List, Option, Ok, ◌++◌, []};
ghost use Rattle.std.specs.List.{AllByRecursion};
ghost use Rattle.chunk_format.specs.declared.chunk.Chunk.{Chunk};
ghost use Rattle.chunk_format.specs.Logs.{Linked, end_of, last_epoch};
ghost use Rattle.command_data.specs.declared.item.Tagged.{Tagged};
ghost use Rattle.stream_terms.specs.declared.terms.Pass.{Pass};
ghost use Rattle.stream_terms.specs.declared.terms.Taken.{Taken};
ghost use Rattle.stream_terms.specs.declared.terms.Waits.{Waits};
ghost use Rattle.stream_terms.specs.Views.{StreamView, StreamHolds, Caused, Counted};
ghost use Rattle.stream_terms.specs.Steps.{StreamStep, Declared, Offered, StoredOffset, Handed, Moved};

/// A declaration, an offer and an offset that were taken keep what holds of a stream, whatever was handed out before. It does nothing.
pub fn declarations_and_offers_keep_what_holds()
    ensures declared { (old new : StreamView) (spent : List Waits) (session : ℕ) (name : Option (List ℕ)) (pass : Pass) → StreamHolds old spent → StreamStep old (Declared session name (Ok pass)) new → StreamHolds new spent }
    ensures offered { (old new : StreamView) (spent : List Waits) (pass : Pass) (items : List Tagged) (taken : Taken) → StreamHolds old spent → StreamStep old (Offered pass items (Ok taken)) new → StreamHolds new spent }
    ensures stored { (old new : StreamView) (spent : List Waits) (name : Option (List ℕ)) (offset : ℕ) (taken : Taken) → StreamHolds old spent → StreamStep old (StoredOffset name offset (Ok taken)) new → StreamHolds new spent }
{}

/// Each confirm that is handed out has its cause, and what holds goes on to hold with it among those handed out. It does
/// nothing.
pub fn handed_confirms_have_their_cause()
    ensures caused { (old new : StreamView) (spent : List Waits) (session : ℕ) (out : List Waits) → StreamHolds old spent → StreamStep old (Handed session out) new → AllByRecursion (Caused old.chunks) out }
    ensures holds { (old new : StreamView) (spent : List Waits) (session : ℕ) (out : List Waits) → StreamHolds old spent → StreamStep old (Handed session out) new → StreamHolds new (spent ++ out) }
{}

/// No entry was confirmed to publishers without a name more often than it stands in the list without a tag. It does
/// nothing.
pub fn confirmed_entries_are_counted()
    ensures { (v : StreamView) (spent : List Waits) → StreamHolds v spent → Counted spent v.chunks }
{}

/// What a stream does by itself is commits, and takes nothing from what was handed out before. It does nothing.
pub fn moves_keep_what_was_handed_out()
    ensures holds { (old new : StreamView) (spent : List Waits) (more : List Chunk) → StreamHolds old spent → StreamStep old (Moved more) new → StreamHolds new [] → StreamHolds new spent }
    ensures commits { (old new : StreamView) (spent : List Waits) (more : List Chunk) → StreamHolds old spent → StreamStep old (Moved more) new → StreamHolds new [] → Linked (end_of old.chunks) (last_epoch old.chunks) more }
{}
