//! What holds of what is tracked, named by contracts.

ghost use Rattle.std.specs.Prelude.{◌≡◌, List, ◌++◌, ◌∷◌, [], fold};
ghost use Rattle.chunk_format.specs.declared.chunk.Chunk.{Chunk};
ghost use Rattle.chunk_format.specs.declared.chunk.ChunkKind.TheVariants.{Snapshot};
ghost use Rattle.chunk_format.specs.ByName.{snapshot_items};
ghost use Rattle.tracking_state.specs.Tracked.{tracked_of, items_of};
ghost use Rattle.tracking_state.specs.Notes.{noted};

/// A snapshot lists what is tracked, and changes nothing of it: neither its chunk does, nor do notes of its entries. It
/// does nothing.
pub fn a_snapshot_changes_nothing()
    ensures lists { (log : List Chunk) → items_of (tracked_of log) ≡ snapshot_items log }
    ensures chunk { (log : List Chunk) (c : Chunk) → c.kind ≡ Snapshot → tracked_of (log ++ c ∷ []) ≡ tracked_of log }
    ensures entries { (log : List Chunk) → fold noted (tracked_of log) (snapshot_items log) ≡ tracked_of log }
{}
