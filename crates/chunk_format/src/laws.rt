//! What holds of lists of chunks, named by contracts.

ghost use Rattle.std.specs.Prelude.{◌≡◌, ℕ, ℤ, ◌+◌, ◌^◌, ◌≤◌, ◌<◌, ◌⊎◌, List, ◌++◌, ◌∷◌, [], Some, None, Option, length, map, Bool, if◌then◌else◌};
ghost use Rattle.chunk_format.specs.declared.chunk.Chunk.{Chunk};
ghost use Rattle.chunk_format.specs.declared.chunk.ChunkKind.TheVariants.{User, Snapshot};
ghost use Rattle.chunk_format.specs.declared.entry.Entry.{Entry};
ghost use Rattle.chunk_format.specs.Tags.{Tag, SpellsTags};
ghost use Rattle.chunk_format.specs.Chunks.{end_of_chunk, IsChunk};
ghost use Rattle.chunk_format.specs.Faults.{BeginsWith};
ghost use Rattle.chunk_format.specs.Samples.{p_name, c_name, d_name, p_tagged, untagged, snapshot_at, said, said_items, other_items};
ghost use Rattle.chunk_format.specs.LogRows.{LogRow, chunk_rows};
ghost use Rattle.chunk_format.specs.Logs.{GoesOn, end_of, last_epoch, IsLog, HasRun, users_above, next_above, ids_of, Greatest, greater, AtMost, LastStored, RisesIn, Truthful, snapshot_items, snapshot_body, snapshot_entry_of, opening_chunk, first_seen, same_name, bare_in, tally};
ghost use Rattle.std.specs.Int.{w64};
ghost use Rattle.std.specs.Int.RustNames.{FitsSigned};
ghost use Rattle.std.specs.List.{All, list_any};
ghost use Rattle.std.specs.Option.{option_or};

/// What one chunk more gives a list. It does nothing.
pub fn one_chunk_more()
    ensures end { (chunks : List Chunk) (c : Chunk) → end_of (chunks ++ c ∷ []) ≡ end_of_chunk c }
    ensures epoch { (chunks : List Chunk) (c : Chunk) → last_epoch (chunks ++ c ∷ []) ≡ c.epoch }
    ensures log { (chunks : List Chunk) (c : Chunk) → IsLog chunks → c.first ≡ end_of chunks → last_epoch chunks ≤ c.epoch → IsChunk c → IsLog (chunks ++ c ∷ []) }
    ensures greatest { (name : List ℕ) (chunks : List Chunk) (c : Chunk) → Greatest name (chunks ++ c ∷ []) ≡ greater (Greatest name chunks) (Greatest name (c ∷ [])) }
    ensures stored { (name : List ℕ) (chunks : List Chunk) (c : Chunk) → LastStored name (chunks ++ c ∷ []) ≡ option_or (LastStored name (c ∷ [])) (LastStored name chunks) }
    ensures rises { (chunks : List Chunk) (c : Chunk) → RisesIn chunks → RisesIn (c ∷ []) → ((name : List ℕ) → All (λ id. AtMost id (Greatest name chunks) → ⊥) (ids_of name (c ∷ []))) → RisesIn (chunks ++ c ∷ []) }
    ensures truthful { (chunks : List Chunk) (c : Chunk) → Truthful chunks → (c.kind ≡ Snapshot → c.entries ≡ snapshot_entry_of chunks ∷ []) → Truthful (chunks ++ c ∷ []) }
    ensures snapshot { (chunks : List Chunk) (c : Chunk) → c.kind ≡ Snapshot → snapshot_items (chunks ++ c ∷ []) ≡ snapshot_items chunks }
{}

/// Of two beginnings of one log the one that ends first begins the other, and a beginning of a log is one. It does
/// nothing.
pub fn beginnings_of_one_log()
    ensures log { (front log : List Chunk) → GoesOn front log → IsLog log → IsLog front }
    ensures either { (one other log : List Chunk) → GoesOn one log → GoesOn other log → GoesOn one other ⊎ GoesOn other one }
    ensures shorter { (one other log : List Chunk) → GoesOn one log → GoesOn other log → IsLog log → end_of one ≤ end_of other → GoesOn one other }
    ensures run { (front log : List Chunk) (epoch end : ℕ) → GoesOn front log → HasRun front epoch end → HasRun log epoch end }
    ensures greatest { (front log : List Chunk) (name : List ℕ) (id : ℕ) → GoesOn front log → AtMost id (Greatest name front) → AtMost id (Greatest name log) }
    ensures rises { (front log : List Chunk) → GoesOn front log → RisesIn log → RisesIn front }
    ensures truthful { (front log : List Chunk) → GoesOn front log → Truthful log → Truthful front }
{}

/// The user chunks above an offset: of two parts, and after the first of them. It does nothing.
pub fn user_chunks_above_an_offset()
    ensures parts { (from : ℕ) (front more : List Chunk) → users_above from (front ++ more) ≡ users_above from front ++ users_above from more }
    ensures stays { (from : ℕ) (front more : List Chunk) (c : Chunk) → next_above from front ≡ Some c → next_above from (front ++ more) ≡ Some c }
    ensures next { (from : ℕ) (log : List Chunk) (c : Chunk) → IsLog log → next_above from log ≡ Some c → users_above from log ≡ c ∷ users_above (end_of_chunk c) log }
    ensures none { (from : ℕ) (log : List Chunk) → IsLog log → end_of log ≤ from → users_above from log ≡ [] }
{}

/// The rows of a user chunk have the tags of its trailer, one each, and none where it is empty. It does nothing.
pub fn rows_have_the_tags_of_their_trailer()
    ensures tagged { (c : Chunk) (tags : List Tag) → c.kind ≡ User → SpellsTags (length c.entries) c.trailer tags → map (λ (row : LogRow). row.tag) (chunk_rows c) ≡ map Some tags }
    ensures untagged { (c : Chunk) → c.kind ≡ User → c.trailer ≡ [] → map (λ (row : LogRow). row.tag) (chunk_rows c) ≡ map (λ (e : Entry). None) c.entries }
{}

/// The chunk that opens an epoch behind a log: it has a spelling where its numbers and its entry fit, and it is a
/// truthful snapshot. It does nothing.
pub fn an_opening_chunk_is_truthful()
    ensures is_chunk { (epoch : ℕ) (stamp : ℤ) (log : List Chunk) → All IsChunk log → FitsSigned w64 stamp → epoch < 2 ^ 64 → end_of log + 1 < 2 ^ 64 → length (snapshot_body log) < 2 ^ 31 → IsChunk (opening_chunk epoch stamp log) }
    ensures truthful { (epoch : ℕ) (stamp : ℤ) (log : List Chunk) → Truthful log → Truthful (log ++ opening_chunk epoch stamp log ∷ []) }
{}

/// A name behind others is new and comes last, or stands among them. It does nothing.
pub fn names_stand_where_they_are_first()
    ensures { (name : List ℕ) (names : List (List ℕ)) → first_seen (names ++ name ∷ []) ≡ (if list_any (same_name name) (first_seen names) then first_seen names else first_seen names ++ name ∷ []) }
{}

/// The entries without a tag in a range that a log has reached stay, and what passes a test is counted part by part. It
/// does nothing.
pub fn entries_without_a_tag_stay()
    ensures stays { (from to : ℕ) (front more : List Chunk) → IsLog (front ++ more) → to ≤ end_of front → bare_in from to (front ++ more) ≡ bare_in from to front }
    ensures counted { (passes : Entry → Bool) (front more : List Entry) → tally passes (front ++ more) ≡ tally passes front + tally passes more }
{}

/// Bytes begin with one chunk at most, and with the same one where more bytes follow. It does nothing.
pub fn bytes_begin_with_one_chunk()
    ensures one { (c other : Chunk) (used less : ℕ) (bytes : List ℕ) → BeginsWith c used bytes → BeginsWith other less bytes → (c ≡ other) × (used ≡ less) }
    ensures still { (c : Chunk) (used : ℕ) (bytes more : List ℕ) → BeginsWith c used bytes → BeginsWith c used (bytes ++ more) }
{}

/// What is said of a small list of chunks, and that a snapshot in another order isn't truthful. It does nothing.
pub fn a_small_list_says()
    ensures greatest { Greatest p_name said ≡ Some 7 }
    ensures no_greatest { Greatest c_name said ≡ None }
    ensures stored { LastStored d_name said ≡ Some 3 }
    ensures items { snapshot_items said ≡ said_items }
    ensures users { users_above 1 said ≡ p_tagged 1 7 ∷ p_tagged 3 7 ∷ untagged 6 ∷ [] }
    ensures next { next_above 4 said ≡ Some (untagged 6) }
    ensures truthful { Truthful (said ++ snapshot_at 7 said_items ∷ []) }
    ensures other_order { Truthful (said ++ snapshot_at 7 other_items ∷ []) → ⊥ }
    ensures repeated { RisesIn said → ⊥ }
{}
