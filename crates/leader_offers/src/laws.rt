//! What the added chunks are to those that use the stream.

ghost use Rattle.std.specs.Prelude.{◌≡◌, ℕ, ◌∷◌, true, List, ◌++◌, map};
ghost use Rattle.std.specs.List.{All, AllByRecursion};
ghost use Rattle.chunk_format.specs.declared.chunk.Chunk.{Chunk};
ghost use Rattle.chunk_format.specs.declared.chunk.ChunkKind.TheVariants.{Snapshot};
ghost use Rattle.chunk_format.specs.Chunks.{IsChunk};
ghost use Rattle.chunk_format.specs.Logs.{end_of};
ghost use Rattle.command_data.specs.declared.item.Tagged.{Tagged};
ghost use Rattle.epoch_coordinator.specs.Members.{MemberState, sequence_of};
ghost use Rattle.epoch_coordinator.specs.MemberSteps.{stamp_at};
ghost use Rattle.stream_terms.specs.Steps.{no_delta, offset_chunk};
ghost use Rattle.leader_offers.specs.Adds.{offer_adds, offset_adds, HasRoom};

/// Where the chunks of a leader's sequence have a spelling, so have those that have room behind it. It does nothing.
pub fn added_chunks_have_a_spelling()
    ensures offer { (m : MemberState) (name : List ℕ) (items : List Tagged) (now : ℕ) → AllByRecursion IsChunk (sequence_of m) → AllByRecursion HasRoom (offer_adds m name items now) → AllByRecursion IsChunk (offer_adds m name items now) }
    ensures offset { (m : MemberState) (name : List ℕ) (offset now : ℕ) → AllByRecursion IsChunk (sequence_of m) → AllByRecursion HasRoom (offset_adds m name offset now) → AllByRecursion IsChunk (offset_adds m name offset now) }
{}

/// An offer adds no stored offset, and a stored offset adds its own chunk and snapshots behind it. It does nothing.
pub fn added_chunks_are_of_their_kind()
    ensures offer { (m : MemberState) (name : List ℕ) (items : List Tagged) (now : ℕ) → AllByRecursion (λ (c : Chunk). no_delta c.kind ≡ true) (offer_adds m name items now) }
    ensures offset { (m : MemberState) (name : List ℕ) (offset now : ℕ) → (snapshots : List Chunk) × (offset_adds m name offset now ≡ offset_chunk m.promise (stamp_at now) (end_of (sequence_of m)) name offset ∷ snapshots) × AllByRecursion (λ (c : Chunk). c.kind ≡ Snapshot) snapshots }
{}
