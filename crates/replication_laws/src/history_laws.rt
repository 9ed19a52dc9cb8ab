//! What stands in a log was sent.

ghost use Rattle.std.specs.Prelude.{◌≡◌, ℕ, ◌^◌, ◌<◌, List, [], ◌∷◌, ◌++◌, length};
ghost use Rattle.std.specs.List.{All};
ghost use Rattle.chunk_format.specs.declared.chunk.Chunk.{Chunk};
ghost use Rattle.chunk_format.specs.Chunks.{IsChunk};
ghost use Rattle.chunk_format.specs.Tags.{IsName};
ghost use Rattle.epoch_coordinator.specs.Members.{sequence_of};
ghost use Rattle.epoch_coordinator.specs.MemberSteps.{stamp_at};
ghost use Rattle.epoch_coordinator.specs.Offers.{Item, offered_chunks, stored_chunks};
ghost use Rattle.replication_laws.specs.Cluster.{ClusterState, member, RunsWith};
ghost use Rattle.replication_laws.specs.Events.{IsOffer, gets, AnyStep};
ghost use Rattle.replication_laws.specs.Soundness.{IsSound};
ghost use Rattle.replication_laws.specs.Properties.{IsLogProperty, SoundWith};
ghost use Rattle.replication_laws.specs.Histories.{Declaration, History, WasSent, Grown, IsReached, sends, with_items, with_bare, with_offset};

/// What stands in any log was sent, for a history of what was sent that grows with offers; and all items of a declaration
/// are reached in the open leader's sequence while its epoch runs: after each offer of it, and over all that happens. It
/// does nothing.
pub fn what_stands_was_sent()
    ensures property { (h : History) → IsLogProperty (WasSent h) }
    ensures grows { (h h' : History) (log : List Chunk) → Grown h h' → WasSent h log → WasSent h' log }
    ensures named { (opened now epoch k : ℕ) (w w' : ClusterState) (d : Declaration) (items : List Item) (h : History) (before behind : List Declaration)
        → 0 < length d.name → SoundWith (WasSent h) opened w → RunsWith w epoch k → IsReached d (sequence_of (member w k)) → h.declarations ≡ before ++ d ∷ behind
        → IsOffer d.name items → All IsChunk (offered_chunks epoch (stamp_at now) d.name (sequence_of (member w k)) items) → w' ≡ gets k (offered_chunks epoch (stamp_at now) d.name (sequence_of (member w k)) items) w
        → SoundWith (WasSent (with_items before d behind items h)) opened w' × IsReached (sends d items) (sequence_of (member w' k)) }
    ensures unnamed { (opened now epoch k : ℕ) (w w' : ClusterState) (items : List Item) (h : History) → SoundWith (WasSent h) opened w → RunsWith w epoch k
        → IsOffer [] items → All IsChunk (offered_chunks epoch (stamp_at now) [] (sequence_of (member w k)) items) → w' ≡ gets k (offered_chunks epoch (stamp_at now) [] (sequence_of (member w k)) items) w
        → SoundWith (WasSent (with_bare items h)) opened w' }
    ensures offset { (opened now epoch k : ℕ) (w w' : ClusterState) (name : List ℕ) (offset : ℕ) (h : History) → IsName name → offset < 2 ^ 64 → SoundWith (WasSent h) opened w → RunsWith w epoch k
        → All IsChunk (stored_chunks epoch (stamp_at now) name offset (sequence_of (member w k))) → w' ≡ gets k (stored_chunks epoch (stamp_at now) name offset (sequence_of (member w k))) w
        → SoundWith (WasSent (with_offset name offset h)) opened w' }
    ensures reached { (opened epoch k l : ℕ) (w w' : ClusterState) (d : Declaration) → IsSound opened w → AnyStep w w' → RunsWith w epoch k → RunsWith w' epoch l → IsReached d (sequence_of (member w k)) → IsReached d (sequence_of (member w' l)) }
    ensures new { (name : List ℕ) (log : List Chunk) → IsReached (record { name = name; items = [] }) log }
{}
