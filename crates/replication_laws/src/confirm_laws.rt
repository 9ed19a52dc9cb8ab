//! What confirms rest on: a layer above the events, none of which knows of it.

ghost use Rattle.std.specs.Prelude.{◌≡◌, ℕ, ℤ, ◌<◌, ◌≤◌, List, ◌++◌, map};
ghost use Rattle.chunk_format.specs.declared.chunk.Chunk.{Chunk};
ghost use Rattle.chunk_format.specs.declared.entry.Entry.{Entry};
ghost use Rattle.epoch_coordinator.specs.Offers.{Item, offered_chunks};
ghost use Rattle.chunk_format.specs.Logs.{GoesOn, end_of, IsLog};
ghost use Rattle.epoch_coordinator.specs.Members.{sequence_of};
ghost use Rattle.replication_laws.specs.Cluster.{ClusterState, member, RunsWith};
ghost use Rattle.replication_laws.specs.Events.{IsOffer, ClusterStep, OfferStep, AnyStep};
ghost use Rattle.replication_laws.specs.Soundness.{IsSound};
ghost use Rattle.replication_laws.specs.Confirms.{Stands, Awaits, IsGiven, IsBehind, Caused};

/// While an epoch runs with an open leader, that leader stays the same and its sequence stays over every event; an offer
/// goes behind it. The sequence is a log, and the committed list begins it. It does nothing.
pub fn an_open_leaders_sequence_stays()
    ensures event { (opened now epoch k l : ℕ) (w w' : ClusterState) → IsSound opened w → ClusterStep now w w' → RunsWith w epoch k → RunsWith w' epoch l → (k ≡ l) × (sequence_of (member w' l) ≡ sequence_of (member w k)) }
    ensures offer { (opened now : ℕ) (w w' : ClusterState) → IsSound opened w → OfferStep now w w' → IsBehind w w' }
    ensures log { (opened epoch k : ℕ) (w : ClusterState) → IsSound opened w → RunsWith w epoch k → IsLog (sequence_of (member w k)) }
    ensures begins { (opened epoch k : ℕ) (w : ClusterState) → IsSound opened w → RunsWith w epoch k → GoesOn w.committed (sequence_of (member w k)) }
{}

/// What an offer's confirm claims of the leader's sequence as it is after the offer, and of the committed list once that
/// reaches its end.
pub trait Claim {
    ghost says: { List Chunk → Type 0 };
}

/// A claim that is true of the open leader's sequence stands at once where the committed list reaches its end, and else
/// waits. What waits stands in the running leader's sequence: after any step it stands in the committed list where that
/// reaches its end, and else waits on where its epoch runs on with an open leader. What stands stays. What was given and
/// not dropped ends within the sequence, so ranges don't overlap. It does nothing.
pub fn claims_wait_and_stand<C: Claim>()
    ensures made { (opened epoch k : ℕ) (w : ClusterState) → IsSound opened w → RunsWith w epoch k → C.says (sequence_of (member w k))
        → (end_of (sequence_of (member w k)) ≤ end_of w.committed → Stands C.says (end_of (sequence_of (member w k))) w.committed)
        × (end_of w.committed < end_of (sequence_of (member w k)) → Awaits C.says epoch (end_of (sequence_of (member w k))) w) }
    ensures moved { (opened epoch end : ℕ) (w w' : ClusterState) → IsSound opened w → AnyStep w w' → Awaits C.says epoch end w
        → (end ≤ end_of w'.committed → Stands C.says end w'.committed) × ((l : ℕ) → end_of w'.committed < end → RunsWith w' epoch l → Awaits C.says epoch end w') }
    ensures stays { (opened end : ℕ) (w w' : ClusterState) → IsSound opened w → AnyStep w w' → Stands C.says end w.committed → Stands C.says end w'.committed }
    ensures within { (opened epoch k end : ℕ) (w : ClusterState) → IsSound opened w → RunsWith w epoch k → IsGiven C.says end w → end ≤ end_of (sequence_of (member w k)) }
{}

/// The confirm of an offer claims what is true of the leader's sequence after the offer: without a name its entries are
/// the untagged rows of its own range, in order; with one each of its ids is at most the greatest. Where that stands in a
/// log it is true of the log. It does nothing.
pub fn an_offer_is_what_its_confirm_claims()
    ensures offer { (epoch : ℕ) (stamp : ℤ) (name : List ℕ) (list : List Chunk) (items : List Item) → IsOffer name items → IsLog (list ++ offered_chunks epoch stamp name list items)
        → Caused name (map (λ (i : Item). i.id) items) (map (λ (i : Item). i.entry) items) (end_of list) (end_of (list ++ offered_chunks epoch stamp name list items)) (list ++ offered_chunks epoch stamp name list items) }
    ensures stands { (name ids : List ℕ) (entries : List Entry) (from end : ℕ) (list : List Chunk) → IsLog list → Stands (Caused name ids entries from end) end list → Caused name ids entries from end list }
{}
