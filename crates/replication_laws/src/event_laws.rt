//! What holds over every event.

ghost use Rattle.std.specs.Prelude.{◌≡◌, ℕ, ◌≤◌, true, Some, List};
ghost use Rattle.std.specs.List.{AllByRecursion};
ghost use Rattle.chunk_format.specs.declared.chunk.Chunk.{Chunk};
ghost use Rattle.chunk_format.specs.Logs.{GoesOn, end_of};
ghost use Rattle.epoch_coordinator.specs.declared.message.Sent.{Sent};
ghost use Rattle.epoch_coordinator.specs.MemberSteps.{taken, finished, commit_end};
ghost use Rattle.replication_laws.specs.Cluster.{ClusterState, seat, member, IsMember, put, send, letter_in, marked, RunsWith};
ghost use Rattle.replication_laws.specs.Events.{committed_by, IsFree, ClusterStep, OfferStep, AnyStep, Steps};
ghost use Rattle.replication_laws.specs.Soundness.{Kept, IsSound, IsSoundBeforeCommit, StaysKept};

/// Each event and each offer leaves a sound stream sound, whatever the order, loss or repeat of messages and whoever
/// stops and comes back, for any number of members. It does nothing.
pub fn events_keep_soundness()
    ensures event { (opened now : ℕ) (w w' : ClusterState) → IsSound opened w → ClusterStep now w w' → IsSound opened w' }
    ensures offer { (opened now : ℕ) (w w' : ClusterState) → IsSound opened w → OfferStep now w w' → IsSound opened w' }
    ensures run { (opened : ℕ) (w : ClusterState) (run : List ClusterState) → IsSound opened w → Steps w run → AllByRecursion (IsSound opened) run }
{}

/// A kept list stays kept, and one of it and each later committed list begins the other; both are kept. It does
/// nothing.
pub fn kept_lists_stay_kept()
    ensures step { (opened : ℕ) (w w' : ClusterState) (list : List Chunk) → IsSound opened w → AnyStep w w' → Kept w list → StaysKept list w' }
    ensures run { (opened : ℕ) (w : ClusterState) (run : List ClusterState) (list : List Chunk) → IsSound opened w → Steps w run → Kept w list → AllByRecursion (StaysKept list) run }
    ensures committed { (opened : ℕ) (w : ClusterState) → IsSound opened w → Kept w w.committed }
{}

/// The committed list only grows. It does nothing.
pub fn the_committed_list_only_grows()
    ensures step { (opened : ℕ) (w w' : ClusterState) → IsSound opened w → AnyStep w w' → GoesOn w.committed w'.committed }
    ensures run { (opened : ℕ) (w : ClusterState) (run : List ClusterState) → IsSound opened w → Steps w run → AllByRecursion (λ x. GoesOn w.committed x.committed) run }
{}

/// The committed list begins the log of the open leader of the running epoch. It does nothing.
pub fn the_committed_list_begins_the_open_leaders_log()
    ensures { (opened epoch leader : ℕ) (w : ClusterState) → IsSound opened w → RunsWith w epoch leader → GoesOn w.committed (member w leader).log }
{}

/// The committed list reaches the commit end of each member that is up, of an older leader too. It does nothing.
pub fn the_committed_list_reaches_what_is_due()
    ensures { (opened k : ℕ) (w : ClusterState) → IsSound opened w → IsMember w k → (seat w k).up ≡ true → commit_end (member w k) ≤ end_of w.committed }
{}

/// After a member took a message or finished its job the stream is sound but for the commit that is due at it; and what
/// is then committed always goes on from the committed list, so no one has to look whether it does. It does nothing.
pub fn members_are_sound_before_their_commit()
    ensures taken { (opened now number k : ℕ) (w : ClusterState) (s : Sent) → IsSound opened w → letter_in number w.mail ≡ Some s → s.to ≡ k → IsMember w k → IsFree w k
        → IsSoundBeforeCommit opened (send (put (record w { mail = marked number w.mail }) k (record { up = true; state = (taken now s.message (member w k)).state })) (taken now s.message (member w k)).sent) }
    ensures finished { (opened k : ℕ) (w : ClusterState) → IsSound opened w → IsMember w k → (seat w k).up ≡ true
        → IsSoundBeforeCommit opened (send (put w k (record { up = true; state = (finished (member w k)).state })) (finished (member w k)).sent) }
    ensures extends { (opened k : ℕ) (w : ClusterState) → IsSoundBeforeCommit opened w → IsMember w k → GoesOn w.committed (committed_by w.committed (member w k)) }
{}
