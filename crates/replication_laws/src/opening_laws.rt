//! What holds of a stream that is opened.

ghost use Rattle.std.specs.Prelude.{◌≡◌, ℕ, ◌<◌, List, length, map, Option};
ghost use Rattle.chunk_format.specs.declared.chunk.Chunk.{Chunk};
ghost use Rattle.chunk_format.specs.Logs.{IsLog};
ghost use Rattle.epoch_coordinator.specs.declared.tail.Tail.{Tail};
ghost use Rattle.epoch_coordinator.specs.Coordinators.{is_told, electors_of};
ghost use Rattle.replication_laws.specs.Majorities.{flags_of};
ghost use Rattle.replication_laws.specs.Cluster.{ClusterState};
ghost use Rattle.replication_laws.specs.Openings.{Start, start_at, opened_cluster, IsWhole, Diverges, Agrees, CanStart, IsRecovered};
ghost use Rattle.replication_laws.specs.Soundness.{Kept, IsSound};

/// The first state over logs that pass the tests is sound; logs that agree don't diverge. It does nothing.
pub fn openings_are_sound()
    ensures sound { (epoch : ℕ) (starts : List Start) → CanStart epoch starts → IsSound epoch (opened_cluster epoch starts) }
    ensures agreed { (a b : List Chunk) (offset : ℕ) → IsLog a → IsLog b → Agrees a b → Diverges a b offset → ⊥ }
{}

/// What a sound stream leaves on its disks passes the tests of an opening; the stream that is opened over it is sound,
/// and each list that was kept is kept. It does nothing.
pub fn what_is_left_is_opened_again()
    ensures whole { (opened epoch i : ℕ) (w : ClusterState) (starts : List Start) → IsSound opened w → IsRecovered w starts epoch → i < length starts → IsWhole epoch (start_at starts i) }
    ensures none_diverges { (opened epoch i j offset : ℕ) (w : ClusterState) (starts : List Start) → IsSound opened w → IsRecovered w starts epoch → i < length starts → j < length starts → Diverges (start_at starts i).log (start_at starts j).log offset → ⊥ }
    ensures sound { (opened epoch : ℕ) (w : ClusterState) (starts : List Start) → IsSound opened w → IsRecovered w starts epoch → IsSound epoch (opened_cluster epoch starts) }
    ensures kept { (opened epoch : ℕ) (w : ClusterState) (starts : List Start) (list : List Chunk) → IsSound opened w → IsRecovered w starts epoch → Kept w list → Kept (opened_cluster epoch starts) list }
{}

/// The bits that stand for the electors of an epoch are the flags of those that told their tails. It does nothing.
pub fn electors_are_flags()
    ensures { (told : List (Option Tail)) → flags_of (length told) (electors_of told) ≡ map is_told told }
{}
