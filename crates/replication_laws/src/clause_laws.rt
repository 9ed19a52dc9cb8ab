//! What soundness says of holdings, messages and reigns.

ghost use Rattle.std.specs.Prelude.{ℕ};
ghost use Rattle.replication_laws.specs.Cluster.{ClusterState};
ghost use Rattle.replication_laws.specs.Soundness.{Kept, IsSound};
ghost use Rattle.replication_laws.specs.Clauses.{Bounded, OccurrencesAgree, EpochsOpen, LeadersLead, ElectionsAreStill, AsksAreTrue};

/// A sound stream, in the words of the protocol: epochs are bounded; a chunk that occurs twice is the same, behind the same
/// tail; an epoch opens everywhere behind the runs of its reign; leaders lead; elections are still; Asks are true; and the
/// committed list is kept. It does nothing.
pub fn a_sound_stream()
    ensures bounded { (opened : ℕ) (w : ClusterState) → IsSound opened w → Bounded w }
    ensures occurrences { (opened : ℕ) (w : ClusterState) → IsSound opened w → OccurrencesAgree w }
    ensures epochs { (opened : ℕ) (w : ClusterState) → IsSound opened w → EpochsOpen opened w }
    ensures leaders { (opened : ℕ) (w : ClusterState) → IsSound opened w → LeadersLead w }
    ensures elections { (opened : ℕ) (w : ClusterState) → IsSound opened w → ElectionsAreStill w }
    ensures asks { (opened : ℕ) (w : ClusterState) → IsSound opened w → AsksAreTrue w }
    ensures committed { (opened : ℕ) (w : ClusterState) → IsSound opened w → Kept w w.committed }
{}
