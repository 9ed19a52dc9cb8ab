//! The disks of a stream, over what touches none of them.

ghost use Rattle.std.specs.Prelude.{◌≡◌, ℕ};
ghost use Rattle.replication_laws.specs.Cluster.{ClusterState, IsMember, member};
ghost use Rattle.replication_laws.specs.Events.{OfferStep};
ghost use Rattle.cluster_core.specs.States.{ReplicaState};
ghost use Rattle.segment_store.specs.Stores.{StoreInHand};
ghost use Rattle.backed_streams.specs.Backing.{AllInHand, Backed, BackedEpoch, BackedMember, OthersStay};
ghost use Rattle.backed_streams.specs.Doing.{QuietEvent};

use disk_calls::Disk;

/// The disks belong to a stream over each event that touches no disk, a stop among them, and over each offer and stored
/// offset; and the stores in hand are those of the members that are up. It does nothing.
pub fn quiet_events_keep_streams_backed<D: Disk>()
    ensures event { (stream now : ℕ) (r after : ReplicaState) (disks : ℕ → D) → QuietEvent now r after → Backed stream r.cluster (λ j. D.state (disks j)) → Backed stream after.cluster (λ j. D.state (disks j)) }
    ensures event_in_hand { (stream now : ℕ) (r after : ReplicaState) (stores : ℕ → StoreInHand) (disks : ℕ → D) → QuietEvent now r after → AllInHand stream r.cluster stores (λ j. D.state (disks j)) → AllInHand stream after.cluster stores (λ j. D.state (disks j)) }
    ensures offer { (stream now : ℕ) (w after : ClusterState) (disks : ℕ → D) → OfferStep now w after → Backed stream w (λ j. D.state (disks j)) → Backed stream after (λ j. D.state (disks j)) }
    ensures offer_in_hand { (stream now : ℕ) (w after : ClusterState) (stores : ℕ → StoreInHand) (disks : ℕ → D) → OfferStep now w after → AllInHand stream w stores (λ j. D.state (disks j)) → AllInHand stream after stores (λ j. D.state (disks j)) }
{}

/// Where one disk changes and still belongs to its member, or to the coordinator, the disks belong to the stream. It does
/// nothing.
pub fn one_disk_changes<D: Disk>()
    ensures { (stream k : ℕ) (w : ClusterState) (old new : ℕ → D) → OthersStay k old new → (IsMember w k → BackedMember stream (member w k) (D.state (new k))) → (k ≡ 0 → BackedEpoch stream w.coordinator (D.state (new k)))
        → Backed stream w (λ j. D.state (old j)) → Backed stream w (λ j. D.state (new j)) }
{}
