//! The disks of a stream, over what recovery gives of them.

ghost use Rattle.std.specs.Prelude.{◌≡◌, ◌<◌, ◌≤◌, ◌+◌, ℕ, false, List, length};
ghost use Rattle.chunk_format.specs.declared.chunk.Chunk.{Chunk};
ghost use Rattle.gated_words.specs.Backing.{KeepsPairs};
ghost use Rattle.epoch_coordinator.specs.MemberSteps.{restarted};
ghost use Rattle.replication_laws.specs.Cluster.{ClusterState, Holds, IsMember, MayPromise, member, seat};
ghost use Rattle.replication_laws.specs.Events.{ClusterStep, MayBegin, comes_up, reopens};
ghost use Rattle.replication_laws.specs.Openings.{IsRecovered, Start, no_start, opened_cluster, start_at};
ghost use Rattle.cluster_core.specs.declared.outcome.Outcome.{Outcome};
ghost use Rattle.cluster_core.specs.declared.outcome.Outcome.TheVariants.{Did};
ghost use Rattle.cluster_core.specs.States.{Gives, ReplicaState, reopen_due};
ghost use Rattle.cluster_core.specs.Kept.{after_reopen};
ghost use Rattle.segment_store.specs.Recoverable.{NoFiles};
ghost use Rattle.segment_store.specs.Words.{EachWord, epochs_file};
ghost use Rattle.segment_store.specs.Stores.{EachHolds, KeepsStore, StoreInHand};
ghost use Rattle.backed_streams.specs.Backing.{AllInHand, Backed, IsInHand, OthersStay};

use disk_calls::Disk;

/// The recovery of a member's store leaves disks that belong to the stream, whatever its answer. What it gives is what the
/// member's disk may have, so the member may come up with it, which is an event; then the disks belong to the stream, and
/// the stores of those that are up are in hand. It does nothing.
pub fn recovered_members_return<D: Disk>()
    ensures left { (stream k : ℕ) (w : ClusterState) (old new : ℕ → D) → 0 < k → OthersStay k old new → KeepsStore stream (D.state (old k)) (D.state (new k)) → Backed stream w (λ j. D.state (old j)) → Backed stream w (λ j. D.state (new j)) }
    ensures may { D.tells → (stream k promise : ℕ) (chunks : List Chunk) (w : ClusterState) (old : ℕ → D) (d : D)
        → IsMember w k → KeepsStore stream (D.state (old k)) (D.state d) → EachHolds stream chunks promise (D.state d) → Backed stream w (λ j. D.state (old j)) → Holds (member w k) chunks × MayPromise (member w k) promise }
    ensures step { D.tells → (now stream k promise : ℕ) (chunks : List Chunk) (w : ClusterState) (old : ℕ → D) (d : D)
        → IsMember w k → (seat w k).up ≡ false → KeepsStore stream (D.state (old k)) (D.state d) → EachHolds stream chunks promise (D.state d) → Backed stream w (λ j. D.state (old j)) → ClusterStep now w (comes_up k promise chunks w) }
    ensures backed { (stream k promise : ℕ) (chunks : List Chunk) (w : ClusterState) (old new : ℕ → D)
        → 0 < k → OthersStay k old new → EachHolds stream chunks promise (D.state (new k)) → Backed stream w (λ j. D.state (old j)) → Backed stream (comes_up k promise chunks w) (λ j. D.state (new j)) }
    ensures in_hand { (stream k promise : ℕ) (chunks : List Chunk) (w : ClusterState) (stores now : ℕ → StoreInHand) (old new : ℕ → D)
        → OthersStay k stores now → OthersStay k old new → IsInHand stream (restarted (length w.seats) k promise chunks) (now k) (D.state (new k)) → AllInHand stream w stores (λ j. D.state (old j)) → AllInHand stream (comes_up k promise chunks w) now (λ j. D.state (new j)) }
{}

/// The same of the store of epochs, over disk 0, and the coordinator. It does nothing.
pub fn recovered_coordinators_return<D: Disk>()
    ensures left { (stream : ℕ) (w : ClusterState) (old new : ℕ → D) → OthersStay 0 old new → KeepsPairs epochs_file (D.state (old 0)) (D.state (new 0)) → Backed stream w (λ j. D.state (old j)) → Backed stream w (λ j. D.state (new j)) }
    ensures may { D.tells → (stream epoch : ℕ) (w : ClusterState) (old : ℕ → D) (d : D)
        → KeepsPairs epochs_file (D.state (old 0)) (D.state d) → EachWord epochs_file stream (λ word. word ≡ epoch) (D.state d) → Backed stream w (λ j. D.state (old j)) → MayBegin w.coordinator epoch }
    ensures due { D.tells → (stream epoch : ℕ) (w : ClusterState) (old : ℕ → D) (d : D)
        → w.coordinator_up ≡ false → KeepsPairs epochs_file (D.state (old 0)) (D.state d) → EachWord epochs_file stream (λ word. word ≡ epoch) (D.state d) → Backed stream w (λ j. D.state (old j)) → reopen_due epoch w ≡ Did }
    ensures step { D.tells → (now stream epoch : ℕ) (w : ClusterState) (old : ℕ → D) (d : D)
        → w.coordinator_up ≡ false → KeepsPairs epochs_file (D.state (old 0)) (D.state d) → EachWord epochs_file stream (λ word. word ≡ epoch) (D.state d) → Backed stream w (λ j. D.state (old j)) → ClusterStep now w (reopens epoch w) }
    ensures then { (stream epoch : ℕ) (due came : Outcome) (r after : ReplicaState) (old new : ℕ → D)
        → OthersStay 0 old new → KeepsPairs epochs_file (D.state (old 0)) (D.state (new 0)) → EachWord epochs_file stream (λ word. word ≡ epoch) (D.state (new 0)) → Gives due came r after (after_reopen epoch r)
        → Backed stream r.cluster (λ j. D.state (old j)) → Backed stream after.cluster (λ j. D.state (new j)) }
{}

/// A stream that is opened over disks with just its logs, its promises and its epoch has disks that belong to it; a new one
/// of epoch 0 has over disks without files. What recovery of all disks of a stream gives is what the stream left, so it may
/// be opened again over that, with all that was kept. It does nothing.
pub fn opened_streams_are_backed<D: Disk>()
    ensures opened { (stream epoch : ℕ) (starts : List Start) (disks : ℕ → D)
        → ((i : ℕ) → i < length starts → EachHolds stream (start_at starts i).log (start_at starts i).promise (D.state (disks (i + 1)))) → EachWord epochs_file stream (λ word. word ≡ epoch) (D.state (disks 0)) → Backed stream (opened_cluster epoch starts) (λ j. D.state (disks j)) }
    ensures in_hand { (stream epoch : ℕ) (starts : List Start) (stores : ℕ → StoreInHand) (disks : ℕ → D)
        → ((i : ℕ) → i < length starts → IsInHand stream (restarted (length starts) (i + 1) (start_at starts i).promise (start_at starts i).log) (stores (i + 1)) (D.state (disks (i + 1)))) → AllInHand stream (opened_cluster epoch starts) stores (λ j. D.state (disks j)) }
    ensures new { (stream : ℕ) (starts : List Start) (disks : ℕ → D)
        → ((i : ℕ) → start_at starts i ≡ no_start) → ((k : ℕ) → 0 < k → k ≤ length starts → NoFiles stream (D.state (disks k))) → EachWord epochs_file stream (λ word. word ≡ 0) (D.state (disks 0)) → Backed stream (opened_cluster 0 starts) (λ j. D.state (disks j)) }
    ensures again { D.tells → (stream epoch : ℕ) (w : ClusterState) (starts : List Start) (old new : ℕ → D)
        → length starts ≡ length w.seats → ((k : ℕ) → KeepsStore stream (D.state (old k)) (D.state (new k))) → KeepsPairs epochs_file (D.state (old 0)) (D.state (new 0))
        → ((i : ℕ) → i < length starts → EachHolds stream (start_at starts i).log (start_at starts i).promise (D.state (new (i + 1)))) → EachWord epochs_file stream (λ word. word ≡ epoch) (D.state (new 0))
        → Backed stream w (λ j. D.state (old j)) → IsRecovered w starts epoch }
{}
