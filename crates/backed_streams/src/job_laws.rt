//! The disks of a stream, over its jobs and over crashes.

ghost use Rattle.std.specs.Prelude.{◌≡◌, ◌≢◌, ◌<◌, ℕ, true, Some, Result, Ok};
ghost use Rattle.disk_calls.specs.Disk.{LeftByCrash};
ghost use Rattle.disk_calls.specs.Frames.{OtherStreams};
ghost use Rattle.gated_words.specs.InHand.{InHand};
ghost use Rattle.epoch_coordinator.specs.declared.message.Job.{Job};
ghost use Rattle.replication_laws.specs.Cluster.{ClusterState, Holds, IsMember, member, seat};
ghost use Rattle.cluster_core.specs.declared.outcome.Outcome.{Outcome};
ghost use Rattle.cluster_core.specs.declared.outcome.Outcome.TheVariants.{Did};
ghost use Rattle.cluster_core.specs.States.{Gives, IsStream, ReplicaState, done_due, number_at};
ghost use Rattle.cluster_core.specs.Kept.{after_stop};
ghost use Rattle.segment_store.specs.declared.fault.StoreFault.{StoreFault};
ghost use Rattle.segment_store.specs.Receipts.{JobDone};
ghost use Rattle.segment_store.specs.Words.{epochs_file};
ghost use Rattle.segment_store.specs.Stores.{Continues, ContinuesLog, StoreInHand};
ghost use Rattle.backed_streams.specs.Backing.{AllInHand, Backed, IsInHand, OthersStay};
ghost use Rattle.backed_streams.specs.Doing.{CoordinatorDoes, DoneOrStop, EpochTold, MemberDoes};

use disk_calls::Disk;

/// The pending job of a member of a sound stream continues its log, so its store can do it; and the disk of the member may
/// have its log. It does nothing.
pub fn pending_jobs_can_be_done<D: Disk>()
    ensures log { (k : ℕ) (w : ClusterState) (job : Job) → IsStream w → (member w k).job ≡ Some job → ContinuesLog (member w k).log job }
    ensures store { (stream k : ℕ) (w : ClusterState) (job : Job) (store : StoreInHand) (d : D) → IsStream w → (member w k).job ≡ Some job → IsInHand stream (member w k) store (D.state d) → Continues store job }
    ensures own { (k : ℕ) (w : ClusterState) → IsStream w → Holds (member w k) (member w k).log }
{}

/// A member's store does the member's pending job over its disk: whatever its answer, the disks belong to the stream; and
/// they do when the receipt of the job then comes to the stream, or the member stops, whatever came of that. Where that
/// happened, the stores of those that are up are in hand. The receipt of a job that was done by its number is due. What
/// belongs to another stream stays so. It does nothing.
pub fn members_jobs_keep_streams_backed<D: Disk>()
    ensures left { (stream k : ℕ) (w : ClusterState) (job : Job) (number : ℕ) (result : Result JobDone StoreFault) (stores now : ℕ → StoreInHand) (old new : ℕ → D)
        → IsStream w → MemberDoes D D.state stream k w job number result stores now old new → Backed stream w (λ j. D.state (old j)) → Backed stream w (λ j. D.state (new j)) }
    ensures then { (stream k : ℕ) (due came : Outcome) (r after : ReplicaState) (job : Job) (number : ℕ) (result : Result JobDone StoreFault) (stores now : ℕ → StoreInHand) (old new : ℕ → D)
        → IsStream r.cluster → MemberDoes D D.state stream k r.cluster job number result stores now old new → DoneOrStop result k due came r after → Backed stream r.cluster (λ j. D.state (old j)) → Backed stream after.cluster (λ j. D.state (new j)) }
    ensures due { (stream k : ℕ) (r : ReplicaState) (job : Job) (number : ℕ) (receipt : JobDone) (stores now : ℕ → StoreInHand) (old new : ℕ → D)
        → IsStream r.cluster → MemberDoes D D.state stream k r.cluster job number (Ok receipt) stores now old new → (seat r.cluster k).up ≡ true → number ≡ number_at r k → (receipt.stream ≡ stream) × (done_due receipt.member receipt.number r ≡ Did) }
    ensures in_hand { (stream k : ℕ) (due : Outcome) (r after : ReplicaState) (job : Job) (number : ℕ) (result : Result JobDone StoreFault) (stores now : ℕ → StoreInHand) (old new : ℕ → D)
        → IsStream r.cluster → MemberDoes D D.state stream k r.cluster job number result stores now old new → DoneOrStop result k due Did r after → AllInHand stream r.cluster stores (λ j. D.state (old j)) → AllInHand stream after.cluster now (λ j. D.state (new j)) }
    ensures apart { D.tells → (stream of k : ℕ) (w : ClusterState) (old new : ℕ → D) → 0 < k → stream ≢ of → OthersStay k old new → OtherStreams of (D.state (old k)) (D.state (new k)) → Backed stream w (λ j. D.state (old j)) → Backed stream w (λ j. D.state (new j)) }
    ensures apart_in_hand { (stream of k : ℕ) (w : ClusterState) (stores : ℕ → StoreInHand) (old new : ℕ → D) → stream ≢ of → OthersStay k old new → OtherStreams of (D.state (old k)) (D.state (new k)) → AllInHand stream w stores (λ j. D.state (old j)) → AllInHand stream w stores (λ j. D.state (new j)) }
{}

/// The same of the coordinator's pending job, the store of epochs, and disk 0. It does nothing.
pub fn coordinators_jobs_keep_streams_backed<D: Disk>()
    ensures left { (stream : ℕ) (w : ClusterState) (epoch number : ℕ) (result : Result JobDone StoreFault) (hand now : InHand) (old new : ℕ → D)
        → CoordinatorDoes D D.state stream w epoch number result hand now old new → Backed stream w (λ j. D.state (old j)) → Backed stream w (λ j. D.state (new j)) }
    ensures then { (stream : ℕ) (due came : Outcome) (r after : ReplicaState) (epoch number : ℕ) (result : Result JobDone StoreFault) (hand now : InHand) (old new : ℕ → D)
        → CoordinatorDoes D D.state stream r.cluster epoch number result hand now old new → DoneOrStop result 0 due came r after → Backed stream r.cluster (λ j. D.state (old j)) → Backed stream after.cluster (λ j. D.state (new j)) }
    ensures due { (stream : ℕ) (r : ReplicaState) (epoch number : ℕ) (receipt : JobDone) (hand now : InHand) (old new : ℕ → D)
        → CoordinatorDoes D D.state stream r.cluster epoch number (Ok receipt) hand now old new → r.cluster.coordinator_up ≡ true → number ≡ number_at r 0 → (receipt.stream ≡ stream) × (done_due receipt.member receipt.number r ≡ Did) }
    ensures in_hand { (stream : ℕ) (due came : Outcome) (r after : ReplicaState) (epoch number : ℕ) (result : Result JobDone StoreFault) (hand now : InHand) (stores : ℕ → StoreInHand) (old new : ℕ → D)
        → CoordinatorDoes D D.state stream r.cluster epoch number result hand now old new → DoneOrStop result 0 due came r after → AllInHand stream r.cluster stores (λ j. D.state (old j)) → AllInHand stream after.cluster stores (λ j. D.state (new j)) }
    ensures apart { (stream other epoch number : ℕ) (w : ClusterState) (result : Result JobDone StoreFault) (hand now : InHand) (old new : ℕ → D)
        → hand.id ≡ epochs_file → stream ≢ other → EpochTold stream epoch number hand now result (D.state (old 0)) (D.state (new 0)) → OthersStay 0 old new → Backed other w (λ j. D.state (old j)) → Backed other w (λ j. D.state (new j)) }
{}

/// The disks belong to a stream after a crash of one of them, of whatever stream's files, and when who has that disk then
/// stops; and after crashes of all of them. Behind a stop the stores of the others are in hand. It does nothing.
pub fn crashes_keep_streams_backed<D: Disk>()
    ensures one { (stream of k : ℕ) (w : ClusterState) (old new : ℕ → D) → OthersStay k old new → LeftByCrash of (D.state (old k)) (D.state (new k)) → Backed stream w (λ j. D.state (old j)) → Backed stream w (λ j. D.state (new j)) }
    ensures stop { (stream of k : ℕ) (due came : Outcome) (r after : ReplicaState) (old new : ℕ → D)
        → OthersStay k old new → LeftByCrash of (D.state (old k)) (D.state (new k)) → Gives due came r after (after_stop k r) → Backed stream r.cluster (λ j. D.state (old j)) → Backed stream after.cluster (λ j. D.state (new j)) }
    ensures all { (stream : ℕ) (of : ℕ → ℕ) (w : ClusterState) (old new : ℕ → D) → ((k : ℕ) → LeftByCrash (of k) (D.state (old k)) (D.state (new k))) → Backed stream w (λ j. D.state (old j)) → Backed stream w (λ j. D.state (new j)) }
    ensures in_hand { (stream k : ℕ) (due : Outcome) (r after : ReplicaState) (stores now : ℕ → StoreInHand) (old new : ℕ → D)
        → OthersStay k stores now → OthersStay k old new → ((j : ℕ) → j ≢ k → IsMember r.cluster j → (seat r.cluster j).up ≡ true → IsInHand stream (member r.cluster j) (stores j) (D.state (old j)))
        → Gives due Did r after (after_stop k r) → AllInHand stream after.cluster now (λ j. D.state (new j)) }
{}
