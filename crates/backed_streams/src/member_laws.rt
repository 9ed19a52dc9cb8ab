//! The disk of one member.

ghost use Rattle.std.specs.Prelude.{◌≡◌, ◌≢◌, ℕ, List, [], Result, Ok, Some};
ghost use Rattle.disk_calls.specs.Disk.{LeftByCrash, Looks};
ghost use Rattle.disk_calls.specs.Frames.{OtherStreams};
ghost use Rattle.chunk_format.specs.declared.chunk.Chunk.{Chunk};
ghost use Rattle.chunk_format.specs.Logs.{IsLog};
ghost use Rattle.epoch_coordinator.specs.declared.message.Job.{Job};
ghost use Rattle.epoch_coordinator.specs.Members.{MemberState};
ghost use Rattle.epoch_coordinator.specs.MemberSteps.{finished, restarted};
ghost use Rattle.replication_laws.specs.Cluster.{Holds, MayPromise};
ghost use Rattle.segment_store.specs.declared.fault.StoreFault.{StoreFault};
ghost use Rattle.segment_store.specs.Receipts.{JobDone};
ghost use Rattle.segment_store.specs.Recoverable.{NoFiles};
ghost use Rattle.segment_store.specs.Stores.{BackedStore, ContinuesLog, EachHolds, KeepsStore, StoreInHand, promise_of};
ghost use Rattle.backed_streams.specs.Backing.{BackedMember, IsInHand};
ghost use Rattle.backed_streams.specs.Doing.{JobTold};

use disk_calls::Disk;

/// A disk whose images have the log and the promise of a member belongs to it, as does one that is what is in hand of its
/// store; and it does while each image has what one from before had: after calls that only look, after a crash, and while
/// only other streams' files change. A disk without files of a stream has no chunks and no promise. It does nothing.
pub fn members_disks_stay_backed<D: Disk>()
    ensures holds { (stream : ℕ) (m : MemberState) (d : D) → Holds m m.log → EachHolds stream m.log m.promise (D.state d) → BackedMember stream m (D.state d) }
    ensures in_hand { (stream : ℕ) (m : MemberState) (store : StoreInHand) (d : D) → Holds m m.log → IsInHand stream m store (D.state d) → BackedMember stream m (D.state d) }
    ensures none { (stream : ℕ) (d : D) → NoFiles stream (D.state d) → EachHolds stream [] 0 (D.state d) }
    ensures keeps { (stream : ℕ) (m : MemberState) (old new : D) → KeepsStore stream (D.state old) (D.state new) → BackedMember stream m (D.state old) → BackedMember stream m (D.state new) }
    ensures crash { (stream of : ℕ) (m : MemberState) (old new : D) → LeftByCrash of (D.state old) (D.state new) → BackedMember stream m (D.state old) → BackedMember stream m (D.state new) }
    ensures looks { (stream : ℕ) (m : MemberState) (old new : D) → Looks (D.state old) (D.state new) → BackedMember stream m (D.state old) → BackedMember stream m (D.state new) }
    ensures streams { D.tells → (stream of : ℕ) (m : MemberState) (old new : D) → stream ≢ of → OtherStreams of (D.state old) (D.state new) → BackedMember stream m (D.state old) → BackedMember stream m (D.state new) }
{}

/// A member's store that does the pending job leaves a disk that belongs to the member, whatever its answer; where the job
/// is done, the store is then that of the member behind the job, to which the disk belongs. It does nothing.
pub fn a_job_keeps_a_member_backed<D: Disk>()
    ensures left { (stream : ℕ) (m : MemberState) (job : Job) (number : ℕ) (store after : StoreInHand) (result : Result JobDone StoreFault) (old new : D)
        → IsLog m.log → ContinuesLog m.log job → m.job ≡ Some job → IsInHand stream m store (D.state old) → JobTold job number m.log store after result (D.state new) → BackedMember stream m (D.state new) }
    ensures in_hand { (stream : ℕ) (m : MemberState) (job : Job) (number : ℕ) (store after : StoreInHand) (receipt : JobDone) (old new : D)
        → ContinuesLog m.log job → m.job ≡ Some job → IsInHand stream m store (D.state old) → JobTold job number m.log store after (Ok receipt) (D.state new) → IsInHand stream (finished m).state after (D.state new) }
    ensures done { (stream : ℕ) (m : MemberState) (job : Job) (number : ℕ) (store after : StoreInHand) (receipt : JobDone) (old new : D)
        → ContinuesLog m.log job → m.job ≡ Some job → IsInHand stream m store (D.state old) → JobTold job number m.log store after (Ok receipt) (D.state new) → BackedMember stream (finished m).state (D.state new) }
{}

/// What the recovery of a member's store gives is what the disk that belonged to the member may have, so the member may
/// come up with it; and then the disk belongs to it, and the store is its store. It does nothing.
pub fn a_recovered_member_is_backed<D: Disk>()
    ensures may { D.tells → (stream promise : ℕ) (chunks : List Chunk) (m : MemberState) (old new : D)
        → KeepsStore stream (D.state old) (D.state new) → EachHolds stream chunks promise (D.state new) → BackedMember stream m (D.state old) → Holds m chunks × MayPromise m promise }
    ensures backed { (stream members k promise : ℕ) (chunks : List Chunk) (d : D) → EachHolds stream chunks promise (D.state d) → BackedMember stream (restarted members k promise chunks) (D.state d) }
    ensures in_hand { (stream members k promise : ℕ) (chunks : List Chunk) (store : StoreInHand) (d : D)
        → store.stream ≡ stream → store.member ≡ k → promise_of store ≡ promise → BackedStore store chunks (D.state d) → IsInHand stream (restarted members k promise chunks) store (D.state d) }
{}
