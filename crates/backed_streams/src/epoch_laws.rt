//! The disk of the coordinator.

ghost use Rattle.std.specs.Prelude.{◌≡◌, ◌≢◌, ◌<◌, ℕ, IsTrue, Result, Ok, Some};
ghost use Rattle.disk_calls.specs.Disk.{LeftByCrash, Looks};
ghost use Rattle.disk_calls.specs.Frames.{FileStays, OtherStreams};
ghost use Rattle.gated_words.specs.Files.{second_file};
ghost use Rattle.gated_words.specs.InHand.{InHand};
ghost use Rattle.gated_words.specs.Backing.{Backs, KeepsPairs, MayAdd};
ghost use Rattle.epoch_coordinator.specs.Coordinators.{CoordinatorState, begun, opened_with};
ghost use Rattle.replication_laws.specs.Events.{MayBegin};
ghost use Rattle.segment_store.specs.declared.fault.StoreFault.{StoreFault};
ghost use Rattle.segment_store.specs.Receipts.{JobDone};
ghost use Rattle.segment_store.specs.Recoverable.{NoFiles};
ghost use Rattle.segment_store.specs.Words.{EachWord, epochs_file, word_of};
ghost use Rattle.backed_streams.specs.Backing.{BackedEpoch};
ghost use Rattle.backed_streams.specs.Doing.{EpochTold};

use disk_calls::Disk;

/// A disk with the durable epoch of a stream in each image belongs to its coordinator; one of epochs in hand that are sure
/// has those in each image, and one without such files 0. It belongs to the coordinator while each image has what one from
/// before had: after calls that only look, after a crash, and while the files of the epochs stay, as they do while only
/// files of a stream above 0 change. It does nothing.
pub fn epochs_stay_backed<D: Disk>()
    ensures is { (stream : ℕ) (c : CoordinatorState) (d : D) → EachWord epochs_file stream (λ word. word ≡ c.epoch) (D.state d) → BackedEpoch stream c (D.state d) }
    ensures sure { (stream : ℕ) (hand : InHand) (d : D) → hand.id ≡ epochs_file → IsTrue hand.sure → Backs hand (D.state d) → EachWord epochs_file stream (λ word. word ≡ word_of stream hand.pairs) (D.state d) }
    ensures none { (stream : ℕ) (d : D) → NoFiles 0 (D.state d) → EachWord epochs_file stream (λ word. word ≡ 0) (D.state d) }
    ensures keeps { (stream : ℕ) (c : CoordinatorState) (old new : D) → KeepsPairs epochs_file (D.state old) (D.state new) → BackedEpoch stream c (D.state old) → BackedEpoch stream c (D.state new) }
    ensures crash { (stream of : ℕ) (c : CoordinatorState) (old new : D) → LeftByCrash of (D.state old) (D.state new) → BackedEpoch stream c (D.state old) → BackedEpoch stream c (D.state new) }
    ensures looks { (stream : ℕ) (c : CoordinatorState) (old new : D) → Looks (D.state old) (D.state new) → BackedEpoch stream c (D.state old) → BackedEpoch stream c (D.state new) }
    ensures files { (stream : ℕ) (c : CoordinatorState) (old new : D) → FileStays epochs_file (D.state old) (D.state new) → FileStays (second_file epochs_file) (D.state old) (D.state new) → BackedEpoch stream c (D.state old) → BackedEpoch stream c (D.state new) }
    ensures streams { (stream of : ℕ) (c : CoordinatorState) (old new : D) → 0 < of → OtherStreams of (D.state old) (D.state new) → BackedEpoch stream c (D.state old) → BackedEpoch stream c (D.state new) }
{}

/// The store of epochs that does the coordinator's pending job leaves a disk that belongs to the coordinator, whatever its
/// answer, and to that of each other stream; where the job is done, the disk belongs to the coordinator behind the job. It
/// does nothing.
pub fn a_job_keeps_an_epoch_backed<D: Disk>()
    ensures left { (stream epoch number : ℕ) (c : CoordinatorState) (hand after : InHand) (result : Result JobDone StoreFault) (old new : D)
        → hand.id ≡ epochs_file → c.job ≡ Some epoch → EpochTold stream epoch number hand after result (D.state old) (D.state new) → BackedEpoch stream c (D.state old) → BackedEpoch stream c (D.state new) }
    ensures done { (stream epoch number : ℕ) (c : CoordinatorState) (hand after : InHand) (receipt : JobDone) (old new : D)
        → hand.id ≡ epochs_file → EpochTold stream epoch number hand after (Ok receipt) (D.state old) (D.state new) → BackedEpoch stream (begun epoch c) (D.state new) }
    ensures apart { (stream other epoch number : ℕ) (c : CoordinatorState) (hand after : InHand) (result : Result JobDone StoreFault) (old new : D)
        → hand.id ≡ epochs_file → stream ≢ other → EpochTold stream epoch number hand after result (D.state old) (D.state new) → BackedEpoch other c (D.state old) → BackedEpoch other c (D.state new) }
{}

/// The epoch of a stream that the recovery of the store of epochs gives is one that the disk of its coordinator may have,
/// so the coordinator may come up with it; and then the disk belongs to it. It does nothing.
pub fn a_recovered_epoch_is_backed<D: Disk>()
    ensures may { D.tells → (stream epoch : ℕ) (c : CoordinatorState) (old new : D)
        → KeepsPairs epochs_file (D.state old) (D.state new) → EachWord epochs_file stream (λ word. word ≡ epoch) (D.state new) → BackedEpoch stream c (D.state old) → MayBegin c epoch }
    ensures backed { (stream members epoch : ℕ) (d : D) → EachWord epochs_file stream (λ word. word ≡ epoch) (D.state d) → BackedEpoch stream (opened_with members epoch) (D.state d) }
{}
