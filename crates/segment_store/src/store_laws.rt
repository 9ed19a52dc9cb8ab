//! What holds of all stores and their disks, named by contracts.

ghost use Rattle.std.specs.Prelude.{◌≡◌, ◌≢◌, ◌<◌, ℕ, List};
ghost use Rattle.disk_calls.specs.Disk.{LeftByCrash, Looks};
ghost use Rattle.disk_calls.specs.Frames.{OtherStreams};
ghost use Rattle.chunk_format.specs.declared.chunk.Chunk.{Chunk};
ghost use Rattle.epoch_coordinator.specs.declared.message.Job.{Job};
ghost use Rattle.segment_pairs.specs.Log.{Finder};
ghost use Rattle.gated_words.specs.Files.{Opens, seen_files};
ghost use Rattle.gated_words.specs.InHand.{InHand};
ghost use Rattle.gated_words.specs.Backing.{Backs};
ghost use Rattle.segment_store.specs.Recoverable.{EpochsRecoverable, NoFiles, Recoverable};
ghost use Rattle.segment_store.specs.Words.{epochs_file};
ghost use Rattle.segment_store.specs.Recovery.{CanRecover, NoneReturns};
ghost use Rattle.segment_store.specs.Stores.{BackedStore, Continues, ContinuesLog, EachHolds, EndsRise, KeepsStore, StoreInHand, promise_file, promise_of};

use disk_calls::Disk;

/// A disk that is what is in hand of a store has its log and its promise in each image, and stays so while only other
/// streams' files change, or a crash takes images of theirs. It does nothing.
pub fn stores_stay_backed<D: Disk>()
    ensures holds { (store : StoreInHand) (chunks : List Chunk) (d : D) → BackedStore store chunks (D.state d) → EachHolds store.stream chunks (promise_of store) (D.state d) }
    ensures looks { (store : StoreInHand) (chunks : List Chunk) (old new : D) → Looks (D.state old) (D.state new) → BackedStore store chunks (D.state old) → BackedStore store chunks (D.state new) }
    ensures streams { (store : StoreInHand) (chunks : List Chunk) (stream : ℕ) (old new : D) → store.stream ≢ stream → OtherStreams stream (D.state old) (D.state new) → BackedStore store chunks (D.state old) → BackedStore store chunks (D.state new) }
    ensures crash { (store : StoreInHand) (chunks : List Chunk) (stream : ℕ) (old new : D) → store.stream ≢ stream → LeftByCrash stream (D.state old) (D.state new) → BackedStore store chunks (D.state old) → BackedStore store chunks (D.state new) }
{}

/// Each image of a disk has the log and the promises of one from before: after calls that only look, after a crash, while
/// only other streams' files change, and one after the other. Where each image had the same log and the same promise,
/// each then has them. It does nothing.
pub fn logs_outlast_crashes<D: Disk>()
    ensures looks { (stream : ℕ) (old new : D) → Looks (D.state old) (D.state new) → KeepsStore stream (D.state old) (D.state new) }
    ensures crash { (stream of : ℕ) (old new : D) → LeftByCrash of (D.state old) (D.state new) → KeepsStore stream (D.state old) (D.state new) }
    ensures streams { D.tells → (stream of : ℕ) (old new : D) → stream ≢ of → OtherStreams of (D.state old) (D.state new) → KeepsStore stream (D.state old) (D.state new) }
    ensures then { (stream : ℕ) (a b c : D) → KeepsStore stream (D.state a) (D.state b) → KeepsStore stream (D.state b) (D.state c) → KeepsStore stream (D.state a) (D.state c) }
    ensures holds { (stream : ℕ) (chunks : List Chunk) (promise : ℕ) (old new : D) → KeepsStore stream (D.state old) (D.state new) → EachHolds stream chunks promise (D.state old) → EachHolds stream chunks promise (D.state new) }
    ensures one_log { D.tells → Finder → (stream : ℕ) (a b : List Chunk) (p q : ℕ) (d : D) → EachHolds stream a p (D.state d) → EachHolds stream b q (D.state d) → a ≡ b }
    ensures one_promise { D.tells → (stream : ℕ) (a b : List Chunk) (p q : ℕ) (d : D) → EachHolds stream a p (D.state d) → EachHolds stream b q (D.state d) → p ≡ q }
{}

/// Where a disk is what is in hand of a store, a job continues the store exactly where it continues the log. It does
/// nothing.
pub fn jobs_continue_logs<D: Disk>()
    ensures rise { (store : StoreInHand) (chunks : List Chunk) (d : D) → BackedStore store chunks (D.state d) → EndsRise store.log.rows }
    ensures log { (store : StoreInHand) (chunks : List Chunk) (d : D) (job : Job) → BackedStore store chunks (D.state d) → Continues store job → ContinuesLog chunks job }
    ensures store { (store : StoreInHand) (chunks : List Chunk) (d : D) (job : Job) → BackedStore store chunks (D.state d) → ContinuesLog chunks job → Continues store job }
{}

/// A member's store may be recovered after a crash, and then while calls only look or only other streams' files change: a
/// number of a segment of which no file is seen has no index that comes back. It may be where a store is in hand. It does
/// nothing.
pub fn recovery_may_begin<D: Disk>()
    ensures store { D.tells → (store : StoreInHand) (chunks : List Chunk) (d : D) → BackedStore store chunks (D.state d) → NoneReturns store.stream (D.state d) }
    ensures crash { (stream : ℕ) (old new : D) → LeftByCrash stream (D.state old) (D.state new) → NoneReturns stream (D.state new) }
    ensures looks { (stream : ℕ) (old new : D) → Looks (D.state old) (D.state new) → NoneReturns stream (D.state old) → NoneReturns stream (D.state new) }
    ensures streams { (stream of : ℕ) (old new : D) → stream ≢ of → OtherStreams of (D.state old) (D.state new) → NoneReturns stream (D.state old) → NoneReturns stream (D.state new) }
{}

/// Files that recovery takes: no image of them is damaged. Those of a store in hand are, those of a stream that has no
/// files, and what a crash leaves of such files; they stay so while calls only look or only other streams' files change. It
/// does nothing.
pub fn recoverable_files_recover<D: Disk>()
    ensures store { (store : StoreInHand) (chunks : List Chunk) (d : D) → BackedStore store chunks (D.state d) → Recoverable store.stream (D.state d) }
    ensures none { (stream : ℕ) (d : D) → NoFiles stream (D.state d) → Recoverable stream (D.state d) }
    ensures crash { (stream of : ℕ) (old new : D) → LeftByCrash of (D.state old) (D.state new) → Recoverable stream (D.state old) → Recoverable stream (D.state new) }
    ensures looks { (stream : ℕ) (old new : D) → Looks (D.state old) (D.state new) → Recoverable stream (D.state old) → Recoverable stream (D.state new) }
    ensures streams { D.tells → (stream of : ℕ) (old new : D) → stream ≢ of → OtherStreams of (D.state old) (D.state new) → Recoverable stream (D.state old) → Recoverable stream (D.state new) }
    ensures can { D.tells → (stream : ℕ) (d : D) → Recoverable stream (D.state d) → CanRecover stream (D.state d) }
    ensures opens { D.tells → (stream : ℕ) (d : D) → Recoverable stream (D.state d) → Opens (seen_files (promise_file stream) (D.state d)) }
{}

/// Files of epochs that can be opened in each image: those behind epochs in hand can, those of a disk without files, and
/// what a crash leaves of such files; they stay so while calls only look or only the files of a stream above 0 change. What
/// a read gives of them can be opened. It does nothing.
pub fn epochs_recover<D: Disk>()
    ensures store { (hand : InHand) (d : D) → hand.id ≡ epochs_file → Backs hand (D.state d) → EpochsRecoverable (D.state d) }
    ensures none { (d : D) → NoFiles 0 (D.state d) → EpochsRecoverable (D.state d) }
    ensures crash { (of : ℕ) (old new : D) → LeftByCrash of (D.state old) (D.state new) → EpochsRecoverable (D.state old) → EpochsRecoverable (D.state new) }
    ensures looks { (old new : D) → Looks (D.state old) (D.state new) → EpochsRecoverable (D.state old) → EpochsRecoverable (D.state new) }
    ensures streams { (of : ℕ) (old new : D) → 0 < of → OtherStreams of (D.state old) (D.state new) → EpochsRecoverable (D.state old) → EpochsRecoverable (D.state new) }
    ensures opens { D.tells → (d : D) → EpochsRecoverable (D.state d) → Opens (seen_files epochs_file (D.state d)) }
{}
