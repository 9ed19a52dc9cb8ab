//! Disks that belong to no stream, on streams of three members that are written out.

ghost use Rattle.std.specs.Prelude.{ℕ, ◌∷◌, []};
ghost use Rattle.replication_laws.specs.Literals.{first_chunk, three};
ghost use Rattle.replication_laws.specs.Soundness.{IsSound};
ghost use Rattle.segment_store.specs.Words.{epochs_file};
ghost use Rattle.segment_store.specs.Stores.{promise_file};
ghost use Rattle.backed_streams.specs.Backing.{Backed, Durable};
ghost use Rattle.backed_streams.specs.Refused.{MayLeaveLog, MayLeaveWord, alone, caught};

use disk_calls::Disk;

/// In a sound stream a disk doesn't belong to its member where a crash may leave a log without a committed chunk, or one
/// without a chunk whose Write counts as done, or a promise above the member's; nor does one belong to the coordinator with
/// an epoch above its own. A committed list isn't durable where two of three disks may lack a chunk. It does nothing.
pub fn disks_that_do_not_belong<D: Disk>()
    ensures sound { IsSound 1 caught }
    ensures lacks_committed { (stream : ℕ) (disks : ℕ → D) → MayLeaveLog stream (first_chunk ∷ []) (D.state (disks 2)) → Backed stream caught (λ j. D.state (disks j)) → ⊥ }
    ensures also_sound { IsSound 1 alone }
    ensures lacks_written { (stream : ℕ) (disks : ℕ → D) → MayLeaveLog stream (first_chunk ∷ []) (D.state (disks 1)) → Backed stream alone (λ j. D.state (disks j)) → ⊥ }
    ensures promise_above { (stream : ℕ) (disks : ℕ → D) → MayLeaveWord (promise_file stream) stream 2 (D.state (disks 1)) → Backed stream three (λ j. D.state (disks j)) → ⊥ }
    ensures epoch_above { (stream : ℕ) (disks : ℕ → D) → MayLeaveWord epochs_file stream 2 (D.state (disks 0)) → Backed stream three (λ j. D.state (disks j)) → ⊥ }
    ensures not_durable { (stream : ℕ) (disks : ℕ → D) → MayLeaveLog stream (first_chunk ∷ []) (D.state (disks 2)) → MayLeaveLog stream (first_chunk ∷ []) (D.state (disks 3)) → Durable 3 stream caught.committed (λ j. D.state (disks j)) → ⊥ }
{}
