//! What more than half of the disks keep.

ghost use Rattle.std.specs.Prelude.{◌≡◌, ℕ, Bool, true, List, length};
ghost use Rattle.disk_calls.specs.Disk.{LeftByCrash};
ghost use Rattle.chunk_format.specs.declared.chunk.Chunk.{Chunk};
ghost use Rattle.chunk_format.specs.Logs.{GoesOn};
ghost use Rattle.segment_pairs.specs.Log.{Finder};
ghost use Rattle.segment_pairs.specs.Held.{seen_log};
ghost use Rattle.replication_laws.specs.Majorities.{IsMajority, is_voter};
ghost use Rattle.replication_laws.specs.Cluster.{ClusterState};
ghost use Rattle.replication_laws.specs.Soundness.{Kept};
ghost use Rattle.cluster_core.specs.States.{IsStream};
ghost use Rattle.backed_streams.specs.Backing.{Backed, Durable};

use disk_calls::Disk;

/// Where the disks belong to a stream, each list that is kept is durable; of a sound stream that is the committed list, and
/// each beginning of it. It is durable after crashes of all disks, a read of more than half of them gives it, and of two
/// lists that are durable at once both begin one log. It does nothing.
pub fn committed_lists_are_durable<D: Disk>()
    ensures kept { (stream : ℕ) (w : ClusterState) (list : List Chunk) (disks : ℕ → D) → Kept w list → Backed stream w (λ j. D.state (disks j)) → Durable (length w.seats) stream list (λ j. D.state (disks j)) }
    ensures committed { (stream : ℕ) (w : ClusterState) (disks : ℕ → D) → IsStream w → Backed stream w (λ j. D.state (disks j)) → Durable (length w.seats) stream w.committed (λ j. D.state (disks j)) }
    ensures front { (members stream : ℕ) (front list : List Chunk) (disks : ℕ → D) → GoesOn front list → Durable members stream list (λ j. D.state (disks j)) → Durable members stream front (λ j. D.state (disks j)) }
    ensures crash { (members stream : ℕ) (of : ℕ → ℕ) (list : List Chunk) (old new : ℕ → D) → ((k : ℕ) → LeftByCrash (of k) (D.state (old k)) (D.state (new k))) → Durable members stream list (λ j. D.state (old j)) → Durable members stream list (λ j. D.state (new j)) }
    ensures seen { D.tells → (F : Finder) (members stream : ℕ) (list : List Chunk) (disks : ℕ → D) → Durable members stream list (λ j. D.state (disks j))
        → (voters : List Bool) × IsMajority members voters × ((k : ℕ) → is_voter voters k ≡ true → GoesOn list (seen_log F stream (D.state (disks k)))) }
    ensures meet { D.tells → (members stream : ℕ) (one two : List Chunk) (disks : ℕ → D) → Durable members stream one (λ j. D.state (disks j)) → Durable members stream two (λ j. D.state (disks j)) → (log : List Chunk) × GoesOn one log × GoesOn two log }
{}
