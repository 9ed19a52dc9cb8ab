//! What a settle brings about.

ghost use Rattle.std.specs.Prelude.{◌≡◌, ◌⊎◌, ◌<◌, ℕ, suc, true, List, [], None, Some, length};
ghost use Rattle.chunk_format.specs.declared.chunk.Chunk.{Chunk};
ghost use Rattle.chunk_format.specs.Logs.{Truthful};
ghost use Rattle.epoch_coordinator.specs.declared.message.Job.{Job};
ghost use Rattle.replication_laws.specs.Cluster.{Reign, ClusterState, seat, member, RunsWith};
ghost use Rattle.replication_laws.specs.Confirms.{Awaits};
ghost use Rattle.replication_laws.specs.Properties.{SoundWith};
ghost use Rattle.replication_laws.specs.Soundness.{IsSound};
ghost use Rattle.settling_laws.specs.Settling.{Jobs, Rest, turn, Settles, next_job, with_reigns};
ghost use Rattle.settling_laws.specs.Measures.{IsInOrder};
ghost use Rattle.settling_laws.specs.Tokens.{Running_by, IsStuck};
ghost use Rattle.settling_laws.specs.Electing.{Elects_next};
ghost use Rattle.settling_laws.specs.Clean.{SettlesCleanly, IsLed, HasMost, IsComplete};

use replication_laws::Claim;

/// A settle leaves no message and no job, and the next message has the number 1. It does nothing.
pub fn a_settle_leaves_nothing()
    ensures { (now : ℕ) (w w' : ClusterState) → Settles now w w' → (w'.mail ≡ []) × (w'.last ≡ 0) × (next_job w' ≡ None) }
{}

/// A settle of a running epoch whose leader leads, also one that writes its first chunk, or is stopped with its Open on
/// the way; and one that elects an epoch or is to make it durable: where no job is answered by a fault and numbers last,
/// and where behind it the epoch runs with its open leader, which more than half of the members promised and are up, all
/// is committed that the leader has. A leader of the running epoch that has a job leads it. It does nothing.
pub fn a_settle_completes()
    ensures working { (opened epoch leader : ℕ) (job : Job) (w : ClusterState) → IsSound opened w → Running_by w epoch leader → (member w leader).job ≡ Some job → IsLed w epoch leader }
    ensures running { (opened now epoch leader : ℕ) (reigns : List Reign) (w w' : ClusterState) → SoundWith Truthful opened (with_reigns reigns w) → IsInOrder w → Running_by w epoch leader → IsLed w epoch leader
        → SettlesCleanly now (turn Jobs w) (turn Rest w') → RunsWith w' epoch leader → HasMost w' epoch → IsComplete w' leader }
    ensures electing { (opened now epoch leader : ℕ) (reigns : List Reign) (w w' : ClusterState) → SoundWith Truthful opened (with_reigns reigns w) → IsInOrder w → Elects_next w epoch
        → SettlesCleanly now (turn Jobs w) (turn Rest w') → RunsWith w' epoch leader → HasMost w' epoch → IsComplete w' leader }
{}

/// A settle that elects an epoch, or is to make it durable, while all members are up: where no job is answered by a fault
/// and numbers last, the epoch runs behind it with an open leader, unless its leader can't open behind its log. It does
/// nothing.
pub fn an_election_opens()
    ensures { (opened now epoch : ℕ) (reigns : List Reign) (w w' : ClusterState) → SoundWith Truthful opened (with_reigns reigns w) → IsInOrder w → 0 < length w.seats
        → ((i : ℕ) → i < length w.seats → (seat w (suc i)).up ≡ true) → Elects_next w epoch → SettlesCleanly now (turn Jobs w) (turn Rest w')
        → (leader : ℕ) × (RunsWith w' epoch leader ⊎ IsStuck w' epoch leader) }
{}

/// Where all is committed that the leader has, no claim waits. It does nothing.
pub fn no_claim_waits<C: Claim>()
    ensures { (opened epoch leader end : ℕ) (w : ClusterState) → IsSound opened w → RunsWith w epoch leader → IsComplete w leader → Awaits C.says epoch end w → ⊥ }
{}
