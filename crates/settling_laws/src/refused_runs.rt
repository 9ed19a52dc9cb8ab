//! Steps that are none of a settle, each on a stream of one member.

ghost use Rattle.std.specs.Prelude.{ℕ, [], None};
ghost use Rattle.replication_laws.specs.Cluster.{ClusterState, send};
ghost use Rattle.replication_laws.specs.Events.{nudges};
ghost use Rattle.settling_laws.specs.Settling.{Jobs, Letters, Rest, turn, SettleStep};
ghost use Rattle.settling_laws.specs.Literals.{alone, waiting, delivered, calm, busy};

/// While a message waits there is no rest, whether it is kept or forgotten. It does nothing.
pub fn messages_are_delivered_first()
    ensures { (now : ℕ) (w : ClusterState) → SettleStep now (turn Letters waiting) (turn Rest w) → ⊥ }
{}

/// Behind the nudge there is no second one, and before it no job is left. It does nothing.
pub fn one_nudge_behind_the_jobs()
    ensures again { (now : ℕ) → SettleStep now (turn Letters calm) (turn Letters (send calm (nudges calm))) → ⊥ }
    ensures early { (now : ℕ) → SettleStep now (turn Jobs busy) (turn Letters (send busy (nudges busy))) → ⊥ }
{}

/// A member whose job was answered by a fault doesn't stay up without it. It does nothing.
pub fn a_fault_stops_its_member()
    ensures { (now : ℕ) → SettleStep now (turn Jobs busy) (turn Jobs calm) → ⊥ }
{}

/// Numbering doesn't go on behind the rest. It does nothing.
pub fn numbering_begins_again()
    ensures { (now : ℕ) → SettleStep now (turn Letters delivered) (turn Rest (alone None [] 1)) → ⊥ }
{}
