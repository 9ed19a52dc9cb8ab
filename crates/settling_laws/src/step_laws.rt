//! The steps of a settle are events.

ghost use Rattle.std.specs.Prelude.{ℕ, List, ◌++◌};
ghost use Rattle.chunk_format.specs.declared.chunk.Chunk.{Chunk};
ghost use Rattle.chunk_format.specs.Logs.{GoesOn};
ghost use Rattle.replication_laws.specs.Cluster.{Reign, ClusterState};
ghost use Rattle.replication_laws.specs.Events.{AnyStep};
ghost use Rattle.replication_laws.specs.Openings.{Start, opened_cluster};
ghost use Rattle.replication_laws.specs.Soundness.{Kept, IsSound, StaysKept};
ghost use Rattle.settling_laws.specs.Settling.{Turn, SettleStep, Settling, with_reigns, IsEvent};
ghost use Rattle.settling_laws.specs.Measures.{IsInOrder, RunsTo};

/// No step leads from each turn to itself, and behind some steps one more leads on. It does nothing.
pub fn steps_follow_steps()
    ensures none { (now : ℕ) (t : Turn) → Settling now t t }
    ensures more { (now : ℕ) (t x y : Turn) → Settling now t x → SettleStep now x y → Settling now t y }
{}

/// A stream that is opened has no messages, and each event and each offer leaves messages in the order of their numbers.
/// It does nothing.
pub fn messages_stand_in_order()
    ensures opened { (epoch : ℕ) (starts : List Start) → IsInOrder (opened_cluster epoch starts) }
    ensures step { (w w' : ClusterState) → IsInOrder w → AnyStep w w' → IsInOrder w' }
{}

/// Each step of a settle is one event, whatever the reigns are; so a settle is a list of events. It does nothing.
pub fn settle_steps_are_events()
    ensures event { (now : ℕ) (old new : Turn) → IsInOrder old.cluster → SettleStep now old new → IsEvent now old.cluster new.cluster }
    ensures run { (now : ℕ) (reigns : List Reign) (old new : Turn) → IsInOrder old.cluster → Settling now old new → RunsTo reigns old.cluster new.cluster }
{}

/// A settle, and each beginning of one, keeps a stream sound and its messages in order; the committed list only grows, and
/// each list that was kept is kept. It does nothing.
pub fn a_settle_keeps_soundness()
    ensures sound { (opened now : ℕ) (reigns : List Reign) (old new : Turn) → IsSound opened (with_reigns reigns old.cluster) → IsInOrder old.cluster → Settling now old new
        → (more : List Reign) × IsSound opened (with_reigns (more ++ reigns) new.cluster) }
    ensures order { (now : ℕ) (old new : Turn) → IsInOrder old.cluster → Settling now old new → IsInOrder new.cluster }
    ensures grows { (opened now : ℕ) (reigns : List Reign) (old new : Turn) → IsSound opened (with_reigns reigns old.cluster) → IsInOrder old.cluster → Settling now old new
        → GoesOn old.cluster.committed new.cluster.committed }
    ensures kept { (opened now : ℕ) (reigns : List Reign) (old new : Turn) (list : List Chunk) → IsSound opened (with_reigns reigns old.cluster) → IsInOrder old.cluster → Settling now old new
        → Kept (with_reigns reigns old.cluster) list → (more : List Reign) × StaysKept list (with_reigns (more ++ reigns) new.cluster) }
{}
