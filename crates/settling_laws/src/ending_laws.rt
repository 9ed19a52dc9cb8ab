//! A settle ends.

ghost use Rattle.std.specs.Prelude.{◌≡◌, ◌≢◌, ℕ, suc, ◌<◌, List, Some, None};
ghost use Rattle.epoch_coordinator.specs.declared.message.Sent.{Sent};
ghost use Rattle.replication_laws.specs.Cluster.{Reign, ClusterState, letter_in, marked, last_number, send};
ghost use Rattle.replication_laws.specs.Events.{comes, nudges};
ghost use Rattle.replication_laws.specs.Soundness.{IsSound};
ghost use Rattle.settling_laws.specs.Settling.{next_job, next_letter, Answer, answered, Rest, Turn, SettleStep, with_reigns};
ghost use Rattle.settling_laws.specs.Measures.{IsInOrder, IsPast, jobs_left};

/// With each job that is answered fewer are left, counting those that are queued. It does nothing.
pub fn jobs_run_out()
    ensures { (opened k : ℕ) (a : Answer) (reigns : List Reign) (w : ClusterState) → IsSound opened (with_reigns reigns w) → next_job w ≡ Some k → jobs_left (answered a k w) < jobs_left w }
{}

/// The numbers of the messages that are delivered rise: those that are due stay behind the last one that was delivered,
/// also where jobs are answered, and behind the greatest number there is none. It does nothing.
pub fn numbers_rise()
    ensures first { (w : ClusterState) → IsInOrder w → IsPast 0 w }
    ensures nudge { (number : ℕ) (w : ClusterState) → IsPast number w → IsPast number (send w (nudges w)) }
    ensures job { (number k : ℕ) (a : Answer) (w : ClusterState) → next_job w ≡ Some k → IsPast number w → IsPast number (answered a k w) }
    ensures letter { (now number : ℕ) (w : ClusterState) (s : Sent) → IsInOrder w → next_letter w ≡ Some number → letter_in number w.mail ≡ Some s
        → IsPast number (comes now s.to s.message (record w { mail = marked number w.mail })) }
    ensures next { (before number : ℕ) (w : ClusterState) → IsPast before w → next_letter w ≡ Some number → before < number }
    ensures last { (w : ClusterState) → IsInOrder w → IsPast last_number w → next_letter w ≡ None }
{}

/// Until all is at rest there is a next step, whatever comes of jobs, and no settle goes on without an end. It does
/// nothing.
pub fn a_settle_ends()
    ensures goes_on { (now : ℕ) (a : Answer) (t : Turn) → IsInOrder t.cluster → t.stage ≢ Rest → (x : Turn) × SettleStep now t x }
    ensures ends { (opened now : ℕ) (reigns : List Reign) (run : ℕ → Turn) → IsSound opened (with_reigns reigns (run 0).cluster) → IsInOrder (run 0).cluster
        → ((i : ℕ) → SettleStep now (run i) (run (suc i))) → ⊥ }
{}
