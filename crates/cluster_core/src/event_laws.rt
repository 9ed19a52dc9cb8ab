//! What events do to a stream of which the reigns aren't kept.

ghost use Rattle.std.specs.Prelude.{◌≡◌, ℕ, suc, ◌≤◌, ◌<◌, true, false, List, [], ◌++◌, length, Some};
ghost use Rattle.chunk_format.specs.declared.chunk.Chunk.{Chunk};
ghost use Rattle.chunk_format.specs.Logs.{GoesOn, IsLog, Truthful, RisesIn};
ghost use Rattle.epoch_coordinator.specs.declared.message.Message.{Message};
ghost use Rattle.epoch_coordinator.specs.declared.message.Sent.{Sent};
ghost use Rattle.epoch_coordinator.specs.MemberSteps.{taken, finished};
ghost use Rattle.epoch_coordinator.specs.Coordinators.{CoordinatorState};
ghost use Rattle.replication_laws.specs.Cluster.{ClusterState, Seat, Letter, Reign, member, letter_in};
ghost use Rattle.replication_laws.specs.Events.{OfferStep, took, to_coordinator};
ghost use Rattle.replication_laws.specs.Openings.{Start, start_at, opened_cluster, CanStart};
ghost use Rattle.replication_laws.specs.Soundness.{Kept, IsSound, StaysKept};
ghost use Rattle.replication_laws.specs.Properties.{SoundWith};
ghost use Rattle.stream_terms.specs.declared.terms.Given.{Given};
ghost use Rattle.stream_terms.specs.declared.terms.Waits.{Waits};
ghost use Rattle.stream_terms.specs.Steps.{MoveStep};
ghost use Rattle.cluster_core.specs.Seen.{seen, seen_after};
ghost use Rattle.cluster_core.specs.declared.mail.Numbered.{Numbered};
ghost use Rattle.cluster_core.specs.declared.outcome.Outcome.{Outcome};
ghost use Rattle.cluster_core.specs.declared.outcome.Outcome.TheVariants.{Did};
ghost use Rattle.cluster_core.specs.Parts.{lettered};
ghost use Rattle.cluster_core.specs.Up.{is_up, has_job};
ghost use Rattle.cluster_core.specs.States.{ReplicaState, IsStream, Happened, Goes, Gives, reigned, cluster_of, told_by, elect_due, deliver_due, lose_due, done_due, stop_due, reopen_due};
ghost use Rattle.cluster_core.specs.Kept.{took_ahead, hears_by, after_elect, after_deliver, after_lose, after_forget, after_nudge, after_done, after_stop, after_reopen};

/// An event that is due is a step of the laws, whatever the reigns are, and the stream after it is that of its definition.
/// It does nothing.
pub fn events_are_steps()
    ensures elect { (now : ℕ) (r : ReplicaState) → IsStream r.cluster → elect_due r.cluster ≡ Did → Goes now r (after_elect r) }
    ensures deliver { (now number : ℕ) (r : ReplicaState) → deliver_due number r.cluster ≡ Did → Goes now r (after_deliver number now r) }
    ensures lose { (now number : ℕ) (r : ReplicaState) → lose_due number r.cluster ≡ Did → Goes now r (after_lose number r) }
    ensures forget { (now : ℕ) (r : ReplicaState) → Goes now r (after_forget r) }
    ensures nudge { (now : ℕ) (r : ReplicaState) → Goes now r (after_nudge r) }
    ensures done { (now k number : ℕ) (r : ReplicaState) → done_due k number r ≡ Did → Goes now r (after_done k r) }
    ensures stop { (now k : ℕ) (r : ReplicaState) → stop_due k r.cluster ≡ Did → Goes now r (after_stop k r) }
    ensures reopen { (now epoch : ℕ) (r : ReplicaState) → reopen_due epoch r.cluster ≡ Did → Goes now r (after_reopen epoch r) }
{}

/// What holds of a stream goes on to hold, whatever came of an event, and over each offer. Kept lists stay kept, the committed list only grows,
/// and where ids rise in all logs they rise on. It does nothing.
pub fn steps_keep_what_holds()
    ensures stream { (now : ℕ) (due result : Outcome) (old new after : ReplicaState) → Gives due result old new after → IsStream old.cluster → (due ≡ Did → Goes now old after) → IsStream new.cluster }
    ensures offers { (now : ℕ) (w w' : ClusterState) → IsStream w → length w'.seats ≡ length w.seats → ((reigns : List Reign) → OfferStep now (reigned reigns w) (reigned reigns w')) → IsStream w' }
    ensures kept { (opened now : ℕ) (reigns : List Reign) (w w' : ClusterState) (list : List Chunk) → IsSound opened (reigned reigns w) → Happened now w w' → Kept (reigned reigns w) list → (more : List Reign) × StaysKept list (reigned (more ++ reigns) w') }
    ensures grows { (now : ℕ) (w w' : ClusterState) → IsStream w → Happened now w w' → GoesOn w.committed w'.committed }
    ensures rises { (opened now : ℕ) (reigns : List Reign) (w w' : ClusterState) → SoundWith RisesIn opened (reigned reigns w) → Happened now w w' → (more : List Reign) × SoundWith RisesIn opened (reigned (more ++ reigns) w') }
{}

/// What is shared before a member does something is enough for what is then committed, and what is numbered on when the
/// coordinator hears a message is what the laws say. It does nothing.
pub fn what_was_shared_is_enough()
    ensures taken { (now number i : ℕ) (w : ClusterState) (s : Sent) (mail : List Letter) → IsStream w → is_up w (suc i) ≡ true → has_job w (suc i) ≡ false → letter_in number w.mail ≡ Some s → s.to ≡ suc i
        → took_ahead (suc i) (taken now s.message (member w (suc i))) (record w { mail = mail }) ≡ took (suc i) (taken now s.message (member w (suc i))) (record w { mail = mail }) }
    ensures finished { (i : ℕ) (w : ClusterState) → IsStream w → is_up w (suc i) ≡ true → took_ahead (suc i) (finished (member w (suc i))) w ≡ took (suc i) (finished (member w (suc i))) w }
    ensures heard { (message : Message) (seats : List Seat) (c : CoordinatorState) (before mail : List Numbered) (last : ℕ) (committed : List Chunk) → length c.told ≡ c.members
        → hears_by c.members (told_by message c) true mail (cluster_of seats true c before last committed) ≡ reigned [] (to_coordinator message (record (cluster_of seats true c before last committed) { mail = lettered mail })) }
{}

/// A stream that is opened over logs that pass the tests is sound, with no reigns. It does nothing.
pub fn openings_are_streams()
    ensures { (epoch : ℕ) (starts : List Start) → length starts ≤ 7 → CanStart epoch starts → ((i : ℕ) → i < length starts → Truthful (start_at starts i).log) → IsStream (opened_cluster epoch starts) }
{}

/// What a stream does by itself is a move for those that use it: the list goes on, by what was queued while one epoch runs;
/// what it reaches is ready, and of the rest what is of the running epoch waits on. It does nothing.
pub fn steps_are_moves()
    ensures { (now number : ℕ) (w w' : ClusterState) (more : List Chunk) (passes : List Given) (waiting ready : List Waits) → IsStream w → Happened now w w' → w'.committed ≡ w.committed ++ more → MoveStep (seen number w passes waiting ready) more (seen_after number w' passes waiting ready) }
{}

/// The committed list is a log, and snapshots are truthful in it. It does nothing.
pub fn the_committed_list_is_a_log()
    ensures log { (w : ClusterState) → IsStream w → IsLog w.committed }
    ensures truthful { (w : ClusterState) → IsStream w → Truthful w.committed }
{}
