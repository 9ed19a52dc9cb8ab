//! What members and coordinator do, in the words of the parts of a stream.

ghost use Rattle.std.specs.Prelude.{◌≡◌, ℕ, ◌≤◌, true, false, List, length, position, remove, slice_index_or, None, Some};
ghost use Rattle.epoch_coordinator.specs.declared.tail.Tail.{Tail};
ghost use Rattle.epoch_coordinator.specs.declared.message.Sent.{Sent};
ghost use Rattle.epoch_coordinator.specs.Coordinators.{CoordinatorState, stopped};
ghost use Rattle.epoch_coordinator.specs.MemberSteps.{taken, finished, commit_end};
ghost use Rattle.epoch_coordinator.specs.Scripts.{opened};
ghost use Rattle.replication_laws.specs.Cluster.{ClusterState, member, letter_in, marked, without, RunsWith};
ghost use Rattle.replication_laws.specs.Events.{committed_by};
ghost use Rattle.replication_laws.specs.Soundness.{IsSound};
ghost use Rattle.cluster_core.specs.declared.mail.Numbered.{Numbered};
ghost use Rattle.cluster_core.specs.Parts.{lettered, has_number, delivered_at, ahead_of, extended, did_mail};
ghost use Rattle.cluster_core.specs.Up.{is_up, has_job, running, leader_by};

/// What is committed when a member of a sound stream takes a message, or has done its job, stands ahead of the committed
/// list before: in the member's log behind that list, and in the chunk that it writes. So it can be shared before anything
/// changes. It does nothing.
pub fn what_is_committed_stands_ahead()
    ensures taken { (o now number k : ℕ) (w : ClusterState) (s : Sent) → IsSound o w → 1 ≤ k → is_up w k ≡ true → has_job w k ≡ false → letter_in number w.mail ≡ Some s → s.to ≡ k
        → extended w.committed (ahead_of (length w.committed) (member w k)) (commit_end (taken now s.message (member w k)).state) ≡ committed_by w.committed (taken now s.message (member w k)).state }
    ensures finished { (o k : ℕ) (w : ClusterState) → IsSound o w → 1 ≤ k → is_up w k ≡ true
        → extended w.committed (ahead_of (length w.committed) (member w k)) (commit_end (finished (member w k)).state) ≡ committed_by w.committed (finished (member w k)).state }
{}

/// What the coordinator sends when a member told that it has stopped, by the bits of the electors. It does nothing.
pub fn electors_are_told_to_follow()
    ensures { (epoch from : ℕ) (tail : Tail) (c : CoordinatorState) → length c.told ≡ c.members → did_mail c.members (stopped epoch from tail c).answer ≡ opened (stopped epoch from tail c).state (stopped epoch from tail c).answer }
{}

/// An epoch runs with an open leader where tests on the coordinator and its leader say so. It does nothing.
pub fn the_running_epoch()
    ensures runs { (w : ClusterState) (epoch : ℕ) → running w ≡ Some epoch → RunsWith w epoch (leader_by w.coordinator.phase) }
    ensures is { (w : ClusterState) (epoch leader : ℕ) → RunsWith w epoch leader → running w ≡ Some epoch }
{}

/// A message is found by its number at the first place that has it; there it is marked or taken out. It does nothing.
pub fn messages_are_found_by_number()
    ensures none { (number : ℕ) (mail : List Numbered) → position (has_number number) mail ≡ None → letter_in number (lettered mail) ≡ None }
    ensures found { (number place : ℕ) (mail : List Numbered) (n : Numbered) → position (has_number number) mail ≡ Some place → n ≡ slice_index_or mail place n → letter_in number (lettered mail) ≡ Some n.sent }
    ensures marked { (number place : ℕ) (mail : List Numbered) → position (has_number number) mail ≡ Some place → lettered (delivered_at place mail) ≡ marked number (lettered mail) }
    ensures taken_out { (number place : ℕ) (mail : List Numbered) → position (has_number number) mail ≡ Some place → lettered (remove mail place) ≡ without number (lettered mail) }
{}
