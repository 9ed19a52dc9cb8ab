//! Rules that would lose what was committed, each on a run of three members.

ghost use Rattle.std.specs.Prelude.{◌≡◌, Some};
ghost use Rattle.epoch_coordinator.specs.declared.message.Message.TheVariants as messages;
ghost use Rattle.epoch_coordinator.specs.MemberSteps.{mail};
ghost use Rattle.replication_laws.specs.Cluster.{member, letter_in};
ghost use Rattle.replication_laws.specs.Soundness.{Kept, IsSound};
ghost use Rattle.replication_laws.specs.Literals.{acted, three, wrote_alone, commits_alone, sent_older, older_tail, commits_older, caught_up, told_runs, cut_by};

/// A leader that counts itself as a majority would commit, in a sound stream, what isn't kept. It does nothing.
pub fn a_leader_alone_is_no_majority()
    ensures sound { IsSound 1 (acted wrote_alone three) }
    ensures lost { Kept (acted wrote_alone three) (commits_alone (member (acted wrote_alone three) 1)) → ⊥ }
{}

/// A leader that takes an Ask whose tail is of an older epoch as an acknowledgement, and counts chunks of older epochs,
/// would commit, in a sound stream, what isn't kept. It does nothing.
pub fn older_epochs_dont_count()
    ensures sound { IsSound 1 (acted sent_older three) }
    ensures asked { letter_in 30 (acted sent_older three).mail ≡ Some (mail 1 (messages.Ask 4 3 older_tail)) }
    ensures lost { Kept (acted sent_older three) (commits_older 3 older_tail (member (acted sent_older three) 1)) → ⊥ }
{}

/// A follower that cuts a chunk of its own epoch, as a late Shape of it says, would lose, in a sound stream, what is
/// committed. It does nothing.
pub fn a_shape_doesnt_cut_its_own_epoch()
    ensures sound { IsSound 1 (acted caught_up three) }
    ensures late { letter_in 22 (acted caught_up three).mail ≡ Some (mail 1 (messages.Shape 3 told_runs)) }
    ensures lost { Kept (cut_by told_runs (acted caught_up three)) (acted caught_up three).committed → ⊥ }
{}
