//! What holds of the rules of replication, named by contracts.

ghost use Rattle.std.specs.Prelude.{◌≡◌, ◌∷◌, ◌++◌, [], codes};
ghost use Rattle.epoch_coordinator.specs.Scripts.{first_trio, played, prints, ends_of, commit_ends, common, common_mail, older_epoch, older_epoch_mail, then_fifth, fifth_mail, late_member, late_member_mail, late_messages, m};

/// Two scripts of elections, late messages and a restart over three members are steps of these
/// rules, message for message: a chunk of an older epoch isn't counted, and late messages change
/// nothing. It does nothing.
pub fn worked_scripts()
    ensures common { prints (played common first_trio) ≡ common_mail }
    ensures common_ends { ends_of (played common first_trio) ≡ 2 ∷ 2 ∷ 1 ∷ [] }
    ensures older_epoch { prints (played older_epoch (played common first_trio)) ≡ common_mail ++ older_epoch_mail }
    ensures older_epoch_not_counted { commit_ends (played older_epoch (played common first_trio)) ≡ 0 ∷ 0 ∷ 0 ∷ [] }
    ensures fifth { prints (played then_fifth (played older_epoch (played common first_trio))) ≡ common_mail ++ older_epoch_mail ++ fifth_mail }
    ensures late_member { prints (played late_member (played common first_trio)) ≡ common_mail ++ late_member_mail }
    ensures committed { commit_ends (played late_member (played common first_trio)) ≡ 0 ∷ 2 ∷ 0 ∷ [] }
    ensures late_messages { prints (played late_messages (played late_member (played common first_trio))) ≡ common_mail ++ late_member_mail ++ (m 2 (codes "ask") 3 ∷ []) }
    ensures late_ends { ends_of (played late_messages (played late_member (played common first_trio))) ≡ 2 ∷ 2 ∷ 1 ∷ [] }
{}
