//! What holds of all groups, named by contracts.

ghost use Rattle.std.specs.Prelude.{◌≡◌, ◌≤◌, ◌<◌, List, ℕ, Some, None, length, slice_get};
ghost use Rattle.active_groups.specs.Seating.{Seating};
ghost use Rattle.active_groups.specs.Changes.{change_of};
ghost use Rattle.active_groups.specs.Steps.{GroupEvent, AreGroups};
ghost use Rattle.active_groups.specs.Settling.{TurnsRun, IsCalm, IsSettled, changes_in};

/// While nobody joins or leaves, a group is told at most two changes. Where no answer is awaited and no change is
/// to be told, and also once two changes were told and answered, the wanted consumer is active. It does nothing.
pub fn groups_settle()
    ensures at_most_two { (old new : List Seating) (events : List GroupEvent) (place : ℕ) → AreGroups old → TurnsRun old events new → changes_in old events place ≤ 2 }
    ensures settled { (g : Seating) → 0 < length g.seats → IsCalm g → change_of g ≡ None → IsSettled g }
    ensures after_two { (old new : List Seating) (events : List GroupEvent) (place : ℕ) (g : Seating) → AreGroups old → TurnsRun old events new → slice_get new place ≡ Some g → changes_in old events place ≡ 2 → IsCalm g → IsSettled g }
{}
