//! How many steps a search takes at most.

ghost use Rattle.std.specs.Prelude.{◌≡◌, ◌-◌, ◌≤◌, length};
ghost use Rattle.std.specs.List.Sorted.{IsStrictlyIncreasing};

use std::sync::ledger::Ledger;
use stream_terms::{Ends, Steps, find_place};

/// Over 1,026 chunks at most 11 steps.
pub fn search_some<E: Ends, L: Ledger>(list: &E, offset: u64, steps: &mut Steps<L>) -> usize
    requires rising { IsStrictlyIncreasing (E.ends list.now) }
    requires count { length (E.ends list.now) ≡ 1026 }
    ensures { steps.new - steps.old ≤ 11 }
{
    find_place(list, offset, steps)
}

/// Over no chunks no step, and the place is 0.
pub fn search_none<E: Ends, L: Ledger>(list: &E, offset: u64, steps: &mut Steps<L>) -> usize
    requires rising { IsStrictlyIncreasing (E.ends list.now) }
    requires count { length (E.ends list.now) ≡ 0 }
    ensures place { result ≡ 0 }
    ensures steps { steps.new - steps.old ≡ 0 }
{
    find_place(list, offset, steps)
}
