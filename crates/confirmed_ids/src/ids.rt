ghost use Rattle.std.specs.Prelude.{◌≡◌, ◌↔◌, ◌⊎◌, ℕ, [], OnOk, OnErr};
ghost use Rattle.confirmed_ids.specs.Ids.{Confirms, IsConfirmedIn, AreApart};

use crate::ranges::{Range, take_joined, with_id};
use std::alloc::{AllocError, Global};
use std::marker::Model;

/// Ids that are confirmed: all up to one, of which the next isn't, and ranges above it. The ranges rise, and between each
/// two, and before the first, some id isn't confirmed.
#[derive(Debug, Drop)]
pub struct ConfirmedIds {
    alloc: Global,
    upto: u64,
    above: Vec<Range>,
}

impl Model for ConfirmedIds {
    ghost use Rattle.confirmed_ids.specs.Ids.{Confirms, AreApart};

    ghost Value = { Confirms };

    ghost view = { λ s. record { upto = s.upto; above = s.above.items } };

    ghost invariant = { λ s. AreApart s.upto s.above.items };
}

impl ConfirmedIds {
    /// All ids up to one are confirmed, and no others. It takes no memory.
    pub fn new(alloc: Global, upto: u64) -> ConfirmedIds
        ensures { result ≡ record { upto = upto; above = [] } }
    {
        ConfirmedIds {
            alloc,
            upto,
            above: Vec::new(alloc),
        }
    }

    /// The greatest id so that all ids up to it are confirmed.
    pub fn upto(&self) -> u64
        ensures is { result ≡ self.now.upto }
        ensures apart { AreApart self.now.upto self.now.above }
    {
        self.upto
    }

    /// Forgets the ids that are confirmed above the others.
    pub fn forget(&mut self)
        ensures { self.new ≡ record { upto = self.old.upto; above = [] } }
    {
        self.above = Vec::new(self.alloc);
    }

    /// Confirms an id. Want of memory leaves all as it was; the id behind `upto` wants none.
    #[tactic(auto, using(crate::proofs::Placing::put_confirms, crate::proofs::Placing::put_apart, crate::proofs::Placing::next_confirms, crate::proofs::Placing::next_apart, crate::proofs::Placing::again_confirms))]
    pub fn add(&mut self, id: u64) -> Result<(), AllocError>
        ensures added { OnOk result ((k : ℕ) → IsConfirmedIn self.new k ↔ (IsConfirmedIn self.old k ⊎ (k ≡ id))) }
        ensures err { OnErr result (self.new ≡ self.old) }
    {
        if id <= self.upto {
            return Ok(());
        }
        if id - self.upto > 1 {
            self.above = with_id(self.alloc, self.above.as_slice(), id)?;
            return Ok(());
        }
        self.upto = take_joined(&mut self.above, id);
        Ok(())
    }
}
