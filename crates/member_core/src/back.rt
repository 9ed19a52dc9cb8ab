//! What a leader took is taken back.

ghost use Rattle.std.specs.Prelude.{◌≡◌, List};
ghost use Rattle.chunk_format.specs.declared.chunk.Chunk.{Chunk};
ghost use Rattle.member_core.specs.States.{IsOpen, offered_all, Marks, taken_back};

use crate::counted::Counted;
use crate::member::Member;

/// How much a leader had taken at some moment, so that what it takes later can be taken back.
#[derive(Clone, Copy)]
pub struct Mark {
    /// How many of its chunks were being written or waited.
    pub(crate) count: usize,
    /// The numbers of its chunks.
    pub(crate) counted: Counted,
}

impl Member {
    /// What a leader that is opened has taken so far. What it takes after this, whatever that is, can be taken back, and
    /// then the leader is as it is now.
    pub fn mark(&self) -> Mark
        requires { IsOpen self.now.role }
        ensures marks { (chunks : List Chunk) → Marks result (offered_all chunks self.now) }
        ensures back { (chunks : List Chunk) → taken_back result (offered_all chunks self.now) ≡ self.now }
    {
        Mark {
            count: self.log.ahead().len(),
            counted: self.log.counted(),
        }
    }

    /// Takes back what a leader that is opened took since a mark was made. It takes no memory.
    pub fn take_back(&mut self, mark: Mark)
        requires open { IsOpen self.old.role }
        requires marked { Marks mark self.old }
        ensures { self.new ≡ taken_back mark self.old }
    {
        self.log.withdraw(mark.count, mark.counted);
        if mark.count == 0 {
            self.job = None;
        }
    }
}
