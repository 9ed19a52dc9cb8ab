//! Greatest ids and stored offsets of the committed list.

ghost use Rattle.std.specs.Prelude.{◌≡◌, [], IfOk, OnOk};
ghost use Rattle.chunk_format.specs.ByName.{Greatest, LastStored};
ghost use Rattle.tracking_state.specs.Tracked.{tracked_of};
ghost use Rattle.member_core.specs.Kept.{IsKnown};

use chunk_format::Stored;
use std::alloc::{AllocError, Global};
use tracking_state::Tracking;

/// What is tracked of the first chunks of a list that only grows.
#[derive(Drop)]
pub(crate) struct Index {
    pub(crate) tracking: Tracking,
    /// How many chunks that are.
    pub(crate) count: usize,
}

impl Index {
    /// Nothing of any list.
    pub(crate) fn nothing(alloc: Global) -> Index
        ensures count { result.count ≡ 0 }
        ensures tracks { result.tracking ≡ tracked_of [] }
    {
        Index {
            tracking: Tracking::empty(alloc),
            count: 0,
        }
    }

    /// Takes in the chunks that are left. Where memory runs out some of them are.
    fn catch_up(&mut self, chunks: &[Stored]) -> Result<(), AllocError>
        requires { IsKnown chunks.now self.old.count self.old.tracking }
        ensures known { IsKnown chunks.now self.new.count self.new.tracking }
        ensures ok { OnOk result (self.new.tracking ≡ tracked_of chunks.now) }
    {
        'chunks: while self.count < chunks.len() {
            self.tracking.apply(&chunks[self.count])?;
            self.count += 1;
        }
        Ok(())
    }

    /// The greatest id of a publisher in a list. It takes in first what the list got since the last question.
    pub(crate) fn greatest(
        &mut self,
        chunks: &[Stored],
        name: &[u8],
    ) -> Result<Option<u64>, AllocError>
        requires { IsKnown chunks.now self.old.count self.old.tracking }
        ensures known { IsKnown chunks.now self.new.count self.new.tracking }
        ensures greatest { IfOk result (λ id. id ≡ Greatest name.now chunks.now) }
    {
        self.catch_up(chunks)?;
        Ok(self.tracking.greatest(name))
    }

    /// The last offset that was stored for a consumer in a list. It takes in first what the list got since the last
    /// question.
    pub(crate) fn stored(
        &mut self,
        chunks: &[Stored],
        name: &[u8],
    ) -> Result<Option<u64>, AllocError>
        requires { IsKnown chunks.now self.old.count self.old.tracking }
        ensures known { IsKnown chunks.now self.new.count self.new.tracking }
        ensures stored { IfOk result (λ offset. offset ≡ LastStored name.now chunks.now) }
    {
        self.catch_up(chunks)?;
        Ok(self.tracking.stored(name))
    }
}
