//! What is tracked of a list of chunks, up to some place.

ghost use Rattle.std.specs.Prelude.{◌≡◌, ◌-◌, ◌≤◌, [], length, take, OnOk};
ghost use Rattle.chunk_format.specs.Logs.{Truthful};
ghost use Rattle.tracking_state.specs.Tracked.{tracked_of};
ghost use Rattle.member_core.specs.Kept.{IsKnown};

use chunk_format::Stored;
use std::alloc::{AllocError, Global};
use tracking_state::Tracking;

/// What is tracked of the first chunks of a list.
#[derive(Drop)]
pub(crate) struct Known {
    pub tracking: Tracking,
    /// How many chunks that are.
    pub count: usize,
}

impl Known {
    /// Nothing of any list.
    pub(crate) fn nothing(alloc: Global) -> Known
        ensures count { result.count ≡ 0 }
        ensures tracks { result.tracking ≡ tracked_of [] }
    {
        Known {
            tracking: Tracking::empty(alloc),
            count: 0,
        }
    }

    /// Takes in the chunks that are left. Where nothing was taken in it begins at the last snapshot.
    pub(crate) fn catch_up(&mut self, alloc: Global, chunks: &[Stored]) -> Result<(), AllocError>
        requires truthful { Truthful chunks.now }
        requires known { IsKnown chunks.now self.old.count self.old.tracking }
        ensures known { IsKnown chunks.now self.new.count self.new.tracking }
        ensures ok { OnOk result (self.new.tracking ≡ tracked_of chunks.now) }
    {
        if self.count == 0 {
            self.tracking = Tracking::of_log(alloc, chunks)?;
            self.count = chunks.len();
            return Ok(());
        }
        'chunks: while self.count < chunks.len() {
            self.tracking.apply(&chunks[self.count])?;
            self.count += 1;
        }
        Ok(())
    }

    /// Of the list only a front of this length is left.
    pub(crate) fn shorten(&mut self, alloc: Global, chunks: &[Stored], len: usize)
        requires within { len ≤ length chunks.now }
        requires known { IsKnown chunks.now self.old.count self.old.tracking }
        ensures { IsKnown (take len chunks.now) self.new.count self.new.tracking }
    {
        let _chunks = chunks.len();
        if self.count > len {
            self.tracking = Tracking::empty(alloc);
            self.count = 0;
        }
    }
}
