//! What a majority of the members has.

ghost use Rattle.std.specs.Prelude.{◌≡◌, ◌≤◌, length, true, false};
ghost use Rattle.std.specs.List.Sorted.{IsPartitionPoint};
ghost use Rattle.chunk_format.specs.Chunks.{end_of_chunk};
ghost use Rattle.chunk_format.specs.Logs.{IsLog, last_epoch};
ghost use Rattle.epoch_coordinator.specs.MemberSteps.{reaching, commit_end};
ghost use Rattle.member_core.specs.States.{has_majority, commit_over};

use crate::duty::Duty;
use crate::member::Member;
use crate::search::{chunk_end, tail_after};
use chunk_format::Stored;

/// How many of the ends reach an offset.
fn reaching(ends: &[u64], end: u64) -> usize
    ensures { result ≡ reaching end ends.now }
{
    let mut count = 0;
    for reached in ends {
        if end <= *reached {
            count += 1;
        }
    }
    count
}

/// Whether a majority has what ends at an offset: the leader, and those that acknowledged it.
fn has_majority(members: u8, acknowledged: &[u64], end: u64) -> bool
    ensures { result ≡ has_majority members acknowledged.now end }
{
    members as usize / 2 <= reaching(acknowledged, end)
}

/// How many chunks at the front of a log a majority has. It looks at one chunk for each halving of
/// the log.
fn common_count(log: &[Stored], members: u8, acknowledged: &[u64]) -> usize
    requires { IsLog log.now }
    ensures point { IsPartitionPoint (λ c. has_majority members acknowledged.now (end_of_chunk c) ≡ true) (λ c. has_majority members acknowledged.now (end_of_chunk c) ≡ false) log.now result }
    ensures within { result ≤ length log.now }
{
    log.partition_point(|chunk| has_majority(members, acknowledged, chunk_end(chunk)))
}

/// The greatest end of a chunk of an epoch that a majority has, or 0. No chunk is of a later epoch.
fn commit_over(log: &[Stored], epoch: u64, members: u8, acknowledged: &[u64]) -> u64
    requires is_log { IsLog log.now }
    requires last { last_epoch log.now ≤ epoch }
    ensures { result ≡ commit_over epoch members acknowledged.now 0 log.now }
{
    let count = common_count(log, members, acknowledged);
    if count == 0 {
        return 0;
    }
    let tail = tail_after(&log[count - 1]);
    if tail.epoch == epoch { tail.end } else { 0 }
}

impl Member {
    /// A leader's greatest end of a chunk of its own epoch that a majority has, itself by its log and
    /// others by acknowledgement; 0 where there is none. It looks at one chunk for each halving of the
    /// log.
    pub fn commit_end(&self) -> u64
        ensures { result ≡ commit_end self.now }
    {
        match &self.duty {
            Duty::Stopped => 0,
            Duty::Follower { leader: _ } => 0,
            Duty::Leader(lead) => {
                let members = self.members as usize;
                commit_over(
                    self.log.log(),
                    self.promise,
                    self.members,
                    &lead.acknowledged[..members],
                )
            }
        }
    }
}
