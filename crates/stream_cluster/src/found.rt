//! Whether a disk may have what was found on it.

ghost use Rattle.std.specs.Prelude.{◌≡◌, ◌↔◌, ◌++◌, ◌∷◌, [], IsTrue};
ghost use Rattle.chunk_format.specs.Logs.{GoesOn};
ghost use Rattle.replication_laws.specs.Cluster.{Holds, MayPromise};
ghost use Rattle.stream_cluster.specs.Restarts.{MayHave};

use chunk_format::Stored;
use cluster_core::{common, list_end, same_chunk};
use epoch_coordinator::Job;
use member_core::Member;

/// Whether a list begins another one.
fn begins(one: &[Stored], other: &[Stored]) -> bool
    ensures { IsTrue result ↔ GoesOn one.now other.now }
{
    common(one, other) == one.len()
}

/// Whether two lists have the same chunks.
fn is_same(one: &[Stored], other: &[Stored]) -> bool
    ensures { IsTrue result ↔ (other.now ≡ one.now) }
{
    if one.len() != other.len() {
        return false;
    }
    begins(one, other)
}

/// Whether a list is another one and a chunk behind it.
fn is_with(log: &[Stored], chunk: &Stored, found: &[Stored]) -> bool
    ensures { IsTrue result ↔ (found.now ≡ log.now ++ chunk.now ∷ []) }
{
    if found.len() != log.len() + 1 {
        return false;
    }
    if !same_chunk(&found[log.len()], chunk) {
        return false;
    }
    begins(log, found)
}

/// Whether the disk of a member may have these chunks: its job, which is pending or was cut off, is done or not, and a cut
/// may be done in part.
fn may_hold(member: &Member, found: &[Stored]) -> bool
    ensures { IsTrue result ↔ Holds member.now found.now }
{
    let log = member.log();
    match member.job() {
        None => is_same(log, found),
        Some(Job::Write(chunk)) => is_same(log, found) || is_with(log, chunk, found),
        Some(Job::Cut(end)) => begins(found, log) && *end <= list_end(found),
        Some(Job::Promise(_)) => is_same(log, found),
        Some(Job::Epoch(_)) => is_same(log, found),
    }
}

/// Whether the disk of a member may have this promise.
fn may_promise(member: &Member, promise: u64) -> bool
    ensures { IsTrue result ↔ MayPromise member.now promise }
{
    if promise == member.promise() {
        return true;
    }
    match member.job() {
        None => false,
        Some(Job::Write(_)) => false,
        Some(Job::Cut(_)) => false,
        Some(Job::Promise(epoch)) => *epoch == promise,
        Some(Job::Epoch(_)) => false,
    }
}

/// Whether the disk of a member may have these chunks and this promise.
pub(crate) fn may_have(member: &Member, promise: u64, found: &[Stored]) -> bool
    ensures { IsTrue result ↔ MayHave member.now promise found.now }
{
    if !may_promise(member, promise) {
        return false;
    }
    may_hold(member, found)
}
