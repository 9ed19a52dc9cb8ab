//! What may be committed next is shared before anything changes.

ghost use Rattle.std.specs.Prelude.{◌≡◌, ◌++◌, ◌∷◌, [], drop, OnOk, IfOk};
ghost use Rattle.epoch_coordinator.specs.Members.{job_chunks};
ghost use Rattle.cluster_core.specs.Parts.{ahead_of};
ghost use Rattle.cluster_core.specs.Kept.{ahead_at};

use chunk_format::Stored;
use epoch_coordinator::Job;
use frame_wire::Row;
use member_core::{Member, Role};
use std::alloc::{AllocError, Global};

/// Shares one chunk behind others.
fn share_one(ahead: &mut Vec<Stored>, chunk: &Stored) -> Result<(), AllocError>
    ensures { OnOk result (ahead.new.items ≡ ahead.old.items ++ chunk.now ∷ []) }
{
    let shared = chunk.share()?;
    match ahead.push(shared) {
        Ok(()) => Ok(()),
        Err(_) => Err(AllocError),
    }
}

/// Shares chunks, in order.
pub(crate) fn share_all(alloc: Global, chunks: &[Stored]) -> Result<Row<Stored>, AllocError>
    ensures { IfOk result (λ shared. shared ≡ chunks.now) }
{
    let mut shared = Row::new(alloc);
    for chunk in chunks {
        if shared.push(chunk.share()?).is_err() {
            return Err(AllocError);
        }
    }
    Ok(shared)
}

/// The chunks of a list behind so many.
fn behind(chunks: &[Stored], count: usize) -> &[Stored]
    ensures { result.now ≡ drop count chunks.now }
{
    if chunks.len() <= count {
        return &[];
    }
    &chunks[count..]
}

/// The chunk that a member writes is shared behind others.
fn share_job(ahead: &mut Vec<Stored>, member: &Member) -> Result<(), AllocError>
    ensures { OnOk result (ahead.new.items ≡ ahead.old.items ++ job_chunks member.now.job) }
{
    match member.job() {
        None => Ok(()),
        Some(Job::Write(chunk)) => share_one(ahead, chunk),
        Some(Job::Cut(_)) => Ok(()),
        Some(Job::Promise(_)) => Ok(()),
        Some(Job::Epoch(_)) => Ok(()),
    }
}

/// The chunks of a member's log behind so many, and the one that it writes.
fn share_ahead(alloc: Global, member: &Member, count: usize) -> Result<Vec<Stored>, AllocError>
    ensures { IfOk result (λ v. v.items ≡ ahead_of count member.now) }
{
    let log = member.log();
    let mut ahead = share_all(alloc, behind(log, count))?.into_vec();
    if count <= log.len() {
        share_job(&mut ahead, member)?;
    }
    Ok(ahead)
}

/// What a member may commit next, behind so many chunks: nothing where it doesn't lead.
pub(crate) fn ahead(alloc: Global, member: &Member, count: usize) -> Result<Vec<Stored>, AllocError>
    ensures { IfOk result (λ v. v.items ≡ ahead_at count member.now) }
{
    match member.role() {
        Role::Stopped => Ok(Vec::new(alloc)),
        Role::Follower { leader: _ } => Ok(Vec::new(alloc)),
        Role::Leader { opened: _ } => share_ahead(alloc, member, count),
    }
}
