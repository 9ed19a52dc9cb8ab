//! The limits of what a leader takes.

ghost use Rattle.std.specs.Prelude.{◌≡◌, ◌+◌, ◌≤◌, nat_lt, length, IfOk, IfErr, OnOk};
ghost use Rattle.epoch_coordinator.specs.Members.{sequence_of};
ghost use Rattle.member_core.specs.Kept.{bytes_of, plain_count};
ghost use Rattle.member_core.specs.States.{waiting_of};
ghost use Rattle.leader_offers.specs.Adds.{references_of, consumers_of, new_names};
ghost use Rattle.leader_offers.specs.Leads.{IsFull};

use frame_wire::Limits;
use member_core::Member;
use std::alloc::AllocError;
use stream_terms::{OfferFault, What};

/// Whether a name that is known or new makes more names than this.
fn is_more(count: u64, name: &[u8], known: Option<u64>, most: u32) -> bool
    ensures { result ≡ nat_lt most (count + new_names name.now known) }
{
    let most = u64::from(most);
    if name.is_empty() {
        return most < count;
    }
    match known {
        None => most <= count,
        Some(_) => most < count,
    }
}

/// Whether a publisher, of whom this is the greatest id so far, makes more publishers than there may be.
pub(crate) fn more_references(
    leader: &mut Member,
    limits: &Limits,
    name: &[u8],
    greatest: Option<u64>,
) -> Result<bool, AllocError>
    ensures more { IfOk result (λ more. more ≡ nat_lt limits.now.references (references_of (sequence_of leader.old) + new_names name.now greatest)) }
    ensures same { leader.new ≡ leader.old }
{
    let (references, _) = leader.names()?;
    Ok(is_more(references, name, greatest, limits.references))
}

/// Whether a consumer, for whom this offset was stored so far, makes more consumers than there may be.
pub(crate) fn more_consumers(
    leader: &mut Member,
    limits: &Limits,
    name: &[u8],
    stored: Option<u64>,
) -> Result<bool, AllocError>
    ensures more { IfOk result (λ more. more ≡ nat_lt limits.now.consumers (consumers_of (sequence_of leader.old) + new_names name.now stored)) }
    ensures same { leader.new ≡ leader.old }
{
    let (_, consumers) = leader.names()?;
    Ok(is_more(consumers, name, stored, limits.consumers))
}

/// Looks at the bytes of a leader's sequence, and at the chunks of it that aren't written.
pub(crate) fn check_room(leader: &Member, limits: &Limits) -> Result<(), OfferFault>
    ensures bytes { OnOk result (bytes_of (sequence_of leader.now) ≤ limits.now.log_bytes) }
    ensures queue { OnOk result (plain_count (waiting_of leader.now) ≤ limits.now.queue) }
    ensures full { IfErr result (IsFull limits.now leader.now) }
{
    if leader.bytes() > limits.log_bytes {
        return Err(OfferFault::Limit {
            what: What::LogBytes,
            most: limits.log_bytes,
        });
    }
    if leader.queued() > u64::from(limits.queue) {
        return Err(OfferFault::Limit {
            what: What::Queue,
            most: u64::from(limits.queue),
        });
    }
    Ok(())
}
