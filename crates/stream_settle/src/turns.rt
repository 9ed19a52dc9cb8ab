//! A stream comes to rest, step by step.

ghost use Rattle.std.specs.Prelude.{◌≡◌, None, Some};
ghost use Rattle.settling_laws.specs.Settling.{Jobs, Letters, Rest, Stage, Settles, next_job, next_letter};
ghost use Rattle.stream_settle.specs.Settles.{Advances, Goes, IsAtRest, Leads, Progress, Ready, SameStream, DisksGo, AllInHand, around};

use crate::jobs::perform_next;
use crate::next::next_letter;
use crate::settled::{Settled, Turned, ended, turn, turned_on};
use disk_calls::Disk;
use member_stores::Stores;
use segment_store::EpochStore;
use stream_cluster::{Cluster, Event};

/// Pending jobs are performed until none is.
fn perform_all<D: Disk>(
    cluster: &mut Cluster,
    disks: &mut [D],
    epochs: &mut EpochStore,
    stores: &mut Stores,
    now: u64,
) -> Settled
    requires { Ready D.tells D.state cluster.old (around disks.old epochs.old stores.old) }
    ensures goes { Goes D.tells D.state (Advances now) cluster.old cluster.new (around disks.old epochs.old stores.old) (around disks.new epochs.new stores.new) }
    ensures rest { result ≡ Settled.Did → next_job cluster.new.state.cluster ≡ None }
{
    'turns: for _ in 0..u64::MAX {
        let turned = perform_next(cluster, disks, epochs, stores, now);
        if let Some(settled) = ended(turned) {
            return settled;
        }
    }
    Settled::Memory
}

/// With no job pending, the first message that is due is delivered.
#[tactic(auto, using(crate::proofs::Advancing::letter_leads, crate::proofs::Advancing::letter_same, crate::proofs::Advancing::leads_same, crate::proofs::Advancing::unmoved))]
fn deliver_next(cluster: &mut Cluster, now: u64) -> Turned
    requires { next_job cluster.old.state.cluster ≡ None }
    ensures leads { Leads now Letters Letters cluster.old cluster.new }
    ensures same { SameStream cluster.old cluster.new }
    ensures rest { result ≡ Turned.Rest → (next_job cluster.new.state.cluster ≡ None) × (next_letter cluster.new.state.cluster ≡ None) }
{
    match next_letter(cluster) {
        None => Turned::Rest,
        Some(number) => turned_on(turn(cluster, &Event::Deliver(number), now)),
    }
}

/// A pending job is performed, or with none pending a message is delivered.
fn follow_next<D: Disk>(
    cluster: &mut Cluster,
    disks: &mut [D],
    epochs: &mut EpochStore,
    stores: &mut Stores,
    now: u64,
) -> Turned
    requires { Ready D.tells D.state cluster.old (around disks.old epochs.old stores.old) }
    ensures goes { Goes D.tells D.state (Leads now Letters Letters) cluster.old cluster.new (around disks.old epochs.old stores.old) (around disks.new epochs.new stores.new) }
    ensures rest { result ≡ Turned.Rest → (next_job cluster.new.state.cluster ≡ None) × (next_letter cluster.new.state.cluster ≡ None) }
{
    match perform_next(cluster, disks, epochs, stores, now) {
        Turned::On => Turned::On,
        Turned::Rest => deliver_next(cluster, now),
        Turned::Memory => Turned::Memory,
    }
}

/// Messages are delivered, and jobs that arise performed at once, until none is left.
fn follow_all<D: Disk>(
    cluster: &mut Cluster,
    disks: &mut [D],
    epochs: &mut EpochStore,
    stores: &mut Stores,
    now: u64,
) -> Settled
    requires { Ready D.tells D.state cluster.old (around disks.old epochs.old stores.old) }
    ensures goes { Goes D.tells D.state (Leads now Letters Letters) cluster.old cluster.new (around disks.old epochs.old stores.old) (around disks.new epochs.new stores.new) }
    ensures rest { result ≡ Settled.Did → (next_job cluster.new.state.cluster ≡ None) × (next_letter cluster.new.state.cluster ≡ None) }
{
    'turns: for _ in 0..u64::MAX {
        let turned = follow_next(cluster, disks, epochs, stores, now);
        if let Some(settled) = ended(turned) {
            return settled;
        }
    }
    Settled::Memory
}

/// With no job pending all that may have been lost is sent again, once.
#[tactic(auto, using(crate::proofs::Advancing::nudge_leads, crate::proofs::Advancing::nudge_same))]
fn nudge(cluster: &mut Cluster, now: u64) -> Settled
    requires { next_job cluster.old.state.cluster ≡ None }
    ensures did { result ≡ Settled.Did → Leads now Jobs Letters cluster.old cluster.new }
    ensures same { SameStream cluster.old cluster.new }
    ensures memory { result ≡ Settled.Memory → cluster.new ≡ cluster.old }
{
    turn(cluster, &Event::Nudge, now)
}

/// With no job pending and no message left all messages are forgotten.
#[tactic(auto, using(crate::proofs::Advancing::forget_leads, crate::proofs::Advancing::forget_rests, crate::proofs::Advancing::forget_same))]
fn forget(cluster: &mut Cluster, now: u64) -> Settled
    requires jobs { next_job cluster.old.state.cluster ≡ None }
    requires letters { next_letter cluster.old.state.cluster ≡ None }
    ensures did { result ≡ Settled.Did → Leads now Letters Rest cluster.old cluster.new }
    ensures rest { result ≡ Settled.Did → IsAtRest cluster.new.state.cluster }
    ensures same { SameStream cluster.old cluster.new }
    ensures memory { result ≡ Settled.Memory → cluster.new ≡ cluster.old }
{
    turn(cluster, &Event::Forget, now)
}

/// Brings the stream to rest over its disks, at a moment in milliseconds: pending jobs are performed, each time that of
/// least number, until none is; then all that may have been lost is sent again; then messages are delivered by their
/// numbers, and jobs that arise performed at once, until none is left. Then all messages are forgotten. Disk 0 is that
/// of the coordinator, disk M that of member M. A job that is answered with a fault stops its member, whose store goes,
/// or the coordinator; so does one for which no store or no disk is there, or another's store. Messages to those that are down are passed
/// over.
///
/// After `Did` no job is pending and no message is there. After `Memory` what was done so far has happened; where a
/// member's job was done and the stream had no memory to take its receipt, that is kept beside the store, and the next
/// settle takes it and doesn't perform the job again. It never comes for want of anything but memory, but where
/// 18,446,744,073,709,551,615 steps were made.
pub fn settle<D: Disk>(
    cluster: &mut Cluster,
    disks: &mut [D],
    epochs: &mut EpochStore,
    stores: &mut Stores,
    now: u64,
) -> Settled
    requires { Ready D.tells D.state cluster.old (around disks.old epochs.old stores.old) }
    ensures settles { result ≡ Settled.Did → Settles now cluster.old.state.cluster cluster.new.state.cluster }
    ensures rest { result ≡ Settled.Did → IsAtRest cluster.new.state.cluster }
    ensures progress { (stage : Stage) × Progress now stage cluster.old cluster.new }
    ensures same { SameStream cluster.old cluster.new }
    ensures disks { DisksGo D.state cluster.old.number (around disks.old epochs.old stores.old) (around disks.new epochs.new stores.new) }
    ensures in_hand { D.tells → AllInHand D.state (around disks.new epochs.new stores.new) }
{
    let Settled::Did = perform_all(cluster, disks, epochs, stores, now) else {
        return Settled::Memory;
    };
    let Settled::Did = nudge(cluster, now) else {
        return Settled::Memory;
    };
    let Settled::Did = follow_all(cluster, disks, epochs, stores, now) else {
        return Settled::Memory;
    };
    forget(cluster, now)
}
