//! Jobs are performed.

ghost use Rattle.std.specs.Prelude.{◌≡◌, ◌≤◌, ◌<◌, true, false, None, Some, IfOk, IfSome};
ghost use Rattle.disk_calls.specs.Frames.{Besides, OtherStreams};
ghost use Rattle.gated_words.specs.Files.{second_file};
ghost use Rattle.gated_words.specs.Backing.{Backs};
ghost use Rattle.segment_store.specs.Receipts.{JobDone};
ghost use Rattle.settling_laws.specs.Settling.{next_job};
ghost use Rattle.member_stores.specs.Shelves.{BackedShelf, OthersStay, keeping, shelf_of};
ghost use Rattle.member_stores.specs.Works.{UnlessBroken};
ghost use Rattle.stream_cluster.specs.declared.event.Event.TheVariants as events;
ghost use Rattle.stream_settle.specs.Settles.{Advances, Goes, Ready, SameStream, around, is_memory};

use crate::next::next_job;
use crate::settled::{Settled, Turned, turn, turned_on};
use disk_calls::Disk;
use member_stores::{Stores, WorkFault};
use segment_store::{EpochStore, Receipt, StoreFault};
use stream_cluster::{Cluster, Event};

/// Whether a fault is want of memory.
fn is_memory(fault: &WorkFault) -> bool
    ensures { result ≡ is_memory fault.now }
{
    match fault {
        WorkFault::NoStore => false,
        WorkFault::Apart => false,
        WorkFault::Store(StoreFault::Disk) => false,
        WorkFault::Store(StoreFault::Damaged { segment: _, at: _ }) => false,
        WorkFault::Store(StoreFault::DamagedWords { place: _ }) => false,
        WorkFault::Store(StoreFault::Memory) => true,
    }
}

/// The receipt of an event that didn't happen.
fn receipt_of(event: Event) -> Option<Receipt>
    ensures { (receipt : JobDone) → event ≡ events.Done receipt → result ≡ Some receipt }
{
    match event {
        Event::Elect => None,
        Event::Deliver(_number) => None,
        Event::Lose(_number) => None,
        Event::Forget => None,
        Event::Nudge => None,
        Event::Done(receipt) => Some(receipt),
        Event::Stop { member: _member } => None,
        Event::Restart(_recovered) => None,
        Event::Reopen { epoch: _epoch } => None,
    }
}

/// Keeps the receipt of a member that could not be taken.
fn keep_back(stores: &mut Stores, member: u8, event: Event)
    ensures kept { (receipt : JobDone) → event ≡ events.Done receipt → IfSome (shelf_of member stores.old) (λ on. shelf_of member stores.new ≡ Some (keeping receipt on)) }
    ensures none { shelf_of member stores.old ≡ None → shelf_of member stores.new ≡ None }
    ensures others { OthersStay member stores.old stores.new }
{
    match receipt_of(event) {
        None => (),
        Some(receipt) => keep(stores, member, receipt),
    }
}

/// Keeps the receipt of a member that could not be taken.
fn keep(stores: &mut Stores, member: u8, receipt: Receipt)
    ensures kept { IfSome (shelf_of member stores.old) (λ on. shelf_of member stores.new ≡ Some (keeping receipt on)) }
    ensures others { OthersStay member stores.old stores.new }
    ensures none { shelf_of member stores.old ≡ None → shelf_of member stores.new ≡ None }
{
    let _back = stores.keep(member, receipt);
}

/// The coordinator's job is performed, or the coordinator goes down.
#[tactic(auto, using(crate::proofs::Advancing::done_advances, crate::proofs::Advancing::done_same, crate::proofs::Advancing::rests, crate::proofs::Advancing::unmoved))]
fn answer_epoch<D: Disk>(
    cluster: &mut Cluster,
    disk: &mut D,
    epochs: &mut EpochStore,
    now: u64,
) -> Settled
    requires due { next_job cluster.old.state.cluster ≡ Some 0 }
    requires backed { D.tells → Backs epochs.old (D.state disk.old) }
    ensures same { SameStream cluster.old cluster.new }
    ensures advances { Advances now cluster.old cluster.new }
    ensures backed { D.tells → Backs epochs.new (D.state disk.new) }
    ensures id { epochs.new.id ≡ epochs.old.id }
    ensures others { Besides epochs.old.id (second_file epochs.old.id) (D.state disk.old) (D.state disk.new) }
    ensures faults { (D.state disk.old).faults ≤ (D.state disk.new).faults }
{
    let Some((number, epoch)) = cluster.epoch_job() else {
        return Settled::Memory;
    };
    match epochs.perform(disk, cluster.stream(), number, epoch) {
        Ok(receipt) => turn(cluster, &Event::Done(receipt), now),
        Err(StoreFault::Memory) => Settled::Memory,
        Err(_) => fail(cluster, 0, now),
    }
}

/// A job of a member is performed by its store, or a receipt of it that was kept is handed out.
fn work<D: Disk>(
    cluster: &Cluster,
    disk: &mut D,
    stores: &mut Stores,
    member: u8,
) -> Result<Receipt, WorkFault>
    requires { D.tells → BackedShelf (shelf_of member stores.old) (D.state disk.old) }
    ensures receipt { IfOk result (λ r. r.member ≡ member) }
    ensures backed { D.tells → UnlessBroken result (BackedShelf (shelf_of member stores.new) (D.state disk.new)) }
    ensures others { OthersStay member stores.old stores.new }
    ensures streams { OtherStreams cluster.now.number (D.state disk.old) (D.state disk.new) }
    ensures faults { (D.state disk.old).faults ≤ (D.state disk.new).faults }
{
    match cluster.job(member) {
        None => Err(WorkFault::NoStore),
        Some((number, job)) => stores.perform(disk, cluster.stream(), member, number, job),
    }
}

/// The receipt of a member's job is taken, or kept beside its store where memory runs out.
#[tactic(auto, using(crate::proofs::Advancing::done_advances, crate::proofs::Advancing::done_same))]
fn receive(
    cluster: &mut Cluster,
    stores: &mut Stores,
    member: u8,
    receipt: Receipt,
    now: u64,
) -> Settled
    requires due { next_job cluster.old.state.cluster ≡ Some member }
    requires of { receipt.member ≡ member }
    ensures same { SameStream cluster.old cluster.new }
    ensures advances { Advances now cluster.old cluster.new }
    ensures others { OthersStay member stores.old stores.new }
    ensures did { result ≡ Settled.Did → stores.new ≡ stores.old }
    ensures kept { result ≡ Settled.Memory → IfSome (shelf_of member stores.old) (λ on. shelf_of member stores.new ≡ Some (keeping receipt on)) }
    ensures none { shelf_of member stores.old ≡ None → shelf_of member stores.new ≡ None }
{
    let event = Event::Done(receipt);
    if let Settled::Did = turn(cluster, &event, now) {
        return Settled::Did;
    }
    keep_back(stores, member, event);
    Settled::Memory
}

/// The coordinator, number 0, or a member whose job was answered with a fault goes down.
#[tactic(auto, using(crate::proofs::Advancing::stop_advances, crate::proofs::Advancing::stop_same))]
fn fail(cluster: &mut Cluster, member: u8, now: u64) -> Settled
    requires { next_job cluster.old.state.cluster ≡ Some member }
    ensures same { SameStream cluster.old cluster.new }
    ensures advances { Advances now cluster.old cluster.new }
{
    turn(cluster, &Event::Stop { member }, now)
}

/// A member's job was answered with a fault: its store goes, and it goes down. Want of memory is none.
#[tactic(auto, using(crate::proofs::Advancing::rests, crate::proofs::Advancing::unmoved))]
fn fail_member(
    cluster: &mut Cluster,
    stores: &mut Stores,
    member: u8,
    fault: &WorkFault,
    now: u64,
) -> Settled
    requires { next_job cluster.old.state.cluster ≡ Some member }
    ensures same { SameStream cluster.old cluster.new }
    ensures advances { Advances now cluster.old cluster.new }
    ensures memory { is_memory fault.now ≡ true → stores.new ≡ stores.old }
    ensures gone { is_memory fault.now ≡ false → shelf_of member stores.new ≡ None }
    ensures others { OthersStay member stores.old stores.new }
{
    if is_memory(fault) {
        return Settled::Memory;
    }
    let _store = stores.take(member);
    fail(cluster, member, now)
}

/// The job of a member is performed, or the member goes down.
fn answer_member<D: Disk>(
    cluster: &mut Cluster,
    disk: &mut D,
    stores: &mut Stores,
    member: u8,
    now: u64,
) -> Settled
    requires due { next_job cluster.old.state.cluster ≡ Some member }
    requires backed { D.tells → BackedShelf (shelf_of member stores.old) (D.state disk.old) }
    ensures same { SameStream cluster.old cluster.new }
    ensures advances { Advances now cluster.old cluster.new }
    ensures backed { D.tells → BackedShelf (shelf_of member stores.new) (D.state disk.new) }
    ensures stores { OthersStay member stores.old stores.new }
    ensures streams { OtherStreams cluster.old.number (D.state disk.old) (D.state disk.new) }
    ensures faults { (D.state disk.old).faults ≤ (D.state disk.new).faults }
{
    match work(cluster, disk, stores, member) {
        Ok(receipt) => receive(cluster, stores, member, receipt, now),
        Err(fault) => fail_member(cluster, stores, member, &fault, now),
    }
}

/// The job of the coordinator, number 0, or of a member is performed, or who has it goes down, as one without a disk does.
fn answer<D: Disk>(
    cluster: &mut Cluster,
    disks: &mut [D],
    epochs: &mut EpochStore,
    stores: &mut Stores,
    member: u8,
    now: u64,
) -> Settled
    requires ready { Ready D.tells D.state cluster.old (around disks.old epochs.old stores.old) }
    requires due { next_job cluster.old.state.cluster ≡ Some member }
    ensures { Goes D.tells D.state (Advances now) cluster.old cluster.new (around disks.old epochs.old stores.old) (around disks.new epochs.new stores.new) }
{
    let place = member as usize;
    if place >= disks.len() {
        return fail(cluster, member, now);
    }
    if member == 0 {
        return answer_epoch(cluster, &mut disks[place], epochs, now);
    }
    answer_member(cluster, &mut disks[place], stores, member, now)
}

/// The pending job of least number is performed, or who has it goes down.
pub(crate) fn perform_next<D: Disk>(
    cluster: &mut Cluster,
    disks: &mut [D],
    epochs: &mut EpochStore,
    stores: &mut Stores,
    now: u64,
) -> Turned
    requires { Ready D.tells D.state cluster.old (around disks.old epochs.old stores.old) }
    ensures goes { Goes D.tells D.state (Advances now) cluster.old cluster.new (around disks.old epochs.old stores.old) (around disks.new epochs.new stores.new) }
    ensures rest { result ≡ Turned.Rest → next_job cluster.new.state.cluster ≡ None }
{
    match next_job(cluster) {
        None => Turned::Rest,
        Some(member) => turned_on(answer(cluster, disks, epochs, stores, member, now)),
    }
}
