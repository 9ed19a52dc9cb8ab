//! A stream of three members, and the stores in which their jobs are done.

use crate::answers::{offer_fault, outcome, taken};
use crate::chunks::{Log, had, three};
use crate::sure_disk::SureDisk;
use chunk_format::{Entry, Stored};
use cluster_core::Numbered;
use command_data::Tagged;
use epoch_coordinator::{Job, Message};
use frame_wire::{Limits, Octets, Row, Text};
use segment_store::{EpochStore, MemberStore, Receipt, Recovered};
use std::alloc::{AllocError, Global};
use stream_cluster::{Cluster, Event};
use stream_terms::Pass;

/// A call of a test. Each answers a number.
#[derive(Clone, Copy)]
pub(crate) enum Step {
    /// An election: the outcome.
    Elect,
    /// The pending job of a member, or of the coordinator as 0, is done: the outcome, and 0 where it has none.
    Work(u8),
    /// The message of a number is delivered: the outcome.
    Deliver(u64),
    /// All is done and delivered: 0 where nothing is left.
    Settle,
    /// All messages are forgotten: the outcome.
    Forget,
    /// A member goes down: the outcome.
    Stop(u8),
    /// A member comes up with this promise and log: the outcome.
    Restart(u8, u64, Log),
    /// A member goes down and comes up with what it has: the outcome.
    Again(u8),
    /// What may have been lost is sent again: the outcome.
    Nudge,
    /// The epoch that runs, or 0.
    Running,
    /// How many chunks the committed list has.
    Committed,
    /// How many chunks the log of a member has, which is up.
    Held(u8),
    /// A publisher of this name is declared: the serial of its pass.
    Declare(&'static [u8]),
    /// Items of these ids are offered with the last pass: 1,000 times the end, and how many were added.
    Offer(&'static [u64]),
    /// An offset is stored for the consumer `c`: 1,000 times the end, and 1.
    Store(u64),
    /// The confirms are taken: 1,000 times their number, and the sum of their ids.
    Confirms,
    /// The greatest id of a publisher in the list, or 0.
    Greatest(&'static [u8]),
    /// The offset that is stored for the consumer `c` in the list, or 0.
    Stored,
}

/// A stream of three members, and the stores in which their jobs are done.
#[derive(Drop)]
pub(crate) struct Played {
    alloc: Global,
    cluster: Cluster,
    disk: SureDisk,
    epochs: EpochStore,
    stores: Vec<MemberStore>,
    /// The pass that was given last.
    pass: Option<Pass>,
}

/// The number of the session of a test.
const SESSION: u32 = 7;

fn store_of(alloc: Global, disk: &mut SureDisk, member: u8) -> Result<MemberStore, AllocError> {
    match MemberStore::recover(alloc, disk, 1, member) {
        Ok(recovery) => Ok(recovery.store),
        Err(_) => Err(AllocError),
    }
}

fn stores_of(alloc: Global, disk: &mut SureDisk) -> Result<Vec<MemberStore>, AllocError> {
    let mut stores = Vec::new(alloc);
    for member in 1..4 {
        let store = store_of(alloc, disk, member)?;
        if stores.push(store).is_err() {
            return Err(AllocError);
        }
    }
    Ok(stores)
}

fn epochs_of(alloc: Global, disk: &mut SureDisk) -> Result<EpochStore, AllocError> {
    match EpochStore::recover(alloc, disk) {
        Ok(epochs) => Ok(epochs),
        Err(_) => Err(AllocError),
    }
}

/// A message: its receiver, the name of its kind, and its epoch.
pub(crate) type Mail = (u8, &'static str, u64);

fn mailed(letter: &Numbered) -> Mail {
    let to = letter.sent.to;
    match &letter.sent.message {
        Message::Stop { epoch } => (to, "stop", *epoch),
        Message::Stopped { epoch, .. } => (to, "stopped", *epoch),
        Message::Open { epoch } => (to, "open", *epoch),
        Message::Follow { epoch, .. } => (to, "follow", *epoch),
        Message::Shape { epoch, .. } => (to, "shape", *epoch),
        Message::Ask { epoch, .. } => (to, "ask", *epoch),
        Message::Append { epoch, .. } => (to, "append", *epoch),
    }
}

/// The same chunks.
fn shares(alloc: Global, log: &[Stored]) -> Result<Row<Stored>, AllocError> {
    let mut row = Row::new(alloc);
    for chunk in log {
        if row.push(chunk.share()?).is_err() {
            return Err(AllocError);
        }
    }
    Ok(row)
}

fn perform(
    disk: &mut SureDisk,
    store: &mut MemberStore,
    number: u64,
    job: &Job,
) -> Option<Receipt> {
    if !store.continues(job) {
        return None;
    }
    store.perform(disk, number, job).ok()
}

fn items_of(alloc: Global, ids: &[u64]) -> Result<Row<Tagged>, AllocError> {
    let mut items = Row::new(alloc);
    for id in ids {
        let entry = Entry::Simple(Octets::copy(alloc, b"x")?);
        if items.push(Tagged { id: *id, entry }).is_err() {
            return Err(AllocError);
        }
    }
    Ok(items)
}

fn sum_of(ids: &[u64]) -> u64 {
    let mut sum = 0u64;
    for id in ids {
        sum = sum.saturating_add(*id);
    }
    sum
}

impl Played {
    /// A stream over three members whose disks had nothing.
    pub(crate) fn new(alloc: Global, limits: Limits) -> Result<Played, AllocError> {
        Played::over(alloc, limits, 0, Log::Empty)
    }

    /// A stream over three members with the same log and promise, which is the epoch of the coordinator.
    pub(crate) fn over(
        alloc: Global,
        limits: Limits,
        promise: u64,
        log: Log,
    ) -> Result<Played, AllocError> {
        let starts = three(alloc, promise, log, log, log)?;
        let Ok(cluster) = Cluster::open(alloc, 1, limits, starts, promise) else {
            return Err(AllocError);
        };
        let mut disk = SureDisk::new();
        let epochs = epochs_of(alloc, &mut disk)?;
        let stores = stores_of(alloc, &mut disk)?;
        Ok(Played {
            alloc,
            cluster,
            disk,
            epochs,
            stores,
            pass: None,
        })
    }

    fn happen(&mut self, event: &Event) -> u64 {
        outcome(self.cluster.event(event, 0))
    }

    fn epoch_receipt(&mut self) -> Option<Receipt> {
        let (number, epoch) = self.cluster.epoch_job()?;
        self.epochs.perform(&mut self.disk, 1, number, epoch).ok()
    }

    fn member_receipt(&mut self, member: u8) -> Option<Receipt> {
        let (number, job) = self.cluster.job(member)?;
        let place = member.wrapping_sub(1) as usize;
        if place >= self.stores.len() {
            return None;
        }
        perform(&mut self.disk, &mut self.stores[place], number, job)
    }

    fn work(&mut self, member: u8) -> u64 {
        let receipt = match member {
            0 => self.epoch_receipt(),
            _ => self.member_receipt(member),
        };
        match receipt {
            None => 0,
            Some(receipt) => self.happen(&Event::Done(receipt)),
        }
    }

    /// How many jobs were done.
    fn work_all(&mut self) -> u64 {
        let mut done = 0u64;
        for member in 0..4 {
            if self.work(member) == 1 {
                done = done.saturating_add(1);
            }
        }
        done
    }

    /// The number of the first message that wasn't delivered, or 0.
    fn next_letter(&self) -> u64 {
        for letter in self.cluster.messages() {
            if !letter.delivered {
                return letter.number;
            }
        }
        0
    }

    fn settle(&mut self) -> u64 {
        for _ in 0..400 {
            let done = self.work_all();
            let number = self.next_letter();
            if number == 0 && done == 0 {
                return 0;
            }
            self.happen(&Event::Deliver(number));
        }
        1
    }

    fn restart(&mut self, member: u8, promise: u64, log: Log) -> u64 {
        match had(self.alloc, member, promise, log) {
            Ok(found) => self.happen(&Event::Restart(found)),
            Err(_) => 9_000_000,
        }
    }

    /// What a member has that is up.
    fn kept(&self, member: u8) -> Option<Recovered> {
        let promise = self.cluster.promise(member)?;
        let log = self.cluster.log(member)?;
        let chunks = shares(self.alloc, log).ok()?;
        Some(Recovered {
            member,
            promise,
            chunks,
        })
    }

    fn again(&mut self, member: u8) -> u64 {
        let Some(kept) = self.kept(member) else {
            return 9_000_000;
        };
        self.happen(&Event::Stop { member });
        self.happen(&Event::Restart(kept))
    }

    /// Whether these messages were sent from a place on, and no others.
    pub(crate) fn has_sent(&self, from: usize, mail: &[Mail]) -> bool {
        let letters = self.cluster.messages();
        if letters.len() < from || letters.len() - from != mail.len() {
            return false;
        }
        letters[from..]
            .iter()
            .zip(mail)
            .all(|(letter, wanted)| mailed(letter) == *wanted)
    }

    fn held(&self, member: u8) -> u64 {
        match self.cluster.log(member) {
            None => 9_000_000,
            Some(log) => log.len() as u64,
        }
    }

    fn declare(&mut self, name: &[u8]) -> u64 {
        if name.len() > 255 {
            return 9_000_000;
        }
        let Ok(name) = Text::copy(self.alloc, name) else {
            return 9_000_000;
        };
        let Ok(pass) = self.cluster.declare(SESSION, &name) else {
            return 1_000_000;
        };
        self.pass = Some(pass);
        u64::from(pass.serial)
    }

    fn offer(&mut self, ids: &[u64]) -> u64 {
        let Ok(items) = items_of(self.alloc, ids) else {
            return 9_000_000;
        };
        let Some(pass) = self.pass else {
            return 8_000_000;
        };
        offered(&mut self.cluster, &pass, items.as_slice())
    }

    fn store(&mut self, offset: u64) -> u64 {
        let Ok(name) = Text::copy(self.alloc, b"c") else {
            return 9_000_000;
        };
        match self.cluster.store_offset(&name, offset, 0) {
            Ok(stored) => taken(stored),
            Err(fault) => offer_fault(fault),
        }
    }

    fn confirms(&mut self) -> u64 {
        let Ok(confirms) = self.cluster.confirms(SESSION) else {
            return 9_000_000;
        };
        let mut told = 0u64;
        for confirm in confirms.as_slice() {
            told = told
                .saturating_add(1_000)
                .saturating_add(sum_of(confirm.ids.as_slice()));
        }
        told
    }

    fn greatest(&mut self, name: &[u8]) -> u64 {
        match self.cluster.greatest(name) {
            Ok(id) => id.unwrap_or(0),
            Err(_) => 9_000_000,
        }
    }

    fn stored(&mut self) -> u64 {
        match self.cluster.stored(b"c") {
            Ok(offset) => offset.unwrap_or(0),
            Err(_) => 9_000_000,
        }
    }

    /// The answer of a call.
    pub(crate) fn answer(&mut self, step: Step) -> u64 {
        match step {
            Step::Elect => self.happen(&Event::Elect),
            Step::Work(member) => self.work(member),
            Step::Deliver(number) => self.happen(&Event::Deliver(number)),
            Step::Settle => self.settle(),
            Step::Forget => self.happen(&Event::Forget),
            Step::Stop(member) => self.happen(&Event::Stop { member }),
            Step::Restart(member, promise, log) => self.restart(member, promise, log),
            Step::Again(member) => self.again(member),
            Step::Nudge => self.happen(&Event::Nudge),
            Step::Running => self.cluster.running().unwrap_or(0),
            Step::Committed => self.cluster.committed().len() as u64,
            Step::Held(member) => self.held(member),
            Step::Declare(name) => self.declare(name),
            Step::Offer(ids) => self.offer(ids),
            Step::Store(offset) => self.store(offset),
            Step::Confirms => self.confirms(),
            Step::Greatest(name) => self.greatest(name),
            Step::Stored => self.stored(),
        }
    }
}

fn offered(cluster: &mut Cluster, pass: &Pass, items: &[Tagged]) -> u64 {
    if items.is_empty() || items.len() > 1_048_576 {
        return 9_000_000;
    }
    match cluster.offer(pass, items, 0) {
        Ok(one) => taken(one),
        Err(fault) => offer_fault(fault),
    }
}
