//! A coordinator and three members, with all that they sent.

ghost use Rattle.std.specs.Prelude.{◌≡◌, IfOk};

use chunk_format::Stored;
use epoch_coordinator::{Coordinator, Message, Sent, StoppedDid};
use frame_wire::Row;
use member_core::{Member, MemberStart, Taken};
use std::alloc::{AllocError, Global};

/// A message, and whether it was delivered.
#[derive(Drop)]
pub struct Letter {
    pub sent: Sent,
    pub delivered: bool,
}

/// A coordinator, three members by number, and all messages in the order of their sending.
#[derive(Drop)]
pub struct Trio {
    pub alloc: Global,
    pub coordinator: Coordinator,
    pub members: Vec<Member>,
    pub letters: Vec<Letter>,
}

/// The same chunks.
fn copy(alloc: Global, log: &[Stored]) -> Result<Row<Stored>, AllocError>
    ensures { IfOk result (λ chunks. chunks ≡ log.now) }
{
    let mut chunks = Row::new(alloc);
    for chunk in log {
        let shared = chunk.share()?;
        if let Err(_) = chunks.push(shared) {
            return Err(AllocError);
        }
    }
    Ok(chunks)
}

/// A member that comes up with an empty disk.
fn fresh(alloc: Global, member: u8) -> Result<Member, AllocError> {
    let start = MemberStart {
        member,
        promise: 0,
        chunks: Row::new(alloc),
    };
    Member::restart(alloc, 3, start)
}

/// A member that went down and comes up with its log and its promise.
fn again(alloc: Global, member: &Member) -> Result<Member, AllocError> {
    let chunks = copy(alloc, member.log())?;
    let start = MemberStart {
        member: member.number(),
        promise: member.promise(),
        chunks,
    };
    Member::restart(alloc, 3, start)
}

fn push_member(members: &mut Vec<Member>, member: Member) -> Result<(), AllocError> {
    match members.push(member) {
        Ok(()) => Ok(()),
        Err(_) => Err(AllocError),
    }
}

impl Trio {
    /// Nobody wrote anything yet.
    pub fn new(alloc: Global) -> Result<Trio, AllocError> {
        let mut members = Vec::new(alloc);
        push_member(&mut members, fresh(alloc, 1)?)?;
        push_member(&mut members, fresh(alloc, 2)?)?;
        push_member(&mut members, fresh(alloc, 3)?)?;
        Ok(Trio {
            alloc,
            coordinator: Coordinator::open(alloc, 3, 0)?,
            members,
            letters: Vec::new(alloc),
        })
    }

    fn post_one(&mut self, to: u8, message: Message) -> Result<(), AllocError> {
        let letter = Letter {
            sent: Sent { to, message },
            delivered: false,
        };
        match self.letters.push(letter) {
            Ok(()) => Ok(()),
            Err(_) => Err(AllocError),
        }
    }

    fn post(&mut self, sent: Row<Sent>) -> Result<(), AllocError> {
        for one in sent.into_vec() {
            let Sent { to, message } = one;
            self.post_one(to, message)?;
        }
        Ok(())
    }

    pub fn elect(&mut self) {
        self.coordinator.elect();
    }

    /// The pending job of a member, or of the coordinator, is done.
    pub fn work(&mut self, member: u8) -> Result<(), AllocError> {
        if member == 0 {
            return self.begin();
        }
        let place = member as usize - 1;
        if place >= self.members.len() || self.members[place].job().is_none() {
            return Ok(());
        }
        let sent = self.members[place].done()?;
        self.post(sent)
    }

    fn begin(&mut self) -> Result<(), AllocError> {
        if self.coordinator.job().is_none() {
            return Ok(());
        }
        let sent = self.coordinator.done()?;
        self.post(sent)
    }

    /// Delivers the letter at a place.
    pub fn deliver(&mut self, place: usize) -> Result<(), AllocError> {
        if place >= self.letters.len() {
            return Ok(());
        }
        self.letters[place].delivered = true;
        let to = self.letters[place].sent.to as usize;
        if to == 0 {
            return self.coordinate(place);
        }
        if to > self.members.len() {
            return Ok(());
        }
        let taken = self.members[to - 1].take(&self.letters[place].sent.message, 0)?;
        match taken {
            Taken::Done(sent) => self.post(sent),
            Taken::Later => Ok(()),
        }
    }

    fn coordinate(&mut self, place: usize) -> Result<(), AllocError> {
        if place >= self.letters.len() {
            return Ok(());
        }
        let Message::Stopped { epoch, from, tail } = &self.letters[place].sent.message else {
            return Ok(());
        };
        let answer = self.coordinator.stopped(*epoch, *from, *tail);
        match answer {
            StoppedDid::Later | StoppedDid::Nothing => Ok(()),
            StoppedDid::Send1(sent) => {
                let Sent { to, message } = sent;
                self.post_one(to, message)
            }
            StoppedDid::Opened {
                epoch,
                leader,
                electors,
            } => self.open(epoch, leader, electors),
        }
    }

    fn open(&mut self, epoch: u64, leader: u8, electors: u8) -> Result<(), AllocError> {
        self.post_one(leader, Message::Open { epoch })?;
        for (member, bit) in [(1, 1), (2, 2), (3, 4)] {
            if member != leader && electors & bit != 0 {
                self.post_one(member, Message::Follow { epoch, leader })?;
            }
        }
        Ok(())
    }

    /// A member goes down and comes up.
    pub fn restart(&mut self, member: u8) -> Result<(), AllocError> {
        let place = member as usize;
        if place == 0 || place > self.members.len() {
            return Ok(());
        }
        let up = again(self.alloc, &self.members[place - 1])?;
        self.members[place - 1] = up;
        Ok(())
    }

    /// All pending jobs are done.
    fn work_all(&mut self) -> Result<(), AllocError> {
        for member in 0..4 {
            self.work(member)?;
        }
        Ok(())
    }

    fn nudge(&mut self) -> Result<(), AllocError> {
        let sent = self.coordinator.nudge(self.alloc)?;
        self.post(sent)?;
        for place in 0..self.members.len() {
            if place < self.members.len() {
                let sent = self.members[place].nudge(self.alloc)?;
                self.post(sent)?;
            }
        }
        Ok(())
    }

    /// Does what is pending, nudges once, and delivers all that wasn't delivered, with the jobs that
    /// arise. It ends after 200 letters.
    pub fn settle(&mut self) -> Result<(), AllocError> {
        self.work_all()?;
        self.nudge()?;
        for place in 0..200 {
            if place >= self.letters.len() {
                break;
            }
            if !self.letters[place].delivered {
                self.deliver(place)?;
                self.work_all()?;
            }
        }
        Ok(())
    }

    /// Forgets all letters: numbers begin anew.
    pub fn forget(&mut self) {
        self.letters.clear();
    }

    /// How many chunks the members have, where the leader's commit reaches, by number.
    pub fn counts(&self) -> [(usize, u64); 3] {
        let mut counts = [(0, 0); 3];
        for place in 0..3 {
            if place < self.members.len() {
                let member = &self.members[place];
                counts[place] = (member.log().len(), member.commit_end());
            }
        }
        counts
    }
}
