//! The messages of a client that aren't confirmed.

ghost use Rattle.std.specs.Prelude.{◌≡◌, ◌+◌, ◌<◌, ◌≤◌, ◌++◌, ◌∷◌, [], length, Err, OnOk, OnErr};
ghost use Rattle.confirmed_ids.specs.Ids.{AreApart};
ghost use Rattle.client_terms.specs.States.{ClientState};
ghost use Rattle.client_terms.specs.Sending.{is_empty};
ghost use Rattle.stream_client.specs.Dues.{next_of, IfPublishes};
ghost use Rattle.client_terms.specs.Hearing.{LearnStep};
ghost use Rattle.stream_client.specs.Outboxes.{posting, message_in, Enqueues, IsNext, LearnsSome};

use crate::due::Due;
use crate::queue::Queue;
use client_terms::EnqueueFault;
use confirmed_ids::ConfirmedIds;
use frame_wire::Octets;
use std::alloc::{AllocError, Global};
use std::marker::Model;

/// The greatest length of a message, in bytes.
const MESSAGE_MAX: usize = 1_000_000;

/// How far behind the confirmed id a message is sent.
const WINDOW: u64 = 256;

/// The messages that aren't confirmed, under their ids: the first is the one behind the confirmed id.
#[derive(Debug, Drop)]
pub struct Outbox {
    alloc: Global,
    ids: ConfirmedIds,
    queue: Queue<Octets>,
    /// The last id that was sent since the connection.
    last: u64,
}

impl Model for Outbox {
    ghost use Rattle.stream_client.specs.Outboxes.{Outgoing, IsOutgoing};

    ghost Value = { Outgoing };

    ghost view = { λ o. record { confirmed = o.ids.upto; above = o.ids.above; queue = o.queue; last = o.last } };

    ghost invariant = { λ o. IsOutgoing (record { confirmed = o.ids.upto; above = o.ids.above; queue = o.queue; last = o.last }) };
}

impl Outbox {
    /// No messages, where all ids up to one are confirmed. It takes no memory.
    #[tactic(auto, using(crate::proofs::Posting::kept_new))]
    pub fn new(alloc: Global, confirmed: u64) -> Outbox
        ensures { result ≡ record { confirmed = confirmed; above = []; queue = []; last = confirmed } }
    {
        Outbox {
            alloc,
            ids: ConfirmedIds::new(alloc, confirmed),
            queue: Queue::new(alloc),
            last: confirmed,
        }
    }

    /// The greatest id so that all ids up to it are confirmed.
    pub fn confirmed(&self) -> u64
        ensures is { result ≡ self.now.confirmed }
        ensures apart { AreApart self.now.confirmed self.now.above }
    {
        self.ids.upto()
    }

    /// Whether all messages are confirmed.
    pub fn is_empty(&self) -> bool
        ensures { result ≡ is_empty self.now.queue }
    {
        self.queue.len() == 0
    }

    /// Queues a message, and gives its id. After a fault nothing has changed.
    #[tactic(auto, using(crate::proofs::Posting::kept_push))]
    pub fn enqueue(&mut self, body: &[u8]) -> Result<u64, EnqueueFault>
        ensures queued { OnOk result (self.new ≡ record self.old { queue = self.old.queue ++ body.now ∷ [] }) }
        ensures answer { Enqueues (self.old.confirmed + length self.old.queue) body.now result }
        ensures err { OnErr result (self.new ≡ self.old) }
    {
        let len = body.len();
        if len > MESSAGE_MAX {
            return Err(EnqueueFault::TooLong { len });
        }
        let given = self.ids.upto() + self.queue.len() as u64;
        let Some(id) = given.checked_add(1) else {
            return Err(EnqueueFault::LastId);
        };
        let Ok(copied) = Octets::copy(self.alloc, body) else {
            return Err(EnqueueFault::Memory);
        };
        match self.queue.push(copied) {
            Ok(()) => Ok(id),
            Err(_) => Err(EnqueueFault::Memory),
        }
    }

    /// A connection begins: what was confirmed out of order is forgotten, and nothing was sent.
    #[tactic(auto, using(crate::proofs::Posting::kept_restart))]
    pub fn restart(&mut self)
        ensures { self.new ≡ record self.old { above = []; last = self.old.confirmed } }
    {
        self.ids.forget();
        self.last = self.ids.upto();
    }

    /// What comes next: the message behind the last that was sent, where it is at most 256 past the confirmed one.
    #[tactic(auto, using(crate::proofs::Posting::next_is, crate::proofs::Posting::next_small))]
    pub fn due(&self) -> Due<'_>
        ensures is { next_of result ≡ message_in self.now }
        ensures given { IfPublishes (next_of result) (IsNext self.now) }
    {
        let confirmed = self.ids.upto();
        let place = self.last.saturating_sub(confirmed);
        if place >= WINDOW {
            return Due::Nothing;
        }
        match self.queue.get(place as usize) {
            None => Due::Nothing,
            Some(body) => Due::Publishes {
                id: self.last + 1,
                body: body.as_slice(),
            },
        }
    }

    /// The next message was sent.
    #[tactic(auto, using(crate::proofs::Posting::kept_sent))]
    pub fn send(&mut self)
        requires { self.old.last < self.old.confirmed + length self.old.queue }
        ensures { self.new ≡ record self.old { last = self.old.last + 1 } }
    {
        self.last += 1;
    }

    /// An id that was sent is confirmed. Want of memory leaves all as it was.
    fn confirm(&mut self, id: u64) -> Result<(), AllocError>
        requires { id ≤ self.old.last }
        ensures ok { OnOk result ((s : ClientState) → LearnStep (posting s self.old) (id ∷ []) (posting s self.new)) }
        ensures err { OnErr result (self.new ≡ self.old) }
    {
        let before = self.ids.upto();
        self.ids.add(id)?;
        let count = self.ids.upto().saturating_sub(before);
        self.queue.skip(count as usize);
        Ok(())
    }

    /// An id is confirmed, if it was sent since the connection. Want of memory leaves all as it was.
    fn hear(&mut self, id: u64) -> Result<(), AllocError>
        ensures ok { OnOk result ((s : ClientState) → LearnStep (posting s self.old) (id ∷ []) (posting s self.new)) }
        ensures err { OnErr result (self.new ≡ self.old) }
    {
        let _apart = self.ids.upto();
        if id > self.last {
            return Ok(());
        }
        self.confirm(id)
    }

    /// Those of the ids are confirmed that were sent since the connection, and their messages leave once all before them
    /// are confirmed too. Where memory runs out that is so of the first of the ids.
    pub fn learn(&mut self, ids: &[u64]) -> Result<(), AllocError>
        ensures { LearnsSome result ids.now self.old self.new }
    {
        let _apart = self.confirmed();
        for id in ids {
            self.hear(*id)?;
        }
        Ok(())
    }
}
