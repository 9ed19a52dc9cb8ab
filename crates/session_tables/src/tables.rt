//! What a session keeps.

ghost use Rattle.std.specs.Prelude.{◌≡◌, ◌<◌, Some, position, IfSome};
ghost use Rattle.session_tables.specs.Subscribing.{new_tables, put_slot, more_credit, is_asked, is_last, counted};

use crate::moments::Moments;
use crate::publishers::Publishers;
use crate::streams::Streams;
use std::alloc::Global;

/// How far the opening of a connection has come.
#[derive(Clone, Copy, Debug, PartialEq, Eq)]
pub enum Stage {
    /// Nothing was said. PeerProperties is taken.
    Fresh,
    /// SaslHandshake is taken.
    Greeted,
    /// SaslAuthenticate is taken.
    Shaken,
    /// The server sent Tune, and takes the peer's.
    Tuning,
    /// OpenHost is taken.
    Tuned,
    /// The commands of publishers, consumers and administrators are taken.
    Open,
}

/// How a session ended.
#[derive(Clone, Copy, Debug, PartialEq, Eq)]
pub enum SessionEnd {
    /// The peer's bytes ended.
    PeerEnded,
    /// The peer sent Close.
    ClosedByPeer,
    /// The server sent Close with this response code, or a SaslAnswer with it.
    ClosedByUs(u16),
    /// Bytes could not be received.
    ReadFault,
    /// Bytes could not be sent.
    WriteFault,
    /// No byte came for two heartbeat intervals.
    Silent,
    /// There was not enough memory.
    Memory,
}

/// A subscription of a stream.
#[derive(Clone, Copy, Debug, PartialEq, Eq)]
pub struct Subscription {
    /// The number of the stream.
    pub stream: u32,
    /// The epoch that ran when it began.
    pub epoch: u64,
    /// Chunks whose end is above this offset are due.
    pub next: u64,
    /// How many chunks may be sent.
    pub credit: u64,
    /// The number of the session's consumer, where it is one of a group of which one is active.
    pub single: Option<u32>,
    /// The correlation of the ConsumerUpdate that it was sent and hasn't answered.
    pub update: Option<u32>,
}

/// What a session keeps.
#[derive(Debug, Drop)]
pub struct Tables {
    /// The number of the session.
    pub number: u32,
    pub stage: Stage,
    /// How it ended, once it has.
    pub ended: Option<SessionEnd>,
    pub publishers: Publishers,
    /// By the ids that the peer gave them.
    pub subscriptions: [Option<Subscription>; 256],
    pub streams: Streams,
    /// How many Subscribe commands came, up to 4,294,967,295.
    pub subscribed: u32,
    /// The correlation of the server's last request, 0 before the first.
    pub asked: u32,
    /// Whether the peer takes deliveries of version 2.
    pub second: bool,
    pub moments: Moments,
}

impl Subscription {
    /// The same with more credit, which stops at the greatest number.
    pub fn with_credit(self, credit: u16) -> Subscription
        ensures { result ≡ more_credit credit self }
    {
        let mut more = self;
        more.credit = self.credit.saturating_add(u64::from(credit));
        more
    }
}

fn is_asked(slot: &Option<Subscription>, corr: u32) -> bool
    ensures { result ≡ is_asked corr slot.now }
{
    match slot {
        None => false,
        Some(subscription) => match subscription.update {
            None => false,
            Some(asked) => asked == corr,
        },
    }
}

impl Tables {
    /// Those of a connection that begins now. It takes no memory.
    pub fn new(alloc: Global, number: u32, now: u64) -> Tables
        ensures { result ≡ new_tables number now }
    {
        Tables {
            number,
            stage: Stage::Fresh,
            ended: None,
            publishers: Publishers::new(alloc),
            subscriptions: [None; 256],
            streams: Streams::new(alloc),
            subscribed: 0,
            asked: 0,
            second: false,
            moments: Moments::new(now),
        }
    }

    /// Keeps a subscription under an id.
    pub fn put(&mut self, id: usize, subscription: Subscription)
        requires { id < 256 }
        ensures { self.new ≡ put_slot id (Some subscription) self.old }
    {
        self.subscriptions[id] = Some(subscription);
    }

    /// Counts a Subscribe, and tells whether the last number had been given.
    pub fn count(&mut self) -> bool
        ensures last { result ≡ is_last self.old }
        ensures new { self.new ≡ counted self.old }
    {
        if self.subscribed == 4_294_967_295 {
            return true;
        }
        self.subscribed += 1;
        false
    }

    /// The id of the subscription whose update of this correlation isn't answered.
    pub fn asked_place(&self, corr: u32) -> Option<usize>
        ensures is { result ≡ position (is_asked corr) self.now.subscriptions }
        ensures inside { IfSome result (λ id. id < 256) }
    {
        self.subscriptions
            .iter()
            .position(|slot| is_asked(slot, corr))
    }
}
