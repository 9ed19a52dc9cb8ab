//! A client without its connection.

ghost use Rattle.std.specs.Prelude.{◌≡◌, ◌↔◌, ◌+◌, ◌≤◌, ◌++◌, length, Ok, Err, Option, None, IsTrue, IsOk, OnOk, OnErr, IfOk};
ghost use Rattle.command_all.specs.declared.command.Command.{Command};
ghost use Rattle.std.specs.Option.{option_to_list};
ghost use Rattle.client_terms.specs.States.{last_id};
ghost use Rattle.client_terms.specs.Steps.{enqueues, creates, queries, subscribes, connects, loses, sends, takes, ClientStep};
ghost use Rattle.command_reader.specs.States.{new_reader};
ghost use Rattle.stream_client.specs.Cores.{new_core, frame_max, IsDone};
ghost use Rattle.stream_client.specs.Outboxes.{Enqueues};
ghost use Rattle.stream_client.specs.Sends.{AreBytesOf};
ghost use Rattle.stream_client.specs.Feeds.{HearsNext, HearsAll, Feeds, told};

use crate::client::{
    Client, is_done, link, start, unlink, wish_create, wish_query, wish_subscribe,
};
use crate::hearing::hear_owned;
use crate::sending::send_next;
use client_terms::{ClientFault, EnqueueFault, Received};
use command_all::Identity;
use command_fields::OffsetSpec;
use command_reader::{CLIENT_FRAME_MAX, CommandReader, Next};
use frame_wire::{Octets, Text};
use std::alloc::{AllocError, Global};
use std::marker::Model;

/// A client of one stream, under one name. Messages stay until they are confirmed: after a loss of the connection those
/// that aren't are sent again, in order, under the same ids. Wishes stay until they are answered.
#[derive(Debug, Drop)]
pub struct ClientCore {
    alloc: Global,
    client: Client,
    reader: CommandReader,
}

impl Model for ClientCore {
    ghost use Rattle.stream_client.specs.Cores.{CoreState, state_of};

    ghost Value = { CoreState };

    ghost view = { λ c. record { client = state_of c.client; reader = c.reader } };
}

/// What hearing a frame tells: that there was one, or the fault.
fn told(heard: Result<(), ClientFault>) -> Result<bool, ClientFault>
    ensures { result ≡ told heard }
{
    match heard {
        Ok(()) => Ok(true),
        Err(fault) => Err(fault),
    }
}

impl ClientCore {
    /// A client without a connection, of which all ids up to one are confirmed. The user and the password have together at
    /// most 2,147,483,645 bytes.
    pub fn start(
        alloc: Global,
        identity: Identity,
        stream: &Text,
        name: &Text,
        confirmed: u64,
    ) -> Result<ClientCore, AllocError>
        requires { length identity.user + length identity.password ≤ 2147483645 }
        ensures { IfOk result (λ core. core ≡ new_core identity stream.now name.now confirmed) }
    {
        let client = start(alloc, identity, stream, name, confirmed)?;
        Ok(ClientCore {
            alloc,
            client,
            reader: CommandReader::new(alloc, CLIENT_FRAME_MAX),
        })
    }

    /// Queues a message, and gives its id: that of the first is the one behind the id up to which all are confirmed. After
    /// a fault nothing has changed. `TooLong` comes exactly for more than 1,000,000 bytes, `LastId` for others exactly
    /// after the id 18,446,744,073,709,551,615.
    pub fn enqueue(&mut self, body: &[u8]) -> Result<u64, EnqueueFault>
        ensures step { OnOk result (ClientStep self.old.client (enqueues body.now) None self.new.client) }
        ensures answer { Enqueues (last_id self.old.client) body.now result }
        ensures reader { self.new.reader ≡ self.old.reader }
        ensures err { OnErr result (self.new ≡ self.old) }
    {
        self.client.outbox.enqueue(body)
    }

    /// Wishes that the stream is made. It is asked for on each connection until it is answered. Want of memory leaves all
    /// as it was.
    pub fn create(&mut self) -> Result<(), AllocError>
        ensures step { OnOk result (ClientStep self.old.client creates None self.new.client) }
        ensures reader { self.new.reader ≡ self.old.reader }
        ensures err { OnErr result (self.new ≡ self.old) }
    {
        wish_create(&mut self.client)
    }

    /// Wishes to know the greatest id of the name. Want of memory leaves all as it was.
    pub fn query(&mut self) -> Result<(), AllocError>
        ensures step { OnOk result (ClientStep self.old.client queries None self.new.client) }
        ensures reader { self.new.reader ≡ self.old.reader }
        ensures err { OnErr result (self.new ≡ self.old) }
    {
        wish_query(&mut self.client)
    }

    /// Wishes for a subscription from a place on, with a credit in chunks. Want of memory leaves all as it was.
    pub fn subscribe(&mut self, spec: OffsetSpec, credit: u16) -> Result<(), AllocError>
        ensures step { OnOk result (ClientStep self.old.client (subscribes spec credit) None self.new.client) }
        ensures reader { self.new.reader ≡ self.old.reader }
        ensures err { OnErr result (self.new ≡ self.old) }
    {
        wish_subscribe(&mut self.client, spec, credit)
    }

    /// A connection begins. What the one before left unread is forgotten. It takes no memory.
    pub fn connected(&mut self) -> Result<(), AllocError>
        ensures ok { result ≡ Ok tt }
        ensures step { ClientStep self.old.client connects None self.new.client }
        ensures reader { self.new.reader ≡ new_reader frame_max }
    {
        link(&mut self.client);
        self.reader = CommandReader::new(self.alloc, CLIENT_FRAME_MAX);
        Ok(())
    }

    /// The connection is gone, with all of it that was not read. Messages and wishes stay, and what was received.
    pub fn lost(&mut self)
        ensures step { ClientStep self.old.client loses None self.new.client }
        ensures reader { self.new.reader ≡ new_reader frame_max }
    {
        unlink(&mut self.client);
        self.reader = CommandReader::new(self.alloc, CLIENT_FRAME_MAX);
    }

    /// The next frame to send, or `None` exactly where nothing is to be sent before another frame comes. Want of memory
    /// leaves all as it was.
    pub fn next_frame(&mut self) -> Result<Option<Octets>, AllocError>
        ensures step { IfOk result (λ bytes. (frame : Option Command) × AreBytesOf frame bytes × ClientStep self.old.client sends frame self.new.client) }
        ensures reader { self.new.reader ≡ self.old.reader }
        ensures err { OnErr result (self.new ≡ self.old) }
    {
        send_next(self.alloc, &mut self.client)
    }

    /// Hears the next frame, and tells whether there was a whole one.
    #[tactic(auto, using(crate::proofs::Hearsay::unread))]
    fn hear_next(&mut self) -> Result<bool, ClientFault>
        ensures { HearsNext self.old result self.new }
    {
        match self.reader.next() {
            Err(_) => Err(ClientFault::Memory),
            Ok(Next::More) => Ok(false),
            Ok(Next::Unspelt { fault }) => Err(ClientFault::Frame(fault)),
            Ok(Next::TooLarge { size }) => Err(ClientFault::TooLarge { size }),
            Ok(Next::Command(command)) => told(hear_owned(self.alloc, &mut self.client, command)),
        }
    }

    /// Hears all whole frames.
    #[tactic(auto, using(crate::proofs::Hearsay::heard_none, crate::proofs::Hearsay::heard_next, crate::proofs::Hearsay::heard_all, crate::proofs::Hearsay::shortens))]
    fn hear_all(&mut self) -> Result<(), ClientFault>
        ensures { HearsAll self.old result self.new }
    {
        'frames: loop {
            match self.hear_next() {
                Ok(true) => {}
                Ok(false) => return Ok(()),
                Err(fault) => return Err(fault),
            }
        }
    }

    /// Takes the next piece of the server's bytes, and hears the frames that are whole now, each as the client's step. The
    /// first frame at which the client can't go on is told as the fault, and those behind it are not heard: then only
    /// `lost` is of use.
    #[tactic(auto, using(crate::proofs::Hearsay::feeds_none))]
    pub fn feed(&mut self, piece: &[u8]) -> Result<(), ClientFault>
        ensures { Feeds self.old piece.now result self.new }
    {
        match self.reader.feed(piece) {
            Err(_) => Err(ClientFault::Memory),
            Ok(()) => self.hear_all(),
        }
    }

    /// The greatest id so that all ids up to it are confirmed.
    pub fn confirmed(&self) -> u64
        ensures { result ≡ self.now.client.confirmed }
    {
        self.client.outbox.confirmed()
    }

    /// Whether every wish was answered and every queued message is confirmed.
    pub fn is_done(&self) -> bool
        ensures { IsTrue result ↔ IsDone self.now.client }
    {
        is_done(&self.client)
    }

    /// The greatest id of the name, as the last answer to a query told it.
    pub fn answer(&self) -> Option<u64>
        ensures { result ≡ self.now.client.answer }
    {
        self.client.answer
    }

    /// The first offset of the last committed chunk, as the last delivery of version 2 since the connection told it.
    pub fn committed(&self) -> Option<u64>
        ensures { result ≡ self.now.client.committed }
    {
        self.client.line.committed
    }

    /// Takes out the next entry that was delivered. A sub-batch is whole, and entries below the subscription's offset are
    /// left out. It takes no memory.
    pub fn next_received(&mut self) -> Result<Option<Received>, AllocError>
        ensures step { ClientStep self.old.client takes None self.new.client }
        ensures first { IfOk result (λ entry. self.old.client.received ≡ option_to_list entry ++ self.new.client.received) }
        ensures ok { IsOk result }
        ensures reader { self.new.reader ≡ self.old.reader }
    {
        Ok(self.client.received.pop())
    }
}
