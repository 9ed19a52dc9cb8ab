//! A session: one connection of the server, over any hub.

ghost use Rattle.std.specs.Prelude.{◌≡◌, [], true, None, IfOk, OnErr};
ghost use Rattle.hub_terms.specs.Programs.{Runs};
ghost use Rattle.session_tables.specs.Opening.{silent};
ghost use Rattle.session_tables.specs.Subscribing.{new_tables};
ghost use Rattle.session_tables.specs.declared.tables.SessionEnd.TheVariants.{Memory, PeerEnded};
ghost use Rattle.session_core.specs.Feeding.{IsReading};
ghost use Rattle.session_core.specs.Delivered.{PollAdds};
ghost use Rattle.session_core.specs.Living.{link_ended_row};
ghost use Rattle.session_core.specs.Polling.{is_open};
ghost use Rattle.session_core.specs.Preparing.{PreparesAs};
ghost use Rattle.session_core.specs.Sessions.{new_session, out_of_memory, RanOut, comes, goes, told, Serves, FeedGives, TickGives, PollGives, link_ended};

use crate::feeding::answer_all;
use crate::living::{end_link, tick};
use crate::polling::poll;
use crate::preparing::{PrepareFault, prepare};
use crate::unasked::Unasked;
use command_all::Identity;
use command_reader::{CommandReader, SERVER_FRAME_MAX};
use frame_wire::{Octets, Row, Text};
use hub_terms::Hub;
use session_tables::{SessionEnd, Tables, put_reply};
use std::alloc::{AllocError, Global};
use std::marker::Model;

/// One connection of the server. Moments are in milliseconds since 1970.
#[derive(Debug, Drop)]
pub struct Session {
    alloc: Global,
    identity: Identity,
    reader: CommandReader,
    tables: Tables,
}

impl Model for Session {
    ghost use Rattle.std.specs.Prelude.{◌≡◌, None};
    ghost use Rattle.session_core.specs.Feeding.{IsReading};
    ghost use Rattle.session_core.specs.Sessions.{SessionState};

    ghost Value = { SessionState };

    ghost view = { λ s. record { who = s.identity; tables = s.tables; rest = s.reader.rest } };

    ghost invariant = { λ s. s.tables.ended ≡ None → IsReading 1048576 s.reader };
}

/// A piece comes at a moment.
fn receive(tables: &mut Tables, piece: &[u8], now: u64)
    ensures { tables.new ≡ comes now piece.now tables.old }
{
    tables.moments.see(now);
    match piece {
        [] => {}
        _ => tables.moments.receive(),
    }
}

/// These frames go.
fn send(tables: &mut Tables, bytes: &[u8])
    ensures { tables.new ≡ goes bytes.now tables.old }
{
    match bytes {
        [] => {}
        _ => tables.moments.send(),
    }
}

/// Memory ran out.
fn run_out(tables: &mut Tables)
    ensures { tables.new ≡ out_of_memory tables.old }
{
    tables.ended = Some(SessionEnd::Memory);
}

/// What was said unasked goes.
fn tell(tables: &mut Tables, said: &[Unasked])
    ensures { tables.new ≡ told said.now tables.old }
{
    match said {
        [] => {}
        _ => tables.moments.send(),
    }
}

/// Takes a piece of the bytes of a peer whose session stands, and gives the frames of the replies.
fn take<H: Hub>(
    alloc: Global,
    tables: &mut Tables,
    reader: &mut CommandReader,
    hub: &mut H,
    identity: &Identity,
    piece: &[u8],
    now: u64,
) -> Result<Octets, AllocError>
    requires stands { tables.old.ended ≡ None }
    requires reads { IsReading 1048576 reader.old }
    ensures ok { IfOk result (λ bytes. Serves H.meaning identity.now now piece.now tables.old reader.old.rest bytes tables.new reader.new.rest hub.old hub.new) }
    ensures reads { IfOk result (λ bytes. tables.new.ended ≡ None → IsReading 1048576 reader.new) }
    ensures later { H.meaning.seen.later hub.old hub.new }
{
    receive(tables, piece, now);
    reader.feed(piece)?;
    let mut out = Octets::new(alloc);
    answer_all(alloc, tables, reader, hub, identity, &mut out, now)?;
    send(tables, out.as_slice());
    Ok(out)
}

impl Session {
    /// Of a connection that begins now, with this number. It takes no memory.
    pub fn new(alloc: Global, number: u32, identity: Identity, now: u64) -> Session
        ensures { result ≡ new_session identity (new_tables number now) }
    {
        Session {
            alloc,
            identity,
            reader: CommandReader::new(alloc, SERVER_FRAME_MAX),
            tables: Tables::new(alloc, number, now),
        }
    }

    /// Of a connection that is open from the start, without heartbeats, on which publisher 0 is declared on this stream without
    /// a reference. After an error there is no session, and the hub has only gone on.
    pub fn prepared<H: Hub>(
        alloc: Global,
        number: u32,
        identity: Identity,
        hub: &mut H,
        stream: &Text,
        now: u64,
    ) -> Result<Session, PrepareFault>
        ensures ok { PreparesAs H.meaning identity number now stream.now hub.old result hub.new }
        ensures later { H.meaning.seen.later hub.old hub.new }
    {
        let mut tables = Tables::new(alloc, number, now);
        match prepare(&mut tables, hub, stream) {
            Ok(()) => Ok(Session {
                alloc,
                identity,
                reader: CommandReader::new(alloc, SERVER_FRAME_MAX),
                tables,
            }),
            Err(fault) => Err(fault),
        }
    }

    /// How it ended, once it has.
    pub fn ended(&self) -> Option<SessionEnd>
        ensures { result ≡ self.now.tables.ended }
    {
        self.tables.ended
    }

    /// Takes the next piece of the peer's bytes, in any pieces, and gives the frames of the replies. A session that has ended
    /// does nothing. After want of memory the session has ended, and the hub has only gone on.
    pub fn feed<H: Hub>(
        &mut self,
        hub: &mut H,
        piece: &[u8],
        now: u64,
    ) -> Result<Octets, AllocError>
        ensures ok { IfOk result (λ bytes. FeedGives H.meaning now piece.now self.old bytes self.new hub.old hub.new) }
        ensures err { OnErr result (RanOut self.old self.new) }
        ensures later { H.meaning.seen.later hub.old hub.new }
    {
        match self.tables.ended {
            Some(_) => Ok(Octets::new(self.alloc)),
            None => {
                let given = take(
                    self.alloc,
                    &mut self.tables,
                    &mut self.reader,
                    hub,
                    &self.identity,
                    piece,
                    now,
                );
                match given {
                    Ok(bytes) => Ok(bytes),
                    Err(refused) => {
                        run_out(&mut self.tables);
                        Err(refused)
                    }
                }
            }
        }
    }

    /// What is due at a moment: the frame of a Heartbeat, the end of a session whose peer was silent for two intervals, or
    /// nothing. After want of memory the session has ended.
    pub fn tick(&mut self, now: u64) -> Result<Octets, AllocError>
        ensures ok { IfOk result (λ bytes. TickGives now self.old bytes self.new) }
        ensures err { OnErr result (RanOut self.old self.new) }
    {
        let mut out = Octets::new(self.alloc);
        match tick(&mut self.tables, now) {
            None => Ok(out),
            Some(reply) => match put_reply(self.alloc, &mut out, &self.identity, reply) {
                Ok(()) => Ok(out),
                Err(refused) => {
                    run_out(&mut self.tables);
                    Err(refused)
                }
            },
        }
    }

    /// What is due unasked: the confirms that are ready, the epochs that ended, the turns of consumers and the chunks that are
    /// delivered. Where something is, it counts as sent at the latest moment. A session whose connection isn't open, or that
    /// has ended, says nothing. After want of memory the session has ended, and the hub has only gone on.
    pub fn poll<H: Hub>(&mut self, hub: &mut H) -> Result<Row<Unasked>, AllocError>
        ensures ok { IfOk result (λ said. PollGives H.meaning self.old said self.new hub.old hub.new) }
        ensures adds { IfOk result (λ said. is_open self.old.tables.ended self.old.tables.stage ≡ true → PollAdds H.meaning self.old.tables self.new.tables [] said hub.old hub.new) }
        ensures err { OnErr result (RanOut self.old self.new) }
        ensures later { H.meaning.seen.later hub.old hub.new }
    {
        let mut said = Row::new(self.alloc);
        match self.ended() {
            Some(_) => Ok(said),
            None => match poll(&mut self.tables, hub, &mut said) {
                Ok(()) => {
                    tell(&mut self.tables, said.as_slice());
                    Ok(said)
                }
                Err(refused) => {
                    run_out(&mut self.tables);
                    Err(refused)
                }
            },
        }
    }

    /// The link ended: each consumer of the session leaves its group, and a session that hadn't ended has ended with
    /// `PeerEnded`. It takes no memory.
    pub fn link_ended<H: Hub>(&mut self, hub: &mut H)
        ensures new { self.new ≡ link_ended PeerEnded self.old }
        ensures leaves { Runs H.meaning (link_ended_row self.old.tables) hub.old (silent self.new.tables) hub.new }
        ensures later { H.meaning.seen.later hub.old hub.new }
    {
        end_link(&mut self.tables, hub);
    }
}
