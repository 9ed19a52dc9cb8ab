//! A node with one stream and several connections, over a plain list.

ghost use Rattle.std.specs.Prelude.{◌≡◌, ◌↔◌, ◌<◌, ◌==◌, Err, IfOk, IfSome, OnErr, OnOk, IsTrue, None, Some, length, not, MatchOption};
ghost use Rattle.std.specs.List.{slice_get};
ghost use Rattle.replay_node.specs.NodeState.{new_node, LineAnswered, IsBad, AnswersLine, find_link, offers_of_others};
ghost use Rattle.replay_node.specs.NodeFields.{IsPlace};
ghost use Rattle.replay_node.specs.Machine.{empty_machine};
ghost use Rattle.replay_node.specs.Shown.{Shows, LineRuns};
ghost use Rattle.script_text.specs.declared.script.ScriptLine.TheVariants.{Create, Prepare, Give, Poll, Settle};

use crate::output::{
    Commits, STREAM, command_lines, commit_lines, confirm_lines, lay_offers, opening_commits,
};
use crate::session::{Link, Offer, serve_all};
use chunk_format::Chunk;
use frame_commands::read_commands;
use frame_wire::{Limits, Octets, Row};
use script_text::{LineFault, ScriptLine, read_line};
use std::alloc::{AllocError, Global};
use std::marker::Model;

/// The greatest number of a connection.
const LAST_CONNECTION: u64 = 4_294_967_295;

/// The most connections.
const MOST_CONNECTIONS: usize = 16;

/// The most bytes of a frame's body.
const FRAME_MAX: u32 = 1_048_576;

/// A node that answers the lines of a script. It keeps its committed list, and the offers that wait for it or for
/// their confirm.
#[derive(Debug, Drop)]
pub struct Node {
    alloc: Global,
    stream: Option<Octets>,
    links: Vec<Link>,
    chunks: Vec<Chunk>,
    /// The offset behind the last chunk.
    end: u64,
    queued: Vec<Offer>,
    unconfirmed: Vec<Offer>,
}

impl Model for Node {
    ghost use Rattle.replay_node.specs.NodeState.{NodeState};

    ghost Value = { NodeState };

    ghost use Rattle.replay_node.specs.NodeFields.{node_of, IsNode};

    ghost view = { node_of };

    ghost invariant = { IsNode };
}

/// Where the connection of this number stands.
fn place_of(links: &[Link], number: u64) -> Option<usize>
    ensures { MatchOption result (find_link number links.now ≡ None) (λ k. IsPlace k number links.now) }
{
    for (k, link) in links.iter().enumerate() {
        if link.number == number {
            return Some(k);
        }
    }
    None
}

/// Whether two names are the same.
fn is_same(one: &[u8], other: &[u8]) -> bool
    ensures { IsTrue result ↔ (one.now ≡ other.now) }
{
    one == other
}

/// Takes the offers of a connection out.
fn drop_offers(offers: &mut Vec<Offer>, connection: u64)
    ensures { offers.new.items ≡ offers_of_others connection offers.old.items }
{
    offers.retain(|offer| offer.connection != connection);
}

impl Node {
    /// A node with nothing in it. None of the limits binds as yet.
    pub fn new(alloc: Global, _limits: &Limits) -> Result<Node, AllocError>
        ensures empty { IfOk result (λ node. node ≡ new_node) }
        ensures shows { IfOk result (λ node. Shows node empty_machine) }
    {
        Ok(Node {
            alloc,
            stream: None,
            links: Vec::new(alloc),
            chunks: Vec::new(alloc),
            end: 0,
            queued: Vec::new(alloc),
            unconfirmed: Vec::new(alloc),
        })
    }

    fn create(&mut self, name: Octets) -> Result<Row<Octets>, LineFault>
        ensures { AnswersLine self.old (Create name) result self.new }
    {
        if self.stream.is_some() {
            return Err(LineFault::Bad);
        }
        let Ok(Commits { chunks, end }) = opening_commits(self.alloc) else {
            return Err(LineFault::Memory);
        };
        let Ok(lines) = commit_lines(self.alloc, chunks.as_slice()) else {
            return Err(LineFault::Memory);
        };
        self.stream = Some(name);
        self.chunks = chunks;
        self.end = end;
        Ok(lines)
    }

    /// Whether this is the name of the stream.
    fn has_stream(&self, name: &[u8]) -> bool
        ensures { IsTrue result ↔ (self.now.stream ≡ Some name.now) }
    {
        match &self.stream {
            None => false,
            Some(stream) => is_same(stream.as_slice(), name),
        }
    }

    /// Whether a connection of this number may be made.
    fn has_room(&self, connection: u64) -> bool
        ensures { IsTrue result ↔ ((find_link connection self.now.links ≡ None) × (length self.now.links < 16)) }
    {
        self.links.len() < MOST_CONNECTIONS && place_of(self.links.as_slice(), connection).is_none()
    }

    /// A connection with publisher 0 declared.
    fn prepared(&self, number: u64) -> Result<Link, AllocError>
        ensures { IfOk result (λ link. link ≡ Rattle.replay_node.specs.NodeState.prepared_link number) }
    {
        let mut publishers = Row::new(self.alloc);
        let Ok(()) = publishers.push(0) else {
            return Err(AllocError);
        };
        Ok(Link {
            number,
            rest: Octets::new(self.alloc),
            publishers,
        })
    }

    fn prepare(&mut self, connection: u64, name: &[u8]) -> Result<Row<Octets>, LineFault>
        ensures { AnswersLine self.old (Prepare connection name.now) result self.new }
    {
        if connection == 0 || connection > LAST_CONNECTION {
            return Err(LineFault::Bad);
        }
        if !self.has_stream(name) || !self.has_room(connection) {
            return Err(LineFault::Bad);
        }
        let Ok(link) = self.prepared(connection) else {
            return Err(LineFault::Memory);
        };
        let Ok(()) = self.links.push(link) else {
            return Err(LineFault::Memory);
        };
        Ok(Row::new(self.alloc))
    }

    fn give(&mut self, connection: u64, bytes: &[u8]) -> Result<Row<Octets>, LineFault>
        ensures { AnswersLine self.old (Give connection bytes.now) result self.new }
    {
        let Some(stream) = &self.stream else {
            return Err(LineFault::Bad);
        };
        let Some(k) = place_of(self.links.as_slice(), connection) else {
            return Err(LineFault::Bad);
        };
        let link = &self.links.as_slice()[k];
        let given = match read_commands(self.alloc, FRAME_MAX, link.rest.as_slice(), bytes) {
            Err(_) => return Err(LineFault::Memory),
            Ok(None) => return Err(LineFault::Bad),
            Ok(Some(given)) => given,
        };
        let served = match serve_all(
            self.alloc,
            connection,
            stream.as_slice(),
            link.publishers.as_slice(),
            given.commands,
        ) {
            Err(_) => return Err(LineFault::Memory),
            Ok(None) => return Err(LineFault::Bad),
            Ok(Some(served)) => served,
        };
        let Ok(lines) = command_lines(self.alloc, connection, served.answers.as_slice()) else {
            return Err(LineFault::Memory);
        };
        let Ok(()) = self.queued.append(&mut served.offers.into_vec()) else {
            return Err(LineFault::Memory);
        };
        self.links[k] = Link {
            number: connection,
            rest: given.rest,
            publishers: served.publishers,
        };
        Ok(lines)
    }

    /// Takes these chunks into the list, and the queued offers into those that wait for their confirm; or changes
    /// nothing.
    fn commit(&mut self, commits: Commits) -> Result<(), AllocError>
        requires { Rattle.replay_node.specs.NodeFields.CommitsQueue self.old commits }
        ensures ok { OnOk result (self.new ≡ Rattle.replay_node.specs.NodeFields.after_commit self.old) }
        ensures err { OnErr result (self.new ≡ self.old) }
    {
        let Commits { mut chunks, end } = commits;
        self.unconfirmed.reserve(self.queued.len())?;
        self.chunks.append(&mut chunks)?;
        self.end = end;
        self.unconfirmed.append(&mut self.queued)
    }

    fn settle(&mut self, stream: u64) -> Result<Row<Octets>, LineFault>
        ensures { AnswersLine self.old (Settle stream) result self.new }
    {
        if stream != STREAM || self.stream.is_none() {
            return Err(LineFault::Bad);
        }
        let Ok(commits) = lay_offers(self.alloc, self.end, self.queued.as_slice()) else {
            return Err(LineFault::Memory);
        };
        let Ok(lines) = commit_lines(self.alloc, commits.chunks.as_slice()) else {
            return Err(LineFault::Memory);
        };
        match self.commit(commits) {
            Ok(()) => Ok(lines),
            Err(_) => Err(LineFault::Memory),
        }
    }

    fn poll(&mut self, connection: u64) -> Result<Row<Octets>, LineFault>
        ensures { AnswersLine self.old (Poll connection) result self.new }
    {
        if place_of(self.links.as_slice(), connection).is_none() {
            return Err(LineFault::Bad);
        }
        let Ok(lines) = confirm_lines(self.alloc, connection, self.unconfirmed.as_slice()) else {
            return Err(LineFault::Memory);
        };
        drop_offers(&mut self.unconfirmed, connection);
        Ok(lines)
    }

    /// Answers a line that was read. Lines that this node doesn't serve are Bad.
    fn answer(&mut self, line: ScriptLine) -> Result<Row<Octets>, LineFault>
        ensures { AnswersLine self.old line result self.new }
    {
        match line {
            ScriptLine::Create { name } => self.create(name),
            ScriptLine::Prepare { connection, name } => self.prepare(connection, name.as_slice()),
            ScriptLine::Give { connection, bytes } => self.give(connection, bytes.as_slice()),
            ScriptLine::Settle { stream } => self.settle(stream),
            ScriptLine::Poll { connection } => self.poll(connection),
            _ => Err(LineFault::Bad),
        }
    }

    /// Answers one line of a script, its line feed among its bytes, with the lines that it gives,
    /// each with its line feed. It serves `n`, `b`, `c`, `p` and `s`; every other line is Bad.
    /// After an error the node is as it was.
    pub fn line(&mut self, line: &[u8]) -> Result<Row<Octets>, LineFault>
        ensures ok { IfOk result (λ lines. LineAnswered self.old line.now lines self.new) }
        ensures steps { IfOk result (λ lines. LineRuns self.old line.now lines self.new) }
        ensures bad { result ≡ Err LineFault.Bad → IsBad self.old line.now }
        ensures err { OnErr result (self.new ≡ self.old) }
    {
        let line = read_line(self.alloc, line)?;
        self.answer(line)
    }
}
