//! The publishers of a session.

ghost use Rattle.std.specs.Prelude.{◌≡◌, ◌++◌, ◌∷◌, [], OnOk, OnErr};
ghost use Rattle.std.specs.List.{list_any, find};
ghost use Rattle.std.specs.Option.{option_map};
ghost use Rattle.session_tables.specs.Publishing.{has_id, refers, leave, without_publisher, is_over, without_ended, is_refused};
ghost use Rattle.session_tables.specs.declared.publishers.Publisher.{Publisher};

use crate::text::is_same;
use frame_wire::Octets;
use std::alloc::{AllocError, Global};
use std::marker::Model;
use stream_terms::Pass;

/// Whether what was begun on a stream in an epoch is over: it is of the first stream named, and of another epoch than the one
/// that runs there, if one does.
pub fn is_over(stream: u32, running: Option<u64>, on: u32, epoch: u64) -> bool
    ensures { result ≡ is_over stream running on epoch }
{
    match running {
        None => on == stream,
        Some(running) => on == stream && epoch != running,
    }
}

/// A publisher that was declared.
#[derive(Debug, Drop)]
pub struct Publisher {
    /// The id that the peer gave it.
    pub id: u8,
    pub pass: Pass,
    /// It is empty where the publisher has none.
    pub reference: Octets,
}

/// The declared publishers of a session, in the order of their declarations.
#[derive(Debug, Drop)]
pub struct Publishers {
    alloc: Global,
    list: Vec<Publisher>,
}

impl Model for Publishers {
    ghost use Rattle.std.specs.Prelude.{List};
    ghost use Rattle.session_tables.specs.declared.publishers.Publisher.{Publisher};

    ghost Value = { List Publisher };

    ghost view = { λ p. p.list.items };
}

impl Publisher {
    /// Whether it publishes on this stream under this reference.
    fn refers(&self, stream: u32, reference: &[u8]) -> bool
        ensures { result ≡ refers stream reference.now self.now }
    {
        self.pass.stream == stream && is_same(self.reference.as_slice(), reference)
    }
}

impl Publishers {
    /// No publishers. It takes no memory.
    pub fn new(alloc: Global) -> Publishers
        ensures { result ≡ [] }
    {
        Publishers {
            alloc,
            list: Vec::new(alloc),
        }
    }

    /// Adds one; want of memory adds none.
    pub fn declare(&mut self, id: u8, pass: Pass, reference: &[u8]) -> Result<(), AllocError>
        ensures ok { OnOk result (self.new ≡ self.old ++ record { id = id; pass = pass; reference = reference.now } ∷ []) }
        ensures err { OnErr result (self.new ≡ self.old) }
    {
        let reference = Octets::copy(self.alloc, reference)?;
        self.list.push(Publisher {
            id,
            pass,
            reference,
        })?;
        Ok(())
    }

    /// Whether one of this id is declared.
    pub fn has(&self, id: u8) -> bool
        ensures { result ≡ list_any (has_id id) self.now }
    {
        self.list.iter().any(|publisher| publisher.id == id)
    }

    /// Whether one is declared on this stream under this reference.
    fn refers(&self, stream: u32, reference: &[u8]) -> bool
        ensures { result ≡ list_any (refers stream reference.now) self.now }
    {
        self.list
            .iter()
            .any(|publisher| publisher.refers(stream, reference))
    }

    /// Whether a declaration with this id and this reference on this stream is refused: the id is taken, the reference has
    /// more than 255 bytes, or the same reference that isn't empty is declared there.
    pub fn refuses(&self, id: u8, stream: u32, reference: &[u8]) -> bool
        ensures { result ≡ is_refused id stream reference.now self.now }
    {
        if self.has(id) {
            return true;
        }
        if reference.len() > 255 {
            return true;
        }
        if reference.len() == 0 {
            return false;
        }
        self.refers(stream, reference)
    }

    /// The pass of the one of this id, and whether it has a reference.
    pub fn leave_of(&self, id: u8) -> Option<(Pass, bool)>
        ensures { result ≡ option_map leave (find (has_id id) self.now) }
    {
        let publisher = self.list.iter().find(|publisher| publisher.id == id)?;
        Some((publisher.pass, publisher.reference.len() > 0))
    }

    /// Lets those of this id go.
    pub fn remove(&mut self, id: u8)
        ensures { self.new ≡ without_publisher id self.old }
    {
        self.list.retain(|publisher| publisher.id != id);
    }

    /// The publishers, in the order of their declarations.
    pub fn as_slice(&self) -> &[Publisher]
        ensures { result.now ≡ self.now }
    {
        self.list.as_slice()
    }

    /// Lets those on a stream go whose epoch isn't the one that runs there, if one does.
    pub fn end(&mut self, stream: u32, running: Option<u64>)
        ensures { self.new ≡ without_ended stream running self.old }
    {
        self.list.retain(|publisher| !is_over(
            stream,
            running,
            publisher.pass.stream,
            publisher.pass.epoch,
        ));
    }
}
