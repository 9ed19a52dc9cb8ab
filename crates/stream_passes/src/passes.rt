//! Passes, and the offers that wait for confirms.

ghost use Rattle.std.specs.Prelude.{◌≡◌, ◌≤◌, ◌↔◌, [], Some, IfOk, OnOk, OnErr, IsTrue, length, map};
ghost use Rattle.std.specs.List.{filter, Contains};
ghost use Rattle.stream_terms.specs.Views.{name_of};
ghost use Rattle.stream_terms.specs.Steps.{is_of, confirm_of};
ghost use Rattle.stream_passes.specs.Parts.{parts, PartsDeclare, parts_put, parts_moved, parts_handed};
ghost use Rattle.stream_passes.specs.Keeps.{IsShort, WasGiven, IsLast};

use crate::confirms::{confirms_of, drop_session};
use crate::given::{given_with, is_of_use, name_of, push_given};
use crate::queue::{drop_others, put_ready, put_waiting, take_reached};
use frame_wire::{Row, Text};
use std::alloc::{AllocError, Global};
use std::collections::VecDeque;
use std::marker::Model;
use stream_terms::{Confirm, DeclareFault, Given, Pass, Waits};

/// The passes that a stream gave, and its offers that wait for confirms or are ready for them. What waits is of one epoch,
/// with ends that don't fall, and there is always room to make all of it ready.
#[derive(Drop)]
pub struct Passes {
    alloc: Global,
    /// The number of the stream.
    number: u32,
    /// By serial.
    passes: Vec<Given>,
    waiting: VecDeque<Waits>,
    ready: Vec<Waits>,
}

impl Model for Passes {
    ghost use Rattle.std.specs.Prelude.{◌+◌, ◌≤◌};
    ghost use Rattle.std.specs.Vec.{vec_len, vec_capacity};
    ghost use Rattle.std.specs.VecDeque.{deque_len};
    ghost use Rattle.stream_passes.specs.Parts.{PassesState, parts};
    ghost use Rattle.stream_passes.specs.Keeps.{Keeps};

    ghost Value = { PassesState };

    ghost view = { λ s. parts s.number s.passes.items s.waiting.items s.ready.items };

    ghost invariant = { λ s. Keeps s.passes.items s.waiting.items × (vec_len s.ready + deque_len s.waiting ≤ vec_capacity s.ready) };
}

impl Passes {
    /// No passes, of a stream of this number. It takes no memory.
    pub fn new(alloc: Global, number: u32) -> Passes
        ensures { result ≡ parts number [] [] [] }
    {
        Passes {
            alloc,
            number,
            passes: Vec::new(alloc),
            waiting: VecDeque::new(alloc),
            ready: Vec::new(alloc),
        }
    }

    /// The number of the stream.
    pub fn number(&self) -> u32
        ensures { result ≡ self.now.number }
    {
        self.number
    }

    /// Gives the next pass of the epoch that runs. It is Closed where none runs, and where 4,294,967,295 passes were given.
    /// The next serial is the number of passes, so that none is given twice and no pass is looked at. Where memory runs out
    /// nothing changes.
    pub fn declare(
        &mut self,
        running: Option<u64>,
        session: u32,
        name: &Text,
    ) -> Result<Pass, DeclareFault>
        requires { length (name_of name.now) ≤ 255 }
        ensures { PartsDeclare self.old running session name.now result self.new }
    {
        let Some(epoch) = running else {
            return Err(DeclareFault::Closed);
        };
        let serial = self.passes.as_slice().len();
        if serial >= 4_294_967_295 {
            return Err(DeclareFault::Closed);
        }
        let pass = Pass {
            stream: self.number,
            session,
            serial: serial as u32,
            epoch,
        };
        let name = match name_of(self.alloc, name) {
            Ok(name) => name,
            Err(_) => return Err(DeclareFault::Memory),
        };
        push_given(&mut self.passes, Given { pass, name })?;
        Ok(pass)
    }

    /// Whether a pass was given, and its epoch runs. A pass is found by its serial.
    pub fn is_of_use(&self, running: Option<u64>, pass: &Pass) -> bool
        ensures { IsTrue result ↔ ((running ≡ Some pass.now.epoch) × WasGiven self.now.passes pass.now) }
    {
        is_of_use(running, self.passes.as_slice(), pass)
    }

    /// What was given with a pass: the pass, and the name for which it was. It fails for want of memory alone.
    pub fn given(&self, pass: &Pass) -> Result<Given, AllocError>
        requires { WasGiven self.now.passes pass.now }
        ensures { IfOk result (λ given. (given.pass ≡ pass.now) × Contains self.now.passes given × IsShort given) }
    {
        given_with(self.alloc, self.passes.as_slice(), pass)
    }

    /// Puts an offer that was taken behind the others, while the list ends at this offset: it waits where its own end is
    /// past that, and is ready where it isn't. Where memory runs out nothing changes.
    pub fn put(&mut self, end: u64, waits: Waits) -> Result<(), AllocError>
        requires { IsLast self.old.waiting waits }
        ensures ok { OnOk result (self.new ≡ parts_put end waits self.old) }
        ensures err { OnErr result (self.new ≡ self.old) }
    {
        if end < waits.end {
            return put_waiting(&mut self.ready, &mut self.waiting, waits);
        }
        put_ready(&mut self.ready, &self.waiting, waits)
    }

    /// The list ends at this offset now, and this epoch runs. Offers that the list reaches are ready, in order; the others
    /// go on waiting while their epoch runs, and are dropped when it doesn't. It takes no memory, and walks only those that
    /// become ready or are dropped.
    pub fn moved(&mut self, end: u64, running: Option<u64>)
        ensures { self.new ≡ parts_moved end running self.old }
    {
        take_reached(&mut self.ready, &mut self.waiting, end);
        drop_others(&mut self.waiting, running);
    }

    /// Takes out the confirms of a session that are ready, in the order of their offers. Where memory runs out nothing
    /// changes.
    pub fn hand(&mut self, session: u32) -> Result<Row<Confirm>, AllocError>
        ensures out { IfOk result (λ out. out ≡ map confirm_of (filter (is_of session) self.old.ready)) }
        ensures ok { OnOk result (self.new ≡ parts_handed session self.old) }
        ensures err { OnErr result (self.new ≡ self.old) }
    {
        let out = confirms_of(self.alloc, self.ready.as_slice(), session)?;
        drop_session(&mut self.ready, session);
        Ok(out)
    }
}
