//! What a stream does for those that use it: declarations, offers, stored offsets and confirms.

ghost use Rattle.std.specs.Prelude.{◌≡◌, ◌≤◌, length, unwrap_or, IfOk};
ghost use Rattle.chunk_format.specs.ByName.{Greatest, LastStored};
ghost use Rattle.stream_terms.specs.declared.terms.OfferFault.TheVariants as refused;
ghost use Rattle.stream_terms.specs.Views.{name_of};
ghost use Rattle.stream_terms.specs.Steps.{DeclareStep, OfferStep, OffsetStep};
ghost use Rattle.stream_cluster.specs.Served.{view_of};
ghost use Rattle.stream_cluster.specs.Takes.{OfferBrings, OffsetBrings, ConfirmsGive};

use crate::cluster::Cluster;
use crate::takes::Offer;
use command_data::Tagged;
use frame_wire::{Row, Text};
use std::alloc::AllocError;
use stream_terms::{Confirm, DeclareFault, OfferFault, Pass, Taken};

/// The answer to an offer with a pass that is of no use while this epoch runs, or none.
fn stale(pass: &Pass, running: Option<u64>) -> OfferFault
    ensures { result ≡ refused.Stale pass.now.epoch (unwrap_or running 0) }
{
    OfferFault::Stale {
        asked: pass.epoch,
        running: running.unwrap_or(0),
    }
}

impl Cluster {
    /// Gives a session the next pass of the epoch that runs, for a publisher of this name of at most 255 bytes; null and
    /// empty are none. It is Closed where no epoch runs with an open leader, and where 4,294,967,295 passes were given.
    /// Where memory runs out nothing changes.
    pub fn declare(&mut self, session: u32, name: &Text) -> Result<Pass, DeclareFault>
        requires { length (name_of name.now) ≤ 255 }
        ensures step { DeclareStep (view_of self.old) session name.now result (view_of self.new) }
        ensures state { self.new.state ≡ self.old.state }
        ensures limits { self.new.limits ≡ self.old.limits }
    {
        let running = self.replicas.running();
        self.passes.declare(running, session, name)
    }

    /// Offers 1 to 1,048,576 items with a pass, at a moment in milliseconds. Items of a named publisher are left out whose
    /// ids aren't above the greatest one before them; the others go behind the sequence of the leader. The confirm waits
    /// until the committed list reaches the end of that sequence, also where nothing was added. It is Stale where the pass
    /// was never given or its epoch doesn't run, EmptyBatch at the first sub-batch of no records, and Limit where there
    /// would be more publishers, bytes or waiting chunks than there may be, looked at in this order. After every fault
    /// nothing has changed.
    pub fn offer(&mut self, pass: &Pass, items: &[Tagged], now: u64) -> Result<Taken, OfferFault>
        requires some { 1 ≤ length items.now }
        requires few { length items.now ≤ 1048576 }
        ensures brings { OfferBrings self.old pass.now items.now now result self.new }
        ensures step { OfferStep (view_of self.old) pass.now items.now result (view_of self.new) }
    {
        let running = self.replicas.running();
        if !self.passes.is_of_use(running, pass) {
            return Err(stale(pass, running));
        }
        let given = match self.passes.given(pass) {
            Ok(given) => given,
            Err(_) => return Err(OfferFault::Memory),
        };
        let offer = Offer {
            given,
            items,
            moment: now,
        };
        let limits = self.limits;
        self.replicas.offer(&mut self.passes, &limits, offer)
    }

    /// Stores an offset for a consumer of this name, at a moment in milliseconds. It is Stale where no epoch runs with an
    /// open leader, BadName where the name doesn't have 1 to 255 bytes, and Limit where there would be more consumers,
    /// bytes or waiting chunks than there may be, looked at in this order. After every fault nothing has changed.
    pub fn store_offset(&mut self, name: &Text, offset: u64, now: u64) -> Result<Taken, OfferFault>
        ensures brings { OffsetBrings self.old name.now offset now result self.new }
        ensures step { OffsetStep (view_of self.old) name.now offset result (view_of self.new) }
    {
        let Some(_running) = self.replicas.running() else {
            return Err(OfferFault::Stale {
                asked: 0,
                running: 0,
            });
        };
        let limits = self.limits;
        self.replicas.store_offset(&limits, name, offset, now)
    }

    /// Takes out the confirms of a session that the committed list has reached, in the order of their offers: each is
    /// handed out once. Where memory runs out nothing changes.
    pub fn confirms(&mut self, session: u32) -> Result<Row<Confirm>, AllocError>
        ensures { ConfirmsGive self.old session result self.new }
    {
        self.passes.hand(session)
    }

    /// The greatest id of a publisher in the committed list, if there is one. It takes in what the list got since the last
    /// question of this kind, each chunk once, and fails for want of memory alone.
    pub fn greatest(&mut self, name: &[u8]) -> Result<Option<u64>, AllocError>
        ensures greatest { IfOk result (λ id. id ≡ Greatest name.now self.old.state.cluster.committed) }
        ensures same { self.new ≡ self.old }
    {
        self.index.greatest(self.replicas.list(), name)
    }

    /// The last offset that was stored for a consumer in the committed list, if there is one. It takes in what the list got
    /// since the last question of this kind, each chunk once, and fails for want of memory alone.
    pub fn stored(&mut self, name: &[u8]) -> Result<Option<u64>, AllocError>
        ensures stored { IfOk result (λ offset. offset ≡ LastStored name.now self.old.state.cluster.committed) }
        ensures same { self.new ≡ self.old }
    {
        self.index.stored(self.replicas.list(), name)
    }
}
