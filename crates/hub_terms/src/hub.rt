//! The calls of a hub.

ghost use Rattle.std.specs.Prelude.{◌≡◌, ◌≤◌, ◌<◌, length};
ghost use Rattle.std.specs.List.{AllByRecursion};
ghost use Rattle.hub_terms.specs.Calls.{Finding, Creating, Deleting, CreatingSuper, DeletingSuper, PartsOf, Routing, Declaring, Offering, StoringOffset, Confirming, Starting, NextChunk, GreatestOf, StoredOf, LastChunk, Joining, Leaving, Changing, Answering, IsActive};
ghost use Rattle.hub_terms.specs.Meaning.{HubMeaning, HubLaws, IsShortName, HasSpelling};

use crate::terms::{Found, HubDid};
use active_groups::{Change, ConsumerId};
use chunk_format::Stored;
use command_data::Tagged;
use command_fields::OffsetSpec;
use frame_wire::{Row, Text};
use std::alloc::AllocError;
use stream_terms::{Confirm, DeclareFault, OfferFault, Pass, Taken};

/// A session's way to streams, catalog and groups. Each call's answer, with the hub before and after, is one of the hub's
/// meaning; the laws say what each such answer tells. Moments are in milliseconds since 1970. Want of memory may come of
/// each call that can answer it.
pub trait Hub {
    // What the calls do.
    ghost meaning: { HubMeaning Self };

    /// What a name leads to.
    fn find(&mut self, name: &[u8]) -> Found
        ensures { meaning.does (Finding name.now) self.old result self.new };

    /// A stream is to come.
    fn create(&mut self, name: &Text) -> HubDid
        ensures { meaning.does (Creating name.now) self.old result self.new };

    /// A stream is to go.
    fn delete(&mut self, name: &Text) -> HubDid
        ensures { meaning.does (Deleting name.now) self.old result self.new };

    /// A super stream is to come, with these partitions, each with its binding key.
    fn create_super(&mut self, name: &Text, parts: &[Text], keys: &[Text]) -> HubDid
        ensures { meaning.does (CreatingSuper name.now parts.now keys.now) self.old result self.new };

    /// A super stream is to go, with its partitions.
    fn delete_super(&mut self, name: &Text) -> HubDid
        ensures { meaning.does (DeletingSuper name.now) self.old result self.new };

    /// The names of a super stream's partitions, `None` where no live super stream has the name.
    fn parts(&mut self, name: &Text) -> Result<Option<Row<Text>>, AllocError>
        ensures { meaning.does (PartsOf name.now) self.old result self.new };

    /// The partitions of a super stream whose binding key is this routing key, `None` where no live super stream has the name.
    fn route(&mut self, key: &Text, name: &Text) -> Result<Option<Row<Text>>, AllocError>
        ensures { meaning.does (Routing key.now name.now) self.old result self.new };

    /// A pass for a publisher, whose name is empty where it has none.
    fn declare(&mut self, session: u32, stream: u32, name: &Text) -> Result<Pass, DeclareFault>
        requires { IsShortName name.now }
        ensures { meaning.does (Declaring session stream name.now) self.old result self.new };

    /// Items of a publisher are to stand in the stream's list.
    fn offer(
        &mut self,
        stream: u32,
        pass: &Pass,
        items: &[Tagged],
        now: u64,
    ) -> Result<Taken, OfferFault>
        requires of_stream { pass.now.stream ≡ stream }
        requires some { 1 ≤ length items.now }
        requires few { length items.now ≤ 1048576 }
        requires spelled { AllByRecursion HasSpelling items.now }
        ensures { meaning.does (Offering stream pass.now items.now now) self.old result self.new };

    /// An offset of a consumer is to be stored in the stream's list.
    fn store_offset(
        &mut self,
        stream: u32,
        name: &Text,
        offset: u64,
        now: u64,
    ) -> Result<Taken, OfferFault>
        ensures { meaning.does (StoringOffset stream name.now offset now) self.old result self.new };

    /// The confirms of a session that are ready, by number of stream, each once. Where memory ran out some may be given up.
    fn confirms(&mut self, session: u32) -> Result<Row<Confirm>, AllocError>
        ensures { meaning.does (Confirming session) self.old result self.new };

    /// Where a subscription starts in the list as seen.
    fn start(&mut self, stream: u32, spec: &OffsetSpec) -> Result<u64, AllocError>
        ensures { meaning.does (Starting stream spec.now) self.old result self.new };

    /// The first user chunk of the list as seen whose end is above an offset.
    fn next_chunk(&mut self, stream: u32, from: u64) -> Result<Option<Stored>, AllocError>
        ensures { meaning.does (NextChunk stream from) self.old result self.new };

    /// The greatest id of a publisher in the list as seen.
    fn greatest(&mut self, stream: u32, name: &Text) -> Result<Option<u64>, AllocError>
        ensures { meaning.does (GreatestOf stream name.now) self.old result self.new };

    /// The last offset that was stored for a consumer in the list as seen.
    fn stored(&mut self, stream: u32, name: &Text) -> Result<Option<u64>, AllocError>
        ensures { meaning.does (StoredOf stream name.now) self.old result self.new };

    /// The first offset of the last chunk of the list as seen.
    fn last_chunk(&mut self, stream: u32) -> Result<Option<u64>, AllocError>
        ensures { meaning.does (LastChunk stream) self.old result self.new };

    /// A consumer joins the group of a stream and a name. One that is in a group leaves it first, also where memory runs out.
    fn join(&mut self, stream: u32, name: &Text, consumer: ConsumerId) -> Result<(), AllocError>
        ensures { meaning.does (Joining stream name.now consumer) self.old result self.new };

    /// A consumer leaves its group.
    fn leave(&mut self, consumer: ConsumerId)
        ensures { meaning.does (Leaving consumer) self.old result self.new };

    /// The next change that a consumer of the session is to be told.
    fn change(&mut self, session: u32) -> Option<Change>
        ensures { meaning.does (Changing session) self.old result self.new };

    /// A consumer answered; whether its answer was awaited.
    fn answered(&mut self, consumer: ConsumerId) -> bool
        ensures { meaning.does (Answering consumer) self.old result self.new };

    /// Whether a consumer is the active one of its group.
    fn active(&mut self, consumer: ConsumerId) -> bool
        ensures { meaning.does (IsActive consumer) self.old result self.new };

    ghost laws: { HubLaws meaning };
}
