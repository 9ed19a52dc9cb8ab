//! What a test does, step by step.

use crate::answer::{DONE, of_found, some};
use crate::groups::{active, answered, change, join, leave};
use crate::names::{create, create_super, delete, delete_super, parts, route};
use crate::publish::{Confirmed, confirms, declare, offer, offer_many, store};
use crate::read::{greatest, last_chunk, next_chunk, start, stored};
use crate::word::Word;
use command_fields::OffsetSpec;
use hub_terms::{ConsumerId, Hub};
use std::alloc::Global;
use stream_terms::Pass;

/// How a test ends and begins epochs of a hub's streams.
pub trait Epochs<H> {
    /// Ends the epoch that runs of a stream.
    fn stop(&self, hub: &mut H, stream: u32);

    /// Begins the next epoch of a live stream, and tells its number.
    fn begin(&self, hub: &mut H, stream: u32) -> Option<u64>;
}

/// A call of a hub, or a turn of a stream's epoch. Answers are told as numbers, which `answer` names.
#[derive(Clone, Copy, Debug)]
pub enum Step {
    Find(&'static [u8]),
    Create(Word),
    Delete(Word),
    /// A name, partitions and keys.
    CreateSuper(Word, &'static [Word], &'static [Word]),
    DeleteSuper(Word),
    /// A name, and the partitions that are wanted, of which the number is told.
    Parts(Word, &'static [&'static [u8]]),
    /// A key and a name, and the partitions that are wanted, of which the number is told.
    Route(Word, Word, &'static [&'static [u8]]),
    /// A session, a stream and a name.
    Declare(u32, u32, Word),
    /// A pass; ids, each with a number of records: a message has one.
    Offer(Pass, &'static [(u64, u16)]),
    /// A pass, a number of messages of id 0, and the moment. Of other calls it is 1,000.
    OfferMany(Pass, u32, u64),
    /// A stream, a name and an offset.
    Store(u32, Word, u64),
    /// A session, and the confirms that are wanted, of which the number is told.
    Confirms(u32, &'static [Confirmed]),
    Start(u32, OffsetSpec),
    NextChunk(u32, u64),
    Greatest(u32, Word),
    Stored(u32, Word),
    LastChunk(u32),
    Join(u32, Word, ConsumerId),
    Leave(ConsumerId),
    Change(u32),
    Answered(ConsumerId),
    Active(ConsumerId),
    Stop(u32),
    Begin(u32),
}

fn stop<H, E: Epochs<H>>(epochs: &E, hub: &mut H, stream: u32) -> i64 {
    epochs.stop(hub, stream);
    DONE
}

/// Makes the call, and tells its answer.
pub fn take<H: Hub, E: Epochs<H>>(alloc: Global, epochs: &E, hub: &mut H, step: Step) -> i64 {
    match step {
        Step::Find(name) => of_found(hub.find(name)),
        Step::Create(name) => create(alloc, hub, name),
        Step::Delete(name) => delete(alloc, hub, name),
        Step::CreateSuper(name, parts, keys) => create_super(alloc, hub, name, parts, keys),
        Step::DeleteSuper(name) => delete_super(alloc, hub, name),
        Step::Parts(name, want) => parts(alloc, hub, name, want),
        Step::Route(key, name, want) => route(alloc, hub, key, name, want),
        Step::Declare(session, stream, name) => declare(alloc, hub, session, stream, name),
        Step::Offer(pass, list) => offer(alloc, hub, &pass, list),
        Step::OfferMany(pass, count, now) => offer_many(alloc, hub, &pass, count, now),
        Step::Store(stream, name, offset) => store(alloc, hub, stream, name, offset),
        Step::Confirms(session, want) => confirms(hub, session, want),
        Step::Start(stream, spec) => start(hub, stream, &spec),
        Step::NextChunk(stream, from) => next_chunk(hub, stream, from),
        Step::Greatest(stream, name) => greatest(alloc, hub, stream, name),
        Step::Stored(stream, name) => stored(alloc, hub, stream, name),
        Step::LastChunk(stream) => last_chunk(hub, stream),
        Step::Join(stream, name, consumer) => join(alloc, hub, stream, name, consumer),
        Step::Leave(consumer) => leave(hub, consumer),
        Step::Change(session) => change(hub, session),
        Step::Answered(consumer) => answered(hub, consumer),
        Step::Active(consumer) => active(hub, consumer),
        Step::Stop(stream) => stop(epochs, hub, stream),
        Step::Begin(stream) => some(epochs.begin(hub, stream)),
    }
}

/// The place of the first step whose answer isn't the one beside it, counted from 1, and that answer; or 0 and 0.
pub fn wrong_at<H: Hub, E: Epochs<H>>(
    alloc: Global,
    epochs: &E,
    hub: &mut H,
    steps: &[(Step, i64)],
) -> (usize, i64) {
    for at in 0..steps.len() {
        let (step, want) = steps[at];
        let told = take(alloc, epochs, hub, step);
        if told != want {
            return (at + 1, told);
        }
    }
    (0, 0)
}
