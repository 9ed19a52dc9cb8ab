//! Calls of consumers of groups.

use crate::answer::{DONE, MEMORY, NONE, truth, two};
use crate::word::{Word, text};
use hub_terms::{Change, ConsumerId, Hub};
use std::alloc::Global;

pub(crate) fn join<H: Hub>(
    alloc: Global,
    hub: &mut H,
    stream: u32,
    name: Word,
    consumer: ConsumerId,
) -> i64 {
    match text(alloc, name) {
        Some(name) => match hub.join(stream, &name, consumer) {
            Ok(()) => DONE,
            Err(_) => MEMORY,
        },
        None => MEMORY,
    }
}

pub(crate) fn leave<H: Hub>(hub: &mut H, consumer: ConsumerId) -> i64 {
    hub.leave(consumer);
    DONE
}

/// The session of the consumer times 10,000, its serial times 100, and 1 where it is to be active.
fn told(change: Change) -> i64 {
    let session = u64::from(change.consumer.session);
    let consumer = session * 100 + u64::from(change.consumer.serial);
    two(consumer, u64::from(change.active))
}

pub(crate) fn change<H: Hub>(hub: &mut H, session: u32) -> i64 {
    match hub.change(session) {
        Some(change) => told(change),
        None => NONE,
    }
}

pub(crate) fn answered<H: Hub>(hub: &mut H, consumer: ConsumerId) -> i64 {
    truth(hub.answered(consumer))
}

pub(crate) fn active<H: Hub>(hub: &mut H, consumer: ConsumerId) -> i64 {
    truth(hub.active(consumer))
}
