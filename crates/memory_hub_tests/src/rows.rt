//! Rows of a session's table, over any hub.

ghost use Rattle.std.specs.Prelude.{◌≤◌, length};
ghost use Rattle.std.specs.List.{AllByRecursion};
ghost use Rattle.hub_terms.specs.Meaning.{HasSpelling};

use command_data::Tagged;
use command_fields::OffsetSpec;
use frame_wire::Row;
use hub_call_tests::answer::{MEMORY, NONE, NOT_MADE, OTHER, of_code, one, two};
use hub_call_tests::{Epochs, Step, Word, items, take, text};
use hub_terms::Hub;
use session_rows::{Reply, Subscription, Tables, declare, deliver, publish, subscribe};
use std::alloc::{AllocError, Global};

/// A row of a session's table, or a call of its hub.
#[derive(Clone, Copy, Debug)]
pub enum RowStep {
    /// A publisher, its reference and the name of a stream.
    Declare(u8, Word, &'static [u8]),
    /// A publisher, and ids, each with a number of records.
    Publish(u8, &'static [(u64, u16)]),
    /// A subscription, the name of a stream, where it begins, and its credit.
    Subscribe(u8, &'static [u8], OffsetSpec, u16),
    /// A subscription, and the first offsets of the chunks that are wanted; the credit that is left is told.
    Deliver(u8, &'static [u64]),
    Call(Step),
}

/// The tables of a new session.
pub fn new_tables(alloc: Global, number: u32) -> Tables {
    Tables {
        number,
        publishers: Vec::new(alloc),
        subscriptions: [None; 256],
    }
}

/// The code of an answer; the number of refused items times 100, and their code.
fn of_reply(told: Result<Option<Reply>, AllocError>) -> i64 {
    match told {
        Ok(None) => NONE,
        Ok(
            Some(
                Reply::Answer {
                    corr: _,
                    code: told,
                },
            ),
        ) => of_code(told),
        Ok(
            Some(
                Reply::PublishError {
                    id: _,
                    items,
                    code: told,
                },
            ),
        ) => refused(items.as_slice(), of_code(told)),
        Ok(Some(Reply::Deliver { id: _, chunk: _ })) => OTHER,
        Err(_) => MEMORY,
    }
}

fn refused(items: &[Tagged], told: i64) -> i64 {
    two(items.len() as u64, 0).saturating_add(told)
}

fn declare_row<H: Hub>(
    alloc: Global,
    tables: &mut Tables,
    hub: &mut H,
    id: u8,
    reference: Word,
    stream: &[u8],
) -> i64 {
    match text(alloc, reference) {
        Some(reference) => of_reply(declare(tables, hub, 1, id, &reference, stream)),
        None => MEMORY,
    }
}

fn publish_items<H: Hub>(tables: &mut Tables, hub: &mut H, id: u8, items: Row<Tagged>) -> i64
    requires { AllByRecursion HasSpelling items }
{
    if items.as_slice().len() > 1_048_576 {
        return NOT_MADE;
    }
    of_reply(publish(tables, hub, id, items, 1_000))
}

fn publish_row<H: Hub>(
    alloc: Global,
    tables: &mut Tables,
    hub: &mut H,
    id: u8,
    list: &[(u64, u16)],
) -> i64 {
    match items(alloc, list) {
        Ok(row) => publish_items(tables, hub, id, row),
        Err(_) => MEMORY,
    }
}

fn begins_at(reply: &Reply, want: u64) -> bool {
    match reply {
        Reply::Deliver { id: _, chunk } => chunk.header().first == want,
        Reply::Answer { .. } | Reply::PublishError { .. } => false,
    }
}

fn begin_at(replies: &[Reply], want: &[u64]) -> bool {
    if replies.len() != want.len() {
        return false;
    }
    for (reply, want) in replies.iter().zip(want) {
        if !begins_at(reply, *want) {
            return false;
        }
    }
    true
}

/// What is delivered to a subscription.
fn delivered<H: Hub>(
    alloc: Global,
    hub: &mut H,
    id: u8,
    subscription: &mut Subscription,
) -> Option<Row<Reply>> {
    let mut out = Row::new(alloc);
    match deliver(hub, id, subscription, &mut out) {
        Ok(()) => Some(out),
        Err(_) => None,
    }
}

fn deliver_row<H: Hub>(
    alloc: Global,
    tables: &mut Tables,
    hub: &mut H,
    id: u8,
    want: &[u64],
) -> i64 {
    let Some(mut subscription) = tables.subscriptions[id as usize] else {
        return NONE;
    };
    let Some(out) = delivered(alloc, hub, id, &mut subscription) else {
        return MEMORY;
    };
    tables.subscriptions[id as usize] = Some(subscription);
    if begin_at(out.as_slice(), want) {
        one(subscription.credit)
    } else {
        OTHER
    }
}

fn take_row<H: Hub, E: Epochs<H>>(
    alloc: Global,
    epochs: &E,
    tables: &mut Tables,
    hub: &mut H,
    row: RowStep,
) -> i64 {
    match row {
        RowStep::Declare(id, reference, stream) => {
            declare_row(alloc, tables, hub, id, reference, stream)
        }
        RowStep::Publish(id, list) => publish_row(alloc, tables, hub, id, list),
        RowStep::Subscribe(id, stream, spec, credit) => {
            of_reply(subscribe(tables, hub, 1, id, stream, &spec, credit))
        }
        RowStep::Deliver(id, want) => deliver_row(alloc, tables, hub, id, want),
        RowStep::Call(step) => take(alloc, epochs, hub, step),
    }
}

/// The place of the first row whose answer isn't the one beside it, counted from 1, and that answer; or 0 and 0.
pub fn wrong_row<H: Hub, E: Epochs<H>>(
    alloc: Global,
    epochs: &E,
    tables: &mut Tables,
    hub: &mut H,
    rows: &[(RowStep, i64)],
) -> (usize, i64) {
    for at in 0..rows.len() {
        let (row, want) = rows[at];
        let told = take_row(alloc, epochs, tables, hub, row);
        if told != want {
            return (at + 1, told);
        }
    }
    (0, 0)
}
