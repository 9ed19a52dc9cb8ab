//! Three rows of a session's table.

ghost use Rattle.std.specs.Prelude.{◌≡◌, ◌≤◌, IfOk, length};
ghost use Rattle.std.specs.List.{AllByRecursion};
ghost use Rattle.hub_terms.specs.Meaning.{HasSpelling};
ghost use Rattle.hub_terms.specs.Programs.{Runs};
ghost use Rattle.session_rows.specs.Rows.{declare_row, publish_row, subscribe_row, Outcome, kept_of};

use crate::tables::{
    Publisher, Reply, Subscription, Tables, has_name, is_declared, is_short, leave_of,
    remove_publisher,
};
use command_data::Tagged;
use command_fields::{OffsetSpec, ResponseCode};
use frame_wire::{Row, Text};
use hub_terms::{Found, Hub};
use std::alloc::AllocError;
use stream_terms::{DeclareFault, OfferFault};

/// DeclarePublisher: the publisher is declared, or the answer says why not. After want of memory the session has ended.
pub fn declare<H: Hub>(
    tables: &mut Tables,
    hub: &mut H,
    corr: u32,
    id: u8,
    reference: &Text,
    stream: &[u8],
) -> Result<Option<Reply>, AllocError>
    ensures ok { IfOk result (λ reply. Runs H.meaning (declare_row (kept_of tables.old) corr id reference.now stream.now) hub.old (record { reply = reply; kept = kept_of tables.new }) hub.new) }
    ensures later { H.meaning.seen.later hub.old hub.new }
{
    let code = match hub.find(stream) {
        Found::Missing => ResponseCode::StreamDoesNotExist,
        Found::Closed { stream: _ } => ResponseCode::StreamNotAvailable,
        Found::Running { stream, epoch: _ } => {
            if is_declared(tables.publishers.as_slice(), id) || !is_short(reference) {
                ResponseCode::PreconditionFailed
            } else {
                match hub.declare(tables.number, stream, reference) {
                    Ok(pass) => {
                        tables.publishers.push(Publisher {
                            id,
                            pass,
                            named: has_name(reference),
                        })?;
                        ResponseCode::Ok
                    }
                    Err(DeclareFault::Closed) => ResponseCode::StreamNotAvailable,
                    Err(DeclareFault::Memory) => return Err(AllocError),
                }
            }
        }
    };
    Ok(Some(Reply::Answer { corr, code }))
}

/// Publish: the items are offered. A refusal closes a named publisher.
pub fn publish<H: Hub>(
    tables: &mut Tables,
    hub: &mut H,
    id: u8,
    items: Row<Tagged>,
    now: u64,
) -> Result<Option<Reply>, AllocError>
    requires few { length items ≤ 1048576 }
    requires spelled { AllByRecursion HasSpelling items }
    ensures ok { IfOk result (λ reply. Runs H.meaning (publish_row (kept_of tables.old) id items now) hub.old (record { reply = reply; kept = kept_of tables.new }) hub.new) }
    ensures later { H.meaning.seen.later hub.old hub.new }
{
    if items.as_slice().is_empty() {
        return Ok(None);
    }
    let Some((pass, named)) = leave_of(tables.publishers.as_slice(), id) else {
        return Ok(Some(Reply::PublishError {
            id,
            items,
            code: ResponseCode::PublisherDoesNotExist,
        }));
    };
    let code = match hub.offer(pass.stream, &pass, items.as_slice(), now) {
        Ok(_) => return Ok(None),
        Err(
            OfferFault::Stale {
                asked: _,
                running: _,
            },
        ) => ResponseCode::StreamNotAvailable,
        Err(OfferFault::BadName { len: _ }) => ResponseCode::PreconditionFailed,
        Err(OfferFault::EmptyBatch { place: _ }) => ResponseCode::PreconditionFailed,
        Err(OfferFault::Limit { what: _, most: _ }) => ResponseCode::PreconditionFailed,
        Err(OfferFault::Memory) => return Err(AllocError),
    };
    if named {
        remove_publisher(&mut tables.publishers, id);
    }
    Ok(Some(Reply::PublishError { id, items, code }))
}

/// Subscribe: the subscription begins where its specification says.
pub fn subscribe<H: Hub>(
    tables: &mut Tables,
    hub: &mut H,
    corr: u32,
    id: u8,
    stream: &[u8],
    spec: &OffsetSpec,
    credit: u16,
) -> Result<Option<Reply>, AllocError>
    ensures ok { IfOk result (λ reply. Runs H.meaning (subscribe_row (kept_of tables.old) corr id stream.now spec.now credit) hub.old (record { reply = reply; kept = kept_of tables.new }) hub.new) }
    ensures later { H.meaning.seen.later hub.old hub.new }
{
    let code = match hub.find(stream) {
        Found::Missing => ResponseCode::StreamDoesNotExist,
        Found::Closed { stream: _ } => ResponseCode::StreamNotAvailable,
        Found::Running { stream, epoch: _ } => {
            if let Some(_) = tables.subscriptions[id as usize] {
                ResponseCode::SubscriptionIdAlreadyExists
            } else {
                match hub.start(stream, spec) {
                    Ok(next) => {
                        tables.subscriptions[id as usize] = Some(Subscription {
                            stream,
                            next,
                            credit: credit as u64,
                        });
                        ResponseCode::Ok
                    }
                    Err(refused) => return Err(refused),
                }
            }
        }
    };
    Ok(Some(Reply::Answer { corr, code }))
}
