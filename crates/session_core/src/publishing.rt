//! The commands of publishers. Each is its row, over any hub. After want of memory the session has ended, and the hub has
//! only gone on.

ghost use Rattle.std.specs.Prelude.{◌≡◌, ◌≤◌, false, IfOk, OnOk, length, if◌then◌else◌};
ghost use Rattle.std.specs.List.{AllByRecursion};
ghost use Rattle.stream_terms.specs.Views.{name_of};
ghost use Rattle.hub_terms.specs.Meaning.{HasSpelling, IsShortName};
ghost use Rattle.hub_terms.specs.Programs.{Runs};
ghost use Rattle.session_tables.specs.Opening.{leaves, says};
ghost use Rattle.session_tables.specs.Publishing.{is_refused};
ghost use Rattle.session_core.specs.Ends.{stream_of};
ghost use Rattle.session_core.specs.Publishing.{with_publisher, declare_row, declare_running, closes, publish_row, sequence_row, publisher_deleted};

use command_all::{ResponseCode, Tagged};
use frame_wire::{Row, Text};
use hub_terms::{DeclareFault, Found, Hub, OfferFault, Pass};
use session_tables::{Publishers, Reply, Request, Tables, bytes_of};
use std::alloc::AllocError;

/// The number of the stream that a name leads to.
pub(crate) fn stream_of(found: Found) -> Option<u32>
    ensures { result ≡ stream_of found }
{
    match found {
        Found::Missing => None,
        Found::Closed { stream } => Some(stream),
        Found::Running { stream, epoch: _ } => Some(stream),
    }
}

/// Whether a declaration with this id and this reference on this stream is refused by its words.
#[tactic(auto, using(crate::proofs::Declarations::short_reference))]
fn refuses(publishers: &Publishers, id: u8, stream: u32, reference: &Text) -> bool
    ensures is { result ≡ is_refused id stream (name_of reference.now) publishers.now }
    ensures short { result ≡ false → IsShortName reference.now }
{
    publishers.refuses(id, stream, bytes_of(reference))
}

/// Keeps a publisher with its pass, and the name of its stream.
pub(crate) fn keep(
    tables: &mut Tables,
    id: u8,
    pass: Pass,
    reference: &Text,
    stream: &Text,
) -> Result<(), AllocError>
    ensures { OnOk result (tables.new ≡ with_publisher id pass reference.now stream.now tables.old) }
{
    tables.publishers.declare(id, pass, bytes_of(reference))?;
    tables.streams.know(pass.stream, stream)
}

/// Declares a publisher on a stream of which an epoch runs.
fn declare_running<H: Hub>(
    tables: &mut Tables,
    hub: &mut H,
    corr: u32,
    id: u8,
    reference: &Text,
    stream: &Text,
    number: u32,
) -> Result<Reply, AllocError>
    ensures ok { IfOk result (λ reply. Runs H.meaning (declare_running tables.old corr id reference.now stream.now number) hub.old (says tables.new reply) hub.new) }
    ensures later { H.meaning.seen.later hub.old hub.new }
{
    if refuses(&tables.publishers, id, number, reference) {
        return Ok(Reply::Answer {
            request: Request::DeclarePublisher,
            corr,
            code: ResponseCode::PreconditionFailed,
        });
    }
    match hub.declare(tables.number, number, reference) {
        Ok(pass) => {
            keep(tables, id, pass, reference, stream)?;
            Ok(Reply::Answer {
                request: Request::DeclarePublisher,
                corr,
                code: ResponseCode::Ok,
            })
        }
        Err(DeclareFault::Closed) => Ok(Reply::Answer {
            request: Request::DeclarePublisher,
            corr,
            code: ResponseCode::StreamNotAvailable,
        }),
        Err(DeclareFault::Memory) => Err(AllocError),
    }
}

/// DeclarePublisher: the publisher is declared, or the answer says why not.
pub fn declare<H: Hub>(
    tables: &mut Tables,
    hub: &mut H,
    corr: u32,
    id: u8,
    reference: &Text,
    stream: &Text,
) -> Result<Reply, AllocError>
    ensures ok { IfOk result (λ reply. Runs H.meaning (declare_row tables.old corr id reference.now stream.now) hub.old (says tables.new reply) hub.new) }
    ensures later { H.meaning.seen.later hub.old hub.new }
{
    match hub.find(bytes_of(stream)) {
        Found::Missing => Ok(Reply::Answer {
            request: Request::DeclarePublisher,
            corr,
            code: ResponseCode::StreamDoesNotExist,
        }),
        Found::Closed { stream: _ } => Ok(Reply::Answer {
            request: Request::DeclarePublisher,
            corr,
            code: ResponseCode::StreamNotAvailable,
        }),
        Found::Running {
            stream: number,
            epoch: _,
        } => declare_running(tables, hub, corr, id, reference, stream, number),
    }
}

/// After a refusal a publisher with a reference goes.
fn close_named(tables: &mut Tables, id: u8, named: bool)
    ensures { tables.new ≡ (if named then closes id tables.old else tables.old) }
{
    if named {
        tables.publishers.remove(id);
    }
}

/// Publish: the items are offered. Where they are confirmed, that is told later. A refusal closes a publisher with a
/// reference.
pub fn publish<H: Hub>(
    tables: &mut Tables,
    hub: &mut H,
    id: u8,
    items: Row<Tagged>,
    now: u64,
) -> Result<Option<Reply>, AllocError>
    requires few { length items ≤ 1048576 }
    requires spelled { AllByRecursion HasSpelling items }
    ensures ok { IfOk result (λ reply. Runs H.meaning (publish_row tables.old id items now) hub.old (leaves reply tables.new) hub.new) }
    ensures later { H.meaning.seen.later hub.old hub.new }
{
    if items.as_slice().is_empty() {
        return Ok(None);
    }
    let Some((pass, named)) = tables.publishers.leave_of(id) else {
        return Ok(Some(Reply::PublishError {
            id,
            items,
            code: ResponseCode::PublisherDoesNotExist,
        }));
    };
    let code = match hub.offer(pass.stream, &pass, items.as_slice(), now) {
        Ok(_) => return Ok(None),
        Err(
            OfferFault::Stale {
                asked: _,
                running: _,
            },
        ) => ResponseCode::StreamNotAvailable,
        Err(OfferFault::BadName { len: _ }) => ResponseCode::PreconditionFailed,
        Err(OfferFault::EmptyBatch { place: _ }) => ResponseCode::PreconditionFailed,
        Err(OfferFault::Limit { what: _, most: _ }) => ResponseCode::PreconditionFailed,
        Err(OfferFault::Memory) => return Err(AllocError),
    };
    close_named(tables, id, named);
    Ok(Some(Reply::PublishError { id, items, code }))
}

/// QueryPublisherSequence: the greatest id of a reference in the stream's list, or 0.
pub fn query_sequence<H: Hub>(
    tables: &Tables,
    hub: &mut H,
    corr: u32,
    reference: &Text,
    stream: &Text,
) -> Result<Reply, AllocError>
    ensures ok { IfOk result (λ reply. Runs H.meaning (sequence_row tables.now corr reference.now stream.now) hub.old (says tables.now reply) hub.new) }
    ensures later { H.meaning.seen.later hub.old hub.new }
{
    let found = hub.find(bytes_of(stream));
    match stream_of(found) {
        None => Ok(Reply::Sequence {
            corr,
            code: ResponseCode::StreamDoesNotExist,
            id: 0,
        }),
        Some(number) => match hub.greatest(number, reference) {
            Ok(None) => Ok(Reply::Sequence {
                corr,
                code: ResponseCode::Ok,
                id: 0,
            }),
            Ok(Some(id)) => Ok(Reply::Sequence {
                corr,
                code: ResponseCode::Ok,
                id,
            }),
            Err(refused) => Err(refused),
        },
    }
}

/// DeletePublisher: the publisher goes.
pub fn delete_publisher(tables: &mut Tables, corr: u32, id: u8) -> Reply
    ensures { says tables.new result ≡ publisher_deleted tables.old corr id }
{
    if tables.publishers.has(id) {
        tables.publishers.remove(id);
        return Reply::Answer {
            request: Request::DeletePublisher,
            corr,
            code: ResponseCode::Ok,
        };
    }
    Reply::Answer {
        request: Request::DeletePublisher,
        corr,
        code: ResponseCode::PublisherDoesNotExist,
    }
}
