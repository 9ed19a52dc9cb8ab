//! The commands of stored offsets and of a stream's numbers. Each is its row, over any hub. After want of memory the session
//! has ended, and the hub has only gone on.

ghost use Rattle.std.specs.Prelude.{IfOk, OnOk};
ghost use Rattle.hub_terms.specs.Programs.{Runs};
ghost use Rattle.session_tables.specs.Opening.{leaves, says, silent};
ghost use Rattle.session_core.specs.Offsets.{store_row, query_row, stats_row};

use crate::publishing::stream_of;
use command_all::ResponseCode;
use frame_wire::Text;
use hub_terms::{Hub, OfferFault};
use session_tables::{Reply, Tables, bytes_of};
use std::alloc::AllocError;

/// StoreOffset: the offset is kept under the reference, or dropped.
pub fn store_offset<H: Hub>(
    tables: &Tables,
    hub: &mut H,
    reference: &Text,
    stream: &Text,
    offset: u64,
    now: u64,
) -> Result<(), AllocError>
    ensures ok { OnOk result (Runs H.meaning (store_row tables.now reference.now stream.now offset now) hub.old (silent tables.now) hub.new) }
    ensures later { H.meaning.seen.later hub.old hub.new }
{
    let found = hub.find(bytes_of(stream));
    match stream_of(found) {
        None => Ok(()),
        Some(number) => match hub.store_offset(number, reference, offset, now) {
            Ok(_) => Ok(()),
            Err(OfferFault::Memory) => Err(AllocError),
            Err(
                OfferFault::Stale {
                    asked: _,
                    running: _,
                },
            ) => Ok(()),
            Err(OfferFault::BadName { len: _ }) => Ok(()),
            Err(OfferFault::EmptyBatch { place: _ }) => Ok(()),
            Err(OfferFault::Limit { what: _, most: _ }) => Ok(()),
        },
    }
}

/// StoreOffset, which has no reply.
pub fn take_offset<H: Hub>(
    tables: &mut Tables,
    hub: &mut H,
    reference: &Text,
    stream: &Text,
    offset: u64,
    now: u64,
) -> Result<Option<Reply>, AllocError>
    ensures ok { IfOk result (λ reply. Runs H.meaning (store_row tables.old reference.now stream.now offset now) hub.old (leaves reply tables.new) hub.new) }
    ensures later { H.meaning.seen.later hub.old hub.new }
{
    store_offset(tables, hub, reference, stream, offset, now)?;
    Ok(None)
}

/// QueryOffset: the last offset that was kept under the reference.
pub fn query_offset<H: Hub>(
    tables: &Tables,
    hub: &mut H,
    corr: u32,
    reference: &Text,
    stream: &Text,
) -> Result<Reply, AllocError>
    ensures ok { IfOk result (λ reply. Runs H.meaning (query_row tables.now corr reference.now stream.now) hub.old (says tables.now reply) hub.new) }
    ensures later { H.meaning.seen.later hub.old hub.new }
{
    let found = hub.find(bytes_of(stream));
    match stream_of(found) {
        None => Ok(Reply::Offset {
            corr,
            code: ResponseCode::StreamDoesNotExist,
            offset: 0,
        }),
        Some(number) => match hub.stored(number, reference) {
            Ok(None) => Ok(Reply::Offset {
                corr,
                code: ResponseCode::NoOffset,
                offset: 0,
            }),
            Ok(Some(offset)) => Ok(Reply::Offset {
                corr,
                code: ResponseCode::Ok,
                offset,
            }),
            Err(refused) => Err(refused),
        },
    }
}

/// StreamStats: the first offset of the stream's last committed chunk.
pub fn stream_stats<H: Hub>(
    tables: &Tables,
    hub: &mut H,
    corr: u32,
    stream: &Text,
) -> Result<Reply, AllocError>
    ensures ok { IfOk result (λ reply. Runs H.meaning (stats_row tables.now corr stream.now) hub.old (says tables.now reply) hub.new) }
    ensures later { H.meaning.seen.later hub.old hub.new }
{
    let found = hub.find(bytes_of(stream));
    match stream_of(found) {
        None => Ok(Reply::NoStats { corr }),
        Some(number) => match hub.last_chunk(number) {
            Ok(last) => Ok(Reply::Stats { corr, last }),
            Err(refused) => Err(refused),
        },
    }
}
