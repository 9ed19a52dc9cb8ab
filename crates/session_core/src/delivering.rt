//! Deliveries. After want of memory the session has ended, and the hub has only gone on.

ghost use Rattle.std.specs.Prelude.{◌≡◌, ◌<◌, IfOk, OnOk};
ghost use Rattle.hub_terms.specs.Programs.{Runs};
ghost use Rattle.session_core.specs.Speaking.{spoken};
ghost use Rattle.session_core.specs.Delivering.{committed_row, send, single_row, slot_by, slot_row, slots_row};
ghost use Rattle.session_core.specs.Delivered.{Gives};

use crate::consuming::consumer;
use crate::unasked::{Unasked, say};
use chunk_format::Stored;
use frame_wire::Row;
use hub_terms::Hub;
use session_tables::{Subscription, Tables};
use std::alloc::AllocError;

/// What a delivery names as committed: in version 2 the first offset of the last chunk, in version 1 nothing.
fn committed<H: Hub>(hub: &mut H, second: bool, stream: u32) -> Result<Option<u64>, AllocError>
    ensures ok { IfOk result (λ last. Runs H.meaning (committed_row second stream) hub.old last hub.new) }
    ensures later { H.meaning.seen.later hub.old hub.new }
{
    if !second {
        return Ok(None);
    }
    match hub.last_chunk(stream) {
        Ok(last) => Ok(last),
        Err(refused) => Err(refused),
    }
}

/// A subscription is sent the chunk that is due, whose bytes are shared.
fn give<H: Hub>(
    hub: &mut H,
    second: bool,
    id: u8,
    subscription: &mut Subscription,
    chunk: Stored,
    out: &mut Row<Unasked>,
) -> Result<(), AllocError>
    requires { 0 < subscription.old.credit }
    ensures ok { OnOk result (Gives H.meaning second id subscription.old chunk subscription.new out.old out.new hub.old hub.new) }
    ensures later { H.meaning.seen.later hub.old hub.new }
{
    let header = chunk.header();
    let records = u64::from(header.records);
    let end = header.first + records;
    let committed = committed(hub, second, subscription.stream)?;
    say(
        out,
        Unasked::Deliver {
            id,
            committed,
            chunk,
        },
    )?;
    subscription.next = end;
    subscription.credit -= 1;
    Ok(())
}

/// An active subscription is sent what is due, as far as it has credit.
fn send<H: Hub>(
    tables: &mut Tables,
    hub: &mut H,
    id: usize,
    subscription: Subscription,
    out: &mut Row<Unasked>,
) -> Result<(), AllocError>
    requires { id < 256 }
    ensures ok { OnOk result (Runs H.meaning (send subscription.credit tables.old id subscription out.old) hub.old (spoken out.new tables.new) hub.new) }
    ensures later { H.meaning.seen.later hub.old hub.new }
{
    let second = tables.second;
    let mut left = subscription;
    'chunks: while left.credit > 0 {
        match hub.next_chunk(left.stream, left.next) {
            Ok(None) => {
                tables.put(id, left);
                return Ok(());
            }
            Ok(Some(chunk)) => give(hub, second, id as u8, &mut left, chunk, out)?,
            Err(refused) => return Err(refused),
        }
    }
    tables.put(id, left);
    Ok(())
}

/// A subscription with credit is sent what is due, if it is active.
fn send_if<H: Hub>(
    tables: &mut Tables,
    hub: &mut H,
    id: usize,
    subscription: Subscription,
    out: &mut Row<Unasked>,
) -> Result<(), AllocError>
    requires { id < 256 }
    ensures ok { OnOk result (Runs H.meaning (single_row tables.old out.old id subscription subscription.single) hub.old (spoken out.new tables.new) hub.new) }
    ensures later { H.meaning.seen.later hub.old hub.new }
{
    match subscription.single {
        None => send(tables, hub, id, subscription, out),
        Some(serial) => {
            if hub.active(consumer(tables, serial)) {
                return send(tables, hub, id, subscription, out);
            }
            Ok(())
        }
    }
}

/// The subscription of an id is sent what is due, if there is one.
fn deliver_at<H: Hub>(
    tables: &mut Tables,
    hub: &mut H,
    id: usize,
    out: &mut Row<Unasked>,
) -> Result<(), AllocError>
    requires { id < 256 }
    ensures ok { OnOk result (Runs H.meaning (slot_row id tables.old out.old) hub.old (spoken out.new tables.new) hub.new) }
    ensures later { H.meaning.seen.later hub.old hub.new }
{
    match tables.subscriptions[id] {
        None => Ok(()),
        Some(subscription) => {
            if subscription.credit == 0 {
                return Ok(());
            }
            send_if(tables, hub, id, subscription, out)
        }
    }
}

/// Each active subscription, by its id, is sent what is due, as far as it has credit.
pub(crate) fn deliver_all<H: Hub>(
    tables: &mut Tables,
    hub: &mut H,
    out: &mut Row<Unasked>,
) -> Result<(), AllocError>
    ensures ok { OnOk result (Runs H.meaning (slots_row 256 0 tables.old out.old) hub.old (spoken out.new tables.new) hub.new) }
    ensures later { H.meaning.seen.later hub.old hub.new }
{
    'ids: for id in 0..256 {
        deliver_at(tables, hub, id, out)?;
    }
    Ok(())
}
