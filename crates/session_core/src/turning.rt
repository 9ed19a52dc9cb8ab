//! The turns of consumers. After want of memory the session has ended, and the hub has only gone on.

ghost use Rattle.std.specs.Prelude.{◌≡◌, ◌<◌, position, IfSome, OnOk};
ghost use Rattle.hub_terms.specs.Programs.{Runs};
ghost use Rattle.session_tables.specs.Opening.{next_asked};
ghost use Rattle.session_tables.specs.Subscribing.{slot, put_slot};
ghost use Rattle.session_core.specs.Speaking.{spoken};
ghost use Rattle.session_core.specs.Turning.{is_consumer, asked_slot, asks, turned, turns_row};

use crate::unasked::{Unasked, say};
use frame_wire::Row;
use hub_terms::{Change, Hub};
use session_tables::{Subscription, Tables};
use std::alloc::AllocError;

fn is_consumer(slot: &Option<Subscription>, serial: u32) -> bool
    ensures { result ≡ is_consumer serial slot.now }
{
    match slot {
        None => false,
        Some(subscription) => match subscription.single {
            None => false,
            Some(other) => other == serial,
        },
    }
}

/// The id of the subscription whose consumer has this serial.
fn place_of(tables: &Tables, serial: u32) -> Option<usize>
    ensures is { result ≡ position (is_consumer serial) tables.now.subscriptions }
    ensures inside { IfSome result (λ id. id < 256) }
{
    tables
        .subscriptions
        .iter()
        .position(|slot| is_consumer(slot, serial))
}

/// The server's next correlation.
fn next_asked(asked: u32) -> u32
    ensures { result ≡ next_asked asked }
{
    if asked == 4_294_967_295 { 1 } else { asked + 1 }
}

/// The update of this correlation of a subscription waits for its answer.
fn wait_for(tables: &mut Tables, id: usize, corr: u32)
    requires { id < 256 }
    ensures { tables.new ≡ put_slot id (asked_slot corr (slot id tables.old)) tables.old }
{
    if let Some(subscription) = tables.subscriptions[id] {
        let mut asked = subscription;
        asked.update = Some(corr);
        tables.put(id, asked);
    }
}

/// The subscription of an id is asked to be active, or to stop.
fn ask(
    tables: &mut Tables,
    id: usize,
    active: bool,
    out: &mut Row<Unasked>,
) -> Result<(), AllocError>
    requires { id < 256 }
    ensures { OnOk result (spoken out.new tables.new ≡ asks tables.old out.old active id) }
{
    let corr = next_asked(tables.asked);
    say(
        out,
        Unasked::Update {
            corr,
            id: id as u8,
            active,
        },
    )?;
    tables.asked = corr;
    wait_for(tables, id, corr);
    Ok(())
}

/// A change of its group is asked of a consumer of the session.
fn turn(tables: &mut Tables, change: Change, out: &mut Row<Unasked>) -> Result<(), AllocError>
    ensures { OnOk result (spoken out.new tables.new ≡ turned tables.old out.old change) }
{
    match place_of(tables, change.consumer.serial) {
        None => Ok(()),
        Some(id) => ask(tables, id, change.active, out),
    }
}

/// Each change that waits for a consumer of the session is asked of it, at most one for each id.
pub(crate) fn turn_all<H: Hub>(
    tables: &mut Tables,
    hub: &mut H,
    out: &mut Row<Unasked>,
) -> Result<(), AllocError>
    ensures ok { OnOk result (Runs H.meaning (turns_row 256 tables.old out.old) hub.old (spoken out.new tables.new) hub.new) }
    ensures later { H.meaning.seen.later hub.old hub.new }
{
    'turns: for count in 0..256_usize {
        match hub.change(tables.number) {
            None => return Ok(()),
            Some(change) => turn(tables, change, out)?,
        }
    }
    Ok(())
}
