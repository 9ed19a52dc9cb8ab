//! Epochs that ended. After want of memory the session has ended, and the hub has only gone on.

ghost use Rattle.std.specs.Prelude.{◌≡◌, ◌<◌, length, map, OnOk};
ghost use Rattle.std.specs.List.{list_any};
ghost use Rattle.hub_terms.specs.Programs.{Runs, done};
ghost use Rattle.session_tables.specs.Publishing.{publisher_over};
ghost use Rattle.session_core.specs.Living.{single_of};
ghost use Rattle.session_core.specs.Speaking.{spoken};
ghost use Rattle.session_core.specs.Ending.{running_on, slot_over, has_over, kept_slot, without_over, leaver, leaving, all_leaving, ended_row, stream_row, streams_row, stream_at};

use crate::consuming::consumer;
use crate::unasked::{Unasked, say};
use frame_wire::{Row, Text};
use hub_terms::{Found, Hub};
use session_tables::{Publisher, StreamName, Subscription, Tables, bytes_of, is_over};
use std::alloc::AllocError;

/// The epoch that runs on the stream of a number, by what its name leads to.
fn running_on(stream: u32, found: Found) -> Option<u64>
    ensures { result ≡ running_on stream found }
{
    match found {
        Found::Missing => None,
        Found::Closed { stream: _ } => None,
        Found::Running {
            stream: other,
            epoch,
        } => { if other == stream { Some(epoch) } else { None } }
    }
}

fn slot_over(stream: u32, running: Option<u64>, slot: &Option<Subscription>) -> bool
    ensures { result ≡ slot_over stream running slot.now }
{
    match slot {
        None => false,
        Some(subscription) => is_over(stream, running, subscription.stream, subscription.epoch),
    }
}

fn publishes(stream: u32, running: Option<u64>, publishers: &[Publisher]) -> bool
    ensures { result ≡ list_any (publisher_over stream running) publishers.now }
{
    publishers.iter().any(|publisher| is_over(
        stream,
        running,
        publisher.pass.stream,
        publisher.pass.epoch,
    ))
}

fn consumes(stream: u32, running: Option<u64>, slots: &[Option<Subscription>]) -> bool
    ensures { result ≡ list_any (slot_over stream running) slots.now }
{
    slots.iter().any(|slot| slot_over(stream, running, slot))
}

/// Whether a publisher or a subscription on the stream is of another epoch than the one that runs there, if one does.
fn has_over(tables: &Tables, stream: u32, running: Option<u64>) -> bool
    ensures { result ≡ has_over stream running tables.now }
{
    if publishes(stream, running, tables.publishers.as_slice()) {
        return true;
    }
    consumes(stream, running, &tables.subscriptions)
}

fn single_of(slot: &Option<Subscription>) -> Option<u32>
    ensures { result ≡ single_of slot.now }
{
    match slot {
        None => None,
        Some(subscription) => subscription.single,
    }
}

/// The consumer of a subscription that is over, if it is in a group.
fn leaver(stream: u32, running: Option<u64>, slot: &Option<Subscription>) -> Option<u32>
    ensures { result ≡ leaver stream running slot.now }
{
    if slot_over(stream, running, slot) {
        return single_of(slot);
    }
    None
}

/// The consumer of a subscription that is over leaves its group, if it is in one.
fn leave<H: Hub>(
    tables: &Tables,
    stream: u32,
    running: Option<u64>,
    slot: &Option<Subscription>,
    hub: &mut H,
)
    ensures left { Runs H.meaning (leaving tables.now (leaver stream running slot.now) (done tt)) hub.old tt hub.new }
    ensures later { H.meaning.seen.later hub.old hub.new }
{
    match leaver(stream, running, slot) {
        None => {}
        Some(serial) => hub.leave(consumer(tables, serial)),
    }
}

/// The consumers of the subscriptions that are over leave their groups.
fn leave_all<H: Hub>(
    tables: &Tables,
    stream: u32,
    running: Option<u64>,
    slots: &[Option<Subscription>],
    hub: &mut H,
)
    ensures left { Runs H.meaning (all_leaving tables.now stream running slots.now) hub.old tt hub.new }
    ensures later { H.meaning.seen.later hub.old hub.new }
{
    'slots: for slot in slots {
        leave(tables, stream, running, slot, hub);
    }
}

/// A subscription, or none where it is over.
fn kept_slot(stream: u32, running: Option<u64>, slot: Option<Subscription>) -> Option<Subscription>
    ensures { result ≡ kept_slot stream running slot }
{
    if slot_over(stream, running, &slot) {
        return None;
    }
    slot
}

/// Lets the subscriptions that are over go.
fn clear(stream: u32, running: Option<u64>, slots: &mut [Option<Subscription>])
    ensures { slots.new ≡ map (kept_slot stream running) slots.old }
{
    for slot in slots.iter_mut() {
        *slot = kept_slot(stream, running, *slot);
    }
}

/// Lets the publishers and subscriptions that are over go.
fn let_go(tables: &mut Tables, stream: u32, running: Option<u64>)
    ensures { tables.new ≡ without_over stream running tables.old }
{
    tables.publishers.end(stream, running);
    clear(stream, running, &mut tables.subscriptions);
}

/// What is over on a stream is gone, and that is told.
fn end_stream<H: Hub>(
    tables: &mut Tables,
    hub: &mut H,
    stream: u32,
    running: Option<u64>,
    name: Text,
    out: &mut Row<Unasked>,
) -> Result<(), AllocError>
    ensures ok { OnOk result (Runs H.meaning (ended_row tables.old out.old stream running name) hub.old (spoken out.new tables.new) hub.new) }
    ensures streams { OnOk result (tables.new.streams ≡ tables.old.streams) }
    ensures later { H.meaning.seen.later hub.old hub.new }
{
    leave_all(tables, stream, running, &tables.subscriptions, hub);
    say(out, Unasked::MetadataUpdate { stream: name })?;
    let_go(tables, stream, running);
    Ok(())
}

/// The stream at a place of the table.
fn stream_at(tables: &Tables, place: usize) -> &StreamName
    requires { place < length tables.now.streams }
    ensures { result.now ≡ stream_at place tables.now }
{
    &tables.streams.as_slice()[place]
}

/// Whether an epoch ended on the stream at a place of the table is asked where the stream is used.
fn end_at<H: Hub>(
    tables: &mut Tables,
    hub: &mut H,
    place: usize,
    out: &mut Row<Unasked>,
) -> Result<(), AllocError>
    requires { place < length tables.old.streams }
    ensures ok { OnOk result (Runs H.meaning (stream_row tables.old out.old (stream_at place tables.old)) hub.old (spoken out.new tables.new) hub.new) }
    ensures streams { OnOk result (tables.new.streams ≡ tables.old.streams) }
    ensures later { H.meaning.seen.later hub.old hub.new }
{
    let known = stream_at(tables, place);
    let stream = known.stream;
    if !has_over(tables, stream, None) {
        return Ok(());
    }
    let running = running_on(stream, hub.find(bytes_of(&known.name)));
    if !has_over(tables, stream, running) {
        return Ok(());
    }
    let name = known.name.clone()?;
    end_stream(tables, hub, stream, running, name, out)
}

/// Of each stream by its number: where an epoch ended, its publishers and subscriptions are gone, and that is told.
pub(crate) fn end_streams<H: Hub>(
    tables: &mut Tables,
    hub: &mut H,
    out: &mut Row<Unasked>,
) -> Result<(), AllocError>
    ensures ok { OnOk result (Runs H.meaning (streams_row tables.old.streams tables.old out.old) hub.old (spoken out.new tables.new) hub.new) }
    ensures later { H.meaning.seen.later hub.old hub.new }
{
    let count = tables.streams.as_slice().len();
    'streams: for place in 0..count {
        end_at(tables, hub, place, out)?;
    }
    Ok(())
}
