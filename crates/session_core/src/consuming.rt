//! The commands of subscriptions and groups. Each is its row, over any hub. After want of memory the session has ended, and
//! the hub has only gone on.

ghost use Rattle.std.specs.Prelude.{◌≡◌, ◌<◌, None, IfOk, OnOk};
ghost use Rattle.hub_terms.specs.Programs.{Runs};
ghost use Rattle.session_tables.specs.Opening.{leaves, says, silent};
ghost use Rattle.session_tables.specs.Subscribing.{slot, put_slot};
ghost use Rattle.session_core.specs.Consuming.{consumer, credited, unsubscribe_row, update_row, update_at, awaited, spec_of};

use command_all::{OffsetSpec, Property, ResponseCode};
use frame_wire::{Row, Text};
use hub_terms::{ConsumerId, Hub};
use session_tables::{Reply, Request, Subscription, Tables};
use std::alloc::AllocError;

/// What a Subscribe asks for.
#[derive(Debug, Drop)]
pub struct Wish {
    pub corr: u32,
    /// The id that the peer gives the subscription.
    pub id: u8,
    /// The name of the stream.
    pub stream: Text,
    /// Where it starts.
    pub spec: OffsetSpec,
    /// How many chunks may be sent.
    pub credit: u16,
    pub properties: Option<Row<Property>>,
}

/// A consumer of this session.
pub(crate) fn consumer(tables: &Tables, serial: u32) -> ConsumerId
    ensures { result ≡ consumer tables.now serial }
{
    ConsumerId {
        session: tables.number,
        serial,
    }
}

/// Credit: the subscription may be sent more chunks.
pub fn add_credit(tables: &mut Tables, id: u8, more: u16) -> Option<Reply>
    ensures { leaves result tables.new ≡ credited tables.old id more }
{
    match tables.subscriptions[id as usize] {
        None => Some(Reply::CreditFault { id }),
        Some(subscription) => {
            tables.put(id as usize, subscription.with_credit(more));
            None
        }
    }
}

/// Lets the subscription of an id go.
fn free(tables: &mut Tables, id: u8)
    ensures { tables.new ≡ put_slot id None tables.old }
{
    tables.subscriptions[id as usize] = None;
}

/// Unsubscribe: the subscription goes, and its consumer leaves its group.
pub fn unsubscribe<H: Hub>(tables: &mut Tables, hub: &mut H, corr: u32, id: u8) -> Reply
    ensures ok { Runs H.meaning (unsubscribe_row tables.old corr id) hub.old (says tables.new result) hub.new }
    ensures later { H.meaning.seen.later hub.old hub.new }
{
    match tables.subscriptions[id as usize] {
        None => Reply::Answer {
            request: Request::Unsubscribe,
            corr,
            code: ResponseCode::SubscriptionIdDoesNotExist,
        },
        Some(subscription) => match subscription.single {
            None => {
                free(tables, id);
                Reply::Answer {
                    request: Request::Unsubscribe,
                    corr,
                    code: ResponseCode::Ok,
                }
            }
            Some(serial) => {
                hub.leave(consumer(tables, serial));
                free(tables, id);
                Reply::Answer {
                    request: Request::Unsubscribe,
                    corr,
                    code: ResponseCode::Ok,
                }
            }
        },
    }
}

/// Where an answer to an update lets its subscription start.
fn spec_of(place: &Option<OffsetSpec>) -> OffsetSpec
    ensures { result ≡ spec_of place.now }
{
    match place {
        None => OffsetSpec::Unset,
        Some(spec) => *spec,
    }
}

/// The group was told of the answer; whether it was awaited.
fn awaited<H: Hub>(
    tables: &mut Tables,
    hub: &mut H,
    id: usize,
    subscription: Subscription,
    place: &Option<OffsetSpec>,
    serial: u32,
    due: bool,
) -> Result<(), AllocError>
    requires { id < 256 }
    ensures ok { OnOk result (Runs H.meaning (awaited tables.old id subscription place.now serial due) hub.old (silent tables.new) hub.new) }
    ensures later { H.meaning.seen.later hub.old hub.new }
{
    let mut answered = subscription;
    answered.update = None;
    if !due {
        tables.put(id, answered);
        return Ok(());
    }
    if !hub.active(consumer(tables, serial)) {
        tables.put(id, answered);
        return Ok(());
    }
    let spec = spec_of(place);
    let next = hub.start(subscription.stream, &spec)?;
    answered.next = next;
    tables.put(id, answered);
    Ok(())
}

/// An answer to the update of the subscription of an id.
fn update_at<H: Hub>(
    tables: &mut Tables,
    hub: &mut H,
    id: usize,
    place: &Option<OffsetSpec>,
) -> Result<(), AllocError>
    requires { id < 256 }
    ensures ok { OnOk result (Runs H.meaning (update_at tables.old id place.now (slot id tables.old)) hub.old (silent tables.new) hub.new) }
    ensures later { H.meaning.seen.later hub.old hub.new }
{
    match tables.subscriptions[id] {
        None => Ok(()),
        Some(subscription) => match subscription.single {
            None => {
                let mut answered = subscription;
                answered.update = None;
                tables.put(id, answered);
                Ok(())
            }
            Some(serial) => {
                let due = hub.answered(consumer(tables, serial));
                awaited(tables, hub, id, subscription, place, serial, due)
            }
        },
    }
}

/// UpdateAnswer: of an update that isn't answered it is the answer of that consumer, which then starts where it says if it
/// is active now. Another one does nothing.
pub fn answer_update<H: Hub>(
    tables: &mut Tables,
    hub: &mut H,
    corr: u32,
    place: &Option<OffsetSpec>,
) -> Result<(), AllocError>
    ensures ok { OnOk result (Runs H.meaning (update_row tables.old corr place.now) hub.old (silent tables.new) hub.new) }
    ensures later { H.meaning.seen.later hub.old hub.new }
{
    match tables.asked_place(corr) {
        None => Ok(()),
        Some(id) => update_at(tables, hub, id, place),
    }
}

/// UpdateAnswer, which has no reply.
pub fn take_update<H: Hub>(
    tables: &mut Tables,
    hub: &mut H,
    corr: u32,
    place: &Option<OffsetSpec>,
) -> Result<Option<Reply>, AllocError>
    ensures ok { IfOk result (λ reply. Runs H.meaning (update_row tables.old corr place.now) hub.old (leaves reply tables.new) hub.new) }
    ensures later { H.meaning.seen.later hub.old hub.new }
{
    answer_update(tables, hub, corr, place)?;
    Ok(None)
}
