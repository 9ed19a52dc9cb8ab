//! The command Subscribe, over any hub. After want of memory the session has ended, and the hub has only gone on.

ghost use Rattle.std.specs.Prelude.{◌≡◌, Some, IfOk, OnOk, OnErr};
ghost use Rattle.hub_terms.specs.Calls.{Joining, Starting};
ghost use Rattle.hub_terms.specs.Programs.{Runs, asking};
ghost use Rattle.session_tables.specs.Opening.{says};
ghost use Rattle.session_tables.specs.Subscribing.{group_name, slot};
ghost use Rattle.session_core.specs.Consuming.{consumer, subscribe_reply, one_with, with_subscription, started, joined, join_group, subscribe_free, subscribe_at, subscribe_row, JoinsNone, SubscribeLost};

use crate::consuming::{Wish, consumer};
use command_all::ResponseCode;
use frame_wire::Text;
use hub_terms::{Found, Hub};
use session_tables::{Reply, Request, Subscription, Tables, bytes_of, group_name, is_single};
use std::alloc::AllocError;

/// The answer to a Subscribe.
fn told(wish: &Wish, code: ResponseCode) -> Reply
    ensures { result ≡ subscribe_reply wish.now code }
{
    Reply::Answer {
        request: Request::Subscribe,
        corr: wish.corr,
        code,
    }
}

/// A subscription that begins at an offset, as a consumer of a group or of its own.
fn one_with(wish: &Wish, stream: u32, epoch: u64, next: u64, single: Option<u32>) -> Subscription
    ensures { result ≡ one_with wish.now stream epoch next single }
{
    Subscription {
        stream,
        epoch,
        next,
        credit: u64::from(wish.credit),
        single,
        update: None,
    }
}

/// Keeps a subscription under the id that the peer gave it, and the name of its stream.
fn keep(tables: &mut Tables, wish: &Wish, subscription: Subscription) -> Result<(), AllocError>
    ensures { OnOk result (tables.new ≡ with_subscription wish.now subscription tables.old) }
{
    tables.streams.know(subscription.stream, &wish.stream)?;
    let id = wish.id;
    tables.put(id as usize, subscription);
    Ok(())
}

/// A subscription starts where its specification says.
fn start<H: Hub>(
    tables: &mut Tables,
    hub: &mut H,
    wish: &Wish,
    stream: u32,
    epoch: u64,
) -> Result<Reply, AllocError>
    ensures ok { IfOk result (λ reply. Runs H.meaning (asking (Starting stream wish.now.spec) (started tables.old wish.now stream epoch)) hub.old (says tables.new reply) hub.new) }
    ensures lost { OnErr result (JoinsNone H.meaning tables.old wish.now hub.old hub.new) }
    ensures later { H.meaning.seen.later hub.old hub.new }
{
    match hub.start(stream, &wish.spec) {
        Ok(next) => {
            keep(tables, wish, one_with(wish, stream, epoch, next, None))?;
            Ok(told(wish, ResponseCode::Ok))
        }
        Err(refused) => Err(refused),
    }
}

/// A subscription's consumer joins a group. Behind its joining nothing takes memory, so that no consumer stays in a group
/// without its subscription.
fn join<H: Hub>(
    tables: &mut Tables,
    hub: &mut H,
    wish: &Wish,
    stream: u32,
    epoch: u64,
    group: &Text,
) -> Result<Reply, AllocError>
    ensures ok { IfOk result (λ reply. Runs H.meaning (asking (Joining stream group.now (consumer tables.old tables.old.subscribed)) (joined tables.old wish.now stream epoch)) hub.old (says tables.new reply) hub.new) }
    ensures lost { OnErr result (JoinsNone H.meaning tables.old wish.now hub.old hub.new) }
    ensures later { H.meaning.seen.later hub.old hub.new }
{
    tables.streams.know(stream, &wish.stream)?;
    let serial = tables.subscribed;
    match hub.join(stream, group, consumer(tables, serial)) {
        Ok(()) => {
            let id = wish.id;
            tables.put(id as usize, one_with(wish, stream, epoch, 0, Some(serial)));
            Ok(told(wish, ResponseCode::Ok))
        }
        Err(refused) => Err(refused),
    }
}

/// A subscription of a group, which needs a name.
fn join_named<H: Hub>(
    tables: &mut Tables,
    hub: &mut H,
    wish: &Wish,
    stream: u32,
    epoch: u64,
) -> Result<Reply, AllocError>
    ensures ok { IfOk result (λ reply. Runs H.meaning (join_group tables.old wish.now stream epoch (group_name wish.now.properties)) hub.old (says tables.new reply) hub.new) }
    ensures lost { OnErr result (JoinsNone H.meaning tables.old wish.now hub.old hub.new) }
    ensures later { H.meaning.seen.later hub.old hub.new }
{
    match group_name(&wish.properties) {
        None => Ok(told(wish, ResponseCode::PreconditionFailed)),
        Some(group) => join(tables, hub, wish, stream, epoch, group),
    }
}

/// A subscription whose id is free.
fn subscribe_free<H: Hub>(
    tables: &mut Tables,
    hub: &mut H,
    last: bool,
    wish: &Wish,
    stream: u32,
    epoch: u64,
) -> Result<Reply, AllocError>
    ensures ok { IfOk result (λ reply. Runs H.meaning (subscribe_free tables.old last wish.now stream epoch) hub.old (says tables.new reply) hub.new) }
    ensures lost { OnErr result (JoinsNone H.meaning tables.old wish.now hub.old hub.new) }
    ensures later { H.meaning.seen.later hub.old hub.new }
{
    if last {
        return Ok(told(wish, ResponseCode::PreconditionFailed));
    }
    if is_single(&wish.properties) {
        return join_named(tables, hub, wish, stream, epoch);
    }
    start(tables, hub, wish, stream, epoch)
}

/// A subscription of a stream of which an epoch runs.
fn subscribe_at<H: Hub>(
    tables: &mut Tables,
    hub: &mut H,
    last: bool,
    wish: &Wish,
    stream: u32,
    epoch: u64,
) -> Result<Reply, AllocError>
    ensures ok { IfOk result (λ reply. Runs H.meaning (subscribe_at tables.old last wish.now stream epoch (slot wish.now.id tables.old)) hub.old (says tables.new reply) hub.new) }
    ensures lost { OnErr result (JoinsNone H.meaning tables.old wish.now hub.old hub.new) }
    ensures later { H.meaning.seen.later hub.old hub.new }
{
    let id = wish.id;
    match tables.subscriptions[id as usize] {
        Some(_) => Ok(told(wish, ResponseCode::SubscriptionIdAlreadyExists)),
        None => subscribe_free(tables, hub, last, wish, stream, epoch),
    }
}

/// Subscribe: a subscription comes, or the answer says why not. Each one counts. After want of memory no consumer has joined a
/// group.
pub fn subscribe<H: Hub>(tables: &mut Tables, hub: &mut H, wish: &Wish) -> Result<Reply, AllocError>
    ensures ok { IfOk result (λ reply. Runs H.meaning (subscribe_row tables.old wish.now) hub.old (says tables.new reply) hub.new) }
    ensures lost { OnErr result (SubscribeLost H.meaning tables.old wish.now hub.old hub.new) }
    ensures later { H.meaning.seen.later hub.old hub.new }
{
    let last = tables.count();
    match hub.find(bytes_of(&wish.stream)) {
        Found::Missing => Ok(told(wish, ResponseCode::StreamDoesNotExist)),
        Found::Closed { stream: _ } => Ok(told(wish, ResponseCode::StreamNotAvailable)),
        Found::Running { stream, epoch } => { subscribe_at(tables, hub, last, wish, stream, epoch) }
    }
}
