//! Which frame is due.

ghost use Rattle.std.specs.Prelude.{◌≡◌};
ghost use Rattle.client_terms.specs.Sending.{wished, open_request, request_at, publish_due, request_due, due};
ghost use Rattle.stream_client.specs.Cores.{state_of};
ghost use Rattle.stream_client.specs.Dues.{next_of, IfPublishes};
ghost use Rattle.stream_client.specs.Outboxes.{IsNext};

use crate::client::Client;
use crate::due::Due;
use crate::queue::Queue;
use client_terms::{Request, Stage, Wish};

/// The request of the first wish.
fn wished(wishes: &Queue<Wish>) -> Option<Request>
    ensures { result ≡ wished wishes.now }
{
    match wishes.get(0) {
        None => None,
        Some(Wish::Query) => Some(Request::QueryPublisherSequence),
        Some(Wish::Subscribe) => Some(Request::Subscribe),
    }
}

/// The next request of an open connection: streams to be made first, then the declaration where a message isn't
/// confirmed, then the other wishes.
fn open_request(client: &Client) -> Option<Request>
    ensures { result ≡ open_request (state_of client.now) }
{
    if client.creates > 0 {
        return Some(Request::Create);
    }
    if !client.line.declared && !client.outbox.is_empty() {
        return Some(Request::DeclarePublisher);
    }
    wished(&client.wishes)
}

/// The next request by the stage.
fn request_at(client: &Client) -> Option<Request>
    ensures { result ≡ request_at client.now.line.stage (state_of client.now) }
{
    match client.line.stage {
        Stage::Away => None,
        Stage::Greeting => Some(Request::PeerProperties),
        Stage::Shaking => Some(Request::SaslHandshake),
        Stage::Proving => Some(Request::SaslAuthenticate),
        Stage::Tuning => None,
        Stage::Tuned { frame_max: _ } => None,
        Stage::Hosting => Some(Request::OpenHost),
        Stage::Agreeing => Some(Request::ExchangeVersions),
        Stage::Open => open_request(client),
    }
}

/// The next message of a declared publisher.
fn publish_due(client: &Client) -> Due<'_>
    ensures is { next_of result ≡ publish_due (state_of client.now) }
    ensures given { IfPublishes (next_of result) (IsNext client.now.outbox) }
{
    if !client.line.declared {
        return Due::Nothing;
    }
    client.outbox.due()
}

/// The next request, if none waits for its answer, or else the next message.
fn request_due(client: &Client) -> Due<'_>
    ensures is { next_of result ≡ request_due (state_of client.now).awaited (state_of client.now) }
    ensures given { IfPublishes (next_of result) (IsNext client.now.outbox) }
{
    if client.line.awaited.is_some() {
        return publish_due(client);
    }
    match request_at(client) {
        Some(request) => Due::Asks { request },
        None => publish_due(client),
    }
}

/// What comes next: a credit before all others.
pub fn due(client: &Client) -> Due<'_>
    ensures is { next_of result ≡ due (state_of client.now) }
    ensures given { IfPublishes (next_of result) (IsNext client.now.outbox) }
{
    if client.line.credits > 0 {
        return Due::Credit;
    }
    match client.line.stage {
        Stage::Tuned { frame_max } => Due::Tunes { frame_max },
        _ => request_due(client),
    }
}
