//! Sends what is due.

ghost use Rattle.std.specs.Prelude.{◌≡◌, IfOk};
ghost use Rattle.command_all.specs.Commands.{IsFrame};
ghost use Rattle.client_terms.specs.States.{next_corr};
ghost use Rattle.client_terms.specs.Sending.{credit, tunes, asks, due, frame_of_request, stage_behind};
ghost use Rattle.stream_client.specs.Cores.{state_of};
ghost use Rattle.stream_client.specs.Sends.{Sends};

use crate::asking::due;
use crate::client::{Client, Line};
use crate::due::Due;
use crate::frames;
use client_terms::{Request, Stage};
use frame_wire::Octets;
use std::alloc::{AllocError, Global};

/// The correlation behind another: they go on from the greatest with 1.
fn next_corr(corr: u32) -> u32
    ensures { result ≡ next_corr corr }
{
    if corr == u32::MAX {
        return 1;
    }
    corr + 1
}

/// What comes next in the opening behind a request.
fn stage_behind(request: Request, stage: Stage) -> Stage
    ensures { result ≡ stage_behind request stage }
{
    match request {
        Request::PeerProperties => Stage::Shaking,
        Request::SaslHandshake => Stage::Proving,
        Request::SaslAuthenticate => Stage::Tuning,
        Request::OpenHost => Stage::Agreeing,
        Request::ExchangeVersions => Stage::Open,
        Request::Create => stage,
        Request::DeclarePublisher => stage,
        Request::QueryPublisherSequence => stage,
        Request::Subscribe => stage,
    }
}

/// The frame of a request.
fn request_frame(
    alloc: Global,
    client: &Client,
    request: Request,
    corr: u32,
) -> Result<Octets, AllocError>
    ensures { IfOk result (λ bytes. IsFrame (frame_of_request (state_of client.now) request corr) bytes) }
{
    match request {
        Request::PeerProperties => frames::peer_properties(alloc, corr),
        Request::SaslHandshake => frames::sasl_handshake(alloc, corr),
        Request::SaslAuthenticate => frames::sasl_authenticate(alloc, corr, &client.login),
        Request::OpenHost => frames::open_host(alloc, corr),
        Request::ExchangeVersions => frames::exchange_versions(alloc, corr),
        Request::Create => frames::create(alloc, corr, &client.stream),
        Request::DeclarePublisher => {
            frames::declare_publisher(alloc, corr, &client.name, &client.stream)
        }
        Request::QueryPublisherSequence => {
            frames::query_sequence(alloc, corr, &client.name, &client.stream)
        }
        Request::Subscribe => {
            frames::subscribe(alloc, corr, &client.stream, client.spec, client.credit)
        }
    }
}

fn send_credit(alloc: Global, client: &mut Client) -> Result<Option<Octets>, AllocError>
    ensures { Sends credit (state_of client.old) result (state_of client.new) }
{
    let bytes = frames::credit(alloc)?;
    client.line.credits = client.line.credits.saturating_sub(1);
    Ok(Some(bytes))
}

fn send_tuned(
    alloc: Global,
    client: &mut Client,
    frame_max: u32,
) -> Result<Option<Octets>, AllocError>
    ensures { Sends (tunes frame_max) (state_of client.old) result (state_of client.new) }
{
    let bytes = frames::tuned(alloc, frame_max)?;
    client.line.stage = Stage::Hosting;
    Ok(Some(bytes))
}

fn send_request(
    alloc: Global,
    client: &mut Client,
    request: Request,
) -> Result<Option<Octets>, AllocError>
    ensures { Sends (asks request) (state_of client.old) result (state_of client.new) }
{
    let corr = next_corr(client.line.corr);
    let bytes = request_frame(alloc, client, request, corr)?;
    client.line = Line {
        stage: stage_behind(request, client.line.stage),
        corr,
        awaited: Some(request),
        ..client.line
    };
    Ok(Some(bytes))
}

/// The next frame, if one is due before another one comes. Want of memory leaves the client as it was.
pub fn send_next(alloc: Global, client: &mut Client) -> Result<Option<Octets>, AllocError>
    ensures { Sends (due (state_of client.old)) (state_of client.old) result (state_of client.new) }
{
    match due(client) {
        Due::Nothing => Ok(None),
        Due::Credit => send_credit(alloc, client),
        Due::Tunes { frame_max } => send_tuned(alloc, client, frame_max),
        Due::Asks { request } => send_request(alloc, client, request),
        Due::Publishes { id, body } => {
            let bytes = frames::publish(alloc, id, body)?;
            client.outbox.send();
            Ok(Some(bytes))
        }
    }
}
