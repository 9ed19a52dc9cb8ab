//! Hears the frames of a server.

ghost use Rattle.std.specs.Prelude.{◌≡◌, ◌<◌};
ghost use Rattle.client_terms.specs.Hearing.{answer, confirm, error, delivery, uncredited, update, tune, means, meaning, confirms, refused, granted, judged, is_answer, key_of_request};
ghost use Rattle.client_terms.specs.declared.terms.Request.TheVariants.{QueryPublisherSequence};
ghost use Rattle.stream_client.specs.Cores.{state_of, awaited_by};
ghost use Rattle.stream_client.specs.Hearings.{Obeys, reply_of};

use crate::client::Client;
use crate::heard::{Answer, Heard, frame_of};
use crate::receiving::receive;
use chunk_format::Header;
use client_terms::{ClientFault, Request, Stage};
use command_all::{Command, Refusal};
use frame_wire::Text;
use std::alloc::Global;

/// The key of a request; that of its answer has the highest bit set too.
fn key_of_request(request: Request) -> u16
    ensures is { result ≡ key_of_request request }
    ensures small { result < 32 }
{
    match request {
        Request::PeerProperties => 0x0011,
        Request::SaslHandshake => 0x0012,
        Request::SaslAuthenticate => 0x0013,
        Request::OpenHost => 0x0015,
        Request::ExchangeVersions => 0x001b,
        Request::Create => 0x000d,
        Request::DeclarePublisher => 0x0001,
        Request::QueryPublisherSequence => 0x0005,
        Request::Subscribe => 0x0007,
    }
}

/// Whether this answers a request, by key and correlation.
fn is_answer(said: Answer, request: Request, corr: u32) -> bool
    ensures { result ≡ is_answer (reply_of said) (awaited_by corr request) }
{
    said.key == 0x8000 + key_of_request(request) && said.corr == corr
}

/// A query went well: its answer has a number.
fn grant_query(client: &mut Client, said: Answer) -> Result<(), ClientFault>
    ensures { Obeys (state_of client.old) (granted (state_of client.old) (reply_of said) QueryPublisherSequence) result (state_of client.new) }
{
    match said.content {
        None => Err(ClientFault::Unexpected { key: said.key }),
        Some(id) => {
            client.line.awaited = None;
            client.answer = Some(id);
            let _ = client.wishes.pop();
            Ok(())
        }
    }
}

/// A request went well.
fn grant(client: &mut Client, said: Answer, request: Request) -> Result<(), ClientFault>
    ensures { Obeys (state_of client.old) (granted (state_of client.old) (reply_of said) request) result (state_of client.new) }
{
    match request {
        Request::Create => {
            client.line.awaited = None;
            client.creates = client.creates.saturating_sub(1);
            Ok(())
        }
        Request::DeclarePublisher => {
            client.line.awaited = None;
            client.line.declared = true;
            Ok(())
        }
        Request::Subscribe => {
            client.line.awaited = None;
            client.line.subscribed = true;
            let _ = client.wishes.pop();
            Ok(())
        }
        Request::QueryPublisherSequence => grant_query(client, said),
        Request::PeerProperties
        | Request::SaslHandshake
        | Request::SaslAuthenticate
        | Request::OpenHost
        | Request::ExchangeVersions => {
            client.line.awaited = None;
            Ok(())
        }
    }
}

/// A request was answered.
fn judge(client: &mut Client, said: Answer, request: Request) -> Result<(), ClientFault>
    ensures { Obeys (state_of client.old) (judged (state_of client.old) (reply_of said) request) result (state_of client.new) }
{
    if said.code != 1 {
        return Err(ClientFault::Refused {
            key: key_of_request(request),
            code: said.code,
        });
    }
    grant(client, said, request)
}

fn hear_answer(client: &mut Client, said: Answer) -> Result<(), ClientFault>
    ensures { Obeys (state_of client.old) (means (state_of client.old) (answer (reply_of said))) result (state_of client.new) }
{
    match client.line.awaited {
        None => Err(ClientFault::Unexpected { key: said.key }),
        Some(request) => {
            if !is_answer(said, request, client.line.corr) {
                return Err(ClientFault::Unexpected { key: said.key });
            }
            judge(client, said, request)
        }
    }
}

/// Ids are stored.
fn learn(client: &mut Client, ids: &[u64]) -> Result<(), ClientFault>
    ensures { Obeys (state_of client.old) (confirms ids.now) result (state_of client.new) }
{
    match client.outbox.learn(ids) {
        Ok(()) => Ok(()),
        Err(_) => Err(ClientFault::Memory),
    }
}

fn hear_confirm(client: &mut Client, publisher: u8, ids: &[u64]) -> Result<(), ClientFault>
    ensures { Obeys (state_of client.old) (means (state_of client.old) (confirm publisher ids.now)) result (state_of client.new) }
{
    if publisher != 0 || !client.line.declared {
        return Err(ClientFault::Unexpected { key: 0x0003 });
    }
    learn(client, ids)
}

/// Ids of the client's publisher are refused, or none are.
fn refuse(client: &mut Client, refusals: &[Refusal]) -> Result<(), ClientFault>
    ensures { Obeys (state_of client.old) (refused (state_of client.old) refusals.now) result (state_of client.new) }
{
    match refusals.first() {
        Some(refusal) => Err(ClientFault::Refused {
            key: 0x0002,
            code: refusal.code,
        }),
        None => {
            if client.line.declared {
                return Ok(());
            }
            Err(ClientFault::Unexpected { key: 0x0004 })
        }
    }
}

fn hear_error(client: &mut Client, publisher: u8, refusals: &[Refusal]) -> Result<(), ClientFault>
    ensures { Obeys (state_of client.old) (means (state_of client.old) (error publisher refusals.now)) result (state_of client.new) }
{
    if publisher != 0 {
        return Err(ClientFault::Unexpected { key: 0x0004 });
    }
    refuse(client, refusals)
}

fn hear_delivery(
    alloc: Global,
    client: &mut Client,
    sub: u8,
    committed: Option<u64>,
    header: &Header,
    payload: &[u8],
) -> Result<(), ClientFault>
    ensures { Obeys (state_of client.old) (means (state_of client.old) (delivery sub committed header.now payload.now)) result (state_of client.new) }
{
    if sub != 0 || !client.line.subscribed {
        return Err(ClientFault::Unexpected { key: 0x0008 });
    }
    receive(alloc, client, committed, header, payload)
}

fn hear_uncredited(client: &mut Client, code: u16, sub: u8) -> Result<(), ClientFault>
    ensures { Obeys (state_of client.old) (means (state_of client.old) (uncredited code sub)) result (state_of client.new) }
{
    if sub != 0 {
        return Err(ClientFault::Unexpected { key: 0x8009 });
    }
    Err(ClientFault::Refused { key: 0x0009, code })
}

fn hear_update(client: &mut Client, code: u16, stream: &Text) -> Result<(), ClientFault>
    ensures { Obeys (state_of client.old) (means (state_of client.old) (update code stream.now)) result (state_of client.new) }
{
    if *stream == client.stream {
        return Err(ClientFault::StreamLost { code });
    }
    Err(ClientFault::Unexpected { key: 0x0010 })
}

fn hear_tune(client: &mut Client, frame_max: u32) -> Result<(), ClientFault>
    ensures { Obeys (state_of client.old) (means (state_of client.old) (tune frame_max)) result (state_of client.new) }
{
    if client.line.stage != Stage::Tuning || client.line.awaited.is_some() {
        return Err(ClientFault::Unexpected { key: 0x0014 });
    }
    client.line.stage = Stage::Tuned { frame_max };
    Ok(())
}

/// Does what a frame of the server means. After a fault the client is as it was, but that for want of memory the first ids
/// of a confirm may have been heard.
fn hear(alloc: Global, client: &mut Client, command: &Command) -> Result<(), ClientFault>
    ensures { Obeys (state_of client.old) (meaning (state_of client.old) command.now) result (state_of client.new) }
{
    match frame_of(command) {
        Heard::Answer(said) => hear_answer(client, said),
        Heard::Confirm { publisher, ids } => hear_confirm(client, publisher, ids),
        Heard::Error {
            publisher,
            refusals,
        } => hear_error(client, publisher, refusals),
        Heard::Delivery {
            sub,
            committed,
            header,
            payload,
        } => hear_delivery(alloc, client, sub, committed, header, payload),
        Heard::Uncredited { code, sub } => hear_uncredited(client, code, sub),
        Heard::Update { code, stream } => hear_update(client, code, stream),
        Heard::Tune { frame_max } => hear_tune(client, frame_max),
        Heard::Close { code } => Err(ClientFault::Closed { code }),
        Heard::Heartbeat => Ok(()),
        Heard::Other { key } => Err(ClientFault::Unexpected { key }),
    }
}

/// The same of a command that is then let go.
pub fn hear_owned(alloc: Global, client: &mut Client, command: Command) -> Result<(), ClientFault>
    ensures { Obeys (state_of client.old) (meaning (state_of client.old) command) result (state_of client.new) }
{
    hear(alloc, client, &command)
}
