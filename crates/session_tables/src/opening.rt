//! The opening of a connection.

ghost use Rattle.std.specs.Prelude.{◌≡◌, ◌<◌, length, position, IfSome};
ghost use Rattle.std.specs.Option.{option_map};
ghost use Rattle.session_tables.specs.Opening.{is_zero, cut_zero, is_user, first_part, refusal, says, leaves, next_asked, closed, parted, authenticated, hosted, fresh, greeted, shaken, tuning, waiting, opened};

use crate::reply::{Reply, Request};
use crate::tables::{SessionEnd, Stage, Tables};
use crate::text::{is_same, is_text};
use command_all::{AdminCommand, Identity, ResponseCode};
use frame_wire::{Octets, Text};

fn zero_at(bytes: &[u8]) -> Option<usize>
    ensures is { result ≡ position is_zero bytes.now }
    ensures inside { IfSome result (λ place. place < length bytes.now) }
{
    bytes.iter().position(|byte| *byte == 0)
}

/// What stands before the first zero byte, and behind it.
fn cut_zero(bytes: &[u8]) -> Option<(&[u8], &[u8])>
    ensures { option_map (λ parts. (parts.0.now, parts.1.now)) result ≡ cut_zero bytes.now }
{
    let place = zero_at(bytes)?;
    let (before, zero) = bytes.split_at(place);
    let (_, behind) = zero.split_at(1);
    Some((before, behind))
}

/// Whether a peer that says this is the user.
fn is_user(identity: &Identity, first: &[u8], user: &[u8], password: &[u8]) -> bool
    ensures { result ≡ is_user identity.now first.now user.now password.now }
{
    (first.is_empty() || is_same(first, identity.user.as_slice()))
        && is_same(user, identity.user.as_slice())
        && is_same(password, identity.password.as_slice())
}

/// Why a peer whose data of the mechanism PLAIN these are isn't let in.
fn parts_refusal(identity: &Identity, opaque: &[u8]) -> Option<ResponseCode>
    ensures { result ≡ first_part identity.now (cut_zero opaque.now) }
{
    let Some((first, rest)) = cut_zero(opaque) else {
        return Some(ResponseCode::SaslError);
    };
    let Some((user, password)) = cut_zero(rest) else {
        return Some(ResponseCode::SaslError);
    };
    match zero_at(password) {
        Some(_) => Some(ResponseCode::SaslError),
        None => {
            if is_user(identity, first, user, password) {
                None
            } else {
                Some(ResponseCode::AuthenticationFailure)
            }
        }
    }
}

fn refusal(identity: &Identity, opaque: &Option<Octets>) -> Option<ResponseCode>
    ensures { result ≡ refusal identity.now opaque.now }
{
    match opaque {
        None => Some(ResponseCode::SaslError),
        Some(bytes) => parts_refusal(identity, bytes.as_slice()),
    }
}

/// The correlation behind this one: they go from 1 on, and behind the greatest with 1 again.
pub(crate) fn next_asked(asked: u32) -> u32
    ensures { result ≡ next_asked asked }
{
    if asked == 4_294_967_295 { 1 } else { asked + 1 }
}

/// The server closes the connection with a code.
pub fn close(tables: &mut Tables, code: ResponseCode) -> Reply
    ensures { says tables.new result ≡ closed code tables.old }
{
    tables.asked = next_asked(tables.asked);
    tables.ended = Some(SessionEnd::ClosedByUs(code as u16));
    Reply::Close {
        corr: tables.asked,
        code,
    }
}

/// Answers a Close of the peer.
pub fn part(tables: &mut Tables, corr: u32) -> Reply
    ensures { says tables.new result ≡ parted tables.old corr }
{
    tables.ended = Some(SessionEnd::ClosedByPeer);
    Reply::Answer {
        request: Request::Close,
        corr,
        code: ResponseCode::Ok,
    }
}

/// SaslAuthenticate: the peer is let in, or the answer says why not.
fn authenticate(
    tables: &mut Tables,
    identity: &Identity,
    corr: u32,
    mechanism: &Text,
    opaque: &Option<Octets>,
) -> Reply
    ensures { says tables.new result ≡ authenticated identity.now tables.old corr mechanism.now opaque.now }
{
    if !is_text(mechanism, b"PLAIN") {
        return Reply::Sasl {
            corr,
            code: ResponseCode::SaslMechanismNotSupported,
        };
    }
    match refusal(identity, opaque) {
        None => {
            tables.stage = Stage::Tuning;
            Reply::Welcome { corr }
        }
        Some(code) => {
            tables.ended = Some(SessionEnd::ClosedByUs(code as u16));
            Reply::Sasl { corr, code }
        }
    }
}

/// OpenHost: there is one host.
fn open_host(tables: &mut Tables, corr: u32, host: &Text) -> Reply
    ensures { says tables.new result ≡ hosted tables.old corr host.now }
{
    if is_text(host, b"/") {
        tables.stage = Stage::Open;
        Reply::Host { corr }
    } else {
        Reply::NoHost { corr }
    }
}

fn fresh(tables: &mut Tables, command: &AdminCommand) -> Reply
    ensures { says tables.new result ≡ fresh tables.old command.now }
{
    match command {
        AdminCommand::PeerProperties {
            corr,
            properties: _,
        } => {
            tables.stage = Stage::Greeted;
            Reply::Peer { corr: *corr }
        }
        _ => close(tables, ResponseCode::UnknownFrame),
    }
}

fn greeted(tables: &mut Tables, command: &AdminCommand) -> Reply
    ensures { says tables.new result ≡ greeted tables.old command.now }
{
    match command {
        AdminCommand::SaslHandshake { corr } => {
            tables.stage = Stage::Shaken;
            Reply::Mechanisms { corr: *corr }
        }
        _ => close(tables, ResponseCode::UnknownFrame),
    }
}

fn shaken(tables: &mut Tables, identity: &Identity, command: &AdminCommand) -> Reply
    ensures { says tables.new result ≡ shaken identity.now tables.old command.now }
{
    match command {
        AdminCommand::SaslAuthenticate {
            corr,
            mechanism,
            opaque,
        } => authenticate(tables, identity, *corr, mechanism, opaque),
        _ => close(tables, ResponseCode::UnknownFrame),
    }
}

/// Takes the peer's Tune, with either key. The server's own limits stand; the interval of heartbeats is the peer's.
fn tuning(tables: &mut Tables, command: &AdminCommand) -> Option<Reply>
    ensures { leaves result tables.new ≡ tuning tables.old command.now }
{
    match command {
        AdminCommand::Tune {
            frame_max: _,
            heartbeat,
        } => {
            tables.stage = Stage::Tuned;
            tables.moments.heartbeat = *heartbeat;
            None
        }
        AdminCommand::TuneAnswer {
            frame_max: _,
            heartbeat,
        } => {
            tables.stage = Stage::Tuned;
            tables.moments.heartbeat = *heartbeat;
            None
        }
        _ => Some(close(tables, ResponseCode::UnknownFrame)),
    }
}

fn waiting(tables: &mut Tables, command: &AdminCommand) -> Reply
    ensures { says tables.new result ≡ waiting tables.old command.now }
{
    match command {
        AdminCommand::OpenHost { corr, virtual_host } => open_host(tables, *corr, virtual_host),
        _ => close(tables, ResponseCode::UnknownFrame),
    }
}

/// A command before the connection is open: it is the one that its stage takes, or the server closes the connection.
pub fn open(tables: &mut Tables, identity: &Identity, command: &AdminCommand) -> Option<Reply>
    ensures { leaves result tables.new ≡ opened identity.now tables.old tables.old.stage command.now }
{
    match tables.stage {
        Stage::Fresh => Some(fresh(tables, command)),
        Stage::Greeted => Some(greeted(tables, command)),
        Stage::Shaken => Some(shaken(tables, identity, command)),
        Stage::Tuning => tuning(tables, command),
        Stage::Tuned => Some(waiting(tables, command)),
        Stage::Open => Some(close(tables, ResponseCode::UnknownFrame)),
    }
}
