//! The bytes of replies. Each call adds exactly the frames of its reply, or fails for want of memory alone and adds nothing.

ghost use Rattle.std.specs.Prelude.{◌≡◌, ◌≤◌, ◌<◌, ◌++◌, ◌∷◌, [], length, OnOk, OnErr};
ghost use Rattle.command_data.specs.declared.command.DataCommand.TheVariants as of_data;
ghost use Rattle.command_admin.specs.declared.command.AdminCommand.TheVariants as of_admin;
ghost use Rattle.command_all.specs.declared.command.Command.TheVariants.{Data, Admin};
ghost use Rattle.command_all.specs.Commands.{frame_of};
ghost use Rattle.session_tables.specs.Spelling.{plain, sasl, tune, frames_of, WereAsked, IsSayable};
ghost use Rattle.session_tables.specs.declared.reply.Reply.TheVariants as say;

use crate::reply::{Reply, Request};
use crate::words::{
    broker, host_of, number_of, numbers, place, product, refusals, see_names, text, versions,
};
use command_all::{
    AdminCommand, Command, DataCommand, Identity, ResponseCode, StreamMetadata, Tagged, put_frame,
};
use frame_wire::{Octets, Row, Text};
use std::alloc::{AllocError, Global};

fn of_data(key: u16, corr: u32, code: u16) -> Command
    ensures { result ≡ Data (of_data.Plain key corr code) }
{
    Command::Data(DataCommand::Plain { key, corr, code })
}

fn of_admin(key: u16, corr: u32, code: u16) -> Command
    ensures { result ≡ Admin (of_admin.Plain key corr code) }
{
    Command::Admin(AdminCommand::Plain { key, corr, code })
}

/// The answer of a code alone.
fn plain(request: Request, corr: u32, code: ResponseCode) -> Command
    ensures { result ≡ plain request corr code }
{
    let code = code as u16;
    match request {
        Request::DeclarePublisher => of_data(0x8001, corr, code),
        Request::DeletePublisher => of_data(0x8006, corr, code),
        Request::Subscribe => of_data(0x8007, corr, code),
        Request::Unsubscribe => of_data(0x800c, corr, code),
        Request::Create => of_admin(0x800d, corr, code),
        Request::Delete => of_admin(0x800e, corr, code),
        Request::CreateSuper => of_admin(0x801d, corr, code),
        Request::DeleteSuper => of_admin(0x801e, corr, code),
        Request::Close => of_admin(0x8016, corr, code),
    }
}

#[tactic(auto, using(crate::proofs::Fits::plain_fits))]
fn put_plain(
    out: &mut Octets,
    request: Request,
    corr: u32,
    code: ResponseCode,
) -> Result<(), AllocError>
    ensures ok { OnOk result (out.new ≡ out.old ++ frame_of (plain request corr code)) }
    ensures err { OnErr result (out.new ≡ out.old) }
{
    put_frame(out, &plain(request, corr, code))
}

/// Says that the server is there.
#[tactic(auto, using(crate::proofs::Fits::heartbeat_fits))]
fn put_heartbeat(out: &mut Octets, identity: &Identity) -> Result<(), AllocError>
    ensures ok { OnOk result (out.new ≡ out.old ++ frames_of identity.now say.Heartbeat) }
    ensures err { OnErr result (out.new ≡ out.old) }
{
    put_frame(out, &Command::Admin(AdminCommand::Heartbeat))
}

/// Why the server closes a connection.
fn reason_of(code: ResponseCode) -> &'static [u8]
    ensures is { result.now ≡ Rattle.session_tables.specs.Spelling.reason_of code }
{
    match code {
        ResponseCode::UnknownFrame => b"unknown frame",
        ResponseCode::FrameTooLarge => b"frame too large",
        _ => b"",
    }
}

#[tactic(auto, using(crate::proofs::Fits::close_fits))]
fn put_close(
    alloc: Global,
    out: &mut Octets,
    identity: &Identity,
    corr: u32,
    code: ResponseCode,
) -> Result<(), AllocError>
    ensures ok { OnOk result (out.new ≡ out.old ++ frames_of identity.now (say.Close corr code)) }
    ensures err { OnErr result (out.new ≡ out.old) }
{
    let command = AdminCommand::Close {
        corr,
        code: number_of(code),
        reason: text(alloc, reason_of(code))?,
    };
    put_frame(out, &Command::Admin(command))
}

#[tactic(auto, using(crate::proofs::Fits::peer_fits))]
fn put_peer(
    alloc: Global,
    out: &mut Octets,
    identity: &Identity,
    corr: u32,
) -> Result<(), AllocError>
    ensures ok { OnOk result (out.new ≡ out.old ++ frames_of identity.now (say.Peer corr)) }
    ensures err { OnErr result (out.new ≡ out.old) }
{
    let command = AdminCommand::PeerAnswer {
        corr,
        code: 1,
        properties: Some(product(alloc)?),
    };
    put_frame(out, &Command::Admin(command))
}

#[tactic(auto, using(crate::proofs::Fits::mechanisms_fit))]
fn put_mechanisms(
    alloc: Global,
    out: &mut Octets,
    identity: &Identity,
    corr: u32,
) -> Result<(), AllocError>
    ensures ok { OnOk result (out.new ≡ out.old ++ frames_of identity.now (say.Mechanisms corr)) }
    ensures err { OnErr result (out.new ≡ out.old) }
{
    let mut items = Row::new(alloc);
    let Ok(()) = items.push(text(alloc, b"PLAIN")?) else {
        return Err(AllocError);
    };
    let command = AdminCommand::MechanismAnswer {
        corr,
        code: 1,
        items: Some(items),
    };
    put_frame(out, &Command::Admin(command))
}

#[tactic(auto, using(crate::proofs::Fits::sasl_fits))]
fn put_sasl(out: &mut Octets, corr: u32, code: ResponseCode) -> Result<(), AllocError>
    ensures ok { OnOk result (out.new ≡ out.old ++ frame_of (sasl corr code)) }
    ensures err { OnErr result (out.new ≡ out.old) }
{
    let command = AdminCommand::SaslAnswer {
        corr,
        code: code as u16,
        content: None,
    };
    put_frame(out, &Command::Admin(command))
}

/// The greatest size of a frame in bytes, and the seconds between heartbeats.
#[tactic(auto, using(crate::proofs::Fits::tune_fits))]
fn put_tune(out: &mut Octets) -> Result<(), AllocError>
    ensures ok { OnOk result (out.new ≡ out.old ++ frame_of tune) }
    ensures err { OnErr result (out.new ≡ out.old) }
{
    let command = AdminCommand::Tune {
        frame_max: 1_048_576,
        heartbeat: 60,
    };
    put_frame(out, &Command::Admin(command))
}

/// Two frames, or none.
fn put_welcome(out: &mut Octets, identity: &Identity, corr: u32) -> Result<(), AllocError>
    ensures ok { OnOk result (out.new ≡ out.old ++ frames_of identity.now (say.Welcome corr)) }
    ensures err { OnErr result (out.new ≡ out.old) }
{
    let before = out.len();
    put_sasl(out, corr, ResponseCode::Ok)?;
    match put_tune(out) {
        Ok(()) => Ok(()),
        Err(refused) => {
            out.cut(before);
            Err(refused)
        }
    }
}

#[tactic(auto, using(crate::proofs::Fits::host_fits))]
fn put_host(
    alloc: Global,
    out: &mut Octets,
    identity: &Identity,
    corr: u32,
) -> Result<(), AllocError>
    ensures ok { OnOk result (out.new ≡ out.old ++ frames_of identity.now (say.Host corr)) }
    ensures err { OnErr result (out.new ≡ out.old) }
{
    let command = AdminCommand::HostAnswer {
        corr,
        code: 1,
        properties: Some(place(alloc, identity)?),
    };
    put_frame(out, &Command::Admin(command))
}

#[tactic(auto, using(crate::proofs::Fits::no_host_fits))]
fn put_no_host(
    alloc: Global,
    out: &mut Octets,
    identity: &Identity,
    corr: u32,
) -> Result<(), AllocError>
    ensures ok { OnOk result (out.new ≡ out.old ++ frames_of identity.now (say.NoHost corr)) }
    ensures err { OnErr result (out.new ≡ out.old) }
{
    let command = AdminCommand::HostAnswer {
        corr,
        code: 12,
        properties: Some(Row::new(alloc)),
    };
    put_frame(out, &Command::Admin(command))
}

#[tactic(auto, using(crate::proofs::Fits::refusals_fit))]
fn put_refusals(
    alloc: Global,
    out: &mut Octets,
    identity: &Identity,
    id: u8,
    items: &Row<Tagged>,
    code: ResponseCode,
) -> Result<(), AllocError>
    requires { length items.now ≤ 1048576 }
    ensures ok { OnOk result (out.new ≡ out.old ++ frames_of identity.now (say.PublishError id items.now code)) }
    ensures err { OnErr result (out.new ≡ out.old) }
{
    let command = DataCommand::PublishError {
        publisher: id,
        items: refusals(alloc, items.as_slice(), code)?,
    };
    put_frame(out, &Command::Data(command))
}

#[tactic(auto, using(crate::proofs::Fits::sequence_fits))]
fn put_sequence(
    out: &mut Octets,
    identity: &Identity,
    corr: u32,
    code: ResponseCode,
    id: u64,
) -> Result<(), AllocError>
    ensures ok { OnOk result (out.new ≡ out.old ++ frames_of identity.now (say.Sequence corr code id)) }
    ensures err { OnErr result (out.new ≡ out.old) }
{
    let command = DataCommand::SequenceAnswer {
        corr,
        code: code as u16,
        content: Some(id),
    };
    put_frame(out, &Command::Data(command))
}

#[tactic(auto, using(crate::proofs::Fits::credit_fault_fits))]
fn put_credit_fault(out: &mut Octets, identity: &Identity, id: u8) -> Result<(), AllocError>
    ensures ok { OnOk result (out.new ≡ out.old ++ frames_of identity.now (say.CreditFault id)) }
    ensures err { OnErr result (out.new ≡ out.old) }
{
    let command = DataCommand::CreditFault { code: 4, sub: id };
    put_frame(out, &Command::Data(command))
}

#[tactic(auto, using(crate::proofs::Fits::offset_fits))]
fn put_offset(
    out: &mut Octets,
    identity: &Identity,
    corr: u32,
    code: ResponseCode,
    offset: u64,
) -> Result<(), AllocError>
    ensures ok { OnOk result (out.new ≡ out.old ++ frames_of identity.now (say.Offset corr code offset)) }
    ensures err { OnErr result (out.new ≡ out.old) }
{
    let command = DataCommand::OffsetAnswer {
        corr,
        code: code as u16,
        content: Some(offset),
    };
    put_frame(out, &Command::Data(command))
}

#[tactic(auto, using(crate::proofs::Fits::metadata_fits))]
fn put_metadata(
    alloc: Global,
    out: &mut Octets,
    identity: &Identity,
    corr: u32,
    streams: Row<StreamMetadata>,
) -> Result<(), AllocError>
    requires { WereAsked streams }
    ensures ok { OnOk result (out.new ≡ out.old ++ frames_of identity.now (say.Metadata corr streams)) }
    ensures err { OnErr result (out.new ≡ out.old) }
{
    let host = host_of(identity)?;
    let mut brokers = Row::new(alloc);
    let Ok(()) = brokers.push(broker(host, identity.port)) else {
        return Err(AllocError);
    };
    let command = AdminCommand::MetadataAnswer {
        corr,
        brokers,
        streams,
    };
    put_frame(out, &Command::Admin(command))
}

#[tactic(auto, using(crate::proofs::Fits::routes_fit))]
fn put_routes(
    out: &mut Octets,
    identity: &Identity,
    corr: u32,
    code: ResponseCode,
    names: Row<Text>,
) -> Result<(), AllocError>
    requires { length names ≤ 65535 }
    ensures ok { OnOk result (out.new ≡ out.old ++ frames_of identity.now (say.Routes corr code names)) }
    ensures err { OnErr result (out.new ≡ out.old) }
{
    see_names(&names);
    let command = AdminCommand::RouteAnswer {
        corr,
        code: number_of(code),
        items: Some(names),
    };
    put_frame(out, &Command::Admin(command))
}

#[tactic(auto, using(crate::proofs::Fits::partitions_fit))]
fn put_partitions(
    out: &mut Octets,
    identity: &Identity,
    corr: u32,
    code: ResponseCode,
    names: Row<Text>,
) -> Result<(), AllocError>
    requires { length names ≤ 65535 }
    ensures ok { OnOk result (out.new ≡ out.old ++ frames_of identity.now (say.Partitions corr code names)) }
    ensures err { OnErr result (out.new ≡ out.old) }
{
    see_names(&names);
    let command = AdminCommand::PartitionsAnswer {
        corr,
        code: number_of(code),
        items: Some(names),
    };
    put_frame(out, &Command::Admin(command))
}

/// The keys of the requests.
const KEYS: [u16; 30] = [
    1, 2, 3, 4, 5, 6, 7, 8, 9, 10, 11, 12, 13, 14, 15, 16, 17, 18, 19, 20, 21, 22, 23, 24, 25, 26,
    27, 28, 29, 30,
];

#[tactic(auto, using(crate::proofs::Fits::versions_fit))]
fn put_versions(
    alloc: Global,
    out: &mut Octets,
    identity: &Identity,
    corr: u32,
) -> Result<(), AllocError>
    ensures ok { OnOk result (out.new ≡ out.old ++ frames_of identity.now (say.Versions corr)) }
    ensures err { OnErr result (out.new ≡ out.old) }
{
    let command = AdminCommand::VersionsAnswer {
        corr,
        code: 1,
        items: Some(versions(alloc, &KEYS)?),
    };
    put_frame(out, &Command::Admin(command))
}

#[tactic(auto, using(crate::proofs::Fits::stats_fit))]
fn put_stats(
    alloc: Global,
    out: &mut Octets,
    identity: &Identity,
    corr: u32,
    last: Option<u64>,
) -> Result<(), AllocError>
    ensures ok { OnOk result (out.new ≡ out.old ++ frames_of identity.now (say.Stats corr last)) }
    ensures err { OnErr result (out.new ≡ out.old) }
{
    let command = AdminCommand::StatsAnswer {
        corr,
        code: 1,
        items: Some(numbers(alloc, last)?),
    };
    put_frame(out, &Command::Admin(command))
}

#[tactic(auto, using(crate::proofs::Fits::no_stats_fit))]
fn put_no_stats(
    alloc: Global,
    out: &mut Octets,
    identity: &Identity,
    corr: u32,
) -> Result<(), AllocError>
    ensures ok { OnOk result (out.new ≡ out.old ++ frames_of identity.now (say.NoStats corr)) }
    ensures err { OnErr result (out.new ≡ out.old) }
{
    let command = AdminCommand::StatsAnswer {
        corr,
        code: 2,
        items: Some(Row::new(alloc)),
    };
    put_frame(out, &Command::Admin(command))
}

/// Adds the frames of a reply.
pub fn put_reply(
    alloc: Global,
    out: &mut Octets,
    identity: &Identity,
    reply: Reply,
) -> Result<(), AllocError>
    requires { IsSayable reply }
    ensures ok { OnOk result (out.new ≡ out.old ++ frames_of identity.now reply) }
    ensures err { OnErr result (out.new ≡ out.old) }
{
    match reply {
        Reply::Heartbeat => put_heartbeat(out, identity),
        Reply::Close { corr, code } => put_close(alloc, out, identity, corr, code),
        Reply::Answer {
            request,
            corr,
            code,
        } => put_plain(out, request, corr, code),
        Reply::Peer { corr } => put_peer(alloc, out, identity, corr),
        Reply::Mechanisms { corr } => put_mechanisms(alloc, out, identity, corr),
        Reply::Sasl { corr, code } => put_sasl(out, corr, code),
        Reply::Welcome { corr } => put_welcome(out, identity, corr),
        Reply::Host { corr } => put_host(alloc, out, identity, corr),
        Reply::NoHost { corr } => put_no_host(alloc, out, identity, corr),
        Reply::PublishError { id, items, code } => {
            put_refusals(alloc, out, identity, id, &items, code)
        }
        Reply::Sequence { corr, code, id } => put_sequence(out, identity, corr, code, id),
        Reply::CreditFault { id } => put_credit_fault(out, identity, id),
        Reply::Offset { corr, code, offset } => put_offset(out, identity, corr, code, offset),
        Reply::Metadata { corr, streams } => put_metadata(alloc, out, identity, corr, streams),
        Reply::Routes { corr, code, names } => put_routes(out, identity, corr, code, names),
        Reply::Partitions { corr, code, names } => put_partitions(out, identity, corr, code, names),
        Reply::Versions { corr } => put_versions(alloc, out, identity, corr),
        Reply::Stats { corr, last } => put_stats(alloc, out, identity, corr, last),
        Reply::NoStats { corr } => put_no_stats(alloc, out, identity, corr),
    }
}
