//! Each command gets its answer at each stage of a connection, over any hub.

ghost use Rattle.std.specs.Prelude.{◌≡◌, IfOk};
ghost use Rattle.hub_terms.specs.Programs.{Runs};
ghost use Rattle.session_tables.specs.Opening.{leaves};
ghost use Rattle.session_core.specs.Commands.{HasFewItems, IsTaken, data_row, data_at, admin_row, admin_at, admin_any, command_row};

use crate::consuming::{Wish, add_credit, take_update, unsubscribe};
use crate::offsets::{query_offset, stream_stats, take_offset};
use crate::publishing::{declare, delete_publisher, publish, query_sequence};
use crate::streams::{
    create, create_super, delete, delete_super, exchange_versions, metadata, partitions, route,
};
use crate::subscribing::subscribe;
use command_all::{AdminCommand, Command, DataCommand, Identity, ResponseCode};
use hub_terms::Hub;
use session_tables::{Reply, Stage, Tables, close, open, part};
use std::alloc::{AllocError, Global};

/// Answers an administrative command on an open connection.
pub fn serve_admin<H: Hub>(
    alloc: Global,
    tables: &mut Tables,
    hub: &mut H,
    command: &AdminCommand,
) -> Result<Option<Reply>, AllocError>
    ensures ok { IfOk result (λ reply. Runs H.meaning (admin_row tables.old command.now) hub.old (leaves reply tables.new) hub.new) }
    ensures later { H.meaning.seen.later hub.old hub.new }
{
    match command {
        AdminCommand::Create {
            corr,
            stream,
            properties: _,
        } => Ok(Some(create(tables, hub, *corr, stream)?)),
        AdminCommand::Delete { corr, stream } => Ok(Some(delete(tables, hub, *corr, stream)?)),
        AdminCommand::CreateSuper {
            corr,
            name,
            partitions: parts,
            keys,
            properties: _,
        } => Ok(Some(create_super(tables, hub, *corr, name, parts.as_slice(), keys.as_slice())?)),
        AdminCommand::DeleteSuper { corr, name } => {
            Ok(Some(delete_super(tables, hub, *corr, name)?))
        }
        AdminCommand::Metadata { corr, items } => Ok(Some(metadata(
            alloc,
            tables,
            hub,
            *corr,
            items.as_slice(),
        )?)),
        AdminCommand::Route {
            corr,
            routing_key,
            super_stream,
        } => Ok(Some(route(alloc, tables, hub, *corr, routing_key, super_stream)?)),
        AdminCommand::Partitions { corr, super_stream } => {
            Ok(Some(partitions(alloc, tables, hub, *corr, super_stream)?))
        }
        AdminCommand::UpdateAnswer {
            corr,
            code: _,
            content,
        } => take_update(tables, hub, *corr, content),
        AdminCommand::ExchangeVersions { corr, items } => {
            Ok(Some(exchange_versions(tables, *corr, items.as_slice())))
        }
        AdminCommand::StreamStats { corr, stream } => {
            Ok(Some(stream_stats(tables, hub, *corr, stream)?))
        }
        _ => Ok(Some(close(tables, ResponseCode::UnknownFrame))),
    }
}

/// Answers an administrative command that isn't taken at every stage.
fn take_admin<H: Hub>(
    alloc: Global,
    tables: &mut Tables,
    hub: &mut H,
    identity: &Identity,
    command: &AdminCommand,
) -> Result<Option<Reply>, AllocError>
    ensures ok { IfOk result (λ reply. Runs H.meaning (admin_at identity.now tables.old tables.old.stage command.now) hub.old (leaves reply tables.new) hub.new) }
    ensures later { H.meaning.seen.later hub.old hub.new }
{
    match tables.stage {
        Stage::Open => serve_admin(alloc, tables, hub, command),
        _ => Ok(open(tables, identity, command)),
    }
}

/// Answers an administrative command. Heartbeat and Close are taken at every stage.
pub fn take_any<H: Hub>(
    alloc: Global,
    tables: &mut Tables,
    hub: &mut H,
    identity: &Identity,
    command: &AdminCommand,
) -> Result<Option<Reply>, AllocError>
    ensures ok { IfOk result (λ reply. Runs H.meaning (admin_any identity.now tables.old command.now) hub.old (leaves reply tables.new) hub.new) }
    ensures later { H.meaning.seen.later hub.old hub.new }
{
    match command {
        AdminCommand::Heartbeat => Ok(None),
        AdminCommand::Close {
            corr,
            code: _,
            reason: _,
        } => Ok(Some(part(tables, *corr))),
        _ => take_admin(alloc, tables, hub, identity, command),
    }
}

/// Answers a data command on an open connection.
pub fn serve_data<H: Hub>(
    tables: &mut Tables,
    hub: &mut H,
    command: DataCommand,
    now: u64,
) -> Result<Option<Reply>, AllocError>
    requires { HasFewItems command }
    ensures ok { IfOk result (λ reply. Runs H.meaning (data_row tables.old now command) hub.old (leaves reply tables.new) hub.new) }
    ensures later { H.meaning.seen.later hub.old hub.new }
{
    match command {
        DataCommand::DeclarePublisher {
            corr,
            publisher,
            reference,
            stream,
        } => Ok(Some(declare(tables, hub, corr, publisher, &reference, &stream)?)),
        DataCommand::Publish { publisher, items } => publish(tables, hub, publisher, items, now),
        DataCommand::QueryPublisherSequence {
            corr,
            reference,
            stream,
        } => Ok(Some(query_sequence(tables, hub, corr, &reference, &stream)?)),
        DataCommand::DeletePublisher { corr, publisher } => {
            Ok(Some(delete_publisher(tables, corr, publisher)))
        }
        DataCommand::Subscribe {
            corr,
            sub,
            stream,
            spec,
            credit,
            properties,
        } => {
            let wish = Wish {
                corr,
                id: sub,
                stream,
                spec,
                credit,
                properties,
            };
            Ok(Some(subscribe(tables, hub, &wish)?))
        }
        DataCommand::Credit { sub, credit } => Ok(add_credit(tables, sub, credit)),
        DataCommand::StoreOffset {
            reference,
            stream,
            offset,
        } => take_offset(tables, hub, &reference, &stream, offset, now),
        DataCommand::QueryOffset {
            corr,
            reference,
            stream,
        } => Ok(Some(query_offset(tables, hub, corr, &reference, &stream)?)),
        DataCommand::Unsubscribe { corr, sub } => Ok(Some(unsubscribe(tables, hub, corr, sub))),
        _ => Ok(Some(close(tables, ResponseCode::UnknownFrame))),
    }
}

/// Answers a data command: before the connection is open there is none that is taken.
pub fn take_data<H: Hub>(
    tables: &mut Tables,
    hub: &mut H,
    command: DataCommand,
    now: u64,
) -> Result<Option<Reply>, AllocError>
    requires { HasFewItems command }
    ensures ok { IfOk result (λ reply. Runs H.meaning (data_at tables.old now tables.old.stage command) hub.old (leaves reply tables.new) hub.new) }
    ensures later { H.meaning.seen.later hub.old hub.new }
{
    match tables.stage {
        Stage::Open => serve_data(tables, hub, command, now),
        _ => Ok(Some(close(tables, ResponseCode::UnknownFrame))),
    }
}

/// Answers a command, at a moment in milliseconds since 1970. A Publish has at most 1,048,576 items, each of which has a
/// spelling.
pub fn serve<H: Hub>(
    alloc: Global,
    tables: &mut Tables,
    hub: &mut H,
    identity: &Identity,
    command: Command,
    now: u64,
) -> Result<Option<Reply>, AllocError>
    requires { IsTaken command }
    ensures ok { IfOk result (λ reply. Runs H.meaning (command_row identity.now tables.old now command) hub.old (leaves reply tables.new) hub.new) }
    ensures later { H.meaning.seen.later hub.old hub.new }
{
    match command {
        Command::Data(command) => take_data(tables, hub, command, now),
        Command::Admin(command) => take_any(alloc, tables, hub, identity, &command),
    }
}
