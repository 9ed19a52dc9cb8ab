//! Which commands have a spelling that a frame can hold, and its length.

ghost use Rattle.std.specs.Prelude.{◌↔◌, IsTrue};
ghost use Rattle.command_fields.specs.Sizes.{Measures, MeasuresIn};
ghost use Rattle.command_fields.specs.Tables.{FitsIn};
ghost use Rattle.command_admin.specs.Commands.{admin_table, admin_layout, key_of, fields_of};

use crate::command::AdminCommand;
use crate::key::is_plain;
use crate::size::{super_stream_size, update_size};
use command_fields::{Field, GREATEST_BODY, answer_size, size_of_three, size_of_two};

/// Whether the key is one of the protocol's.
fn is_known(command: &AdminCommand) -> bool
    ensures { IsTrue result ↔ (admin_layout (key_of command.now)).Known }
{
    match command {
        AdminCommand::Plain { key, .. } => is_plain(*key),
        _ => true,
    }
}

/// The length of the fields.
fn fields_size(command: &AdminCommand) -> Option<u64>
    ensures { Measures (admin_layout (key_of command.now)).format (fields_of command.now) result }
{
    match command {
        AdminCommand::Create {
            corr,
            stream,
            properties,
        } => size_of_three(corr, stream, properties),
        AdminCommand::Delete { corr, stream } => size_of_two(corr, stream),
        AdminCommand::Metadata { corr, items } => size_of_two(corr, items),
        AdminCommand::MetadataAnswer {
            corr,
            brokers,
            streams,
        } => size_of_three(corr, brokers, streams),
        AdminCommand::MetadataUpdate { code, stream } => size_of_two(code, stream),
        AdminCommand::PeerProperties { corr, properties } => size_of_two(corr, properties),
        AdminCommand::PeerAnswer {
            corr,
            code,
            properties,
        } => answer_size(*corr, *code, properties),
        AdminCommand::SaslHandshake { corr } => corr.field_size(),
        AdminCommand::MechanismAnswer { corr, code, items } => answer_size(*corr, *code, items),
        AdminCommand::SaslAuthenticate {
            corr,
            mechanism,
            opaque,
        } => size_of_three(corr, mechanism, opaque),
        AdminCommand::SaslAnswer {
            corr,
            code,
            content,
        } => answer_size(*corr, *code, content),
        AdminCommand::Tune {
            frame_max,
            heartbeat,
        } => size_of_two(frame_max, heartbeat),
        AdminCommand::TuneAnswer {
            frame_max,
            heartbeat,
        } => size_of_two(frame_max, heartbeat),
        AdminCommand::OpenHost { corr, virtual_host } => size_of_two(corr, virtual_host),
        AdminCommand::HostAnswer {
            corr,
            code,
            properties,
        } => answer_size(*corr, *code, properties),
        AdminCommand::Close { corr, code, reason } => size_of_three(corr, code, reason),
        AdminCommand::Heartbeat => Some(0),
        AdminCommand::Route {
            corr,
            routing_key,
            super_stream,
        } => size_of_three(corr, routing_key, super_stream),
        AdminCommand::RouteAnswer { corr, code, items } => answer_size(*corr, *code, items),
        AdminCommand::Partitions { corr, super_stream } => size_of_two(corr, super_stream),
        AdminCommand::PartitionsAnswer { corr, code, items } => answer_size(*corr, *code, items),
        AdminCommand::ConsumerUpdate { corr, sub, active } => update_size(*corr, *sub, *active),
        AdminCommand::UpdateAnswer {
            corr,
            code,
            content,
        } => answer_size(*corr, *code, content),
        AdminCommand::ExchangeVersions { corr, items } => size_of_two(corr, items),
        AdminCommand::VersionsAnswer { corr, code, items } => answer_size(*corr, *code, items),
        AdminCommand::StreamStats { corr, stream } => size_of_two(corr, stream),
        AdminCommand::StatsAnswer { corr, code, items } => answer_size(*corr, *code, items),
        AdminCommand::CreateSuper {
            corr,
            name,
            partitions,
            keys,
            properties,
        } => super_stream_size(*corr, name, partitions, keys, properties),
        AdminCommand::DeleteSuper { corr, name } => size_of_two(corr, name),
        AdminCommand::Plain { corr, code, .. } => size_of_two(corr, code),
    }
}

/// The length of the command's body in bytes, at most 4,294,967,295. `None` exactly where the command has no spelling in a
/// body that a frame holds: a list of more than 2,147,483,647 items, a blob of more bytes than that, an `active` above 1, a
/// plain response of another key than its own, or a body that is too long.
pub fn admin_size(command: &AdminCommand) -> Option<u64>
    ensures { MeasuresIn admin_table command.now result }
{
    if !is_known(command) {
        return None;
    }
    let size = fields_size(command)?;
    if size > GREATEST_BODY - 4 {
        return None;
    }
    Some(4 + size)
}

/// Whether the command has a spelling in a body of at most 4,294,967,295 bytes, so that `encode_admin` can write it.
pub fn fits_admin(command: &AdminCommand) -> bool
    ensures { IsTrue result ↔ FitsIn admin_table command.now }
{
    admin_size(command).is_some()
}
