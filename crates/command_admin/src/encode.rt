//! Writes administrative commands.

ghost use Rattle.std.specs.Prelude.{◌≡◌, ◌++◌, OnOk, OnErr, IfOk};
ghost use Rattle.command_fields.specs.Adding.{Adds};
ghost use Rattle.command_fields.specs.Tables.{IsCommand, FitsIn, body_of};
ghost use Rattle.command_admin.specs.Commands.{admin_table, admin_layout, key_of, fields_of, AdminSpells};

use crate::command::AdminCommand;
use crate::put::put_super_stream;
use command_fields::{put_answer, put_three, put_two};
use frame_wire::{Octets, put_u16, put_u32};
use std::alloc::{AllocError, Global};

impl AdminCommand {
    /// The key that begins the command's body.
    pub fn key(&self) -> u16
        ensures { result ≡ (admin_layout (key_of self.now)).code }
    {
        match self {
            AdminCommand::Create { .. } => 0x000d,
            AdminCommand::Delete { .. } => 0x000e,
            AdminCommand::Metadata { .. } => 0x000f,
            AdminCommand::MetadataAnswer { .. } => 0x800f,
            AdminCommand::MetadataUpdate { .. } => 0x0010,
            AdminCommand::PeerProperties { .. } => 0x0011,
            AdminCommand::PeerAnswer { .. } => 0x8011,
            AdminCommand::SaslHandshake { .. } => 0x0012,
            AdminCommand::MechanismAnswer { .. } => 0x8012,
            AdminCommand::SaslAuthenticate { .. } => 0x0013,
            AdminCommand::SaslAnswer { .. } => 0x8013,
            AdminCommand::Tune { .. } => 0x0014,
            AdminCommand::TuneAnswer { .. } => 0x8014,
            AdminCommand::OpenHost { .. } => 0x0015,
            AdminCommand::HostAnswer { .. } => 0x8015,
            AdminCommand::Close { .. } => 0x0016,
            AdminCommand::Heartbeat => 0x0017,
            AdminCommand::Route { .. } => 0x0018,
            AdminCommand::RouteAnswer { .. } => 0x8018,
            AdminCommand::Partitions { .. } => 0x0019,
            AdminCommand::PartitionsAnswer { .. } => 0x8019,
            AdminCommand::ConsumerUpdate { .. } => 0x001a,
            AdminCommand::UpdateAnswer { .. } => 0x801a,
            AdminCommand::ExchangeVersions { .. } => 0x001b,
            AdminCommand::VersionsAnswer { .. } => 0x801b,
            AdminCommand::StreamStats { .. } => 0x001c,
            AdminCommand::StatsAnswer { .. } => 0x801c,
            AdminCommand::CreateSuper { .. } => 0x001d,
            AdminCommand::DeleteSuper { .. } => 0x001e,
            AdminCommand::Plain { key, .. } => *key,
        }
    }
}

/// The fields of a command behind key and version.
fn put_fields(out: &mut Octets, command: &AdminCommand) -> Result<(), AllocError>
    requires { IsCommand admin_table command.now }
    ensures { Adds result out.old out.new ((admin_layout (key_of command.now)).format.spell (fields_of command.now)) }
{
    match command {
        AdminCommand::Create {
            corr,
            stream,
            properties,
        } => put_three(out, corr, stream, properties),
        AdminCommand::Delete { corr, stream } => put_two(out, corr, stream),
        AdminCommand::Metadata { corr, items } => put_two(out, corr, items),
        AdminCommand::MetadataAnswer {
            corr,
            brokers,
            streams,
        } => put_three(out, corr, brokers, streams),
        AdminCommand::MetadataUpdate { code, stream } => put_two(out, code, stream),
        AdminCommand::PeerProperties { corr, properties } => put_two(out, corr, properties),
        AdminCommand::PeerAnswer {
            corr,
            code,
            properties,
        } => put_answer(out, *corr, *code, properties),
        AdminCommand::SaslHandshake { corr } => put_u32(out, *corr),
        AdminCommand::MechanismAnswer { corr, code, items } => put_answer(out, *corr, *code, items),
        AdminCommand::SaslAuthenticate {
            corr,
            mechanism,
            opaque,
        } => put_three(out, corr, mechanism, opaque),
        AdminCommand::SaslAnswer {
            corr,
            code,
            content,
        } => put_answer(out, *corr, *code, content),
        AdminCommand::Tune {
            frame_max,
            heartbeat,
        } => put_two(out, frame_max, heartbeat),
        AdminCommand::TuneAnswer {
            frame_max,
            heartbeat,
        } => put_two(out, frame_max, heartbeat),
        AdminCommand::OpenHost { corr, virtual_host } => put_two(out, corr, virtual_host),
        AdminCommand::HostAnswer {
            corr,
            code,
            properties,
        } => put_answer(out, *corr, *code, properties),
        AdminCommand::Close { corr, code, reason } => put_three(out, corr, code, reason),
        AdminCommand::Heartbeat => Ok(()),
        AdminCommand::Route {
            corr,
            routing_key,
            super_stream,
        } => put_three(out, corr, routing_key, super_stream),
        AdminCommand::RouteAnswer { corr, code, items } => put_answer(out, *corr, *code, items),
        AdminCommand::Partitions { corr, super_stream } => put_two(out, corr, super_stream),
        AdminCommand::PartitionsAnswer { corr, code, items } => put_answer(
            out, *corr, *code, items,
        ),
        AdminCommand::ConsumerUpdate { corr, sub, active } => put_three(out, corr, sub, active),
        AdminCommand::UpdateAnswer {
            corr,
            code,
            content,
        } => put_answer(out, *corr, *code, content),
        AdminCommand::ExchangeVersions { corr, items } => put_two(out, corr, items),
        AdminCommand::VersionsAnswer { corr, code, items } => put_answer(out, *corr, *code, items),
        AdminCommand::StreamStats { corr, stream } => put_two(out, corr, stream),
        AdminCommand::StatsAnswer { corr, code, items } => put_answer(out, *corr, *code, items),
        AdminCommand::CreateSuper {
            corr,
            name,
            partitions,
            keys,
            properties,
        } => put_super_stream(out, *corr, name, partitions, keys, properties),
        AdminCommand::DeleteSuper { corr, name } => put_two(out, corr, name),
        AdminCommand::Plain { corr, code, .. } => put_two(out, corr, code),
    }
}

/// Key, version and fields.
fn put_parts(out: &mut Octets, command: &AdminCommand) -> Result<(), AllocError>
    requires { IsCommand admin_table command.now }
    ensures { Adds result out.old out.new (body_of admin_table command.now) }
{
    put_u16(out, command.key())?;
    put_u16(out, 1)?;
    put_fields(out, command)
}

/// Adds the body of a command for which `fits_admin` holds: key, version and fields. It fails for want of memory alone,
/// and leaves the bytes as they were.
pub fn put_admin(out: &mut Octets, command: &AdminCommand) -> Result<(), AllocError>
    requires { FitsIn admin_table command.now }
    ensures ok { OnOk result (out.new ≡ out.old ++ body_of admin_table command.now) }
    ensures err { OnErr result (out.new ≡ out.old) }
{
    let before = out.len();
    match put_parts(out, command) {
        Ok(()) => Ok(()),
        Err(refused) => {
            out.cut(before);
            Err(refused)
        }
    }
}

/// The body of a command for which `fits_admin` holds. It fails for want of memory alone.
pub fn encode_admin(alloc: Global, command: &AdminCommand) -> Result<Octets, AllocError>
    requires { FitsIn admin_table command.now }
    ensures { IfOk result (λ body. AdminSpells command.now body) }
{
    let mut out = Octets::new(alloc);
    put_admin(&mut out, command)?;
    Ok(out)
}
