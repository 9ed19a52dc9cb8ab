//! Reads administrative commands.
#![tactic(auto, unfolding(command_fields::specs::Tables::fields_at))]

ghost use Rattle.std.specs.Prelude.{◌≡◌, IfOk};
ghost use Rattle.command_fields.specs.Tables.{fields_at, command_at};
ghost use Rattle.command_fields.specs.Faults.{GivesAt, Gives, GivesOr, RefusesOr, IfFault};
ghost use Rattle.command_admin.specs.Flags.{flag_at};
ghost use Rattle.command_admin.specs.Commands.{admin_table, AdminSpells, AdminWrong};
ghost use Rattle.command_admin.specs.declared.command.AdminCommand.{AdminCommand};
ghost use Rattle.command_fields.specs.declared.fault.DecodeFault.{DecodeFault};
ghost use Rattle.command_admin.specs.declared.key.AdminKey.TheVariants as keys;

use crate::command::AdminCommand;
use crate::key::{AdminKey, key_of};
use command_fields::{
    DecodeError, DecodeFault, ended, read_answer, read_three, read_two, read_version,
};
use frame_wire::{Item, Scan, Text, read_list};
use std::alloc::Global;

fn create(alloc: Global, scan: &mut Scan<'_>) -> Result<AdminCommand, DecodeError>
    ensures { GivesAt result scan.new (fields_at admin_table keys.Create scan.old) }
{
    let (corr, (stream, properties)) = read_three(alloc, scan)?;
    Ok(AdminCommand::Create {
        corr,
        stream,
        properties,
    })
}

fn delete(alloc: Global, scan: &mut Scan<'_>) -> Result<AdminCommand, DecodeError>
    ensures { GivesAt result scan.new (fields_at admin_table keys.Delete scan.old) }
{
    let (corr, stream) = read_two(alloc, scan)?;
    Ok(AdminCommand::Delete { corr, stream })
}

fn metadata(alloc: Global, scan: &mut Scan<'_>) -> Result<AdminCommand, DecodeError>
    ensures { GivesAt result scan.new (fields_at admin_table keys.Metadata scan.old) }
{
    let (corr, items) = read_two(alloc, scan)?;
    Ok(AdminCommand::Metadata { corr, items })
}

fn metadata_answer(alloc: Global, scan: &mut Scan<'_>) -> Result<AdminCommand, DecodeError>
    ensures { GivesAt result scan.new (fields_at admin_table keys.MetadataAnswer scan.old) }
{
    let (corr, (brokers, streams)) = read_three(alloc, scan)?;
    Ok(AdminCommand::MetadataAnswer {
        corr,
        brokers,
        streams,
    })
}

fn metadata_update(alloc: Global, scan: &mut Scan<'_>) -> Result<AdminCommand, DecodeError>
    ensures { GivesAt result scan.new (fields_at admin_table keys.MetadataUpdate scan.old) }
{
    let (code, stream) = read_two(alloc, scan)?;
    Ok(AdminCommand::MetadataUpdate { code, stream })
}

fn peer_properties(alloc: Global, scan: &mut Scan<'_>) -> Result<AdminCommand, DecodeError>
    ensures { GivesAt result scan.new (fields_at admin_table keys.PeerProperties scan.old) }
{
    let (corr, properties) = read_two(alloc, scan)?;
    Ok(AdminCommand::PeerProperties { corr, properties })
}

fn peer_answer(alloc: Global, scan: &mut Scan<'_>) -> Result<AdminCommand, DecodeError>
    ensures { GivesAt result scan.new (fields_at admin_table keys.PeerAnswer scan.old) }
{
    let (corr, (code, properties)) = read_answer(alloc, scan)?;
    Ok(AdminCommand::PeerAnswer {
        corr,
        code,
        properties,
    })
}

fn sasl_handshake(scan: &mut Scan<'_>) -> Result<AdminCommand, DecodeError>
    ensures { GivesAt result scan.new (fields_at admin_table keys.SaslHandshake scan.old) }
{
    let corr = scan.u32()?;
    ended(scan)?;
    Ok(AdminCommand::SaslHandshake { corr })
}

fn mechanism_answer(alloc: Global, scan: &mut Scan<'_>) -> Result<AdminCommand, DecodeError>
    ensures { GivesAt result scan.new (fields_at admin_table keys.MechanismAnswer scan.old) }
{
    let (corr, (code, items)) = read_answer(alloc, scan)?;
    Ok(AdminCommand::MechanismAnswer { corr, code, items })
}

fn sasl_authenticate(alloc: Global, scan: &mut Scan<'_>) -> Result<AdminCommand, DecodeError>
    ensures { GivesAt result scan.new (fields_at admin_table keys.SaslAuthenticate scan.old) }
{
    let (corr, (mechanism, opaque)) = read_three(alloc, scan)?;
    Ok(AdminCommand::SaslAuthenticate {
        corr,
        mechanism,
        opaque,
    })
}

fn sasl_answer(alloc: Global, scan: &mut Scan<'_>) -> Result<AdminCommand, DecodeError>
    ensures { GivesAt result scan.new (fields_at admin_table keys.SaslAnswer scan.old) }
{
    let (corr, (code, content)) = read_answer(alloc, scan)?;
    Ok(AdminCommand::SaslAnswer {
        corr,
        code,
        content,
    })
}

fn tune(alloc: Global, scan: &mut Scan<'_>) -> Result<AdminCommand, DecodeError>
    ensures { GivesAt result scan.new (fields_at admin_table keys.Tune scan.old) }
{
    let (frame_max, heartbeat) = read_two(alloc, scan)?;
    Ok(AdminCommand::Tune {
        frame_max,
        heartbeat,
    })
}

fn tune_answer(alloc: Global, scan: &mut Scan<'_>) -> Result<AdminCommand, DecodeError>
    ensures { GivesAt result scan.new (fields_at admin_table keys.TuneAnswer scan.old) }
{
    let (frame_max, heartbeat) = read_two(alloc, scan)?;
    Ok(AdminCommand::TuneAnswer {
        frame_max,
        heartbeat,
    })
}

fn open_host(alloc: Global, scan: &mut Scan<'_>) -> Result<AdminCommand, DecodeError>
    ensures { GivesAt result scan.new (fields_at admin_table keys.OpenHost scan.old) }
{
    let (corr, virtual_host) = read_two(alloc, scan)?;
    Ok(AdminCommand::OpenHost { corr, virtual_host })
}

fn host_answer(alloc: Global, scan: &mut Scan<'_>) -> Result<AdminCommand, DecodeError>
    ensures { GivesAt result scan.new (fields_at admin_table keys.HostAnswer scan.old) }
{
    let (corr, (code, properties)) = read_answer(alloc, scan)?;
    Ok(AdminCommand::HostAnswer {
        corr,
        code,
        properties,
    })
}

fn close(alloc: Global, scan: &mut Scan<'_>) -> Result<AdminCommand, DecodeError>
    ensures { GivesAt result scan.new (fields_at admin_table keys.Close scan.old) }
{
    let (corr, (code, reason)) = read_three(alloc, scan)?;
    Ok(AdminCommand::Close { corr, code, reason })
}

fn heartbeat(scan: &Scan<'_>) -> Result<AdminCommand, DecodeError>
    ensures { GivesAt result scan.now (fields_at admin_table keys.Heartbeat scan.now) }
{
    ended(scan)?;
    Ok(AdminCommand::Heartbeat)
}

fn route(alloc: Global, scan: &mut Scan<'_>) -> Result<AdminCommand, DecodeError>
    ensures { GivesAt result scan.new (fields_at admin_table keys.Route scan.old) }
{
    let (corr, (routing_key, super_stream)) = read_three(alloc, scan)?;
    Ok(AdminCommand::Route {
        corr,
        routing_key,
        super_stream,
    })
}

fn route_answer(alloc: Global, scan: &mut Scan<'_>) -> Result<AdminCommand, DecodeError>
    ensures { GivesAt result scan.new (fields_at admin_table keys.RouteAnswer scan.old) }
{
    let (corr, (code, items)) = read_answer(alloc, scan)?;
    Ok(AdminCommand::RouteAnswer { corr, code, items })
}

fn partitions(alloc: Global, scan: &mut Scan<'_>) -> Result<AdminCommand, DecodeError>
    ensures { GivesAt result scan.new (fields_at admin_table keys.Partitions scan.old) }
{
    let (corr, super_stream) = read_two(alloc, scan)?;
    Ok(AdminCommand::Partitions { corr, super_stream })
}

fn partitions_answer(alloc: Global, scan: &mut Scan<'_>) -> Result<AdminCommand, DecodeError>
    ensures { GivesAt result scan.new (fields_at admin_table keys.PartitionsAnswer scan.old) }
{
    let (corr, (code, items)) = read_answer(alloc, scan)?;
    Ok(AdminCommand::PartitionsAnswer { corr, code, items })
}

/// A byte that is 0 or 1.
fn read_flag(scan: &mut Scan<'_>) -> Result<u8, DecodeError>
    ensures { GivesAt result scan.new (flag_at scan.old) }
{
    let place = scan.place();
    let value = scan.u8()?;
    if value > 1 {
        return Err(DecodeError::Fault(DecodeFault::Flag { place }));
    }
    Ok(value)
}

fn consumer_update(scan: &mut Scan<'_>) -> Result<AdminCommand, DecodeError>
    ensures { GivesAt result scan.new (fields_at admin_table keys.ConsumerUpdate scan.old) }
{
    let corr = scan.u32()?;
    let sub = scan.u8()?;
    let active = read_flag(scan)?;
    ended(scan)?;
    Ok(AdminCommand::ConsumerUpdate { corr, sub, active })
}

fn update_answer(alloc: Global, scan: &mut Scan<'_>) -> Result<AdminCommand, DecodeError>
    ensures { GivesAt result scan.new (fields_at admin_table keys.UpdateAnswer scan.old) }
{
    let (corr, (code, content)) = read_answer(alloc, scan)?;
    Ok(AdminCommand::UpdateAnswer {
        corr,
        code,
        content,
    })
}

fn exchange_versions(alloc: Global, scan: &mut Scan<'_>) -> Result<AdminCommand, DecodeError>
    ensures { GivesAt result scan.new (fields_at admin_table keys.ExchangeVersions scan.old) }
{
    let (corr, items) = read_two(alloc, scan)?;
    Ok(AdminCommand::ExchangeVersions { corr, items })
}

fn versions_answer(alloc: Global, scan: &mut Scan<'_>) -> Result<AdminCommand, DecodeError>
    ensures { GivesAt result scan.new (fields_at admin_table keys.VersionsAnswer scan.old) }
{
    let (corr, (code, items)) = read_answer(alloc, scan)?;
    Ok(AdminCommand::VersionsAnswer { corr, code, items })
}

fn stream_stats(alloc: Global, scan: &mut Scan<'_>) -> Result<AdminCommand, DecodeError>
    ensures { GivesAt result scan.new (fields_at admin_table keys.StreamStats scan.old) }
{
    let (corr, stream) = read_two(alloc, scan)?;
    Ok(AdminCommand::StreamStats { corr, stream })
}

fn stats_answer(alloc: Global, scan: &mut Scan<'_>) -> Result<AdminCommand, DecodeError>
    ensures { GivesAt result scan.new (fields_at admin_table keys.StatsAnswer scan.old) }
{
    let (corr, (code, items)) = read_answer(alloc, scan)?;
    Ok(AdminCommand::StatsAnswer { corr, code, items })
}

fn create_super(alloc: Global, scan: &mut Scan<'_>) -> Result<AdminCommand, DecodeError>
    ensures { GivesAt result scan.new (fields_at admin_table keys.CreateSuper scan.old) }
{
    let corr = scan.u32()?;
    let name = Text::read(alloc, scan)?;
    let partitions = read_list(alloc, scan)?;
    let keys = read_list(alloc, scan)?;
    let properties = read_list(alloc, scan)?;
    ended(scan)?;
    Ok(AdminCommand::CreateSuper {
        corr,
        name,
        partitions,
        keys,
        properties,
    })
}

fn delete_super(alloc: Global, scan: &mut Scan<'_>) -> Result<AdminCommand, DecodeError>
    ensures { GivesAt result scan.new (fields_at admin_table keys.DeleteSuper scan.old) }
{
    let (corr, name) = read_two(alloc, scan)?;
    Ok(AdminCommand::DeleteSuper { corr, name })
}

fn plain(alloc: Global, key: u16, scan: &mut Scan<'_>) -> Result<AdminCommand, DecodeError>
    ensures { GivesAt result scan.new (fields_at admin_table (keys.Plain key) scan.old) }
{
    let (corr, code) = read_two(alloc, scan)?;
    Ok(AdminCommand::Plain { key, corr, code })
}

/// The fields of a key, to the end of the body.
#[tactic(auto)]
fn fields(alloc: Global, key: AdminKey, scan: &mut Scan<'_>) -> Result<AdminCommand, DecodeError>
    ensures { GivesAt result scan.new (fields_at admin_table key scan.old) }
{
    match key {
        AdminKey::Create => create(alloc, scan),
        AdminKey::Delete => delete(alloc, scan),
        AdminKey::Metadata => metadata(alloc, scan),
        AdminKey::MetadataAnswer => metadata_answer(alloc, scan),
        AdminKey::MetadataUpdate => metadata_update(alloc, scan),
        AdminKey::PeerProperties => peer_properties(alloc, scan),
        AdminKey::PeerAnswer => peer_answer(alloc, scan),
        AdminKey::SaslHandshake => sasl_handshake(scan),
        AdminKey::MechanismAnswer => mechanism_answer(alloc, scan),
        AdminKey::SaslAuthenticate => sasl_authenticate(alloc, scan),
        AdminKey::SaslAnswer => sasl_answer(alloc, scan),
        AdminKey::Tune => tune(alloc, scan),
        AdminKey::TuneAnswer => tune_answer(alloc, scan),
        AdminKey::OpenHost => open_host(alloc, scan),
        AdminKey::HostAnswer => host_answer(alloc, scan),
        AdminKey::Close => close(alloc, scan),
        AdminKey::Heartbeat => heartbeat(scan),
        AdminKey::Route => route(alloc, scan),
        AdminKey::RouteAnswer => route_answer(alloc, scan),
        AdminKey::Partitions => partitions(alloc, scan),
        AdminKey::PartitionsAnswer => partitions_answer(alloc, scan),
        AdminKey::ConsumerUpdate => consumer_update(scan),
        AdminKey::UpdateAnswer => update_answer(alloc, scan),
        AdminKey::ExchangeVersions => exchange_versions(alloc, scan),
        AdminKey::VersionsAnswer => versions_answer(alloc, scan),
        AdminKey::StreamStats => stream_stats(alloc, scan),
        AdminKey::StatsAnswer => stats_answer(alloc, scan),
        AdminKey::CreateSuper => create_super(alloc, scan),
        AdminKey::DeleteSuper => delete_super(alloc, scan),
        AdminKey::Plain(key) => plain(alloc, key, scan),
    }
}

/// Key, version and fields of a body.
fn read_body(alloc: Global, body: &[u8]) -> Result<AdminCommand, DecodeError>
    ensures { Gives result (command_at admin_table body.now) }
{
    let mut scan = Scan::new(body);
    let code = scan.u16()?;
    let Some(key) = key_of(code) else {
        return Err(DecodeError::Fault(DecodeFault::UnknownKey { place: 0 }));
    };
    read_version(&mut scan)?;
    fields(alloc, key, &mut scan)
}

/// The command that a body spells, or why it spells none: the first wrong field from the left and where it begins. A
/// body is the key in two bytes, the version in two bytes, which is 1, and the fields of the key. The fault is
/// `UnknownKey` at 0 where the key is of no administrative command, `Version` at 2, `Short` where a field is not whole,
/// `Negative` where a length is below -1 or a count below 0, `Flag` where `active` is above 1, `OffsetType` where the
/// type of an offset is above 5, and `Long` at the first byte behind the last field. `Memory` says nothing of the body.
pub fn decode_admin(alloc: Global, body: &[u8]) -> Result<AdminCommand, DecodeError>
    // What is read is spelled so.
    ensures found { IfOk result (λ c. AdminSpells c body.now) }
    // What is spelled so is read, unless memory runs out.
    ensures only { (c : AdminCommand) → AdminSpells c body.now → GivesOr result c }
    // The fault is that of the first wrong field.
    ensures told { IfFault result (AdminWrong body.now) }
    // Where a field is wrong first, that is the answer, unless memory runs out.
    ensures refused { (fault : DecodeFault) → AdminWrong body.now fault → RefusesOr result fault }
{
    read_body(alloc, body)
}
