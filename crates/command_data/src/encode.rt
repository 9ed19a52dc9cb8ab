//! Writes data commands.

ghost use Rattle.std.specs.Prelude.{◌≡◌, ◌++◌, OnOk, OnErr, IfOk};
ghost use Rattle.command_fields.specs.Adding.{Adds};
ghost use Rattle.command_fields.specs.Tables.{IsCommand, FitsIn, body_of};
ghost use Rattle.command_data.specs.Commands.{data_table, data_layout, key_of, fields_of, DataSpells};

use crate::command::DataCommand;
use crate::put::{put_declare, put_deliver, put_deliver_two, put_subscribe};
use command_fields::{put_answer, put_three, put_two};
use frame_wire::{Octets, put_u16};
use std::alloc::{AllocError, Global};

impl DataCommand {
    /// The key that begins the command's body.
    pub fn key(&self) -> u16
        ensures { result ≡ (data_layout (key_of self.now)).code }
    {
        match self {
            DataCommand::DeclarePublisher { .. } => 0x0001,
            DataCommand::Publish { .. } => 0x0002,
            DataCommand::PublishConfirm { .. } => 0x0003,
            DataCommand::PublishError { .. } => 0x0004,
            DataCommand::QueryPublisherSequence { .. } => 0x0005,
            DataCommand::SequenceAnswer { .. } => 0x8005,
            DataCommand::DeletePublisher { .. } => 0x0006,
            DataCommand::Subscribe { .. } => 0x0007,
            DataCommand::Deliver { .. } => 0x0008,
            DataCommand::Deliver2 { .. } => 0x0008,
            DataCommand::Credit { .. } => 0x0009,
            DataCommand::CreditFault { .. } => 0x8009,
            DataCommand::StoreOffset { .. } => 0x000a,
            DataCommand::QueryOffset { .. } => 0x000b,
            DataCommand::OffsetAnswer { .. } => 0x800b,
            DataCommand::Unsubscribe { .. } => 0x000c,
            DataCommand::Plain { key, .. } => *key,
        }
    }

    /// The version that stands behind the key.
    pub fn version(&self) -> u16
        ensures { result ≡ (data_layout (key_of self.now)).version }
    {
        match self {
            DataCommand::Deliver2 { .. } => 2,
            _ => 1,
        }
    }
}

/// The fields of a command behind key and version.
fn put_fields(out: &mut Octets, command: &DataCommand) -> Result<(), AllocError>
    requires { IsCommand data_table command.now }
    ensures { Adds result out.old out.new ((data_layout (key_of command.now)).format.spell (fields_of command.now)) }
{
    match command {
        DataCommand::DeclarePublisher {
            corr,
            publisher,
            reference,
            stream,
        } => put_declare(out, *corr, *publisher, reference, stream),
        DataCommand::Publish { publisher, items } => put_two(out, publisher, items),
        DataCommand::PublishConfirm { publisher, items } => put_two(out, publisher, items),
        DataCommand::PublishError { publisher, items } => put_two(out, publisher, items),
        DataCommand::QueryPublisherSequence {
            corr,
            reference,
            stream,
        } => put_three(out, corr, reference, stream),
        DataCommand::SequenceAnswer {
            corr,
            code,
            content,
        } => put_answer(out, *corr, *code, content),
        DataCommand::DeletePublisher { corr, publisher } => put_two(out, corr, publisher),
        DataCommand::Subscribe {
            corr,
            sub,
            stream,
            spec,
            credit,
            properties,
        } => put_subscribe(out, *corr, *sub, stream, spec, *credit, properties),
        DataCommand::Deliver {
            sub,
            header,
            payload,
        } => put_deliver(out, *sub, header, payload),
        DataCommand::Deliver2 {
            sub,
            committed,
            header,
            payload,
        } => put_deliver_two(out, *sub, *committed, header, payload),
        DataCommand::Credit { sub, credit } => put_two(out, sub, credit),
        DataCommand::CreditFault { code, sub } => put_two(out, code, sub),
        DataCommand::StoreOffset {
            reference,
            stream,
            offset,
        } => put_three(out, reference, stream, offset),
        DataCommand::QueryOffset {
            corr,
            reference,
            stream,
        } => put_three(out, corr, reference, stream),
        DataCommand::OffsetAnswer {
            corr,
            code,
            content,
        } => put_answer(out, *corr, *code, content),
        DataCommand::Unsubscribe { corr, sub } => put_two(out, corr, sub),
        DataCommand::Plain { corr, code, .. } => put_two(out, corr, code),
    }
}

/// Key, version and fields.
fn put_parts(out: &mut Octets, command: &DataCommand) -> Result<(), AllocError>
    requires { IsCommand data_table command.now }
    ensures { Adds result out.old out.new (body_of data_table command.now) }
{
    put_u16(out, command.key())?;
    put_u16(out, command.version())?;
    put_fields(out, command)
}

/// Adds the body of a command for which `fits_data` holds: key, version and fields. It fails for want of memory alone, and
/// leaves the bytes as they were.
pub fn put_data(out: &mut Octets, command: &DataCommand) -> Result<(), AllocError>
    requires { FitsIn data_table command.now }
    ensures ok { OnOk result (out.new ≡ out.old ++ body_of data_table command.now) }
    ensures err { OnErr result (out.new ≡ out.old) }
{
    let before = out.len();
    match put_parts(out, command) {
        Ok(()) => Ok(()),
        Err(refused) => {
            out.cut(before);
            Err(refused)
        }
    }
}

/// The body of a command for which `fits_data` holds. It fails for want of memory alone.
pub fn encode_data(alloc: Global, command: &DataCommand) -> Result<Octets, AllocError>
    requires { FitsIn data_table command.now }
    ensures { IfOk result (λ body. DataSpells command.now body) }
{
    let mut out = Octets::new(alloc);
    put_data(&mut out, command)?;
    Ok(out)
}
