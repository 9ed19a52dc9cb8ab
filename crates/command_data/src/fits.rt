//! Which data commands have a spelling that a frame can hold, and its length.

ghost use Rattle.std.specs.Prelude.{◌↔◌, IsTrue};
ghost use Rattle.command_fields.specs.Sizes.{Measures, MeasuresIn};
ghost use Rattle.command_fields.specs.Tables.{FitsIn};
ghost use Rattle.command_data.specs.Commands.{data_table, data_layout, key_of, fields_of};

use crate::command::DataCommand;
use crate::size::{declare_size, deliver_size, deliver_two_size, subscribe_size};
use command_fields::{GREATEST_BODY, answer_size, size_of_three, size_of_two};

/// Whether the key is one of the protocol's.
fn is_known(command: &DataCommand) -> bool
    ensures { IsTrue result ↔ (data_layout (key_of command.now)).Known }
{
    match command {
        DataCommand::Plain { key, .. } => matches!(*key, 0x8001 | 0x8006 | 0x8007 | 0x800c),
        _ => true,
    }
}

/// The length of the fields.
fn fields_size(command: &DataCommand) -> Option<u64>
    ensures { Measures (data_layout (key_of command.now)).format (fields_of command.now) result }
{
    match command {
        DataCommand::DeclarePublisher {
            corr,
            publisher,
            reference,
            stream,
        } => declare_size(*corr, *publisher, reference, stream),
        DataCommand::Publish { publisher, items } => size_of_two(publisher, items),
        DataCommand::PublishConfirm { publisher, items } => size_of_two(publisher, items),
        DataCommand::PublishError { publisher, items } => size_of_two(publisher, items),
        DataCommand::QueryPublisherSequence {
            corr,
            reference,
            stream,
        } => size_of_three(corr, reference, stream),
        DataCommand::SequenceAnswer {
            corr,
            code,
            content,
        } => answer_size(*corr, *code, content),
        DataCommand::DeletePublisher { corr, publisher } => size_of_two(corr, publisher),
        DataCommand::Subscribe {
            corr,
            sub,
            stream,
            spec,
            credit,
            properties,
        } => subscribe_size(*corr, *sub, stream, *spec, *credit, properties),
        DataCommand::Deliver {
            sub,
            header,
            payload,
        } => deliver_size(*sub, *header, payload),
        DataCommand::Deliver2 {
            sub,
            committed,
            header,
            payload,
        } => deliver_two_size(*sub, *committed, *header, payload),
        DataCommand::Credit { sub, credit } => size_of_two(sub, credit),
        DataCommand::CreditFault { code, sub } => size_of_two(code, sub),
        DataCommand::StoreOffset {
            reference,
            stream,
            offset,
        } => size_of_three(reference, stream, offset),
        DataCommand::QueryOffset {
            corr,
            reference,
            stream,
        } => size_of_three(corr, reference, stream),
        DataCommand::OffsetAnswer {
            corr,
            code,
            content,
        } => answer_size(*corr, *code, content),
        DataCommand::Unsubscribe { corr, sub } => size_of_two(corr, sub),
        DataCommand::Plain { corr, code, .. } => size_of_two(corr, code),
    }
}

/// The length of the command's body in bytes, at most 4,294,967,295. `None` exactly where the command has no spelling in a
/// body that a frame holds: a list of more than 2,147,483,647 items, a simple entry of more bytes than that, a sub-batch
/// of a compression above 7 or a spare above 15, a payload of another length than its header's, a plain response of
/// another key than 0x8001, 0x8006, 0x8007 or 0x800c, or a body that is too long.
pub fn data_size(command: &DataCommand) -> Option<u64>
    ensures { MeasuresIn data_table command.now result }
{
    if !is_known(command) {
        return None;
    }
    let size = fields_size(command)?;
    if size > GREATEST_BODY - 4 {
        return None;
    }
    Some(4 + size)
}

/// Whether the command has a spelling in a body of at most 4,294,967,295 bytes, so that `encode_data` can write it.
pub fn fits_data(command: &DataCommand) -> bool
    ensures { IsTrue result ↔ FitsIn data_table command.now }
{
    data_size(command).is_some()
}
