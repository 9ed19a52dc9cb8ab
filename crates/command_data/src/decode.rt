//! Reads data commands.

ghost use Rattle.std.specs.Prelude.{◌≡◌, IfOk};
ghost use Rattle.command_fields.specs.Tables.{fields_at, command_at};
ghost use Rattle.command_fields.specs.Faults.{GivesAt, Gives, GivesOr, RefusesOr, IfFault};
ghost use Rattle.command_fields.specs.Tables.{last};
ghost use Rattle.command_data.specs.Items.{delivered};
ghost use Rattle.command_data.specs.Commands.{data_table, DataSpells, DataWrong};
ghost use Rattle.command_data.specs.declared.key.DataKey.TheVariants as keys;
ghost use Rattle.command_fields.specs.declared.fault.DecodeFault.{DecodeFault};

use crate::command::DataCommand;
use crate::key::{DataKey, in_version, key_of};
use chunk_format::{Header, HeaderFault, read_header};
use command_fields::{
    DecodeError, DecodeFault, OffsetSpec, ended, read_answer, read_or_absent, read_three, read_two,
};
use frame_wire::{Item, Octets, Scan, Text};
use std::alloc::Global;

#[tactic(auto, unfolding(command_fields::specs::Tables::fields_at))]
fn declare_publisher(alloc: Global, scan: &mut Scan<'_>) -> Result<DataCommand, DecodeError>
    ensures { GivesAt result scan.new (fields_at data_table keys.DeclarePublisher scan.old) }
{
    let corr = scan.u32()?;
    let publisher = scan.u8()?;
    let reference = Text::read(alloc, scan)?;
    let stream = Text::read(alloc, scan)?;
    ended(scan)?;
    Ok(DataCommand::DeclarePublisher {
        corr,
        publisher,
        reference,
        stream,
    })
}

#[tactic(auto, unfolding(command_fields::specs::Tables::fields_at))]
fn publish(alloc: Global, scan: &mut Scan<'_>) -> Result<DataCommand, DecodeError>
    ensures { GivesAt result scan.new (fields_at data_table keys.Publish scan.old) }
{
    let (publisher, items) = read_two(alloc, scan)?;
    Ok(DataCommand::Publish { publisher, items })
}

#[tactic(auto, unfolding(command_fields::specs::Tables::fields_at))]
fn publish_confirm(alloc: Global, scan: &mut Scan<'_>) -> Result<DataCommand, DecodeError>
    ensures { GivesAt result scan.new (fields_at data_table keys.PublishConfirm scan.old) }
{
    let (publisher, items) = read_two(alloc, scan)?;
    Ok(DataCommand::PublishConfirm { publisher, items })
}

#[tactic(auto, unfolding(command_fields::specs::Tables::fields_at))]
fn publish_error(alloc: Global, scan: &mut Scan<'_>) -> Result<DataCommand, DecodeError>
    ensures { GivesAt result scan.new (fields_at data_table keys.PublishError scan.old) }
{
    let (publisher, items) = read_two(alloc, scan)?;
    Ok(DataCommand::PublishError { publisher, items })
}

#[tactic(auto, unfolding(command_fields::specs::Tables::fields_at))]
fn query_publisher_sequence(alloc: Global, scan: &mut Scan<'_>) -> Result<DataCommand, DecodeError>
    ensures { GivesAt result scan.new (fields_at data_table keys.QueryPublisherSequence scan.old) }
{
    let (corr, (reference, stream)) = read_three(alloc, scan)?;
    Ok(DataCommand::QueryPublisherSequence {
        corr,
        reference,
        stream,
    })
}

#[tactic(auto, unfolding(command_fields::specs::Tables::fields_at))]
fn sequence_answer(alloc: Global, scan: &mut Scan<'_>) -> Result<DataCommand, DecodeError>
    ensures { GivesAt result scan.new (fields_at data_table keys.SequenceAnswer scan.old) }
{
    let (corr, (code, content)) = read_answer(alloc, scan)?;
    Ok(DataCommand::SequenceAnswer {
        corr,
        code,
        content,
    })
}

#[tactic(auto, unfolding(command_fields::specs::Tables::fields_at))]
fn delete_publisher(alloc: Global, scan: &mut Scan<'_>) -> Result<DataCommand, DecodeError>
    ensures { GivesAt result scan.new (fields_at data_table keys.DeletePublisher scan.old) }
{
    let (corr, publisher) = read_two(alloc, scan)?;
    Ok(DataCommand::DeletePublisher { corr, publisher })
}

#[tactic(auto, unfolding(command_fields::specs::Tables::fields_at))]
fn subscribe(alloc: Global, scan: &mut Scan<'_>) -> Result<DataCommand, DecodeError>
    ensures { GivesAt result scan.new (fields_at data_table keys.Subscribe scan.old) }
{
    let corr = scan.u32()?;
    let sub = scan.u8()?;
    let stream = Text::read(alloc, scan)?;
    let spec = OffsetSpec::read(scan)?;
    let credit = scan.u16()?;
    let properties = read_or_absent(alloc, scan)?;
    Ok(DataCommand::Subscribe {
        corr,
        sub,
        stream,
        spec,
        credit,
        properties,
    })
}

/// The header of a delivery and its payload, to the body's end.
fn read_delivered(alloc: Global, scan: &mut Scan<'_>) -> Result<(Header, Octets), DecodeError>
    ensures { GivesAt result scan.new ((last delivered).read scan.old) }
{
    let header = match read_header(scan) {
        Ok(header) => header,
        Err(HeaderFault::NotWhole { place }) => {
            return Err(DecodeError::Fault(DecodeFault::Short { place }));
        }
        Err(HeaderFault::Wrong { place }) => {
            return Err(DecodeError::Fault(DecodeFault::Flag { place }));
        }
    };
    let rest = scan.rest();
    let len = header.payload_len as usize;
    if rest.len() < len {
        return Err(DecodeError::Fault(DecodeFault::Short {
            place: scan.place(),
        }));
    }
    let Ok(payload) = Octets::copy(alloc, &rest[..len]) else {
        return Err(DecodeError::Memory);
    };
    scan.advance(len);
    ended(scan)?;
    Ok((header, payload))
}

#[tactic(auto, unfolding(command_fields::specs::Tables::fields_at))]
fn deliver(alloc: Global, scan: &mut Scan<'_>) -> Result<DataCommand, DecodeError>
    ensures { GivesAt result scan.new (fields_at data_table keys.Deliver scan.old) }
{
    let sub = scan.u8()?;
    let (header, payload) = read_delivered(alloc, scan)?;
    Ok(DataCommand::Deliver {
        sub,
        header,
        payload,
    })
}

#[tactic(auto, unfolding(command_fields::specs::Tables::fields_at))]
fn deliver_two(alloc: Global, scan: &mut Scan<'_>) -> Result<DataCommand, DecodeError>
    ensures { GivesAt result scan.new (fields_at data_table keys.Deliver2 scan.old) }
{
    let sub = scan.u8()?;
    let committed = scan.u64()?;
    let (header, payload) = read_delivered(alloc, scan)?;
    Ok(DataCommand::Deliver2 {
        sub,
        committed,
        header,
        payload,
    })
}

#[tactic(auto, unfolding(command_fields::specs::Tables::fields_at))]
fn credit(alloc: Global, scan: &mut Scan<'_>) -> Result<DataCommand, DecodeError>
    ensures { GivesAt result scan.new (fields_at data_table keys.Credit scan.old) }
{
    let (sub, credit) = read_two(alloc, scan)?;
    Ok(DataCommand::Credit { sub, credit })
}

#[tactic(auto, unfolding(command_fields::specs::Tables::fields_at))]
fn credit_fault(alloc: Global, scan: &mut Scan<'_>) -> Result<DataCommand, DecodeError>
    ensures { GivesAt result scan.new (fields_at data_table keys.CreditFault scan.old) }
{
    let (code, sub) = read_two(alloc, scan)?;
    Ok(DataCommand::CreditFault { code, sub })
}

#[tactic(auto, unfolding(command_fields::specs::Tables::fields_at))]
fn store_offset(alloc: Global, scan: &mut Scan<'_>) -> Result<DataCommand, DecodeError>
    ensures { GivesAt result scan.new (fields_at data_table keys.StoreOffset scan.old) }
{
    let (reference, (stream, offset)) = read_three(alloc, scan)?;
    Ok(DataCommand::StoreOffset {
        reference,
        stream,
        offset,
    })
}

#[tactic(auto, unfolding(command_fields::specs::Tables::fields_at))]
fn query_offset(alloc: Global, scan: &mut Scan<'_>) -> Result<DataCommand, DecodeError>
    ensures { GivesAt result scan.new (fields_at data_table keys.QueryOffset scan.old) }
{
    let (corr, (reference, stream)) = read_three(alloc, scan)?;
    Ok(DataCommand::QueryOffset {
        corr,
        reference,
        stream,
    })
}

#[tactic(auto, unfolding(command_fields::specs::Tables::fields_at))]
fn offset_answer(alloc: Global, scan: &mut Scan<'_>) -> Result<DataCommand, DecodeError>
    ensures { GivesAt result scan.new (fields_at data_table keys.OffsetAnswer scan.old) }
{
    let (corr, (code, content)) = read_answer(alloc, scan)?;
    Ok(DataCommand::OffsetAnswer {
        corr,
        code,
        content,
    })
}

#[tactic(auto, unfolding(command_fields::specs::Tables::fields_at))]
fn unsubscribe(alloc: Global, scan: &mut Scan<'_>) -> Result<DataCommand, DecodeError>
    ensures { GivesAt result scan.new (fields_at data_table keys.Unsubscribe scan.old) }
{
    let (corr, sub) = read_two(alloc, scan)?;
    Ok(DataCommand::Unsubscribe { corr, sub })
}

#[tactic(auto, unfolding(command_fields::specs::Tables::fields_at))]
fn plain(alloc: Global, key: u16, scan: &mut Scan<'_>) -> Result<DataCommand, DecodeError>
    ensures { GivesAt result scan.new (fields_at data_table (keys.Plain key) scan.old) }
{
    let (corr, code) = read_two(alloc, scan)?;
    Ok(DataCommand::Plain { key, corr, code })
}

fn fields(alloc: Global, key: DataKey, scan: &mut Scan<'_>) -> Result<DataCommand, DecodeError>
    ensures { GivesAt result scan.new (fields_at data_table key scan.old) }
{
    match key {
        DataKey::DeclarePublisher => declare_publisher(alloc, scan),
        DataKey::Publish => publish(alloc, scan),
        DataKey::PublishConfirm => publish_confirm(alloc, scan),
        DataKey::PublishError => publish_error(alloc, scan),
        DataKey::QueryPublisherSequence => query_publisher_sequence(alloc, scan),
        DataKey::SequenceAnswer => sequence_answer(alloc, scan),
        DataKey::DeletePublisher => delete_publisher(alloc, scan),
        DataKey::Subscribe => subscribe(alloc, scan),
        DataKey::Deliver => deliver(alloc, scan),
        DataKey::Deliver2 => deliver_two(alloc, scan),
        DataKey::Credit => credit(alloc, scan),
        DataKey::CreditFault => credit_fault(alloc, scan),
        DataKey::StoreOffset => store_offset(alloc, scan),
        DataKey::QueryOffset => query_offset(alloc, scan),
        DataKey::OffsetAnswer => offset_answer(alloc, scan),
        DataKey::Unsubscribe => unsubscribe(alloc, scan),
        DataKey::Plain(key) => plain(alloc, key, scan),
    }
}

/// Reads a body from its first byte to its last.
fn read_body(alloc: Global, body: &[u8]) -> Result<DataCommand, DecodeError>
    ensures { Gives result (command_at data_table body.now) }
{
    let mut scan = Scan::new(body);
    let code = scan.u16()?;
    let Some(first) = key_of(code) else {
        return Err(DecodeError::Fault(DecodeFault::UnknownKey { place: 0 }));
    };
    let place = scan.place();
    let version = scan.u16()?;
    let Some(key) = in_version(first, version) else {
        return Err(DecodeError::Fault(DecodeFault::Version { place }));
    };
    fields(alloc, key, &mut scan)
}

/// The command that a body spells, all of the body: two bytes of key, two of version, which is 1, or for a delivery 1 or
/// 2, and the fields. Else the first wrong field with its place in bytes: `UnknownKey` at 0, `Version` at 2, `Short`,
/// `Negative`, `Flag` and `OffsetType` at the field's first byte, and `Long` at the first byte behind the last field. A
/// list's count and each field of its items are fields of their own, and so are a delivery's 48 header bytes and its
/// payload. `Flag` is a header with a wrong magic, version, kind or zero bytes. The checksum is not looked at. `Memory`
/// comes where memory runs out.
pub fn decode_data(alloc: Global, body: &[u8]) -> Result<DataCommand, DecodeError>
    // What is read is spelled so.
    ensures found { IfOk result (λ c. DataSpells c body.now) }
    // What is spelled so is read, unless memory runs out.
    ensures only { (c : DataCommand) → DataSpells c body.now → GivesOr result c }
    // The fault is that of the first wrong field.
    ensures told { IfFault result (DataWrong body.now) }
    // Where a field is wrong first, that is the answer, unless memory runs out.
    ensures refused { (fault : DecodeFault) → DataWrong body.now fault → RefusesOr result fault }
{
    read_body(alloc, body)
}
