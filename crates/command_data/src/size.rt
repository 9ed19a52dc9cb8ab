//! The lengths in bytes of the fields that one command alone has; the `ensures` of each function names them. `None` comes
//! exactly where the fields have no spelling, or one of more than 4,294,967,295 bytes.
//! The numbers among the parameters change no length; the clause speaks of them.
#![tactic(auto, using(command_fields::proofs::SizeLaws::lengths))]

ghost use Rattle.std.specs.Prelude.{◌≡◌};
ghost use Rattle.frame_wire.specs.Joins.{◌then◌, or_absent};
ghost use Rattle.command_fields.specs.Offsets.{spec_field};
ghost use Rattle.command_fields.specs.Properties.{property_field};
ghost use Rattle.command_fields.specs.Sizes.{Measures};
ghost use Rattle.command_fields.specs.Tables.{last, u8, u16, u32, u64, text, list_of};
ghost use Rattle.command_data.specs.Items.{delivered};

use chunk_format::Header;
use command_fields::{Field, GREATEST_BODY, Measured, OffsetSpec, Property, size_or_absent};
use frame_wire::{Octets, Row, Text};

pub fn declare_size(corr: u32, publisher: u8, reference: &Text, stream: &Text) -> Option<u64>
    ensures { Measures (u32 then u8 then text then last text) (corr, (publisher, (reference.now, stream.now))) result }
{
    let size = 5 + reference.size()? + stream.size()?;
    (size <= GREATEST_BODY).then_some(size)
}

pub fn subscribe_size(
    corr: u32,
    sub: u8,
    stream: &Text,
    spec: OffsetSpec,
    credit: u16,
    properties: &Option<Row<Property>>,
) -> Option<u64>
    ensures { Measures (u32 then u8 then text then spec_field then u16 then or_absent (last (list_of property_field))) (corr, (sub, (stream.now, (spec, (credit, properties.now))))) result }
{
    let size = 7 + stream.size()? + spec.field_size()? + size_or_absent(properties)?;
    (size <= GREATEST_BODY).then_some(size)
}

/// The 48 header bytes and a payload of the header's length.
fn delivered_size(header: Header, payload: &Octets) -> Option<u64>
    ensures { Measures delivered (header, payload.now) result }
{
    let _in_range = (header.entries, header.records, header.stamp, header.epoch);
    let _in_range = (header.first, header.crc, header.trailer_len);
    let len = payload.as_slice().len() as u64;
    if len > GREATEST_BODY - 48 {
        return None;
    }
    if len != header.payload_len as u64 {
        return None;
    }
    Some(48 + len)
}

pub fn deliver_size(sub: u8, header: Header, payload: &Octets) -> Option<u64>
    ensures { Measures (u8 then last delivered) (sub, (header, payload.now)) result }
{
    let size = 1 + delivered_size(header, payload)?;
    (size <= GREATEST_BODY).then_some(size)
}

pub fn deliver_two_size(sub: u8, committed: u64, header: Header, payload: &Octets) -> Option<u64>
    ensures { Measures (u8 then u64 then last delivered) (sub, (committed, (header, payload.now))) result }
{
    let size = 9 + delivered_size(header, payload)?;
    (size <= GREATEST_BODY).then_some(size)
}
