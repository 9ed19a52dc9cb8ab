//! Adds the fields that one command alone has at the end of a body; the `ensures` of each function names them. After an
//! error some of the fields may stand behind what was there.

ghost use Rattle.frame_wire.specs.Joins.{◌then◌, or_absent};
ghost use Rattle.command_fields.specs.Adding.{Adds};
ghost use Rattle.command_fields.specs.Tables.{last, u8, u16, u32, u64, text, list_of};
ghost use Rattle.command_fields.specs.Offsets.{spec_field};
ghost use Rattle.command_fields.specs.Properties.{property_field};
ghost use Rattle.command_data.specs.Items.{delivered};

use chunk_format::{Header, put_header};
use command_fields::{OffsetSpec, Property, put_or_absent};
use frame_wire::{Octets, Row, Text, put_text, put_u8, put_u16, put_u32, put_u64};
use std::alloc::AllocError;

pub fn put_declare(
    out: &mut Octets,
    corr: u32,
    publisher: u8,
    reference: &Text,
    stream: &Text,
) -> Result<(), AllocError>
    ensures { Adds result out.old out.new ((u32 then u8 then text then last text).spell (corr, (publisher, (reference.now, stream.now)))) }
{
    put_u32(out, corr)?;
    put_u8(out, publisher)?;
    put_text(out, reference)?;
    put_text(out, stream)
}

pub fn put_subscribe(
    out: &mut Octets,
    corr: u32,
    sub: u8,
    stream: &Text,
    spec: &OffsetSpec,
    credit: u16,
    properties: &Option<Row<Property>>,
) -> Result<(), AllocError>
    requires { (or_absent (last (list_of property_field))).Fits properties.now }
    ensures { Adds result out.old out.new ((u32 then u8 then text then spec_field then u16 then or_absent (last (list_of property_field))).spell (corr, (sub, (stream.now, (spec.now, (credit, properties.now)))))) }
{
    put_u32(out, corr)?;
    put_u8(out, sub)?;
    put_text(out, stream)?;
    spec.put(out)?;
    put_u16(out, credit)?;
    put_or_absent(out, properties)
}

fn put_delivered(out: &mut Octets, header: &Header, payload: &Octets) -> Result<(), AllocError>
    ensures { Adds result out.old out.new ((last delivered).spell (header.now, payload.now)) }
{
    put_header(out, header)?;
    out.push_slice(payload.as_slice())
}

pub fn put_deliver(
    out: &mut Octets,
    sub: u8,
    header: &Header,
    payload: &Octets,
) -> Result<(), AllocError>
    ensures { Adds result out.old out.new ((u8 then last delivered).spell (sub, (header.now, payload.now))) }
{
    put_u8(out, sub)?;
    put_delivered(out, header, payload)
}

pub fn put_deliver_two(
    out: &mut Octets,
    sub: u8,
    committed: u64,
    header: &Header,
    payload: &Octets,
) -> Result<(), AllocError>
    ensures { Adds result out.old out.new ((u8 then u64 then last delivered).spell (sub, (committed, (header.now, payload.now)))) }
{
    put_u8(out, sub)?;
    put_u64(out, committed)?;
    put_delivered(out, header, payload)
}
