//! Adds the fields that one command alone has.

ghost use Rattle.frame_wire.specs.Joins.{◌then◌, IsList};
ghost use Rattle.frame_wire.specs.Formats.{text_field};
ghost use Rattle.command_fields.specs.Adding.{Adds};
ghost use Rattle.command_fields.specs.Properties.{property_field};
ghost use Rattle.command_fields.specs.Tables.{last, u32, text, list_of};

use command_fields::Property;
use frame_wire::{Octets, Row, Text, put_list, put_text, put_u32};
use std::alloc::AllocError;

/// The fields of the command that makes a super stream. After an error some of them may stand behind what was there.
pub fn put_super_stream(
    out: &mut Octets,
    corr: u32,
    name: &Text,
    partitions: &Row<Text>,
    keys: &Row<Text>,
    properties: &Row<Property>,
) -> Result<(), AllocError>
    requires partitions { IsList text_field.Fits partitions.now }
    requires keys { IsList text_field.Fits keys.now }
    requires properties { IsList property_field.Fits properties.now }
    ensures { Adds result out.old out.new ((u32 then text then list_of text_field then list_of text_field then last (list_of property_field)).spell (corr, (name.now, (partitions.now, (keys.now, properties.now))))) }
{
    put_u32(out, corr)?;
    put_text(out, name)?;
    put_list(out, partitions)?;
    put_list(out, keys)?;
    put_list(out, properties)
}
