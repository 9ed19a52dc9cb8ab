//! The lengths in bytes of the fields that one command alone has. `None` comes exactly where the fields have no spelling,
//! or one of more than 4,294,967,295 bytes.
//! The numbers among the parameters change no length; the clause speaks of them.
#![tactic(auto, using(command_fields::proofs::SizeLaws::lengths))]

ghost use Rattle.std.specs.Prelude.{◌≡◌};
ghost use Rattle.frame_wire.specs.Formats.{text_field};
ghost use Rattle.frame_wire.specs.Joins.{◌then◌};
ghost use Rattle.command_fields.specs.Properties.{property_field};
ghost use Rattle.command_fields.specs.Sizes.{Measures};
ghost use Rattle.command_fields.specs.Tables.{last, u8, u32, text, list_of};
ghost use Rattle.command_admin.specs.Flags.{flag};

use command_fields::{GREATEST_BODY, Measured, Property, list_size};
use frame_wire::{Row, Text};

pub fn update_size(corr: u32, sub: u8, active: u8) -> Option<u64>
    ensures { Measures (u32 then u8 then last flag) (corr, (sub, active)) result }
{
    if active > 1 { None } else { Some(6) }
}

pub fn super_stream_size(
    corr: u32,
    name: &Text,
    partitions: &Row<Text>,
    keys: &Row<Text>,
    properties: &Row<Property>,
) -> Option<u64>
    ensures { Measures (u32 then text then list_of text_field then list_of text_field then last (list_of property_field)) (corr, (name.now, (partitions.now, (keys.now, properties.now)))) result }
{
    let lists = list_size(partitions)? + list_size(keys)? + list_size(properties)?;
    let size = 4 + name.size()? + lists;
    (size <= GREATEST_BODY).then_some(size)
}
