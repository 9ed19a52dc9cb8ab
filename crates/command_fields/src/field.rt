//! A field of a command: how it is read, how it is written, and its length.
#![tactic(auto, using(crate::proofs::SizeLaws::lengths))]

ghost use Rattle.std.specs.Prelude.{◌≡◌};
ghost use Rattle.frame_wire.specs.Formats.{Format};
ghost use Rattle.command_fields.specs.declared.fault.DecodeFault.{DecodeFault};
ghost use Rattle.command_fields.specs.Adding.{Adds};
ghost use Rattle.command_fields.specs.Faults.{GivesAt};
ghost use Rattle.command_fields.specs.Offsets.{spec_field};
ghost use Rattle.command_fields.specs.Sizes.{Measures};
ghost use Rattle.command_fields.specs.Tables.{u8, u16, u32, u64, text, blob, list_of};

use crate::fault::{DecodeError, DecodeFault};
use crate::offset::OffsetSpec;
use crate::size::{Measured, list_size, text_size};
use frame_wire::{
    Item, Octets, Row, Scan, Text, put_blob, put_list, put_text, put_u8, put_u16, put_u32, put_u64,
    read_list,
};
use std::alloc::{AllocError, Global};

/// A field of a command. Numbers, texts, blobs, lists and offset specifications are fields.
pub trait Field: Drop {
    ghost format: { Format Self DecodeFault };

    /// Reads one from the front of a scan. After an error the scan stands anywhere in it.
    fn read_field(alloc: Global, scan: &mut Scan<'_>) -> Result<Self, DecodeError>
        ensures { GivesAt result scan.new (format.read scan.old) };

    /// Adds its bytes. After an error some of them may stand behind what was there.
    fn put_field(&self, out: &mut Octets) -> Result<(), AllocError>
        requires { format.Fits self.now }
        ensures { Adds result out.old out.new (format.spell self.now) };

    /// The number of its bytes: `None` exactly where it has no spelling, or one of more than 4,294,967,295 bytes.
    fn field_size(&self) -> Option<u64>
        ensures { Measures format self.now result };
}

impl Field for u8 {
    ghost format = { u8 };

    fn read_field(_alloc: Global, scan: &mut Scan<'_>) -> Result<u8, DecodeError> {
        Ok(scan.u8()?)
    }

    fn put_field(&self, out: &mut Octets) -> Result<(), AllocError> {
        put_u8(out, *self)
    }

    fn field_size(&self) -> Option<u64> {
        let _value = *self;
        Some(1)
    }
}

impl Field for u16 {
    ghost format = { u16 };

    fn read_field(_alloc: Global, scan: &mut Scan<'_>) -> Result<u16, DecodeError> {
        Ok(scan.u16()?)
    }

    fn put_field(&self, out: &mut Octets) -> Result<(), AllocError> {
        put_u16(out, *self)
    }

    fn field_size(&self) -> Option<u64> {
        let _value = *self;
        Some(2)
    }
}

impl Field for u32 {
    ghost format = { u32 };

    fn read_field(_alloc: Global, scan: &mut Scan<'_>) -> Result<u32, DecodeError> {
        Ok(scan.u32()?)
    }

    fn put_field(&self, out: &mut Octets) -> Result<(), AllocError> {
        put_u32(out, *self)
    }

    fn field_size(&self) -> Option<u64> {
        let _value = *self;
        Some(4)
    }
}

impl Field for u64 {
    ghost format = { u64 };

    fn read_field(_alloc: Global, scan: &mut Scan<'_>) -> Result<u64, DecodeError> {
        Ok(scan.u64()?)
    }

    fn put_field(&self, out: &mut Octets) -> Result<(), AllocError> {
        put_u64(out, *self)
    }

    fn field_size(&self) -> Option<u64> {
        let _value = *self;
        Some(8)
    }
}

impl Field for Text {
    ghost format = { text };

    fn read_field(alloc: Global, scan: &mut Scan<'_>) -> Result<Text, DecodeError> {
        Ok(Text::read(alloc, scan)?)
    }

    fn put_field(&self, out: &mut Octets) -> Result<(), AllocError> {
        put_text(out, self)
    }

    fn field_size(&self) -> Option<u64> {
        Some(text_size(self))
    }
}

/// A blob, or null.
impl Field for Option<Octets> {
    ghost format = { blob };

    fn read_field(alloc: Global, scan: &mut Scan<'_>) -> Result<Option<Octets>, DecodeError> {
        let Some(bytes) = scan.blob()? else {
            return Ok(None);
        };
        match Octets::copy(alloc, bytes) {
            Ok(octets) => Ok(Some(octets)),
            Err(_) => Err(DecodeError::Memory),
        }
    }

    fn put_field(&self, out: &mut Octets) -> Result<(), AllocError> {
        match self {
            None => put_blob(out, None),
            Some(bytes) => put_blob(out, Some(bytes.as_slice())),
        }
    }

    fn field_size(&self) -> Option<u64> {
        let Some(bytes) = self else {
            return Some(4);
        };
        let bytes = bytes.as_slice();
        if bytes.len() > 2_147_483_647 {
            return None;
        }
        Some(4 + bytes.len() as u64)
    }
}

/// A count and so many items.
impl<T: Measured> Field for Row<T> {
    ghost format = { list_of T.Item.format };

    fn read_field(alloc: Global, scan: &mut Scan<'_>) -> Result<Row<T>, DecodeError> {
        Ok(read_list(alloc, scan)?)
    }

    fn put_field(&self, out: &mut Octets) -> Result<(), AllocError> {
        put_list(out, self)
    }

    fn field_size(&self) -> Option<u64> {
        list_size(self)
    }
}

/// Two bytes of a type, and the eight behind type 4 or 5.
fn size_of_spec(spec: OffsetSpec) -> Option<u64>
    ensures { Measures spec_field spec result }
{
    match spec {
        OffsetSpec::Unset => Some(2),
        OffsetSpec::First => Some(2),
        OffsetSpec::Last => Some(2),
        OffsetSpec::Next => Some(2),
        OffsetSpec::At(_) => Some(10),
        OffsetSpec::Since(_) => Some(10),
    }
}

impl Field for OffsetSpec {
    ghost format = { spec_field };

    fn read_field(_alloc: Global, scan: &mut Scan<'_>) -> Result<OffsetSpec, DecodeError> {
        Ok(OffsetSpec::read(scan)?)
    }

    fn put_field(&self, out: &mut Octets) -> Result<(), AllocError> {
        self.put(out)
    }

    fn field_size(&self) -> Option<u64> {
        size_of_spec(*self)
    }
}
