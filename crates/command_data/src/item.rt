//! What stands in the lists of commands.

ghost use Rattle.frame_wire.specs.Formats.{u16_field, u64_field};
ghost use Rattle.frame_wire.specs.Joins.{◌then◌};
ghost use Rattle.chunk_format.specs.ChunkFields.{entry_field};
ghost use Rattle.chunk_format.specs.declared.entry.Entry.TheVariants as entries;
ghost use Rattle.command_fields.specs.Sizes.{Measures};

use chunk_format::{Entry, put_entry};
use command_fields::{GREATEST_BODY, Measured};
use frame_wire::{Item, Octets, ReadError, Scan, put_u16, put_u64};
use std::alloc::{AllocError, Global};

/// An entry with its publishing id.
#[derive(Debug, Drop)]
pub struct Tagged {
    pub id: u64,
    pub entry: Entry,
}

/// A publishing id that is refused, with the response code.
#[derive(Clone, Copy, Debug, PartialEq, Eq)]
pub struct Refusal {
    pub id: u64,
    pub code: u16,
}

impl Item for Tagged {
    ghost use Rattle.command_data.specs.Items.{tagged_field};

    ghost format = { tagged_field };

    fn read(alloc: Global, scan: &mut Scan<'_>) -> Result<Tagged, ReadError> {
        let id = scan.u64()?;
        let entry = Entry::read(alloc, scan)?;
        Ok(Tagged { id, entry })
    }

    fn put(&self, out: &mut Octets) -> Result<(), AllocError> {
        put_u64(out, self.id)?;
        put_entry(out, &self.entry)
    }
}

impl Item for Refusal {
    ghost use Rattle.command_data.specs.Items.{refusal_field};

    ghost format = { refusal_field };

    fn read(_alloc: Global, scan: &mut Scan<'_>) -> Result<Refusal, ReadError> {
        let id = scan.u64()?;
        let code = scan.u16()?;
        Ok(Refusal { id, code })
    }

    fn put(&self, out: &mut Octets) -> Result<(), AllocError> {
        put_u64(out, self.id)?;
        put_u16(out, self.code)
    }
}

/// The number of bytes of a sub-batch, as `Measured::size` gives it.
#[tactic(auto, using(chunk_format::proofs::Sizes::batch_length))]
fn batch_size(
    compression: u8,
    spare: u8,
    records: u16,
    uncompressed: u32,
    body: &Octets,
) -> Option<u64>
    ensures { Measures entry_field (entries.Batch compression spare records uncompressed body.now) result }
{
    let len = body.as_slice().len() as u64;
    if compression > 7 || spare > 15 || 11 + len > GREATEST_BODY {
        return None;
    }
    Some(11 + len)
}

/// The number of bytes of an entry, as `Measured::size` gives it.
#[tactic(auto, using(chunk_format::proofs::Sizes::simple_length))]
fn entry_size(entry: &Entry) -> Option<u64>
    ensures { Measures entry_field entry.now result }
{
    match entry {
        Entry::Simple(body) => {
            let len = body.as_slice().len() as u64;
            if len > 2_147_483_647 {
                return None;
            }
            Some(4 + len)
        }
        Entry::Batch {
            compression,
            spare,
            records,
            uncompressed,
            body,
        } => batch_size(*compression, *spare, *records, *uncompressed, body),
    }
}

/// The number of bytes of a publishing id and an entry of so many.
#[tactic(auto, using(command_fields::proofs::SizeLaws::lengths))]
fn size_of_tagged(id: u64, entry: &Entry) -> Option<u64>
    ensures { Measures (u64_field then entry_field) (id, entry.now) result }
{
    let Some(size) = entry_size(entry) else {
        return None;
    };
    if size > GREATEST_BODY - 8 {
        return None;
    }
    Some(8 + size)
}

/// The ten bytes of a publishing id and a code.
#[tactic(auto, using(command_fields::proofs::SizeLaws::lengths))]
fn size_of_refusal(id: u64, code: u16) -> Option<u64>
    ensures { Measures (u64_field then u16_field) (id, code) result }
{
    Some(10)
}

impl Measured for Tagged {
    fn size(&self) -> Option<u64> {
        size_of_tagged(self.id, &self.entry)
    }
}

impl Measured for Refusal {
    fn size(&self) -> Option<u64> {
        size_of_refusal(self.id, self.code)
    }
}
