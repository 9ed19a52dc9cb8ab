//! An entry, and a header, each as one field of a command.

ghost use Rattle.frame_wire.specs.Laws.{Lawful};
ghost use Rattle.chunk_format.specs.ChunkFields.{FindsEntry, FindsHeader, ReadsHeader, entry_field, header_field};

use crate::chunk::Header;
use crate::decode::own_entry;
use crate::entry::{Entry, put_entry};
use crate::split::{EntryParts, split_entry};
use frame_wire::{FieldFault, Item, Octets, ReadError, Scan};
use std::alloc::{AllocError, Global};

/// The entry at the front of bytes that begin at this place, and the length of its field.
fn first_entry(bytes: &[u8], place: usize) -> Result<(EntryParts<'_>, usize), FieldFault>
    ensures { FindsEntry result (record { at = place; rest = bytes.now }) }
{
    match split_entry(bytes) {
        Some((parts, len)) => Ok((parts, len)),
        None => Err(FieldFault::Short { place }),
    }
}

impl Item for Entry {
    ghost format = { entry_field };

    fn read(alloc: Global, scan: &mut Scan<'_>) -> Result<Entry, ReadError> {
        let (parts, len) = first_entry(scan.rest(), scan.place())?;
        scan.advance(len);
        match own_entry(alloc, parts) {
            Ok(entry) => Ok(entry),
            Err(_) => Err(ReadError::Memory),
        }
    }

    fn put(&self, out: &mut Octets) -> Result<(), AllocError> {
        put_entry(out, self)
    }
}

/// Why no header stands at a place of a command.
#[derive(Clone, Copy, Debug, PartialEq, Eq)]
pub enum HeaderFault {
    /// Fewer than 48 bytes are left.
    NotWhole { place: usize },
    /// The magic, the version, the kind or the reserved bytes are wrong.
    Wrong { place: usize },
}

/// The header at the front of bytes that begin at this place.
fn first_header(bytes: &[u8], place: usize) -> Result<Header, HeaderFault>
    ensures { FindsHeader result (record { at = place; rest = bytes.now }) }
{
    if bytes.len() < 48 {
        return Err(HeaderFault::NotWhole { place });
    }
    match Header::read(bytes) {
        Ok(header) => Ok(header),
        Err(_) => Err(HeaderFault::Wrong { place }),
    }
}

/// Reads the 48 bytes of a header as one field: each fault names its first byte. After a fault the scan stands where it
/// stood. The checksum is not looked at.
pub fn read_header(scan: &mut Scan<'_>) -> Result<Header, HeaderFault>
    ensures { ReadsHeader result scan.old scan.new }
{
    let header = first_header(scan.rest(), scan.place())?;
    scan.advance(48);
    Ok(header)
}

/// What is read of an entry or a header stood there spelled, what is spelled is read again whatever follows it, and
/// reading fails exactly where none stands, in the way that the fault names. It does nothing.
pub fn chunk_fields_are_lawful()
    ensures entry { Lawful entry_field }
    ensures header { Lawful header_field }
{}
