//! Splits entries off the front of bytes.

ghost use Rattle.std.specs.Prelude.{◌≡◌, ◌<◌, ◌≤◌, length, slice_index};
ghost use Rattle.chunk_format.specs.Chunks.{entry_bytes, entry_records, IsEntry};
ghost use Rattle.chunk_format.specs.Items.{Splits};
ghost use Rattle.chunk_format.specs.Parts.{entry_of};

use crate::fields::{u16_at, u32_at};

/// An entry whose body is a slice of the bytes that it stands in.
#[derive(Clone, Copy, Debug)]
pub enum EntryParts<'a> {
    /// One message.
    Simple(&'a [u8]),
    /// A sub-batch.
    Batch {
        /// At most 7.
        compression: u8,
        /// At most 15.
        spare: u8,
        /// How many messages the body holds.
        records: u16,
        /// The length of the body before compression, in bytes.
        uncompressed: u32,
        body: &'a [u8],
    },
}

impl EntryParts<'_> {
    /// How many offsets the entry takes.
    pub fn records(&self) -> u16
        ensures { result ≡ entry_records (entry_of self.now) }
    {
        match self {
            EntryParts::Simple(_) => 1,
            EntryParts::Batch {
                compression: _,
                spare: _,
                records,
                uncompressed: _,
                body: _,
            } => *records,
        }
    }
}

fn split_simple(bytes: &[u8]) -> Option<(EntryParts<'_>, usize)>
    requires some { 1 ≤ length bytes.now }
    requires first { slice_index bytes.now 0 < 128 }
    ensures { Splits entry_bytes IsEntry entry_of bytes.now result }
{
    if bytes.len() < 4 {
        return None;
    }
    let len = u32_at(bytes, 0) as usize;
    if bytes.len() - 4 < len {
        return None;
    }
    let body = &bytes[4..4 + len];
    Some((EntryParts::Simple(body), 4 + len))
}

fn split_batch(bytes: &[u8]) -> Option<(EntryParts<'_>, usize)>
    requires some { 1 ≤ length bytes.now }
    requires first { 128 ≤ slice_index bytes.now 0 }
    ensures { Splits entry_bytes IsEntry entry_of bytes.now result }
{
    if bytes.len() < 11 {
        return None;
    }
    let code = bytes[0];
    let records = u16_at(bytes, 1);
    let uncompressed = u32_at(bytes, 3);
    let len = u32_at(bytes, 7) as usize;
    if bytes.len() - 11 < len {
        return None;
    }
    let body = &bytes[11..11 + len];
    let parts = EntryParts::Batch {
        compression: (code - 128) / 16,
        spare: code % 16,
        records,
        uncompressed,
        body,
    };
    Some((parts, 11 + len))
}

/// Splits an entry off the front of the bytes, with its length in bytes.
/// It gives `None` exactly where no whole entry stands there.
pub fn split_entry(bytes: &[u8]) -> Option<(EntryParts<'_>, usize)>
    ensures { Splits entry_bytes IsEntry entry_of bytes.now result }
{
    if bytes.is_empty() {
        return None;
    }
    if bytes[0] < 128 {
        split_simple(bytes)
    } else {
        split_batch(bytes)
    }
}
