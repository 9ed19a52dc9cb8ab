//! One entry of a chunk as slices.

ghost use Rattle.std.specs.Prelude.{◌≡◌};
ghost use Rattle.chunk_format.specs.Parts.{entry_of};
ghost use Rattle.chunk_format.specs.ReadBack.{first_entry, BeginsEntry};
ghost use Rattle.chunk_view.specs.Shown.{entry_body, shown, shown_by};

use chunk_format::{EntryParts, split_entry};

/// An entry of a chunk, whose spelling and body are slices of the chunk's bytes.
#[derive(Clone, Copy, Debug)]
pub struct EntryView<'a> {
    /// The offset of the entry's first record.
    pub first: u64,
    /// How many offsets the entry takes: one of a message, 1 to 65,535 of a sub-batch.
    pub records: u32,
    /// All bytes of the entry: 4 bytes of a message or 11 of a sub-batch, and the body.
    pub spelling: &'a [u8],
    /// The bytes of the message, or those of the sub-batch, which nobody has unpacked.
    pub body: &'a [u8],
}

fn body_of<'a>(parts: EntryParts<'a>) -> &'a [u8]
    ensures { result.now ≡ entry_body (entry_of parts.entry) }
{
    match parts {
        EntryParts::Simple(body) => body,
        EntryParts::Batch {
            compression: _,
            spare: _,
            records: _,
            uncompressed: _,
            body,
        } => body,
    }
}

/// The entry at the front of the bytes, which begin with one.
pub(crate) fn first_view(bytes: &[u8], first: u64) -> EntryView<'_>
    requires { BeginsEntry bytes.now }
    ensures { shown_by result ≡ shown first (first_entry bytes.now) }
{
    let Some((parts, len)) = split_entry(bytes) else {
        unreachable!()
    };
    EntryView {
        first,
        records: u32::from(parts.records()),
        spelling: &bytes[..len],
        body: body_of(parts),
    }
}
