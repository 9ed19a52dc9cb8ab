//! Tags of user chunks, and the entries of delta and snapshot chunks.

ghost use Rattle.std.specs.Prelude.{◌≡◌, ◌<◌, ◌≤◌, length};
ghost use Rattle.chunk_format.specs.Items.{Splits};
ghost use Rattle.chunk_format.specs.Tags.{tag_bytes, IsTag, delta_bytes, IsDelta, snapshot_bytes, IsSnapshot};
ghost use Rattle.chunk_format.specs.Parts.{tag_of, delta_of, snapshot_of};
ghost use Rattle.chunk_format.specs.Named.{NamedFront, NameStands};

use crate::fields::u64_at;

/// The tag of an entry of a user chunk.
#[derive(Clone, Copy, Debug)]
pub struct TagParts<'a> {
    /// The publisher's name, of 1 to 255 bytes.
    pub name: &'a [u8],
    /// The id that the publisher gave the entry.
    pub id: u64,
}

/// What the entry of a delta chunk says of a name of 1 to 255 bytes.
#[derive(Clone, Copy, Debug)]
pub enum DeltaParts<'a> {
    /// An id that a publisher gave.
    Sequence { name: &'a [u8], id: u64 },
    /// An offset that a consumer stored.
    Offset { name: &'a [u8], offset: u64 },
}

/// What a snapshot says of a name of 1 to 255 bytes.
#[derive(Clone, Copy, Debug)]
pub enum SnapshotParts<'a> {
    /// The greatest id of a publisher, and the first offset of the chunk in which it stands.
    Sequence { name: &'a [u8], first: u64, id: u64 },
    /// The last offset that a consumer stored.
    Offset { name: &'a [u8], offset: u64 },
}

/// A type and a name at the front of bytes.
#[derive(Clone, Copy)]
pub struct NamedParts<'a> {
    pub kind: u8,
    pub name: &'a [u8],
}

fn named_front(bytes: &[u8]) -> Option<NamedParts<'_>>
    ensures { NamedFront bytes.now result }
{
    if bytes.len() < 2 {
        return None;
    }
    let len = bytes[1] as usize;
    if len == 0 {
        return None;
    }
    if bytes.len() - 2 < len {
        return None;
    }
    Some(NamedParts {
        kind: bytes[0],
        name: &bytes[2..2 + len],
    })
}

/// Splits a delta entry off the front of the bytes, with its length in bytes.
/// It gives `None` exactly where no whole delta entry stands there.
pub fn split_delta(bytes: &[u8]) -> Option<(DeltaParts<'_>, usize)>
    ensures { Splits delta_bytes IsDelta delta_of bytes.now result }
{
    let named = named_front(bytes)?;
    let name = named.name;
    let at = 2 + name.len();
    if bytes.len() - at < 8 {
        return None;
    }
    let value = u64_at(bytes, at);
    match named.kind {
        0 => Some((DeltaParts::Sequence { name, id: value }, at + 8)),
        1 => Some((
            DeltaParts::Offset {
                name,
                offset: value,
            },
            at + 8,
        )),
        _ => None,
    }
}

/// The numbers of a sequence behind its name.
fn split_sequence<'a>(bytes: &'a [u8], name: &'a [u8]) -> Option<(SnapshotParts<'a>, usize)>
    requires { NameStands 0 name.now bytes.now }
    ensures { Splits snapshot_bytes IsSnapshot snapshot_of bytes.now result }
{
    let at = 2 + name.len();
    if bytes.len() - at < 16 {
        return None;
    }
    let first = u64_at(bytes, at);
    let id = u64_at(bytes, at + 8);
    Some((SnapshotParts::Sequence { name, first, id }, at + 16))
}

/// The number of an offset behind its name.
fn split_offset<'a>(bytes: &'a [u8], name: &'a [u8]) -> Option<(SnapshotParts<'a>, usize)>
    requires { NameStands 1 name.now bytes.now }
    ensures { Splits snapshot_bytes IsSnapshot snapshot_of bytes.now result }
{
    let at = 2 + name.len();
    if bytes.len() - at < 8 {
        return None;
    }
    let offset = u64_at(bytes, at);
    Some((SnapshotParts::Offset { name, offset }, at + 8))
}

/// Splits a snapshot entry off the front of the bytes, with its length in bytes.
/// It gives `None` exactly where no whole snapshot entry stands there.
pub fn split_snapshot(bytes: &[u8]) -> Option<(SnapshotParts<'_>, usize)>
    ensures { Splits snapshot_bytes IsSnapshot snapshot_of bytes.now result }
{
    let named = named_front(bytes)?;
    match named.kind {
        0 => split_sequence(bytes, named.name),
        1 => split_offset(bytes, named.name),
        _ => None,
    }
}

/// Splits a tag off the front of the bytes, with its length in bytes.
/// It gives `None` exactly where no whole tag stands there.
pub fn split_tag(bytes: &[u8]) -> Option<(TagParts<'_>, usize)>
    ensures { Splits tag_bytes IsTag tag_of bytes.now result }
{
    match split_delta(bytes) {
        Some((DeltaParts::Sequence { name, id }, len)) => Some((TagParts { name, id }, len)),
        Some((DeltaParts::Offset { name: _, offset: _ }, _)) => None,
        None => None,
    }
}
