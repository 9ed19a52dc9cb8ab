//! Writes tags and tracking entries.

ghost use Rattle.std.specs.Prelude.{◌≡◌, ◌++◌, ◌<◌, ◌^◌, length, take, OnOk, OnErr};
ghost use Rattle.chunk_format.specs.Tags.{IsName, named_bytes, tag_bytes, IsTag, delta_bytes, IsDelta, snapshot_bytes, IsSnapshot};
ghost use Rattle.chunk_format.specs.Parts.{tag_of, delta_of, snapshot_of};

use crate::tracking::{DeltaParts, SnapshotParts, TagParts};
use frame_wire::{Octets, put_u8, put_u64};
use std::alloc::AllocError;

/// A type, the length of a name and the name, or a part of it where memory runs out.
fn put_named(out: &mut Octets, kind: u8, name: &[u8]) -> Result<(), AllocError>
    requires { IsName name.now }
    ensures ok { OnOk result (out.new ≡ out.old ++ named_bytes kind name.now) }
    ensures err { OnErr result (take (length out.old) out.new ≡ out.old) }
{
    put_u8(out, kind)?;
    put_u8(out, name.len() as u8)?;
    out.push_slice(name)
}

fn put_delta_parts(out: &mut Octets, parts: DeltaParts<'_>) -> Result<(), AllocError>
    requires { IsDelta (delta_of parts) }
    ensures ok { OnOk result (out.new ≡ out.old ++ delta_bytes (delta_of parts.entry)) }
    ensures err { OnErr result (take (length out.old) out.new ≡ out.old) }
{
    match parts {
        DeltaParts::Sequence { name, id } => {
            put_named(out, 0, name)?;
            put_u64(out, id)
        }
        DeltaParts::Offset { name, offset } => {
            put_named(out, 1, name)?;
            put_u64(out, offset)
        }
    }
}

fn put_snapshot_parts(out: &mut Octets, parts: SnapshotParts<'_>) -> Result<(), AllocError>
    requires { IsSnapshot (snapshot_of parts) }
    ensures ok { OnOk result (out.new ≡ out.old ++ snapshot_bytes (snapshot_of parts.entry)) }
    ensures err { OnErr result (take (length out.old) out.new ≡ out.old) }
{
    match parts {
        SnapshotParts::Sequence { name, first, id } => {
            put_named(out, 0, name)?;
            put_u64(out, first)?;
            put_u64(out, id)
        }
        SnapshotParts::Offset { name, offset } => {
            put_named(out, 1, name)?;
            put_u64(out, offset)
        }
    }
}

/// Writes a delta entry behind the bytes. Where memory runs out they stay as they were.
pub fn put_delta(out: &mut Octets, parts: DeltaParts<'_>) -> Result<(), AllocError>
    requires { IsDelta (delta_of parts) }
    ensures ok { OnOk result (out.new ≡ out.old ++ delta_bytes (delta_of parts.entry)) }
    ensures err { OnErr result (out.new ≡ out.old) }
{
    let before = out.len();
    match put_delta_parts(out, parts) {
        Ok(()) => Ok(()),
        Err(refused) => {
            out.cut(before);
            Err(refused)
        }
    }
}

/// Writes a snapshot entry behind the bytes. Where memory runs out they stay as they were.
pub fn put_snapshot(out: &mut Octets, parts: SnapshotParts<'_>) -> Result<(), AllocError>
    requires { IsSnapshot (snapshot_of parts) }
    ensures ok { OnOk result (out.new ≡ out.old ++ snapshot_bytes (snapshot_of parts.entry)) }
    ensures err { OnErr result (out.new ≡ out.old) }
{
    let before = out.len();
    match put_snapshot_parts(out, parts) {
        Ok(()) => Ok(()),
        Err(refused) => {
            out.cut(before);
            Err(refused)
        }
    }
}

/// Writes a tag behind the bytes. Where memory runs out they stay as they were.
pub fn put_tag(out: &mut Octets, tag: TagParts<'_>) -> Result<(), AllocError>
    requires { IsTag (tag_of tag) }
    ensures ok { OnOk result (out.new ≡ out.old ++ tag_bytes (tag_of tag.entry)) }
    ensures err { OnErr result (out.new ≡ out.old) }
{
    let parts = DeltaParts::Sequence {
        name: tag.name,
        id: tag.id,
    };
    put_delta(out, parts)
}
