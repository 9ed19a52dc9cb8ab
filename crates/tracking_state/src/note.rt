//! Notes of ids and of offsets.

ghost use Rattle.std.specs.Prelude.{◌≡◌, ◌+◌, IfOk, OnOk, OnErr};
ghost use Rattle.chunk_format.specs.Tags.{IsName};
ghost use Rattle.tracking_state.specs.Notes.{with_id, with_value, value_of, longer_by};

use crate::named::Named;
use std::alloc::AllocError;

/// The greatest id of a publisher.
#[derive(Clone, Copy, Debug, PartialEq, Eq)]
pub struct Latest {
    pub id: u64,
    /// The first offset of the first chunk that has it.
    pub first: u64,
}

/// A length with more bytes. More than 2^64 - 1 are more than memory holds.
fn longer(len: u64, by: usize) -> Result<u64, AllocError>
    ensures { IfOk result (λ n. n ≡ len + by) }
{
    len.checked_add(by as u64).ok_or(AllocError)
}

/// Notes an id of a publisher, where it is above the greatest. The length is that of a snapshot, in bytes. Where memory
/// runs out nothing changes.
pub(crate) fn note_id(
    references: &mut Named<Latest>,
    len: &mut u64,
    name: &[u8],
    latest: Latest,
) -> Result<(), AllocError>
    requires { IsName name.now }
    ensures ok { OnOk result (references.new ≡ with_id (value_of name.now references.old) name.now latest references.old) }
    ensures len { OnOk result (len.new ≡ len.old + longer_by (value_of name.now references.old) 18 name.now) }
    ensures err { OnErr result ((references.new ≡ references.old) × (len.new ≡ len.old)) }
{
    let Some(before) = references.get(name) else {
        let more = longer(*len, 18 + name.len())?;
        references.put(name, latest)?;
        *len = more;
        return Ok(());
    };
    if before.id < latest.id {
        return references.put(name, latest);
    }
    Ok(())
}

/// Notes an offset that a consumer stored. The length is that of a snapshot, in bytes. Where memory runs out nothing
/// changes.
pub(crate) fn note_offset(
    consumers: &mut Named<u64>,
    len: &mut u64,
    name: &[u8],
    offset: u64,
) -> Result<(), AllocError>
    requires { IsName name.now }
    ensures ok { OnOk result (consumers.new ≡ with_value name.now offset consumers.old) }
    ensures len { OnOk result (len.new ≡ len.old + longer_by (value_of name.now consumers.old) 10 name.now) }
    ensures err { OnErr result ((consumers.new ≡ consumers.old) × (len.new ≡ len.old)) }
{
    let mut more = *len;
    if consumers.get(name).is_none() {
        more = longer(*len, 10 + name.len())?;
    }
    consumers.put(name, offset)?;
    *len = more;
    Ok(())
}
