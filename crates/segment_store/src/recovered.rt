//! What recovery gives of a member.

ghost use Rattle.std.specs.Prelude.{◌≡◌, IfOk};

use crate::member_store::MemberStore;
use chunk_format::Stored;
use frame_wire::Row;
use std::alloc::{AllocError, Global};

/// What stands on the disk of a member of a stream.
#[derive(Drop)]
pub struct Recovered {
    /// The member's number.
    pub member: u8,
    /// The epoch that it promised last, 0 where it promised none.
    pub promise: u64,
    /// The chunks of its log.
    pub chunks: Row<Stored>,
}

/// A store that was recovered, and what it has.
#[derive(Drop)]
pub struct Recovery {
    /// The store, which the disk stands behind.
    pub store: MemberStore,
    /// What it has.
    pub recovered: Recovered,
}

/// A row of these chunks, whose bytes are shared.
pub(crate) fn shares_of(alloc: Global, chunks: &[Stored]) -> Result<Row<Stored>, AllocError>
    ensures { IfOk result (λ row. row ≡ chunks.now) }
{
    let mut row = Row::new(alloc);
    for chunk in chunks {
        let shared = chunk.share()?;
        if row.push(shared).is_err() {
            return Err(AllocError);
        }
    }
    Ok(row)
}
