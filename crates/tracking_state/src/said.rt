//! What a chunk says by name.

ghost use Rattle.std.specs.Prelude.{◌≡◌, ◌≤◌, ℕ, List, [], None, IsSomeAnd, IfSome};
ghost use Rattle.chunk_format.specs.Tags.{Tag, SpellsTags, DeltaEntry, SpellsDelta, IsSnapshot};
ghost use Rattle.chunk_format.specs.Parts.{snapshot_of};
ghost use Rattle.tracking_state.specs.Said.{AreOf, Says, SaysOf};

use crate::parts::{body_of_one, trailer_of};
use chunk_format::{
    ChunkKind, DeltaParts, SnapshotParts, Stored, TagParts, split_delta, split_tag,
};

/// The name of a trailer's tags, with the greatest of their ids.
fn newest_tag(trailer: &[u8]) -> Option<TagParts<'_>>
    ensures none { trailer.now ≡ [] → result ≡ None }
    ensures some { (n : ℕ) (tags : List Tag) → 1 ≤ n → SpellsTags n trailer.now tags → IsSomeAnd result (λ tag. AreOf tag.name.now tag.id tags) }
{
    let (first, len) = split_tag(trailer)?;
    let mut id = first.id;
    let mut at = len;
    'tags: while at < trailer.len() {
        let Some((tag, len)) = split_tag(&trailer[at..]) else {
            return None;
        };
        if id < tag.id {
            id = tag.id;
        }
        at += len;
    }
    Some(TagParts {
        name: first.name,
        id,
    })
}

/// What the one entry of a delta chunk says.
fn said_by_delta(body: &[u8]) -> Option<SnapshotParts<'_>>
    ensures { (delta : DeltaEntry) → SpellsDelta body.now delta → SaysOf delta result }
{
    match split_delta(body) {
        Some((DeltaParts::Offset { name, offset }, _)) => Some(SnapshotParts::Offset {
            name,
            offset,
        }),
        Some((DeltaParts::Sequence { name: _, id: _ }, _)) => None,
        None => None,
    }
}

/// What a chunk says by name: of a user chunk the greatest id of its publisher, of a delta chunk the offset that was
/// stored. It looks at each tag of the trailer once.
pub(crate) fn said_by(chunk: &Stored) -> Option<SnapshotParts<'_>>
    ensures says { Says chunk.now result }
    ensures right { IfSome result (λ item. IsSnapshot (snapshot_of item)) }
{
    let header = chunk.header();
    match header.kind {
        ChunkKind::User => {
            let tag = newest_tag(trailer_of(chunk))?;
            Some(SnapshotParts::Sequence {
                name: tag.name,
                first: header.first,
                id: tag.id,
            })
        }
        ChunkKind::Delta => said_by_delta(body_of_one(chunk)),
        ChunkKind::Snapshot => None,
    }
}
