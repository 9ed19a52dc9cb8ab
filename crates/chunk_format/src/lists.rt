//! The first wrong item of a trailer, and of the body of a delta or a snapshot chunk.

ghost use Rattle.std.specs.Prelude.{◌≡◌, ◌<◌, ◌↔◌, List, length, IsTrue, MatchOption};
ghost use Rattle.chunk_format.specs.Tags.{Tag, SpellsTags, WrongTag, DeltaEntry, SpellsDelta, WrongDelta, SnapshotEntry, SpellsSnapshot, WrongSnapshot};

use crate::tracking::{split_delta, split_snapshot, split_tag};

fn same_name(one: &[u8], other: &[u8]) -> bool
    ensures { IsTrue result ↔ (one.now ≡ other.now) }
{
    one == other
}

/// The place of the first wrong tag of a trailer, or of the trailer's end where a tag is missing.
/// It gives `None` exactly where there is one tag for each of so many entries, all of one name.
pub fn wrong_tag(trailer: &[u8], entries: usize) -> Option<usize>
    requires { 0 < length trailer.now }
    ensures { MatchOption result ((tags : List Tag) × SpellsTags entries trailer.now tags) (λ place. WrongTag entries trailer.now place) }
{
    let Some((first, _)) = split_tag(trailer) else {
        return Some(0);
    };
    let mut at = 0;
    'tags: for _done in 0..entries {
        let Some((tag, len)) = split_tag(&trailer[at..]) else {
            return Some(at);
        };
        if !same_name(tag.name, first.name) {
            return Some(at);
        }
        at += len;
    }
    if at < trailer.len() {
        return Some(at);
    }
    None
}

/// The place of the first wrong byte of what should be one delta entry.
/// It gives `None` exactly where it is one.
pub fn wrong_delta(body: &[u8]) -> Option<usize>
    ensures { MatchOption result ((delta : DeltaEntry) × SpellsDelta body.now delta) (λ place. WrongDelta body.now place) }
{
    let Some((_, len)) = split_delta(body) else {
        return Some(0);
    };
    if len < body.len() {
        return Some(len);
    }
    None
}

/// The place of the first wrong entry of what should be a list of snapshot entries.
/// It gives `None` exactly where it is one.
pub fn wrong_snapshot(body: &[u8]) -> Option<usize>
    ensures { MatchOption result ((snapshot : List SnapshotEntry) × SpellsSnapshot body.now snapshot) (λ place. WrongSnapshot body.now place) }
{
    let mut at = 0;
    'entries: while at < body.len() {
        let Some((_, len)) = split_snapshot(&body[at..]) else {
            return Some(at);
        };
        at += len;
    }
    None
}
