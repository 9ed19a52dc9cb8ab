//! The trailer and the one entry of a stored chunk, as slices of its bytes.

ghost use Rattle.std.specs.Prelude.{◌≡◌, List, ℕ, length};
ghost use Rattle.chunk_format.specs.Chunks.{IsOneSimple, entries_bytes};
ghost use Rattle.chunk_format.specs.Faults.{SpellsEntries, whole_len, payload_of, trailer_of};
ghost use Rattle.chunk_format.specs.declared.entry.Entry.{Entry};

use chunk_format::{EntryParts, Header, Stored, split_entry};

/// The payload and the trailer behind a header, of all bytes of a chunk.
fn parts_behind<'a>(header: &Header, bytes: &'a [u8]) -> (&'a [u8], &'a [u8])
    requires { length bytes.now ≡ whole_len header.now }
    ensures payload { result.0.now ≡ payload_of header.now bytes.now }
    ensures trailer { result.1.now ≡ trailer_of header.now bytes.now }
{
    let payload_end = 48 + header.payload_len as usize;
    let payload = &bytes[48..payload_end];
    let trailer = &bytes[payload_end..];
    (payload, trailer)
}

/// The payload and the trailer of a chunk.
fn parts_of(chunk: &Stored) -> (&[u8], &[u8])
    ensures payload { result.0.now ≡ entries_bytes chunk.now.entries }
    ensures trailer { result.1.now ≡ chunk.now.trailer }
{
    parts_behind(chunk.header(), chunk.bytes())
}

/// The trailer of a chunk.
pub(crate) fn trailer_of(chunk: &Stored) -> &[u8]
    ensures { result.now ≡ chunk.now.trailer }
{
    parts_of(chunk).1
}

/// The body of the first entry of a payload.
fn first_body(payload: &[u8]) -> &[u8]
    ensures { (all : List Entry) (body : List ℕ) → SpellsEntries 1 payload.now all → IsOneSimple all body → result.now ≡ body }
{
    match split_entry(payload) {
        Some((EntryParts::Simple(body), _)) => body,
        Some(
            (
                EntryParts::Batch {
                    compression: _,
                    spare: _,
                    records: _,
                    uncompressed: _,
                    body,
                },
                _,
            ),
        ) => body,
        None => payload,
    }
}

/// The body of the entry of a chunk that has one, which is simple.
pub(crate) fn body_of_one(chunk: &Stored) -> &[u8]
    ensures { (body : List ℕ) → IsOneSimple chunk.now.entries body → result.now ≡ body }
{
    let _header = chunk.header();
    first_body(parts_of(chunk).0)
}
