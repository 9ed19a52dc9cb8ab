//! A chunk that was checked and is read in place.

ghost use Rattle.std.specs.Prelude.{◌≡◌, ◌+◌, ◌^◌, ◌<◌, ◌++◌, ℕ, map, take, drop, length, slice_get, MatchResult, IsSomeAnd};
ghost use Rattle.std.specs.List.{filter, flat_map};
ghost use Rattle.chunk_format.specs.declared.chunk.Chunk.{Chunk};
ghost use Rattle.chunk_format.specs.declared.chunk.ChunkKind.TheVariants.{User};
ghost use Rattle.chunk_format.specs.Chunks.{entries_bytes, header_bytes, header_of, chunk_bytes, ChunkSpells};
ghost use Rattle.chunk_format.specs.Faults.{whole_len, payload_of, trailer_of, ChunkWrong, BeginsWith};
ghost use Rattle.chunk_format.specs.LogRows.{chunk_rows};
ghost use Rattle.chunk_view.specs.Shown.{EntryShown, shown, shown_entries, shown_row, shown_by, entry_place, entry_offset, head_len, StandsAt, ends_above};

use crate::entries::EntryViews;
use crate::entry::EntryView;
use chunk_format::{ChunkFault, Header, Stored, check_chunk};
use std::marker::Model;

/// The bytes of one chunk that passed all checks, seen as that chunk: a header of 48 bytes, the
/// payload, which is the entries one after the other, and the trailer. No call takes memory, and
/// all slices that it gives are of the bytes that were opened.
#[derive(Debug, Drop)]
pub struct ChunkView<'a> {
    header: Header,
    bytes: &'a [u8],
}

impl<'a> Model for ChunkView<'a> {
    ghost use Rattle.chunk_format.specs.declared.chunk.Chunk.{Chunk};
    ghost use Rattle.chunk_format.specs.ReadBack.{chunk_at, IsViewed};

    ghost Value = { Chunk };

    ghost view = { λ s. chunk_at s.header s.bytes.now };

    ghost invariant = { λ s. IsViewed s.header s.bytes.now };
}

/// The view of the chunk with which the bytes begin, or the first check that fails.
fn checked_view(bytes: &[u8]) -> Result<ChunkView<'_>, ChunkFault>
    ensures { MatchResult result (λ view. (used : ℕ) × BeginsWith view used bytes.now) (λ fault. ChunkWrong bytes.now fault) }
{
    match check_chunk(bytes) {
        Ok(header) => {
            let end = 48 + header.payload_len as usize + header.trailer_len as usize;
            Ok(ChunkView {
                header,
                bytes: &bytes[..end],
            })
        }
        Err(fault) => Err(fault),
    }
}

/// The payload and the trailer behind a header, of all bytes of a chunk.
fn parts_behind<'a>(header: &Header, bytes: &'a [u8]) -> (&'a [u8], &'a [u8])
    requires { length bytes.now ≡ whole_len header.now }
    ensures payload { result.0.now ≡ payload_of header.now bytes.now }
    ensures trailer { result.1.now ≡ trailer_of header.now bytes.now }
{
    let payload_end = 48 + header.payload_len as usize;
    let payload = &bytes[48..payload_end];
    let trailer = &bytes[payload_end..];
    (payload, trailer)
}

/// What stands before the trailer, of all bytes of a chunk.
fn before_trailer<'a>(header: &Header, bytes: &'a [u8]) -> &'a [u8]
    requires { length bytes.now ≡ whole_len header.now }
    ensures { result.now ≡ take (48 + header.now.payload_len) bytes.now }
{
    &bytes[..48 + header.payload_len as usize]
}

impl<'a> ChunkView<'a> {
    /// Checks whether the bytes begin with a chunk, and gives its view. Bytes after the chunk are
    /// left, and are no part of the view. It refuses exactly with the first check that fails, at
    /// its place, as `decode_chunk` does, and never where the bytes begin with a chunk. It reads
    /// all bytes of the chunk, for the checksum.
    pub fn open(bytes: &'a [u8]) -> Result<ChunkView<'a>, ChunkFault>
        ensures found { MatchResult result (λ view. (used : ℕ) × BeginsWith view used bytes.now) (λ fault. ChunkWrong bytes.now fault) }
        ensures only { (c : Chunk) (used : ℕ) → BeginsWith c used bytes.now → MatchResult result (λ view. view ≡ c) (λ fault. ⊥) }
        ensures told { (fault : ChunkFault) → ChunkWrong bytes.now fault → result ≡ Err fault }
    {
        checked_view(bytes)
    }

    /// The view of a stored chunk, which was checked before.
    pub fn of_stored(stored: &'a Stored) -> ChunkView<'a>
        ensures { result ≡ stored.now }
    {
        ChunkView {
            header: *stored.header(),
            bytes: stored.bytes(),
        }
    }

    /// The 48 bytes before the payload, as numbers.
    pub fn header(&self) -> Header
        ensures { result ≡ header_of self.now }
    {
        self.header
    }

    /// All bytes of the chunk: header, payload and trailer.
    pub fn bytes(&self) -> &'a [u8]
        ensures { ChunkSpells self.now result.now }
    {
        self.bytes
    }

    /// The header and the payload, without the trailer, as a delivery has them.
    pub fn delivery(&self) -> &'a [u8]
        ensures { result.now ≡ header_bytes (header_of self.now) ++ entries_bytes self.now.entries }
    {
        before_trailer(&self.header, self.bytes)
    }

    /// The bytes of the entries, one after the other.
    pub fn payload(&self) -> &'a [u8]
        ensures { result.now ≡ entries_bytes self.now.entries }
    {
        parts_behind(&self.header, self.bytes).0
    }

    /// The bytes after the payload.
    pub fn trailer(&self) -> &'a [u8]
        ensures { result.now ≡ self.now.trailer }
    {
        parts_behind(&self.header, self.bytes).1
    }

    /// The entries in order. Their spellings follow each other and are the payload.
    pub fn entries(&self) -> EntryViews<'a>
        ensures shown { result ≡ shown_entries self.now }
        ensures places { (k : ℕ) (entry : EntryShown) → slice_get result k ≡ Some entry → StandsAt (chunk_bytes self.now) (entry_place self.now k) entry.spelling }
        ensures cover { flat_map (λ entry. entry.spelling) result ≡ entries_bytes self.now.entries }
        ensures rows { self.now.kind ≡ User → result ≡ map shown_row (chunk_rows self.now) }
        ensures few { length result < 2 ^ 16 }
    {
        EntryViews {
            bytes: self.payload(),
            first: self.header.first,
            left: self.header.entries,
        }
    }

    /// The entry with this number, from 0 on. It passes over the entries before it. The entry
    /// stands behind the header and the entries before it, and its body behind its first 4 bytes,
    /// or 11 of a sub-batch.
    pub fn entry(&self, k: u16) -> EntryView<'a>
        requires { k < length self.now.entries }
        ensures shown { slice_get (shown_entries self.now) k ≡ Some (shown_by result) }
        ensures entry { IsSomeAnd (slice_get self.now.entries k) (λ entry. shown_by result ≡ shown (entry_offset self.now k) entry) }
        ensures place { StandsAt (chunk_bytes self.now) (entry_place self.now k) result.spelling.now }
        ensures body { IsSomeAnd (slice_get self.now.entries k) (λ entry. StandsAt (chunk_bytes self.now) (entry_place self.now k + head_len entry) result.body.now) }
        ensures row { self.now.kind ≡ User → IsSomeAnd (slice_get (chunk_rows self.now) k) (λ row. shown_by result ≡ shown_row row) }
    {
        let mut views = self.entries();
        'entries: for _done in 0..k {
            let _ = views.next();
        }
        let Some(view) = views.front() else {
            unreachable!()
        };
        view
    }

    /// The entries that take this offset or one above it: the last ones of the chunk, or none. An
    /// entry that takes the offset is given whole. It passes over the entries before them.
    pub fn from_offset(&self, offset: u64) -> EntryViews<'a>
        ensures above { result ≡ filter (ends_above offset) (shown_entries self.now) }
        ensures suffix { (k : ℕ) × (result ≡ drop k (shown_entries self.now)) }
        ensures few { length result < 2 ^ 16 }
    {
        let mut views = self.entries();
        'entries: while let Some(view) = views.front() {
            let end = view.first + u64::from(view.records);
            if offset < end {
                break;
            }
            let _ = views.next();
        }
        views
    }
}
