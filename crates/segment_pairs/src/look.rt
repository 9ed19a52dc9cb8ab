//! Reading a segment and its index.

ghost use Rattle.std.specs.Prelude.{◌≡◌, ◌≤◌, ◌<◌, ◌+◌, ◌^◌, ◌++◌, ℕ, List, length, drop, IsTrue, ◌↔◌, IfOk, IfSome, Ok, None, true};
ghost use Rattle.disk_calls.specs.Disk.{HasCause, Looks};
ghost use Rattle.chunk_format.specs.Chunks.{end_of_chunk, IsChunk};
ghost use Rattle.segment_pairs.specs.Log.{begins, record_of, segment_header, index_header};
ghost use Rattle.segment_pairs.specs.Found.{Recorded, Tells, Reads, Sure, Shows, ShowsAt};

use crate::pair::{INDEX_HEADER, SEGMENT_HEADER, record_bytes};
use chunk_format::{ChunkError, ReadStored, Stored};
use disk_calls::{Disk, FileId, FileName, WholeFile, read_file};
use frame_wire::Row;
use std::alloc::{AllocError, Global};

fn same_bytes(one: &[u8], other: &[u8]) -> bool
    ensures { IsTrue result ↔ (one.now ≡ other.now) }
{
    one == other
}

// Whether an index goes on with the record of a chunk that begins at this offset.
fn is_recorded(place: u32, end: u64, idx: &[u8], chunk: &Stored) -> bool
    requires { 29 ≤ length idx.now }
    ensures { IsTrue result ↔ Recorded place end idx.now chunk.now }
{
    if chunk.header().first != end {
        return false;
    }
    same_bytes(&record_bytes(place, chunk), &idx[..29])
}

// The chunk of the next index record, where that matches.
fn match_here(
    alloc: Global,
    place: u64,
    end: u64,
    seg: &[u8],
    idx: &[u8],
) -> Result<Option<ReadStored>, AllocError>
    ensures { IfOk result (Tells place end seg.now idx.now) }
{
    if idx.len() < 29 {
        return Ok(None);
    }
    let Ok(at) = u32::try_from(place) else {
        return Ok(None);
    };
    match Stored::read(alloc, seg) {
        Err(ChunkError::Memory) => Err(AllocError),
        Err(ChunkError::Fault(_)) => Ok(None),
        Ok(read) => {
            if is_recorded(at, end, idx, &read.stored) {
                return Ok(Some(read));
            }
            Ok(None)
        }
    }
}

fn skip(bytes: &[u8], n: usize) -> &[u8]
    requires { n ≤ length bytes.now }
    ensures { result.now ≡ drop n bytes.now }
{
    &bytes[n..]
}

/// A segment and its index of which one has not its whole header, or is missing.
#[derive(Clone, Copy, Debug, PartialEq, Eq)]
pub struct Headless {
    /// Whether the segment has its header.
    pub segment_whole: bool,
    /// Whether the index has its header.
    pub index_whole: bool,
    /// The bytes of the segment.
    pub size: u64,
    /// The bytes of the index.
    pub index_size: u64,
}

/// A segment and its index that were read up to the first record that does not match.
#[derive(Debug, Drop)]
pub struct Walk {
    /// The chunks.
    pub chunks: Row<Stored>,
    /// Where the chunks end in the segment, in bytes.
    pub place: u64,
    /// Where their records end in the index, in bytes.
    pub index_place: u64,
    /// The first offset after them.
    pub end: u64,
    /// The bytes of the segment.
    pub size: u64,
    /// The bytes of the index.
    pub index_size: u64,
}

/// What came of a look at a segment and its index.
#[derive(Debug, Drop)]
pub enum Seen {
    /// The disk failed.
    Failed,
    /// There are no chunks, for want of a header.
    Headless(Headless),
    /// The chunks whose index records match.
    Chunks(Walk),
}

// The first offset after a chunk.
fn end_of(chunk: &Stored) -> u64
    ensures { result ≡ end_of_chunk chunk.now }
{
    let header = chunk.header();
    header.first + header.records as u64
}

// Whether bytes begin with a header.
fn has_header(header: &[u8; 8], bytes: &[u8]) -> bool
    ensures { result ≡ begins header.now bytes.now }
{
    if bytes.len() < 8 {
        return false;
    }
    same_bytes(header, &bytes[..8])
}

// Reads a segment and its index, which have their headers, up to the first record that does not match.
fn read_records(alloc: Global, number: u64, seg: &[u8], idx: &[u8]) -> Result<Walk, AllocError>
    requires segment { begins segment_header seg.now ≡ true }
    requires index { begins index_header idx.now ≡ true }
    ensures { IfOk result (λ w. Reads number seg.now idx.now w.place w.index_place w.end w.chunks w.size w.index_size) }
{
    let mut chunks = Row::new(alloc);
    let mut place = 8;
    let mut index_place = 8;
    let mut end = number;
    let mut rest = skip(seg, 8);
    let mut index_rest = skip(idx, 8);
    while let Some(read) = match_here(alloc, place, end, rest, index_rest)? {
        place += read.used as u64;
        index_place += 29;
        end = end_of(&read.stored);
        rest = skip(rest, read.used);
        index_rest = skip(index_rest, 29);
        if let Err(_) = chunks.push(read.stored) {
            return Err(AllocError);
        }
    }
    Ok(Walk {
        chunks,
        place,
        index_place,
        end,
        size: seg.len() as u64,
        index_size: idx.len() as u64,
    })
}

// Reads the bytes of a segment and of its index.
fn look(alloc: Global, number: u64, seg: &[u8], idx: &[u8]) -> Result<Seen, AllocError>
    ensures { IfOk result (Shows number seg.now idx.now) }
{
    let segment_whole = has_header(&SEGMENT_HEADER, seg);
    let index_whole = has_header(&INDEX_HEADER, idx);
    if segment_whole && index_whole {
        return Ok(Seen::Chunks(read_records(alloc, number, seg, idx)?));
    }
    Ok(Seen::Headless(Headless {
        segment_whole,
        index_whole,
        size: seg.len() as u64,
        index_size: idx.len() as u64,
    }))
}

// Reads a file that is on the disk, or will be once this call is done. One that is missing is empty; where the disk
// failed there is none.
fn load<D: Disk>(alloc: Global, disk: &mut D, id: FileId) -> Result<Option<Vec<u8>>, AllocError>
    ensures looks { Looks (D.state disk.old) (D.state disk.new) }
    ensures sure { D.tells → IfOk result (λ o. IfSome o (λ bytes. Sure id bytes.items (D.state disk.new))) }
    ensures cause { HasCause (result ≡ Ok None) (D.state disk.old) (D.state disk.new) }
{
    match read_file(alloc, disk, id)? {
        WholeFile::Bytes(bytes) => Ok(Some(bytes)),
        WholeFile::Missing => Ok(Some(Vec::new(alloc))),
        WholeFile::Failed => Ok(None),
    }
}

/// Reads a segment and its index, which are then on the disk, up to the first record that does not match. It needs
/// memory for the bytes of both and for the chunks. Its calls of the disk are for each file `size`, and `sync` and
/// `read` where it is there.
pub fn look_at<D: Disk>(
    alloc: Global,
    disk: &mut D,
    stream: u32,
    number: u64,
) -> Result<Seen, AllocError>
    ensures looks { Looks (D.state disk.old) (D.state disk.new) }
    ensures shows { D.tells → IfOk result (ShowsAt stream number (D.state disk.new)) }
    ensures cause { HasCause (result ≡ Ok Seen.Failed) (D.state disk.old) (D.state disk.new) }
{
    let segment = FileId {
        stream,
        file: FileName::Segment(number),
    };
    let index = FileId {
        stream,
        file: FileName::Index(number),
    };
    let Some(seg) = load(alloc, disk, segment)? else {
        return Ok(Seen::Failed);
    };
    let Some(idx) = load(alloc, disk, index)? else {
        return Ok(Seen::Failed);
    };
    look(alloc, number, &seg, &idx)
}
