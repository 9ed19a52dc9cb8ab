//! A segment and its index, looked at record by record.

ghost use Rattle.std.specs.Prelude.{◌≡◌, ◌⊎◌, ◌+◌, ◌-◌, ◌/◌, ◌<◌, ◌≤◌, ◌^◌, ◌++◌, ℕ, List, [], length, take, drop, Option, None, false, true, Ok, Err, IsTrue, ◌↔◌, IfOk, IfErr, if◌then◌else◌};
ghost use Rattle.outside_io.specs.Causes.{HasCause};
ghost use Rattle.segment_pairs.specs.Log.{record_of};
ghost use Rattle.osiris_audit.specs.Windows.{TakesHeader};
ghost use Rattle.osiris_audit.specs.Fronts.{MayBegin};
ghost use Rattle.osiris_audit.specs.Inspecting.{status_of, fault_status, last_line};
ghost use Rattle.osiris_audit.specs.Writing.{Closes};
ghost use Rattle.osiris_audit.specs.Steps.{LooksOr, Finds};

use crate::front::{Front, chunk_in_front};
use crate::lines::{last_text, put_chunk_lines};
use crate::window::{Fault, Window};
use chunk_format::index_record;
use chunk_view::ChunkView;
use frame_wire::Octets;
use outside_io::{Gave, Sink, Source};
use std::alloc::{AllocError, Global};

/// What a segment begins with.
pub const SEGMENT_HEADER: [u8; 8] = [b'O', b'S', b'I', b'L', 0, 0, 0, 1];

/// What an index begins with.
pub const INDEX_HEADER: [u8; 8] = [b'O', b'S', b'I', b'I', 0, 0, 0, 1];

/// The bytes of a record.
pub(crate) const RECORD: usize = 29;

/// What stands where the next chunk is to be.
#[derive(Clone, Copy, Debug, PartialEq, Eq)]
pub enum Look {
    /// The chunk of the record, of so many bytes, and the first offset behind it.
    Match { used: usize, next: u64 },
    /// Another chunk, or none.
    Wrong,
}

/// What came of the next record.
#[derive(Clone, Copy, Debug, PartialEq, Eq)]
pub enum Turn {
    /// It matched.
    Next,
    /// There is none, or none that matches. All matched where this is true.
    Last(bool),
}

/// Whether two runs of bytes are the same.
fn same_bytes(one: &[u8], other: &[u8]) -> bool
    ensures { IsTrue result ↔ (one.now ≡ other.now) }
{
    one == other
}

/// Whether a chunk may begin at this offset.
pub fn may_begin(end: Option<u64>, first: u64) -> bool
    ensures { IsTrue result ↔ MayBegin end first }
{
    match end {
        None => true,
        Some(end) => first == end,
    }
}

/// The record of a chunk at a place.
#[tactic(auto, unfolding(segment_pairs::specs::Log::record_of))]
pub fn record_bytes(place: u32, view: &ChunkView<'_>) -> [u8; 29]
    ensures { result ≡ record_of place view.now }
{
    index_record(&view.header(), place)
}

/// Whether an index goes on with the record of a chunk that may begin where it does.
fn is_recorded(place: u32, end: Option<u64>, idx: &[u8], view: &ChunkView<'_>) -> bool
    requires { 29 ≤ length idx.now }
    ensures { IsTrue result ↔ (MayBegin end view.now.first × (idx.now ≡ record_of place view.now ++ drop 29 idx.now)) }
{
    if !may_begin(end, view.header().first) {
        return false;
    }
    same_bytes(&record_bytes(place, view), &idx[..RECORD])
}

/// What stands in front of the bytes of a segment, for the record in front of an index. The lines of a chunk that matches
/// are added.
pub fn look_at(
    alloc: Global,
    place: u32,
    end: Option<u64>,
    bytes: &[u8],
    idx: &[u8],
    text: &mut Octets,
) -> Result<Option<Look>, AllocError>
    requires record { 29 ≤ length idx.now }
    requires text { text.old ≡ [] }
    ensures { IfOk result (LooksOr place end bytes.now idx.now text.new) }
{
    match chunk_in_front(bytes) {
        Front::More => Ok(None),
        Front::Never => Ok(Some(Look::Wrong)),
        Front::Chunk(view) => {
            if !is_recorded(place, end, idx, &view) {
                return Ok(Some(Look::Wrong));
            }
            put_chunk_lines(alloc, text, &view)?;
            let header = view.header();
            Ok(Some(Look::Match {
                used: view.bytes().len(),
                next: header.first + u64::from(header.records),
            }))
        }
    }
}

/// Reads a segment on up to the next chunk, or until it is known that the record in front of the index matches none.
pub fn find<S: Source>(
    alloc: Global,
    window: &mut Window,
    source: &mut S,
    end: Option<u64>,
    idx: &[u8],
    text: &mut Octets,
) -> Result<Look, Fault>
    requires record { 29 ≤ length idx.now }
    requires text { text.old ≡ [] }
    ensures finds { Finds end idx.now text.new result (S.left source.old) (S.left source.new) window.old window.new }
    ensures cause { HasCause (S.faults source.old) (S.faults source.new) (result ≡ Err Fault.Read) }
{
    let place = window.place() as u32;
    'pieces: loop {
        let Ok(found) = look_at(alloc, place, end, window.rest(), idx, text) else {
            return Err(Fault::Memory);
        };
        if let Some(found) = found {
            return Ok(found);
        }
        match window.fill(source) {
            Ok(true) => {}
            Ok(false) => return Ok(Look::Wrong),
            Err(fault) => return Err(fault),
        }
    }
}

/// Takes the header of a file, and tells whether it is this one.
pub fn take_header<S: Source>(
    window: &mut Window,
    source: &mut S,
    header: &[u8; 8],
) -> Result<bool, Fault>
    requires len { length header.now ≡ 8 }
    requires new { window.old ≡ record { place = 0; rest = []; ended = false } }
    ensures takes { TakesHeader header.now result (S.left source.old) (S.left source.new) window.new }
    ensures cause { HasCause (S.faults source.old) (S.faults source.new) (result ≡ Err Fault.Read) }
{
    match window.need(source, 8) {
        Ok(true) => {}
        Ok(false) => return Ok(false),
        Err(fault) => return Err(fault),
    }
    if !same_bytes(header, &window.rest()[..8]) {
        return Ok(false);
    }
    window.skip(8);
    Ok(true)
}

/// Writes the last line.
pub fn close<K: Sink>(alloc: Global, good: bool, count: u64, out: &mut K) -> Result<bool, Fault>
    ensures closes { Closes good (last_line good count) result (K.written out.old) (K.written out.new) }
    ensures write { HasCause (K.faults out.old) (K.faults out.new) (result ≡ Err Fault.Write) }
{
    let Ok(line) = last_text(alloc, good, count) else {
        return Err(Fault::Memory);
    };
    match out.write_all(line.as_slice()) {
        Gave::Done => Ok(good),
        Gave::Failed => Err(Fault::Write),
    }
}

/// How many records stand before a place of an index.
pub fn record_count(place: u64) -> u64
    ensures { result ≡ (place - 8) / 29 }
{
    place.saturating_sub(8) / 29
}

fn status_of_fault(fault: Fault) -> u8
    ensures { result ≡ fault_status fault }
{
    match fault {
        Fault::Read => 4,
        Fault::Write => 5,
        Fault::Memory => 6,
        Fault::TooLong => 9,
    }
}

/// The status of an end.
pub fn status(outcome: Result<bool, Fault>) -> u8
    ensures { result ≡ status_of outcome }
{
    match outcome {
        Ok(true) => 0,
        Ok(false) => 3,
        Err(fault) => status_of_fault(fault),
    }
}
