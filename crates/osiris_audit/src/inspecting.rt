//! A segment and its index, read to their ends.

ghost use Rattle.std.specs.Prelude.{◌≡◌, ◌⊎◌, ◌+◌, ◌<◌, ◌≤◌, ℕ, List, [], length, Option, Some, None, false, Ok, Err};
ghost use Rattle.outside_io.specs.Causes.{HasCause, Rose};
ghost use Rattle.osiris_audit.specs.Windows.{most_bytes};
ghost use Rattle.osiris_audit.specs.Writing.{EitherCause};
ghost use Rattle.osiris_audit.specs.Inspecting.{Inspects, InspectsAs};
ghost use Rattle.osiris_audit.specs.Steps.{Far, TurnGives, ReadsAll, HeadersGive};

use crate::inspection::{
    INDEX_HEADER, Look, RECORD, SEGMENT_HEADER, Turn, close, find, record_count, status,
    take_header,
};
use crate::window::{Fault, Window};
use frame_wire::Octets;
use outside_io::{Gave, Sink, Source};
use std::alloc::Global;

/// Takes the headers of both files, and tells whether they are right. Of the index it reads nothing where that of the
/// segment is not.
fn take_headers<S: Source, T: Source>(
    segment_window: &mut Window,
    segment: &mut S,
    index_window: &mut Window,
    index: &mut T,
) -> Result<bool, Fault>
    requires segment_new { segment_window.old ≡ record { place = 0; rest = []; ended = false } }
    requires index_new { index_window.old ≡ record { place = 0; rest = []; ended = false } }
    ensures give { (w : Option (List ℕ)) → HeadersGive result (S.left segment.old) (S.left segment.new) (T.left index.old) (T.left index.new) w segment_window.new index_window.new None }
    ensures cause { EitherCause (S.faults segment.old) (S.faults segment.new) (T.faults index.old) (T.faults index.new) (result ≡ Err Fault.Read) }
    ensures no_write { result ≡ Err Fault.Write → ⊥ }
{
    match take_header(segment_window, segment, &SEGMENT_HEADER) {
        Ok(true) => {}
        Ok(false) => return Ok(false),
        Err(fault) => return Err(fault),
    }
    match take_header(index_window, index, &INDEX_HEADER) {
        Ok(right) => Ok(right),
        Err(fault) => Err(fault),
    }
}

/// Looks at the next record of the index, and writes the lines of its chunk where it matches.
fn take_turn<S: Source, T: Source, K: Sink>(
    alloc: Global,
    segment_window: &mut Window,
    segment: &mut S,
    index_window: &mut Window,
    index: &mut T,
    end: &mut Option<u64>,
    out: &mut K,
) -> Result<Turn, Fault>
    ensures turn { (s0 i0 w0 : Option (List ℕ)) → Far s0 (S.left segment.old) i0 (T.left index.old) w0 (K.written out.old) segment_window.old index_window.old end.old
        → TurnGives result s0 (S.left segment.new) i0 (T.left index.new) w0 (K.written out.new) segment_window.new index_window.new end.new }
    ensures goes { result ≡ Ok Turn.Next → (index_window.old.place < index_window.new.place) × (index_window.new.place ≤ most_bytes) }
    ensures cause { EitherCause (S.faults segment.old) (S.faults segment.new) (T.faults index.old) (T.faults index.new) (result ≡ Err Fault.Read) }
    ensures write { HasCause (K.faults out.old) (K.faults out.new) (result ≡ Err Fault.Write) }
{
    match index_window.need(index, RECORD) {
        Ok(true) => {}
        Ok(false) => return Ok(Turn::Last(index_window.rest().len() == 0)),
        Err(fault) => return Err(fault),
    }
    let mut text = Octets::new(alloc);
    match find(
        alloc,
        segment_window,
        segment,
        *end,
        index_window.rest(),
        &mut text,
    ) {
        Ok(Look::Match { used, next }) => match out.write_all(text.as_slice()) {
            Gave::Done => {
                segment_window.skip(used);
                index_window.skip(RECORD);
                *end = Some(next);
                Ok(Turn::Next)
            }
            Gave::Failed => Err(Fault::Write),
        },
        Ok(Look::Wrong) => Ok(Turn::Last(false)),
        Err(fault) => Err(fault),
    }
}

/// Looks at the records of the index, one after the other, up to the first that does not match.
fn read_records<S: Source, T: Source, K: Sink>(
    alloc: Global,
    segment_window: &mut Window,
    segment: &mut S,
    index_window: &mut Window,
    index: &mut T,
    out: &mut K,
) -> Result<bool, Fault>
    ensures reads { (s0 i0 w0 : Option (List ℕ)) → Far s0 (S.left segment.old) i0 (T.left index.old) w0 (K.written out.old) segment_window.old index_window.old None
        → ReadsAll result s0 (S.left segment.new) i0 (T.left index.new) w0 (K.written out.new) segment_window.new index_window.new }
    ensures cause { EitherCause (S.faults segment.old) (S.faults segment.new) (T.faults index.old) (T.faults index.new) (result ≡ Err Fault.Read) }
    ensures write { HasCause (K.faults out.old) (K.faults out.new) (result ≡ Err Fault.Write) }
{
    let mut end: Option<u64> = None;
    'records: loop {
        match take_turn(
            alloc,
            segment_window,
            segment,
            index_window,
            index,
            &mut end,
            out,
        ) {
            Ok(Turn::Next) => {}
            Ok(Turn::Last(good)) => return Ok(good),
            Err(fault) => return Err(fault),
        }
    }
}

/// Reads both files up to the first record that does not match.
fn read_both<S: Source, T: Source, K: Sink>(
    alloc: Global,
    segment_window: &mut Window,
    segment: &mut S,
    index_window: &mut Window,
    index: &mut T,
    out: &mut K,
) -> Result<bool, Fault>
    requires segment_new { segment_window.old ≡ record { place = 0; rest = []; ended = false } }
    requires index_new { index_window.old ≡ record { place = 0; rest = []; ended = false } }
    ensures reads { ReadsAll result (S.left segment.old) (S.left segment.new) (T.left index.old) (T.left index.new) (K.written out.old) (K.written out.new) segment_window.new index_window.new }
    ensures cause { EitherCause (S.faults segment.old) (S.faults segment.new) (T.faults index.old) (T.faults index.new) (result ≡ Err Fault.Read) }
    ensures write { HasCause (K.faults out.old) (K.faults out.new) (result ≡ Err Fault.Write) }
{
    match take_headers(segment_window, segment, index_window, index) {
        Ok(true) => read_records(alloc, segment_window, segment, index_window, index, out),
        Ok(false) => Ok(false),
        Err(fault) => Err(fault),
    }
}

/// Inspects both files, and tells whether all matched.
fn inspect_files<S: Source, T: Source, K: Sink>(
    alloc: Global,
    segment: &mut S,
    index: &mut T,
    out: &mut K,
) -> Result<bool, Fault>
    ensures inspects { Inspects result (S.left segment.old) (S.left segment.new) (T.left index.old) (T.left index.new) (K.written out.old) (K.written out.new) }
    ensures cause { EitherCause (S.faults segment.old) (S.faults segment.new) (T.faults index.old) (T.faults index.new) (result ≡ Err Fault.Read) }
    ensures write { HasCause (K.faults out.old) (K.faults out.new) (result ≡ Err Fault.Write) }
{
    let mut segment_window = Window::new(alloc);
    let mut index_window = Window::new(alloc);
    let good = match read_both(
        alloc,
        &mut segment_window,
        segment,
        &mut index_window,
        index,
        out,
    ) {
        Ok(good) => good,
        Err(fault) => return Err(fault),
    };
    let count = record_count(index_window.place());
    match segment_window.drain(segment) {
        Ok(()) => {}
        Err(fault) => return Err(fault),
    }
    match index_window.drain(index) {
        Ok(()) => {}
        Err(fault) => return Err(fault),
    }
    close(alloc, good, count, out)
}

/// Inspects a segment and its index, both read once and in pieces, and answers a status. For each chunk whose record matches
/// it writes the line of the chunk and those of its entries, up to the first record that does not match; last `ok COUNT`
/// or `bad COUNT` with the number of these chunks. Both files are read to their ends before.
///
/// The status is 0 where all matched, 3 where a header or a record did not, 4 where a read failed, 5 where a write failed,
/// 6 for want of memory, 9 where a file has more than 268,435,456 bytes.
pub fn inspect<S: Source, T: Source, K: Sink>(
    alloc: Global,
    segment: &mut S,
    index: &mut T,
    out: &mut K,
) -> u8
    ensures inspects { InspectsAs result (S.left segment.old) (S.left segment.new) (T.left index.old) (T.left index.new) (K.written out.old) (K.written out.new) }
    ensures read { result ≡ 4 → Rose (S.faults segment.old) (S.faults segment.new) ⊎ Rose (T.faults index.old) (T.faults index.new) }
    ensures write { result ≡ 5 → Rose (K.faults out.old) (K.faults out.new) }
    ensures complete { (seg idx : List ℕ) → S.left segment.old ≡ Some seg → T.left index.old ≡ Some idx → length seg ≤ most_bytes → length idx ≤ most_bytes
        → ¬ Rose (S.faults segment.old) (S.faults segment.new) → ¬ Rose (T.faults index.old) (T.faults index.new) → ¬ Rose (K.faults out.old) (K.faults out.new)
        → (result ≡ 0) ⊎ ((result ≡ 3) ⊎ (result ≡ 6)) }
{
    let outcome = inspect_files(alloc, segment, index, out);
    status(outcome)
}
