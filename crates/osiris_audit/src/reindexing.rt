//! The index of a segment, made anew.

ghost use Rattle.std.specs.Prelude.{◌≡◌, ◌⊎◌, ◌+◌, ◌<◌, ◌≤◌, ℕ, List, [], length, Option, Some, None, true, false, Ok, Err};
ghost use Rattle.outside_io.specs.Causes.{HasCause, Rose};
ghost use Rattle.outside_io.specs.Known.{before_known};
ghost use Rattle.segment_pairs.specs.Log.{segment_header};
ghost use Rattle.osiris_audit.specs.Windows.{most_bytes, TakesEither};
ghost use Rattle.osiris_audit.specs.Indexing.{Runs, StepGives, IndexesBy, Reindexes, ReindexesAs};

use crate::indexing::next_step;
use crate::inspection::{INDEX_HEADER, SEGMENT_HEADER, status, take_header};
use crate::window::{Fault, Window};
use outside_io::{Gave, Sink, Source};
use std::alloc::Global;

/// Reads a segment on up to the next chunk and writes its record, and tells whether one followed.
fn take_step<S: Source, K: Sink>(
    window: &mut Window,
    source: &mut S,
    end: &mut Option<u64>,
    out: &mut K,
) -> Result<bool, Fault>
    ensures step { (s0 w0 : Option (List ℕ)) → Runs s0 (S.left source.old) w0 (K.written out.old) window.old end.old → StepGives result s0 (S.left source.new) w0 (K.written out.new) window.new end.new }
    ensures goes { result ≡ Ok true → (window.old.place < window.new.place) × (window.new.place ≤ most_bytes) }
    ensures read { HasCause (S.faults source.old) (S.faults source.new) (result ≡ Err Fault.Read) }
    ensures write { HasCause (K.faults out.old) (K.faults out.new) (result ≡ Err Fault.Write) }
{
    match next_step(window, source, *end) {
        Ok(Some(step)) => match out.write_all(&step.record_bytes) {
            Gave::Done => {
                window.skip(step.used);
                *end = Some(step.next);
                Ok(true)
            }
            Gave::Failed => Err(Fault::Write),
        },
        Ok(None) => Ok(false),
        Err(fault) => Err(fault),
    }
}

/// Writes the records of the chunks of the longest run, one after the other.
fn write_records<S: Source, K: Sink>(
    window: &mut Window,
    source: &mut S,
    out: &mut K,
) -> Result<(), Fault>
    ensures indexes { (s0 w0 : Option (List ℕ)) → Runs s0 (S.left source.old) w0 (K.written out.old) window.old None → IndexesBy result s0 (S.left source.new) w0 (K.written out.new) window.new }
    ensures read { HasCause (S.faults source.old) (S.faults source.new) (result ≡ Err Fault.Read) }
    ensures write { HasCause (K.faults out.old) (K.faults out.new) (result ≡ Err Fault.Write) }
{
    let mut end: Option<u64> = None;
    'chunks: loop {
        match take_step(window, source, &mut end, out) {
            Ok(true) => {}
            Ok(false) => return Ok(()),
            Err(fault) => return Err(fault),
        }
    }
}

/// Writes the index of the segment behind the header that was taken.
fn write_index<S: Source, K: Sink>(
    window: &mut Window,
    source: &mut S,
    out: &mut K,
) -> Result<(), Fault>
    ensures indexes { (s0 : Option (List ℕ)) (seg : List ℕ) → s0 ≡ before_known seg (S.left source.old) → TakesEither segment_header true seg (S.left source.old) window.old
        → IndexesBy result s0 (S.left source.new) (K.written out.old) (K.written out.new) window.new }
    ensures read { HasCause (S.faults source.old) (S.faults source.new) (result ≡ Err Fault.Read) }
    ensures write { HasCause (K.faults out.old) (K.faults out.new) (result ≡ Err Fault.Write) }
{
    match out.write_all(&INDEX_HEADER) {
        Gave::Done => write_records(window, source, out),
        Gave::Failed => Err(Fault::Write),
    }
}

/// Makes the index of a segment, and tells whether its header was right.
fn reindex_file<S: Source, K: Sink>(
    alloc: Global,
    segment: &mut S,
    out: &mut K,
) -> Result<bool, Fault>
    ensures reindexes { Reindexes result (S.left segment.old) (S.left segment.new) (K.written out.old) (K.written out.new) }
    ensures read { HasCause (S.faults segment.old) (S.faults segment.new) (result ≡ Err Fault.Read) }
    ensures write { HasCause (K.faults out.old) (K.faults out.new) (result ≡ Err Fault.Write) }
{
    let mut window = Window::new(alloc);
    match take_header(&mut window, segment, &SEGMENT_HEADER) {
        Ok(true) => {}
        Ok(false) => return Ok(false),
        Err(fault) => return Err(fault),
    }
    match write_index(&mut window, segment, out) {
        Ok(()) => {}
        Err(fault) => return Err(fault),
    }
    match window.drain(segment) {
        Ok(()) => Ok(true),
        Err(fault) => Err(fault),
    }
}

/// Writes the index of a segment, which is read once and in pieces, and answers a status. The index has the record of each
/// chunk of the longest run behind the segment's header: each chunk is whole and begins, place and offset, where the one
/// before ended; the first may begin at any offset. What stands behind the run is read and left out.
///
/// The status is 0 where the index was written and the segment read to its end, 3 where the segment's header is another, and
/// nothing is written then, 4 where a read failed, 5 where a write failed, 6 for want of memory, 9 where the segment has more
/// than 268,435,456 bytes.
pub fn reindex<S: Source, K: Sink>(alloc: Global, segment: &mut S, out: &mut K) -> u8
    ensures reindexes { ReindexesAs result (S.left segment.old) (S.left segment.new) (K.written out.old) (K.written out.new) }
    ensures read { result ≡ 4 → Rose (S.faults segment.old) (S.faults segment.new) }
    ensures write { result ≡ 5 → Rose (K.faults out.old) (K.faults out.new) }
    ensures complete { (seg : List ℕ) → S.left segment.old ≡ Some seg → length seg ≤ most_bytes
        → ¬ Rose (S.faults segment.old) (S.faults segment.new) → ¬ Rose (K.faults out.old) (K.faults out.new)
        → (result ≡ 0) ⊎ ((result ≡ 3) ⊎ (result ≡ 6)) }
{
    let outcome = reindex_file(alloc, segment, out);
    status(outcome)
}
