//! What holds of every field, named by contracts.

ghost use Rattle.frame_wire.specs.Formats.{u8_field, u16_field, u32_field, u64_field, i64_field, text_field, blob_field, count_field};
ghost use Rattle.frame_wire.specs.Laws.{Lawful, LawfulLast, OneOutcome};
ghost use Rattle.frame_wire.specs.Frames.{BeginsFrame, Frames, TooBig};
ghost use Rattle.frame_wire.specs.Joins.{◌then◌, list, or_absent, to_end, end_of, within, mapped};
ghost use Rattle.std.specs.Prelude.{◌≡◌, ◌<◌, ◌^◌, ℕ, List, length};
ghost use Rattle.frame_wire.specs.declared.fault.FieldFault.{FieldFault};

use crate::item::Item;

/// What is read of a field stood there spelled, what is spelled is read again whatever follows it, and reading fails
/// exactly where the field is wrong, in the way that the fault names. It does nothing.
pub fn fields_are_lawful()
    ensures u8 { Lawful u8_field }
    ensures u16 { Lawful u16_field }
    ensures u32 { Lawful u32_field }
    ensures u64 { Lawful u64_field }
    ensures i64 { Lawful i64_field }
    ensures text { Lawful text_field }
    ensures blob { Lawful blob_field }
    ensures count { Lawful count_field }
{}

/// At any bytes either one value of a field stands spelled, or the field is wrong in one way. So two values never share
/// a spelling. It does nothing.
pub fn fields_have_one_outcome()
    ensures u8 { OneOutcome u8_field }
    ensures u16 { OneOutcome u16_field }
    ensures u32 { OneOutcome u32_field }
    ensures u64 { OneOutcome u64_field }
    ensures i64 { OneOutcome i64_field }
    ensures text { OneOutcome text_field }
    ensures blob { OneOutcome blob_field }
    ensures count { OneOutcome count_field }
{}

/// Formats that are made of lawful ones are lawful: one after another, a list behind its count, the same with another
/// kind of fault, and of values that are made of others and give them back. It does nothing.
pub fn joins_are_lawful<A: Item, B: Item, F>()
    ensures one_after_another { Lawful A.format → Lawful B.format → Lawful (A.format then B.format) }
    ensures list { (of : FieldFault → F) → Lawful A.format → Lawful (list of (within of A.format)) }
    ensures other_fault { (of : FieldFault → F) → Lawful A.format → Lawful (within of A.format) }
    ensures other_values { (make : A → B) (parts : B → A) → ((x : A) → parts (make x) ≡ x) → ((y : B) → make (parts y) ≡ y) → Lawful A.format → Lawful (mapped make parts A.format) }
    ensures outcome { Lawful A.format → OneOutcome A.format }
{}

/// What ends a body is lawful there: a field that may be absent, if it has bytes, raw bytes to the end, and the end alone;
/// also behind a lawful format. It does nothing.
pub fn ends_are_lawful<A: Item, B: Item>()
    ensures absent { Lawful A.format → ((x : A) → 0 < length (A.format.spell x)) → LawfulLast (or_absent A.format) }
    ensures to_end { LawfulLast (to_end {F = FieldFault}) }
    ensures end { (long : ℕ → FieldFault) → LawfulLast (end_of long) }
    ensures behind { Lawful A.format → LawfulLast B.format → LawfulLast (A.format then B.format) }
{}

/// What is left behind the frames of a stream begins with no whole frame: of any size below 4 GiB where it is open, and of
/// at most `max` bytes of body where a size above `max` stands there. It does nothing.
pub fn rests_begin_no_frame()
    ensures behind_frames { (max : ℕ) (stream : List ℕ) (bodies : List (List ℕ)) (rest : List ℕ) → Frames max stream bodies rest → BeginsFrame 4294967295 rest → ⊥ }
    ensures at_a_large_size { (max : ℕ) (stream : List ℕ) (bodies : List (List ℕ)) (rest : List ℕ) (size : ℕ) → max < 2 ^ 32 → TooBig max stream bodies rest size → BeginsFrame max rest → ⊥ }
{}
