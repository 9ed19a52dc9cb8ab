//! What the program does, over any input, files and output.

ghost use Rattle.std.specs.Prelude.{◌≡◌, ◌⊎◌, ◌≤◌, ℕ, List, length, Some};
ghost use Rattle.outside_io.specs.Causes.{Rose};
ghost use Rattle.streamd.specs.Words.{IsReplay, IsInspect, IsReindex, AskNothing, usage};
ghost use Rattle.program_words.specs.Told.{Wrote};
ghost use Rattle.osiris_audit.specs.Windows.{most_bytes as most_file_bytes};
ghost use Rattle.osiris_audit.specs.Inspecting.{InspectsAs};
ghost use Rattle.osiris_audit.specs.Indexing.{ReindexesAs};
ghost use Rattle.replay_node.specs.Replays.{most_bytes};
ghost use Rattle.replay_node.specs.Complete.{IsGoodScript, ReplaysAs};
ghost use Rattle.replay_node.specs.Transcripts.{Transcribed};

use crate::words::{Words, read_words, usage_line};
use frame_wire::{Limits, Octets};
use osiris_audit::{inspect, reindex};
use outside_io::{Sink, Source};
use program_words::tell_usage;
use replay_node::replay;
use std::alloc::Global;

/// Does what the words after the program's name ask for, and answers the program's status: that of `replay` over the input,
/// of `inspect` over segment and index, of `reindex` over the segment, or 2 where the usage was written.
pub fn run<S: Source, A: Source, B: Source, K: Sink>(
    alloc: Global,
    words: &[Octets],
    input: &mut S,
    segment: &mut A,
    index: &mut B,
    out: &mut K,
) -> u8
    ensures replay { IsReplay words.now → ReplaysAs result (S.left input.old) (S.left input.new) (K.written out.old) (K.written out.new) }
    ensures transcript { IsReplay words.now → Transcribed (S.left input.old) (S.left input.new) (K.written out.old) (K.written out.new) }
    ensures read { IsReplay words.now → result ≡ 4 → Rose (S.faults input.old) (S.faults input.new) }
    ensures write { IsReplay words.now → result ≡ 5 → Rose (K.faults out.old) (K.faults out.new) }
    ensures complete { IsReplay words.now → (text : List ℕ) → S.left input.old ≡ Some text → length text ≤ most_bytes → IsGoodScript text
        → ¬ Rose (S.faults input.old) (S.faults input.new) → ¬ Rose (K.faults out.old) (K.faults out.new)
        → (result ≡ 0) ⊎ (result ≡ 6) }
    ensures inspect { IsInspect words.now → InspectsAs result (A.left segment.old) (A.left segment.new) (B.left index.old) (B.left index.new) (K.written out.old) (K.written out.new) }
    ensures inspect_read { IsInspect words.now → result ≡ 4 → Rose (A.faults segment.old) (A.faults segment.new) ⊎ Rose (B.faults index.old) (B.faults index.new) }
    ensures inspect_write { IsInspect words.now → result ≡ 5 → Rose (K.faults out.old) (K.faults out.new) }
    ensures inspect_complete { IsInspect words.now → (seg idx : List ℕ) → A.left segment.old ≡ Some seg → B.left index.old ≡ Some idx
        → length seg ≤ most_file_bytes → length idx ≤ most_file_bytes
        → ¬ Rose (A.faults segment.old) (A.faults segment.new) → ¬ Rose (B.faults index.old) (B.faults index.new) → ¬ Rose (K.faults out.old) (K.faults out.new)
        → (result ≡ 0) ⊎ ((result ≡ 3) ⊎ (result ≡ 6)) }
    ensures reindex { IsReindex words.now → ReindexesAs result (A.left segment.old) (A.left segment.new) (K.written out.old) (K.written out.new) }
    ensures reindex_read { IsReindex words.now → result ≡ 4 → Rose (A.faults segment.old) (A.faults segment.new) }
    ensures reindex_write { IsReindex words.now → result ≡ 5 → Rose (K.faults out.old) (K.faults out.new) }
    ensures reindex_complete { IsReindex words.now → (seg : List ℕ) → A.left segment.old ≡ Some seg → length seg ≤ most_file_bytes
        → ¬ Rose (A.faults segment.old) (A.faults segment.new) → ¬ Rose (K.faults out.old) (K.faults out.new)
        → (result ≡ 0) ⊎ ((result ≡ 3) ⊎ (result ≡ 6)) }
    ensures status { AskNothing words.now → result ≡ 2 }
    ensures line { AskNothing words.now → Wrote usage (K.written out.old) (K.written out.new) (K.faults out.old) (K.faults out.new) }
    ensures input { (IsReplay words.now → ⊥) → input.new ≡ input.old }
    ensures segment { (IsInspect words.now → ⊥) → (IsReindex words.now → ⊥) → segment.new ≡ segment.old }
    ensures index { (IsInspect words.now → ⊥) → index.new ≡ index.old }
{
    match read_words(words) {
        Words::Replay => replay(alloc, input, out, &Limits::standard()),
        Words::Inspect => inspect(alloc, segment, index, out),
        Words::Reindex => reindex(alloc, segment, out),
        Words::Usage => tell_usage(out, usage_line()),
    }
}
