//! What holds of all catalogs, named by contracts.

ghost use Rattle.std.specs.Prelude.{◌≡◌, Some, ℕ};
ghost use Rattle.frame_wire.specs.Laws.{Lawful, OneOutcome};
ghost use Rattle.disk_calls.specs.Disk.{LeftByCrash};
ghost use Rattle.disk_calls.specs.Frames.{FileStays};
ghost use Rattle.gated_words.specs.Files.{second_file};
ghost use Rattle.stream_catalog.specs.declared.change.Change.{Change};
ghost use Rattle.stream_catalog.specs.ChangeBytes.{IsChange, change_format, change_bytes, change_of};
ghost use Rattle.stream_catalog.specs.Files.{words_id, bytes_id};
ghost use Rattle.stream_catalog.specs.InHand.{Catalogued, Backed};

use disk_calls::Disk;

/// What is read of a change stood there spelled, what is spelled is read again, and at any bytes one change
/// stands or none does. It does nothing.
pub fn changes_are_lawful()
    ensures lawful { Lawful change_format }
    ensures outcome { OneOutcome change_format }
    ensures again { (c : Change) → IsChange c → change_of (change_bytes c) ≡ Some c }
{}

/// Files that stand behind a catalog in hand still do after a crash, and as long as they stay. It does nothing.
pub fn catalogs_stay_backed<D: Disk>()
    ensures stays { (c : Catalogued) (old new : D) → FileStays words_id (D.state old) (D.state new) → FileStays (second_file words_id) (D.state old) (D.state new) → FileStays bytes_id (D.state old) (D.state new) → Backed c (D.state old) → Backed c (D.state new) }
    ensures crash { (c : Catalogued) (stream : ℕ) (old new : D) → LeftByCrash stream (D.state old) (D.state new) → Backed c (D.state old) → Backed c (D.state new) }
{}
