//! What holds of the files of every disk, named by contracts.

ghost use Rattle.std.specs.Prelude.{◌≡◌, ◌≢◌, List, [], ℕ};
ghost use Rattle.disk_calls.specs.Disk.{Looks, Elsewhere, LeftByCrash, Settled};
ghost use Rattle.disk_calls.specs.Frames.{Besides, OtherStreams, FileStays, NoneLost, Gone, Holds};

use crate::disk::Disk;
use crate::file_id::FileId;

/// Which files stay after a call. It does nothing.
pub fn files_stay<D: Disk>()
    ensures looks { (f : FileId) (a b : D) → Looks (D.state a) (D.state b) → FileStays f (D.state a) (D.state b) }
    ensures elsewhere { (f id : FileId) (a b : D) → f ≢ id → Elsewhere id (D.state a) (D.state b) → FileStays f (D.state a) (D.state b) }
    ensures besides { (f one two : FileId) (a b : D) → f ≢ one → f ≢ two → Besides one two (D.state a) (D.state b) → FileStays f (D.state a) (D.state b) }
    ensures streams { (f : FileId) (stream : ℕ) (a b : D) → f.stream ≢ stream → OtherStreams stream (D.state a) (D.state b) → FileStays f (D.state a) (D.state b) }
    ensures crash { (f : FileId) (stream : ℕ) (a b : D) → f.stream ≢ stream → LeftByCrash stream (D.state a) (D.state b) → FileStays f (D.state a) (D.state b) }
    ensures then { (f : FileId) (a b c : D) → FileStays f (D.state a) (D.state b) → FileStays f (D.state b) (D.state c) → FileStays f (D.state a) (D.state c) }
{}

/// How the frames of calls that follow one another join. It does nothing.
pub fn frames_join<D: Disk>()
    ensures looks { (a b c : D) → Looks (D.state a) (D.state b) → Looks (D.state b) (D.state c) → Looks (D.state a) (D.state c) }
    ensures looks_elsewhere { (id : FileId) (a b : D) → Looks (D.state a) (D.state b) → Elsewhere id (D.state a) (D.state b) }
    ensures elsewhere { (id : FileId) (a b c : D) → Elsewhere id (D.state a) (D.state b) → Elsewhere id (D.state b) (D.state c) → Elsewhere id (D.state a) (D.state c) }
    ensures one_of_two { (one two : FileId) (a b : D) → Elsewhere one (D.state a) (D.state b) → Besides one two (D.state a) (D.state b) }
    ensures other_of_two { (one two : FileId) (a b : D) → Elsewhere two (D.state a) (D.state b) → Besides one two (D.state a) (D.state b) }
    ensures besides { (one two : FileId) (a b c : D) → Besides one two (D.state a) (D.state b) → Besides one two (D.state b) (D.state c) → Besides one two (D.state a) (D.state c) }
    ensures elsewhere_streams { (id : FileId) (a b : D) → Elsewhere id (D.state a) (D.state b) → OtherStreams id.stream (D.state a) (D.state b) }
    ensures besides_streams { (one two : FileId) (stream : ℕ) (a b : D) → one.stream ≡ stream → two.stream ≡ stream → Besides one two (D.state a) (D.state b) → OtherStreams stream (D.state a) (D.state b) }
    ensures streams { (stream : ℕ) (a b c : D) → OtherStreams stream (D.state a) (D.state b) → OtherStreams stream (D.state b) (D.state c) → OtherStreams stream (D.state a) (D.state c) }
{}

/// What is known of every image of a file is known of it as long as it stays. It does nothing.
pub fn known_files_stay<D: Disk>()
    ensures settled { (id : FileId) (bytes : List ℕ) (a b : D) → FileStays id (D.state a) (D.state b) → Settled id bytes (D.state a) → Settled id bytes (D.state b) }
    ensures holds { (id : FileId) (bytes : List ℕ) (a b : D) → FileStays id (D.state a) (D.state b) → Holds id bytes (D.state a) → Holds id bytes (D.state b) }
    ensures gone { (id : FileId) (a b : D) → FileStays id (D.state a) (D.state b) → Gone id (D.state a) → Gone id (D.state b) }
    ensures none_lost { (id : FileId) (a b : D) → FileStays id (D.state a) (D.state b) → NoneLost id (D.state a) → NoneLost id (D.state b) }
{}

/// What is known of every image of a file is known of it after a crash, of whatever stream. It does
/// nothing.
pub fn known_files_outlast_crashes<D: Disk>()
    ensures settled { (id : FileId) (bytes : List ℕ) (stream : ℕ) (a b : D) → LeftByCrash stream (D.state a) (D.state b) → Settled id bytes (D.state a) → Settled id bytes (D.state b) }
    ensures holds { (id : FileId) (bytes : List ℕ) (stream : ℕ) (a b : D) → LeftByCrash stream (D.state a) (D.state b) → Holds id bytes (D.state a) → Holds id bytes (D.state b) }
    ensures gone { (id : FileId) (stream : ℕ) (a b : D) → LeftByCrash stream (D.state a) (D.state b) → Gone id (D.state a) → Gone id (D.state b) }
    ensures none_lost { (id : FileId) (stream : ℕ) (a b : D) → LeftByCrash stream (D.state a) (D.state b) → NoneLost id (D.state a) → NoneLost id (D.state b) }
{}

/// How what is known of a file goes together. It does nothing.
pub fn known_files_agree<D: Disk>()
    ensures settled_holds { (id : FileId) (bytes : List ℕ) (d : D) → Settled id bytes (D.state d) → Holds id bytes (D.state d) }
    ensures gone_holds { (id : FileId) (d : D) → Gone id (D.state d) → Holds id [] (D.state d) }
    ensures settled_none_lost { (id : FileId) (bytes : List ℕ) (d : D) → Settled id bytes (D.state d) → NoneLost id (D.state d) }
    ensures gone_none_lost { (id : FileId) (d : D) → Gone id (D.state d) → NoneLost id (D.state d) }
    ensures one_settled { (id : FileId) (bytes others : List ℕ) (d : D) → Settled id bytes (D.state d) → Settled id others (D.state d) → bytes ≡ others }
    ensures one_held { (id : FileId) (bytes others : List ℕ) (d : D) → Holds id bytes (D.state d) → Holds id others (D.state d) → bytes ≡ others }
{}
