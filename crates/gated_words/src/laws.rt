//! What holds of all files of pairs, named by contracts.

ghost use Rattle.std.specs.Prelude.{◌≡◌, ◌≢◌, ◌+◌, ◌*◌, ◌++◌, ◌∷◌, List, ℕ, length};
ghost use Rattle.disk_calls.specs.Disk.{Elsewhere, LeftByCrash, Looks};
ghost use Rattle.gated_words.specs.declared.record.Form.{Form};
ghost use Rattle.gated_words.specs.declared.record.Form.TheVariants.{Second};
ghost use Rattle.gated_words.specs.Words.{AllFit, DamagesAs, GivenUp, HasNoGate, OpensAs, gate, pairs_in, spelled, words, xor_of};
ghost use Rattle.gated_words.specs.Files.{Damages, Files, Opens, PairsOf, seen_files, second_file};
ghost use Rattle.gated_words.specs.InHand.{InHand};
ghost use Rattle.gated_words.specs.Backing.{Backs, EachHas};

use disk_calls::{Disk, FileId};

/// A file has the pairs that are spelled in it, up to where no whole record with its gate begins, and can
/// be opened where what stands there is given up. A record of the second form with its gate and another
/// xor is damage at its place. No files that can be opened are damaged, and damage has one place. It does
/// nothing.
pub fn gated_files_are_lawful()
    ensures spelled { (f : Form) (pairs : List (ℕ × ℕ)) (rest : List ℕ) → AllFit pairs → HasNoGate f rest → pairs_in f (spelled f pairs ++ rest) ≡ pairs }
    ensures given_up { (f : Form) (pairs : List (ℕ × ℕ)) (rest : List ℕ) → AllFit pairs → GivenUp f rest → OpensAs f (spelled f pairs ++ rest) }
    ensures another_xor { (pairs : List (ℕ × ℕ)) (pair : ℕ × ℕ) (x : ℕ) (rest : List ℕ) → AllFit pairs → x ≢ xor_of (words pair) → DamagesAs Second (8 + 18 * length pairs) (spelled Second pairs ++ (words pair ++ x ∷ gate ∷ rest)) }
    ensures never_both { (place : ℕ) (files : Files) → Opens files → Damages place files → ⊥ }
    ensures one_place { (a b : ℕ) (files : Files) → Damages a files → Damages b files → a ≡ b }
{}

/// Files that stand behind pairs in hand still do after a crash, after calls that only look, and after
/// calls that leave them; and where each image had the same pairs, what a crash left has them. It does
/// nothing.
pub fn pairs_stay_backed<D: Disk>()
    ensures crash { (hand : InHand) (stream : ℕ) (old new : D) → LeftByCrash stream (D.state old) (D.state new) → Backs hand (D.state old) → Backs hand (D.state new) }
    ensures looks { (hand : InHand) (old new : D) → Looks (D.state old) (D.state new) → Backs hand (D.state old) → Backs hand (D.state new) }
    ensures elsewhere { (hand : InHand) (id : FileId) (old new : D) → hand.id ≢ id → second_file hand.id ≢ id → Elsewhere id (D.state old) (D.state new) → Backs hand (D.state old) → Backs hand (D.state new) }
    ensures has { (id : FileId) (pairs : List (ℕ × ℕ)) (old new : D) → LeftByCrash id.stream (D.state old) (D.state new) → EachHas id pairs (D.state old) → PairsOf (seen_files id (D.state new)) ≡ pairs }
{}
