//! Pairs of words that last.

ghost use Rattle.std.specs.Prelude.{◌≡◌, ◌⊎◌, IsErrOf, IsTrue, Ok, IfOk, OnOk, OnErr, ◌++◌, ◌∷◌, [], List, ℕ, length, ◌-◌, slice_get};
ghost use Rattle.disk_calls.specs.Disk.{HasCause};
ghost use Rattle.disk_calls.specs.Frames.{Besides};
ghost use Rattle.gated_words.specs.Files.{HasSecond, second_file, seen_files, PairsOf, Opens, Damages};
ghost use Rattle.gated_words.specs.Backing.{Backs, EachHas, KeepsPairs, MayAdd, TellsDamage};

use crate::add_pair::put_sure;
use crate::fault::GateFault;
use crate::open_file::open_pairs;
use disk_calls::{Disk, FileId};
use std::alloc::Global;
use std::marker::Model;

/// The pairs of two files, of which one counts, in the order in which they were put.
///
/// A contract sees the first of the two files, the pairs, and whether they are sure: whether each image
/// that a crash may leave of the files has just these pairs. They are, but after a call of `put` that
/// the disk failed.
#[derive(Drop)]
pub struct Gated {
    alloc: Global,
    id: FileId,
    pairs: Vec<(u64, u64)>,
    sure: bool,
}

impl Model for Gated {
    ghost use Rattle.gated_words.specs.InHand.{InHand};

    ghost Value = { InHand };

    ghost view = { λ g. record { id = g.id; pairs = g.pairs.items; sure = g.sure } };
}

impl Gated {
    /// Opens the files of pairs. `id` is the first of them, and names one that has a second.
    ///
    /// Where the first file is there, its pairs count: the second is removed and written whole with all
    /// of them, synced, and the first is removed. Else those of the second count: what a crash left
    /// behind its last whole record, at most 18 bytes, is cut away, and where it is missing, or has at
    /// most 8 bytes and not its whole header, it is made.
    ///
    /// Its calls of the disk are, for the first file, `size`, and `sync` and `read` where it is there;
    /// then for the second `remove`, `write_at` and `sync`, and for the first `remove`. Where the first
    /// is missing they are `remove` of it, which a call before may not have done for good; for the second
    /// `size`, and `sync` and `read` where it is there; and where there is something to cut or to make,
    /// `cut` and `sync`, or `remove`, `write_at` and `sync`.
    ///
    /// It fails with `Damaged` exactly where the file that counts is one that no crash leaves, with
    /// `Disk` only where the disk failed, and with `Memory` for want of memory. Then too each image that
    /// a crash may leave has the pairs of one from before.
    pub fn open<D: Disk>(alloc: Global, disk: &mut D, id: FileId) -> Result<Gated, GateFault>
        requires { HasSecond id }

        // After each answer.
        ensures images { D.tells → KeepsPairs id (D.state disk.old) (D.state disk.new) }
        ensures others { Besides id (second_file id) (D.state disk.old) (D.state disk.new) }

        ensures pairs { D.tells → IfOk result (λ g. g.pairs ≡ PairsOf (seen_files id (D.state disk.old))) }
        ensures only { D.tells → IfOk result (λ g. EachHas id g.pairs (D.state disk.new)) }
        ensures backs { D.tells → IfOk result (λ g. Backs g (D.state disk.new)) }
        ensures sure { IfOk result (λ g. (g.id ≡ id) × IsTrue g.sure) }

        ensures opens { D.tells → IfOk result (λ g. Opens (seen_files id (D.state disk.old))) }
        ensures damaged { D.tells → (place : ℕ) → IsErrOf result (GateFault.Damaged place) → Damages place (seen_files id (D.state disk.old)) }
        ensures undamaged { D.tells → Opens (seen_files id (D.state disk.old)) → (place : ℕ) → IsErrOf result (GateFault.Damaged place) → ⊥ }
        ensures told { D.tells → (place : ℕ) → Damages place (seen_files id (D.state disk.old)) → TellsDamage place result }
        ensures cause { HasCause (IsErrOf result GateFault.Disk) (D.state disk.old) (D.state disk.new) }
    {
        let pairs = open_pairs(alloc, disk, id)?;
        Ok(Gated {
            alloc,
            id,
            pairs,
            sure: true,
        })
    }

    /// The pairs in hand.
    pub fn pairs(&self) -> &[(u64, u64)]
        ensures { result.now ≡ self.now.pairs }
    {
        &self.pairs
    }

    /// The pair that was put last, if there is one.
    pub fn last(&self) -> Option<(u64, u64)>
        ensures { result ≡ slice_get self.now.pairs (length self.now.pairs - 1) }
    {
        self.pairs.last().copied()
    }

    /// Whether the pairs in hand are sure: each image of the files has just these.
    pub fn is_sure(&self) -> bool
        ensures { result ≡ self.now.sure }
    {
        self.sure
    }

    /// Adds a pair: it writes the 17 bytes of the words and their xor, syncs, writes the gate, and syncs.
    /// Memory is taken before.
    ///
    /// After a call that the disk failed the pairs in hand are the old ones, and the next call first
    /// opens the files again; where that opening found the pair that was not surely added, the pairs in
    /// hand have it. The files are never `Damaged`. It fails with `Disk` only where the disk failed, and
    /// with `Memory` for want of memory, which leaves the pairs of each image as they were.
    pub fn put<D: Disk>(&mut self, disk: &mut D, first: u64, second: u64) -> Result<(), GateFault>
        requires { D.tells → Backs self.old (D.state disk.old) }

        // After each answer.
        ensures images { D.tells → MayAdd self.old.id (first, second) (D.state disk.old) (D.state disk.new) }
        ensures backs { D.tells → Backs self.new (D.state disk.new) }
        ensures id { self.new.id ≡ self.old.id }
        ensures others { Besides self.old.id (second_file self.old.id) (D.state disk.old) (D.state disk.new) }

        ensures only { D.tells → OnOk result (EachHas self.old.id self.new.pairs (D.state disk.new)) }
        ensures sure { OnOk result (IsTrue self.new.sure) }
        ensures last { OnOk result ((front : List (ℕ × ℕ)) × (self.new.pairs ≡ front ++ (first, second) ∷ [])) }

        // Where no call has failed, or the files are opened again.
        ensures added { IsTrue self.old.sure → OnOk result (self.new.pairs ≡ self.old.pairs ++ (first, second) ∷ []) }
        ensures same { IsTrue self.old.sure → OnErr result (self.new.pairs ≡ self.old.pairs) }
        ensures added_again { D.tells → OnOk result (self.new.pairs ≡ PairsOf (seen_files self.old.id (D.state disk.old)) ++ (first, second) ∷ []) }
        ensures same_again { D.tells → OnErr result ((self.new.pairs ≡ self.old.pairs) ⊎ (self.new.pairs ≡ PairsOf (seen_files self.old.id (D.state disk.old)))) }

        ensures memory { D.tells → IsErrOf result GateFault.Memory → KeepsPairs self.old.id (D.state disk.old) (D.state disk.new) }
        ensures untouched { IsTrue self.old.sure → IsErrOf result GateFault.Memory → (self.new ≡ self.old) × (disk.new ≡ disk.old) }
        ensures undamaged { D.tells → (place : ℕ) → IsErrOf result (GateFault.Damaged place) → ⊥ }
        ensures cause { HasCause (IsErrOf result GateFault.Disk) (D.state disk.old) (D.state disk.new) }
    {
        self.reopen(disk)?;
        put_sure(
            disk,
            self.id,
            &mut self.pairs,
            &mut self.sure,
            first,
            second,
        )
    }

    // Opens the files again where its pairs are not sure.
    fn reopen<D: Disk>(&mut self, disk: &mut D) -> Result<(), GateFault>
        requires { D.tells → Backs self.old (D.state disk.old) }
        ensures images { D.tells → KeepsPairs self.old.id (D.state disk.old) (D.state disk.new) }
        ensures backs { D.tells → Backs self.new (D.state disk.new) }
        ensures id { self.new.id ≡ self.old.id }
        ensures others { Besides self.old.id (second_file self.old.id) (D.state disk.old) (D.state disk.new) }
        ensures sure { OnOk result (IsTrue self.new.sure) }
        ensures same { IsTrue self.old.sure → (result ≡ Ok tt) × (self.new ≡ self.old) × (disk.new ≡ disk.old) }
        ensures pairs { D.tells → OnOk result (self.new.pairs ≡ PairsOf (seen_files self.old.id (D.state disk.old))) }
        ensures err { OnErr result (self.new ≡ self.old) }
        ensures undamaged { D.tells → (place : ℕ) → IsErrOf result (GateFault.Damaged place) → ⊥ }
        ensures cause { HasCause (IsErrOf result GateFault.Disk) (D.state disk.old) (D.state disk.new) }
    {
        if self.sure {
            return Ok(());
        }
        self.pairs = open_pairs(self.alloc, disk, self.id)?;
        self.sure = true;
        Ok(())
    }
}
