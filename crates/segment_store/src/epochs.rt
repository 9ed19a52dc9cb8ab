//! The epochs of the streams.

ghost use Rattle.std.specs.Prelude.{◌≡◌, ◌++◌, ◌∷◌, [], ℕ, List, IfOk, IsErrOf, IsTrue, OnOk, OnErr};
ghost use Rattle.disk_calls.specs.Disk.{HasCause};
ghost use Rattle.disk_calls.specs.Frames.{Besides};
ghost use Rattle.gated_words.specs.Files.{Damages, Opens, PairsOf, seen_files, second_file};
ghost use Rattle.gated_words.specs.Backing.{Backs, EachBoth, EachHas, KeepsPairs, MayAdd};
ghost use Rattle.segment_store.specs.Recoverable.{EpochsRecoverable};
ghost use Rattle.segment_store.specs.Words.{epochs_file, word_of, EachWord};

use crate::fault::StoreFault;
use crate::receipt::Receipt;
use disk_calls::{Disk, FileId, FileName};
use gated_words::Gated;
use std::alloc::Global;
use std::marker::Model;

/// The word of the last pair of a stream, 0 where there is none.
pub(crate) fn last_word(pairs: &[(u64, u64)], stream: u32) -> u64
    ensures { result ≡ word_of stream pairs.now }
{
    let mut at = pairs.len();
    while at > 0 {
        at -= 1;
        let (of, word) = pairs[at];
        if of == stream as u64 {
            return word;
        }
    }
    0
}

/// The epochs of the streams, as they stand on the disk of the coordinator. Its files are those of pairs of a stream
/// and an epoch, of which the last of a stream counts.
///
/// A contract sees the pairs in hand, and whether they are sure: whether each image that a crash may leave has just
/// these. They are, but after a call of `perform` that the disk failed.
#[derive(Drop)]
pub struct EpochStore {
    pairs: Gated,
}

impl Model for EpochStore {
    ghost use Rattle.gated_words.specs.InHand.{InHand};

    ghost Value = { InHand };

    ghost view = { λ s. s.pairs };
}

impl EpochStore {
    /// Opens the files of epochs, or makes them. It fails with `DamagedWords` exactly where no crash leaves such
    /// files, with `Disk` only where the disk failed, and with `Memory` for want of memory. `DamagedWords` never comes
    /// where no image of the files is damaged, which `perform`, this call and crashes keep (`epochs_recover`).
    pub fn recover<D: Disk>(alloc: Global, disk: &mut D) -> Result<EpochStore, StoreFault>
        // After each answer.
        ensures images { D.tells → KeepsPairs epochs_file (D.state disk.old) (D.state disk.new) }
        ensures recoverable { D.tells → EpochsRecoverable (D.state disk.old) → EpochsRecoverable (D.state disk.new) }
        ensures others { Besides epochs_file (second_file epochs_file) (D.state disk.old) (D.state disk.new) }

        ensures epochs { D.tells → (stream : ℕ) → IfOk result (λ s. word_of stream s.pairs ≡ word_of stream (PairsOf (seen_files epochs_file (D.state disk.old)))) }
        ensures only { D.tells → (stream : ℕ) → IfOk result (λ s. EachWord epochs_file stream (λ word. word ≡ word_of stream s.pairs) (D.state disk.new)) }
        ensures backs { D.tells → IfOk result (λ s. Backs s (D.state disk.new)) }
        ensures sure { IfOk result (λ s. (s.id ≡ epochs_file) × IsTrue s.sure) }

        ensures opens { D.tells → IfOk result (λ s. Opens (seen_files epochs_file (D.state disk.old))) }
        ensures damaged { D.tells → (place : ℕ) → IsErrOf result (StoreFault.DamagedWords place) → Damages place (seen_files epochs_file (D.state disk.old)) }
        ensures undamaged { D.tells → Opens (seen_files epochs_file (D.state disk.old)) → (place : ℕ) → IsErrOf result (StoreFault.DamagedWords place) → ⊥ }
        ensures no_segment { (segment at : ℕ) → IsErrOf result (StoreFault.Damaged segment at) → ⊥ }
        ensures cause { HasCause (IsErrOf result StoreFault.Disk) (D.state disk.old) (D.state disk.new) }
    {
        let id = FileId {
            stream: 0,
            file: FileName::Epochs,
        };
        let pairs = Gated::open(alloc, disk, id)?;
        Ok(EpochStore { pairs })
    }

    /// The epoch of a stream, 0 where it has none.
    pub fn epoch(&self, stream: u32) -> u64
        ensures { result ≡ word_of stream self.now.pairs }
    {
        last_word(self.pairs.pairs(), stream)
    }

    /// Gives a stream an epoch, and hands out the receipt of that job. Memory is taken before.
    ///
    /// After a call that the disk failed the epochs in hand are the old ones, and the next call first opens the files
    /// again; where that finds the epoch that was not surely given, the stream in hand has it. It fails with `Disk`
    /// only where the disk failed, and with `Memory` for want of memory, which leaves the epochs of each image as they
    /// were.
    pub fn perform<D: Disk>(
        &mut self,
        disk: &mut D,
        stream: u32,
        number: u64,
        epoch: u64,
    ) -> Result<Receipt, StoreFault>
        requires { D.tells → Backs self.old (D.state disk.old) }

        // After each answer.
        ensures images { D.tells → MayAdd self.old.id (stream, epoch) (D.state disk.old) (D.state disk.new) }
        ensures recoverable { D.tells → EachBoth self.old.id Opens (D.state disk.new) }
        ensures backs { D.tells → Backs self.new (D.state disk.new) }
        ensures id { self.new.id ≡ self.old.id }
        ensures others { Besides self.old.id (second_file self.old.id) (D.state disk.old) (D.state disk.new) }

        ensures given { OnOk result (word_of stream self.new.pairs ≡ epoch) }
        ensures only { D.tells → (other : ℕ) → OnOk result (EachWord self.old.id other (λ word. word ≡ word_of other self.new.pairs) (D.state disk.new)) }
        ensures sure { OnOk result (IsTrue self.new.sure) }
        ensures receipt { IfOk result (λ r. (r.stream ≡ stream) × (r.member ≡ 0) × (r.number ≡ number)) }

        // Where no call has failed.
        ensures added { IsTrue self.old.sure → OnOk result (self.new.pairs ≡ self.old.pairs ++ (stream, epoch) ∷ []) }
        ensures same { IsTrue self.old.sure → OnErr result (self.new.pairs ≡ self.old.pairs) }
        ensures untouched { IsTrue self.old.sure → IsErrOf result StoreFault.Memory → (self.new ≡ self.old) × (disk.new ≡ disk.old) }

        ensures memory { D.tells → IsErrOf result StoreFault.Memory → KeepsPairs self.old.id (D.state disk.old) (D.state disk.new) }
        ensures undamaged { D.tells → (place : ℕ) → IsErrOf result (StoreFault.DamagedWords place) → ⊥ }
        ensures no_segment { (segment at : ℕ) → IsErrOf result (StoreFault.Damaged segment at) → ⊥ }
        ensures cause { HasCause (IsErrOf result StoreFault.Disk) (D.state disk.old) (D.state disk.new) }
    {
        self.pairs.put(disk, stream as u64, epoch)?;
        Ok(Receipt::new(stream, 0, number))
    }
}
