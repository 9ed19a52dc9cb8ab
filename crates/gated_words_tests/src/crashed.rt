//! Files of pairs on a disk in memory whose calls fail, and which crashes.

ghost use Rattle.std.specs.Prelude.{◌≡◌, ◌≤◌, List, ℕ, IsTrue, IfOk, IsErrOf};
ghost use Rattle.member_disk.specs.MemoryDisks.{state_of};
ghost use Rattle.gated_words.specs.Files.{HasSecond};
ghost use Rattle.gated_words.specs.InHand.{InHand};
ghost use Rattle.gated_words.specs.Backing.{Backs, EachHas, OrNew};

use gated_words::{GateFault, Gated};
use member_disk::{FileId, MemoryDisk};
use std::alloc::{AllocError, Global};

/// Lets the nth next call on a stream's files fail.
pub fn fail_call(disk: &mut MemoryDisk, stream: u32, n: u64) -> Result<(), AllocError>
    requires { 1 ≤ n }
    ensures { (hand : InHand) → Backs hand (state_of disk.old.streams disk.old.faults) → Backs hand (state_of disk.new.streams disk.new.faults) }
{
    disk.fail_after(stream, n)
}

/// Opens files of pairs, crashes, and opens them again. Whatever the first opening came to, the pairs
/// are those that each image had before.
pub fn open_crashed(
    alloc: Global,
    disk: &mut MemoryDisk,
    id: FileId,
    image: u8,
) -> Result<Gated, GateFault>
    requires image { image ≤ 3 }
    requires second { HasSecond id }
    ensures { (pairs : List (ℕ × ℕ)) → EachHas id pairs (state_of disk.old.streams disk.old.faults) → IfOk result (λ g. g.pairs ≡ pairs) }
{
    let _ = Gated::open(alloc, disk, id);
    disk.crash(id.stream, image)?;
    Gated::open(alloc, disk, id)
}

/// Puts a pair, crashes, and opens the files again. Whatever the put came to, they are not damaged, and
/// have the pairs from before, or those and the new one.
pub fn put_crashed(
    alloc: Global,
    disk: &mut MemoryDisk,
    id: FileId,
    gated: &mut Gated,
    pair: (u64, u64),
    image: u8,
) -> Result<Gated, GateFault>
    requires image { image ≤ 3 }
    requires id { gated.old.id ≡ id }
    requires sure { IsTrue gated.old.sure }
    requires second { HasSecond id }
    requires backs { Backs gated.old (state_of disk.old.streams disk.old.faults) }
    ensures found { IfOk result (λ g. OrNew gated.old.pairs pair g.pairs) }
    ensures undamaged { (place : ℕ) → IsErrOf result (GateFault.Damaged place) → ⊥ }
{
    let _ = gated.put(disk, pair.0, pair.1);
    disk.crash(id.stream, image)?;
    Gated::open(alloc, disk, id)
}
