//! Adding a pair to a file.

ghost use Rattle.std.specs.Prelude.{◌≡◌, IsErrOf, IsTrue, ◌++◌, ◌∷◌, [], ℕ, OnOk, OnErr};
ghost use Rattle.disk_calls.specs.Disk.{HasCause};
ghost use Rattle.disk_calls.specs.Frames.{Besides};
ghost use Rattle.gated_words.specs.Backing.{AtMostNew, EachBoth, Held};
ghost use Rattle.gated_words.specs.Files.{second_file};

use crate::fault::GateFault;
use crate::open_file::second_file;
use crate::record::record_of;
use disk_calls::{Disk, DiskDid, FileId, append};

/// Adds a pair to those of files that are sure. Memory for it is taken before the disk is called.
/// After `Disk` the files are not sure.
pub(crate) fn put_sure<D: Disk>(
    disk: &mut D,
    id: FileId,
    pairs: &mut Vec<(u64, u64)>,
    sure: &mut bool,
    first: u64,
    second: u64,
) -> Result<(), GateFault>
    requires held { D.tells → Held id pairs.old.items (D.state disk.old) }
    requires sure { IsTrue sure.old }
    ensures images { D.tells → EachBoth id (AtMostNew pairs.old.items (first, second)) (D.state disk.new) }
    ensures held { D.tells → IsTrue sure.new → Held id pairs.new.items (D.state disk.new) }
    ensures ok { OnOk result (IsTrue sure.new) }
    ensures added { OnOk result (pairs.new.items ≡ pairs.old.items ++ (first, second) ∷ []) }
    ensures err { OnErr result (pairs.new.items ≡ pairs.old.items) }
    ensures memory { IsErrOf result GateFault.Memory → IsTrue sure.new × (disk.new ≡ disk.old) }
    ensures undamaged { (place : ℕ) → IsErrOf result (GateFault.Damaged place) → ⊥ }
    ensures others { Besides id (second_file id) (D.state disk.old) (D.state disk.new) }
    ensures cause { HasCause (IsErrOf result GateFault.Disk) (D.state disk.old) (D.state disk.new) }
{
    let count = pairs.len();
    pairs.push((first, second))?;
    if let DiskDid::Failed = add(disk, id, &pairs[..count], first, second) {
        pairs.pop();
        *sure = false;
        return Err(GateFault::Disk);
    }
    Ok(())
}

// Puts a record behind those of the second file: the words and their check, and once they are sure the
// gate.
fn add<D: Disk>(disk: &mut D, id: FileId, pairs: &[(u64, u64)], first: u64, second: u64) -> DiskDid
    requires { D.tells → Held id pairs.now (D.state disk.old) }
    ensures images { D.tells → EachBoth id (AtMostNew pairs.now (first, second)) (D.state disk.new) }
    ensures done { D.tells → result ≡ DiskDid.Done → Held id (pairs.now ++ (first, second) ∷ []) (D.state disk.new) }
    ensures others { Besides id (second_file id) (D.state disk.old) (D.state disk.new) }
    ensures cause { HasCause (result ≡ DiskDid.Failed) (D.state disk.old) (D.state disk.new) }
{
    let two = second_file(id);
    let place = 8 + 18 * pairs.len() as u64;
    let record = record_of(first, second);
    if let DiskDid::Failed = append(disk, two, place, &record[..17]) {
        return DiskDid::Failed;
    }
    append(disk, two, place + 17, &record[17..])
}
