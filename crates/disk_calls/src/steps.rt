//! Changes of a file, each a call and its sync.

ghost use Rattle.std.specs.Prelude.{◌≡◌, ◌≤◌, ◌++◌, List, ℕ, length, take};
ghost use Rattle.disk_calls.specs.Disk.{Image, HasCause, Elsewhere, Settled, Longer, Shorter, bytes_of};
ghost use Rattle.disk_calls.specs.Frames.{EachImage, AtMost, Holds, LongerBytes};

use crate::disk::{Disk, DiskDid};
use crate::file_id::FileId;

/// Makes a file of these bytes, over one that has at most as many, and syncs it. After `Failed` no image
/// has more than these bytes or those that an image had before.
pub fn make_file<D: Disk>(disk: &mut D, id: FileId, bytes: &[u8]) -> DiskDid
    requires { D.tells → length (bytes_of ((D.state disk.old).seen id)) ≤ length bytes.now }
    ensures images { (most : ℕ) → length bytes.now ≤ most → EachImage id (AtMost most) (D.state disk.old) → EachImage id (AtMost most) (D.state disk.new) }
    ensures done { D.tells → result ≡ DiskDid.Done → Settled id bytes.now (D.state disk.new) }
    ensures others { Elsewhere id (D.state disk.old) (D.state disk.new) }
    ensures cause { HasCause (result ≡ DiskDid.Failed) (D.state disk.old) (D.state disk.new) }
{
    if let DiskDid::Failed = disk.write_at(id, 0, bytes) {
        return DiskDid::Failed;
    }
    disk.sync(id)
}

/// Writes at the end of a file that is on the disk, and syncs it. A file of no bytes may be missing, and
/// is made.
pub fn append<D: Disk>(disk: &mut D, id: FileId, place: u64, bytes: &[u8]) -> DiskDid
    requires { D.tells → (base : List ℕ) × Holds id base (D.state disk.old) × (place ≡ length base) }
    ensures images { D.tells → (base : List ℕ) → Settled id base (D.state disk.old) → EachImage id (Longer base (length bytes.now)) (D.state disk.new) }
    ensures of_bytes { D.tells → (base : List ℕ) → Holds id base (D.state disk.old) → EachImage id (LongerBytes base (length bytes.now)) (D.state disk.new) }
    ensures done { D.tells → result ≡ DiskDid.Done → (base : List ℕ) → Holds id base (D.state disk.old) → Settled id (base ++ bytes.now) (D.state disk.new) }
    ensures others { Elsewhere id (D.state disk.old) (D.state disk.new) }
    ensures cause { HasCause (result ≡ DiskDid.Failed) (D.state disk.old) (D.state disk.new) }
{
    if let DiskDid::Failed = disk.write_at(id, place, bytes) {
        return DiskDid::Failed;
    }
    disk.sync(id)
}

/// Cuts a file that is on the disk, and syncs it.
pub fn shorten<D: Disk>(disk: &mut D, id: FileId, size: u64) -> DiskDid
    requires { D.tells → (base : List ℕ) × Settled id base (D.state disk.old) × (size ≤ length base) }
    ensures images { D.tells → (base : List ℕ) → Settled id base (D.state disk.old) → EachImage id (Shorter base size) (D.state disk.new) }
    ensures done { D.tells → result ≡ DiskDid.Done → (base : List ℕ) → Settled id base (D.state disk.old) → Settled id (take size base) (D.state disk.new) }
    ensures others { Elsewhere id (D.state disk.old) (D.state disk.new) }
    ensures cause { HasCause (result ≡ DiskDid.Failed) (D.state disk.old) (D.state disk.new) }
{
    if let DiskDid::Failed = disk.cut(id, size) {
        return DiskDid::Failed;
    }
    disk.sync(id)
}
