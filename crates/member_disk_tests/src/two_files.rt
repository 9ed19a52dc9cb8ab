ghost use Rattle.std.specs.Prelude.{◌≡◌, ◌≢◌, ◌⊎◌, ◌++◌, List, ℕ, length};
ghost use Rattle.disk_calls.specs.Disk.{Image, HasCause, Longer, Settled};

use member_disk::{Disk, DiskDid, FileId};

/// Writes at the end of one file, syncs it, and then does the same to another.
///
/// What a crash leaves between these four calls, or inside one of them, is what the clauses `first` and
/// `in_order` say, since each call may fail: the first file has at most some bytes more, and as long as
/// it doesn't surely have all of them, the second file is as it was.
pub fn write_two<D: Disk>(
    disk: &mut D,
    first: FileId,
    second: FileId,
    first_end: u64,
    second_end: u64,
    one: &[u8],
    two: &[u8],
) -> DiskDid
    requires apart { first ≢ second }
    requires first_there { D.tells → (base : List ℕ) × Settled first base (D.state disk.old) × (first_end ≡ length base) }
    requires second_there { D.tells → (base : List ℕ) × Settled second base (D.state disk.old) × (second_end ≡ length base) }
    ensures first { D.tells → (a : List ℕ) → Settled first a (D.state disk.old) → (c : Image) → (D.state disk.new).images first c → Longer a (length one.now) c }
    ensures in_order { D.tells → (a b : List ℕ) → Settled first a (D.state disk.old) → Settled second b (D.state disk.old) → Settled second b (D.state disk.new) ⊎ (Settled first (a ++ one.now) (D.state disk.new) × ((c : Image) → (D.state disk.new).images second c → Longer b (length two.now) c)) }
    ensures done { D.tells → result ≡ DiskDid.Done → (a b : List ℕ) → Settled first a (D.state disk.old) → Settled second b (D.state disk.old) → Settled first (a ++ one.now) (D.state disk.new) × Settled second (b ++ two.now) (D.state disk.new) }
    ensures others { (f : FileId) → f ≢ first → f ≢ second → ((D.state disk.new).seen f ≡ (D.state disk.old).seen f) × ((c : Image) → (D.state disk.new).images f c → (D.state disk.old).images f c) }
    ensures cause { HasCause (result ≡ DiskDid.Failed) (D.state disk.old) (D.state disk.new) }
{
    if let DiskDid::Failed = disk.write_at(first, first_end, one) {
        return DiskDid::Failed;
    }
    if let DiskDid::Failed = disk.sync(first) {
        return DiskDid::Failed;
    }
    if let DiskDid::Failed = disk.write_at(second, second_end, two) {
        return DiskDid::Failed;
    }
    disk.sync(second)
}
