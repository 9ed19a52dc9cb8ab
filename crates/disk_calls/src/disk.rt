ghost use Rattle.std.specs.Prelude.{◌≡◌, ◌+◌, ◌≤◌, ◌<◌, ◌^◌, ℕ, length, take, drop, Some, None, Ok};
ghost use Rattle.disk_calls.specs.Disk.{DiskState, HasCause, Looks, Changes, Only, TornFile, CutFile, RemovedFile, bytes_of, over, Sizes, Names, IsThere};

use crate::file_id::FileId;
use frame_wire::Row;
use std::alloc::{AllocError, Global};

/// What came of a look at a size.
#[derive(Clone, Copy, Debug, PartialEq, Eq)]
pub enum DiskSize {
    /// The bytes of the file, at most 9,223,372,036,854,775,807.
    Size(u64),
    /// The file is not there.
    Missing,
    /// The disk failed.
    Failed,
}

/// What came of a call.
#[derive(Clone, Copy, Debug, PartialEq, Eq)]
pub enum DiskDid {
    /// All of it happened.
    Done,
    /// The disk failed.
    Failed,
}

/// What came of a look at the names of a stream's files.
#[derive(Debug, Drop)]
pub enum DiskNames {
    /// The files that are there, in no order that is told.
    Names(Row<FileId>),
    /// The disk failed.
    Failed,
}

/// Files that last.
///
/// A disk has three things that contracts speak of: what a read gives of each file, the images that a
/// crash may leave of it, and a count of faults. `Failed` comes only where the count rose, and leaves
/// the images of a call that was stopped inside. Since each call may fail, what a contract says of the
/// images on every answer holds of a crash at each moment inside.
///
/// Where a disk does not tell what it holds, as a real one, the conditions on places, sizes and files
/// ask nothing.
pub trait Disk {
    /// Whether disks of this type tell what they hold.
    ghost tells: { Type 0 };

    /// What reads give, the images and the count.
    ghost state: { Self → DiskState };

    /// The size of a file in bytes. It changes nothing.
    fn size(&mut self, id: FileId) -> DiskSize
        ensures looks { Looks (state self.old) (state self.new) }
        ensures size { tells → Sizes ((state self.old).seen id) result }
        ensures bound { (n : ℕ) → result ≡ DiskSize.Size n → n < 2 ^ 63 }
        ensures cause { HasCause (result ≡ DiskSize.Failed) (state self.old) (state self.new) };

    /// Fills `buf` with the bytes from a place on, which are to be in the file. It changes nothing.
    /// After `Failed` what is in `buf` is of no use.
    fn read(&mut self, id: FileId, place: u64, buf: &mut [u8]) -> DiskDid
        requires { tells → place + length buf.old ≤ length (bytes_of ((state self.old).seen id)) }
        ensures looks { Looks (state self.old) (state self.new) }
        ensures bytes { tells → result ≡ DiskDid.Done → buf.new ≡ take (length buf.old) (drop place (bytes_of ((state self.old).seen id))) }
        ensures cause { HasCause (result ≡ DiskDid.Failed) (state self.old) (state self.new) };

    /// Writes at a place that is at most the file's size. A file that is missing is made, with place 0.
    /// Until a sync, a crash may leave any bytes in the range that was written, and past the old end
    /// any bytes up to any end in it. A write that would end past 9,223,372,036,854,775,807 fails.
    fn write_at(&mut self, id: FileId, place: u64, bytes: &[u8]) -> DiskDid
        requires { tells → place ≤ length (bytes_of ((state self.old).seen id)) }
        ensures changes { Changes id (TornFile place (length bytes.now)) (state self.old) (state self.new) }
        ensures written { tells → result ≡ DiskDid.Done → (state self.new).seen id ≡ Some (over (bytes_of ((state self.old).seen id)) place bytes.now) }
        ensures large { 2 ^ 63 ≤ place + length bytes.now → result ≡ DiskDid.Failed }
        ensures cause { HasCause (result ≡ DiskDid.Failed) (state self.old) (state self.new) };

    /// Cuts a file that is there to a size that is at most its own. Until a sync, a crash may leave
    /// the old bytes to any size between the two.
    fn cut(&mut self, id: FileId, size: u64) -> DiskDid
        requires there { tells → IsThere ((state self.old).seen id) }
        requires within { tells → size ≤ length (bytes_of ((state self.old).seen id)) }
        ensures changes { Changes id (CutFile size) (state self.old) (state self.new) }
        ensures written { tells → result ≡ DiskDid.Done → (state self.new).seen id ≡ Some (take size (bytes_of ((state self.old).seen id))) }
        ensures cause { HasCause (result ≡ DiskDid.Failed) (state self.old) (state self.new) };

    /// Makes what was written to a file, which is to be there, sure: after `Done` a crash leaves what
    /// a read gives.
    fn sync(&mut self, id: FileId) -> DiskDid
        requires { tells → IsThere ((state self.old).seen id) }
        ensures looks { Looks (state self.old) (state self.new) }
        ensures durable { result ≡ DiskDid.Done → Only ((state self.new).seen id) ((state self.new).images id) }
        ensures cause { HasCause (result ≡ DiskDid.Failed) (state self.old) (state self.new) };

    /// Removes a file. Where it is missing nothing changes, and that is no fault. After `Done` no crash
    /// brings it back.
    fn remove(&mut self, id: FileId) -> DiskDid
        ensures changes { Changes id RemovedFile (state self.old) (state self.new) }
        ensures missing { tells → (state self.old).seen id ≡ None → Looks (state self.old) (state self.new) }
        ensures gone { tells → result ≡ DiskDid.Done → (state self.new).seen id ≡ None }
        ensures happened { result ≡ DiskDid.Done → Only None ((state self.new).images id) }
        ensures cause { HasCause (result ≡ DiskDid.Failed) (state self.old) (state self.new) };

    /// The files of a stream that are there. It changes nothing. It needs memory for the list.
    fn names(&mut self, alloc: Global, stream: u32) -> Result<DiskNames, AllocError>
        ensures looks { Looks (state self.old) (state self.new) }
        ensures names { tells → Names stream (state self.old).seen result }
        ensures cause { HasCause (result ≡ Ok DiskNames.Failed) (state self.old) (state self.new) };

    /// What a read gives is one of the images.
    ghost reads_image: { (d : Self) (f : _) → tells → (state d).images f ((state d).seen f) };
}
