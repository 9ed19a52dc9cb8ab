//! Reading a whole file.

ghost use Rattle.std.specs.Prelude.{◌≡◌, Ok};
ghost use Rattle.disk_calls.specs.Disk.{HasCause, Looks};
ghost use Rattle.disk_calls.specs.Reading.{ReadsWhole};

use crate::disk::{Disk, DiskDid, DiskSize};
use crate::file_id::FileId;
use std::alloc::{AllocError, Global};

/// What came of reading a whole file.
#[derive(Debug, Drop)]
pub enum WholeFile {
    /// The bytes of the file.
    Bytes(Vec<u8>),
    /// The file is not there.
    Missing,
    /// The disk failed.
    Failed,
}

/// Syncs a file that is there, and reads all of it: what it gives is what a crash leaves. It needs
/// memory for the bytes.
pub fn read_file<D: Disk>(alloc: Global, disk: &mut D, id: FileId) -> Result<WholeFile, AllocError>
    ensures looks { Looks (D.state disk.old) (D.state disk.new) }
    ensures reads { D.tells → ReadsWhole id (D.state disk.old) (D.state disk.new) result }
    ensures cause { HasCause (result ≡ Ok WholeFile.Failed) (D.state disk.old) (D.state disk.new) }
{
    let size = match disk.size(id) {
        DiskSize::Failed => return Ok(WholeFile::Failed),
        DiskSize::Missing => return Ok(WholeFile::Missing),
        DiskSize::Size(size) => size,
    };
    if let DiskDid::Failed = disk.sync(id) {
        return Ok(WholeFile::Failed);
    }
    let mut bytes = Vec::from_elem(alloc, 0, size as usize)?;
    if let DiskDid::Failed = disk.read(id, 0, &mut bytes) {
        return Ok(WholeFile::Failed);
    }
    Ok(WholeFile::Bytes(bytes))
}
