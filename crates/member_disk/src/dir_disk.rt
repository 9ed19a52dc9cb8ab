ghost use Rattle.std.specs.Prelude.{◌≡◌, ◌+◌, ◌<◌, ◌≤◌, ◌^◌, ◌↔◌, None, IsTrue, IfOk, OnOk, OnErr};
ghost use Rattle.std.specs.String.{string_bytes};
ghost use Rattle.disk_calls.specs.Disk.{Rose};
ghost use Rattle.member_disk.specs.Counting.{risen};
ghost use Rattle.member_disk.specs.Paths.{folder_of, path_of};

use crate::paths::{folder_in, path_in};
use disk_calls::{Disk, DiskDid, DiskNames, DiskSize, FileId, file_of};
use frame_wire::Row;
use std::alloc::{AllocError, Global};
use std::fs::{OpenFile, OpenOptions};
use std::io::{ErrorKind, Read, Seek, SeekFrom, Write};
use std::rt::Files;
use std::{fs, io};

/// The files of a folder of the system: file F of stream S is `S/F` in it.
///
/// It does not tell what it holds. Which system calls it makes, and why a file stands after them, is
/// argued here and not proved:
/// - `write_at` makes the stream's folder where it is missing, opens the file or makes it, and writes.
///   Nothing is sure then.
/// - `cut` sets the file's length. Nothing is sure then.
/// - `sync` syncs the file, then the stream's folder, which names the file, then the whole folder, which
///   names the stream's folder. So a file that was made stands after it.
/// - After a sync that failed the system may count what it could not write as written, so the next sync
///   of that file alone would promise too much. Therefore a file is noted before its sync and forgotten
///   once that is done; where it is noted already, `sync` first writes all of its bytes again, as a read
///   gives them. Until that is done a read may give older bytes: who reads after a sync that is done,
///   as `read_file` does, never sees them.
/// - `remove` unlinks the file and syncs the stream's folder, also where it finds no file: one that an
///   earlier call unlinked may not be gone on the disk. So the removal stands after `Done`.
/// - `names` fails where the listing fails before its end. A stream without a folder has no files.
#[derive(Drop)]
pub struct DirDisk<R: Files + AllocGlobal + Clone + Drop> {
    rt: R,
    root: String,
    faults: u64,
    // the files of which a sync was begun, and none was done since
    unsure: Vec<FileId>,
}

// Whether a write ends within the greatest size.
fn fits(place: u64, len: usize) -> bool
    ensures { IsTrue result ↔ (place + len < 2 ^ 63) }
{
    match place.checked_add(len as u64) {
        Some(end) => end < 1 << 63,
        None => false,
    }
}

// Counts a fault.
fn count(faults: &mut u64)
    ensures one { faults.new ≡ risen faults.old }
    ensures later { faults.old ≤ faults.new }
    ensures rose { Rose faults.old faults.new }
{
    *faults = faults.saturating_add(1);
}

// The answer, counted where it is a fault.
fn outcome(faults: &mut u64, done: io::Result<()>) -> DiskDid
    ensures ok { OnOk done ((result ≡ DiskDid.Done) × (faults.new ≡ faults.old)) }
    ensures err { OnErr done ((result ≡ DiskDid.Failed) × (faults.new ≡ risen faults.old)) }
    ensures later { faults.old ≤ faults.new }
    ensures rose { result ≡ DiskDid.Failed → Rose faults.old faults.new }
{
    match done {
        Ok(()) => DiskDid::Done,
        Err(_) => {
            count(faults);
            DiskDid::Failed
        }
    }
}

// Whether a file is noted.
fn is_noted(unsure: &[FileId], id: FileId) -> bool {
    unsure.iter().any(|f| *f == id)
}

// Notes a file.
fn note(unsure: &mut Vec<FileId>, id: FileId) -> Result<(), AllocError> {
    unsure.push(id)?;
    Ok(())
}

// Forgets a file.
fn forget(unsure: &mut Vec<FileId>, id: FileId) {
    unsure.retain(|f| *f != id);
}

impl<R: Files + AllocGlobal + Clone + Drop> DirDisk<R> {
    /// The files of the folder `root`, which is to be there.
    pub fn new(rt: R, root: String) -> DirDisk<R>
        ensures faults { result.faults ≡ 0 }
        ensures root { result.root ≡ root }
    {
        let unsure = Vec::new(rt.alloc());
        DirDisk {
            rt,
            root,
            faults: 0,
            unsure,
        }
    }

    fn folder(&self, stream: u32) -> Result<String, AllocError>
        ensures { IfOk result (λ path. string_bytes path ≡ folder_of (string_bytes self.now.root) stream) }
    {
        folder_in(self.rt.alloc(), self.root.as_str(), stream)
    }

    fn path(&self, id: FileId) -> Result<String, AllocError>
        ensures { IfOk result (λ path. string_bytes path ≡ path_of (string_bytes self.now.root) id) }
    {
        path_in(self.rt.alloc(), self.root.as_str(), id)
    }

    fn read_file(&self, id: FileId, place: u64, buf: &mut [u8]) -> io::Result<()> {
        let path = self.path(id)?;
        let mut file = fs::open(&self.rt, &path)?;
        file.seek(SeekFrom::Start(place))?;
        file.read_exact(buf)
    }

    fn write_file(&self, id: FileId, place: u64, bytes: &[u8]) -> io::Result<()> {
        let folder = self.folder(id.stream)?;
        fs::create_dir_all(&self.rt, &folder)?;
        let path = self.path(id)?;
        let mut file = OpenOptions::new()
            .write(true)
            .create(true)
            .open(&self.rt, &path)?;
        file.seek(SeekFrom::Start(place))?;
        file.write_all(bytes)
    }

    // Writes the bytes of a file again, as a read gives them, so that a sync writes all of them.
    fn write_again(&self, id: FileId) -> io::Result<()> {
        let path = self.path(id)?;
        let bytes = fs::read(&self.rt, &path)?;
        let mut file = OpenOptions::new().write(true).open(&self.rt, &path)?;
        file.write_all(&bytes)
    }

    fn cut_file(&self, id: FileId, size: u64) -> io::Result<()> {
        let path = self.path(id)?;
        let file = OpenOptions::new().write(true).open(&self.rt, &path)?;
        file.set_len(size)
    }

    // Syncs the folder of a stream. One that is missing names no file.
    fn sync_folder(&self, stream: u32) -> io::Result<()> {
        let folder = self.folder(stream)?;
        match fs::open(&self.rt, &folder) {
            Ok(folder) => folder.sync_all(),
            Err(error) if error.kind() == ErrorKind::NotFound => Ok(()),
            Err(error) => Err(error),
        }
    }

    fn sync_file(&self, id: FileId) -> io::Result<()> {
        let path = self.path(id)?;
        fs::open(&self.rt, &path)?.sync_all()?;
        self.sync_folder(id.stream)?;
        fs::open(&self.rt, &self.root)?.sync_all()
    }

    // Syncs a file, which is noted while that is not done.
    fn sync_noted(&mut self, id: FileId) -> io::Result<()>
        ensures { self.new.faults ≡ self.old.faults }
    {
        if is_noted(&self.unsure, id) {
            self.write_again(id)?;
        } else {
            note(&mut self.unsure, id)?;
        }
        self.sync_file(id)?;
        forget(&mut self.unsure, id);
        Ok(())
    }

    fn remove_file(&self, id: FileId) -> io::Result<()> {
        let path = self.path(id)?;
        if let Err(error) = fs::remove_file(&self.rt, &path) {
            if error.kind() != ErrorKind::NotFound {
                return Err(error);
            }
        }
        self.sync_folder(id.stream)
    }

    fn size_of_file(&self, id: FileId) -> io::Result<u64> {
        let path = self.path(id)?;
        let metadata = self.rt.metadata(&path)?;
        Ok(metadata.len())
    }

    fn read_names(&self, stream: u32, found: &mut Row<FileId>) -> io::Result<()> {
        let folder = self.folder(stream)?;
        let entries = match fs::read_dir(&self.rt, &folder) {
            Ok(entries) => entries,
            Err(error) if error.kind() == ErrorKind::NotFound => return Ok(()),
            Err(error) => return Err(error),
        };
        for entry in entries {
            let entry = entry?;
            if let Some(file) = file_of(entry.file_name()) {
                if let Err(_) = found.push(FileId { stream, file }) {
                    return Err(io::Error::from(ErrorKind::OutOfMemory));
                }
            }
        }
        Ok(())
    }
}

impl<R: Files + AllocGlobal + Clone + Drop> Disk for DirDisk<R> {
    ghost tells = { ⊥ };

    ghost state = { λ d. record { seen = λ f. None; images = λ f c. ⊥; faults = d.faults } };

    ghost reads_image = { λ d f told. absurd told };

    fn size(&mut self, id: FileId) -> DiskSize {
        match self.size_of_file(id) {
            Ok(size) if size < 1 << 63 => DiskSize::Size(size),
            Err(error) if error.kind() == ErrorKind::NotFound => DiskSize::Missing,
            _ => {
                count(&mut self.faults);
                DiskSize::Failed
            }
        }
    }

    fn read(&mut self, id: FileId, place: u64, buf: &mut [u8]) -> DiskDid {
        let done = self.read_file(id, place, buf);
        outcome(&mut self.faults, done)
    }

    fn write_at(&mut self, id: FileId, place: u64, bytes: &[u8]) -> DiskDid {
        if !fits(place, bytes.len()) {
            count(&mut self.faults);
            return DiskDid::Failed;
        }
        let done = self.write_file(id, place, bytes);
        outcome(&mut self.faults, done)
    }

    fn cut(&mut self, id: FileId, size: u64) -> DiskDid {
        let done = self.cut_file(id, size);
        outcome(&mut self.faults, done)
    }

    fn sync(&mut self, id: FileId) -> DiskDid {
        let done = self.sync_noted(id);
        outcome(&mut self.faults, done)
    }

    fn remove(&mut self, id: FileId) -> DiskDid {
        let done = self.remove_file(id);
        outcome(&mut self.faults, done)
    }

    fn names(&mut self, alloc: Global, stream: u32) -> Result<DiskNames, AllocError> {
        let mut found = Row::new(alloc);
        match self.read_names(stream, &mut found) {
            Ok(()) => Ok(DiskNames::Names(found)),
            Err(error) if error.kind() == ErrorKind::OutOfMemory => Err(AllocError),
            Err(_) => {
                count(&mut self.faults);
                Ok(DiskNames::Failed)
            }
        }
    }
}
