ghost use Rattle.std.specs.Prelude.{◌≡◌, ◌≢◌, ◌+◌, ◌≤◌, ◌++◌, ◌∷◌, [], ℕ, Some, None, true, not, filter, length, take, drop, IfOk, OnOk, OnErr, IsSome, IsTrue, ◌↔◌, ◌==◌, ◌-◌, map};
ghost use Rattle.std.specs.BTreeMap.{get};
ghost use Rattle.disk_calls.specs.Disk.{AreNames, Image, bytes_of};
ghost use Rattle.memory_file.specs.Memory.{CrashedFile, Held, ImageOf, IsCrashed, IsSizeOf, seen_of, sure, with_call, held_at};
ghost use Rattle.member_disk.specs.FilesInOrder.{same, without, last_of};
ghost use Rattle.member_disk.specs.Streams.{Moves, Stays, Crashes, stream_of, no_files, names_there};
ghost use Rattle.member_disk.specs.Settings.{falls_due, after_call};

use disk_calls::{FileId, FileName};
use frame_wire::Row;
use memory_file::{Call, MemoryFile};
use std::alloc::{AllocError, Global};
use std::collections::BTreeMap;

// Takes the settings out that are due.
fn remove_due(settings: &mut Vec<u64>)
    ensures { settings.new.items ≡ filter (λ n. not (n == 0)) settings.old.items }
{
    settings.retain(|n| *n != 0);
}

// Lowers each setting by a call.
fn lower(settings: &mut [u64])
    ensures { settings.new ≡ map (λ n. n - 1) settings.old }
{
    for n in settings.iter_mut() {
        *n = n.saturating_sub(1);
    }
}

// Counts a call: each number is that of the calls that come before one that fails. Answers whether this call does.
fn count_down(settings: &mut Vec<u64>) -> bool
    ensures due { result ≡ falls_due settings.old.items }
    ensures after { settings.new.items ≡ after_call settings.old.items }
{
    let due = settings.iter().any(|n| *n == 0);
    remove_due(settings);
    lower(settings);
    due
}

#[tactic(auto, unfolding(crate::specs::FilesInOrder::same))]
fn is_same(a: FileName, b: FileName) -> bool
    ensures is { result ≡ same a b }
    ensures equal { IsTrue result ↔ (a ≡ b) }
{
    a == b
}

// Whether the last write is to this file.
fn is_last(order: &[FileName], name: FileName) -> bool
    ensures { IsTrue result ↔ (last_of order.now ≡ Some name) }
{
    match order.last() {
        Some(f) => is_same(*f, name),
        None => false,
    }
}

// Takes the writes to a file out of the order.
fn forget(order: &mut Vec<FileName>, name: FileName)
    ensures { order.new.items ≡ without name order.old.items }
{
    order.retain(|f| !is_same(*f, name));
}

fn write_file(
    alloc: Global,
    files: &mut BTreeMap<FileName, MemoryFile>,
    name: FileName,
    place: usize,
    bytes: &[u8],
) -> Result<(), AllocError>
    ensures ok { OnOk result (held_at (get ⟦<FileName as Ord>⟧.cmp files.new name) ≡ with_call (held_at (get ⟦<FileName as Ord>⟧.cmp files.old name)) (Call.Write place bytes.now)) }
    ensures err { OnErr result ((f : _) → held_at (get ⟦<FileName as Ord>⟧.cmp files.new f) ≡ held_at (get ⟦<FileName as Ord>⟧.cmp files.old f)) }
    ensures others { (f : _) → f ≢ name → get ⟦<FileName as Ord>⟧.cmp files.new f ≡ get ⟦<FileName as Ord>⟧.cmp files.old f }
{
    if !files.contains_key(&name) {
        files.insert(name, MemoryFile::new(alloc))?;
    }
    let Some(file) = files.get_mut(&name) else {
        return Err(AllocError);
    };
    file.write_at(place, bytes)
}

fn cut_file(
    files: &mut BTreeMap<FileName, MemoryFile>,
    name: FileName,
    size: usize,
) -> Result<(), AllocError>
    ensures ok { OnOk result (held_at (get ⟦<FileName as Ord>⟧.cmp files.new name) ≡ with_call (held_at (get ⟦<FileName as Ord>⟧.cmp files.old name)) (Call.Cut size)) }
    ensures err { OnErr result ((f : _) → held_at (get ⟦<FileName as Ord>⟧.cmp files.new f) ≡ held_at (get ⟦<FileName as Ord>⟧.cmp files.old f)) }
    ensures others { (f : _) → f ≢ name → get ⟦<FileName as Ord>⟧.cmp files.new f ≡ get ⟦<FileName as Ord>⟧.cmp files.old f }
{
    let Some(file) = files.get_mut(&name) else {
        return Err(AllocError);
    };
    file.cut(size)
}

fn sync_file(files: &mut BTreeMap<FileName, MemoryFile>, name: FileName)
    ensures own { held_at (get ⟦<FileName as Ord>⟧.cmp files.new name) ≡ sure (seen_of (held_at (get ⟦<FileName as Ord>⟧.cmp files.old name))) }
    ensures others { (f : _) → f ≢ name → get ⟦<FileName as Ord>⟧.cmp files.new f ≡ get ⟦<FileName as Ord>⟧.cmp files.old f }
{
    if let Some(file) = files.get_mut(&name) {
        file.sync();
    }
}

fn remove_file(files: &mut BTreeMap<FileName, MemoryFile>, name: FileName)
    ensures own { get ⟦<FileName as Ord>⟧.cmp files.new name ≡ None }
    ensures others { (f : _) → f ≢ name → get ⟦<FileName as Ord>⟧.cmp files.new f ≡ get ⟦<FileName as Ord>⟧.cmp files.old f }
{
    files.remove(&name);
}

fn size_of_file(files: &BTreeMap<FileName, MemoryFile>, name: FileName) -> Option<usize>
    ensures { IsSizeOf (seen_of (held_at (get ⟦<FileName as Ord>⟧.cmp files.now name))) result }
{
    match files.get(&name) {
        Some(file) => file.size(),
        None => None,
    }
}

fn read_file(files: &BTreeMap<FileName, MemoryFile>, name: FileName, place: usize, buf: &mut [u8])
    requires { place + length buf.old ≤ length (bytes_of (seen_of (held_at (get ⟦<FileName as Ord>⟧.cmp files.now name)))) }
    ensures { buf.new ≡ take (length buf.old) (drop place (bytes_of (seen_of (held_at (get ⟦<FileName as Ord>⟧.cmp files.now name))))) }
{
    if let Some(file) = files.get(&name) {
        file.read(place, buf);
    }
}

// The files that are there.
fn names_of(
    alloc: Global,
    files: &BTreeMap<FileName, MemoryFile>,
    stream: u32,
) -> Result<Row<FileId>, AllocError>
    ensures { IfOk result (λ found. AreNames stream (λ f. seen_of (held_at (get ⟦<FileName as Ord>⟧.cmp files.now f.file))) found) }
{
    let mut found = Row::new(alloc);
    for (name, file) in files {
        if file.size().is_some() {
            let id = FileId {
                stream,
                file: *name,
            };
            if let Err(_) = found.push(id) {
                return Err(AllocError);
            }
        }
    }
    Ok(found)
}

fn keep_file(
    files: &mut BTreeMap<FileName, MemoryFile>,
    name: FileName,
    file: MemoryFile,
) -> Result<(), AllocError>
    ensures own { OnOk result (get ⟦<FileName as Ord>⟧.cmp files.new name ≡ Some file) }
    ensures others { OnOk result ((f : _) → f ≢ name → get ⟦<FileName as Ord>⟧.cmp files.new f ≡ get ⟦<FileName as Ord>⟧.cmp files.old f) }
{
    files.insert(name, file)?;
    Ok(())
}

// The files as a crash leaves them.
fn crash_files(
    alloc: Global,
    files: &BTreeMap<FileName, MemoryFile>,
    order: &[FileName],
    image: u8,
) -> Result<BTreeMap<FileName, MemoryFile>, AllocError>
    requires { image ≤ 3 }
    ensures { IfOk result (λ next. (f : FileName) → CrashedFile image (last_of order.now ≡ Some f) (held_at (get ⟦<FileName as Ord>⟧.cmp files.now f)) (held_at (get ⟦<FileName as Ord>⟧.cmp next f))) }
{
    let mut next = BTreeMap::new(alloc);
    for (name, file) in files {
        let crashed = file.crashed(image, is_last(order, *name))?;
        keep_file(&mut next, *name, crashed)?;
    }
    Ok(next)
}

// Writes to a file, and puts it last in the order.
fn write_last(
    alloc: Global,
    files: &mut BTreeMap<FileName, MemoryFile>,
    order: &mut Vec<FileName>,
    name: FileName,
    place: usize,
    bytes: &[u8],
) -> Result<(), AllocError>
    ensures ok { OnOk result ((held_at (get ⟦<FileName as Ord>⟧.cmp files.new name) ≡ with_call (held_at (get ⟦<FileName as Ord>⟧.cmp files.old name)) (Call.Write place bytes.now)) × (order.new.items ≡ order.old.items ++ name ∷ [])) }
    ensures err { OnErr result (((f : _) → held_at (get ⟦<FileName as Ord>⟧.cmp files.new f) ≡ held_at (get ⟦<FileName as Ord>⟧.cmp files.old f)) × (order.new.items ≡ order.old.items)) }
    ensures others { (f : _) → f ≢ name → get ⟦<FileName as Ord>⟧.cmp files.new f ≡ get ⟦<FileName as Ord>⟧.cmp files.old f }
{
    order.push(name)?;
    if let Err(fault) = write_file(alloc, files, name, place, bytes) {
        order.pop();
        return Err(fault);
    }
    Ok(())
}

/// The files of one stream in memory, and the calls on them that are to fail.
#[derive(Drop)]
pub struct MemoryStream {
    alloc: Global,
    files: BTreeMap<FileName, MemoryFile>,
    // the files of the writes that no sync of their file has followed, in the order of the writes
    order: Vec<FileName>,
    // for each call that is to fail, how many come before it
    settings: Vec<u64>,
}

impl MemoryStream {
    /// No files. It takes no memory.
    pub fn new(alloc: Global) -> MemoryStream
        ensures { Stays no_files (stream_of result) }
    {
        MemoryStream {
            alloc,
            files: BTreeMap::new(alloc),
            order: Vec::new(alloc),
            settings: Vec::new(alloc),
        }
    }

    /// Counts a call, and answers whether it is to fail.
    pub fn count_call(&mut self) -> bool
        ensures due { result ≡ falls_due self.old.settings.items }
        ensures after { self.new.settings.items ≡ after_call self.old.settings.items }
        ensures files { self.new.files ≡ self.old.files }
        ensures order { self.new.order ≡ self.old.order }
    {
        count_down(&mut self.settings)
    }

    /// Lets a call fail before which so many come.
    pub fn set(&mut self, calls_before: u64) -> Result<(), AllocError>
        ensures ok { OnOk result (self.new.settings.items ≡ self.old.settings.items ++ calls_before ∷ []) }
        ensures err { OnErr result (self.new.settings.items ≡ self.old.settings.items) }
        ensures files { self.new.files ≡ self.old.files }
        ensures order { self.new.order ≡ self.old.order }
    {
        self.settings.push(calls_before)?;
        Ok(())
    }

    pub fn size(&self, name: FileName) -> Option<usize>
        ensures { IsSizeOf (seen_of ((stream_of self.now).held name)) result }
    {
        size_of_file(&self.files, name)
    }

    pub fn read(&self, name: FileName, place: usize, buf: &mut [u8])
        requires { place + length buf.old ≤ length (bytes_of (seen_of ((stream_of self.now).held name))) }
        ensures { buf.new ≡ take (length buf.old) (drop place (bytes_of (seen_of ((stream_of self.now).held name)))) }
    {
        read_file(&self.files, name, place, buf);
    }

    pub fn write_at(&mut self, name: FileName, place: usize, bytes: &[u8]) -> Result<(), AllocError>
        ensures ok { OnOk result (Moves name (with_call ((stream_of self.old).held name) (Call.Write place bytes.now)) (self.old.order.items ++ name ∷ []) (stream_of self.old) (stream_of self.new)) }
        ensures err { OnErr result (Stays (stream_of self.old) (stream_of self.new)) }
    {
        write_last(
            self.alloc,
            &mut self.files,
            &mut self.order,
            name,
            place,
            bytes,
        )
    }

    pub fn cut(&mut self, name: FileName, size: usize) -> Result<(), AllocError>
        ensures ok { OnOk result (Moves name (with_call ((stream_of self.old).held name) (Call.Cut size)) self.old.order.items (stream_of self.old) (stream_of self.new)) }
        ensures err { OnErr result (Stays (stream_of self.old) (stream_of self.new)) }
    {
        cut_file(&mut self.files, name, size)
    }

    pub fn sync(&mut self, name: FileName)
        ensures { Moves name (sure (seen_of ((stream_of self.old).held name))) (without name self.old.order.items) (stream_of self.old) (stream_of self.new) }
    {
        sync_file(&mut self.files, name);
        forget(&mut self.order, name);
    }

    pub fn remove(&mut self, name: FileName)
        ensures { Moves name (sure None) (without name self.old.order.items) (stream_of self.old) (stream_of self.new) }
    {
        remove_file(&mut self.files, name);
        forget(&mut self.order, name);
    }

    pub fn names(&self, alloc: Global, stream: u32) -> Result<Row<FileId>, AllocError>
        ensures { IfOk result (λ found. AreNames stream (λ f. seen_of ((stream_of self.now).held f.file)) found) }
    {
        names_of(alloc, &self.files, stream)
    }

    /// The stream as a crash leaves it, with no settings.
    pub fn crashed(&self, image: u8) -> Result<MemoryStream, AllocError>
        requires { image ≤ 3 }
        ensures { IfOk result (λ next. Crashes image (stream_of self.now) (stream_of next)) }
    {
        let files = crash_files(self.alloc, &self.files, &self.order, image)?;
        Ok(MemoryStream {
            alloc: self.alloc,
            files,
            order: Vec::new(self.alloc),
            settings: Vec::new(self.alloc),
        })
    }
}
