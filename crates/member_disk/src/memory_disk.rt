ghost use Rattle.std.specs.Prelude.{◌≡◌, ◌+◌, ◌-◌, ◌<◌, ◌≤◌, ◌^◌, ◌++◌, ◌∷◌, [], ℕ, length, take, drop, true, Some, None, Ok, OnOk, OnErr, ⊤};
ghost use Rattle.disk_calls.specs.Disk.{DiskState, HasCause, Looks, Changes, Only, TornFile, CutFile, RemovedFile, bytes_of, over, Sizes, Names, IsThere, LeftByCrash};
ghost use Rattle.member_disk.specs.Counting.{CountsFault};
ghost use Rattle.member_disk.specs.FilesInOrder.{without};
ghost use Rattle.memory_file.specs.Memory.{seen_of, sure, with_call};
ghost use Rattle.member_disk.specs.Settings.{falls_due};
ghost use Rattle.member_disk.specs.Streams.{Crashes, Stays, no_files};
ghost use Rattle.member_disk.specs.MemoryDisks.{OnStream, Counts, Does, FailsExactly, files_in, held_in, state_of};
ghost use Rattle.memory_file.specs.TornDone.{all_done_tears};

use crate::memory_map::{
    Happened, answer, count_in, crash_in, cut_counted, names_in, read_in, remove_counted, set_in,
    size_in, sync_counted, write_counted,
};
use crate::memory_stream::MemoryStream;
use disk_calls::{Disk, DiskDid, DiskNames, DiskSize, FileId};
use memory_file::Call;
use std::alloc::{AllocError, Global};
use std::collections::BTreeMap;

/// Files in memory, which a crash may leave in one of four images.
#[derive(Drop)]
pub struct MemoryDisk {
    alloc: Global,
    streams: BTreeMap<u32, MemoryStream>,
    faults: u64,
    refused: u64,
}

impl MemoryDisk {
    /// No files, no faults and no settings. It takes no memory.
    pub fn new(alloc: Global) -> MemoryDisk
        ensures files { (n : ℕ) → files_in result.streams n ≡ no_files }
        ensures faults { result.faults ≡ 0 }
        ensures refused { result.refused ≡ 0 }
    {
        MemoryDisk {
            alloc,
            streams: BTreeMap::new(alloc),
            faults: 0,
            refused: 0,
        }
    }

    /// Lets the nth next call on a stream's files fail, of whatever kind it is. That call changes
    /// nothing. Several settings stand side by side. Where memory runs out there is no new setting.
    pub fn fail_after(&mut self, stream: u32, n: u64) -> Result<(), AllocError>
        requires { 1 ≤ n }
        ensures ok { OnOk result (OnStream stream (λ s t. Stays (record { held = s.held; order = s.order; settings = s.settings ++ (n - 1) ∷ [] }) t) self.old.streams self.new.streams) }
        ensures err { OnErr result (OnStream stream Stays self.old.streams self.new.streams) }
        ensures faults { self.new.faults ≡ self.old.faults }
        ensures refused { self.new.refused ≡ self.old.refused }
    {
        set_in(self.alloc, &mut self.streams, stream, n - 1)
    }

    /// Leaves the files of a stream as a crash may, and forgets the stream's settings.
    ///
    /// Image 0: no unsynced write or cut took effect. 1: all did. 2: all did, but of the stream's last
    /// unsynced write only its first half, rounded down; a file that this write made longer ends with
    /// the half, or at its old end where that is later. 3: all did, but each byte that the last
    /// unsynced write gave is 0xa5. Where memory runs out all stays.
    pub fn crash(&mut self, stream: u32, image: u8) -> Result<(), AllocError>
        requires { image ≤ 3 }
        ensures ok { OnOk result (OnStream stream (Crashes image) self.old.streams self.new.streams) }
        ensures left { OnOk result (LeftByCrash stream (state_of self.old.streams self.old.faults) (state_of self.new.streams self.new.faults)) }
        ensures err { OnErr result (OnStream stream Stays self.old.streams self.new.streams) }
        ensures faults { self.new.faults ≡ self.old.faults }
        ensures refused { self.new.refused ≡ self.old.refused }
    {
        crash_in(&mut self.streams, stream, image)
    }

    /// How many growths were refused for want of memory. It stops at its greatest value.
    pub fn refused(&self) -> u64
        ensures { result ≡ self.now.refused }
    {
        self.refused
    }
}

impl Disk for MemoryDisk {
    ghost tells = { ⊤ };

    ghost state = { λ d. state_of d.streams d.faults };

    ghost reads_image = { λ d f told. all_done_tears (held_in d.streams f).calls (held_in d.streams f).base };

    fn size(&mut self, id: FileId) -> DiskSize
        ensures looks { Looks (state_of self.old.streams self.old.faults) (state_of self.new.streams self.new.faults) }
        ensures size { Sizes (seen_of (held_in self.old.streams id)) result }
        ensures bound { (n : ℕ) → result ≡ DiskSize.Size n → n < 2 ^ 63 }
        ensures cause { HasCause (result ≡ DiskSize.Failed) (state_of self.old.streams self.old.faults) (state_of self.new.streams self.new.faults) }
        ensures counts { OnStream id.stream Counts self.old.streams self.new.streams }
        ensures fails { FailsExactly (result ≡ DiskSize.Failed) (falls_due (files_in self.old.streams id.stream).settings) self.old.refused self.new.refused }
        ensures counted { CountsFault (result ≡ DiskSize.Failed) self.old.faults self.new.faults }
    {
        if count_in(&mut self.streams, id.stream) {
            answer(&mut self.faults, &mut self.refused, Happened::Due);
            return DiskSize::Failed;
        }
        match size_in(&self.streams, id) {
            Some(size) => DiskSize::Size(size as u64),
            None => DiskSize::Missing,
        }
    }

    fn read(&mut self, id: FileId, place: u64, buf: &mut [u8]) -> DiskDid
        requires { place + length buf.old ≤ length (bytes_of (seen_of (held_in self.old.streams id))) }
        ensures looks { Looks (state_of self.old.streams self.old.faults) (state_of self.new.streams self.new.faults) }
        ensures bytes { result ≡ DiskDid.Done → buf.new ≡ take (length buf.old) (drop place (bytes_of (seen_of (held_in self.old.streams id)))) }
        ensures cause { HasCause (result ≡ DiskDid.Failed) (state_of self.old.streams self.old.faults) (state_of self.new.streams self.new.faults) }
        ensures counts { OnStream id.stream Counts self.old.streams self.new.streams }
        ensures fails { FailsExactly (result ≡ DiskDid.Failed) (falls_due (files_in self.old.streams id.stream).settings) self.old.refused self.new.refused }
        ensures counted { CountsFault (result ≡ DiskDid.Failed) self.old.faults self.new.faults }
    {
        if count_in(&mut self.streams, id.stream) {
            return answer(&mut self.faults, &mut self.refused, Happened::Due);
        }
        read_in(&self.streams, id, place as usize, buf);
        DiskDid::Done
    }

    fn write_at(&mut self, id: FileId, place: u64, bytes: &[u8]) -> DiskDid
        ensures changes { Changes id (TornFile place (length bytes.now)) (state_of self.old.streams self.old.faults) (state_of self.new.streams self.new.faults) }
        ensures written { result ≡ DiskDid.Done → seen_of (held_in self.new.streams id) ≡ Some (over (bytes_of (seen_of (held_in self.old.streams id))) place bytes.now) }
        ensures large { 2 ^ 63 ≤ place + length bytes.now → result ≡ DiskDid.Failed }
        ensures cause { HasCause (result ≡ DiskDid.Failed) (state_of self.old.streams self.old.faults) (state_of self.new.streams self.new.faults) }
        ensures done { result ≡ DiskDid.Done → OnStream id.stream (Does id.file (λ h. with_call h (Call.Write place bytes.now)) (λ fs. fs ++ id.file ∷ [])) self.old.streams self.new.streams }
        ensures failed { result ≡ DiskDid.Failed → OnStream id.stream Counts self.old.streams self.new.streams }
        ensures fails { FailsExactly (result ≡ DiskDid.Failed) (falls_due (files_in self.old.streams id.stream).settings) self.old.refused self.new.refused }
        ensures counted { CountsFault (result ≡ DiskDid.Failed) self.old.faults self.new.faults }
    {
        let did = write_counted(self.alloc, &mut self.streams, id, place, bytes);
        answer(&mut self.faults, &mut self.refused, did)
    }

    fn cut(&mut self, id: FileId, size: u64) -> DiskDid
        requires { IsThere (seen_of (held_in self.old.streams id)) }
        ensures changes { Changes id (CutFile size) (state_of self.old.streams self.old.faults) (state_of self.new.streams self.new.faults) }
        ensures written { result ≡ DiskDid.Done → seen_of (held_in self.new.streams id) ≡ Some (take size (bytes_of (seen_of (held_in self.old.streams id)))) }
        ensures cause { HasCause (result ≡ DiskDid.Failed) (state_of self.old.streams self.old.faults) (state_of self.new.streams self.new.faults) }
        ensures done { result ≡ DiskDid.Done → OnStream id.stream (Does id.file (λ h. with_call h (Call.Cut size)) (λ fs. fs)) self.old.streams self.new.streams }
        ensures failed { result ≡ DiskDid.Failed → OnStream id.stream Counts self.old.streams self.new.streams }
        ensures fails { FailsExactly (result ≡ DiskDid.Failed) (falls_due (files_in self.old.streams id.stream).settings) self.old.refused self.new.refused }
        ensures counted { CountsFault (result ≡ DiskDid.Failed) self.old.faults self.new.faults }
    {
        let did = cut_counted(&mut self.streams, id, size);
        answer(&mut self.faults, &mut self.refused, did)
    }

    fn sync(&mut self, id: FileId) -> DiskDid
        ensures looks { Looks (state_of self.old.streams self.old.faults) (state_of self.new.streams self.new.faults) }
        ensures durable { result ≡ DiskDid.Done → Only ((state_of self.new.streams self.new.faults).seen id) ((state_of self.new.streams self.new.faults).images id) }
        ensures cause { HasCause (result ≡ DiskDid.Failed) (state_of self.old.streams self.old.faults) (state_of self.new.streams self.new.faults) }
        ensures done { result ≡ DiskDid.Done → OnStream id.stream (Does id.file (λ h. sure (seen_of h)) (without id.file)) self.old.streams self.new.streams }
        ensures failed { result ≡ DiskDid.Failed → OnStream id.stream Counts self.old.streams self.new.streams }
        ensures fails { FailsExactly (result ≡ DiskDid.Failed) (falls_due (files_in self.old.streams id.stream).settings) self.old.refused self.new.refused }
        ensures counted { CountsFault (result ≡ DiskDid.Failed) self.old.faults self.new.faults }
    {
        let did = sync_counted(&mut self.streams, id);
        answer(&mut self.faults, &mut self.refused, did)
    }

    fn remove(&mut self, id: FileId) -> DiskDid
        ensures changes { Changes id RemovedFile (state_of self.old.streams self.old.faults) (state_of self.new.streams self.new.faults) }
        ensures missing { seen_of (held_in self.old.streams id) ≡ None → Looks (state_of self.old.streams self.old.faults) (state_of self.new.streams self.new.faults) }
        ensures gone { result ≡ DiskDid.Done → seen_of (held_in self.new.streams id) ≡ None }
        ensures happened { result ≡ DiskDid.Done → Only None ((state_of self.new.streams self.new.faults).images id) }
        ensures cause { HasCause (result ≡ DiskDid.Failed) (state_of self.old.streams self.old.faults) (state_of self.new.streams self.new.faults) }
        ensures done { result ≡ DiskDid.Done → OnStream id.stream (Does id.file (λ h. sure None) (without id.file)) self.old.streams self.new.streams }
        ensures failed { result ≡ DiskDid.Failed → OnStream id.stream Counts self.old.streams self.new.streams }
        ensures fails { FailsExactly (result ≡ DiskDid.Failed) (falls_due (files_in self.old.streams id.stream).settings) self.old.refused self.new.refused }
        ensures counted { CountsFault (result ≡ DiskDid.Failed) self.old.faults self.new.faults }
    {
        let did = remove_counted(&mut self.streams, id);
        answer(&mut self.faults, &mut self.refused, did)
    }

    fn names(&mut self, alloc: Global, stream: u32) -> Result<DiskNames, AllocError>
        ensures looks { Looks (state_of self.old.streams self.old.faults) (state_of self.new.streams self.new.faults) }
        ensures names { Names stream (λ f. seen_of (held_in self.old.streams f)) result }
        ensures cause { HasCause (result ≡ Ok DiskNames.Failed) (state_of self.old.streams self.old.faults) (state_of self.new.streams self.new.faults) }
        ensures counts { OnStream stream Counts self.old.streams self.new.streams }
        ensures fails { FailsExactly (result ≡ Ok DiskNames.Failed) (falls_due (files_in self.old.streams stream).settings) self.old.refused self.new.refused }
        ensures counted { CountsFault (result ≡ Ok DiskNames.Failed) self.old.faults self.new.faults }
    {
        if count_in(&mut self.streams, stream) {
            answer(&mut self.faults, &mut self.refused, Happened::Due);
            return Ok(DiskNames::Failed);
        }
        let found = names_in(alloc, &self.streams, stream)?;
        Ok(DiskNames::Names(found))
    }
}
