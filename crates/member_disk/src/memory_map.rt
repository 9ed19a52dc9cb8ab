ghost use Rattle.std.specs.Prelude.{◌≡◌, ◌+◌, ◌≤◌, ◌++◌, ◌∷◌, [], ℕ, ◌^◌, ◌≢◌, Some, None, true, length, take, drop, IfOk, OnOk, OnErr};
ghost use Rattle.std.specs.Ordering.{nat_cmp};
ghost use Rattle.std.specs.BTreeMap.{get};
ghost use Rattle.disk_calls.specs.Disk.{AreNames, bytes_of};
ghost use Rattle.member_disk.specs.FilesInOrder.{without};
ghost use Rattle.memory_file.specs.Memory.{Held, IsSizeOf, seen_of, sure, with_call};
ghost use Rattle.member_disk.specs.Settings.{falls_due};
ghost use Rattle.member_disk.specs.Streams.{Stream, Moves, Stays, Crashes, stream_of, no_files, names_there};
ghost use Rattle.member_disk.specs.MemoryDisks.{OnStream, Counts, Does, Takes, Answers, stream_at, files_in, held_in};

use crate::memory_stream::MemoryStream;
use disk_calls::{DiskDid, FileId};
use frame_wire::Row;
use memory_file::Call;
use std::alloc::{AllocError, Global};
use std::collections::BTreeMap;

/// What a counted call came to.
#[derive(Clone, Copy, Debug, PartialEq, Eq)]
pub enum Happened {
    Done,
    /// A setting fell due at it.
    Due,
    /// It found no memory.
    Refused,
}

/// Counts a call on a stream, and answers whether it is to fail.
pub fn count_in(streams: &mut BTreeMap<u32, MemoryStream>, stream: u32) -> bool
    ensures due { result ≡ falls_due (files_in streams.old stream).settings }
    ensures counts { OnStream stream Counts streams.old streams.new }
{
    let Some(files) = streams.get_mut(&stream) else {
        return false;
    };
    files.count_call()
}

pub fn size_in(streams: &BTreeMap<u32, MemoryStream>, id: FileId) -> Option<usize>
    ensures { IsSizeOf (seen_of (held_in streams.now id)) result }
{
    match streams.get(&id.stream) {
        Some(files) => files.size(id.file),
        None => None,
    }
}

pub fn read_in(streams: &BTreeMap<u32, MemoryStream>, id: FileId, place: usize, buf: &mut [u8])
    requires { place + length buf.old ≤ length (bytes_of (seen_of (held_in streams.now id))) }
    ensures { buf.new ≡ take (length buf.old) (drop place (bytes_of (seen_of (held_in streams.now id)))) }
{
    if let Some(files) = streams.get(&id.stream) {
        files.read(id.file, place, buf);
    }
}

// Makes room for a stream's files.
fn add_stream(
    alloc: Global,
    streams: &mut BTreeMap<u32, MemoryStream>,
    stream: u32,
) -> Result<(), AllocError>
    ensures { OnStream stream Stays streams.old streams.new }
{
    if !streams.contains_key(&stream) {
        streams.insert(stream, MemoryStream::new(alloc))?;
    }
    Ok(())
}

fn write_there(
    streams: &mut BTreeMap<u32, MemoryStream>,
    id: FileId,
    place: usize,
    bytes: &[u8],
) -> Result<(), AllocError>
    ensures ok { OnOk result (OnStream id.stream (λ s t. Moves id.file (with_call (s.held id.file) (Call.Write place bytes.now)) (s.order ++ id.file ∷ []) s t) streams.old streams.new) }
    ensures err { OnErr result (OnStream id.stream Stays streams.old streams.new) }
{
    let Some(files) = streams.get_mut(&id.stream) else {
        return Err(AllocError);
    };
    files.write_at(id.file, place, bytes)
}

pub fn write_in(
    alloc: Global,
    streams: &mut BTreeMap<u32, MemoryStream>,
    id: FileId,
    place: usize,
    bytes: &[u8],
) -> Result<(), AllocError>
    ensures ok { OnOk result (OnStream id.stream (λ s t. Moves id.file (with_call (s.held id.file) (Call.Write place bytes.now)) (s.order ++ id.file ∷ []) s t) streams.old streams.new) }
    ensures err { OnErr result (OnStream id.stream Stays streams.old streams.new) }
{
    add_stream(alloc, streams, id.stream)?;
    write_there(streams, id, place, bytes)
}

pub fn cut_in(
    streams: &mut BTreeMap<u32, MemoryStream>,
    id: FileId,
    size: usize,
) -> Result<(), AllocError>
    ensures ok { OnOk result (OnStream id.stream (λ s t. Moves id.file (with_call (s.held id.file) (Call.Cut size)) s.order s t) streams.old streams.new) }
    ensures err { OnErr result (OnStream id.stream Stays streams.old streams.new) }
{
    let Some(files) = streams.get_mut(&id.stream) else {
        return Err(AllocError);
    };
    files.cut(id.file, size)
}

pub fn sync_in(streams: &mut BTreeMap<u32, MemoryStream>, id: FileId)
    ensures { OnStream id.stream (λ s t. Moves id.file (sure (seen_of (s.held id.file))) (without id.file s.order) s t) streams.old streams.new }
{
    if let Some(files) = streams.get_mut(&id.stream) {
        files.sync(id.file);
    }
}

pub fn remove_in(streams: &mut BTreeMap<u32, MemoryStream>, id: FileId)
    ensures { OnStream id.stream (λ s t. Moves id.file (sure None) (without id.file s.order) s t) streams.old streams.new }
{
    if let Some(files) = streams.get_mut(&id.stream) {
        files.remove(id.file);
    }
}

fn set_there(
    streams: &mut BTreeMap<u32, MemoryStream>,
    stream: u32,
    calls_before: u64,
) -> Result<(), AllocError>
    ensures ok { OnOk result (OnStream stream (λ s t. Stays (record { held = s.held; order = s.order; settings = s.settings ++ calls_before ∷ [] }) t) streams.old streams.new) }
    ensures err { OnErr result (OnStream stream Stays streams.old streams.new) }
{
    let Some(files) = streams.get_mut(&stream) else {
        return Err(AllocError);
    };
    files.set(calls_before)
}

/// Lets a call on a stream fail before which so many come.
pub fn set_in(
    alloc: Global,
    streams: &mut BTreeMap<u32, MemoryStream>,
    stream: u32,
    calls_before: u64,
) -> Result<(), AllocError>
    ensures ok { OnOk result (OnStream stream (λ s t. Stays (record { held = s.held; order = s.order; settings = s.settings ++ calls_before ∷ [] }) t) streams.old streams.new) }
    ensures err { OnErr result (OnStream stream Stays streams.old streams.new) }
{
    add_stream(alloc, streams, stream)?;
    set_there(streams, stream, calls_before)
}

pub fn names_in(
    alloc: Global,
    streams: &BTreeMap<u32, MemoryStream>,
    stream: u32,
) -> Result<Row<FileId>, AllocError>
    ensures { IfOk result (λ found. AreNames stream (λ f. seen_of (held_in streams.now f)) found) }
{
    match streams.get(&stream) {
        Some(files) => files.names(alloc, stream),
        None => Ok(Row::new(alloc)),
    }
}

/// The stream as a crash leaves it. Where memory runs out it stays.
pub fn crash_in(
    streams: &mut BTreeMap<u32, MemoryStream>,
    stream: u32,
    image: u8,
) -> Result<(), AllocError>
    requires { image ≤ 3 }
    ensures ok { OnOk result (OnStream stream (Crashes image) streams.old streams.new) }
    ensures err { OnErr result (OnStream stream Stays streams.old streams.new) }
{
    if let Some(files) = streams.get_mut(&stream) {
        *files = files.crashed(image)?;
    }
    Ok(())
}

/// The counted write. One that would end past 9,223,372,036,854,775,807 is refused.
pub fn write_counted(
    alloc: Global,
    streams: &mut BTreeMap<u32, MemoryStream>,
    id: FileId,
    place: u64,
    bytes: &[u8],
) -> Happened
    ensures takes { Takes result (falls_due (files_in streams.old id.stream).settings) (OnStream id.stream (Does id.file (λ h. with_call h (Call.Write place bytes.now)) (λ fs. fs ++ id.file ∷ [])) streams.old streams.new) (OnStream id.stream Counts streams.old streams.new) (OnStream id.stream Counts streams.old streams.new) }
    ensures large { 2 ^ 63 ≤ place + length bytes.now → result ≢ Happened.Done }
{
    if count_in(streams, id.stream) {
        return Happened::Due;
    }
    let is_small = match place.checked_add(bytes.len() as u64) {
        Some(end) => end < 1 << 63,
        None => false,
    };
    if !is_small {
        return Happened::Refused;
    }
    match write_in(alloc, streams, id, place as usize, bytes) {
        Ok(()) => Happened::Done,
        Err(_) => Happened::Refused,
    }
}

pub fn cut_counted(streams: &mut BTreeMap<u32, MemoryStream>, id: FileId, size: u64) -> Happened
    ensures { Takes result (falls_due (files_in streams.old id.stream).settings) (OnStream id.stream (Does id.file (λ h. with_call h (Call.Cut size)) (λ fs. fs)) streams.old streams.new) (OnStream id.stream Counts streams.old streams.new) (OnStream id.stream Counts streams.old streams.new) }
{
    if count_in(streams, id.stream) {
        return Happened::Due;
    }
    match cut_in(streams, id, size as usize) {
        Ok(()) => Happened::Done,
        Err(_) => Happened::Refused,
    }
}

pub fn sync_counted(streams: &mut BTreeMap<u32, MemoryStream>, id: FileId) -> Happened
    ensures { Takes result (falls_due (files_in streams.old id.stream).settings) (OnStream id.stream (Does id.file (λ h. sure (seen_of h)) (without id.file)) streams.old streams.new) (OnStream id.stream Counts streams.old streams.new) (OnStream id.stream Counts streams.old streams.new) }
{
    if count_in(streams, id.stream) {
        return Happened::Due;
    }
    sync_in(streams, id);
    Happened::Done
}

pub fn remove_counted(streams: &mut BTreeMap<u32, MemoryStream>, id: FileId) -> Happened
    ensures { Takes result (falls_due (files_in streams.old id.stream).settings) (OnStream id.stream (Does id.file (λ h. sure None) (without id.file)) streams.old streams.new) (OnStream id.stream Counts streams.old streams.new) (OnStream id.stream Counts streams.old streams.new) }
{
    if count_in(streams, id.stream) {
        return Happened::Due;
    }
    remove_in(streams, id);
    Happened::Done
}

/// The answer of a counted call, which counts where it failed.
pub fn answer(faults: &mut u64, refused: &mut u64, did: Happened) -> DiskDid
    ensures { Answers did faults.old faults.new refused.old refused.new result }
{
    match did {
        Happened::Done => DiskDid::Done,
        Happened::Due => {
            *faults = faults.saturating_add(1);
            DiskDid::Failed
        }
        Happened::Refused => {
            *faults = faults.saturating_add(1);
            *refused = refused.saturating_add(1);
            DiskDid::Failed
        }
    }
}
