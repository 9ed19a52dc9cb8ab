ghost use Rattle.std.specs.Prelude.{◌≡◌, ◌+◌, ◌≤◌, ◌++◌, ◌∷◌, [], ℕ, Some, None, true, length, take, drop, IfOk, OnOk, OnErr};
ghost use Rattle.disk_calls.specs.Disk.{Image, bytes_of, over};
ghost use Rattle.memory_file.specs.Memory.{Held, ImageOf, IsCrashed, IsSizeOf, done, all_done, has_write, torn_call, torn_last, half, all_a5, seen_of, sure, with_call};
ghost use Rattle.memory_file.specs.Undone.{given_back, part_of, takes, undone};

use byte_pieces::Pieces;
use frame_wire::Octets;
use std::alloc::{AllocError, Global};
use std::marker::Model;

/// A call that no sync has followed.
#[derive(Debug, Drop)]
pub enum Call {
    Write { place: usize, bytes: Octets },
    Cut { size: usize },
}

/// What a call took from a file.
#[derive(Debug, Drop)]
pub enum Took {
    /// The file was missing.
    Missing,
    /// These bytes stood at this place, and the file had this size.
    Bytes {
        place: usize,
        bytes: Octets,
        size: usize,
    },
}

// Writes to a file, which is made where it is missing.
fn put_file(
    alloc: Global,
    file: &mut Option<Pieces>,
    place: usize,
    bytes: &[u8],
) -> Result<(), AllocError>
    ensures ok { OnOk result (file.new ≡ Some (over (bytes_of file.old) place bytes.now)) }
    ensures err { OnErr result (file.new ≡ file.old) }
{
    match file {
        Some(held) => held.put(place, bytes),
        None => {
            let mut made = Pieces::new(alloc);
            made.put(place, bytes)?;
            *file = Some(made);
            Ok(())
        }
    }
}

fn cut_file(file: &mut Option<Pieces>, size: usize)
    ensures { file.new ≡ done (Call.Cut size) file.old }
{
    if let Some(held) = file {
        held.cut(size);
    }
}

// Does a call.
fn redo(alloc: Global, file: &mut Option<Pieces>, call: &Call) -> Result<(), AllocError>
    ensures ok { OnOk result (file.new ≡ done call.now file.old) }
    ensures err { OnErr result (file.new ≡ file.old) }
{
    match call {
        Call::Write { place, bytes } => put_file(alloc, file, *place, bytes.as_slice()),
        Call::Cut { size } => {
            cut_file(file, *size);
            Ok(())
        }
    }
}

// The bytes at a place, at most so many.
fn bytes_at(alloc: Global, held: &Pieces, place: usize, most: usize) -> Result<Octets, AllocError>
    ensures { IfOk result (λ bytes. bytes ≡ take most (drop place held.now)) }
{
    let place = place.min(held.len());
    let count = most.min(held.len() - place);
    let mut buf = Vec::from_elem(alloc, 0, count)?;
    held.read(place, &mut buf);
    Octets::copy(alloc, &buf)
}

// The bytes of a file at a place, at most so many, and its size.
fn part(alloc: Global, file: &Option<Pieces>, place: usize, most: usize) -> Result<Took, AllocError>
    ensures { IfOk result (λ t. t ≡ part_of place most file.now) }
{
    match file {
        Some(held) => {
            let bytes = bytes_at(alloc, held, place, most)?;
            Ok(Took::Bytes {
                place,
                bytes,
                size: held.len(),
            })
        }
        None => Ok(Took::Missing),
    }
}

// Keeps a call and what it takes, or neither.
fn keep(
    calls: &mut Vec<Call>,
    took: &mut Vec<Took>,
    call: Call,
    taken: Took,
) -> Result<(), AllocError>
    ensures ok { OnOk result ((calls.new.items ≡ calls.old.items ++ call ∷ []) × (took.new.items ≡ took.old.items ++ taken ∷ [])) }
    ensures err { OnErr result ((calls.new.items ≡ calls.old.items) × (took.new.items ≡ took.old.items)) }
{
    calls.push(call)?;
    if let Err(_) = took.push(taken) {
        calls.pop();
        return Err(AllocError);
    }
    Ok(())
}

// Does a write and keeps it as a call, or does neither.
fn put_call(
    alloc: Global,
    calls: &mut Vec<Call>,
    took: &mut Vec<Took>,
    file: &mut Option<Pieces>,
    place: usize,
    bytes: &[u8],
) -> Result<(), AllocError>
    ensures ok { OnOk result ((calls.new.items ≡ calls.old.items ++ Call.Write place bytes.now ∷ []) × (took.new.items ≡ took.old.items ++ takes (Call.Write place bytes.now) file.old ∷ []) × (file.new ≡ done (Call.Write place bytes.now) file.old)) }
    ensures err { OnErr result ((calls.new.items ≡ calls.old.items) × (took.new.items ≡ took.old.items) × (file.new ≡ file.old)) }
{
    let taken = part(alloc, file, place, bytes.len())?;
    let kept = Octets::copy(alloc, bytes)?;
    keep(calls, took, Call::Write { place, bytes: kept }, taken)?;
    if let Err(fault) = put_file(alloc, file, place, bytes) {
        calls.pop();
        took.pop();
        return Err(fault);
    }
    Ok(())
}

// The number of bytes of a file, none where it is missing.
fn size_of(file: &Option<Pieces>) -> usize
    ensures { result ≡ length (bytes_of file.now) }
{
    match file {
        Some(held) => held.len(),
        None => 0,
    }
}

// Cuts a file and keeps that as a call, or does neither.
fn cut_call(
    alloc: Global,
    calls: &mut Vec<Call>,
    took: &mut Vec<Took>,
    file: &mut Option<Pieces>,
    size: usize,
) -> Result<(), AllocError>
    ensures ok { OnOk result ((calls.new.items ≡ calls.old.items ++ Call.Cut size ∷ []) × (took.new.items ≡ took.old.items ++ takes (Call.Cut size) file.old ∷ []) × (file.new ≡ done (Call.Cut size) file.old)) }
    ensures err { OnErr result ((calls.new.items ≡ calls.old.items) × (took.new.items ≡ took.old.items) × (file.new ≡ file.old)) }
{
    let taken = part(alloc, file, size, size_of(file))?;
    keep(calls, took, Call::Cut { size }, taken)?;
    cut_file(file, size);
    Ok(())
}

// Gives back what a call took.
fn give_back(alloc: Global, file: &mut Option<Pieces>, taken: &Took) -> Result<(), AllocError>
    ensures { OnOk result (file.new ≡ given_back taken.now file.old) }
{
    match taken {
        Took::Missing => {
            *file = None;
            Ok(())
        }
        Took::Bytes { place, bytes, size } => {
            cut_file(file, *size);
            put_file(alloc, file, *place, bytes.as_slice())
        }
    }
}

// Gives back what calls took, of the last one first.
fn undo(alloc: Global, file: &mut Option<Pieces>, took: &[Took]) -> Result<(), AllocError>
    ensures { OnOk result (file.new ≡ undone took.now file.old) }
{
    let mut left = took.len();
    while left > 0 {
        left -= 1;
        give_back(alloc, file, &took[left])?;
    }
    Ok(())
}

fn any_write(calls: &[Call]) -> bool
    ensures { result ≡ has_write calls.now }
{
    for call in calls {
        if let Call::Write { .. } = call {
            return true;
        }
    }
    false
}

// The bytes that a crash leaves of the last write: image 2 has its first half, image 3 other bytes.
fn torn_bytes(alloc: Global, bytes: &[u8], image: u8) -> Result<Vec<u8>, AllocError>
    ensures half { image ≡ 2 → IfOk result (λ torn. torn.items ≡ half bytes.now) }
    ensures other { image ≡ 3 → IfOk result (λ torn. torn.items ≡ all_a5 bytes.now) }
{
    if image == 2 {
        let torn = Vec::from_slice(alloc, &bytes[..bytes.len() / 2])?;
        Ok(torn)
    } else {
        let torn = Vec::from_elem(alloc, 0xa5, bytes.len())?;
        Ok(torn)
    }
}

// Does a call, of the last write only what a crash leaves of it.
fn tear(
    alloc: Global,
    file: &mut Option<Pieces>,
    call: &Call,
    later: bool,
    image: u8,
) -> Result<(), AllocError>
    ensures half { image ≡ 2 → OnOk result (file.new ≡ done (torn_call half call.now later) file.old) }
    ensures other { image ≡ 3 → OnOk result (file.new ≡ done (torn_call all_a5 call.now later) file.old) }
{
    if later {
        return redo(alloc, file, call);
    }
    match call {
        Call::Write { place, bytes } => {
            let torn = torn_bytes(alloc, bytes.as_slice(), image)?;
            put_file(alloc, file, *place, &torn)
        }
        Call::Cut { size } => {
            cut_file(file, *size);
            Ok(())
        }
    }
}

// Does the calls, of the last write only what a crash leaves of it.
fn tear_last(
    alloc: Global,
    file: &mut Option<Pieces>,
    calls: &[Call],
    image: u8,
) -> Result<(), AllocError>
    ensures half { image ≡ 2 → OnOk result (file.new ≡ all_done (torn_last half calls.now) file.old) }
    ensures other { image ≡ 3 → OnOk result (file.new ≡ all_done (torn_last all_a5 calls.now) file.old) }
{
    for (i, call) in calls.iter().enumerate() {
        let later = any_write(&calls[i + 1..]);
        tear(alloc, file, call, later, image)?;
    }
    Ok(())
}

fn copy(file: &Option<Pieces>) -> Result<Option<Pieces>, AllocError>
    ensures { IfOk result (λ c. c ≡ file.now) }
{
    match file {
        Some(held) => Ok(Some(held.copy()?)),
        None => Ok(None),
    }
}

// What a crash leaves.
fn image_after(
    alloc: Global,
    now: &Option<Pieces>,
    calls: &[Call],
    took: &[Took],
    image: u8,
    is_last: bool,
) -> Result<Option<Pieces>, AllocError>
    requires few { image ≤ 3 }
    requires follows { now.now ≡ all_done calls.now (undone took.now now.now) }
    ensures picked { IfOk result (λ next. IsCrashed image (is_last ≡ true) (record { base = undone took.now now.now; calls = calls.now }) next) }
{
    let mut next = copy(now)?;
    if image == 1 {
        return Ok(next);
    }
    if image > 1 && !is_last {
        return Ok(next);
    }
    undo(alloc, &mut next, took)?;
    if image > 1 {
        tear_last(alloc, &mut next, calls, image)?;
    }
    Ok(next)
}

/// A file in memory: its bytes, the calls that no sync has followed, and what each of them took from it.
#[derive(Debug, Drop)]
pub struct MemoryFile {
    alloc: Global,
    seen: Option<Pieces>,
    calls: Vec<Call>,
    took: Vec<Took>,
}

impl Model for MemoryFile {
    ghost use Rattle.std.specs.Prelude.{◌≡◌};
    ghost use Rattle.memory_file.specs.Memory.{Held, all_done};
    ghost use Rattle.memory_file.specs.Undone.{undone};

    ghost Value = { Held };

    ghost view = { λ f. record { base = undone f.took.items f.seen; calls = f.calls.items } };

    ghost invariant = { λ f. f.seen ≡ all_done f.calls.items (undone f.took.items f.seen) };
}

impl MemoryFile {
    /// A file that is missing. It takes no memory.
    pub fn new(alloc: Global) -> MemoryFile
        ensures { result ≡ sure None }
    {
        MemoryFile {
            alloc,
            seen: None,
            calls: Vec::new(alloc),
            took: Vec::new(alloc),
        }
    }

    /// The number of bytes that a read gives, or none where the file is missing.
    pub fn size(&self) -> Option<usize>
        ensures { IsSizeOf (seen_of self.now) result }
    {
        match &self.seen {
            Some(held) => Some(held.len()),
            None => None,
        }
    }

    /// Fills `buf` with the bytes from a place on.
    pub fn read(&self, place: usize, buf: &mut [u8])
        requires { place + length buf.old ≤ length (bytes_of (seen_of self.now)) }
        ensures { buf.new ≡ take (length buf.old) (drop place (bytes_of (seen_of self.now))) }
    {
        if let Some(held) = &self.seen {
            held.read(place, buf);
        }
    }

    pub fn write_at(&mut self, place: usize, bytes: &[u8]) -> Result<(), AllocError>
        ensures ok { OnOk result (self.new ≡ with_call self.old (Call.Write place bytes.now)) }
        ensures err { OnErr result (self.new ≡ self.old) }
    {
        put_call(
            self.alloc,
            &mut self.calls,
            &mut self.took,
            &mut self.seen,
            place,
            bytes,
        )
    }

    pub fn cut(&mut self, size: usize) -> Result<(), AllocError>
        ensures ok { OnOk result (self.new ≡ with_call self.old (Call.Cut size)) }
        ensures err { OnErr result (self.new ≡ self.old) }
    {
        cut_call(
            self.alloc,
            &mut self.calls,
            &mut self.took,
            &mut self.seen,
            size,
        )
    }

    /// Forgets the calls, so that the file is sure as it is.
    pub fn sync(&mut self)
        ensures { self.new ≡ sure (seen_of self.old) }
    {
        self.calls.clear();
        self.took.clear();
    }

    /// The file as a crash leaves it. `is_last` says whether the last write of its stream that no sync of its file has followed is in it.
    #[tactic(auto, using(crate::proofs::Crashes::crashed_is_image))]
    pub fn crashed(&self, image: u8, is_last: bool) -> Result<MemoryFile, AllocError>
        requires { image ≤ 3 }
        ensures picked { IfOk result (λ f. IsCrashed image (is_last ≡ true) self.now f.base) }
        ensures image { IfOk result (λ f. ImageOf self.now f.base) }
        ensures sure { IfOk result (λ f. f.calls ≡ []) }
    {
        let seen = image_after(
            self.alloc,
            &self.seen,
            &self.calls,
            &self.took,
            image,
            is_last,
        )?;
        Ok(MemoryFile {
            alloc: self.alloc,
            seen,
            calls: Vec::new(self.alloc),
            took: Vec::new(self.alloc),
        })
    }
}
