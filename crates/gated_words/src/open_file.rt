//! Opening the two files of pairs.

ghost use Rattle.std.specs.Prelude.{◌≡◌, ◌⊎◌, None, IsErrOf, ◌≤◌, List, ℕ, length, take, IfOk, IsTrue, ◌↔◌};
ghost use Rattle.disk_calls.specs.Disk.{Image, HasCause, Looks, Elsewhere, Only, Settled, Shorter, bytes_of};
ghost use Rattle.disk_calls.specs.Frames.{Besides, Gone};
ghost use Rattle.gated_words.specs.Words.{spelled, DamagesAs, GivenUp};
ghost use Rattle.gated_words.specs.Files.{HasSecond, second_file, seen_files, PairsOf, Opens, Damages};
ghost use Rattle.gated_words.specs.Backing.{EachBoth, KeepsPairs, Held};
ghost use Rattle.gated_words.specs.Looking.{Found, HasPairs, Moves, Reads};

use crate::fault::GateFault;
use crate::record::{Form, has_header, is_gated, read_pairs, skip, spell};
use disk_calls::{Disk, DiskDid, FileId, WholeFile, make_file, read_file, shorten};
use std::alloc::Global;

/// The second file of pairs. Where there is none, the file itself.
pub(crate) fn second_file(id: FileId) -> FileId
    ensures { result ≡ second_file id }
{
    match id.file.second() {
        Some(file) => FileId {
            stream: id.stream,
            file,
        },
        None => id,
    }
}

/// Opens the files of pairs, or makes the second where neither is there.
pub(crate) fn open_pairs<D: Disk>(
    alloc: Global,
    disk: &mut D,
    id: FileId,
) -> Result<Vec<(u64, u64)>, GateFault>
    requires { D.tells → HasSecond id }
    ensures images { D.tells → KeepsPairs id (D.state disk.old) (D.state disk.new) }
    ensures held { D.tells → IfOk result (λ pairs. Held id pairs.items (D.state disk.new)) }
    ensures pairs { D.tells → IfOk result (λ pairs. pairs.items ≡ PairsOf (seen_files id (D.state disk.old))) }
    ensures opens { D.tells → IfOk result (λ pairs. Opens (seen_files id (D.state disk.old))) }
    ensures damaged { D.tells → (place : ℕ) → IsErrOf result (GateFault.Damaged place) → Damages place (seen_files id (D.state disk.old)) }
    ensures others { Besides id (second_file id) (D.state disk.old) (D.state disk.new) }
    ensures cause { HasCause (IsErrOf result GateFault.Disk) (D.state disk.old) (D.state disk.new) }
{
    match read_file(alloc, disk, id)? {
        WholeFile::Bytes(bytes) => open_first(alloc, disk, id, &bytes),
        WholeFile::Missing => open_second(alloc, disk, id),
        WholeFile::Failed => Err(GateFault::Disk),
    }
}

// Reads the second file where the first is missing; all of it is on the disk then, and one that is missing
// is empty. The first is removed again: a call before may have failed to remove it for good.
fn read_second<D: Disk>(alloc: Global, disk: &mut D, id: FileId) -> Result<Vec<u8>, GateFault>
    requires { D.tells → (D.state disk.old).seen id ≡ None }
    ensures looks { D.tells → Looks (D.state disk.old) (D.state disk.new) }
    ensures gone { IfOk result (λ bytes. Only None ((D.state disk.new).images id)) }
    ensures found { D.tells → IfOk result (λ bytes. Found (second_file id) bytes.items (D.state disk.new)) }
    ensures others { Elsewhere id (D.state disk.old) (D.state disk.new) }
    ensures cause { HasCause (IsErrOf result GateFault.Disk) (D.state disk.old) (D.state disk.new) }
    ensures undamaged { (place : ℕ) → IsErrOf result (GateFault.Damaged place) → ⊥ }
{
    if let DiskDid::Failed = disk.remove(id) {
        return Err(GateFault::Disk);
    }
    match read_file(alloc, disk, second_file(id))? {
        WholeFile::Bytes(bytes) => Ok(bytes),
        WholeFile::Missing => Ok(Vec::new(alloc)),
        WholeFile::Failed => Err(GateFault::Disk),
    }
}

// The bytes of a header.
const HEADER_SIZE: usize = 8;

// The pairs of a file of a form.
fn read(alloc: Global, form: Form, bytes: &[u8]) -> Result<Vec<(u64, u64)>, GateFault>
    ensures reads { IfOk result (λ pairs. Reads form bytes.now pairs.items) }
    ensures damaged { (place : ℕ) → IsErrOf result (GateFault.Damaged place) → DamagesAs form place bytes.now }
    ensures not_disk { IsErrOf result GateFault.Disk → ⊥ }
{
    if bytes.len() <= HEADER_SIZE {
        return Ok(Vec::new(alloc));
    }
    if !has_header(form, bytes) {
        return Err(GateFault::Damaged { place: 0 });
    }
    let pairs = read_pairs(alloc, form, bytes)?;
    let end = 8 + form.width() * pairs.len();
    if !is_given_up(form, skip(bytes, end)) {
        return Err(GateFault::Damaged { place: end as u64 });
    }
    Ok(pairs)
}

// Whether bytes behind the records are given up.
fn is_given_up(form: Form, rest: &[u8]) -> bool
    ensures { IsTrue result ↔ GivenUp form rest.now }
{
    rest.len() <= form.width() && !is_gated(form, rest)
}

// Opens a first file that is on the disk: its pairs go into the second, and it is removed.
fn open_first<D: Disk>(
    alloc: Global,
    disk: &mut D,
    id: FileId,
    bytes: &[u8],
) -> Result<Vec<(u64, u64)>, GateFault>
    requires second { D.tells → HasSecond id }
    requires settled { D.tells → Settled id bytes.now (D.state disk.old) }
    ensures images { D.tells → KeepsPairs id (D.state disk.old) (D.state disk.new) }
    ensures held { D.tells → IfOk result (λ pairs. Held id pairs.items (D.state disk.new)) }
    ensures pairs { D.tells → IfOk result (λ pairs. pairs.items ≡ PairsOf (seen_files id (D.state disk.old))) }
    ensures opens { D.tells → IfOk result (λ pairs. Opens (seen_files id (D.state disk.old))) }
    ensures damaged { D.tells → (place : ℕ) → IsErrOf result (GateFault.Damaged place) → Damages place (seen_files id (D.state disk.old)) }
    ensures others { Besides id (second_file id) (D.state disk.old) (D.state disk.new) }
    ensures cause { HasCause (IsErrOf result GateFault.Disk) (D.state disk.old) (D.state disk.new) }
{
    let pairs = read(alloc, Form::First, bytes)?;
    let spelled = spell(alloc, &pairs)?;
    if let DiskDid::Failed = migrate(disk, id, &spelled) {
        return Err(GateFault::Disk);
    }
    Ok(pairs)
}

// Opens a second file without a first, or makes it.
fn open_second<D: Disk>(
    alloc: Global,
    disk: &mut D,
    id: FileId,
) -> Result<Vec<(u64, u64)>, GateFault>
    requires second { D.tells → HasSecond id }
    requires missing { D.tells → (D.state disk.old).seen id ≡ None }
    ensures images { D.tells → KeepsPairs id (D.state disk.old) (D.state disk.new) }
    ensures held { D.tells → IfOk result (λ pairs. Held id pairs.items (D.state disk.new)) }
    ensures pairs { D.tells → IfOk result (λ pairs. pairs.items ≡ PairsOf (seen_files id (D.state disk.old))) }
    ensures opens { D.tells → IfOk result (λ pairs. Opens (seen_files id (D.state disk.old))) }
    ensures damaged { D.tells → (place : ℕ) → IsErrOf result (GateFault.Damaged place) → Damages place (seen_files id (D.state disk.old)) }
    ensures others { Besides id (second_file id) (D.state disk.old) (D.state disk.new) }
    ensures cause { HasCause (IsErrOf result GateFault.Disk) (D.state disk.old) (D.state disk.new) }
{
    let bytes = read_second(alloc, disk, id)?;
    let pairs = read(alloc, Form::Second, &bytes)?;
    if let DiskDid::Failed = tidy(disk, second_file(id), &bytes, &pairs) {
        return Err(GateFault::Disk);
    }
    Ok(pairs)
}

// Writes the second file whole, and removes the first.
fn migrate<D: Disk>(disk: &mut D, id: FileId, bytes: &[u8]) -> DiskDid
    requires second { D.tells → HasSecond id }
    ensures images { D.tells → (one : List ℕ) → Settled id one (D.state disk.old) → EachBoth id (Moves one bytes.now) (D.state disk.new) }
    ensures done { D.tells → result ≡ DiskDid.Done → Gone id (D.state disk.new) × Settled (second_file id) bytes.now (D.state disk.new) }
    ensures others { Besides id (second_file id) (D.state disk.old) (D.state disk.new) }
    ensures cause { HasCause (result ≡ DiskDid.Failed) (D.state disk.old) (D.state disk.new) }
{
    if let DiskDid::Failed = make(disk, second_file(id), bytes) {
        return DiskDid::Failed;
    }
    disk.remove(id)
}

// Leaves the pairs of a file of the second form and nothing else.
fn tidy<D: Disk>(disk: &mut D, two: FileId, bytes: &[u8], pairs: &[(u64, u64)]) -> DiskDid
    requires found { D.tells → Found two bytes.now (D.state disk.old) }
    requires reads { Reads Form.Second bytes.now pairs.now }
    ensures images { D.tells → (c : Image) → (D.state disk.new).images two c → (D.state disk.old).images two c ⊎ HasPairs Form.Second pairs.now (bytes_of c) }
    ensures done { D.tells → result ≡ DiskDid.Done → Settled two (spelled Form.Second pairs.now) (D.state disk.new) }
    ensures others { Elsewhere two (D.state disk.old) (D.state disk.new) }
    ensures cause { HasCause (result ≡ DiskDid.Failed) (D.state disk.old) (D.state disk.new) }
{
    if !has_header(Form::Second, bytes) {
        return make(disk, two, &Form::Second.header());
    }
    trim(disk, two, bytes.len() as u64, 8 + 18 * pairs.len() as u64)
}

// Cuts away what stands behind the records of a file, which end there.
fn trim<D: Disk>(disk: &mut D, two: FileId, size: u64, end: u64) -> DiskDid
    requires { D.tells → (bytes : List ℕ) × Settled two bytes (D.state disk.old) × (size ≡ length bytes) }
    ensures images { D.tells → (bytes : List ℕ) → Settled two bytes (D.state disk.old) → (c : Image) → (D.state disk.new).images two c → Shorter bytes end c }
    ensures done { D.tells → result ≡ DiskDid.Done → (bytes : List ℕ) → Settled two bytes (D.state disk.old) → Settled two (take end bytes) (D.state disk.new) }
    ensures others { Elsewhere two (D.state disk.old) (D.state disk.new) }
    ensures cause { HasCause (result ≡ DiskDid.Failed) (D.state disk.old) (D.state disk.new) }
{
    if size <= end {
        return DiskDid::Done;
    }
    shorten(disk, two, end)
}

// Makes a file of these bytes and nothing else.
fn make<D: Disk>(disk: &mut D, two: FileId, bytes: &[u8]) -> DiskDid
    ensures images { (c : Image) → (D.state disk.new).images two c → (D.state disk.old).images two c ⊎ (length (bytes_of c) ≤ length bytes.now) }
    ensures done { D.tells → result ≡ DiskDid.Done → Settled two bytes.now (D.state disk.new) }
    ensures others { Elsewhere two (D.state disk.old) (D.state disk.new) }
    ensures cause { HasCause (result ≡ DiskDid.Failed) (D.state disk.old) (D.state disk.new) }
{
    if let DiskDid::Failed = disk.remove(two) {
        return DiskDid::Failed;
    }
    make_file(disk, two, bytes)
}
