//! The files of the catalog: reading them whole, and writing a change behind the others.

ghost use Rattle.std.specs.Prelude.{◌≡◌, ◌++◌, ◌∷◌, [], ◌+◌, List, ℕ, length, false, IsTrue, IsErrOf, IfOk, IfErr, OnOk, OnErr, Ok};
ghost use Rattle.disk_calls.specs.Disk.{HasCause, Looks, Elsewhere, bytes_of};
ghost use Rattle.disk_calls.specs.Frames.{Holds};
ghost use Rattle.gated_words.specs.Files.{Opens, PairsOf};
ghost use Rattle.gated_words.specs.Backing.{Backs};
ghost use Rattle.stream_catalog.specs.Files.{bytes_id, words_id, catalog_of, seen_files, names_in};
ghost use Rattle.stream_catalog.specs.InHand.{KnownFiles, KeepsCatalog, EachCatalog, MayRecord, OtherFiles, DamagesCatalog, IsDiskFault, IsOpenFault};

use crate::fault::CatalogFault;
use crate::listed::Listed;
use crate::reading::read_names;
use disk_calls::{Disk, DiskDid, FileId, FileName, WholeFile, append, read_file};
use gated_words::Gated;
use std::alloc::Global;

fn words_id() -> FileId
    ensures { result ≡ words_id }
{
    FileId {
        stream: 0,
        file: FileName::CatalogWords,
    }
}

fn bytes_id() -> FileId
    ensures { result ≡ bytes_id }
{
    FileId {
        stream: 0,
        file: FileName::CatalogBytes,
    }
}

/// Reads the file of changes; all of it is on the disk then. One that is missing has no bytes; it is
/// removed again, since a call before may have failed to make it.
fn read_bytes<D: Disk>(alloc: Global, disk: &mut D) -> Result<Vec<u8>, CatalogFault>
    ensures looks { D.tells → Looks (D.state disk.old) (D.state disk.new) }
    ensures holds { D.tells → IfOk result (λ bytes. Holds bytes_id bytes.items (D.state disk.new)) }
    ensures reads { D.tells → IfOk result (λ bytes. bytes.items ≡ bytes_of ((D.state disk.old).seen bytes_id)) }
    ensures others { Elsewhere bytes_id (D.state disk.old) (D.state disk.new) }
    ensures fault { IfErr result IsDiskFault }
    ensures cause { HasCause (IsErrOf result CatalogFault.Disk) (D.state disk.old) (D.state disk.new) }
{
    match read_file(alloc, disk, bytes_id())? {
        WholeFile::Bytes(bytes) => Ok(bytes),
        WholeFile::Failed => Err(CatalogFault::Disk),
        WholeFile::Missing => match disk.remove(bytes_id()) {
            DiskDid::Done => Ok(Vec::new(alloc)),
            DiskDid::Failed => Err(CatalogFault::Disk),
        },
    }
}

/// What reading the files gives: the names, the pairs, and the length of the file of changes in bytes.
#[derive(Drop)]
pub(crate) struct ReadFiles {
    pub(crate) listed: Listed,
    pub(crate) words: Gated,
    pub(crate) len: u64,
}

/// Reads the files of the catalog: first the file of changes, then the pairs.
pub(crate) fn read_files<D: Disk>(alloc: Global, disk: &mut D) -> Result<ReadFiles, CatalogFault>
    ensures images { D.tells → KeepsCatalog (D.state disk.old) (D.state disk.new) }
    ensures known { D.tells → IfOk result (λ r. KnownFiles r.listed r.words r.len (D.state disk.new)) }
    ensures id { IfOk result (λ r. (r.words.id ≡ words_id) × IsTrue r.words.sure) }
    ensures names { D.tells → IfOk result (λ r. catalog_of (seen_files (D.state disk.old)) ≡ Ok r.listed) }
    ensures opens { D.tells → IfOk result (λ r. Opens (seen_files (D.state disk.old)).words) }
    ensures damaged { D.tells → (place : ℕ) → IsErrOf result (CatalogFault.Damaged place) → DamagesCatalog place (seen_files (D.state disk.old)) }
    ensures others { OtherFiles (D.state disk.old) (D.state disk.new) }
    ensures fault { IfErr result IsOpenFault }
    ensures cause { HasCause (IsErrOf result CatalogFault.Disk) (D.state disk.old) (D.state disk.new) }
{
    let bytes = read_bytes(alloc, disk)?;
    let words = Gated::open(alloc, disk, words_id())?;
    let names = read_names(alloc, &bytes, words.pairs())?;
    let listed = Listed::of(alloc, names)?;
    let len = bytes.len() as u64;
    Ok(ReadFiles { listed, words, len })
}

/// Writes the bytes of a change behind those of the others, syncs them, and then puts the pair. After an
/// error the files aren't sure. More than 2^64 - 1 bytes are more than memory holds.
pub(crate) fn record_change<D: Disk>(
    disk: &mut D,
    words: &mut Gated,
    len: &mut u64,
    sure: &mut bool,
    bytes: &[u8],
) -> Result<(), CatalogFault>
    requires id { words.old.id ≡ words_id }
    requires known { D.tells → (base : List ℕ) × Holds bytes_id base (D.state disk.old) × (len.old ≡ length base) × Backs words.old (D.state disk.old) × IsTrue words.old.sure }
    ensures images { D.tells → (base : List ℕ) → Holds bytes_id base (D.state disk.old) → len.old ≡ length base → EachCatalog (MayRecord words.old.pairs base bytes.now) (D.state disk.new) }
    ensures holds { D.tells → (base : List ℕ) → Holds bytes_id base (D.state disk.old) → OnOk result (Holds bytes_id (base ++ bytes.now) (D.state disk.new)) }
    ensures backs { D.tells → OnOk result (Backs words.new (D.state disk.new)) }
    ensures words { IsTrue words.old.sure → OnOk result (words.new.pairs ≡ words.old.pairs ++ (len.old, length bytes.now) ∷ []) }
    ensures id { words.new.id ≡ words.old.id }
    ensures words_sure { OnOk result (IsTrue words.new.sure) }
    ensures sure { OnOk result (IsTrue sure.new) }
    ensures unsure { OnErr result (sure.new ≡ false) }
    ensures len { OnOk result (len.new ≡ len.old + length bytes.now) }
    ensures others { OtherFiles (D.state disk.old) (D.state disk.new) }
    ensures fault { D.tells → IfErr result IsDiskFault }
    ensures cause { HasCause (IsErrOf result CatalogFault.Disk) (D.state disk.old) (D.state disk.new) }
{
    *sure = false;
    let Some(end) = len.checked_add(bytes.len() as u64) else {
        return Err(CatalogFault::Memory);
    };
    if let DiskDid::Failed = append(disk, bytes_id(), *len, bytes) {
        return Err(CatalogFault::Disk);
    }
    words.put(disk, *len, bytes.len() as u64)?;
    *len = end;
    *sure = true;
    Ok(())
}
