//! Making a change: in memory and in the files.

ghost use Rattle.std.specs.Prelude.{◌≡◌, true, IsTrue, IsErrOf, IfOk};
ghost use Rattle.disk_calls.specs.Disk.{HasCause};
ghost use Rattle.stream_catalog.specs.Adding.{Comes, Goes};
ghost use Rattle.stream_catalog.specs.ChangeBytes.{IsChange, change_bytes};
ghost use Rattle.stream_catalog.specs.Files.{fits, words_id};
ghost use Rattle.stream_catalog.specs.InHand.{KnownFiles, Applied, OtherFiles};

use crate::change::{Change, ChangeKind};
use crate::change_bytes::spell_change;
use crate::disk_files::record_change;
use crate::fault::CatalogFault;
use crate::listed::Listed;
use disk_calls::Disk;
use gated_words::Gated;
use std::alloc::Global;

/// Makes a change that fits. The names change only where the files surely do.
pub(crate) fn apply_change<D: Disk>(
    alloc: Global,
    disk: &mut D,
    listed: &mut Listed,
    words: &mut Gated,
    len: &mut u64,
    sure: &mut bool,
    change: Change,
) -> Result<u32, CatalogFault>
    requires id { words.old.id ≡ words_id }
    requires known { D.tells → KnownFiles listed.old words.old len.old (D.state disk.old) }
    requires fits { fits change listed.old ≡ true }
    requires spelled { IsChange change }
    ensures applied { D.tells → Applied change listed.old listed.new words.new len.new sure.new result (D.state disk.new) }
    ensures id { words.new.id ≡ words.old.id }
    ensures number { IfOk result (λ n. n ≡ change.number) }
    ensures others { OtherFiles (D.state disk.old) (D.state disk.new) }
    ensures cause { HasCause (IsErrOf result CatalogFault.Disk) (D.state disk.old) (D.state disk.new) }
{
    let bytes = spell_change(alloc, &change)?;
    match change.kind {
        ChangeKind::Create | ChangeKind::CreateSuper => {
            add_change(
                alloc,
                disk,
                listed,
                words,
                len,
                sure,
                change,
                bytes.as_slice(),
            )
        }
        ChangeKind::Delete | ChangeKind::DeleteSuper => {
            take_change(disk, listed, words, len, sure, &change, bytes.as_slice())
        }
    }
}

// A stream or super stream comes. It is in memory before it is in the files, so that memory is taken
// before the disk is called; where the disk fails it goes from memory again.
fn add_change<D: Disk>(
    alloc: Global,
    disk: &mut D,
    listed: &mut Listed,
    words: &mut Gated,
    len: &mut u64,
    sure: &mut bool,
    change: Change,
    bytes: &[u8],
) -> Result<u32, CatalogFault>
    requires id { words.old.id ≡ words_id }
    requires known { D.tells → KnownFiles listed.old words.old len.old (D.state disk.old) }
    requires fits { fits change listed.old ≡ true }
    requires comes { Comes change.kind }
    requires spelled { IsChange change }
    requires bytes { bytes.now ≡ change_bytes change }
    ensures applied { D.tells → Applied change listed.old listed.new words.new len.new sure.new result (D.state disk.new) }
    ensures id { words.new.id ≡ words.old.id }
    ensures number { IfOk result (λ n. n ≡ change.number) }
    ensures others { OtherFiles (D.state disk.old) (D.state disk.new) }
    ensures cause { HasCause (IsErrOf result CatalogFault.Disk) (D.state disk.old) (D.state disk.new) }
{
    let number = change.number;
    let mark = listed.mark();
    listed.add(alloc, change)?;
    match record_change(disk, words, len, sure, bytes) {
        Ok(()) => Ok(number),
        Err(fault) => {
            listed.go_back(mark);
            Err(fault)
        }
    }
}

// A stream or super stream goes. It is in memory until it is gone from the files.
fn take_change<D: Disk>(
    disk: &mut D,
    listed: &mut Listed,
    words: &mut Gated,
    len: &mut u64,
    sure: &mut bool,
    change: &Change,
    bytes: &[u8],
) -> Result<u32, CatalogFault>
    requires id { words.old.id ≡ words_id }
    requires known { D.tells → KnownFiles listed.old words.old len.old (D.state disk.old) }
    requires fits { fits change.now listed.old ≡ true }
    requires goes { Goes change.now.kind }
    requires spelled { IsChange change.now }
    requires bytes { bytes.now ≡ change_bytes change.now }
    ensures applied { D.tells → Applied change.now listed.old listed.new words.new len.new sure.new result (D.state disk.new) }
    ensures id { words.new.id ≡ words.old.id }
    ensures number { IfOk result (λ n. n ≡ change.now.number) }
    ensures others { OtherFiles (D.state disk.old) (D.state disk.new) }
    ensures cause { HasCause (IsErrOf result CatalogFault.Disk) (D.state disk.old) (D.state disk.new) }
{
    match record_change(disk, words, len, sure, bytes) {
        Ok(()) => {
            listed.take_away(change);
            Ok(change.number)
        }
        Err(fault) => Err(fault),
    }
}
