ghost use Rattle.std.specs.Prelude.{IfOk};
ghost use Rattle.member_disk.specs.MemoryDisks.{state_of};
ghost use Rattle.gated_words.specs.Backing.{Backs};
ghost use Rattle.stream_catalog.specs.InHand.{Backed};

use crate::asked::{STREAMS, recover, sign};
use frame_wire::{Octets, Text, put_u8, put_u16, put_u32};
use gated_words::{GateFault, Gated};
use member_disk::{Disk, DiskDid, FileId, FileName, MemoryDisk};
use std::alloc::{AllocError, Global};
use stream_catalog::{Catalog, CatalogFault};

const BYTES: FileId = FileId {
    stream: 0,
    file: FileName::CatalogBytes,
};

const WORDS: FileId = FileId {
    stream: 0,
    file: FileName::CatalogWords,
};

// As many partitions as a super stream may have.
const PARTITIONS: u16 = 65_535;

// Spells this many texts of two bytes, all different, or all equal.
fn put_names(out: &mut Octets, count: u16, differ: bool) -> Result<(), AllocError> {
    put_u32(out, count as u32)?;
    for n in 0..count {
        put_u16(out, 2)?;
        put_u16(out, if differ { n } else { 0x6b6b })?;
    }
    Ok(())
}

// Spells the change that makes a super stream "s" of so many partitions from number 1 on, all with the key "kk".
fn change_bytes(alloc: Global, count: u16) -> Result<Octets, AllocError> {
    let mut out = Octets::new(alloc);
    put_u8(&mut out, 3)?;
    put_u32(&mut out, 1)?;
    put_u16(&mut out, 1)?;
    put_u8(&mut out, 0x73)?;
    put_names(&mut out, count, true)?;
    put_names(&mut out, count, false)?;
    Ok(out)
}

fn open(alloc: Global, disk: &mut MemoryDisk) -> Result<Gated, GateFault>
    ensures { IfOk result (λ g. Backs g (state_of disk.new.streams disk.new.faults)) }
{
    Gated::open(alloc, disk, WORDS)
}

fn put_pair(alloc: Global, disk: &mut MemoryDisk, length: u64) -> bool {
    match open(alloc, disk) {
        Ok(mut gated) => gated.put(disk, 0, length).is_ok(),
        Err(_) => false,
    }
}

// Whether files with that change were made.
fn lay(alloc: Global, disk: &mut MemoryDisk, count: u16) -> bool {
    let Ok(bytes) = change_bytes(alloc, count) else {
        return false;
    };
    if disk.write_at(BYTES, 0, bytes.as_slice()) == DiskDid::Failed {
        return false;
    }
    put_pair(alloc, disk, bytes.len() as u64)
}

fn has_all(alloc: Global, catalog: &Catalog) -> bool {
    let routed = match catalog.route(alloc, b"kk", b"s") {
        Ok(Some(row)) => row.as_slice().len(),
        _ => 0,
    };
    routed == PARTITIONS as usize
        && catalog.streams().len() == PARTITIONS as usize
        && catalog.last() == PARTITIONS as u32
        && catalog.find(b"\xff\xfe") == Some(PARTITIONS as u32)
        && catalog.part_index(PARTITIONS as u32) == PARTITIONS as u32 - 1
}

fn is_recovered(alloc: Global) -> bool {
    let mut disk = MemoryDisk::new(alloc);
    if !lay(alloc, &mut disk, PARTITIONS) {
        return false;
    }
    match recover(alloc, &mut disk) {
        Ok(catalog) => has_all(alloc, &catalog),
        Err(_) => false,
    }
}

fn names(alloc: Global, count: u16, differ: bool) -> Result<Vec<Text>, CatalogFault> {
    let mut out = Vec::new(alloc);
    for n in 0..count {
        let name = if differ { n } else { 0x6b6b };
        let Ok(text) = Text::copy(alloc, &name.to_be_bytes()) else {
            return Err(CatalogFault::Memory);
        };
        if out.push(text).is_err() {
            return Err(CatalogFault::Memory);
        }
    }
    Ok(out)
}

fn ask_many(
    alloc: Global,
    disk: &mut MemoryDisk,
    catalog: &mut Catalog,
) -> Result<u32, CatalogFault>
    requires { Backed catalog.old (state_of disk.old.streams disk.old.faults) }
{
    let Ok(name) = Text::copy(alloc, b"s") else {
        return Err(CatalogFault::Memory);
    };
    let parts = names(alloc, PARTITIONS, true)?;
    let keys = names(alloc, PARTITIONS, false)?;
    catalog.create_super(disk, &name, &parts, &keys)
}

fn is_refused(alloc: Global) -> bool {
    let mut disk = MemoryDisk::new(alloc);
    match recover(alloc, &mut disk) {
        Ok(mut catalog) => { sign(ask_many(alloc, &mut disk, &mut catalog)) == STREAMS }
        Err(_) => false,
    }
}

#[test]
fn a_super_stream_of_all_partitions(rt: HostRuntime) {
    assert!(rt; is_recovered(rt.alloc()));
    assert!(rt; is_refused(rt.alloc()));
}
