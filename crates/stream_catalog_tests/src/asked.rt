//! Changes that a test asks for.

ghost use Rattle.std.specs.Prelude.{◌≡◌, ◌≤◌, ℕ, IfOk};
ghost use Rattle.member_disk.specs.MemoryDisks.{state_of};
ghost use Rattle.stream_catalog.specs.InHand.{Catalogued, Backed};

use frame_wire::{Limits, Text};
use member_disk::MemoryDisk;
use std::alloc::{AllocError, Global};
use stream_catalog::{Catalog, CatalogFault, Why};

/// A change that is asked for.
#[derive(Clone, Copy, Debug)]
pub enum Request {
    /// A stream of this name.
    Create(&'static [u8]),
    /// No stream of this name.
    Delete(&'static [u8]),
    /// A super stream of this name, its partitions and their keys.
    CreateSuper(&'static [u8], &'static [&'static [u8]], &'static [&'static [u8]]),
    /// No super stream of this name.
    DeleteSuper(&'static [u8]),
}

/// Reads the catalog from its files.
pub fn recover(alloc: Global, disk: &mut MemoryDisk) -> Result<Catalog, CatalogFault>
    ensures { IfOk result (λ c. Backed c (state_of disk.new.streams disk.new.faults)) }
{
    Catalog::recover(alloc, disk, &Limits::standard())
}

/// Lets the nth next call on the catalog's files fail.
pub fn fail_call(disk: &mut MemoryDisk, n: u64) -> Result<(), AllocError>
    requires { 1 ≤ n }
    ensures { (c : Catalogued) → Backed c (state_of disk.old.streams disk.old.faults) → Backed c (state_of disk.new.streams disk.new.faults) }
{
    disk.fail_after(0, n)
}

/// Leaves the catalog's files as a crash may, by one of four images.
pub fn crash(disk: &mut MemoryDisk, image: u8) -> Result<(), AllocError>
    requires { image ≤ 3 }
    ensures { (c : Catalogued) → Backed c (state_of disk.old.streams disk.old.faults) → Backed c (state_of disk.new.streams disk.new.faults) }
{
    disk.crash(0, image)
}

fn text(alloc: Global, bytes: &[u8]) -> Result<Text, CatalogFault> {
    match Text::copy(alloc, bytes) {
        Ok(text) => Ok(text),
        Err(_) => Err(CatalogFault::Memory),
    }
}

fn texts(alloc: Global, names: &[&[u8]]) -> Result<Vec<Text>, CatalogFault> {
    let mut out = Vec::new(alloc);
    for name in names {
        let text = text(alloc, name)?;
        if out.push(text).is_err() {
            return Err(CatalogFault::Memory);
        }
    }
    Ok(out)
}

fn ask_super(
    alloc: Global,
    disk: &mut MemoryDisk,
    catalog: &mut Catalog,
    name: &[u8],
    parts: &[&[u8]],
    keys: &[&[u8]],
) -> Result<u32, CatalogFault>
    requires { Backed catalog.old (state_of disk.old.streams disk.old.faults) }
    ensures { Backed catalog.new (state_of disk.new.streams disk.new.faults) }
{
    let name = text(alloc, name)?;
    let parts = texts(alloc, parts)?;
    let keys = texts(alloc, keys)?;
    catalog.create_super(disk, &name, &parts, &keys)
}

/// Asks for a change, and tells the number that it gives; of a super stream that goes, how many streams go.
pub fn ask(
    alloc: Global,
    disk: &mut MemoryDisk,
    catalog: &mut Catalog,
    request: Request,
) -> Result<u32, CatalogFault>
    requires { Backed catalog.old (state_of disk.old.streams disk.old.faults) }
    ensures { Backed catalog.new (state_of disk.new.streams disk.new.faults) }
{
    match request {
        Request::Create(name) => {
            let name = text(alloc, name)?;
            catalog.create(disk, &name)
        }
        Request::Delete(name) => {
            let name = text(alloc, name)?;
            catalog.delete(disk, &name)
        }
        Request::CreateSuper(name, parts, keys) => ask_super(
            alloc, disk, catalog, name, parts, keys,
        ),
        Request::DeleteSuper(name) => {
            let name = text(alloc, name)?;
            let gone = catalog.delete_super(disk, &name)?;
            match u32::try_from(gone.as_slice().len()) {
                Ok(count) => Ok(count),
                Err(_) => Err(CatalogFault::Memory),
            }
        }
    }
}

/// No live stream has the name.
pub const MISSING: i64 = -1;
/// The name stands for something.
pub const EXISTS: i64 = -2;
/// A name that is none.
pub const NO_NAME: i64 = -3;
/// Partitions that are none.
pub const NO_PARTS: i64 = -4;
/// A partition of a super stream.
pub const IN_SUPER: i64 = -5;
/// More streams than the limit.
pub const STREAMS: i64 = -6;
/// The disk failed.
pub const DISK: i64 = -7;

/// An answer as one number: what a change gives, or one of the signs above, or less.
pub fn sign(told: Result<u32, CatalogFault>) -> i64 {
    match told {
        Ok(number) => number as i64,
        Err(CatalogFault::Missing) => MISSING,
        Err(CatalogFault::Exists) => EXISTS,
        Err(CatalogFault::Refused(Why::Name)) => NO_NAME,
        Err(CatalogFault::Refused(Why::Parts)) => NO_PARTS,
        Err(CatalogFault::Refused(Why::InSuper)) => IN_SUPER,
        Err(CatalogFault::Refused(Why::Streams)) => STREAMS,
        Err(CatalogFault::Disk) => DISK,
        Err(CatalogFault::Damaged { .. }) => -8,
        Err(CatalogFault::Memory) => -9,
    }
}
