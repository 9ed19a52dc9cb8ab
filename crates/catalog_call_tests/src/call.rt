//! Calls of a catalog that a test makes.

ghost use Rattle.member_disk.specs.MemoryDisks.{state_of};
ghost use Rattle.stream_catalog.specs.InHand.{Backed};

use frame_wire::Text;
use member_disk::MemoryDisk;
use std::alloc::Global;
use stream_catalog::{Catalog, CatalogFault};
use stream_catalog_tests::{Request, ask};

/// A call.
#[derive(Clone, Copy, Debug)]
pub enum Call {
    /// A change that is asked for.
    Ask(Request),
    /// A stream of a null name.
    CreateNull,
    /// A stream of a name of so many bytes.
    CreateLong(u16),
    /// A super stream of this name and one partition, whose key is null.
    CreateSuperNullKey(&'static [u8], &'static [u8]),
}

fn text(alloc: Global, bytes: &[u8]) -> Result<Text, CatalogFault> {
    match Text::copy(alloc, bytes) {
        Ok(text) => Ok(text),
        Err(_) => Err(CatalogFault::Memory),
    }
}

fn long_text(alloc: Global, len: u16) -> Result<Text, CatalogFault> {
    match Vec::from_elem(alloc, b'n', len as usize) {
        Ok(bytes) => text(alloc, &bytes),
        Err(_) => Err(CatalogFault::Memory),
    }
}

fn create_null_key(
    alloc: Global,
    disk: &mut MemoryDisk,
    catalog: &mut Catalog,
    name: &[u8],
    part: &[u8],
) -> Result<u32, CatalogFault>
    requires { Backed catalog.old (state_of disk.old.streams disk.old.faults) }
    ensures { Backed catalog.new (state_of disk.new.streams disk.new.faults) }
{
    let name = text(alloc, name)?;
    let part = text(alloc, part)?;
    catalog.create_super(disk, &name, &[part], &[Text::null()])
}

/// Makes a call, and tells the number that it gives; of a super stream that goes, how many streams go.
pub fn make(
    alloc: Global,
    disk: &mut MemoryDisk,
    catalog: &mut Catalog,
    call: Call,
) -> Result<u32, CatalogFault>
    requires { Backed catalog.old (state_of disk.old.streams disk.old.faults) }
    ensures { Backed catalog.new (state_of disk.new.streams disk.new.faults) }
{
    match call {
        Call::Ask(request) => ask(alloc, disk, catalog, request),
        Call::CreateNull => catalog.create(disk, &Text::null()),
        Call::CreateLong(len) => {
            let name = long_text(alloc, len)?;
            catalog.create(disk, &name)
        }
        Call::CreateSuperNullKey(name, part) => {
            create_null_key(alloc, disk, catalog, name, part)
        }
    }
}
