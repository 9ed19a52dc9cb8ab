//! What is asked of the names.

ghost use Rattle.std.specs.Prelude.{◌≡◌, IfOk};
ghost use Rattle.hub_terms.specs.Meaning.{AreFew, IfTold};
ghost use Rattle.hub_terms.specs.Tables.{HubTable, no_routes, parts_in, routes_in};
ghost use Rattle.stream_catalog.specs.Names.{parts};

use frame_wire::{Row, Text};
use std::alloc::{AllocError, Global};
use stream_catalog::Catalog;

/// Names of which there are at most 65,535, else none for want of memory.
fn few(found: Option<Row<Text>>) -> Result<Option<Row<Text>>, AllocError>
    ensures few { AreFew result }
    ensures same { IfOk result (λ told. told ≡ found) }
{
    match found {
        None => Ok(None),
        Some(names) => {
            if names.as_slice().len() > 65535 {
                return Err(AllocError);
            }
            Ok(Some(names))
        }
    }
}

/// The names of a super stream's partitions.
pub(crate) fn parts(
    alloc: Global,
    catalog: &Catalog,
    name: &Text,
) -> Result<Option<Row<Text>>, AllocError>
    ensures few { AreFew result }
    ensures told { (t : HubTable) → t.names ≡ catalog.now.names → IfTold (parts_in t name.now) result }
{
    match name.get() {
        None => Ok(None),
        Some(bytes) => few(catalog.parts(alloc, bytes)?),
    }
}

/// No names, where a super stream has the name.
fn no_routes(alloc: Global, catalog: &Catalog, name: &[u8]) -> Result<Option<Row<Text>>, AllocError>
    ensures few { AreFew result }
    ensures told { IfTold (no_routes (parts name.now catalog.now.names)) result }
{
    match catalog.parts(alloc, name)? {
        None => Ok(None),
        Some(_) => Ok(Some(Row::new(alloc))),
    }
}

/// The partitions of a super stream whose binding key is this routing key. A key that is null is the key of none.
pub(crate) fn route(
    alloc: Global,
    catalog: &Catalog,
    key: &Text,
    name: &Text,
) -> Result<Option<Row<Text>>, AllocError>
    ensures few { AreFew result }
    ensures told { (t : HubTable) → t.names ≡ catalog.now.names → IfTold (routes_in t key.now name.now) result }
{
    match name.get() {
        None => Ok(None),
        Some(bytes) => match key.get() {
            None => no_routes(alloc, catalog, bytes),
            Some(key) => few(catalog.route(alloc, key, bytes)?),
        },
    }
}
