//! What is asked of names.

ghost use Rattle.std.specs.Prelude.{◌≡◌, IfOk};
ghost use Rattle.stream_terms.specs.Views.{name_of};
ghost use Rattle.hub_terms.specs.Meaning.{AreFew, IfTold};
ghost use Rattle.hub_terms.specs.Tables.{found_by, parts_in, routes_in, no_routes, active_by, HubTable};
ghost use Rattle.stream_catalog.specs.Names.{find, parts};

use active_groups::GroupState;
use frame_wire::{Row, Text};
use hub_terms::Found;
use memory_stream::MemoryStream;
use std::alloc::{AllocError, Global};
use stream_catalog::Listed;
use stream_table::found_in;

/// What a name leads to.
pub(crate) fn find(listed: &Listed, streams: &[MemoryStream], name: &[u8]) -> Found
    ensures { result ≡ found_by streams.now (find name.now listed.now) }
{
    match listed.find(name) {
        None => Found::Missing,
        Some(stream) => found_in(streams, stream),
    }
}

/// Names of which there are at most 65,535, else none for want of memory.
fn few(found: Option<Row<Text>>) -> Result<Option<Row<Text>>, AllocError>
    ensures few { AreFew result }
    ensures same { IfOk result (λ told. told ≡ found) }
{
    match found {
        None => Ok(None),
        Some(names) => {
            if names.as_slice().len() > 65535 {
                return Err(AllocError);
            }
            Ok(Some(names))
        }
    }
}

/// The names of a super stream's partitions.
pub(crate) fn parts(
    alloc: Global,
    listed: &Listed,
    name: &Text,
) -> Result<Option<Row<Text>>, AllocError>
    ensures few { AreFew result }
    ensures told { (t : HubTable) → t.names ≡ listed.now → IfTold (parts_in t name.now) result }
{
    match name.get() {
        None => Ok(None),
        Some(bytes) => few(listed.parts(alloc, bytes)?),
    }
}

/// No names, where a super stream has the name.
fn no_routes(alloc: Global, listed: &Listed, name: &[u8]) -> Result<Option<Row<Text>>, AllocError>
    ensures few { AreFew result }
    ensures told { IfTold (no_routes (parts name.now listed.now)) result }
{
    match listed.parts(alloc, name)? {
        None => Ok(None),
        Some(_) => Ok(Some(Row::new(alloc))),
    }
}

/// The partitions of a super stream whose binding key is this routing key.
pub(crate) fn route(
    alloc: Global,
    listed: &Listed,
    key: &Text,
    name: &Text,
) -> Result<Option<Row<Text>>, AllocError>
    ensures few { AreFew result }
    ensures told { (t : HubTable) → t.names ≡ listed.now → IfTold (routes_in t key.now name.now) result }
{
    match name.get() {
        None => Ok(None),
        Some(bytes) => match key.get() {
            None => no_routes(alloc, listed, bytes),
            Some(key) => few(listed.route(alloc, key, bytes)?),
        },
    }
}

/// A text as a name: null and empty are none.
pub(crate) fn bytes_of(name: &Text) -> &[u8]
    ensures { result.now ≡ name_of name.now }
{
    match name.get() {
        None => &[],
        Some(bytes) => bytes,
    }
}

/// Whether this is the state of an active one.
pub(crate) fn is_active(state: Option<GroupState>) -> bool
    ensures { result ≡ active_by state }
{
    match state {
        Some(GroupState::Active) => true,
        Some(GroupState::Waiting | GroupState::Starting | GroupState::Stopping) | None => false,
    }
}
