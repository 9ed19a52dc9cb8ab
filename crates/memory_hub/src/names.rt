//! Changes of the catalog.

ghost use Rattle.std.specs.Prelude.{◌≡◌, ◌++◌, suc, map, length, true, OnOk, OnErr};
ghost use Rattle.stream_catalog.specs.Rules.{changed};
ghost use Rattle.stream_catalog.specs.Files.{fits};
ghost use Rattle.stream_catalog.specs.Adding.{Comes as BringsNames, Goes};
ghost use Rattle.hub_terms.specs.Tables.{stands};
ghost use Rattle.memory_hub.specs.Steps.{new_streams, told_as, done};

use crate::streams::{push_streams, stand_first};
use command_fields::ResponseCode;
use hub_terms::HubDid;
use memory_stream::MemoryStream;
use std::alloc::{AllocError, Global};
use stream_catalog::{CatalogFault, Change, Listed};

/// How a refusal is told, or want of memory.
pub(crate) fn told_as(fault: CatalogFault) -> HubDid
    ensures { result ≡ told_as fault }
{
    match fault {
        CatalogFault::Missing => HubDid::Code(ResponseCode::StreamDoesNotExist),
        CatalogFault::Exists => HubDid::Code(ResponseCode::StreamAlreadyExists),
        CatalogFault::Refused(_) => HubDid::Code(ResponseCode::PreconditionFailed),
        CatalogFault::Disk | CatalogFault::Damaged { place: _ } | CatalogFault::Memory => {
            HubDid::Memory
        }
    }
}

/// How a change is told that was made, or for which memory ran out.
pub(crate) fn done(made: Result<(), AllocError>) -> HubDid
    ensures { result ≡ done made }
{
    match made {
        Ok(()) => HubDid::Code(ResponseCode::Ok),
        Err(_) => HubDid::Memory,
    }
}

/// Ends the streams to which no name leads.
pub(crate) fn stand_all(listed: &Listed, streams: &mut Vec<MemoryStream>)
    ensures { streams.new.items ≡ map (stands listed.now) streams.old.items }
{
    let len = streams.as_slice().len();
    stand_first(listed, streams, len);
}

/// Names come with their streams, so many, or nothing changes.
pub(crate) fn add_names(
    alloc: Global,
    listed: &mut Listed,
    streams: &mut Vec<MemoryStream>,
    change: Change,
    count: usize,
) -> Result<(), AllocError>
    requires fits { fits change listed.old ≡ true }
    requires brings { BringsNames change.kind }
    ensures names { OnOk result (listed.new ≡ changed change listed.old) }
    ensures streams { OnOk result (streams.new.items ≡ map (stands listed.new) streams.old.items ++ new_streams (suc (length streams.old.items)) count) }
    ensures same_names { OnErr result (listed.new ≡ listed.old) }
    ensures same_streams { OnErr result (streams.new.items ≡ streams.old.items) }
{
    let len = streams.as_slice().len();
    push_streams(alloc, streams, count)?;
    match listed.add(alloc, change) {
        Ok(()) => {
            stand_first(listed, streams, len);
            Ok(())
        }
        Err(error) => {
            streams.truncate(len);
            Err(error)
        }
    }
}

/// Names go, and their streams end.
pub(crate) fn take_names(listed: &mut Listed, streams: &mut Vec<MemoryStream>, change: &Change)
    requires { Goes change.now.kind }
    ensures names { listed.new ≡ changed change.now listed.old }
    ensures streams { streams.new.items ≡ map (stands listed.new) streams.old.items }
{
    listed.take_away(change);
    stand_all(listed, streams);
}
