//! The commands of streams, super streams and routes. Each is its row, over any hub. After want of memory the session has
//! ended, and the hub has only gone on.

ghost use Rattle.std.specs.Prelude.{◌≡◌, [], IfOk};
ghost use Rattle.hub_terms.specs.Programs.{Runs};
ghost use Rattle.session_tables.specs.Opening.{says};
ghost use Rattle.session_core.specs.Streams.{code_of, found_code, leader_of, metadata_of, create_row, delete_row, create_super_row, delete_super_row, metadata_row, route_row, partitions_row, versions_exchanged};

use command_all::{KeyVersions, ResponseCode, StreamMetadata};
use frame_wire::{Row, Text};
use hub_terms::{Found, Hub, HubDid};
use session_tables::{Reply, Request, Tables, bytes_of, takes_second};
use std::alloc::{AllocError, Global};

/// The code that answers a change of the catalog, `None` where memory ran out.
fn code_of(did: HubDid) -> Option<ResponseCode>
    ensures { result ≡ code_of did }
{
    match did {
        HubDid::Code(code) => Some(code),
        HubDid::Failed => Some(ResponseCode::InternalError),
        HubDid::Memory => None,
    }
}

/// Create: a stream comes, or the answer says why not.
pub fn create<H: Hub>(
    tables: &Tables,
    hub: &mut H,
    corr: u32,
    name: &Text,
) -> Result<Reply, AllocError>
    ensures ok { IfOk result (λ reply. Runs H.meaning (create_row tables.now corr name.now) hub.old (says tables.now reply) hub.new) }
    ensures later { H.meaning.seen.later hub.old hub.new }
{
    let did = hub.create(name);
    match code_of(did) {
        None => Err(AllocError),
        Some(code) => Ok(Reply::Answer {
            request: Request::Create,
            corr,
            code,
        }),
    }
}

/// Delete: a stream goes, or the answer says why not.
pub fn delete<H: Hub>(
    tables: &Tables,
    hub: &mut H,
    corr: u32,
    name: &Text,
) -> Result<Reply, AllocError>
    ensures ok { IfOk result (λ reply. Runs H.meaning (delete_row tables.now corr name.now) hub.old (says tables.now reply) hub.new) }
    ensures later { H.meaning.seen.later hub.old hub.new }
{
    let did = hub.delete(name);
    match code_of(did) {
        None => Err(AllocError),
        Some(code) => Ok(Reply::Answer {
            request: Request::Delete,
            corr,
            code,
        }),
    }
}

/// CreateSuper: a super stream comes with its partitions, or the answer says why not.
pub fn create_super<H: Hub>(
    tables: &Tables,
    hub: &mut H,
    corr: u32,
    name: &Text,
    parts: &[Text],
    keys: &[Text],
) -> Result<Reply, AllocError>
    ensures ok { IfOk result (λ reply. Runs H.meaning (create_super_row tables.now corr name.now parts.now keys.now) hub.old (says tables.now reply) hub.new) }
    ensures later { H.meaning.seen.later hub.old hub.new }
{
    let did = hub.create_super(name, parts, keys);
    match code_of(did) {
        None => Err(AllocError),
        Some(code) => Ok(Reply::Answer {
            request: Request::CreateSuper,
            corr,
            code,
        }),
    }
}

/// DeleteSuper: a super stream goes with its partitions, or the answer says why not.
pub fn delete_super<H: Hub>(
    tables: &Tables,
    hub: &mut H,
    corr: u32,
    name: &Text,
) -> Result<Reply, AllocError>
    ensures ok { IfOk result (λ reply. Runs H.meaning (delete_super_row tables.now corr name.now) hub.old (says tables.now reply) hub.new) }
    ensures later { H.meaning.seen.later hub.old hub.new }
{
    let did = hub.delete_super(name);
    match code_of(did) {
        None => Err(AllocError),
        Some(code) => Ok(Reply::Answer {
            request: Request::DeleteSuper,
            corr,
            code,
        }),
    }
}

fn found_code(found: Found) -> ResponseCode
    ensures { result ≡ found_code found }
{
    match found {
        Found::Missing => ResponseCode::StreamDoesNotExist,
        Found::Closed { stream: _ } => ResponseCode::StreamNotAvailable,
        Found::Running {
            stream: _,
            epoch: _,
        } => ResponseCode::Ok,
    }
}

/// The reference of the one broker.
const BROKER: u16 = 0;

/// The reference of none.
const NO_BROKER: u16 = 0xffff;

/// The reference of the one broker, or that of none where no epoch runs.
fn leader_of(found: Found) -> u16
    ensures { result ≡ leader_of found }
{
    match found {
        Found::Missing => NO_BROKER,
        Found::Closed { stream: _ } => NO_BROKER,
        Found::Running {
            stream: _,
            epoch: _,
        } => BROKER,
    }
}

/// What is told of a stream, by what its name leads to.
fn metadata_of(alloc: Global, name: Text, found: Found) -> StreamMetadata
    ensures { result ≡ metadata_of name found }
{
    StreamMetadata {
        stream: name,
        code: found_code(found) as u16,
        leader: leader_of(found),
        replicas: Row::new(alloc),
    }
}

/// Metadata: of each stream whether it is there, and whether it has a leader.
pub fn metadata<H: Hub>(
    alloc: Global,
    tables: &Tables,
    hub: &mut H,
    corr: u32,
    names: &[Text],
) -> Result<Reply, AllocError>
    ensures ok { IfOk result (λ reply. Runs H.meaning (metadata_row tables.now corr names.now) hub.old (says tables.now reply) hub.new) }
    ensures later { H.meaning.seen.later hub.old hub.new }
{
    let mut told = Row::new(alloc);
    'names: for name in names {
        let found = hub.find(bytes_of(name));
        let stream = name.clone()?;
        match told.push(metadata_of(alloc, stream, found)) {
            Ok(()) => {}
            Err(_) => return Err(AllocError),
        }
    }
    Ok(Reply::Metadata {
        corr,
        streams: told,
    })
}

/// Route: the partitions of a super stream that take a routing key.
pub fn route<H: Hub>(
    alloc: Global,
    tables: &Tables,
    hub: &mut H,
    corr: u32,
    key: &Text,
    name: &Text,
) -> Result<Reply, AllocError>
    ensures ok { IfOk result (λ reply. Runs H.meaning (route_row tables.now corr key.now name.now) hub.old (says tables.now reply) hub.new) }
    ensures later { H.meaning.seen.later hub.old hub.new }
{
    match hub.route(key, name) {
        Ok(None) => Ok(Reply::Routes {
            corr,
            code: ResponseCode::StreamDoesNotExist,
            names: Row::new(alloc),
        }),
        Ok(Some(names)) => Ok(Reply::Routes {
            corr,
            code: ResponseCode::Ok,
            names,
        }),
        Err(refused) => Err(refused),
    }
}

/// Partitions: all partitions of a super stream.
pub fn partitions<H: Hub>(
    alloc: Global,
    tables: &Tables,
    hub: &mut H,
    corr: u32,
    name: &Text,
) -> Result<Reply, AllocError>
    ensures ok { IfOk result (λ reply. Runs H.meaning (partitions_row tables.now corr name.now) hub.old (says tables.now reply) hub.new) }
    ensures later { H.meaning.seen.later hub.old hub.new }
{
    match hub.parts(name) {
        Ok(None) => Ok(Reply::Partitions {
            corr,
            code: ResponseCode::StreamDoesNotExist,
            names: Row::new(alloc),
        }),
        Ok(Some(names)) => Ok(Reply::Partitions {
            corr,
            code: ResponseCode::Ok,
            names,
        }),
        Err(refused) => Err(refused),
    }
}

/// ExchangeVersions: deliveries are of version 2 from now on, where the peer takes it.
pub fn exchange_versions(tables: &mut Tables, corr: u32, items: &[KeyVersions]) -> Reply
    ensures { says tables.new result ≡ versions_exchanged tables.old corr items.now }
{
    tables.second = takes_second(items);
    Reply::Versions { corr }
}
