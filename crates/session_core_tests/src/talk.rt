//! A session over a hub in memory.

ghost use Rattle.session_core.specs.Outgoing.{IsSayableUnasked};

use crate::answer::{CLOSED, DONE, MEMORY, MISSING, of_bytes};
use command_all::Identity;
use frame_wire::{Octets, Row, Text};
use hub_terms::Hub;
use memory_hub::MemoryHub;
use session_core::{PrepareFault, Session, Unasked, make_outgoing, tail_bytes};
use std::alloc::{AllocError, Global};

/// A session with its hub, at a moment in milliseconds.
#[derive(Drop)]
pub struct Talk {
    pub session: Session,
    pub hub: MemoryHub,
    pub now: u64,
}

pub(crate) fn text(alloc: Global, bytes: &[u8]) -> Result<Text, AllocError> {
    match Text::copy(alloc, bytes) {
        Ok(text) => Ok(text),
        Err(_) => Err(AllocError),
    }
}

/// The user `guest` with the password `guest`, at port 5552 of `localhost`.
fn identity(alloc: Global) -> Result<Identity, AllocError> {
    Ok(Identity {
        user: Octets::copy(alloc, b"guest")?,
        password: Octets::copy(alloc, b"guest")?,
        host: text(alloc, b"localhost")?,
        port: 5552,
    })
}

/// Session 1, at the moment 0, over a hub without streams.
pub fn new_talk(alloc: Global) -> Result<Talk, AllocError> {
    let identity = identity(alloc)?;
    let hub = MemoryHub::new(alloc, 16, &[])?;
    Ok(Talk {
        session: Session::new(alloc, 1, identity, 0),
        hub,
        now: 0,
    })
}

/// A hub with the stream `s`, whose epoch runs or has ended.
fn hub_with_stream(alloc: Global, name: &Text, runs: bool) -> Result<MemoryHub, AllocError> {
    let mut hub = MemoryHub::new(alloc, 16, &[])?;
    let _did = hub.create(name);
    if !runs {
        hub.stop(1);
    }
    Ok(hub)
}

/// Session 1, at the moment 0, that is prepared on the stream `s`.
pub fn prepared_talk(alloc: Global) -> Result<Talk, AllocError> {
    let name = text(alloc, b"s")?;
    let identity = identity(alloc)?;
    let mut hub = hub_with_stream(alloc, &name, true)?;
    match Session::prepared(alloc, 1, identity, &mut hub, &name, 0) {
        Ok(session) => Ok(Talk {
            session,
            hub,
            now: 0,
        }),
        Err(_) => Err(AllocError),
    }
}

/// Why no session is prepared on a stream of this name, where the epoch of the stream `s` runs or has ended.
fn prepare_fault(alloc: Global, name: &[u8], runs: bool) -> Result<i64, AllocError> {
    let name = text(alloc, name)?;
    let known = text(alloc, b"s")?;
    let identity = identity(alloc)?;
    let mut hub = hub_with_stream(alloc, &known, runs)?;
    match Session::prepared(alloc, 1, identity, &mut hub, &name, 0) {
        Ok(_) => Ok(DONE),
        Err(PrepareFault::Missing) => Ok(MISSING),
        Err(PrepareFault::Closed) => Ok(CLOSED),
        Err(PrepareFault::Memory) => Ok(MEMORY),
    }
}

/// The same, as one number.
pub fn prepared_on(alloc: Global, name: &[u8], runs: bool) -> i64 {
    match prepare_fault(alloc, name, runs) {
        Ok(told) => told,
        Err(_) => MEMORY,
    }
}

/// Adds what is answered to bytes that are fed at once.
fn hear(talk: &mut Talk, bytes: &[u8], out: &mut Octets) -> Result<(), AllocError> {
    let told = talk.session.feed(&mut talk.hub, bytes, talk.now)?;
    out.push_slice(told.as_slice())
}

/// Adds what is answered to bytes that are fed one by one.
fn hear_each(talk: &mut Talk, bytes: &[u8], out: &mut Octets) -> Result<(), AllocError> {
    for byte in bytes {
        hear(talk, &[*byte], out)?;
    }
    Ok(())
}

/// Whether these bytes are answered to bytes that are fed at once, or one by one.
pub(crate) fn answer(
    alloc: Global,
    talk: &mut Talk,
    bytes: &[u8],
    wanted: &[u8],
    one_by_one: bool,
) -> i64 {
    let mut out = Octets::new(alloc);
    let fed = if one_by_one {
        hear_each(talk, bytes, &mut out)
    } else {
        hear(talk, bytes, &mut out)
    };
    match fed {
        Ok(()) => of_bytes(out.as_slice(), wanted),
        Err(_) => MEMORY,
    }
}

/// Whether these bytes are said at a moment.
pub(crate) fn pass_to(talk: &mut Talk, now: u64, wanted: &[u8]) -> i64 {
    talk.now = now;
    match talk.session.tick(now) {
        Ok(told) => of_bytes(told.as_slice(), wanted),
        Err(_) => MEMORY,
    }
}

/// Adds head and tail of one thing said.
fn add_said(alloc: Global, unasked: Unasked, out: &mut Octets) -> Result<(), AllocError>
    requires { IsSayableUnasked unasked }
{
    let said = make_outgoing(alloc, unasked)?;
    out.push_slice(said.head.as_slice())?;
    out.push_slice(tail_bytes(&said))
}

/// The same of a confirm, which is to have no more ids than those of a hub may have.
fn add_confirm(alloc: Global, id: u8, ids: Row<u64>, out: &mut Octets) -> Result<(), AllocError> {
    if ids.as_slice().len() > 1_048_576 {
        return Err(AllocError);
    }
    add_said(alloc, Unasked::Confirm { id, ids }, out)
}

/// The same of anything said.
fn add_any(alloc: Global, unasked: Unasked, out: &mut Octets) -> Result<(), AllocError> {
    match unasked {
        Unasked::Confirm { id, ids } => add_confirm(alloc, id, ids, out),
        Unasked::MetadataUpdate { stream } => {
            add_said(alloc, Unasked::MetadataUpdate { stream }, out)
        }
        Unasked::Update { corr, id, active } => {
            add_said(alloc, Unasked::Update { corr, id, active }, out)
        }
        Unasked::Deliver {
            id,
            committed,
            chunk,
        } => add_said(
            alloc,
            Unasked::Deliver {
                id,
                committed,
                chunk,
            },
            out,
        ),
    }
}

/// Adds all that is said unasked.
fn say(alloc: Global, talk: &mut Talk, out: &mut Octets) -> Result<(), AllocError> {
    let all = talk.session.poll(&mut talk.hub)?;
    for unasked in all.into_vec() {
        add_any(alloc, unasked, out)?;
    }
    Ok(())
}

/// Whether these bytes are said unasked.
pub(crate) fn poll(alloc: Global, talk: &mut Talk, wanted: &[u8]) -> i64 {
    let mut out = Octets::new(alloc);
    match say(alloc, talk, &mut out) {
        Ok(()) => of_bytes(out.as_slice(), wanted),
        Err(_) => MEMORY,
    }
}

/// The connection ends.
pub(crate) fn hang_up(talk: &mut Talk) -> i64 {
    talk.session.link_ended(&mut talk.hub);
    DONE
}

/// The epoch of a stream ends.
pub(crate) fn stop(talk: &mut Talk, stream: u32) -> i64 {
    talk.hub.stop(stream);
    DONE
}

/// The next epoch of a stream begins.
pub(crate) fn begin(talk: &mut Talk, stream: u32) -> i64 {
    match talk.hub.begin(stream) {
        Some(_) => DONE,
        None => MEMORY,
    }
}
