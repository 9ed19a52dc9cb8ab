//! What goes out for what a session says unasked.

ghost use Rattle.std.specs.Prelude.{◌≡◌, ◌≤◌, length, All, IfOk, if◌then◌else◌};
ghost use Rattle.command_all.specs.Commands.{frame_of};
ghost use Rattle.command_all.specs.Fitting.{Fits, IsId};
ghost use Rattle.session_core.specs.declared.unasked.Unasked.TheVariants as say;
ghost use Rattle.session_core.specs.Outgoing.{bytes_of_outgoing, tail_of, command_of, IsSayableUnasked};

use crate::unasked::Unasked;
use chunk_format::Stored;
use command_all::{AdminCommand, Command, DataCommand, put_delivery_head, put_frame};
use frame_wire::{Octets, Row, Text};
use std::alloc::{AllocError, Global};

/// What goes out for one thing said: `head`, and behind it for a delivery the chunk's own bytes, which are shared and not copied.
#[derive(Debug, Drop)]
pub struct Outgoing {
    pub head: Octets,
    /// The chunk whose header and payload go behind the head. Its trailer stays here.
    pub tail: Option<Stored>,
}

/// The header and the payload of a chunk, without its trailer, where they are kept.
fn delivered_bytes(chunk: &Stored) -> &[u8]
    ensures is { result.now ≡ Rattle.session_core.specs.Outgoing.delivered_bytes chunk.now }
{
    let end = 48 + chunk.header().payload_len as usize;
    &chunk.bytes()[..end]
}

/// What goes out behind the head: of a delivery the 48 bytes of the chunk's header and its payload, else nothing. It copies nothing.
pub fn tail_bytes(outgoing: &Outgoing) -> &[u8]
    ensures { result.now ≡ tail_of outgoing.now.tail }
{
    match &outgoing.tail {
        None => b"",
        Some(chunk) => delivered_bytes(chunk),
    }
}

/// A command's frame, with nothing behind it.
fn head_alone(alloc: Global, command: &Command) -> Result<Outgoing, AllocError>
    requires { Fits command.now }
    ensures { IfOk result (λ o. bytes_of_outgoing o ≡ frame_of command.now) }
{
    let mut head = Octets::new(alloc);
    put_frame(&mut head, command)?;
    Ok(Outgoing { head, tail: None })
}

/// Each publishing id is a number of eight bytes.
fn see_ids(ids: &[u64])
    ensures { All IsId ids.now }
{
    let _len = ids.len();
}

fn confirm(alloc: Global, id: u8, ids: Row<u64>) -> Result<Outgoing, AllocError>
    requires { length ids ≤ 1048576 }
    ensures { IfOk result (λ o. bytes_of_outgoing o ≡ frame_of (command_of (say.Confirm id ids))) }
{
    see_ids(ids.as_slice());
    let command = DataCommand::PublishConfirm {
        publisher: id,
        items: ids,
    };
    head_alone(alloc, &Command::Data(command))
}

#[tactic(auto, using(crate::proofs::Sayable::metadata_update_fits))]
fn metadata_update(alloc: Global, stream: Text) -> Result<Outgoing, AllocError>
    ensures { IfOk result (λ o. bytes_of_outgoing o ≡ frame_of (command_of (say.MetadataUpdate stream))) }
{
    let _name = stream.get();
    let command = AdminCommand::MetadataUpdate { code: 6, stream };
    head_alone(alloc, &Command::Admin(command))
}

/// 1 of what is active, else 0.
fn flag_of(active: bool) -> u8
    ensures is { result ≡ (if active then 1 else 0) }
    ensures flag { result ≤ 1 }
{
    if active { 1 } else { 0 }
}

#[tactic(auto, using(crate::proofs::Sayable::update_fits))]
fn update(alloc: Global, corr: u32, id: u8, active: bool) -> Result<Outgoing, AllocError>
    ensures { IfOk result (λ o. bytes_of_outgoing o ≡ frame_of (command_of (say.Update corr id active))) }
{
    let command = AdminCommand::ConsumerUpdate {
        corr,
        sub: id,
        active: flag_of(active),
    };
    head_alone(alloc, &Command::Admin(command))
}

fn deliver(
    alloc: Global,
    id: u8,
    committed: Option<u64>,
    chunk: Stored,
) -> Result<Outgoing, AllocError>
    ensures { IfOk result (λ o. bytes_of_outgoing o ≡ frame_of (command_of (say.Deliver id committed chunk))) }
{
    let mut head = Octets::new(alloc);
    put_delivery_head(&mut head, id, committed, chunk.header())?;
    Ok(Outgoing {
        head,
        tail: Some(chunk),
    })
}

/// What goes out for it: one frame. A confirm has at most 1,048,576 ids, as those of a hub have. It fails for want of memory alone.
pub fn make_outgoing(alloc: Global, unasked: Unasked) -> Result<Outgoing, AllocError>
    requires { IsSayableUnasked unasked }
    ensures { IfOk result (λ o. bytes_of_outgoing o ≡ frame_of (command_of unasked)) }
{
    match unasked {
        Unasked::Confirm { id, ids } => confirm(alloc, id, ids),
        Unasked::MetadataUpdate { stream } => metadata_update(alloc, stream),
        Unasked::Update { corr, id, active } => update(alloc, corr, id, active),
        Unasked::Deliver {
            id,
            committed,
            chunk,
        } => deliver(alloc, id, committed, chunk),
    }
}
