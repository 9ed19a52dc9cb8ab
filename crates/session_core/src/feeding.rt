//! The commands that a peer's bytes spell are answered one after another, until one ends the session. After want of memory the
//! session has ended, and the hub has only gone on.

ghost use Rattle.std.specs.Prelude.{◌≡◌, ◌≤◌, ◌++◌, None, OnOk, IfSome};
ghost use Rattle.session_tables.specs.Spelling.{some_frames, IsSayable};
ghost use Rattle.session_core.specs.Feeding.{IsFramed, AddsStep, AddsClose, IsReading, Adds};

use crate::serving::serve;
use command_all::{Command, Identity, ResponseCode};
use command_reader::{CommandReader, Next};
use frame_wire::Octets;
use hub_terms::Hub;
use session_tables::{Reply, Tables, close, put_reply};
use std::alloc::{AllocError, Global};

/// Adds the frames of what is said, if anything.
fn put_some(
    alloc: Global,
    out: &mut Octets,
    identity: &Identity,
    reply: Option<Reply>,
) -> Result<(), AllocError>
    requires { IfSome reply IsSayable }
    ensures { OnOk result (out.new ≡ out.old ++ some_frames identity.now reply) }
{
    match reply {
        None => Ok(()),
        Some(reply) => put_reply(alloc, out, identity, reply),
    }
}

/// Answers a command of a frame, and adds the frames of what is said.
fn answer<H: Hub>(
    alloc: Global,
    tables: &mut Tables,
    hub: &mut H,
    identity: &Identity,
    command: Command,
    out: &mut Octets,
    now: u64,
) -> Result<(), AllocError>
    requires { IsFramed command }
    ensures ok { OnOk result (AddsStep H.meaning identity.now now tables.old command out.old out.new tables.new hub.old hub.new) }
    ensures later { H.meaning.seen.later hub.old hub.new }
{
    let reply = serve(alloc, tables, hub, identity, command, now)?;
    put_some(alloc, out, identity, reply)
}

/// The server closes the connection.
fn close_with(
    alloc: Global,
    tables: &mut Tables,
    identity: &Identity,
    out: &mut Octets,
    code: ResponseCode,
) -> Result<(), AllocError>
    ensures { OnOk result (AddsClose identity.now code tables.old out.old out.new tables.new) }
{
    let reply = close(tables, code);
    put_reply(alloc, out, identity, reply)
}

/// Answers the commands that the reader's bytes spell, at a moment in milliseconds since 1970, and adds the frames of what is
/// said. A frame that no command spells and a size above the greatest end the session with their Close. Once it has ended
/// nothing more is answered.
pub fn answer_all<H: Hub>(
    alloc: Global,
    tables: &mut Tables,
    reader: &mut CommandReader,
    hub: &mut H,
    identity: &Identity,
    out: &mut Octets,
    now: u64,
) -> Result<(), AllocError>
    requires stands { tables.old.ended ≡ None }
    requires small { reader.old.max ≤ 1048576 }
    ensures ok { OnOk result (Adds H.meaning identity.now now reader.old.max reader.old.rest tables.old out.old out.new tables.new reader.new.rest hub.old hub.new) }
    ensures reads { OnOk result (tables.new.ended ≡ None → IsReading reader.old.max reader.new) }
    ensures later { H.meaning.seen.later hub.old hub.new }
{
    'turns: loop {
        match reader.next()? {
            Next::Command(command) => {
                answer(alloc, tables, hub, identity, command, out, now)?;
                match tables.ended {
                    None => {}
                    Some(_) => return Ok(()),
                }
            }
            Next::Unspelt { fault: _ } => return close_with(
                alloc,
                tables,
                identity,
                out,
                ResponseCode::UnknownFrame,
            ),
            Next::TooLarge { size: _ } => return close_with(
                alloc,
                tables,
                identity,
                out,
                ResponseCode::FrameTooLarge,
            ),
            Next::More => return Ok(()),
        }
    }
}
