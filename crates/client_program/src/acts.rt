//! What a client is to do, before it has a connection.

ghost use Rattle.std.specs.Prelude.{◌≡◌, ◌≤◌, length, Some, IfOk, OnOk};
ghost use Rattle.client_terms.specs.States.{last_id};
ghost use Rattle.stream_client.specs.Cores.{new_core};
ghost use Rattle.client_program.specs.Inputs.{most_input};
ghost use Rattle.client_program.specs.Words.{IsAsked, IsDeed, asked_of, deed_of};
ghost use Rattle.client_program.specs.Acts.{guest, name_of, confirmed_of, wishing, QueuesFor, MakesCore};

use crate::lines::{LinesFault, queue_lines};
use crate::words::{Act, ClientWords};
use command_all::{Identity, OffsetSpec};
use frame_wire::{Octets, Text};
use std::alloc::{AllocError, Global};
use stream_client::ClientCore;

/// How many chunks of credit a subscription begins with.
const CREDIT: u16 = 10;

fn guest(alloc: Global) -> Result<Identity, AllocError>
    ensures { IfOk result (λ identity. identity ≡ guest) }
{
    let user = Octets::copy(alloc, b"guest")?;
    let password = Octets::copy(alloc, b"guest")?;
    Ok(Identity {
        user,
        password,
        host: Text::null(),
        port: 0,
    })
}

/// A text of a name.
fn text(alloc: Global, name: &[u8]) -> Result<Text, AllocError>
    requires { length name.now ≤ 255 }
    ensures { IfOk result (λ text. text ≡ Some name.now) }
{
    match Text::copy(alloc, name) {
        Ok(text) => Ok(text),
        Err(_) => Err(AllocError),
    }
}

/// The publisher's name, where there is one.
fn name_of(alloc: Global, act: &Act<'_>) -> Result<Text, AllocError>
    requires { IsDeed (deed_of act.now) }
    ensures { IfOk result (λ text. text ≡ name_of (deed_of act.now)) }
{
    match act {
        Act::Create => Ok(Text::null()),
        Act::Publish { name } => text(alloc, name),
        Act::Resume { name, from: _ } => text(alloc, name),
        Act::Consume {
            offset: _,
            count: _,
        } => Ok(Text::null()),
        Act::Query { name } => text(alloc, name),
    }
}

/// Up to which id all is confirmed before.
fn confirmed_of(act: &Act<'_>) -> u64
    ensures { result ≡ confirmed_of (deed_of act.now) }
{
    match act {
        Act::Resume { name: _, from } => *from,
        _ => 0,
    }
}

/// A client without messages and wishes.
fn start(alloc: Global, words: &ClientWords<'_>) -> Result<ClientCore, AllocError>
    requires { IsAsked (asked_of words.now) }
    ensures { IfOk result (λ core. core ≡ new_core guest (Some words.now.stream.now) (name_of (deed_of words.now.act)) (confirmed_of (deed_of words.now.act))) }
{
    let stream = text(alloc, words.stream)?;
    let name = name_of(alloc, &words.act)?;
    ClientCore::start(
        alloc,
        guest(alloc)?,
        &stream,
        &name,
        confirmed_of(&words.act),
    )
}

/// Queues the messages of a publisher.
fn queue(core: &mut ClientCore, act: &Act<'_>, text: &[u8]) -> Result<(), LinesFault>
    requires short { length text.now ≤ most_input }
    requires next { last_id core.old.client ≡ confirmed_of (deed_of act.now) }
    ensures queues { QueuesFor result (deed_of act.now) text.now core.old.client core.new.client }
    ensures reader { core.new.reader ≡ core.old.reader }
{
    match act {
        Act::Publish { name: _ } => queue_lines(core, text, 0),
        Act::Resume { name: _, from } => queue_lines(core, text, *from),
        Act::Create => Ok(()),
        Act::Consume {
            offset: _,
            count: _,
        } => Ok(()),
        Act::Query { name: _ } => Ok(()),
    }
}

/// Makes the wish, where there is one.
fn wish(core: &mut ClientCore, act: &Act<'_>) -> Result<(), AllocError>
    ensures wishes { OnOk result (core.new.client ≡ wishing (deed_of act.now) core.old.client) }
    ensures reader { core.new.reader ≡ core.old.reader }
{
    match act {
        Act::Create => core.create(),
        Act::Consume { offset, count: _ } => core.subscribe(OffsetSpec::At(*offset), CREDIT),
        Act::Query { name: _ } => core.query(),
        _ => Ok(()),
    }
}

/// A client at the begin of its connection, with all that it is to do. The text is the input of a publisher.
pub(crate) fn core_for(
    alloc: Global,
    words: &ClientWords<'_>,
    text: &[u8],
) -> Result<ClientCore, LinesFault>
    requires asked { IsAsked (asked_of words.now) }
    requires short { length text.now ≤ most_input }
    ensures { MakesCore result (asked_of words.now) text.now }
{
    let Ok(mut core) = start(alloc, words) else {
        return Err(LinesFault::Memory);
    };
    queue(&mut core, &words.act, text)?;
    let Ok(()) = wish(&mut core, &words.act) else {
        return Err(LinesFault::Memory);
    };
    match core.connected() {
        Ok(()) => Ok(core),
        Err(_) => Err(LinesFault::Memory),
    }
}
