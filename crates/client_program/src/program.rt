//! The client's top call.

ghost use Rattle.std.specs.Prelude.{◌≡◌, ◌⊎◌, true, Err};
ghost use Rattle.outside_io.specs.Causes.{Rose, HasCause};
ghost use Rattle.client_program.specs.Words.{IsAsked, asked_of, deed_of};
ghost use Rattle.client_program.specs.Acts.{wanted_of};
ghost use Rattle.client_program.specs.Ends.{ClientDoes, outside_at, ReadsFor};

use crate::acts::core_for;
use crate::ends::{input_status, lines_status, report};
use crate::input::{InputFault, read_input};
use crate::run::run_client;
use crate::words::{Act, ClientWords};
use frame_wire::Octets;
use outside_io::{Link, Sink, Source};
use std::alloc::Global;
use std::sync::Wait;

/// The input of a publisher, or nothing.
fn read_for<S: Source>(alloc: Global, act: &Act<'_>, input: &mut S) -> Result<Octets, InputFault>
    ensures reads { ReadsFor (deed_of act.now) result (S.left input.old) (S.left input.new) }
    ensures cause { HasCause (S.faults input.old) (S.faults input.new) (result ≡ Err InputFault.Read) }
{
    match act {
        Act::Publish { name: _ } => read_input(alloc, input),
        Act::Resume { name: _, from: _ } => read_input(alloc, input),
        Act::Create => Ok(Octets::new(alloc)),
        Act::Consume {
            offset: _,
            count: _,
        } => Ok(Octets::new(alloc)),
        Act::Query { name: _ } => Ok(Octets::new(alloc)),
    }
}

/// How many entries are wanted.
fn wanted_of(act: &Act<'_>) -> u64
    ensures { result ≡ wanted_of (deed_of act.now) }
{
    match act {
        Act::Consume { offset: _, count } => *count,
        _ => 0,
    }
}

/// Does what words ask for over a connection that was just made, logged in as `guest`, and answers the program's status.
/// A publisher's input is read to its end first; each of its lines is a message. It waits for the server.
pub fn client<W: Wait, S: Source, L: Link, K: Sink>(
    rt: &W,
    alloc: Global,
    words: &ClientWords<'_>,
    input: &mut S,
    link: &mut L,
    out: &mut K,
) -> u8
    requires { IsAsked (asked_of words.now) }
    // The client has exactly these messages and this wish; what it sent, heard and wrote is a run of its steps, and then
    // come the last lines.
    ensures does { ClientDoes (asked_of words.now) result (S.left input.old) (S.left input.new) (outside_at (L.heard link.old) (L.sent link.old) (K.written out.old)) (outside_at (L.heard link.new) (L.sent link.new) (K.written out.new)) }
    ensures fault { result ≡ 4 → Rose (S.faults input.old) (S.faults input.new) ⊎ Rose (L.faults link.old) (L.faults link.new) }
    ensures write { result ≡ 5 → Rose (K.faults out.old) (K.faults out.new) }
    ensures ended { result ≡ 12 → L.has_ended link.new ≡ true }
{
    let text = match read_for(alloc, &words.act, input) {
        Ok(text) => text,
        Err(fault) => return input_status(fault),
    };
    let mut core = match core_for(alloc, words, text.as_slice()) {
        Ok(core) => core,
        Err(fault) => return lines_status(fault),
    };
    let wanted = wanted_of(&words.act);
    let end = run_client(rt, alloc, link, &mut core, out, wanted);
    report(alloc, &words.act, end, &core, out)
}
