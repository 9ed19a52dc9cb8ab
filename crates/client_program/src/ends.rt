//! What a client's program writes last, and its status.

ghost use Rattle.std.specs.Prelude.{◌≡◌, ◌≤◌, ◌++◌, ◌⊎◌, IfOk, OnOk};
ghost use Rattle.outside_io.specs.Causes.{Rose};
ghost use Rattle.client_program.specs.Words.{deed_of};
ghost use Rattle.client_program.specs.Ends.{input_status, lines_status, fault_status, end_status, refused_line, confirmed_line, told_line, fault_line, end_line, deed_line, last_lines, Reports};

use crate::input::InputFault;
use crate::lines::LinesFault;
use crate::run::ClientEnd;
use crate::words::Act;
use client_terms::ClientFault;
use frame_wire::Octets;
use outside_io::{Gave, Sink};
use std::alloc::{AllocError, Global};
use stream_client::ClientCore;

/// A frame that is no command, too large, no chunk, or that nothing asked for.
const BAD_FRAME: u8 = 3;
/// The input or the connection failed.
const FAULT: u8 = 4;
/// The output failed.
const WRITE_FAULT: u8 = 5;

const MEMORY: u8 = 6;
/// The server refused, closed the connection, or lost the stream.
const REFUSED: u8 = 8;
/// The input or one of its lines is too long.
const TOO_LONG: u8 = 9;
/// The server sends no more.
const LINK_ENDED: u8 = 12;

pub(crate) fn input_status(fault: InputFault) -> u8
    ensures { result ≡ input_status fault }
{
    match fault {
        InputFault::Read => FAULT,
        InputFault::TooLong => TOO_LONG,
        InputFault::Memory => MEMORY,
    }
}

pub(crate) fn lines_status(fault: LinesFault) -> u8
    ensures { result ≡ lines_status fault }
{
    match fault {
        LinesFault::TooLong => TOO_LONG,
        LinesFault::Memory => MEMORY,
    }
}

fn fault_status(fault: ClientFault) -> u8
    ensures { result ≡ fault_status fault }
{
    match fault {
        ClientFault::Frame(_)
        | ClientFault::TooLarge { size: _ }
        | ClientFault::Chunk(_)
        | ClientFault::Unexpected { key: _ } => BAD_FRAME,
        ClientFault::Refused { key: _, code: _ }
        | ClientFault::Closed { code: _ }
        | ClientFault::StreamLost { code: _ } => REFUSED,
        ClientFault::Memory => MEMORY,
    }
}

fn end_status(end: ClientEnd) -> u8
    ensures { result ≡ end_status end }
{
    match end {
        ClientEnd::Finished => 0,
        ClientEnd::LinkEnded => LINK_ENDED,
        ClientEnd::LinkFault => FAULT,
        ClientEnd::WriteFault => WRITE_FAULT,
        ClientEnd::Fault(fault) => fault_status(fault),
        ClientEnd::Memory => MEMORY,
    }
}

/// `refused`, and a response code in four hexadecimal digits.
#[tactic(auto, unfolding(frame_wire::specs::Fields::u16_bytes))]
fn put_refused(alloc: Global, out: &mut Octets, code: u16) -> Result<(), AllocError>
    ensures { OnOk result (out.new ≡ out.old ++ refused_line code) }
{
    let digits = hex::encode(alloc, &code.to_be_bytes())?;
    let text = format!(in alloc; "refused {digits}\n")?;
    out.push_slice(text.as_bytes())
}

fn put_fault(alloc: Global, out: &mut Octets, fault: ClientFault) -> Result<(), AllocError>
    ensures { OnOk result (out.new ≡ out.old ++ fault_line fault) }
{
    match fault {
        ClientFault::Refused { key: _, code } => put_refused(alloc, out, code),
        ClientFault::Closed { code } => put_refused(alloc, out, code),
        ClientFault::StreamLost { code } => put_refused(alloc, out, code),
        _ => Ok(()),
    }
}

fn put_end(alloc: Global, out: &mut Octets, end: ClientEnd) -> Result<(), AllocError>
    ensures { OnOk result (out.new ≡ out.old ++ end_line end) }
{
    match end {
        ClientEnd::Fault(fault) => put_fault(alloc, out, fault),
        _ => Ok(()),
    }
}

/// `confirmed`, and the id up to which all is confirmed.
fn put_confirmed(alloc: Global, out: &mut Octets, confirmed: u64) -> Result<(), AllocError>
    ensures { OnOk result (out.new ≡ out.old ++ confirmed_line confirmed) }
{
    let text = format!(in alloc; "confirmed {confirmed}\n")?;
    out.push_slice(text.as_bytes())
}

/// The number that was told.
fn put_told(alloc: Global, out: &mut Octets, told: Option<u64>) -> Result<(), AllocError>
    ensures { OnOk result (out.new ≡ out.old ++ told_line told) }
{
    match told {
        None => Ok(()),
        Some(number) => {
            let text = format!(in alloc; "{number}\n")?;
            out.push_slice(text.as_bytes())
        }
    }
}

/// What is told of what was to be done.
fn put_deed(
    alloc: Global,
    out: &mut Octets,
    act: &Act<'_>,
    end: ClientEnd,
    core: &ClientCore,
) -> Result<(), AllocError>
    ensures { OnOk result (out.new ≡ out.old ++ deed_line (deed_of act.now) end core.now.client) }
{
    match act {
        Act::Create => Ok(()),
        Act::Publish { name: _ } => put_confirmed(alloc, out, core.confirmed()),
        Act::Resume { name: _, from: _ } => put_confirmed(alloc, out, core.confirmed()),
        Act::Consume {
            offset: _,
            count: _,
        } => Ok(()),
        Act::Query { name: _ } => match end {
            ClientEnd::Finished => put_told(alloc, out, core.answer()),
            _ => Ok(()),
        },
    }
}

/// What is told behind a run.
fn both_lines(
    alloc: Global,
    act: &Act<'_>,
    end: ClientEnd,
    core: &ClientCore,
) -> Result<Octets, AllocError>
    ensures { IfOk result (λ bytes. bytes ≡ end_line end ++ deed_line (deed_of act.now) end core.now.client) }
{
    let mut out = Octets::new(alloc);
    put_end(alloc, &mut out, end)?;
    put_deed(alloc, &mut out, act, end, core)?;
    Ok(out)
}

/// The last lines: none after want of memory or behind a write that failed.
fn last_lines(
    alloc: Global,
    act: &Act<'_>,
    end: ClientEnd,
    core: &ClientCore,
) -> Result<Octets, AllocError>
    ensures { IfOk result (λ bytes. bytes ≡ last_lines (deed_of act.now) end core.now.client) }
{
    match end {
        ClientEnd::WriteFault => Ok(Octets::new(alloc)),
        ClientEnd::Memory => Ok(Octets::new(alloc)),
        _ => both_lines(alloc, act, end, core),
    }
}

/// Writes the last lines, and answers the program's status.
pub(crate) fn report<K: Sink>(
    alloc: Global,
    act: &Act<'_>,
    end: ClientEnd,
    core: &ClientCore,
    out: &mut K,
) -> u8
    ensures reports { Reports result end (last_lines (deed_of act.now) end core.now.client) (K.written out.old) (K.written out.new) }
    ensures later { K.faults out.old ≤ K.faults out.new }
    ensures write { result ≡ 5 → (end ≡ ClientEnd.WriteFault) ⊎ Rose (K.faults out.old) (K.faults out.new) }
{
    let Ok(lines) = last_lines(alloc, act, end, core) else {
        return MEMORY;
    };
    if lines.len() == 0 {
        return end_status(end);
    }
    match out.write_all(lines.as_slice()) {
        Gave::Done => end_status(end),
        Gave::Failed => WRITE_FAULT,
    }
}
