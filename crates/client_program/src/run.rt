//! A client that runs over a connection.

ghost use Rattle.std.specs.Prelude.{◌≡◌, ◌↔◌, ◌<◌, ℕ, true, IsTrue, IfOk, Err};
ghost use Rattle.outside_io.specs.Causes.{HasCause};
ghost use Rattle.stream_client.specs.Cores.{IsDone};
ghost use Rattle.client_program.specs.Runs.{run_at, IsFinished, RunsTo, Turns, SentBy, WroteBy, FedBy, HeardBy, entry_line};

use client_terms::{ClientFault, Received};
use frame_wire::Octets;
use outside_io::{Gave, Heard, Link, Sink};
use std::alloc::{AllocError, Global};
use std::sync::Wait;
use stream_client::ClientCore;

/// How a run ended.
#[derive(Clone, Copy, Debug, PartialEq, Eq)]
pub enum ClientEnd {
    /// Every wish was answered, every queued message is confirmed, and the wanted entries were written.
    Finished,
    /// The server sends no more.
    LinkEnded,
    /// The connection failed.
    LinkFault,
    /// The output failed.
    WriteFault,
    /// The client can't go on at a frame of the server.
    Fault(ClientFault),
    Memory,
}

/// The line of an entry: its offset, a space, and its body in lower-case hexadecimal digits.
fn line_of(alloc: Global, entry: &Received) -> Result<Octets, AllocError>
    ensures { IfOk result (λ line. line ≡ entry_line entry.now) }
{
    let digits = hex::encode(alloc, entry.body.as_slice())?;
    let text = format!(in alloc; "{} {digits}\n", entry.offset)?;
    Octets::copy(alloc, text.as_bytes())
}

/// Sends a frame.
fn send<L: Link>(link: &mut L, bytes: &[u8]) -> Result<(), ClientEnd>
    ensures sent { SentBy result bytes.now (L.sent link.old) (L.sent link.new) }
    ensures heard { L.heard link.new ≡ L.heard link.old }
    ensures ended { L.has_ended link.new ≡ L.has_ended link.old }
    ensures cause { HasCause (L.faults link.old) (L.faults link.new) (result ≡ Err ClientEnd.LinkFault) }
{
    match link.send(bytes) {
        Gave::Done => Ok(()),
        Gave::Failed => Err(ClientEnd::LinkFault),
    }
}

/// Writes an entry, of which one fewer is then wanted.
fn write<K: Sink>(
    alloc: Global,
    out: &mut K,
    left: &mut u64,
    entry: &Received,
) -> Result<(), ClientEnd>
    requires { 0 < left.old }
    ensures wrote { WroteBy result entry.now left.old left.new (K.written out.old) (K.written out.new) }
    ensures cause { HasCause (K.faults out.old) (K.faults out.new) (result ≡ Err ClientEnd.WriteFault) }
{
    let Ok(line) = line_of(alloc, entry) else {
        return Err(ClientEnd::Memory);
    };
    match out.write_all(line.as_slice()) {
        Gave::Done => {
            *left -= 1;
            Ok(())
        }
        Gave::Failed => Err(ClientEnd::WriteFault),
    }
}

/// Feeds a piece of the server's bytes.
fn feed(core: &mut ClientCore, piece: &[u8]) -> Result<(), ClientEnd>
    ensures { FedBy result core.old piece.now core.new }
{
    match core.feed(piece) {
        Ok(()) => Ok(()),
        Err(ClientFault::Memory) => Err(ClientEnd::Memory),
        Err(fault) => Err(ClientEnd::Fault(fault)),
    }
}

/// Feeds what the server sends next, if it sends anything for a while.
fn listen<L: Link>(core: &mut ClientCore, link: &mut L) -> Result<(), ClientEnd>
    ensures heard { HeardBy result core.old core.new (L.heard link.old) (L.heard link.new) }
    ensures sent { L.sent link.new ≡ L.sent link.old }
    ensures ended { result ≡ Err ClientEnd.LinkEnded → L.has_ended link.new ≡ true }
    ensures cause { HasCause (L.faults link.old) (L.faults link.new) (result ≡ Err ClientEnd.LinkFault) }
{
    let mut buf = [0u8; 16_384];
    match link.receive(&mut buf) {
        Heard::Got(count) => feed(core, &buf[..count]),
        Heard::Quiet => Ok(()),
        Heard::Ended => Err(ClientEnd::LinkEnded),
        Heard::Failed => Err(ClientEnd::LinkFault),
    }
}

/// Writes the next wanted entry, or else feeds what the server sends next.
fn write_or_listen<L: Link, K: Sink>(
    alloc: Global,
    core: &mut ClientCore,
    link: &mut L,
    out: &mut K,
    left: &mut u64,
) -> Result<(), ClientEnd>
    requires { ¬ IsFinished (run_at core.old left.old (L.heard link.old) (L.sent link.old) (K.written out.old)) }
    ensures turns { Turns (run_at core.old left.old (L.heard link.old) (L.sent link.old) (K.written out.old)) result (run_at core.new left.new (L.heard link.new) (L.sent link.new) (K.written out.new)) }
    ensures ended { result ≡ Err ClientEnd.LinkEnded → L.has_ended link.new ≡ true }
    ensures link { HasCause (L.faults link.old) (L.faults link.new) (result ≡ Err ClientEnd.LinkFault) }
    ensures out { HasCause (K.faults out.old) (K.faults out.new) (result ≡ Err ClientEnd.WriteFault) }
{
    if *left == 0 {
        return listen(core, link);
    }
    match core.next_received() {
        Err(_) => Err(ClientEnd::Memory),
        Ok(Some(entry)) => write(alloc, out, left, &entry),
        Ok(None) => listen(core, link),
    }
}

/// Whether nothing is left to do, and so many entries are wanted.
fn is_finished(core: &ClientCore, left: u64) -> bool
    ensures { IsTrue result ↔ (IsDone core.now.client × (left ≡ 0)) }
{
    left == 0 && core.is_done()
}

/// One step of a run: the frame that is due is sent; or else the next wanted entry is written; or else what the server
/// sends next is fed.
fn turn<L: Link, K: Sink>(
    alloc: Global,
    core: &mut ClientCore,
    link: &mut L,
    out: &mut K,
    left: &mut u64,
) -> Result<(), ClientEnd>
    ensures turns { Turns (run_at core.old left.old (L.heard link.old) (L.sent link.old) (K.written out.old)) result (run_at core.new left.new (L.heard link.new) (L.sent link.new) (K.written out.new)) }
    ensures ended { result ≡ Err ClientEnd.LinkEnded → L.has_ended link.new ≡ true }
    ensures link { HasCause (L.faults link.old) (L.faults link.new) (result ≡ Err ClientEnd.LinkFault) }
    ensures out { HasCause (K.faults out.old) (K.faults out.new) (result ≡ Err ClientEnd.WriteFault) }
{
    if is_finished(core, *left) {
        return Err(ClientEnd::Finished);
    }
    match core.next_frame() {
        Err(_) => Err(ClientEnd::Memory),
        Ok(Some(bytes)) => send(link, bytes.as_slice()),
        Ok(None) => write_or_listen(alloc, core, link, out, left),
    }
}

/// Runs a client over a connection that has begun, until it has finished or can't go on. It writes the lines of at most
/// so many received entries, in order. It waits for the server.
pub fn run_client<W: Wait, L: Link, K: Sink>(
    rt: &W,
    alloc: Global,
    link: &mut L,
    core: &mut ClientCore,
    out: &mut K,
    wanted: u64,
) -> ClientEnd
    // What was sent, heard and written is a run of the client's steps, up to this end. `Finished` comes exactly where all
    // was answered and confirmed and the wanted entries were written.
    ensures runs { (left : ℕ) × RunsTo result (run_at core.old wanted (L.heard link.old) (L.sent link.old) (K.written out.old)) (run_at core.new left (L.heard link.new) (L.sent link.new) (K.written out.new)) }
    ensures ended { result ≡ ClientEnd.LinkEnded → L.has_ended link.new ≡ true }
    ensures link { HasCause (L.faults link.old) (L.faults link.new) (result ≡ ClientEnd.LinkFault) }
    ensures out { HasCause (K.faults out.old) (K.faults out.new) (result ≡ ClientEnd.WriteFault) }
{
    let mut left = wanted;
    for _ in rt.forever() {
        match turn(alloc, core, link, out, &mut left) {
            Ok(()) => {}
            Err(end) => return end,
        }
    }
    unreachable!()
}
