//! What the program does, over any input and output.

ghost use Rattle.std.specs.Prelude.{◌≡◌};
ghost use Rattle.program_words.specs.Told.{Wrote};
ghost use Rattle.streamc.specs.Run.{usage, AskNothing, DoesBy};

use client_program::{client, client_words};
use frame_wire::Octets;
use outside_io::{Sink, Source, TcpLink};
use program_words::tell_usage;
use std::alloc::Global;
use std::net::{Net, TcpStream};
use std::sync::Wait;

/// No connection could be made.
const FAULT: u8 = 4;

/// The line that tells which words there are, with its line feed.
pub fn usage_line() -> &'static [u8]
    ensures { result.now ≡ usage }
{
    b"usage: streamc create | publish | resume | consume | query\n"
}

/// A connection to an address, `HOST:PORT`.
fn connect<R: Net<Stream = TcpStream>>(rt: &R, address: &[u8]) -> Option<TcpLink> {
    let Ok(address) = str::from_utf8(address) else {
        return None;
    };
    let Ok(stream) = TcpStream::connect(rt, address) else {
        return None;
    };
    TcpLink::new(stream).ok()
}

/// Does what the words after the program's name ask for, and answers the program's status: 2 where the usage was written,
/// 4 where no connection could be made, else that of `client`. It waits for the server.
pub fn run<R: Net<Stream = TcpStream> + Wait, S: Source, K: Sink>(
    rt: &R,
    alloc: Global,
    words: &[Octets],
    input: &mut S,
    out: &mut K,
) -> u8
    ensures does { DoesBy words.now result (S.left input.old) (S.left input.new) (K.written out.old) (K.written out.new) }
    ensures status { AskNothing words.now → result ≡ 2 }
    ensures line { AskNothing words.now → Wrote usage (K.written out.old) (K.written out.new) (K.faults out.old) (K.faults out.new) }
    ensures input { AskNothing words.now → input.new ≡ input.old }
{
    let Some(words) = client_words(words) else {
        return tell_usage(out, usage_line());
    };
    let Some(mut link) = connect(rt, words.address) else {
        return FAULT;
    };
    client(rt, alloc, &words, input, &mut link, out)
}
