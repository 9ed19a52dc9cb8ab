//! Lines that a node gives, read.

use script_text::{Ending, LineFault, MessageKind, OutputLine, read_output, write_output};
use std::alloc::{AllocError, Global};
use std::test::Fail;

/// Lines of each kind, and the kind.
const LINES: [(&str, &str); 24] = [
    ("> 1 00ff\n", "sent"),
    ("> 18446744073709551615 00\n", "sent"),
    ("bye 1 ended\n", "ended"),
    ("bye 1 closed\n", "closed"),
    ("bye 1 us 000e\n", "us"),
    ("bye 1 silent\n", "silent"),
    ("k 1 00ff\n", "committed"),
    ("m 1 1 2 stop 3\n", "stop"),
    ("m 1 4 0 stopped 2\n", "stopped"),
    ("m 1 5 1 open 2\n", "open"),
    ("m 1 6 2 follow 2\n", "follow"),
    ("m 1 7 3 shape 2\n", "shape"),
    ("m 1 8 1 ask 2\n", "ask"),
    ("m 1 9 2 append 2\n", "append"),
    ("later 1 2\n", "later"),
    ("down 1 0\n", "down"),
    ("up 1 2 3 4\n", "up"),
    ("up 1 0 7\n", "coordinator up"),
    ("l 1 2 3 4\n", "log"),
    ("l 1 3 -\n", "log down"),
    ("no 0005\n", "refused"),
    ("no ffff\n", "refused"),
    ("end\n", "end"),
    ("bad 2\n", "bad"),
];

/// What is no line, and why.
const NO_LINES: [(&str, &str); 36] = [
    ("nothing", ""),
    ("no word", "\n"),
    ("no line feed", "end"),
    ("two line feeds", "end\n\n"),
    ("a carriage return", "end\r\n"),
    ("a space before", " end\n"),
    ("a space behind", "end \n"),
    ("a word behind", "end 1\n"),
    ("a word of a script", "p 1\n"),
    ("an upper-case letter", "K 1 00\n"),
    ("two spaces", "later 1  2\n"),
    ("a number too few", "later 1\n"),
    ("a number too many", "down 1 2 3\n"),
    ("a leading zero", "k 01 00\n"),
    ("a sign", "k +1 00\n"),
    ("a number of 2^64", "bad 18446744073709551616\n"),
    ("no number", "bad\n"),
    ("an upper-case digit", "> 1 FF\n"),
    ("half a byte", "> 1 0\n"),
    ("no bytes", "> 1 \n"),
    ("bytes alone", "> 00\n"),
    ("another ending", "bye 1 gone\n"),
    ("an ending without its code", "bye 1 us\n"),
    ("a code behind another ending", "bye 1 ended 000e\n"),
    ("a code of three digits", "no 00e\n"),
    ("a code of five digits", "no 0000e\n"),
    ("a code in upper case", "no 000E\n"),
    ("a number for a code", "no 14\n"),
    ("another message", "m 1 4 0 vote 2\n"),
    ("a message without its epoch", "m 1 4 0 stop\n"),
    ("a message without its kind", "m 1 4 0 2\n"),
    ("a count of the coordinator", "up 1 0 3 4\n"),
    ("an epoch of a member", "up 1 2 7\n"),
    ("the coordinator's log", "l 1 0 3 4\n"),
    ("the coordinator's log, down", "l 1 0 -\n"),
    ("a log of one number", "l 1 2 3\n"),
];

fn name_of_end(how: Ending) -> &'static str {
    match how {
        Ending::PeerEnded => "ended",
        Ending::ClosedByPeer => "closed",
        Ending::ClosedByUs { .. } => "us",
        Ending::Silent => "silent",
    }
}

fn name_of_kind(kind: MessageKind) -> &'static str {
    match kind {
        MessageKind::Stop => "stop",
        MessageKind::Stopped => "stopped",
        MessageKind::Open => "open",
        MessageKind::Follow => "follow",
        MessageKind::Shape => "shape",
        MessageKind::Ask => "ask",
        MessageKind::Append => "append",
    }
}

fn name_of(line: &OutputLine) -> &'static str {
    match line {
        OutputLine::Sent { .. } => "sent",
        OutputLine::Bye { how, .. } => name_of_end(*how),
        OutputLine::Committed { .. } => "committed",
        OutputLine::Message { kind, .. } => name_of_kind(*kind),
        OutputLine::Later { .. } => "later",
        OutputLine::Down { .. } => "down",
        OutputLine::Up { .. } => "up",
        OutputLine::CoordinatorUp { .. } => "coordinator up",
        OutputLine::Log { .. } => "log",
        OutputLine::LogDown { .. } => "log down",
        OutputLine::Refused { .. } => "refused",
        OutputLine::End => "end",
        OutputLine::Bad { .. } => "bad",
    }
}

/// Whether the text is read as a line of this kind, which is written as the same text.
fn is_read(alloc: Global, text: &str, kind: &str) -> Result<bool, AllocError> {
    match read_output(alloc, text.as_bytes()) {
        Err(_) => Ok(false),
        Ok(line) => {
            let bytes = write_output(alloc, &line)?;
            Ok(name_of(&line) == kind && bytes.as_slice() == text.as_bytes())
        }
    }
}

/// Whether the text is told to be no line.
fn is_bad(alloc: Global, text: &str) -> bool {
    match read_output(alloc, text.as_bytes()) {
        Ok(_) => false,
        Err(fault) => fault == LineFault::Bad,
    }
}

#[test]
fn lines_of_each_kind_are_read_and_written_back(rt: HostRuntime) -> Result<(), Fail> {
    for (text, kind) in LINES {
        assert!(rt; is_read(rt.alloc(), text, kind)?, "{kind}: {text}");
    }
    Ok(())
}

#[test]
fn other_texts_are_bad(rt: HostRuntime) -> Result<(), Fail> {
    for (why, text) in NO_LINES {
        assert!(rt; is_bad(rt.alloc(), text), "{why}: {text}");
    }
    Ok(())
}
