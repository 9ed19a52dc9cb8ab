//! The lines that a node gives.

ghost use Rattle.std.specs.Prelude.{◌≡◌, ◌∷◌, ◌++◌, [], List, ℕ, codes, IfOk};
ghost use Rattle.std.specs.Fmt.{decimal};
ghost use Rattle.hex.specs.Hex.{encode_lower};
ghost use Rattle.script_text.specs.Words.{space, line_feed, code_word};
ghost use Rattle.script_text.specs.Outputs.{kind_word, output_bytes, Writes};

use frame_wire::Octets;
use std::alloc::{AllocError, Global};

/// How a connection ended.
#[derive(Clone, Copy, Debug, PartialEq, Eq)]
pub enum Ending {
    /// `ended`: the peer's bytes ended.
    PeerEnded,
    /// `closed`: the peer sent Close.
    ClosedByPeer,
    /// `us CODE`: this side closed it, with a response code.
    ClosedByUs { code: u16 },
    /// `silent`: no byte came for too long.
    Silent,
}

/// The kind of a message between members.
#[derive(Clone, Copy, Debug, PartialEq, Eq)]
pub enum MessageKind {
    Stop,
    Stopped,
    Open,
    Follow,
    Shape,
    Ask,
    Append,
}

/// One line that a node gives. Numbers are below 2^64; a member is a number from 1, and 0 stands for the coordinator.
#[derive(Debug, Drop)]
pub enum OutputLine {
    /// `> C HEX`: a frame was sent on connection C.
    Sent {
        connection: u64,
        frame: Octets,
    },
    /// `bye C HOW`: connection C ended.
    Bye {
        connection: u64,
        how: Ending,
    },
    /// `k S HEX`: a chunk was committed to stream S.
    Committed {
        stream: u64,
        chunk: Octets,
    },
    /// `m S K M KIND EPOCH`: message K of stream S was sent to M.
    Message {
        stream: u64,
        number: u64,
        receiver: u64,
        kind: MessageKind,
        epoch: u64,
    },
    /// `later S M`: M has a job pending.
    Later {
        stream: u64,
        member: u64,
    },
    /// `down S M`: M stopped.
    Down {
        stream: u64,
        member: u64,
    },
    /// `up S M COUNT END`: member M, at least 1, is up with so many chunks and this end of its log.
    Up {
        stream: u64,
        member: u64,
        count: u64,
        end: u64,
    },
    /// `up S 0 EPOCH`: the coordinator is up with this epoch.
    CoordinatorUp {
        stream: u64,
        epoch: u64,
    },
    /// `l S M COUNT END`: member M's log has so many chunks and this end.
    Log {
        stream: u64,
        member: u64,
        count: u64,
        end: u64,
    },
    /// `l S M -`: member M is down.
    LogDown {
        stream: u64,
        member: u64,
    },
    /// `no CODE`: the stream of an `n` line was not made, for this response code.
    Refused {
        code: u16,
    },
    /// `end`: the script was read to its end.
    End,
    /// `bad N`: line N, counted from 1, can't be taken.
    Bad {
        number: u64,
    },
}

impl MessageKind {
    /// The word of a kind.
    pub(crate) fn word(self) -> &'static str
        ensures { result.now ≡ kind_word self }
    {
        match self {
            MessageKind::Stop => "stop",
            MessageKind::Stopped => "stopped",
            MessageKind::Open => "open",
            MessageKind::Follow => "follow",
            MessageKind::Shape => "shape",
            MessageKind::Ask => "ask",
            MessageKind::Append => "append",
        }
    }
}

/// A word, a number, and bytes as hexadecimal text.
fn write_hex(alloc: Global, word: &str, number: u64, bytes: &[u8]) -> Result<Octets, AllocError>
    ensures { IfOk result (λ line. line ≡ word.now ++ (space ∷ (decimal number ++ (space ∷ (encode_lower bytes.now ++ line_feed ∷ []))))) }
{
    let text = hex::encode(alloc, bytes)?;
    let line = format!(in alloc; "{word} {number} {text}\n")?;
    Octets::copy(alloc, line.as_bytes())
}

/// A word, a number and a word.
fn write_word(alloc: Global, word: &str, number: u64, last: &str) -> Result<Octets, AllocError>
    ensures { IfOk result (λ line. line ≡ word.now ++ (space ∷ (decimal number ++ (space ∷ (last.now ++ line_feed ∷ []))))) }
{
    let line = format!(in alloc; "{word} {number} {last}\n")?;
    Octets::copy(alloc, line.as_bytes())
}

/// A word and a response code.
#[tactic(auto, unfolding(frame_wire::specs::Fields::u16_bytes))]
fn write_code(alloc: Global, word: &str, code: u16) -> Result<Octets, AllocError>
    ensures { IfOk result (λ line. line ≡ word.now ++ (space ∷ (code_word code ++ line_feed ∷ []))) }
{
    let text = hex::encode(alloc, &code.to_be_bytes())?;
    let line = format!(in alloc; "{word} {text}\n")?;
    Octets::copy(alloc, line.as_bytes())
}

/// A word and two numbers.
fn write_two(alloc: Global, word: &str, a: u64, b: u64) -> Result<Octets, AllocError>
    ensures { IfOk result (λ line. line ≡ word.now ++ (space ∷ (decimal a ++ (space ∷ (decimal b ++ line_feed ∷ []))))) }
{
    let line = format!(in alloc; "{word} {a} {b}\n")?;
    Octets::copy(alloc, line.as_bytes())
}

/// A word and three numbers.
fn write_three(alloc: Global, word: &str, a: u64, b: u64, c: u64) -> Result<Octets, AllocError>
    ensures { IfOk result (λ line. line ≡ word.now ++ (space ∷ (decimal a ++ (space ∷ (decimal b ++ (space ∷ (decimal c ++ line_feed ∷ []))))))) }
{
    let line = format!(in alloc; "{word} {a} {b} {c}\n")?;
    Octets::copy(alloc, line.as_bytes())
}

/// A word and four numbers.
fn write_four(
    alloc: Global,
    word: &str,
    a: u64,
    b: u64,
    c: u64,
    d: u64,
) -> Result<Octets, AllocError>
    ensures { IfOk result (λ line. line ≡ word.now ++ (space ∷ (decimal a ++ (space ∷ (decimal b ++ (space ∷ (decimal c ++ (space ∷ (decimal d ++ line_feed ∷ []))))))))) }
{
    let line = format!(in alloc; "{word} {a} {b} {c} {d}\n")?;
    Octets::copy(alloc, line.as_bytes())
}

/// The end of a connection that this side closed.
#[tactic(auto, unfolding(frame_wire::specs::Fields::u16_bytes))]
fn write_us(alloc: Global, connection: u64, code: u16) -> Result<Octets, AllocError>
    ensures { IfOk result (λ line. line ≡ codes "bye" ++ (space ∷ (decimal connection ++ (space ∷ (codes "us" ++ (space ∷ (code_word code ++ line_feed ∷ []))))))) }
{
    let text = hex::encode(alloc, &code.to_be_bytes())?;
    let line = format!(in alloc; "bye {connection} us {text}\n")?;
    Octets::copy(alloc, line.as_bytes())
}

/// The line of a connection's end.
fn write_bye(alloc: Global, connection: u64, how: Ending) -> Result<Octets, AllocError>
    ensures { IfOk result (λ bytes. bytes ≡ output_bytes (OutputLine.Bye connection how)) }
{
    match how {
        Ending::PeerEnded => write_word(alloc, "bye", connection, "ended"),
        Ending::ClosedByPeer => write_word(alloc, "bye", connection, "closed"),
        Ending::ClosedByUs { code } => write_us(alloc, connection, code),
        Ending::Silent => write_word(alloc, "bye", connection, "silent"),
    }
}

/// A word, three numbers, a word and a number.
fn write_message(
    alloc: Global,
    word: &str,
    numbers: (u64, u64, u64),
    kind: &str,
    epoch: u64,
) -> Result<Octets, AllocError>
    ensures { IfOk result (λ line. line ≡ word.now ++ (space ∷ (decimal numbers.0 ++ (space ∷ (decimal numbers.1 ++ (space ∷ (decimal numbers.2 ++ (space ∷ (kind.now ++ (space ∷ (decimal epoch ++ line_feed ∷ []))))))))))) }
{
    let (stream, number, receiver) = numbers;
    let line = format!(in alloc; "{word} {stream} {number} {receiver} {kind} {epoch}\n")?;
    Octets::copy(alloc, line.as_bytes())
}

/// A word, two numbers and a word.
fn write_two_word(
    alloc: Global,
    word: &str,
    a: u64,
    b: u64,
    last: &str,
) -> Result<Octets, AllocError>
    ensures { IfOk result (λ line. line ≡ word.now ++ (space ∷ (decimal a ++ (space ∷ (decimal b ++ (space ∷ (last.now ++ line_feed ∷ []))))))) }
{
    let line = format!(in alloc; "{word} {a} {b} {last}\n")?;
    Octets::copy(alloc, line.as_bytes())
}

/// The last line of a script that was read to its end.
fn write_end(alloc: Global) -> Result<Octets, AllocError>
    ensures { IfOk result (λ bytes. bytes ≡ output_bytes OutputLine.End) }
{
    Octets::copy(alloc, b"end\n")
}

/// The last line of a script with a bad line.
fn write_bad(alloc: Global, number: u64) -> Result<Octets, AllocError>
    ensures { IfOk result (λ bytes. bytes ≡ output_bytes (OutputLine.Bad number)) }
{
    let line = format!(in alloc; "bad {number}\n")?;
    Octets::copy(alloc, line.as_bytes())
}

/// The bytes of a line, the line feed among them.
pub fn write_output(alloc: Global, line: &OutputLine) -> Result<Octets, AllocError>
    ensures { IfOk result (λ bytes. bytes ≡ output_bytes line.now) }
{
    match line {
        OutputLine::Sent { connection, frame } => write_hex(
            alloc,
            ">",
            *connection,
            frame.as_slice(),
        ),
        OutputLine::Bye { connection, how } => write_bye(alloc, *connection, *how),
        OutputLine::Committed { stream, chunk } => write_hex(alloc, "k", *stream, chunk.as_slice()),
        OutputLine::Message {
            stream,
            number,
            receiver,
            kind,
            epoch,
        } => {
            write_message(
                alloc,
                "m",
                (*stream, *number, *receiver),
                kind.word(),
                *epoch,
            )
        }
        OutputLine::Later { stream, member } => write_two(alloc, "later", *stream, *member),
        OutputLine::Down { stream, member } => write_two(alloc, "down", *stream, *member),
        OutputLine::Up {
            stream,
            member,
            count,
            end,
        } => { write_four(alloc, "up", *stream, *member, *count, *end) }
        OutputLine::CoordinatorUp { stream, epoch } => write_three(alloc, "up", *stream, 0, *epoch),
        OutputLine::Log {
            stream,
            member,
            count,
            end,
        } => { write_four(alloc, "l", *stream, *member, *count, *end) }
        OutputLine::LogDown { stream, member } => write_two_word(alloc, "l", *stream, *member, "-"),
        OutputLine::Refused { code } => write_code(alloc, "no", *code),
        OutputLine::End => write_end(alloc),
        OutputLine::Bad { number } => write_bad(alloc, *number),
    }
}

/// Bytes are one line that a node gives at most. It does nothing.
pub fn outputs_have_one_reading()
    ensures { (bytes : List ℕ) (one other : OutputLine) → Writes bytes one → Writes bytes other → one ≡ other }
{}
