//! The lines of a script.

ghost use Rattle.std.specs.Prelude.{◌≡◌, ◌≢◌, ◌≤◌, ◌<◌, ◌^◌, ◌∷◌, ◌++◌, [], List, ℕ, length, IfOk, Err, MatchOption};
ghost use Rattle.script_text.specs.Words.{space, line_feed};
ghost use Rattle.script_text.specs.Script.{ReadsWords, Spells};

use crate::word::{
    four_numbers, is_name, number_and_hex, number_and_words, read_number, three_numbers,
    two_numbers,
};
use frame_wire::Octets;
use std::alloc::{AllocError, Global};

/// The most bytes of a line before its line feed.
pub const LONGEST_LINE: usize = 4_194_304;

/// How many images of a disk there are to choose from.
const IMAGES: u64 = 4;

/// One line of a script. Numbers are below 2^64; a member is a number from 1, and 0 stands for the coordinator.
#[derive(Debug, Drop)]
pub enum ScriptLine {
    /// `n NAME` makes the stream NAME.
    Create {
        name: Octets,
    },
    /// `a C` makes connection C, fresh.
    Connect {
        connection: u64,
    },
    /// `b C NAME` makes connection C, prepared on the stream NAME.
    Prepare {
        connection: u64,
        name: Octets,
    },
    /// `c C HEX` gives bytes to connection C, at least one.
    Give {
        connection: u64,
        bytes: Octets,
    },
    /// `p C` polls connection C.
    Poll {
        connection: u64,
    },
    /// `q C` ends connection C.
    Leave {
        connection: u64,
    },
    /// `t N` sets the moment, in milliseconds.
    Tick {
        moment: u64,
    },
    /// `e S` elects in stream S.
    Elect {
        stream: u64,
    },
    /// `d S K` delivers message K of stream S.
    Deliver {
        stream: u64,
        message: u64,
    },
    /// `u S K` loses message K of stream S.
    Lose {
        stream: u64,
        message: u64,
    },
    /// `w S M` performs the pending job of member M.
    Perform {
        stream: u64,
        member: u64,
    },
    /// `x S M C I` stops member M in its pending job, after C device calls, and leaves image I, 0 to 3, of its disk.
    Stop {
        stream: u64,
        member: u64,
        calls: u64,
        image: u64,
    },
    /// `r S M` restarts member M.
    Restart {
        stream: u64,
        member: u64,
    },
    /// `f S M N` lets the Nth next device call of member M's files fail, N at least 1.
    Fail {
        stream: u64,
        member: u64,
        call: u64,
    },
    /// `s S` settles stream S.
    Settle {
        stream: u64,
    },
    /// `i S` inspects stream S.
    Inspect {
        stream: u64,
    },
    /// `z C I` stops all, as `x` with C and I does, and opens all again.
    StopAll {
        calls: u64,
        image: u64,
    },
}

/// Why a line was not read.
#[derive(Clone, Copy, Debug, PartialEq, Eq)]
pub enum LineFault {
    /// It is no line of the language, or none that can come now.
    Bad,
    Memory,
}

/// The text of a line without its line feed.
fn line_text(line: &[u8]) -> Option<&[u8]>
    ensures { MatchOption result ((text : List ℕ) → length text ≤ 4194304 → line.now ≡ text ++ line_feed ∷ [] → ⊥) (λ text. (line.now ≡ text.now ++ line_feed ∷ []) × (length text.now ≤ 4194304)) }
{
    match line.split_last() {
        None => None,
        Some((last, text)) => {
            if *last == b'\n' && text.len() <= LONGEST_LINE {
                Some(text)
            } else {
                None
            }
        }
    }
}

/// The letter of a line, and the words behind it.
fn split_letter(text: &[u8]) -> Option<(u8, &[u8])>
    ensures { MatchOption result ((letter : ℕ) (words : List ℕ) → text.now ≡ letter ∷ space ∷ words → ⊥) (λ parts. text.now ≡ parts.0 ∷ space ∷ parts.1.now) }
{
    match text {
        [letter, b' ', words @ ..] => Some((*letter, words)),
        _ => None,
    }
}

/// The line `n NAME` of these words behind the letter.
fn read_create(alloc: Global, words: &[u8]) -> Result<Option<ScriptLine>, AllocError>
    ensures { IfOk result (ReadsWords (110 ∷ space ∷ words.now)) }
{
    if !is_name(words) {
        return Ok(None);
    }
    let name = Octets::copy(alloc, words)?;
    Ok(Some(ScriptLine::Create { name }))
}

/// The line `b C NAME` of these words behind the letter.
fn read_prepare(alloc: Global, words: &[u8]) -> Result<Option<ScriptLine>, AllocError>
    ensures { IfOk result (ReadsWords (98 ∷ space ∷ words.now)) }
{
    match number_and_words(words) {
        None => Ok(None),
        Some((connection, word)) => {
            if !is_name(word) {
                return Ok(None);
            }
            let name = Octets::copy(alloc, word)?;
            Ok(Some(ScriptLine::Prepare { connection, name }))
        }
    }
}

/// The line `c C HEX` of these words behind the letter.
fn read_give(alloc: Global, words: &[u8]) -> Result<Option<ScriptLine>, AllocError>
    ensures { IfOk result (ReadsWords (99 ∷ space ∷ words.now)) }
{
    match number_and_hex(alloc, words)? {
        None => Ok(None),
        Some((connection, bytes)) => Ok(Some(ScriptLine::Give { connection, bytes })),
    }
}

/// The line `a C` of this word behind the letter.
fn read_connect(word: &[u8]) -> Option<ScriptLine>
    ensures { ReadsWords (97 ∷ space ∷ word.now) result }
{
    match read_number(word) {
        None => None,
        Some(connection) => Some(ScriptLine::Connect { connection }),
    }
}

/// The line `p C` of this word behind the letter.
fn read_poll(word: &[u8]) -> Option<ScriptLine>
    ensures { ReadsWords (112 ∷ space ∷ word.now) result }
{
    match read_number(word) {
        None => None,
        Some(connection) => Some(ScriptLine::Poll { connection }),
    }
}

/// The line `q C` of this word behind the letter.
fn read_leave(word: &[u8]) -> Option<ScriptLine>
    ensures { ReadsWords (113 ∷ space ∷ word.now) result }
{
    match read_number(word) {
        None => None,
        Some(connection) => Some(ScriptLine::Leave { connection }),
    }
}

/// The line `t N` of this word behind the letter.
fn read_tick(word: &[u8]) -> Option<ScriptLine>
    ensures { ReadsWords (116 ∷ space ∷ word.now) result }
{
    match read_number(word) {
        None => None,
        Some(moment) => Some(ScriptLine::Tick { moment }),
    }
}

/// The line `e S` of this word behind the letter.
fn read_elect(word: &[u8]) -> Option<ScriptLine>
    ensures { ReadsWords (101 ∷ space ∷ word.now) result }
{
    match read_number(word) {
        None => None,
        Some(stream) => Some(ScriptLine::Elect { stream }),
    }
}

/// The line `s S` of this word behind the letter.
fn read_settle(word: &[u8]) -> Option<ScriptLine>
    ensures { ReadsWords (115 ∷ space ∷ word.now) result }
{
    match read_number(word) {
        None => None,
        Some(stream) => Some(ScriptLine::Settle { stream }),
    }
}

/// The line `i S` of this word behind the letter.
fn read_inspect(word: &[u8]) -> Option<ScriptLine>
    ensures { ReadsWords (105 ∷ space ∷ word.now) result }
{
    match read_number(word) {
        None => None,
        Some(stream) => Some(ScriptLine::Inspect { stream }),
    }
}

/// The line `d S K` of these words behind the letter.
fn read_deliver(words: &[u8]) -> Option<ScriptLine>
    ensures { ReadsWords (100 ∷ space ∷ words.now) result }
{
    match two_numbers(words) {
        None => None,
        Some((stream, message)) => Some(ScriptLine::Deliver { stream, message }),
    }
}

/// The line `u S K` of these words behind the letter.
fn read_lose(words: &[u8]) -> Option<ScriptLine>
    ensures { ReadsWords (117 ∷ space ∷ words.now) result }
{
    match two_numbers(words) {
        None => None,
        Some((stream, message)) => Some(ScriptLine::Lose { stream, message }),
    }
}

/// The line `w S M` of these words behind the letter.
fn read_perform(words: &[u8]) -> Option<ScriptLine>
    ensures { ReadsWords (119 ∷ space ∷ words.now) result }
{
    match two_numbers(words) {
        None => None,
        Some((stream, member)) => Some(ScriptLine::Perform { stream, member }),
    }
}

/// The line `r S M` of these words behind the letter.
fn read_restart(words: &[u8]) -> Option<ScriptLine>
    ensures { ReadsWords (114 ∷ space ∷ words.now) result }
{
    match two_numbers(words) {
        None => None,
        Some((stream, member)) => Some(ScriptLine::Restart { stream, member }),
    }
}

/// The line `f S M N` of these words behind the letter.
fn read_fail(words: &[u8]) -> Option<ScriptLine>
    ensures { ReadsWords (102 ∷ space ∷ words.now) result }
{
    match three_numbers(words) {
        None => None,
        Some((stream, member, call)) => {
            if call == 0 {
                None
            } else {
                Some(ScriptLine::Fail {
                    stream,
                    member,
                    call,
                })
            }
        }
    }
}

/// The line `x S M C I` of these words behind the letter.
fn read_stop(words: &[u8]) -> Option<ScriptLine>
    ensures { ReadsWords (120 ∷ space ∷ words.now) result }
{
    match four_numbers(words) {
        None => None,
        Some((stream, member, calls, image)) => {
            if image < IMAGES {
                Some(ScriptLine::Stop {
                    stream,
                    member,
                    calls,
                    image,
                })
            } else {
                None
            }
        }
    }
}

/// The line `z C I` of these words behind the letter.
fn read_stop_all(words: &[u8]) -> Option<ScriptLine>
    ensures { ReadsWords (122 ∷ space ∷ words.now) result }
{
    match two_numbers(words) {
        None => None,
        Some((calls, image)) => {
            if image < IMAGES {
                Some(ScriptLine::StopAll { calls, image })
            } else {
                None
            }
        }
    }
}

/// The line of this letter and these words, where they are numbers.
fn read_numbers(letter: u8, words: &[u8]) -> Option<ScriptLine>
    requires { (letter ≢ 110) × (letter ≢ 98) × (letter ≢ 99) }
    ensures { ReadsWords (letter ∷ space ∷ words.now) result }
{
    match letter {
        b'a' => read_connect(words),
        b'p' => read_poll(words),
        b'q' => read_leave(words),
        b't' => read_tick(words),
        b'e' => read_elect(words),
        b'd' => read_deliver(words),
        b'u' => read_lose(words),
        b'w' => read_perform(words),
        b'x' => read_stop(words),
        b'r' => read_restart(words),
        b'f' => read_fail(words),
        b's' => read_settle(words),
        b'i' => read_inspect(words),
        b'z' => read_stop_all(words),
        _ => None,
    }
}

/// The line of this letter and these words.
fn read_words(alloc: Global, letter: u8, words: &[u8]) -> Result<Option<ScriptLine>, AllocError>
    ensures { IfOk result (ReadsWords (letter ∷ space ∷ words.now)) }
{
    match letter {
        b'n' => read_create(alloc, words),
        b'b' => read_prepare(alloc, words),
        b'c' => read_give(alloc, words),
        _ => Ok(read_numbers(letter, words)),
    }
}

/// Which line of a script these bytes are, the line feed among them. They are Bad exactly where they are none.
pub fn read_line(alloc: Global, line: &[u8]) -> Result<ScriptLine, LineFault>
    ensures ok { IfOk result (Spells line.now) }
    ensures bad { result ≡ Err LineFault.Bad → (other : ScriptLine) → Spells line.now other → ⊥ }
{
    let Some(text) = line_text(line) else {
        return Err(LineFault::Bad);
    };
    let Some((letter, words)) = split_letter(text) else {
        return Err(LineFault::Bad);
    };
    match read_words(alloc, letter, words) {
        Err(_) => Err(LineFault::Memory),
        Ok(None) => Err(LineFault::Bad),
        Ok(Some(line)) => Ok(line),
    }
}

/// Bytes are one line of a script at most. It does nothing.
pub fn lines_have_one_reading()
    ensures { (bytes : List ℕ) (one other : ScriptLine) → Spells bytes one → Spells bytes other → one ≡ other }
{}
