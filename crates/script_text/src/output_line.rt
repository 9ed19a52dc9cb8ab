//! Which line that a node gives some bytes are.

ghost use Rattle.std.specs.Prelude.{◌≡◌, ◌∷◌, ◌++◌, [], List, ℕ, codes, IfOk, Err, MatchOption};
ghost use Rattle.script_text.specs.Words.{space, line_feed, Lacks};
ghost use Rattle.script_text.specs.Outputs.{Writes};
ghost use Rattle.script_text.specs.OutputReading.{first_word, ReadsOutput};

use crate::output::OutputLine;
use crate::output_word::{
    FirstWord, kind_and_number, read_code, read_ending, read_first, two_and_words,
};
use crate::script::LineFault;
use crate::word::{
    is_same, number_and_hex, number_and_words, read_number, split_word, two_numbers,
};
use std::alloc::{AllocError, Global};

/// The number that stands for the coordinator, and for no member.
const COORDINATOR: u64 = 0;

/// The line `> C HEX` of these words behind the first.
fn read_sent(alloc: Global, words: &[u8]) -> Result<Option<OutputLine>, AllocError>
    ensures { IfOk result (ReadsOutput (codes "> " ++ words.now)) }
{
    match number_and_hex(alloc, words)? {
        None => Ok(None),
        Some((connection, frame)) => Ok(Some(OutputLine::Sent { connection, frame })),
    }
}

/// The line `k S HEX` of these words behind the first.
fn read_committed(alloc: Global, words: &[u8]) -> Result<Option<OutputLine>, AllocError>
    ensures { IfOk result (ReadsOutput (codes "k " ++ words.now)) }
{
    match number_and_hex(alloc, words)? {
        None => Ok(None),
        Some((stream, chunk)) => Ok(Some(OutputLine::Committed { stream, chunk })),
    }
}

/// The line `bye C HOW` of these words behind the first.
fn read_bye(alloc: Global, words: &[u8]) -> Result<Option<OutputLine>, AllocError>
    ensures { IfOk result (ReadsOutput (codes "bye " ++ words.now)) }
{
    match number_and_words(words) {
        None => Ok(None),
        Some((connection, behind)) => {
            let found = read_ending(alloc, behind)?;
            match found {
                None => Ok(None),
                Some(how) => Ok(Some(OutputLine::Bye { connection, how })),
            }
        }
    }
}

/// The line `no CODE` of this word behind the first.
fn read_refused(alloc: Global, word: &[u8]) -> Result<Option<OutputLine>, AllocError>
    ensures { IfOk result (ReadsOutput (codes "no " ++ word.now)) }
{
    match read_code(alloc, word)? {
        None => Ok(None),
        Some(code) => Ok(Some(OutputLine::Refused { code })),
    }
}

/// The line `m S K M KIND EPOCH` of these words behind the first.
fn read_message(words: &[u8]) -> Option<OutputLine>
    ensures { ReadsOutput (codes "m " ++ words.now) result }
{
    match two_and_words(words) {
        None => None,
        Some((stream, number, behind)) => match number_and_words(behind) {
            None => None,
            Some((receiver, rest)) => match kind_and_number(rest) {
                None => None,
                Some((kind, epoch)) => {
                    Some(OutputLine::Message {
                        stream,
                        number,
                        receiver,
                        kind,
                        epoch,
                    })
                }
            },
        },
    }
}

/// The line `later S M` of these words behind the first.
fn read_later(words: &[u8]) -> Option<OutputLine>
    ensures { ReadsOutput (codes "later " ++ words.now) result }
{
    match two_numbers(words) {
        None => None,
        Some((stream, member)) => Some(OutputLine::Later { stream, member }),
    }
}

/// The line `down S M` of these words behind the first.
fn read_down(words: &[u8]) -> Option<OutputLine>
    ensures { ReadsOutput (codes "down " ++ words.now) result }
{
    match two_numbers(words) {
        None => None,
        Some((stream, member)) => Some(OutputLine::Down { stream, member }),
    }
}

/// The line `up S M COUNT END`, or `up S 0 EPOCH`, of these words behind the first: the number 0 is the coordinator's.
fn read_up(words: &[u8]) -> Option<OutputLine>
    ensures { ReadsOutput (codes "up " ++ words.now) result }
{
    match two_and_words(words) {
        None => None,
        Some((stream, member, rest)) => {
            if member == COORDINATOR {
                match read_number(rest) {
                    None => None,
                    Some(epoch) => Some(OutputLine::CoordinatorUp { stream, epoch }),
                }
            } else {
                match two_numbers(rest) {
                    None => None,
                    Some((count, end)) => {
                        Some(OutputLine::Up {
                            stream,
                            member,
                            count,
                            end,
                        })
                    }
                }
            }
        }
    }
}

/// The line `l S M COUNT END`, or `l S M -`, of these words behind the first.
fn read_log(words: &[u8]) -> Option<OutputLine>
    ensures { ReadsOutput (codes "l " ++ words.now) result }
{
    match two_and_words(words) {
        None => None,
        Some((stream, member, rest)) => {
            if member == COORDINATOR {
                None
            } else if is_same(rest, b"-") {
                Some(OutputLine::LogDown { stream, member })
            } else {
                match two_numbers(rest) {
                    None => None,
                    Some((count, end)) => {
                        Some(OutputLine::Log {
                            stream,
                            member,
                            count,
                            end,
                        })
                    }
                }
            }
        }
    }
}

/// The line `bad N` of this word behind the first.
fn read_bad(word: &[u8]) -> Option<OutputLine>
    ensures { ReadsOutput (codes "bad " ++ word.now) result }
{
    match read_number(word) {
        None => None,
        Some(number) => Some(OutputLine::Bad { number }),
    }
}

/// The line of these words behind the first.
fn read_behind(
    alloc: Global,
    first: FirstWord,
    words: &[u8],
) -> Result<Option<OutputLine>, AllocError>
    ensures { IfOk result (ReadsOutput (first_word first ++ space ∷ words.now)) }
{
    match first {
        FirstWord::Sent => read_sent(alloc, words),
        FirstWord::Bye => read_bye(alloc, words),
        FirstWord::Committed => read_committed(alloc, words),
        FirstWord::Message => Ok(read_message(words)),
        FirstWord::Later => Ok(read_later(words)),
        FirstWord::Down => Ok(read_down(words)),
        FirstWord::Up => Ok(read_up(words)),
        FirstWord::Log => Ok(read_log(words)),
        FirstWord::Refused => read_refused(alloc, words),
        FirstWord::Bad => Ok(read_bad(words)),
    }
}

/// The line of one word, if no space stands in it.
fn read_alone(text: &[u8]) -> Option<OutputLine>
    requires { Lacks space text.now }
    ensures { ReadsOutput text.now result }
{
    if is_same(text, b"end") {
        Some(OutputLine::End)
    } else {
        None
    }
}

/// The line of these words.
fn read_output_words(alloc: Global, text: &[u8]) -> Result<Option<OutputLine>, AllocError>
    ensures { IfOk result (ReadsOutput text.now) }
{
    match split_word(text) {
        None => Ok(read_alone(text)),
        Some((word, words)) => match read_first(word) {
            None => Ok(None),
            Some(first) => read_behind(alloc, first, words),
        },
    }
}

/// The text of a line without its line feed.
fn before_feed(line: &[u8]) -> Option<&[u8]>
    ensures { MatchOption result ((text : List ℕ) → line.now ≡ text ++ line_feed ∷ [] → ⊥) (λ text. line.now ≡ text.now ++ line_feed ∷ []) }
{
    match line.split_last() {
        None => None,
        Some((last, text)) => { if *last == b'\n' { Some(text) } else { None } }
    }
}

/// Which line that a node gives these bytes are, the line feed among them. They are Bad exactly where they are none.
pub fn read_output(alloc: Global, line: &[u8]) -> Result<OutputLine, LineFault>
    ensures ok { IfOk result (Writes line.now) }
    ensures bad { result ≡ Err LineFault.Bad → (other : OutputLine) → Writes line.now other → ⊥ }
{
    let Some(text) = before_feed(line) else {
        return Err(LineFault::Bad);
    };
    match read_output_words(alloc, text) {
        Err(_) => Err(LineFault::Memory),
        Ok(None) => Err(LineFault::Bad),
        Ok(Some(line)) => Ok(line),
    }
}
