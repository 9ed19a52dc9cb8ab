//! The words of the lines that a node gives.

ghost use Rattle.std.specs.Prelude.{◌≡◌, ◌<◌, ◌^◌, ◌∷◌, ◌++◌, ◌↔◌, List, ℕ, IsTrue, IfOk, MatchOption};
ghost use Rattle.std.specs.Fmt.{decimal};
ghost use Rattle.frame_wire.specs.Fields.{u16_bytes};
ghost use Rattle.script_text.specs.Words.{space, code_word};
ghost use Rattle.script_text.specs.Outputs.{kind_word, ending_words, IsEnding};
ghost use Rattle.script_text.specs.OutputReading.{first_word};

use crate::output::{Ending, MessageKind};
use crate::word::{is_same, number_and_words, read_hex, read_number, split_word};
use std::alloc::{AllocError, Global};

/// The first word of a line that has others.
#[derive(Clone, Copy)]
pub(crate) enum FirstWord {
    Sent,
    Bye,
    Committed,
    Message,
    Later,
    Down,
    Up,
    Log,
    Refused,
    Bad,
}

impl FirstWord {
    fn text(self) -> &'static str
        ensures { result.now ≡ first_word self }
    {
        match self {
            FirstWord::Sent => ">",
            FirstWord::Bye => "bye",
            FirstWord::Committed => "k",
            FirstWord::Message => "m",
            FirstWord::Later => "later",
            FirstWord::Down => "down",
            FirstWord::Up => "up",
            FirstWord::Log => "l",
            FirstWord::Refused => "no",
            FirstWord::Bad => "bad",
        }
    }

    /// Whether a word is this one.
    fn is(self, word: &[u8]) -> bool
        ensures { IsTrue result ↔ (word.now ≡ first_word self) }
    {
        is_same(word, self.text().as_bytes())
    }
}

/// Which first word this is, if it is of one letter.
fn read_short(word: &[u8]) -> Option<FirstWord>
    ensures { MatchOption result ((word.now ≡ first_word FirstWord.Sent → ⊥) × (word.now ≡ first_word FirstWord.Committed → ⊥) × (word.now ≡ first_word FirstWord.Message → ⊥) × (word.now ≡ first_word FirstWord.Log → ⊥)) (λ first. word.now ≡ first_word first) }
{
    if FirstWord::Sent.is(word) {
        return Some(FirstWord::Sent);
    }
    if FirstWord::Committed.is(word) {
        return Some(FirstWord::Committed);
    }
    if FirstWord::Message.is(word) {
        return Some(FirstWord::Message);
    }
    if FirstWord::Log.is(word) {
        return Some(FirstWord::Log);
    }
    None
}

/// Which first word this is, if it is of several letters.
fn read_long(word: &[u8]) -> Option<FirstWord>
    ensures { MatchOption result ((word.now ≡ first_word FirstWord.Bye → ⊥) × (word.now ≡ first_word FirstWord.Later → ⊥) × (word.now ≡ first_word FirstWord.Down → ⊥) × (word.now ≡ first_word FirstWord.Up → ⊥) × (word.now ≡ first_word FirstWord.Refused → ⊥) × (word.now ≡ first_word FirstWord.Bad → ⊥)) (λ first. word.now ≡ first_word first) }
{
    if FirstWord::Bye.is(word) {
        return Some(FirstWord::Bye);
    }
    if FirstWord::Later.is(word) {
        return Some(FirstWord::Later);
    }
    if FirstWord::Down.is(word) {
        return Some(FirstWord::Down);
    }
    if FirstWord::Up.is(word) {
        return Some(FirstWord::Up);
    }
    if FirstWord::Refused.is(word) {
        return Some(FirstWord::Refused);
    }
    if FirstWord::Bad.is(word) {
        return Some(FirstWord::Bad);
    }
    None
}

/// Which first word this is.
pub(crate) fn read_first(word: &[u8]) -> Option<FirstWord>
    ensures { MatchOption result ((first : FirstWord) → word.now ≡ first_word first → ⊥) (λ first. word.now ≡ first_word first) }
{
    match read_short(word) {
        Some(first) => Some(first),
        None => read_long(word),
    }
}

/// The number that two bytes spell.
#[tactic(auto, unfolding(frame_wire::specs::Fields::u16_bytes))]
fn code_of(bytes: &[u8]) -> Option<u16>
    ensures { MatchOption result ((code : ℕ) → code < 2 ^ 16 → bytes.now ≡ u16_bytes code → ⊥) (λ code. bytes.now ≡ u16_bytes code) }
{
    match bytes {
        [high, low] => Some(u16::from_be_bytes([*high, *low])),
        _ => None,
    }
}

/// The response code of a word of four hexadecimal digits.
pub(crate) fn read_code(alloc: Global, word: &[u8]) -> Result<Option<u16>, AllocError>
    ensures { IfOk result (λ found. MatchOption found ((code : ℕ) → code < 2 ^ 16 → word.now ≡ code_word code → ⊥) (λ code. word.now ≡ code_word code)) }
{
    let found = read_hex(alloc, word)?;
    match found {
        None => Ok(None),
        Some(bytes) => Ok(code_of(bytes.as_slice())),
    }
}

/// How a connection ended where this side closed it.
fn read_us(alloc: Global, words: &[u8]) -> Result<Option<Ending>, AllocError>
    ensures { IfOk result (λ found. MatchOption found ((code : ℕ) → code < 2 ^ 16 → words.now ≡ ending_words (Ending.ClosedByUs code) → ⊥) (λ how. IsEnding how × (words.now ≡ ending_words how))) }
{
    match words {
        [b'u', b's', b' ', word @ ..] => {
            let found = read_code(alloc, word)?;
            match found {
                None => Ok(None),
                Some(code) => Ok(Some(Ending::ClosedByUs { code })),
            }
        }
        _ => Ok(None),
    }
}

/// How a connection ended.
pub(crate) fn read_ending(alloc: Global, words: &[u8]) -> Result<Option<Ending>, AllocError>
    ensures { IfOk result (λ found. MatchOption found ((how : Ending) → IsEnding how → words.now ≡ ending_words how → ⊥) (λ how. IsEnding how × (words.now ≡ ending_words how))) }
{
    if is_same(words, b"ended") {
        return Ok(Some(Ending::PeerEnded));
    }
    if is_same(words, b"closed") {
        return Ok(Some(Ending::ClosedByPeer));
    }
    if is_same(words, b"silent") {
        return Ok(Some(Ending::Silent));
    }
    read_us(alloc, words)
}

/// Whether a word is that of a kind.
fn is_kind(kind: MessageKind, word: &[u8]) -> bool
    ensures { IsTrue result ↔ (word.now ≡ kind_word kind) }
{
    is_same(word, kind.word().as_bytes())
}

/// The kind of a message, if it is one that begins or ends a member's part.
fn read_ordering(word: &[u8]) -> Option<MessageKind>
    ensures { MatchOption result ((word.now ≡ kind_word MessageKind.Stop → ⊥) × (word.now ≡ kind_word MessageKind.Stopped → ⊥) × (word.now ≡ kind_word MessageKind.Open → ⊥) × (word.now ≡ kind_word MessageKind.Follow → ⊥)) (λ kind. word.now ≡ kind_word kind) }
{
    if is_kind(MessageKind::Stop, word) {
        return Some(MessageKind::Stop);
    }
    if is_kind(MessageKind::Stopped, word) {
        return Some(MessageKind::Stopped);
    }
    if is_kind(MessageKind::Open, word) {
        return Some(MessageKind::Open);
    }
    if is_kind(MessageKind::Follow, word) {
        return Some(MessageKind::Follow);
    }
    None
}

/// The kind of a message.
fn read_kind(word: &[u8]) -> Option<MessageKind>
    ensures { MatchOption result ((kind : MessageKind) → word.now ≡ kind_word kind → ⊥) (λ kind. word.now ≡ kind_word kind) }
{
    if let Some(kind) = read_ordering(word) {
        return Some(kind);
    }
    if is_kind(MessageKind::Shape, word) {
        return Some(MessageKind::Shape);
    }
    if is_kind(MessageKind::Ask, word) {
        return Some(MessageKind::Ask);
    }
    if is_kind(MessageKind::Append, word) {
        return Some(MessageKind::Append);
    }
    None
}

/// A kind and a number.
pub(crate) fn kind_and_number(words: &[u8]) -> Option<(MessageKind, u64)>
    ensures { MatchOption result ((kind : MessageKind) (n : ℕ) → n < 2 ^ 64 → words.now ≡ kind_word kind ++ space ∷ decimal n → ⊥) (λ p. (p.1 < 2 ^ 64) × (words.now ≡ kind_word p.0 ++ space ∷ decimal p.1)) }
{
    match split_word(words) {
        None => None,
        Some((first, rest)) => match read_kind(first) {
            None => None,
            Some(kind) => match read_number(rest) {
                None => None,
                Some(number) => Some((kind, number)),
            },
        },
    }
}

/// Two numbers, a space and other words.
pub(crate) fn two_and_words(words: &[u8]) -> Option<(u64, u64, &[u8])>
    ensures { MatchOption result ((a b : ℕ) (rest : List ℕ) → a < 2 ^ 64 → b < 2 ^ 64 → words.now ≡ decimal a ++ space ∷ (decimal b ++ space ∷ rest) → ⊥) (λ p. (p.0 < 2 ^ 64) × (p.1 < 2 ^ 64) × (words.now ≡ decimal p.0 ++ space ∷ (decimal p.1 ++ space ∷ p.2.now))) }
{
    match number_and_words(words) {
        None => None,
        Some((first, behind)) => match number_and_words(behind) {
            None => None,
            Some((second, rest)) => Some((first, second, rest)),
        },
    }
}
