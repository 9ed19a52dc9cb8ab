//! The words of a line.

ghost use Rattle.std.specs.Prelude.{◌≡◌, ◌∷◌, [], ◌++◌, ◌<◌, ◌≤◌, ◌^◌, ◌+◌, ◌↔◌, ℕ, List, length, take, drop, IsTrue, IfOk, MatchOption};
ghost use Rattle.std.specs.Fmt.{decimal};
ghost use Rattle.hex.specs.Hex.{encode_lower};
ghost use Rattle.script_text.specs.Words.{space, IsName, IsGiven, IsPlain, Lacks, SplitsAt};
ghost use Rattle.script_text.specs.Script.{numbers};

use frame_wire::Octets;
use std::alloc::{AllocError, Global};
use std::str;

/// Where this byte first stands.
pub fn find_byte(bytes: &[u8], wanted: u8) -> Option<usize>
    ensures { MatchOption result (Lacks wanted bytes.now) (λ k. (k < length bytes.now) × SplitsAt wanted bytes.now (take k bytes.now) (drop (k + 1) bytes.now)) }
{
    for (k, byte) in bytes.iter().enumerate() {
        if *byte == wanted {
            return Some(k);
        }
    }
    None
}

/// The first word and what follows the space behind it, where there is a space.
pub(crate) fn split_word(words: &[u8]) -> Option<(&[u8], &[u8])>
    ensures { MatchOption result (Lacks space words.now) (λ parts. SplitsAt space words.now parts.0.now parts.1.now) }
{
    match find_byte(words, b' ') {
        None => None,
        Some(k) => Some((&words[..k], &words[k + 1..])),
    }
}

fn is_name_byte(byte: u8) -> bool
    ensures { result ≡ Rattle.script_text.specs.Words.is_name_byte byte }
{
    byte.is_ascii_lowercase()
        || byte.is_ascii_uppercase()
        || byte.is_ascii_digit()
        || byte == b'-'
        || byte == b'_'
        || byte == b'.'
}

/// Whether a word is a name: 1 to 255 letters, digits, `-`, `_` and `.`.
pub(crate) fn is_name(word: &[u8]) -> bool
    ensures { IsTrue result ↔ IsName word.now }
{
    !word.is_empty() && word.len() <= 255 && word.iter().all(|byte| is_name_byte(*byte))
}

/// Whether a word begins as a number without a sign or a leading zero does.
fn is_plain(word: &[u8]) -> bool
    ensures { IsTrue result ↔ IsPlain word.now }
{
    !word.is_empty() && word[0] != b'+' && (word[0] != b'0' || word.len() == 1)
}

/// The number that a word spells in decimal digits, with no sign and no leading zero.
pub fn read_number(word: &[u8]) -> Option<u64>
    ensures { MatchOption result ((n : ℕ) → n < 2 ^ 64 → word.now ≡ decimal n → ⊥) (λ n. (n < 2 ^ 64) × (word.now ≡ decimal n)) }
{
    if !is_plain(word) {
        return None;
    }
    match str::from_utf8(word) {
        Ok(text) => text.parse::<u64>().ok(),
        Err(_) => None,
    }
}

/// Whether two words are the same.
pub fn is_same(one: &[u8], other: &[u8]) -> bool
    ensures { IsTrue result ↔ (one.now ≡ other.now) }
{
    one == other
}

/// The bytes that a word spells as hexadecimal text in lower case, at least one.
pub(crate) fn read_hex(alloc: Global, word: &[u8]) -> Result<Option<Octets>, AllocError>
    ensures { IfOk result (λ found. MatchOption found ((bytes : List ℕ) → IsGiven bytes → word.now ≡ encode_lower bytes → ⊥) (λ bytes. IsGiven bytes × (word.now ≡ encode_lower bytes))) }
{
    let bytes = match hex::decode(alloc, word) {
        Ok(bytes) => bytes,
        Err(refusal) => match refusal {
            hex::FromHexError::OutOfMemory => return Err(AllocError),
            _ => return Ok(None),
        },
    };
    if bytes.is_empty() {
        return Ok(None);
    }
    let text = hex::encode(alloc, bytes.as_slice())?;
    if !is_same(text.as_bytes(), word) {
        return Ok(None);
    }
    Ok(Some(Octets::copy(alloc, bytes.as_slice())?))
}

/// A number, a space and other words.
pub(crate) fn number_and_words(words: &[u8]) -> Option<(u64, &[u8])>
    ensures { MatchOption result ((n : ℕ) (rest : List ℕ) → n < 2 ^ 64 → words.now ≡ decimal n ++ space ∷ rest → ⊥) (λ parts. (parts.0 < 2 ^ 64) × (words.now ≡ decimal parts.0 ++ space ∷ parts.1.now)) }
{
    match split_word(words) {
        None => None,
        Some((first, rest)) => match read_number(first) {
            None => None,
            Some(number) => Some((number, rest)),
        },
    }
}

/// Two numbers.
pub(crate) fn two_numbers(words: &[u8]) -> Option<(u64, u64)>
    ensures { MatchOption result ((a b : ℕ) → a < 2 ^ 64 → b < 2 ^ 64 → words.now ≡ numbers a (b ∷ []) → ⊥) (λ p. (p.0 < 2 ^ 64) × (p.1 < 2 ^ 64) × (words.now ≡ numbers p.0 (p.1 ∷ []))) }
{
    match number_and_words(words) {
        None => None,
        Some((first, rest)) => match read_number(rest) {
            None => None,
            Some(second) => Some((first, second)),
        },
    }
}

/// Three numbers.
pub(crate) fn three_numbers(words: &[u8]) -> Option<(u64, u64, u64)>
    ensures { MatchOption result ((a b c : ℕ) → a < 2 ^ 64 → b < 2 ^ 64 → c < 2 ^ 64 → words.now ≡ numbers a (b ∷ c ∷ []) → ⊥) (λ p. (p.0 < 2 ^ 64) × (p.1 < 2 ^ 64) × (p.2 < 2 ^ 64) × (words.now ≡ numbers p.0 (p.1 ∷ p.2 ∷ []))) }
{
    match number_and_words(words) {
        None => None,
        Some((first, rest)) => match two_numbers(rest) {
            None => None,
            Some((second, third)) => Some((first, second, third)),
        },
    }
}

/// Four numbers.
pub(crate) fn four_numbers(words: &[u8]) -> Option<(u64, u64, u64, u64)>
    ensures { MatchOption result ((a b c d : ℕ) → a < 2 ^ 64 → b < 2 ^ 64 → c < 2 ^ 64 → d < 2 ^ 64 → words.now ≡ numbers a (b ∷ c ∷ d ∷ []) → ⊥) (λ p. (p.0 < 2 ^ 64) × (p.1 < 2 ^ 64) × (p.2 < 2 ^ 64) × (p.3 < 2 ^ 64) × (words.now ≡ numbers p.0 (p.1 ∷ p.2 ∷ p.3 ∷ []))) }
{
    match number_and_words(words) {
        None => None,
        Some((first, rest)) => match three_numbers(rest) {
            None => None,
            Some((second, third, fourth)) => Some((first, second, third, fourth)),
        },
    }
}

/// A number and bytes as hexadecimal text.
pub(crate) fn number_and_hex(
    alloc: Global,
    words: &[u8],
) -> Result<Option<(u64, Octets)>, AllocError>
    ensures { IfOk result (λ found. MatchOption found ((n : ℕ) (bytes : List ℕ) → n < 2 ^ 64 → IsGiven bytes → words.now ≡ decimal n ++ space ∷ encode_lower bytes → ⊥) (λ p. (p.0 < 2 ^ 64) × IsGiven p.1 × (words.now ≡ decimal p.0 ++ space ∷ encode_lower p.1))) }
{
    match number_and_words(words) {
        None => Ok(None),
        Some((number, word)) => {
            let found = read_hex(alloc, word)?;
            match found {
                None => Ok(None),
                Some(bytes) => Ok(Some((number, bytes))),
            }
        }
    }
}
