//! The names of files in the folder of their stream.

ghost use Rattle.std.specs.Prelude.{◌≡◌, ◌++◌, ◌^◌, ◌<◌, ℕ, Some, IfOk, IfSome};
ghost use Rattle.std.specs.String.{string_bytes};
ghost use Rattle.disk_calls.specs.FileNames.{HasOffset, text_of, twenty_digits};

use crate::file_id::FileName;
use std::alloc::{AllocError, Global};

/// The name of a file in the folder of its stream. A number is written in 20 digits. It needs memory for
/// the name.
pub fn name_of(alloc: Global, file: FileName) -> Result<String, AllocError>
    ensures { IfOk result (λ name. string_bytes name ≡ text_of file) }
{
    match file {
        FileName::Segment(first) => format!(in alloc; "{first:020}.segment"),
        FileName::Index(first) => format!(in alloc; "{first:020}.index"),
        FileName::Promise => String::from_str(alloc, "promise.words"),
        FileName::Epochs => String::from_str(alloc, "epochs.words"),
        FileName::CatalogWords => String::from_str(alloc, "catalog.words"),
        FileName::CatalogBytes => String::from_str(alloc, "catalog.bytes"),
        FileName::PromiseTwo => String::from_str(alloc, "promise.words2"),
        FileName::EpochsTwo => String::from_str(alloc, "epochs.words2"),
        FileName::CatalogWordsTwo => String::from_str(alloc, "catalog.words2"),
    }
}

// The digits of a number.
const DIGITS: usize = 20;

// The number that 20 digits spell. A sign is no digit.
fn number_of(digits: &str) -> Option<u64>
    ensures found { IfSome result (λ first. (digits.now ≡ twenty_digits first) × (first < 2 ^ 64)) }
    ensures all { (first : ℕ) → first < 2 ^ 64 → digits.now ≡ twenty_digits first → result ≡ Some first }
{
    if digits.len() != DIGITS {
        return None;
    }
    if digits.starts_with('+') {
        return None;
    }
    digits.parse::<u64>().ok()
}

// The number in 20 digits before an ending.
fn number_before(name: &str, end: &str) -> Option<u64>
    ensures found { IfSome result (λ first. (name.now ≡ twenty_digits first ++ end.now) × (first < 2 ^ 64)) }
    ensures all { (first : ℕ) → first < 2 ^ 64 → name.now ≡ twenty_digits first ++ end.now → result ≡ Some first }
{
    match name.strip_suffix(end) {
        Some(digits) => number_of(digits),
        None => None,
    }
}

/// The file with a name. What `name_of` gives of no file is none.
pub fn file_of(name: &str) -> Option<FileName>
    ensures found { IfSome result (λ file. (name.now ≡ text_of file) × HasOffset file) }
    ensures all { (file : FileName) → HasOffset file → name.now ≡ text_of file → result ≡ Some file }
{
    if let Some(first) = number_before(name, ".segment") {
        return Some(FileName::Segment(first));
    }
    if let Some(first) = number_before(name, ".index") {
        return Some(FileName::Index(first));
    }
    match name {
        "promise.words" => Some(FileName::Promise),
        "epochs.words" => Some(FileName::Epochs),
        "catalog.words" => Some(FileName::CatalogWords),
        "catalog.bytes" => Some(FileName::CatalogBytes),
        "promise.words2" => Some(FileName::PromiseTwo),
        "epochs.words2" => Some(FileName::EpochsTwo),
        "catalog.words2" => Some(FileName::CatalogWordsTwo),
        _ => None,
    }
}
