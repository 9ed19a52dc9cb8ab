//! Records of pairs in bytes, in the two forms of a file of pairs.

ghost use Rattle.std.specs.Prelude.{◌≡◌, IsTrue, ◌↔◌, MatchOption, ◌+◌, ◌≤◌, ◌++◌, ◌∷◌, [], List, ℕ, length, drop, take, IfOk, slice_index, ◌-◌};
ghost use Rattle.gated_words.specs.Words.{header, width, gate, words, shut, xor_of, is_checked, spelled, pairs_behind, pair_at, AllFit, HasGate};
ghost use Rattle.gated_words.specs.Looking.{StartsWith, HasRead};

use std::alloc::{AllocError, Global};

const GATE: u8 = 0xa5;

/// The form of a file of pairs.
#[derive(Clone, Copy)]
pub(crate) enum Form {
    /// Records of 17 bytes: the words and the gate.
    First,
    /// Records of 18 bytes: the words, the xor of their bytes, and the gate.
    Second,
}

impl Form {
    /// The first eight bytes of a file.
    pub(crate) fn header(self) -> [u8; 8]
        ensures { result ≡ header self }
    {
        match self {
            Form::First => *b"STGW\0\0\0\x01",
            Form::Second => *b"STGW\0\0\0\x02",
        }
    }

    /// The bytes of a record.
    pub(crate) fn width(self) -> usize
        ensures { result ≡ width self }
    {
        match self {
            Form::First => 17,
            Form::Second => 18,
        }
    }
}

/// Whether bytes begin with the header of a form.
pub(crate) fn has_header(form: Form, bytes: &[u8]) -> bool
    ensures { IsTrue result ↔ (take 8 bytes.now ≡ header form) }
{
    let header = form.header();
    if bytes.len() < header.len() {
        return false;
    }
    &bytes[..8] == header.as_slice()
}

// The bytes of all in one.
#[tactic(auto, unfolding(crate::specs::Words::xor_of))]
fn xor_of(bytes: &[u8]) -> u8
    ensures { result ≡ xor_of bytes.now }
{
    let mut xor = 0;
    for byte in bytes {
        xor ^= *byte;
    }
    xor
}

/// The record of a pair in the second form.
#[tactic(auto, unfolding(crate::specs::Words::words))]
pub(crate) fn record_of(first: u64, second: u64) -> [u8; 18]
    ensures { result ≡ shut Form.Second (first, second) ++ gate ∷ [] }
{
    let mut record = [GATE; 18];
    record[..8].copy_from_slice(&first.to_be_bytes());
    record[8..16].copy_from_slice(&second.to_be_bytes());
    record[16] = xor_of(&record[..16]);
    record
}

/// The bytes of a file of the second form with these pairs.
pub(crate) fn spell(alloc: Global, pairs: &[(u64, u64)]) -> Result<Vec<u8>, AllocError>
    ensures { IfOk result (λ bytes. bytes.items ≡ spelled Form.Second pairs.now) }
{
    let mut bytes = Vec::new(alloc);
    bytes.extend_from_slice(&Form::Second.header())?;
    for (first, second) in pairs {
        bytes.extend_from_slice(&record_of(*first, *second))?;
    }
    Ok(bytes)
}

/// The pairs of a file with a header of a form, and the bytes behind their records.
pub(crate) fn read_pairs(
    alloc: Global,
    form: Form,
    bytes: &[u8],
) -> Result<Vec<(u64, u64)>, AllocError>
    requires { 8 ≤ length bytes.now }
    ensures { IfOk result (λ pairs. HasRead form bytes.now pairs.items) }
{
    let mut pairs = Vec::new(alloc);
    let mut rest = skip(bytes, 8);
    while let Some(pair) = first_pair(form, rest) {
        pairs.push(pair)?;
        rest = skip(rest, form.width());
    }
    Ok(pairs)
}

/// The bytes behind the first n.
pub(crate) fn skip(bytes: &[u8], n: usize) -> &[u8]
    requires { n ≤ length bytes.now }
    ensures { result.now ≡ drop n bytes.now }
{
    &bytes[n..]
}

/// Whether a whole record with its gate begins the bytes.
pub(crate) fn is_gated(form: Form, bytes: &[u8]) -> bool
    ensures { IsTrue result ↔ HasGate form bytes.now }
{
    let width = form.width();
    if bytes.len() < width {
        return false;
    }
    bytes[width - 1] == GATE
}

// Whether the words of a whole record have their check behind them.
fn is_checked(form: Form, bytes: &[u8]) -> bool
    requires { width form ≤ length bytes.now }
    ensures { result ≡ is_checked form bytes.now }
{
    match form {
        Form::First => true,
        Form::Second => bytes[16] == xor_of(&bytes[..16]),
    }
}

// The pair of the record that the bytes begin with, if it is whole and its gate and its check are right.
fn first_pair(form: Form, bytes: &[u8]) -> Option<(u64, u64)>
    ensures { MatchOption result (pairs_behind form 0 bytes.now ≡ []) (λ pair. StartsWith form pair bytes.now) }
{
    if !is_gated(form, bytes) {
        return None;
    }
    if !is_checked(form, bytes) {
        return None;
    }
    Some(pair_of(&bytes[..16]))
}

#[tactic(auto, unfolding(crate::specs::Words::pair_at))]
fn pair_of(bytes: &[u8]) -> (u64, u64)
    requires { length bytes.now ≡ 16 }
    ensures pair { result ≡ pair_at bytes.now }
    ensures spelled { words result ≡ bytes.now }
    ensures fits { AllFit (result ∷ []) }
{
    let mut first = [0; 8];
    first.copy_from_slice(&bytes[..8]);
    let mut second = [0; 8];
    second.copy_from_slice(&bytes[8..]);
    (u64::from_be_bytes(first), u64::from_be_bytes(second))
}
