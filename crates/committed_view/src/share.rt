//! Lists of chunks whose bytes are shared.
ghost use Rattle.std.specs.Prelude.{◌≡◌, ◌++◌, ◌↔◌, ◌+◌, ◌≤◌, length, IsTrue, OnOk, OnErr, IfErr, IfOk};
ghost use Rattle.committed_view.specs.Batches.{with_batch};
ghost use Rattle.chunk_format.specs.Logs.{GoesOn};

use chunk_format::Stored;
use std::alloc::{AllocError, Global};

/// Puts shares of chunks behind a list that has room for them. After an error the list is as it was.
fn push_shares(list: &mut Vec<Stored>, chunks: &[Stored]) -> Result<(), AllocError>
    ensures done { OnOk result (list.new.items ≡ list.old.items ++ chunks.now) }
    ensures err { OnErr result (list.new.items ≡ list.old.items) }
{
    let before = list.len();
    for chunk in chunks {
        let Ok(shared) = chunk.share() else {
            list.truncate(before);
            return Err(AllocError);
        };
        if list.push(shared).is_err() {
            list.truncate(before);
            return Err(AllocError);
        }
    }
    Ok(())
}

/// A list of shares of these chunks.
pub fn shares_of(alloc: Global, chunks: &[Stored]) -> Result<Vec<Stored>, AllocError>
    ensures { IfOk result (λ list. list.items ≡ chunks.now) }
{
    let mut list = Vec::new(alloc);
    list.reserve(chunks.len())?;
    push_shares(&mut list, chunks)?;
    Ok(list)
}

/// Puts chunks behind the first `keep` of a list. They come back where memory ran out, and the list is then as it was.
pub fn append_moved(
    list: &mut Vec<Stored>,
    keep: usize,
    mut chunks: Vec<Stored>,
) -> Result<(), Vec<Stored>>
    ensures done { OnOk result (list.new.items ≡ with_batch list.old.items keep chunks.items) }
    ensures err { OnErr result (list.new.items ≡ list.old.items) }
    ensures returned { IfErr result (λ back. back ≡ chunks) }
{
    if list.reserve(chunks.len()).is_err() {
        return Err(chunks);
    }
    list.truncate(keep);
    if list.append(&mut chunks).is_err() {
        unreachable!();
    }
    Ok(())
}

/// Puts shares of chunks behind the first `keep` of a list. After an error the list is as it was.
pub fn append_shares(
    list: &mut Vec<Stored>,
    keep: usize,
    chunks: &[Stored],
) -> Result<(), AllocError>
    ensures done { OnOk result (list.new.items ≡ with_batch list.old.items keep chunks.now) }
    ensures err { OnErr result (list.new.items ≡ list.old.items) }
{
    if keep >= list.len() {
        return push_shares(list, chunks);
    }
    let shares = shares_of(*list.allocator(), chunks)?;
    match append_moved(list, keep, shares) {
        Ok(()) => Ok(()),
        Err(_) => Err(AllocError),
    }
}

// Whether two slices of bytes are the same.
fn is_same(one: &[u8], other: &[u8]) -> bool
    ensures { IsTrue result ↔ (one.now ≡ other.now) }
{
    one == other
}

// Whether two chunks are the same.
fn is_same_chunk(one: &Stored, other: &Stored) -> bool
    ensures { IsTrue result ↔ (one.now ≡ other.now) }
{
    is_same(one.bytes(), other.bytes())
}

// Whether two lists of one length are the same.
fn is_same_list(one: &[Stored], other: &[Stored]) -> bool
    requires { length one.now ≡ length other.now }
    ensures { IsTrue result ↔ (one.now ≡ other.now) }
{
    for place in 0..one.len() {
        if !is_same_chunk(&one[place], &other[place]) {
            return false;
        }
    }
    true
}

/// Whether a list begins with another.
pub fn begins_with(list: &[Stored], front: &[Stored]) -> bool
    ensures { IsTrue result ↔ GoesOn front.now list.now }
{
    if list.len() < front.len() {
        return false;
    }
    let (head, _rest) = list.split_at(front.len());
    is_same_list(head, front)
}
