//! A committed list goes on.

ghost use Rattle.std.specs.Prelude.{◌≡◌, ◌+◌, ◌≤◌, position};
ghost use Rattle.std.specs.List.{position_or_len};
ghost use Rattle.std.specs.Vec.{vec_len, vec_capacity};
ghost use Rattle.chunk_format.specs.Chunks.{end_of_chunk};
ghost use Rattle.chunk_format.specs.Logs.{end_of};
ghost use Rattle.cluster_core.specs.Parts.{ends_behind, extended};

use chunk_format::Stored;

/// The offset behind a chunk.
pub(crate) fn chunk_end(chunk: &Stored) -> u64
    ensures { result ≡ end_of_chunk chunk.now }
{
    let header = chunk.header();
    header.first + u64::from(header.records)
}

/// Where a list ends.
pub fn list_end(list: &[Stored]) -> u64
    ensures { result ≡ end_of list.now }
{
    match list.split_last() {
        None => 0,
        Some((last, _)) => chunk_end(last),
    }
}

/// The place of the first chunk that ends behind an offset.
fn first_behind(chunks: &[Stored], end: u64) -> Option<usize>
    ensures { result ≡ position (ends_behind end) chunks.now }
{
    chunks.iter().position(|chunk| end < chunk_end(chunk))
}

/// How many chunks come before the first that ends behind an offset.
fn count_within(chunks: &[Stored], end: u64) -> usize
    ensures { result ≡ position_or_len (ends_behind end) chunks.now }
{
    match first_behind(chunks, end) {
        Some(place) => place,
        None => chunks.len(),
    }
}

/// Lets a committed list go on to an end, by chunks that stand ahead of it. There is room for them.
pub fn commit(list: &mut Vec<Stored>, ahead: Vec<Stored>, end: u64)
    requires { vec_len list.old + vec_len ahead ≤ vec_capacity list.old }
    ensures { list.new.items ≡ extended list.old.items ahead.items end }
{
    if end <= list_end(list.as_slice()) {
        return;
    }
    let mut more = ahead;
    let count = count_within(more.as_slice(), end);
    more.truncate(count);
    match list.append(&mut more) {
        Ok(()) => {}
        Err(_) => unreachable!(),
    }
}
