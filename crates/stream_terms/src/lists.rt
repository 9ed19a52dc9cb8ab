//! What is asked of a stream's list.

ghost use Rattle.std.specs.Prelude.{◌≡◌, ◌≤◌, find, length, map, nat_lt, IfOk};
ghost use Rattle.std.specs.Option.{option_copied};
ghost use Rattle.std.specs.List.{position_or_len};
ghost use Rattle.chunk_format.specs.declared.chunk.Chunk.{Chunk};
ghost use Rattle.chunk_format.specs.Chunks.{end_of_chunk};
ghost use Rattle.chunk_format.specs.Logs.{IsLog, end_of, is_user, is_above, is_since, last_user, first_since, next_above};
ghost use Rattle.command_data.specs.Starts.{StartOf};
ghost use Rattle.stream_terms.specs.Lists.{last_first};

use crate::search::{StoredEnds, find_place};
use crate::steps::Steps;
use chunk_format::{ChunkKind, Stored};
use command_fields::OffsetSpec;
use std::alloc::AllocError;
use std::marker::Brand;
use std::sync::ledger::{Blank, Ledger};

fn is_user(kind: ChunkKind) -> bool
    ensures { result ≡ is_user kind }
{
    match kind {
        ChunkKind::User => true,
        ChunkKind::Delta | ChunkKind::Snapshot => false,
    }
}

/// The offset behind a chunk.
pub(crate) fn end_of_stored(chunk: &Stored) -> u64
    ensures { result ≡ end_of_chunk chunk.now }
{
    let header = chunk.header();
    header.first + u64::from(header.records)
}

/// Where a list ends, which is 0 where it is empty.
pub fn end_of(chunks: &[Stored]) -> u64
    ensures { result ≡ end_of chunks.now }
{
    match chunks.split_last() {
        None => 0,
        Some((last, _)) => end_of_stored(last),
    }
}

/// The first offset of the last chunk.
pub fn last_first(chunks: &[Stored]) -> Option<u64>
    ensures { result ≡ last_first chunks.now }
{
    match chunks.split_last() {
        None => None,
        Some((last, _)) => Some(last.header().first),
    }
}

/// The first offset of the last user chunk. It goes back from the end.
fn last_user(chunks: &[Stored]) -> Option<u64>
    ensures { result ≡ last_user chunks.now }
{
    let mut left = chunks;
    'chunks: while let Some((last, rest)) = left.split_last() {
        let header = last.header();
        if is_user(header.kind) {
            return Some(header.first);
        }
        left = rest;
    }
    None
}

fn is_since(chunk: &Stored, moment: i64) -> bool
    ensures { result ≡ is_since moment chunk.now }
{
    let header = chunk.header();
    is_user(header.kind) && header.stamp >= moment
}

/// The first offset of the first user chunk of a moment or later.
fn first_since(chunks: &[Stored], moment: i64) -> Option<u64>
    ensures { result ≡ first_since moment chunks.now }
{
    let chunk = chunks.iter().find(|chunk| is_since(chunk, moment))?;
    Some(chunk.header().first)
}

/// Where a subscription starts. It goes through the list where a moment is asked for, since moments may fall along a list,
/// and else looks at the end.
pub fn start_of(chunks: &[Stored], spec: &OffsetSpec) -> u64
    ensures { result ≡ StartOf spec.now chunks.now }
{
    match *spec {
        OffsetSpec::First => 0,
        OffsetSpec::At(offset) => offset,
        OffsetSpec::Next | OffsetSpec::Unset => end_of(chunks),
        OffsetSpec::Last => last_user(chunks).unwrap_or(end_of(chunks)),
        OffsetSpec::Since(moment) => first_since(chunks, moment).unwrap_or(end_of(chunks)),
    }
}

/// The place of the first chunk whose end is above an offset, or their number.
fn place_above<L: Ledger>(blank: Blank, chunks: &[Stored], offset: u64) -> usize
    requires name { blank.name ≡ L.name }
    requires parts { blank.parts ≡ L.parts }
    requires one { blank.parts ≡ 1 }
    requires log { IsLog chunks.now }
    ensures place { result ≡ position_or_len (nat_lt offset) (map end_of_chunk chunks.now) }
    ensures within { result ≤ length chunks.now }
{
    let mut steps = Steps::<L>::new(blank);
    find_place(&StoredEnds::new(chunks), offset, &mut steps)
}

fn is_above(chunk: &Stored, from: u64) -> bool
    ensures { result ≡ is_above from chunk.now }
{
    is_user(chunk.header().kind) && from < end_of_stored(chunk)
}

fn found_above(chunks: &[Stored], from: u64) -> Option<&Stored>
    ensures { option_copied result ≡ find (is_above from) chunks.now }
{
    chunks.iter().find(|chunk| is_above(chunk, from))
}

fn first_above(chunks: &[Stored], from: u64) -> Result<Option<Stored>, AllocError>
    ensures { IfOk result (λ next. next ≡ find (is_above from) chunks.now) }
{
    match found_above(chunks, from) {
        None => Ok(None),
        Some(chunk) => {
            let shared = chunk.share()?;
            Ok(Some(shared))
        }
    }
}

/// The first user chunk whose end is above an offset, found by a search. It fails for want of memory alone.
pub fn next_above(chunks: &[Stored], from: u64) -> Result<Option<Stored>, AllocError>
    requires { IsLog chunks.now }
    ensures { IfOk result (λ next. next ≡ next_above from chunks.now) }
{
    let place = place_above::<Brand>(Blank::new(1), chunks, from);
    first_above(&chunks[place..], from)
}
