//! Ranges of ids that rise, with a gap between each two.

ghost use Rattle.std.specs.Prelude.{◌≡◌, ◌≤◌, ◌<◌, ◌++◌, ◌∷◌, [], length, position, OnOk, IfOk, IfSome};
ghost use Rattle.std.specs.List.{position_or_len};
ghost use Rattle.confirmed_ids.specs.Putting.{reaches, single, put_joined, put_here, put_behind, with_id, joined_to, behind_joined};

use std::alloc::{AllocError, Global};

/// Ids from the first to the last, both of them too.
#[derive(Clone, Copy, Debug, PartialEq, Eq)]
pub struct Range {
    pub first: u64,
    pub last: u64,
}

/// Whether the range isn't wholly below the id with a gap between them.
fn reaches(range: &Range, id: u64) -> bool
    ensures { result ≡ reaches id range.now }
{
    id <= range.last || id - range.last == 1
}

/// The place of the first range that reaches the id.
fn first_reaching(ranges: &[Range], id: u64) -> Option<usize>
    ensures is { result ≡ position (reaches id) ranges.now }
    ensures inside { IfSome result (λ place. place < length ranges.now) }
{
    ranges.iter().position(|range| reaches(range, id))
}

/// The same, or the number of ranges where none does.
#[tactic(auto, using(crate::proofs::Placing::place_some, crate::proofs::Placing::place_none))]
fn place(ranges: &[Range], id: u64) -> usize
    ensures is { result ≡ position_or_len (reaches id) ranges.now }
    ensures inside { result ≤ length ranges.now }
{
    match first_reaching(ranges, id) {
        Some(place) => place,
        None => ranges.len(),
    }
}

fn push(out: &mut Vec<Range>, first: u64, last: u64) -> Result<(), AllocError>
    ensures { OnOk result (out.new.items ≡ out.old.items ++ record { first = first; last = last } ∷ []) }
{
    match out.push(Range { first, last }) {
        Ok(()) => Ok(()),
        Err(_) => Err(AllocError),
    }
}

/// Adds a range up to an id, joined with the next one where this begins right behind it, and the others.
fn put_joined(out: &mut Vec<Range>, first: u64, id: u64, rest: &[Range]) -> Result<(), AllocError>
    ensures { OnOk result (out.new.items ≡ out.old.items ++ put_joined first id rest.now) }
{
    let Some((next, others)) = rest.split_first() else {
        return push(out, first, id);
    };
    if next.first > id && next.first - id == 1 {
        push(out, first, next.last)?;
        return out.extend_from_slice(others);
    }
    push(out, first, id)?;
    out.extend_from_slice(rest)
}

/// Adds the ranges with the id in the first of them, or right before or behind it.
fn put_here(out: &mut Vec<Range>, here: &Range, rest: &[Range], id: u64) -> Result<(), AllocError>
    ensures { OnOk result (out.new.items ≡ out.old.items ++ put_here id here.now rest.now) }
{
    if id < here.first {
        if here.first - id > 1 {
            push(out, id, id)?;
            push(out, here.first, here.last)?;
            return out.extend_from_slice(rest);
        }
        push(out, id, here.last)?;
        return out.extend_from_slice(rest);
    }
    if id <= here.last {
        push(out, here.first, here.last)?;
        return out.extend_from_slice(rest);
    }
    put_joined(out, here.first, id, rest)
}

fn put_behind(out: &mut Vec<Range>, ranges: &[Range], id: u64) -> Result<(), AllocError>
    ensures { OnOk result (out.new.items ≡ out.old.items ++ put_behind id ranges.now) }
{
    match ranges.split_first() {
        None => push(out, id, id),
        Some((here, rest)) => put_here(out, here, rest, id),
    }
}

/// The ranges with one id more.
pub(crate) fn with_id(alloc: Global, ranges: &[Range], id: u64) -> Result<Vec<Range>, AllocError>
    ensures { IfOk result (λ out. out.items ≡ with_id id ranges.now) }
{
    let (front, back) = ranges.split_at(place(ranges, id));
    let mut out = Vec::from_slice(alloc, front)?;
    put_behind(&mut out, back, id)?;
    Ok(out)
}

/// Takes the first range off where it begins right behind the id, and gives the last id that is then reached.
pub(crate) fn take_joined(ranges: &mut Vec<Range>, id: u64) -> u64
    ensures last { result ≡ joined_to id ranges.old.items }
    ensures left { ranges.new.items ≡ behind_joined id ranges.old.items }
{
    if ranges.is_empty() {
        return id;
    }
    let next = ranges[0];
    if next.first > id && next.first - id == 1 {
        let _ = ranges.remove(0);
        return next.last;
    }
    id
}
