//! The chunks that an index made anew records.

ghost use Rattle.std.specs.Prelude.{◌≡◌, ◌⊎◌, ◌+◌, ◌≤◌, ℕ, List, [], length, Option, None, Ok, Err, OnOk};
ghost use Rattle.outside_io.specs.Causes.{HasCause};
ghost use Rattle.osiris_audit.specs.Indexing.{FollowsOr, Nexts};

use crate::front::{Front, chunk_in_front};
use crate::inspection::{may_begin, record_bytes};
use crate::window::{Fault, Window};
use outside_io::Source;

/// A chunk that follows: its bytes, the first offset behind it, and its record.
#[derive(Clone, Copy, Debug)]
pub struct Step {
    pub used: usize,
    pub next: u64,
    pub record_bytes: [u8; 29],
}

/// The chunk in front of bytes that may go on, where one may begin; nothing where it isn't whole.
pub fn follow(place: u32, end: Option<u64>, bytes: &[u8]) -> Option<Option<Step>>
    ensures { FollowsOr place end bytes.now result }
{
    match chunk_in_front(bytes) {
        Front::More => None,
        Front::Never => Some(None),
        Front::Chunk(view) => {
            let header = view.header();
            if !may_begin(end, header.first) {
                return Some(None);
            }
            Some(Some(Step {
                used: view.bytes().len(),
                next: header.first + u64::from(header.records),
                record_bytes: record_bytes(place, &view),
            }))
        }
    }
}

/// Reads a segment on up to the next chunk, or until it is known that none follows.
pub fn next_step<S: Source>(
    window: &mut Window,
    source: &mut S,
    end: Option<u64>,
) -> Result<Option<Step>, Fault>
    ensures nexts { Nexts end result (S.left source.old) (S.left source.new) window.old window.new }
    ensures cause { HasCause (S.faults source.old) (S.faults source.new) (result ≡ Err Fault.Read) }
{
    let place = window.place() as u32;
    'pieces: loop {
        if let Some(found) = follow(place, end, window.rest()) {
            return Ok(found);
        }
        match window.fill(source) {
            Ok(true) => {}
            Ok(false) => return Ok(None),
            Err(fault) => return Err(fault),
        }
    }
}
