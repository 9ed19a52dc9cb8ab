//! The lines that are written of a chunk.

ghost use Rattle.std.specs.Prelude.{◌≡◌, ◌++◌, if◌then◌else◌, IfOk, OnOk};
ghost use Rattle.std.specs.List.{flat_map};
ghost use Rattle.chunk_view.specs.Shown.{shown_by};
ghost use Rattle.osiris_audit.specs.Lines.{kind_word, header_front, header_back, header_line, entry_line, chunk_lines, ok_line, bad_line};
ghost use Rattle.osiris_audit.specs.Inspecting.{last_line};

use chunk_format::{ChunkKind, Header};
use chunk_view::{ChunkView, EntryView};
use frame_wire::Octets;
use std::alloc::{AllocError, Global};

/// The word of a chunk's kind.
fn word_of(kind: ChunkKind) -> &'static str
    ensures { result.now ≡ kind_word kind }
{
    match kind {
        ChunkKind::User => "user",
        ChunkKind::Delta => "delta",
        ChunkKind::Snapshot => "snapshot",
    }
}

/// Adds the first half of the line of a header.
#[tactic(auto, unfolding(crate::specs::Lines::header_front))]
fn put_front(alloc: Global, text: &mut Octets, header: &Header) -> Result<(), AllocError>
    ensures { OnOk result (text.new ≡ text.old ++ header_front header.now) }
{
    let first = header.first;
    let kind = word_of(header.kind);
    let entries = header.entries;
    let line = format!(in alloc; "chunk {first} {kind} {entries} ")?;
    text.push_slice(line.as_bytes())
}

/// Adds the second half.
#[tactic(auto, unfolding(crate::specs::Lines::header_back))]
fn put_back(alloc: Global, text: &mut Octets, header: &Header) -> Result<(), AllocError>
    ensures { OnOk result (text.new ≡ text.old ++ header_back header.now) }
{
    let records = header.records;
    let stamp = header.stamp;
    let epoch = header.epoch;
    let line = format!(in alloc; "{records} {stamp} {epoch}\n")?;
    text.push_slice(line.as_bytes())
}

/// Adds the line of a header.
#[tactic(auto, unfolding(crate::specs::Lines::header_line))]
fn put_header_line(alloc: Global, text: &mut Octets, header: &Header) -> Result<(), AllocError>
    ensures { OnOk result (text.new ≡ text.old ++ header_line header.now) }
{
    put_front(alloc, text, header)?;
    put_back(alloc, text, header)
}

/// Adds the line of an entry.
#[tactic(auto, unfolding(crate::specs::Lines::entry_line))]
fn put_entry_line(alloc: Global, text: &mut Octets, entry: EntryView<'_>) -> Result<(), AllocError>
    ensures { OnOk result (text.new ≡ text.old ++ entry_line (shown_by entry.entry)) }
{
    let first = entry.first;
    let records = entry.records;
    let len = entry.body.len();
    let line = format!(in alloc; "entry {first} {records} {len}\n")?;
    text.push_slice(line.as_bytes())
}

/// Adds the line of a chunk and those of its entries.
#[tactic(auto, unfolding(crate::specs::Lines::chunk_lines))]
pub fn put_chunk_lines(
    alloc: Global,
    text: &mut Octets,
    view: &ChunkView<'_>,
) -> Result<(), AllocError>
    ensures { OnOk result (text.new ≡ text.old ++ chunk_lines view.now) }
{
    put_header_line(alloc, text, &view.header())?;
    let mut views = view.entries();
    'entries: while let Some(entry) = views.next() {
        put_entry_line(alloc, text, entry)?;
    }
    Ok(())
}

/// The last line: whether all matched, and how many chunks did.
#[tactic(auto, unfolding(crate::specs::Lines::ok_line, crate::specs::Lines::bad_line))]
pub fn last_text(alloc: Global, good: bool, count: u64) -> Result<Octets, AllocError>
    ensures { IfOk result (λ line. line ≡ last_line good count) }
{
    if good {
        let line = format!(in alloc; "ok {count}\n")?;
        return Octets::copy(alloc, line.as_bytes());
    }
    let line = format!(in alloc; "bad {count}\n")?;
    Octets::copy(alloc, line.as_bytes())
}
