//! The lines that a node gives.

ghost use Rattle.std.specs.Prelude.{◌≡◌, ◌+◌, ◌≤◌, ◌^◌, ◌<◌, ◌∷◌, ◌++◌, [], ℕ, length, map, IfOk, OnOk, All};
ghost use Rattle.std.specs.List.{AllByRecursion};
ghost use Rattle.frame_wire.specs.Frames.{frame};
ghost use Rattle.chunk_format.specs.Chunks.{IsChunk, IsEntry, entries_bytes};
ghost use Rattle.command_fields.specs.Tables.{FitsIn, body_of};
ghost use Rattle.command_data.specs.Commands.{data_table};
ghost use Rattle.replay_node.specs.Sessions.{IsOffer};
ghost use Rattle.script_text.specs.Outputs.{output_bytes};
ghost use Rattle.replay_node.specs.Outputs.{output_lines};
ghost use Rattle.replay_node.specs.NodeState.{opening, user_chunk, chunks_from, entries, ids, pieces_of, offer_pieces, offers_of, commit_of, confirm_of, send};
ghost use Rattle.replay_node.specs.Commits.{LaysOut, IsPiece};
ghost use Rattle.command_data.specs.declared.command.DataCommand.TheVariants.{PublishConfirm};

use crate::session::Offer;
use chunk_format::{Chunk, ChunkKind, Entry, encode_chunk};
use command_data::{DataCommand, Tagged, encode_data};
use frame_wire::{Octets, Row, put_u32};
use script_text::{OutputLine, write_output};
use std::alloc::{AllocError, Global};

/// The number of the one stream.
pub(crate) const STREAM: u64 = 1;

/// The most entries of a chunk.
const CHUNK_MAX: usize = 4096;

/// Chunks at the end of a list, and the end of the list behind them.
#[derive(Debug, Drop)]
pub(crate) struct Commits {
    pub chunks: Vec<Chunk>,
    pub end: u64,
}

/// The line that commits a chunk to the stream.
fn commit_line(alloc: Global, chunk: &Chunk) -> Result<Octets, AllocError>
    requires { IsChunk chunk.now }
    ensures { IfOk result (λ line. line ≡ output_bytes (commit_of chunk.now)) }
{
    let bytes = encode_chunk(alloc, chunk)?;
    let line = OutputLine::Committed {
        stream: STREAM,
        chunk: Octets::copy(alloc, bytes.as_slice())?,
    };
    write_output(alloc, &line)
}

/// A command in a frame.
fn frame_of(alloc: Global, command: &DataCommand) -> Result<Octets, AllocError>
    requires { FitsIn data_table command.now }
    ensures { IfOk result (λ bytes. bytes ≡ frame (body_of data_table command.now)) }
{
    let body = encode_data(alloc, command)?;
    let mut bytes = Octets::new(alloc);
    put_u32(&mut bytes, body.len() as u32)?;
    bytes.push_slice(body.as_slice())?;
    Ok(bytes)
}

/// The line that sends a command on a connection.
fn command_line(alloc: Global, connection: u64, command: &DataCommand) -> Result<Octets, AllocError>
    requires { FitsIn data_table command.now }
    ensures { IfOk result (λ line. line ≡ output_bytes (send connection command.now)) }
{
    let line = OutputLine::Sent {
        connection,
        frame: frame_of(alloc, command)?,
    };
    write_output(alloc, &line)
}

/// The ids of messages, in order.
fn ids_of(alloc: Global, items: &[Tagged]) -> Result<Row<u64>, AllocError>
    ensures { IfOk result (λ found. found ≡ ids items.now) }
{
    let mut found = Row::new(alloc);
    for item in items {
        let Ok(()) = found.push(item.id) else {
            return Err(AllocError);
        };
    }
    Ok(found)
}

/// The line that sends the confirm of a Publish frame.
fn confirm_line(alloc: Global, offer: &Offer) -> Result<Octets, AllocError>
    requires { IsOffer offer.now }
    ensures { IfOk result (λ line. line ≡ output_bytes (confirm_of offer.now)) }
{
    let command = DataCommand::PublishConfirm {
        publisher: offer.publisher,
        items: ids_of(alloc, offer.items.as_slice())?,
    };
    command_line(alloc, offer.connection, &command)
}

fn copy_entry(alloc: Global, entry: &Entry) -> Result<Entry, AllocError>
    ensures { IfOk result (λ copied. copied ≡ entry.now) }
{
    match entry {
        Entry::Simple(bytes) => Ok(Entry::Simple(Octets::copy(alloc, bytes.as_slice())?)),
        Entry::Batch {
            compression,
            spare,
            records,
            uncompressed,
            body,
        } => Ok(Entry::Batch {
            compression: *compression,
            spare: *spare,
            records: *records,
            uncompressed: *uncompressed,
            body: Octets::copy(alloc, body.as_slice())?,
        }),
    }
}

/// The entries of messages, in order.
fn copy_entries(alloc: Global, items: &[Tagged]) -> Result<Row<Entry>, AllocError>
    ensures { IfOk result (λ copied. copied ≡ entries items.now) }
{
    let mut copied = Row::new(alloc);
    for item in items {
        let Ok(()) = copied.push(copy_entry(alloc, &item.entry)?) else {
            return Err(AllocError);
        };
    }
    Ok(copied)
}

/// The chunk with which epoch 1 opens.
fn make_opening(alloc: Global) -> Result<Chunk, AllocError>
    ensures { IfOk result (λ chunk. chunk ≡ opening) }
{
    let mut entries = Row::new(alloc);
    let Ok(()) = entries.push(Entry::Simple(Octets::new(alloc))) else {
        return Err(AllocError);
    };
    Ok(Chunk {
        kind: ChunkKind::Snapshot,
        stamp: 0,
        epoch: 1,
        first: 0,
        entries,
        trailer: Octets::new(alloc),
    })
}

/// The list with which epoch 1 opens.
pub(crate) fn opening_commits(alloc: Global) -> Result<Commits, AllocError>
    ensures chunks { IfOk result (λ made. made.chunks.items ≡ opening ∷ []) }
    ensures end { IfOk result (λ made. made.end ≡ 1) }
{
    let mut chunks = Vec::new(alloc);
    let Ok(()) = chunks.push(make_opening(alloc)?) else {
        return Err(AllocError);
    };
    Ok(Commits { chunks, end: 1 })
}

/// The user chunk of messages.
fn make_chunk(alloc: Global, first: u64, items: &[Tagged]) -> Result<Chunk, AllocError>
    ensures { IfOk result (λ chunk. chunk ≡ user_chunk first (entries items.now)) }
{
    Ok(Chunk {
        kind: ChunkKind::User,
        stamp: 0,
        epoch: 1,
        first,
        entries: copy_entries(alloc, items)?,
        trailer: Octets::new(alloc),
    })
}

/// Lays one chunk of messages behind the others. Offsets behind the greatest number are want of memory.
fn lay_piece(alloc: Global, commits: &mut Commits, items: &[Tagged]) -> Result<(), AllocError>
    requires { IsPiece items.now }
    ensures { OnOk result (LaysOut commits.old commits.new (entries items.now ∷ [])) }
{
    let Some(end) = commits.end.checked_add(items.len() as u64) else {
        return Err(AllocError);
    };
    let chunk = make_chunk(alloc, commits.end, items)?;
    let Ok(()) = commits.chunks.push(chunk) else {
        return Err(AllocError);
    };
    commits.end = end;
    Ok(())
}

/// Lays the chunks of one offer behind the others: each of 4,096 entries but the last.
fn lay_offer(alloc: Global, commits: &mut Commits, items: &[Tagged]) -> Result<(), AllocError>
    requires { Rattle.replay_node.specs.Commits.IsLaid items.now }
    ensures { OnOk result (LaysOut commits.old commits.new (pieces_of (entries items.now))) }
{
    let mut rest = items;
    while !rest.is_empty() {
        let count = rest.len().min(CHUNK_MAX);
        let (piece, more) = rest.split_at(count);
        lay_piece(alloc, commits, piece)?;
        rest = more;
    }
    Ok(())
}

/// The chunks of offers, the first at this end of a list.
pub(crate) fn lay_offers(alloc: Global, end: u64, offers: &[Offer]) -> Result<Commits, AllocError>
    requires { All IsOffer offers.now }
    ensures chunks { IfOk result (λ made. made.chunks.items ≡ chunks_from end (offer_pieces offers.now)) }
    ensures end { IfOk result (λ made. made.end ≡ Rattle.replay_node.specs.Commits.end_behind end (offer_pieces offers.now)) }
    ensures spelled { IfOk result (λ made. All IsChunk made.chunks.items) }
{
    let mut commits = Commits {
        chunks: Vec::new(alloc),
        end,
    };
    for offer in offers {
        lay_offer(alloc, &mut commits, offer.items.as_slice())?;
    }
    Ok(commits)
}

/// The commit lines of chunks.
pub(crate) fn commit_lines(alloc: Global, chunks: &[Chunk]) -> Result<Row<Octets>, AllocError>
    requires { All IsChunk chunks.now }
    ensures { IfOk result (λ lines. lines ≡ output_lines (map commit_of chunks.now)) }
{
    let mut lines = Row::new(alloc);
    for chunk in chunks {
        let Ok(()) = lines.push(commit_line(alloc, chunk)?) else {
            return Err(AllocError);
        };
    }
    Ok(lines)
}

/// The lines that send commands on a connection.
pub(crate) fn command_lines(
    alloc: Global,
    connection: u64,
    commands: &[DataCommand],
) -> Result<Row<Octets>, AllocError>
    requires { All (FitsIn data_table) commands.now }
    ensures { IfOk result (λ lines. lines ≡ output_lines (map (send connection) commands.now)) }
{
    let mut lines = Row::new(alloc);
    for command in commands {
        let Ok(()) = lines.push(command_line(alloc, connection, command)?) else {
            return Err(AllocError);
        };
    }
    Ok(lines)
}

/// The lines that confirm the offers of a connection.
pub(crate) fn confirm_lines(
    alloc: Global,
    connection: u64,
    offers: &[Offer],
) -> Result<Row<Octets>, AllocError>
    requires { All IsOffer offers.now }
    ensures { IfOk result (λ lines. lines ≡ output_lines (map confirm_of (offers_of connection offers.now))) }
{
    let mut lines = Row::new(alloc);
    for offer in offers {
        if offer.connection == connection {
            let Ok(()) = lines.push(confirm_line(alloc, offer)?) else {
                return Err(AllocError);
            };
        }
    }
    Ok(lines)
}
