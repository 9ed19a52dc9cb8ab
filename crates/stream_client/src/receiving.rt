//! Deliveries.

ghost use Rattle.std.specs.Prelude.{◌≡◌, ◌+◌, ◌^◌, ◌<◌, ◌++◌, ◌∷◌, [], length, take, OnOk, OnErr};
ghost use Rattle.chunk_format.specs.Chunks.{entry_records, records_of};
ghost use Rattle.client_terms.specs.States.{wanted_from};
ghost use Rattle.client_terms.specs.Hearing.{delivered, delivered_bytes, received_at, received_from, told_last};
ghost use Rattle.stream_client.specs.Cores.{state_of};
ghost use Rattle.stream_client.specs.Hearings.{Obeys};
ghost use Rattle.stream_client.specs.Receipts.{ReadsChunk, with_delivery, with_entries};

use crate::client::Client;
use crate::queue::Queue;
use chunk_apart::read_apart;
use chunk_format::{Chunk, ChunkError, Entry, Header};
use client_terms::{ClientFault, Received};
use command_fields::OffsetSpec;
use std::alloc::{AllocError, Global};
use std::collections::VecDeque;

/// The offset below which a subscription wants nothing.
fn wanted_from(spec: OffsetSpec) -> u64
    ensures { result ≡ wanted_from spec }
{
    match spec {
        OffsetSpec::At(offset) => offset,
        OffsetSpec::Unset => 0,
        OffsetSpec::First => 0,
        OffsetSpec::Last => 0,
        OffsetSpec::Next => 0,
        OffsetSpec::Since(_) => 0,
    }
}

/// How many offsets an entry takes.
fn records(entry: &Entry) -> u16
    ensures { result ≡ entry_records entry.now }
{
    match entry {
        Entry::Simple(_) => 1,
        Entry::Batch {
            compression: _,
            spare: _,
            records,
            uncompressed: _,
            body: _,
        } => *records,
    }
}

/// An entry as it is handed out.
fn received_at(offset: u64, entry: Entry) -> Received
    ensures { result ≡ received_at offset entry }
{
    match entry {
        Entry::Simple(body) => Received {
            offset,
            records: 1,
            compression: None,
            body,
        },
        Entry::Batch {
            compression,
            spare: _,
            records,
            uncompressed: _,
            body,
        } => Received {
            offset,
            records,
            compression: Some(compression),
            body,
        },
    }
}

/// Adds an entry, unless it ends below what is wanted.
fn add_entry(
    out: &mut Queue<Received>,
    wanted: u64,
    offset: u64,
    end: u64,
    entry: Entry,
) -> Result<(), AllocError>
    requires { end ≡ offset + entry_records entry }
    ensures ok { OnOk result (out.new ≡ out.old ++ received_from wanted offset (entry ∷ [])) }
    ensures err { OnErr result (out.new ≡ out.old) }
{
    if wanted >= end {
        return Ok(());
    }
    match out.push(received_at(offset, entry)) {
        Ok(()) => Ok(()),
        Err(_) => Err(AllocError),
    }
}

/// Adds entries of which the first takes this offset first.
fn add_entries(
    out: &mut Queue<Received>,
    wanted: u64,
    first: u64,
    entries: Vec<Entry>,
) -> Result<(), AllocError>
    requires { first + records_of entries.items < 2 ^ 64 }
    ensures ok { OnOk result (out.new ≡ out.old ++ received_from wanted first entries.items) }
    ensures err { OnErr result (take (length out.old) out.new ≡ out.old) }
{
    let mut left = VecDeque::from(entries);
    let mut offset = first;
    'entries: while let Some(entry) = left.pop_front() {
        let end = offset + u64::from(records(&entry));
        add_entry(out, wanted, offset, end, entry)?;
        offset = end;
    }
    Ok(())
}

/// Adds the entries of a chunk from what is wanted on. Want of memory leaves all as it was.
fn add_chunk(out: &mut Queue<Received>, wanted: u64, chunk: Chunk) -> Result<(), AllocError>
    requires { chunk.first + records_of chunk.entries < 2 ^ 64 }
    ensures ok { OnOk result (out.new ≡ out.old ++ received_from wanted chunk.first chunk.entries) }
    ensures err { OnErr result (out.new ≡ out.old) }
{
    let before = out.len();
    match add_entries(out, wanted, chunk.first, chunk.entries.into_vec()) {
        Ok(()) => Ok(()),
        Err(refused) => {
            out.cut(before);
            Err(refused)
        }
    }
}

/// The chunk of a delivery, or the first check that fails.
#[tactic(auto, using(crate::proofs::Arrivals::opened, crate::proofs::Arrivals::not_opened))]
fn read_chunk(alloc: Global, header: &Header, payload: &[u8]) -> Result<Chunk, ClientFault>
    ensures { ReadsChunk (delivered_bytes header.now payload.now) result }
{
    match read_apart(alloc, header, payload) {
        Ok(chunk) => Ok(chunk),
        Err(ChunkError::Fault(fault)) => Err(ClientFault::Chunk(fault)),
        Err(ChunkError::Memory) => Err(ClientFault::Memory),
    }
}

/// What the last delivery of version 2 told.
fn told_last(committed: Option<u64>, before: Option<u64>) -> Option<u64>
    ensures { result ≡ told_last committed before }
{
    match committed {
        Some(_) => committed,
        None => before,
    }
}

/// The entries of a chunk wait to be taken out. Want of memory leaves the client as it was.
fn keep(
    client: &mut Client,
    committed: Option<u64>,
    credits: u64,
    chunk: Chunk,
) -> Result<(), AllocError>
    requires { chunk.first + records_of chunk.entries < 2 ^ 64 }
    ensures ok { OnOk result (state_of client.new ≡ with_entries (with_delivery (state_of client.old) committed credits) chunk) }
    ensures err { OnErr result (state_of client.new ≡ state_of client.old) }
{
    let wanted = wanted_from(client.spec);
    add_chunk(&mut client.received, wanted, chunk)?;
    client.line.credits = credits;
    client.line.committed = told_last(committed, client.line.committed);
    Ok(())
}

/// A delivery of the subscription: its entries wait to be taken out, and a credit is due.
#[tactic(auto, using(crate::proofs::Arrivals::chunk_ends, crate::proofs::Arrivals::fails_chunk, crate::proofs::Arrivals::delivers_chunk))]
pub fn receive(
    alloc: Global,
    client: &mut Client,
    committed: Option<u64>,
    header: &Header,
    payload: &[u8],
) -> Result<(), ClientFault>
    ensures { Obeys (state_of client.old) (delivered (state_of client.old) committed header.now payload.now) result (state_of client.new) }
{
    let Some(credits) = client.line.credits.checked_add(1) else {
        return Err(ClientFault::Memory);
    };
    match read_chunk(alloc, header, payload) {
        Err(fault) => Err(fault),
        Ok(chunk) => match keep(client, committed, credits, chunk) {
            Ok(()) => Ok(()),
            Err(_) => Err(ClientFault::Memory),
        },
    }
}
