//! What is asked of the streams of a table, by their numbers from 1 on.

ghost use Rattle.std.specs.Prelude.{◌≡◌, IfOk};
ghost use Rattle.chunk_format.specs.Logs.{next_above};
ghost use Rattle.chunk_format.specs.ByName.{Greatest, LastStored};
ghost use Rattle.command_data.specs.Starts.{StartOf};
ghost use Rattle.stream_terms.specs.Lists.{last_first};
ghost use Rattle.std.specs.Option.{option_copied};
ghost use Rattle.hub_terms.specs.Tables.{HoldsFrom, view_at, chunks_by, found_as, running_by};

use chunk_format::Stored;
use command_fields::OffsetSpec;
use hub_terms::Found;
use memory_stream::MemoryStream;
use std::alloc::AllocError;
use stream_terms::start_of;

/// The stream of a number.
fn at(streams: &[MemoryStream], stream: u32) -> Option<&MemoryStream>
    ensures { option_copied result ≡ view_at streams.now stream }
{
    let place = stream.checked_sub(1)?;
    streams.get(place as usize)
}

/// What a live stream's number leads to.
pub fn found_in(streams: &[MemoryStream], stream: u32) -> Found
    ensures { result ≡ found_as stream (running_by (view_at streams.now stream)) }
{
    match at(streams, stream) {
        None => Found::Closed { stream },
        Some(one) => match one.running() {
            None => Found::Closed { stream },
            Some(epoch) => Found::Running { stream, epoch },
        },
    }
}

/// Where a subscription starts.
pub fn start_in(streams: &[MemoryStream], stream: u32, spec: &OffsetSpec) -> u64
    ensures { result ≡ StartOf spec.now (chunks_by (view_at streams.now stream)) }
{
    match at(streams, stream) {
        None => start_of(&[], spec),
        Some(one) => one.start(spec),
    }
}

/// The first user chunk whose end is above an offset.
pub fn next_in(
    streams: &[MemoryStream],
    stream: u32,
    from: u64,
) -> Result<Option<Stored>, AllocError>
    requires { HoldsFrom 1 streams.now }
    ensures { IfOk result (λ next. next ≡ next_above from (chunks_by (view_at streams.now stream))) }
{
    match at(streams, stream) {
        None => Ok(None),
        Some(one) => one.next_chunk(from),
    }
}

/// The greatest id of a publisher.
pub fn greatest_in(streams: &[MemoryStream], stream: u32, name: &[u8]) -> Option<u64>
    ensures { result ≡ Greatest name.now (chunks_by (view_at streams.now stream)) }
{
    match at(streams, stream) {
        None => None,
        Some(one) => one.greatest(name),
    }
}

/// The last offset that was stored for a consumer.
pub fn stored_in(streams: &[MemoryStream], stream: u32, name: &[u8]) -> Option<u64>
    ensures { result ≡ LastStored name.now (chunks_by (view_at streams.now stream)) }
{
    match at(streams, stream) {
        None => None,
        Some(one) => one.stored(name),
    }
}

/// The first offset of the last chunk.
pub fn last_in(streams: &[MemoryStream], stream: u32) -> Option<u64>
    ensures { result ≡ last_first (chunks_by (view_at streams.now stream)) }
{
    match at(streams, stream) {
        None => None,
        Some(one) => one.last(),
    }
}
