//! The streams of the hub, by their numbers from 1 on.

ghost use Rattle.std.specs.Prelude.{◌≡◌, ◌∷◌, [], ◌++◌, ◌<◌, ◌≤◌, suc, length, take, slice_index_or, slice_set, Some, None, IfSome, IfNone, OnOk, OnErr};
ghost use Rattle.memory_stream.specs.Gives.{fresh};
ghost use Rattle.hub_terms.specs.Tables.{view_at, running_by, is_live, stands};
ghost use Rattle.memory_hub.specs.Hubs.{at_stream, run_as};
ghost use Rattle.memory_hub.specs.Steps.{new_streams, stand_first, StandsAt};

use memory_stream::MemoryStream;
use std::alloc::{AllocError, Global};
use stream_catalog::Listed;
use stream_table::place_of;

/// Whether a name leads to the stream of a number.
fn is_live(listed: &Listed, number: u32) -> bool
    ensures { result ≡ is_live listed.now number }
{
    listed.is_live(number)
}

/// Ends a stream, where no name leads to it.
fn stand(listed: &Listed, stream: &mut MemoryStream)
    ensures { stream.new ≡ stands listed.now stream.old }
{
    if !is_live(listed, stream.number()) {
        stream.end();
    }
}

fn stand_at(listed: &Listed, streams: &mut Vec<MemoryStream>, place: usize)
    requires { place < length streams.old.items }
    ensures { StandsAt listed.now place streams.old.items streams.new.items }
{
    let stream = &mut streams[place];
    stand(listed, stream);
}

/// Of the first streams, so many, ends those to which no name leads.
pub(crate) fn stand_first(listed: &Listed, streams: &mut Vec<MemoryStream>, count: usize)
    requires { count ≤ length streams.old.items }
    ensures { streams.new.items ≡ stand_first listed.now count streams.old.items }
{
    'streams: for place in 0..count {
        stand_at(listed, streams, place);
    }
}

/// Adds a stream. It takes memory.
fn push_stream(alloc: Global, streams: &mut Vec<MemoryStream>) -> Result<(), AllocError>
    ensures ok { OnOk result (streams.new.items ≡ streams.old.items ++ fresh (suc (length streams.old.items)) ∷ []) }
    ensures err { OnErr result (streams.new.items ≡ streams.old.items) }
{
    let Ok(number) = u32::try_from(streams.as_slice().len() + 1) else {
        return Err(AllocError);
    };
    match streams.push(MemoryStream::new(alloc, number)) {
        Ok(()) => Ok(()),
        Err(_) => Err(AllocError),
    }
}

/// Adds streams, so many. Where memory runs out those before it stay.
fn push_some(alloc: Global, streams: &mut Vec<MemoryStream>, count: usize) -> Result<(), AllocError>
    ensures ok { OnOk result (streams.new.items ≡ streams.old.items ++ new_streams (suc (length streams.old.items)) count) }
    ensures err { OnErr result (take (length streams.old.items) streams.new.items ≡ streams.old.items) }
{
    for _ in 0..count {
        push_stream(alloc, streams)?;
    }
    Ok(())
}

/// Adds streams, so many, or changes nothing.
pub(crate) fn push_streams(
    alloc: Global,
    streams: &mut Vec<MemoryStream>,
    count: usize,
) -> Result<(), AllocError>
    ensures ok { OnOk result (streams.new.items ≡ streams.old.items ++ new_streams (suc (length streams.old.items)) count) }
    ensures err { OnErr result (streams.new.items ≡ streams.old.items) }
{
    let len = streams.as_slice().len();
    match push_some(alloc, streams, count) {
        Ok(()) => Ok(()),
        Err(error) => {
            streams.truncate(len);
            Err(error)
        }
    }
}

/// Ends the epoch that runs of a stream.
pub(crate) fn stop_in(streams: &mut [MemoryStream], stream: u32)
    ensures { streams.new ≡ at_stream (run_as None) stream streams.old }
{
    let Some(place) = place_of(streams.len(), stream) else {
        return;
    };
    let one = &mut streams[place];
    one.stop();
}

/// Begins the next epoch of a stream, or does nothing where there is none.
pub(crate) fn begin_in(streams: &mut [MemoryStream], stream: u32) -> Option<u64>
    ensures begun { IfSome result (λ epoch. streams.new ≡ at_stream (run_as (Some epoch)) stream streams.old) }
    ensures later { IfSome result (λ epoch. IfSome (running_by (view_at streams.old stream)) (λ before. before < epoch)) }
    ensures none { IfNone result (streams.new ≡ streams.old) }
{
    let Some(place) = place_of(streams.len(), stream) else {
        return None;
    };
    let one = &mut streams[place];
    one.begin()
}
