//! Whether the logs of members can stand together.

ghost use Rattle.std.specs.Prelude.{IfOk, IfErr, OnOk, MatchOption};
ghost use Rattle.chunk_format.specs.Logs.{IsLog};
ghost use Rattle.stream_cluster.specs.Opens.{AllWhole, NoneAhead, AllAgree, AllAgreeWith, IsSoundLog, BreaksAt, BrokenBy, AheadBy, ApartBy, DivergedBy};

use crate::fault::OpenFault;
use chunk_format::Stored;
use cluster_core::{broken_at, diverged_at};
use segment_store::Recovered;
use std::alloc::{AllocError, Global};
use tracking_state::first_untruthful;

/// The offset of the first chunk that can't stand in a log, if there is one. It looks at each chunk once or twice.
fn breaks_at(alloc: Global, chunks: &[Stored], promise: u64) -> Result<Option<u64>, AllocError>
    ensures { IfOk result (λ found. MatchOption found (IsSoundLog chunks.now promise) (λ offset. BreaksAt chunks.now promise offset)) }
{
    let Some(place) = first_untruthful(alloc, chunks)? else {
        return Ok(broken_at(chunks, promise));
    };
    if let Some(offset) = broken_at(&chunks[..place], promise) {
        return Ok(Some(offset));
    }
    Ok(Some(chunks[place].header().first))
}

/// The first member whose log isn't whole is refused.
pub(crate) fn refuse_broken(alloc: Global, starts: &[Recovered]) -> Result<(), OpenFault>
    ensures ok { OnOk result (AllWhole starts.now) }
    ensures err { IfErr result (BrokenBy starts.now) }
{
    for start in starts {
        let Ok(found) = breaks_at(alloc, start.chunks.as_slice(), start.promise) else {
            return Err(OpenFault::Memory);
        };
        if let Some(offset) = found {
            return Err(OpenFault::Broken {
                member: start.member,
                offset,
            });
        }
    }
    Ok(())
}

/// The first member whose promise is above the epoch is refused.
pub(crate) fn refuse_ahead(starts: &[Recovered], epoch: u64) -> Result<(), OpenFault>
    ensures ok { OnOk result (NoneAhead epoch starts.now) }
    ensures err { IfErr result (AheadBy epoch starts.now) }
{
    for start in starts {
        if epoch < start.promise {
            return Err(OpenFault::Ahead {
                member: start.member,
                promise: start.promise,
                epoch,
            });
        }
    }
    Ok(())
}

/// The first of these whose log can't stand together with one is refused.
fn refuse_apart(one: &Recovered, others: &[Recovered]) -> Result<(), OpenFault>
    requires one_log { IsLog one.now.chunks }
    requires logs { AllWhole others.now }
    ensures ok { OnOk result (AllAgreeWith one.now others.now) }
    ensures err { IfErr result (ApartBy one.now others.now) }
{
    for other in others {
        if let Some(offset) = diverged_at(one.chunks.as_slice(), other.chunks.as_slice()) {
            return Err(OpenFault::Diverged {
                a: one.member,
                b: other.member,
                offset,
            });
        }
    }
    Ok(())
}

/// The first two members whose logs can't stand together are refused.
pub(crate) fn refuse_diverged(starts: &[Recovered]) -> Result<(), OpenFault>
    requires { AllWhole starts.now }
    ensures ok { OnOk result (AllAgree starts.now) }
    ensures err { IfErr result (DivergedBy starts.now) }
{
    let mut place = 0;
    'places: while place < starts.len() {
        match refuse_apart(&starts[place], &starts[place + 1..]) {
            Ok(()) => {}
            Err(fault) => return Err(fault),
        }
        place += 1;
    }
    Ok(())
}
