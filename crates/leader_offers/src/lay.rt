//! Lays the items of an offer out as chunks behind a leader's sequence.

ghost use Rattle.std.specs.Prelude.{◌≡◌, ◌≤◌, length, OnErr, OnOk, IfOk, IfErr};
ghost use Rattle.std.specs.List.{AllByRecursion};
ghost use Rattle.chunk_format.specs.Logs.{end_of};
ghost use Rattle.epoch_coordinator.specs.Members.{sequence_of};
ghost use Rattle.epoch_coordinator.specs.MemberSteps.{stamp_at};
ghost use Rattle.epoch_coordinator.specs.Offers.{with_snapshot};
ghost use Rattle.offer_chunks.specs.Taken.{items_of, taken_from, IdFits};
ghost use Rattle.leader_offers.specs.Leads.{Leads, Put, SomeBehind, WhyStopped, chunk_with, run_chunks, all_chunks, RunLaid};

use crate::put::{Stop, put};
use chunk_format::Entry;
use command_data::Tagged;
use frame_wire::{Octets, Row};
use member_core::Member;
use offer_chunks::{Run, next_run, stamp_of, user_chunk};
use std::alloc::Global;

/// The most entries of a chunk.
const MOST_ENTRIES: usize = 4096;

/// A run of items that was laid.
#[derive(Drop)]
pub(crate) struct Step<'a> {
    /// How many items that are.
    pub count: u32,
    /// The greatest id of their publisher, theirs included.
    pub greatest: Option<u64>,
    /// The items behind them.
    pub rest: &'a [Tagged],
}

/// Puts the user chunk of these entries, with the snapshot that follows it.
fn put_entries(
    leader: &mut Member,
    now: u64,
    entries: Row<Entry>,
    trailer: Octets,
) -> Result<(), Stop>
    requires { Leads leader.old }
    ensures ok { OnOk result (Put leader.old (with_snapshot (sequence_of leader.old) (chunk_with leader.old.promise (stamp_at now) (end_of (sequence_of leader.old)) entries trailer)) leader.new) }
    ensures err { OnErr result (SomeBehind leader.old leader.new) }
    ensures stopped { IfErr result (WhyStopped (with_snapshot (sequence_of leader.old) (chunk_with leader.old.promise (stamp_at now) (end_of (sequence_of leader.old)) entries trailer))) }
{
    let chunk = user_chunk(
        leader.promise(),
        stamp_of(now),
        leader.end(),
        entries,
        trailer,
    );
    put(leader, chunk)
}

/// Lays the next 4,096 items that are taken, or what is left.
fn lay_run<'a>(
    alloc: Global,
    leader: &mut Member,
    name: &[u8],
    greatest: Option<u64>,
    items: &'a [Tagged],
    now: u64,
) -> Result<Step<'a>, Stop>
    requires leads { Leads leader.old }
    requires short { length name.now ≤ 255 }
    ensures ok { IfOk result (λ step. RunLaid name.now greatest items.now (stamp_at now) leader.old step leader.new) }
    ensures err { OnErr result (SomeBehind leader.old leader.new) }
    ensures stopped { IfErr result (WhyStopped (run_chunks leader.old.promise (stamp_at now) name.now (sequence_of leader.old) (taken_from name.now greatest (items_of items.now)))) }
{
    let run = match next_run(alloc, name, greatest, items, MOST_ENTRIES) {
        Ok(run) => run,
        Err(_) => return Err(Stop::Memory),
    };
    let Run {
        entries,
        trailer,
        greatest,
        rest,
    } = run;
    let count = entries.as_slice().len();
    if count == 0 {
        return Ok(Step {
            count: 0,
            greatest,
            rest,
        });
    }
    match put_entries(leader, now, entries, trailer) {
        Ok(()) => Ok(Step {
            count: count as u32,
            greatest,
            rest,
        }),
        Err(stop) => Err(stop),
    }
}

/// Lays all items of an offer that are taken, and tells how many they are.
pub(crate) fn lay(
    alloc: Global,
    leader: &mut Member,
    name: &[u8],
    greatest: Option<u64>,
    items: &[Tagged],
    now: u64,
) -> Result<u32, Stop>
    requires leads { Leads leader.old }
    requires short { length name.now ≤ 255 }
    requires few { length items.now ≤ 1048576 }
    ensures put { OnOk result (Put leader.old (all_chunks leader.old.promise (stamp_at now) name.now (sequence_of leader.old) (taken_from name.now greatest (items_of items.now))) leader.new) }
    ensures fits { OnOk result (AllByRecursion IdFits (items_of items.now)) }
    ensures count { IfOk result (λ count. count ≡ length (taken_from name.now greatest (items_of items.now))) }
    ensures err { OnErr result (SomeBehind leader.old leader.new) }
    ensures stopped { IfErr result (WhyStopped (all_chunks leader.old.promise (stamp_at now) name.now (sequence_of leader.old) (taken_from name.now greatest (items_of items.now)))) }
{
    let mut count = 0u32;
    let mut last = greatest;
    let mut rest = items;
    'runs: while !rest.is_empty() {
        let step = match lay_run(alloc, leader, name, last, rest, now) {
            Ok(step) => step,
            Err(stop) => return Err(stop),
        };
        count += step.count;
        last = step.greatest;
        rest = step.rest;
    }
    Ok(count)
}
