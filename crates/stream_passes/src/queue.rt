//! Offers that wait until the list reaches them.

ghost use Rattle.std.specs.Prelude.{◌≡◌, ◌+◌, ◌≤◌, ◌++◌, ◌∷◌, [], OnOk, OnErr, if◌then◌else◌};
ghost use Rattle.std.specs.List.{filter};
ghost use Rattle.std.specs.Vec.{vec_len, vec_capacity};
ghost use Rattle.std.specs.VecDeque.{deque_len};
ghost use Rattle.stream_terms.specs.Steps.{of_epoch};
ghost use Rattle.stream_passes.specs.Parts.{is_past, is_within};
ghost use Rattle.stream_passes.specs.Keeps.{EndsFrom, OfOneEpoch, NextReached};

use std::alloc::AllocError;
use std::collections::VecDeque;
use stream_terms::Waits;

/// Puts an offer behind those that are ready, and leaves room for all that wait.
pub(crate) fn put_ready(
    ready: &mut Vec<Waits>,
    waiting: &VecDeque<Waits>,
    waits: Waits,
) -> Result<(), AllocError>
    requires { vec_len ready.old + deque_len waiting.now ≤ vec_capacity ready.old }
    ensures ok { OnOk result (ready.new.items ≡ ready.old.items ++ waits ∷ []) }
    ensures err { OnErr result (ready.new.items ≡ ready.old.items) }
    ensures room { vec_len ready.new + deque_len waiting.now ≤ vec_capacity ready.new }
{
    let Some(more) = waiting.len().checked_add(1) else {
        return Err(AllocError);
    };
    ready.reserve(more)?;
    match ready.push(waits) {
        Ok(()) => Ok(()),
        Err(_) => Err(AllocError),
    }
}

/// Puts an offer behind those that wait, with room for it among those that are ready.
pub(crate) fn put_waiting(
    ready: &mut Vec<Waits>,
    waiting: &mut VecDeque<Waits>,
    waits: Waits,
) -> Result<(), AllocError>
    requires { vec_len ready.old + deque_len waiting.old ≤ vec_capacity ready.old }
    ensures ok { OnOk result (waiting.new.items ≡ waiting.old.items ++ waits ∷ []) }
    ensures err { OnErr result (waiting.new.items ≡ waiting.old.items) }
    ensures same { ready.new.items ≡ ready.old.items }
    ensures room { vec_len ready.new + deque_len waiting.new ≤ vec_capacity ready.new }
{
    let Some(more) = waiting.len().checked_add(1) else {
        return Err(AllocError);
    };
    ready.reserve(more)?;
    match waiting.push_back(waits) {
        Ok(()) => Ok(()),
        Err(_) => Err(AllocError),
    }
}

/// The first one, where the list that ends there reaches it.
fn next_reached(waiting: &mut VecDeque<Waits>, end: u64) -> Option<Waits>
    requires { EndsFrom 0 waiting.old.items }
    ensures { NextReached end waiting.old.items waiting.new.items result }
{
    match waiting.front() {
        Some(first) => {
            if first.end > end {
                return None;
            }
        }
        None => return None,
    }
    waiting.pop_front()
}

/// Those that the list reaches become ready. It walks these alone.
pub(crate) fn take_reached(ready: &mut Vec<Waits>, waiting: &mut VecDeque<Waits>, end: u64)
    requires rise { EndsFrom 0 waiting.old.items }
    requires room { vec_len ready.old + deque_len waiting.old ≤ vec_capacity ready.old }
    ensures ready { ready.new.items ≡ ready.old.items ++ filter (is_within end) waiting.old.items }
    ensures waiting { waiting.new.items ≡ filter (is_past end) waiting.old.items }
    ensures room { vec_len ready.new + deque_len waiting.new ≤ vec_capacity ready.new }
{
    'reached: while let Some(waits) = next_reached(waiting, end) {
        match ready.push(waits) {
            Ok(()) => {}
            Err(_) => unreachable!(),
        }
    }
}

fn is_of_epoch(running: Option<u64>, waits: &Waits) -> bool
    ensures { result ≡ of_epoch running waits.now }
{
    match running {
        None => false,
        Some(epoch) => waits.given.pass.epoch == epoch,
    }
}

/// Whether what waits is of the epoch that runs.
fn runs_on(waiting: &VecDeque<Waits>, running: Option<u64>) -> bool
    requires { OfOneEpoch waiting.now.items }
    ensures { filter (of_epoch running) waiting.now.items ≡ (if result then waiting.now.items else []) }
{
    match waiting.front() {
        None => true,
        Some(first) => is_of_epoch(running, first),
    }
}

/// Drops those of another epoch than the one that runs. They are all of one, so it looks at the first.
pub(crate) fn drop_others(waiting: &mut VecDeque<Waits>, running: Option<u64>)
    requires { OfOneEpoch waiting.old.items }
    ensures items { waiting.new.items ≡ filter (of_epoch running) waiting.old.items }
    ensures fewer { deque_len waiting.new ≤ deque_len waiting.old }
{
    if !runs_on(waiting, running) {
        waiting.clear();
    }
}
