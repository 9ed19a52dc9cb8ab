//! The hub in memory.

ghost use Rattle.std.specs.Prelude.{◌≤◌};

use crate::row_tables::{PUBLISHING, SUBSCRIBING, TURNING};
use crate::rows::{RowStep, new_tables, wrong_row};
use hub_call_tests::answer::{DONE, FAILED, MEMORY, NONE};
use hub_call_tests::tables::{
    CONFIRMS, ENDED, EPOCHS, GROUPS, GROUPS_OF_PARTITIONS, OFFERS, PASSES, READING, STALE_PASSES,
    STORED_OFFSETS, STREAMS, SUPER_STREAMS,
};
use hub_call_tests::{Epochs, Step, Word, wrong_at};
use memory_hub::MemoryHub;
use std::alloc::Global;

// The hub's own calls.
struct ByCalls;

impl Epochs<MemoryHub> for ByCalls {
    fn stop(&self, hub: &mut MemoryHub, stream: u32) {
        hub.stop(stream);
    }

    fn begin(&self, hub: &mut MemoryHub, stream: u32) -> Option<u64> {
        hub.begin(stream)
    }
}

const S: Word = Word::Bytes(b"s");

const O: Word = Word::Bytes(b"o");

// Of the changes of the catalog each second one is made.
const FAILING: &[(Step, i64)] = &[
    (Step::Create(S), FAILED),
    (Step::Find(b"s"), NONE),
    (Step::Create(S), DONE),
    (Step::Delete(S), FAILED),
    (Step::Find(b"s"), 1_01),
    (Step::Delete(S), DONE),
    (Step::CreateSuper(O, &[S], &[S]), FAILED),
    (Step::Parts(O, &[]), NONE),
    (Step::CreateSuper(O, &[S], &[S]), DONE),
    (Step::DeleteSuper(O), FAILED),
    (Step::Parts(O, &[b"s"]), 1),
    (Step::DeleteSuper(O), DONE),
    (Step::Parts(O, &[]), NONE),
];

// Steps of hubs of at most 16 live streams.
const SCRIPTS: [&[(Step, i64)]; 11] = [
    SUPER_STREAMS,
    PASSES,
    OFFERS,
    STALE_PASSES,
    CONFIRMS,
    STORED_OFFSETS,
    READING,
    EPOCHS,
    ENDED,
    GROUPS,
    GROUPS_OF_PARTITIONS,
];

const ROWS: [&[(RowStep, i64)]; 3] = [PUBLISHING, TURNING, SUBSCRIBING];

const NO_MEMORY: (usize, i64) = (1_000, MEMORY);

// What `wrong_at` tells of a new hub of at most so many live streams, of whose changes these fail.
fn wrong_of(alloc: Global, limit: u32, fails: &[u64], steps: &[(Step, i64)]) -> (usize, i64)
    requires { limit ≤ 16 }
{
    match MemoryHub::new(alloc, limit, fails) {
        Ok(mut hub) => wrong_at(alloc, &ByCalls, &mut hub, steps),
        Err(_) => NO_MEMORY,
    }
}

// What `wrong_row` tells of session 1 over a new hub.
fn wrong_row_of(alloc: Global, rows: &[(RowStep, i64)]) -> (usize, i64) {
    let mut tables = new_tables(alloc, 1);
    match MemoryHub::new(alloc, 16, &[]) {
        Ok(mut hub) => wrong_row(alloc, &ByCalls, &mut tables, &mut hub, rows),
        Err(_) => NO_MEMORY,
    }
}

#[test]
fn calls_answer_as_a_hub(rt: HostRuntime) {
    for at in 0..SCRIPTS.len() {
        assert_eq!(rt;
            wrong_of(rt.alloc(), 16, &[], SCRIPTS[at]),
            (0, 0),
            "script {at}"
        );
    }
}

#[test]
fn live_streams_have_a_limit(rt: HostRuntime) {
    assert_eq!(rt; wrong_of(rt.alloc(), 2, &[], STREAMS), (0, 0));
}

#[test]
fn listed_changes_fail(rt: HostRuntime) {
    assert_eq!(rt; wrong_of(rt.alloc(), 16, &[1, 3, 5, 7], FAILING), (0, 0));
}

#[test]
fn rows_of_a_session_run(rt: HostRuntime) {
    for at in 0..ROWS.len() {
        assert_eq!(rt; wrong_row_of(rt.alloc(), ROWS[at]), (0, 0), "rows {at}");
    }
}
