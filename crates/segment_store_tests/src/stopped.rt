ghost use Rattle.std.specs.Prelude.{⊤, MatchOption};
ghost use Rattle.member_disk.specs.MemoryDisks.{state_of};
ghost use Rattle.segment_store_tests.specs.Backed.{IsBacked};

use crate::chunks::message;
use crate::over_memory::{fail_call, perform, recover, write};
use chunk_format::Stored;
use epoch_coordinator::Job;
use member_disk::MemoryDisk;
use segment_store::{MemberStore, Recovery, StoreFault};
use std::alloc::Global;

// A job to be done.
#[derive(Clone, Copy, Debug)]
pub(crate) enum Task {
    // A message of so many bytes is written.
    Write(usize),
    // The log is cut to this end.
    Cut(u64),
    // This epoch is promised.
    Promise(u64),
}

// A message that makes a segment alone so large that the next chunk begins a new one.
const FULL: usize = 262_084;

// The messages of a log, each by its bytes, a job behind them, and how many calls of the disk it makes. Then what is
// recovered where its first call fails, its second, and so on, and where none fails: of each image.
struct Case {
    log: &'static [usize],
    task: Task,
    calls: u64,
    left: &'static [[u64; 4]],
}

// How many chunks are left.
const LOGS: [Case; 4] = [
    // A write of the first chunk, and of another.
    Case {
        log: &[],
        task: Task::Write(8),
        calls: 4,
        left: &[[0; 4], [0; 4], [0; 4], [0, 1, 0, 0], [1; 4]],
    },
    Case {
        log: &[8],
        task: Task::Write(8),
        calls: 4,
        left: &[[1; 4], [1; 4], [1; 4], [1, 2, 1, 1], [2; 4]],
    },
    // A cut in the last segment, and one that changes nothing.
    Case {
        log: &[8, 8, 8],
        task: Task::Cut(1),
        calls: 4,
        left: &[[3; 4], [3, 1, 1, 1], [1; 4], [1; 4], [1; 4]],
    },
    Case {
        log: &[8, 8],
        task: Task::Cut(2),
        calls: 0,
        left: &[[2; 4]],
    },
];

// The same of logs with large chunks.
const LARGE_LOGS: [Case; 5] = [
    // A write of a large chunk.
    Case {
        log: &[8, 8],
        task: Task::Write(1_000_000),
        calls: 4,
        left: &[[2; 4], [2; 4], [2; 4], [2, 3, 2, 2], [3; 4]],
    },
    // A write that begins a segment.
    Case {
        log: &[FULL],
        task: Task::Write(8),
        calls: 4,
        left: &[[1; 4], [1; 4], [1; 4], [1, 2, 1, 1], [2; 4]],
    },
    // A cut that removes a segment.
    Case {
        log: &[8, FULL, 8, 8],
        task: Task::Cut(2),
        calls: 2,
        left: &[[4; 4], [2; 4], [2; 4]],
    },
    // A cut across three segments into a fourth.
    Case {
        log: &[8, FULL, FULL, FULL, 8, 8],
        task: Task::Cut(1),
        calls: 10,
        left: &[
            [6; 4],
            [4; 4],
            [4; 4],
            [3; 4],
            [3; 4],
            [2; 4],
            [2; 4],
            [2, 1, 1, 1],
            [1; 4],
            [1; 4],
            [1; 4],
        ],
    },
    // A cut of all.
    Case {
        log: &[FULL, FULL, 8],
        task: Task::Cut(0),
        calls: 8,
        left: &[
            [3; 4],
            [2; 4],
            [2; 4],
            [1; 4],
            [1; 4],
            [1, 0, 0, 0],
            [0; 4],
            [0; 4],
            [0; 4],
        ],
    },
];

// Which epoch is promised.
const PROMISES: [Case; 2] = [
    Case {
        log: &[],
        task: Task::Promise(7),
        calls: 4,
        left: &[[0; 4], [0; 4], [0; 4], [0, 7, 0, 7], [7; 4]],
    },
    Case {
        log: &[8, 8],
        task: Task::Promise(u64::MAX),
        calls: 4,
        left: &[
            [0; 4],
            [0; 4],
            [0; 4],
            [0, u64::MAX, 0, u64::MAX],
            [u64::MAX; 4],
        ],
    },
];

// A store with a log of such messages.
pub(crate) fn begin(alloc: Global, disk: &mut MemoryDisk, log: &[usize]) -> Option<MemberStore>
    ensures { MatchOption result ⊤ (λ s. IsBacked s (state_of disk.new.streams disk.new.faults)) }
{
    let Ok(
        Recovery {
            mut store,
            recovered: _,
        },
    ) = recover(alloc, disk)
    else {
        return None;
    };
    for first in 0..log.len() {
        if !write(alloc, disk, &mut store, first as u64, log[first]) {
            return None;
        }
    }
    Some(store)
}

pub(crate) fn job_of(alloc: Global, task: Task, end: u64) -> Option<Job> {
    match task {
        Task::Write(len) => {
            let chunk = message(alloc, end, len).ok()?;
            Some(Job::Write(chunk))
        }
        Task::Cut(end) => Some(Job::Cut(end)),
        Task::Promise(epoch) => Some(Job::Promise(epoch)),
    }
}

// Whether chunks are the first of a log, each with a message of these lengths.
pub(crate) fn is_front(chunks: &[Stored], log: &[usize]) -> bool {
    if chunks.len() > log.len() {
        return false;
    }
    for (at, (chunk, len)) in chunks.iter().zip(log).enumerate() {
        let header = chunk.header();
        if header.first != at as u64 || header.payload_len as usize != len.saturating_add(4) {
            return false;
        }
    }
    true
}

// How many chunks are recovered, and the promise, where all but the last are these messages.
pub(crate) fn left(alloc: Global, disk: &mut MemoryDisk, log: &[usize]) -> Option<(u64, u64)> {
    let Ok(Recovery { store, recovered }) = recover(alloc, disk) else {
        return None;
    };
    let chunks = recovered.chunks.as_slice();
    let known = chunks.len().min(log.len());
    if !is_front(&chunks[..known], log) || store.promise() != recovered.promise {
        return None;
    }
    Some((chunks.len() as u64, recovered.promise))
}

// Does the job of a case, of which the nth call fails. None where it then answers otherwise than it should.
fn stop(alloc: Global, disk: &mut MemoryDisk, case: &Case, n: u64) -> Option<()> {
    let mut store = begin(alloc, disk, case.log)?;
    let job = job_of(alloc, case.task, case.log.len() as u64)?;
    fail_call(disk, 1, n.max(1)).ok()?;
    let is_right = match perform(disk, &mut store, 1, &job) {
        Ok(receipt) => n > case.calls && receipt.member() == 1,
        Err(StoreFault::Disk) => n <= case.calls,
        Err(_) => false,
    };
    if is_right { Some(()) } else { None }
}

// What is recovered after a job of which the nth call failed, and a crash; and again after another crash.
fn after_crash(alloc: Global, case: &Case, n: u64, image: u8) -> Option<(u64, u64)> {
    let mut disk = MemoryDisk::new(alloc);
    stop(alloc, &mut disk, case, n)?;
    disk.crash(1, image.min(3)).ok()?;
    let first = left(alloc, &mut disk, case.log)?;
    disk.crash(1, 0).ok()?;
    let second = left(alloc, &mut disk, case.log)?;
    if first == second { Some(first) } else { None }
}

// What is recovered after such a job without a crash. A setting that is left over is first forgotten by a crash that
// changes nothing.
fn after_fault(alloc: Global, case: &Case, n: u64) -> Option<(u64, u64)> {
    let mut disk = MemoryDisk::new(alloc);
    stop(alloc, &mut disk, case, n)?;
    if n > case.calls {
        disk.crash(1, 1).ok()?;
    }
    let first = left(alloc, &mut disk, case.log)?;
    disk.crash(1, 0).ok()?;
    let second = left(alloc, &mut disk, case.log)?;
    if first == second { Some(first) } else { None }
}

// The first call and image of a case after which something else is recovered, counted from 1; the image after 4 is none.
fn wrong_log(alloc: Global, case: &Case) -> (u64, u8) {
    let mut n = 0u64;
    for wants in case.left {
        n = n.saturating_add(1);
        for (image, want) in (0u8..4).zip(*wants) {
            if after_crash(alloc, case, n, image) != Some((want, 0)) {
                return (n, image);
            }
        }
        if after_fault(alloc, case, n) != Some((wants[1], 0)) {
            return (n, 4);
        }
    }
    (0, 0)
}

fn wrong_promise(alloc: Global, case: &Case) -> (u64, u8) {
    let chunks = case.log.len() as u64;
    let mut n = 0u64;
    for wants in case.left {
        n = n.saturating_add(1);
        for (image, want) in (0u8..4).zip(*wants) {
            if after_crash(alloc, case, n, image) != Some((chunks, want)) {
                return (n, image);
            }
        }
        if after_fault(alloc, case, n) != Some((chunks, wants[1])) {
            return (n, 4);
        }
    }
    (0, 0)
}

#[test]
fn a_job_on_the_log_is_stopped_at_each_call(rt: HostRuntime) {
    for case in &LOGS {
        assert_eq!(rt;
            wrong_log(rt.alloc(), case),
            (0, 0),
            "{:?} behind {:?}",
            case.task,
            case.log
        );
    }
}

#[test]
fn a_job_on_large_chunks_is_stopped_at_each_call(rt: HostRuntime) {
    for case in &LARGE_LOGS {
        assert_eq!(rt;
            wrong_log(rt.alloc(), case),
            (0, 0),
            "{:?} behind {:?}",
            case.task,
            case.log
        );
    }
}

#[test]
fn a_promise_is_stopped_at_each_call(rt: HostRuntime) {
    for case in &PROMISES {
        assert_eq!(rt;
            wrong_promise(rt.alloc(), case),
            (0, 0),
            "{:?} behind {:?}",
            case.task,
            case.log
        );
    }
}
