use outside_io::{
    Clock, MemoryLink, MemorySpawner, Started, StdClock, StdSpawner, StepClock, TcpLink, Work,
    start,
};
use std::alloc::Global;
use std::sync::{Arc, Condvar, Mutex, Wait};
use std::test::Fail;

/// How many works ran to their end.
#[derive(Drop)]
struct Done {
    count: Mutex<u64>,
    rose: Condvar,
}

impl Done {
    fn new() -> Done {
        Done {
            count: Mutex::new(0),
            rose: Condvar::new(),
        }
    }

    fn rise<R: Wait>(&self, rt: &R) {
        let mut count = self.count.lock(rt);
        *count = count.saturating_add(1);
        self.rose.notify_all();
    }

    fn wait_for<R: Wait>(&self, rt: &R, wanted: u64) {
        let _count = self
            .rose
            .wait_while(rt, self.count.lock(rt), |count| *count < wanted);
    }
}

#[derive(Drop)]
struct Tell<R: Drop> {
    rt: R,
    done: Arc<Done>,
}

impl<R: Wait + Send + Drop + 'static> Work for Tell<R> {
    fn run(self) {
        self.done.rise(&self.rt);
    }
}

#[test]
fn started_works_run_and_listed_starts_fail(rt: HostRuntime) -> Result<(), Fail> {
    let done = Arc::new(rt.alloc(), Done::new())?;
    let mut spawner = MemorySpawner::new(rt.alloc(), StdSpawner::new(rt), &[2, 4])?;
    for started in [
        Started::Started,
        Started::Failed,
        Started::Started,
        Started::Failed,
        Started::Started,
    ] {
        let work = Tell {
            rt,
            done: Arc::try_clone(&done)?,
        };
        assert_eq!(rt; start(&mut spawner, work), started);
    }
    done.wait_for(&rt, 3);
    Ok(())
}

// 2020-01-01T00:00:00Z.
const A_PAST_MOMENT: u64 = 1_577_836_800_000;

#[test]
fn the_clock_of_the_machine_tells_the_time(rt: HostRuntime) {
    let mut clock = StdClock::new(rt);
    let first = clock.now();
    let second = clock.now();
    assert!(rt; A_PAST_MOMENT < first && first <= second);
}

// That values of this type may go into a thread is asked where this is called.
fn may_go_into_a_thread<T: Send + 'static>() -> bool {
    true
}

#[test]
fn links_and_clocks_may_go_into_a_thread(rt: HostRuntime) {
    assert!(rt; may_go_into_a_thread::<MemoryLink>());
    assert!(rt; may_go_into_a_thread::<TcpLink>());
    assert!(rt; may_go_into_a_thread::<StepClock>());
    assert!(rt; may_go_into_a_thread::<StdClock<HostRuntime>>());
}
