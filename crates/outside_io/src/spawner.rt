ghost use Rattle.std.specs.Prelude.{◌≡◌, ℕ, List, Option, IsTrue, true, false};
ghost use Rattle.outside_io.specs.Causes.{HasCause};
ghost use Rattle.outside_io.specs.Spawners.{IsListed, after_start};

use std::thread;
use std::thread::Threads;

/// What is to run in a thread of its own.
pub trait Work: Send + Drop + 'static {
    /// Runs it to its end. It may take memory.
    fn run(self);
}

/// What came of a start.
#[derive(Clone, Copy, Debug, PartialEq, Eq)]
pub enum Started {
    /// A thread was made that runs the work.
    Started,
    /// No thread was made, and the work was dropped.
    Failed,
}

/// What threads are started by. [`start`] starts one.
pub trait Spawner: Drop {
    type Rt: Threads;

    // The numbers, from 1, of the starts that are to fail, and the starts so far, where the spawner
    // tells them. No call changes whether it does.
    ghost starts: { Self → Option (List ℕ × ℕ) };

    // How many starts failed. At its greatest value the count stands still.
    ghost faults: { Self → ℕ };

    /// The handle by which threads are made.
    fn threads(&self) -> &Self::Rt;

    /// Begins a start, and tells whether it is to fail, which then counts as a failure.
    fn is_to_fail(&mut self) -> bool
        ensures listed { IsListed (starts self.old) → IsTrue result }
        ensures starts { starts self.new ≡ after_start (starts self.old) }
        ensures cause { HasCause (faults self.old) (faults self.new) (IsTrue result) }
        ensures unfaulted { result ≡ false → faults self.new ≡ faults self.old };

    /// Counts a start for which no thread could be made.
    fn count_fault(&mut self)
        ensures starts { starts self.new ≡ starts self.old }
        ensures cause { HasCause (faults self.old) (faults self.new) (Unit {0}) };
}

/// Starts a work in a thread of its own, which nobody joins. A work that is not started is dropped.
/// It fails where the spawner says so, and where no thread can be made.
pub fn start<P: Spawner, W: Work>(spawner: &mut P, work: W) -> Started
    ensures listed { IsListed (P.starts spawner.old) → result ≡ Started.Failed }
    ensures starts { P.starts spawner.new ≡ after_start (P.starts spawner.old) }
    ensures cause { HasCause (P.faults spawner.old) (P.faults spawner.new)
        (result ≡ Started.Failed) }
    ensures unfaulted { result ≡ Started.Started → P.faults spawner.new ≡ P.faults spawner.old }
{
    if spawner.is_to_fail() {
        return Started::Failed;
    }
    match thread::spawn(spawner.threads(), move || work.run()) {
        Ok(_) => Started::Started,
        Err(_) => {
            spawner.count_fault();
            Started::Failed
        }
    }
}
