//! The runs of a list of chunks.

ghost use Rattle.std.specs.Prelude.{◌≡◌, OnOk, OnErr, IfOk};
ghost use Rattle.chunk_format.specs.Chunks.{end_of_chunk};
ghost use Rattle.epoch_coordinator.specs.Tails.{runs_of};
ghost use Rattle.member_core.specs.Kept.{with_run};

use crate::search::tail_after;
use chunk_format::Stored;
use epoch_coordinator::Run;
use std::alloc::{AllocError, Global};

/// Adds the run of a chunk that follows. Where memory runs out nothing changes.
pub(crate) fn add_run(runs: &mut Vec<Run>, run: Run) -> Result<(), AllocError>
    ensures ok { OnOk result (runs.new.items ≡ with_run runs.old.items run) }
    ensures err { OnErr result (runs.new.items ≡ runs.old.items) }
{
    let len = runs.len();
    if len > 0 {
        if runs[len - 1].epoch == run.epoch {
            runs[len - 1] = run;
            return Ok(());
        }
    }
    match runs.push(run) {
        Ok(()) => Ok(()),
        Err(_) => Err(AllocError),
    }
}

/// The run of a chunk alone.
pub(crate) fn run_of(chunk: &Stored) -> Run
    ensures epoch { result.epoch ≡ chunk.now.epoch }
    ensures end { result.end ≡ end_of_chunk chunk.now }
{
    let tail = tail_after(chunk);
    Run {
        epoch: tail.epoch,
        end: tail.end,
    }
}

/// The runs of these chunks.
pub(crate) fn runs_of(alloc: Global, chunks: &[Stored]) -> Result<Vec<Run>, AllocError>
    ensures { IfOk result (λ runs. runs.items ≡ runs_of chunks.now) }
{
    let mut runs = Vec::new(alloc);
    for chunk in chunks {
        add_run(&mut runs, run_of(chunk))?;
    }
    Ok(runs)
}
