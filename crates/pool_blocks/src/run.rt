//! Running the steps that fit in one pool.
ghost use Rattle.pool_blocks.specs.{Faults.IsLentFault, Runs.HasRun, Stencils.{after, block_graph}};
ghost use Rattle.std.specs.Prelude.{◌≡◌, MatchResult};
ghost use Rattle.tp_work.specs.Outcomes.{IsWithinLimits};

use crate::fault::LentFault;
use crate::{Stencil, Steps, cells_of};
use std::alloc::Global;
use std::sync::Wait;
use std::thread::Threads;
use tp_base::Refusal;
use tp_work::{Config, OpenGate, run_pool};

/// Returns the cells after the given steps of a stencil, computed by one pool of threads. Refused with `Run` and the
/// fault of [`run_pool`] if the pool was refused, and with `Unmade` and its outcome if the allocation of the cells
/// failed.
pub fn run_steps<S: Stencil, R: Threads + Wait + Sync>(
    rt: &R,
    alloc: Global,
    work: Steps<S>,
    config: Config,
) -> Result<Vec<i64>, LentFault>
    requires { IsWithinLimits config }
    ensures { MatchResult result
        (λ made. (made.items ≡ after (S.step work.entry.stencil) work.entry.steps work.entry.cells.now)
        × HasRun config.nodes config.workers
        (block_graph (S.next work.entry.stencil) work.entry.cells.now work.entry.blocks work.entry.size
        work.entry.steps))
        (IsLentFault config.nodes config.workers ⊥
        (block_graph (S.next work.entry.stencil) work.entry.cells.now work.entry.blocks work.entry.size
        work.entry.steps)) }
{
    match run_pool(rt, alloc, work.copied(), config, &OpenGate) {
        Ok(outcome) => match cells_of(alloc, &work, &outcome.results) {
            Ok(made) => Ok(made),
            Err(refusal) => match refusal {
                Refusal::NoMemory => Err(LentFault::Unmade(outcome)),
                // In a pool that ended each task has a result, so no block is missing.
                _ => unreachable!(),
            },
        },
        Err(fault) => Err(LentFault::Run(fault)),
    }
}
