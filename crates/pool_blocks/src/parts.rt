//! Runs of any number of steps, as several pools one after the other.
ghost use Rattle.pool_blocks.specs.{Faults.{IsLentFault, IsPartFault}, Runs.{HasRun, HasRunInParts}, Stencils.{AreSteps, after}};
ghost use Rattle.pool_blocks.specs.Stencils.{block_graph, blocks_of};
ghost use Rattle.std.specs.Prelude.{◌≡◌, MatchResult, length};
ghost use Rattle.tp_work.specs.Outcomes.{IsWithinLimits};

use crate::events::steps_at_once;
use crate::fault::LentFault;
use crate::run::run_steps;
use crate::{Stencil, Steps};
use std::alloc::Global;
use std::sync::Wait;
use std::thread::Threads;
use tp_work::Config;

/// Returns the cells after any number of steps of a stencil, computed by pools of threads one after the other, each
/// over the cells that the one before returned. Refused with `BadInput` if the stencil does not take this number of
/// cells in blocks of this size, or they take no step ([`steps_at_once`]), and else as [`run_steps`] refuses the first
/// part that has no result.
pub fn run_in_parts<S: Stencil, R: Threads + Wait + Sync>(
    rt: &R,
    alloc: Global,
    stencil: S,
    cells: Vec<i64>,
    size: u32,
    steps: u64,
    config: Config,
) -> Result<Vec<i64>, LentFault>
    requires { IsWithinLimits config }
    ensures { MatchResult result
        (λ made. (made.items ≡ after (S.step stencil) steps cells.items)
        × HasRunInParts config.nodes config.workers (S.step stencil) (S.next stencil) cells.items size steps)
        (IsPartFault config.nodes config.workers (S.takes stencil) (S.step stencil) (S.next stencil)
        cells.items size steps) }
{
    if !stencil.takes(cells.len(), size) {
        return Err(LentFault::BadInput);
    }
    let Some(most) = steps_at_once(cells.len() as u64, size, config.nodes) else {
        return Err(LentFault::BadInput);
    };
    let mut made = cells;
    let mut left = steps;
    while left > 0 {
        let now = left.min(most);
        made = run_part(rt, alloc, stencil, &made, size, now as u32, config)?;
        left -= now;
    }
    Ok(made)
}

/// Returns the cells after a part of the steps, which is known to be taken.
fn run_part<S: Stencil, R: Threads + Wait + Sync>(
    rt: &R,
    alloc: Global,
    stencil: S,
    cells: &[i64],
    size: u32,
    steps: u32,
    config: Config,
) -> Result<Vec<i64>, LentFault>
    requires limits { IsWithinLimits config }
    requires taken { AreSteps (S.takes stencil) (length cells.now) size steps }
    ensures { MatchResult result
        (λ made. (made.items ≡ after (S.step stencil) steps cells.now)
        × HasRun config.nodes config.workers
        (block_graph (S.next stencil) cells.now (blocks_of (length cells.now) size) size steps))
        (IsLentFault config.nodes config.workers ⊥
        (block_graph (S.next stencil) cells.now (blocks_of (length cells.now) size) size steps)) }
{
    let Some(work) = Steps::new(stencil, cells, size, steps) else {
        unreachable!()
    };
    run_steps(rt, alloc, work, config)
}
