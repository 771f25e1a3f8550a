//! Runs of stencils whose tasks are counted for a progress line.
ghost use Rattle.pool_blocks.specs.{Faults.IsPartFault, Runs.HasRunInParts, Stencils.after};
ghost use Rattle.std.specs.Prelude.{◌≡◌, MatchResult};
ghost use Rattle.tp_work.specs.Outcomes.{IsWithinLimits};

use crate::Stencil;
use crate::events::steps_at_once;
use crate::fault::LentFault;
use crate::parts::run_in_parts;
use std::alloc::{AllocError, Global};
use std::sync::Wait;
use std::thread::Threads;
use tp_work::{Config, Counted, Plan, Progress};

impl<'a, S: Stencil, R: Wait + Sync> Stencil for Counted<'a, S, R> {
    ghost step = { λ c. S.step c.inner };

    ghost next = { λ c. S.next c.inner };

    ghost takes = { λ c. S.takes c.inner };

    ghost long = { λ c. S.long c.inner };

    ghost by_blocks = { λ c. S.by_blocks c.inner };

    ghost fit = { λ c. S.fit c.inner };

    #[inline]
    fn takes(&self, cells: usize, size: u32) -> bool {
        self.inner.takes(cells, size)
    }

    /// Computes the stencil's own step, and then counts the block as a task.
    #[inline]
    fn next(
        &self,
        alloc: Global,
        before: &[i64],
        own: &[i64],
        behind: &[i64],
    ) -> Result<Vec<i64>, AllocError> {
        let made = self.inner.next(alloc, before, own, behind);
        self.count();
        made
    }
}

/// Runs a stencil like [`run_in_parts`], and counts each block after a step as a task if there is a progress.
pub fn run_in_parts_counted<S: Stencil, R: Threads + Wait + Sync>(
    rt: &R,
    alloc: Global,
    stencil: S,
    cells: Vec<i64>,
    size: u32,
    steps: u64,
    config: Config,
    progress: Option<&Progress>,
) -> Result<Vec<i64>, LentFault>
    requires { IsWithinLimits config }
    ensures { MatchResult result
        (λ made. (made.items ≡ after (S.step stencil) steps cells.items)
        × HasRunInParts config.nodes config.workers (S.step stencil) (S.next stencil) cells.items size steps)
        (IsPartFault config.nodes config.workers (S.takes stencil) (S.step stencil) (S.next stencil)
        cells.items size steps) }
{
    match progress {
        Some(progress) => {
            run_in_parts_told(rt, alloc, stencil, cells, size, steps, config, progress)
        }
        None => run_in_parts(rt, alloc, stencil, cells, size, steps, config),
    }
}

/// Runs the stencil with its tasks counted.
fn run_in_parts_told<S: Stencil, R: Threads + Wait + Sync>(
    rt: &R,
    alloc: Global,
    stencil: S,
    cells: Vec<i64>,
    size: u32,
    steps: u64,
    config: Config,
    progress: &Progress,
) -> Result<Vec<i64>, LentFault>
    requires { IsWithinLimits config }
    ensures { MatchResult result
        (λ made. (made.items ≡ after (S.step stencil) steps cells.items)
        × HasRunInParts config.nodes config.workers (S.step stencil) (S.next stencil) cells.items size steps)
        (IsPartFault config.nodes config.workers (S.takes stencil) (S.step stencil) (S.next stencil)
        cells.items size steps) }
{
    begin_steps(rt, progress, cells.len(), size, steps, config.nodes);
    let counted = Counted::new(rt, stencil, progress);
    run_in_parts(rt, alloc, counted, cells, size, steps, config)
}

/// Sets the plan: this many steps of `cells` cells in blocks of `size`, in parts of as many steps as one run takes at
/// `nodes` nodes.
fn begin_steps<R: Wait>(
    rt: &R,
    progress: &Progress,
    cells: usize,
    size: u32,
    steps: u64,
    nodes: u32,
) {
    let Some(part) = steps_at_once(cells as u64, size, nodes) else {
        return;
    };
    if size == 0 {
        return;
    }
    let tasks = (cells as u64).div_ceil(u64::from(size));
    progress.begin(rt, Plan { tasks, steps, part });
}
