//! Runs that are watched: their tasks are counted for a progress line, or timed for a profile. Each has the contract of
//! the run that is not watched.

ghost use Rattle.pool_blocks.specs.{Runs.HasRunInParts, Stencils.after};
ghost use Rattle.std.specs.Prelude.{◌≡◌, ⊤, IfOk};
ghost use Rattle.tp_work.specs.Outcomes.{IsOutcome, IsWithinLimits};

use pool_blocks::{LentFault, Stencil, run_in_parts_counted};
use std::alloc::{AllocError, Global};
use std::rt::Clock;
use std::sync::Wait;
use std::thread::Threads;
use tp_graph::Graph;
use tp_shell::{Log, Timed};
use tp_work::{Config, Outcome, Progress, run_pool_counted};

/// What watches a run.
#[derive(Clone, Copy)]
pub(crate) struct Watch<'a> {
    /// Counts the tasks that are done.
    pub(crate) progress: Option<&'a Progress>,
    /// Records when each task's body runs.
    pub(crate) log: Option<&'a Log>,
}

/// A stencil whose blocks are timed. It does not learn which block it computes, so all are recorded as task 0 of node 0.
struct TimedBlocks<'a, S: Copy, R> {
    inner: S,
    rt: &'a R,
    log: &'a Log,
}

impl<'a, S: Copy, R> Clone for TimedBlocks<'a, S, R> {
    ghost is_clone = { λ x y. y.inner ≡ x.inner };

    ghost is_infallible = { λ _. ⊤ };

    fn clone(&self) -> Result<Self, AllocError> {
        Ok(TimedBlocks {
            inner: self.inner,
            rt: self.rt,
            log: self.log,
        })
    }
}

impl<'a, S: Copy, R> Copy for TimedBlocks<'a, S, R> {}

impl<'a, S: Stencil, R: Clock + Wait + Sync> Stencil for TimedBlocks<'a, S, R> {
    ghost step = { λ t. S.step t.inner };

    ghost next = { λ t. S.next t.inner };

    ghost takes = { λ t. S.takes t.inner };

    ghost long = { λ t. S.long t.inner };

    ghost by_blocks = { λ t. S.by_blocks t.inner };

    ghost fit = { λ t. S.fit t.inner };

    #[inline]
    fn takes(&self, cells: usize, size: u32) -> bool {
        self.inner.takes(cells, size)
    }

    /// Computes the stencil's own step, and then records its times.
    #[inline]
    fn next(
        &self,
        alloc: Global,
        before: &[i64],
        own: &[i64],
        behind: &[i64],
    ) -> Result<Vec<i64>, AllocError> {
        let begin = self.log.now(self.rt);
        let made = self.inner.next(alloc, before, own, behind);
        self.log.record(self.rt, 0, 0, begin);
        made
    }
}

/// Returns the cells after the steps, computed in blocks of `size` cells.
pub(crate) fn run_in_parts_watched<S: Stencil, R: Threads + Wait + Sync + Clock>(
    rt: &R,
    alloc: Global,
    stencil: S,
    cells: Vec<i64>,
    size: u32,
    steps: u64,
    config: Config,
    watch: Watch,
) -> Result<Vec<i64>, LentFault>
    requires { IsWithinLimits config }
    ensures { IfOk result (λ made. (made.items ≡ after (S.step stencil) steps cells.items)
        × HasRunInParts config.nodes config.workers (S.step stencil) (S.next stencil) cells.items size steps) }
{
    let progress = watch.progress;
    let Some(log) = watch.log else {
        let made = run_in_parts_counted(rt, alloc, stencil, cells, size, steps, config, progress)?;
        return Ok(made);
    };
    let timed = TimedBlocks {
        inner: stencil,
        rt,
        log,
    };
    let made = run_in_parts_counted(rt, alloc, timed, cells, size, steps, config, progress)?;
    Ok(made)
}

/// Returns the outcome of a pool.
pub(crate) fn run_pool_watched<G: Graph, R: Threads + Wait + Sync + Clock>(
    rt: &R,
    alloc: Global,
    graph: G,
    config: Config,
    watch: Watch,
) -> Result<Outcome, tp_work::Fault>
    requires { IsWithinLimits config }
    ensures outcome { IfOk result (IsOutcome config.nodes config.workers (G.meaning graph)) }
{
    match watch.log {
        Some(log) => run_pool_timed(rt, alloc, graph, config, log, watch.progress),
        None => run_pool_counted(rt, alloc, graph, config, watch.progress),
    }
}

/// Runs the pool with its tasks timed.
fn run_pool_timed<G: Graph, R: Threads + Wait + Sync + Clock>(
    rt: &R,
    alloc: Global,
    graph: G,
    config: Config,
    log: &Log,
    progress: Option<&Progress>,
) -> Result<Outcome, tp_work::Fault>
    requires { IsWithinLimits config }
    ensures { IfOk result (IsOutcome config.nodes config.workers (G.meaning graph)) }
{
    let timed = Timed::new(graph, config.nodes, rt, log);
    run_pool_counted(rt, alloc, timed, config, progress)
}
