//! Running a kernel on threads.
ghost use Rattle.pool_kernels.specs.{Kernels.{kernel_graph, row_at}, RunFaults.{HasNoFault, IsGridFault, IsRunFault}};
ghost use Rattle.std.specs.Prelude.{◌≡◌, ◌-◌, IfOk, IfErr, OnOk, Some};
ghost use Rattle.tp_work.specs.Outcomes.{IsOutcome, IsWithinLimits};

use crate::fault::{GridFault, RunFault};
use crate::grid::{KernelGrid, last_row};
use crate::kernel::Kernel;
use crate::relation::Relation;
use crate::table::FeedTable;
use std::alloc::Global;
use std::sync::Wait;
use std::thread::Threads;
use tp_work::{Config, OpenGate, Outcome, run_pool};

/// The result of a run of a kernel.
#[derive(Drop)]
pub struct GridRun {
    /// The numbers of the last row, column after column.
    pub row: Vec<i64>,
    /// The outcome of the pool: the values of the last row, the numbers of tasks and messages, and the events.
    pub outcome: Outcome,
}

/// Returns the last row of a grid and the outcome, computed by a pool of threads. Refused with `Run` and the fault of
/// [`run_pool`] if the pool was refused, and with `Unmade` and its outcome if the allocation of the row failed.
pub fn run_grid<P: Relation + Send + Sync, K: Kernel, R: Threads + Wait + Sync>(
    rt: &R,
    alloc: Global,
    grid: &KernelGrid<P, K>,
    config: Config,
) -> Result<GridRun, RunFault>
    requires { IsWithinLimits config }
    ensures row { IfOk result (λ run.
        row_at (P.relation grid.now.table.now.relation grid.now.table.now.width) (K.rule grid.now.kernel) grid.now.table.now.width
        (grid.now.table.now.steps - 1) ≡ Some run.row.items) }
    ensures outcome { IfOk result (λ run. IsOutcome config.nodes config.workers
        (kernel_graph (P.relation grid.now.table.now.relation grid.now.table.now.width) (K.rule grid.now.kernel)
        grid.now.table.now.width grid.now.table.now.steps) run.outcome) }
    ensures refused { IfErr result (IsRunFault config.nodes config.workers
        (kernel_graph (P.relation grid.now.table.now.relation grid.now.table.now.width) (K.rule grid.now.kernel)
        grid.now.table.now.width grid.now.table.now.steps)) }
{
    match run_pool(rt, alloc, grid.copied(), config, &OpenGate) {
        Ok(outcome) => match last_row(alloc, grid, &outcome.results) {
            Ok(row) => Ok(GridRun { row, outcome }),
            Err(_) => Err(RunFault::Unmade(outcome)),
        },
        Err(fault) => Err(RunFault::Run(fault)),
    }
}

/// Returns the last row of the grid of `steps` rows of `width` columns over a relation, in which each task computes the
/// kernel, and the outcome of its pool. Refused with `Table` if there is no table of the grid ([`FeedTable::new`]), and
/// else with `Run`, as [`run_grid`] is refused.
pub fn run_kernel<P: Relation + Send + Sync, K: Kernel, R: Threads + Wait + Sync>(
    rt: &R,
    alloc: Global,
    relation: P,
    kernel: K,
    width: u32,
    steps: u32,
    config: Config,
) -> Result<GridRun, GridFault>
    requires { IsWithinLimits config }
    ensures row { IfOk result (λ run.
        row_at (P.relation relation width) (K.rule kernel) width (steps - 1) ≡ Some run.row.items) }
    ensures outcome { IfOk result (λ run. IsOutcome config.nodes config.workers
        (kernel_graph (P.relation relation width) (K.rule kernel) width steps) run.outcome) }
    ensures no_fault { OnOk result (HasNoFault (P.relation relation width) width steps) }
    ensures refused { IfErr result
        (IsGridFault config.nodes config.workers (P.relation relation width) (K.rule kernel) width steps) }
{
    let table = match FeedTable::new(alloc, relation, width, steps) {
        Ok(table) => table,
        Err(fault) => return Err(GridFault::Table(fault)),
    };
    match run_grid(rt, alloc, &KernelGrid::new(&table, kernel), config) {
        Ok(run) => Ok(run),
        Err(fault) => Err(GridFault::Run(fault)),
    }
}
