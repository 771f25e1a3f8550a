//! A grid of tasks with a kernel, as a graph, and its last row from a pool's results.
ghost use Rattle.pool_kernels.specs.{GridLaws.grid_lawful, Kernels.{kernel_graph, row_at, rule_in}};
ghost use Rattle.std.specs.Prelude.{◌≡◌, ◌-◌, ◌*◌, IfOk, Some, ⊤};
ghost use Rattle.tp_graph.specs.{Found.HasEachOnce, Left.AreKept};

use crate::kernel::Kernel;
use crate::relation::Relation;
use crate::table::FeedTable;
use pool_blocks::joined;
use std::alloc::{AllocError, Global};
use tp_base::{NodeId, Refusal, TaskId};
use tp_graph::{Graph, Value};

/// The tasks of a table as a graph, each of which computes a kernel. Each node has a range of the columns. A run returns
/// the values of the last row.
pub struct KernelGrid<'a, P: Relation, K: Kernel> {
    table: &'a FeedTable<P>,
    kernel: K,
}

impl<'a, P: Relation, K: Kernel> KernelGrid<'a, P, K> {
    /// Returns the tasks of a table, with a kernel.
    pub fn new(table: &'a FeedTable<P>, kernel: K) -> Self
        ensures table { result.table.now ≡ table.now }
        ensures kernel { result.kernel ≡ kernel }
    {
        KernelGrid { table, kernel }
    }

    /// Returns the same grid again, which has the same graph.
    pub(crate) fn copied(&self) -> Self
        ensures { kernel_graph (P.relation result.table.now.relation result.table.now.width) (K.rule result.kernel)
            result.table.now.width result.table.now.steps
            ≡ kernel_graph (P.relation self.now.table.now.relation self.now.table.now.width) (K.rule self.now.kernel)
            self.now.table.now.width self.now.table.now.steps }
    {
        KernelGrid {
            table: self.table,
            kernel: self.kernel,
        }
    }
}

impl<'a, P: Relation, K: Kernel> Clone for KernelGrid<'a, P, K> {
    ghost is_clone = { λ grid copy. (copy.table.now ≡ grid.table.now) × (copy.kernel ≡ grid.kernel) };

    ghost is_infallible = { λ _. ⊤ };

    fn clone(&self) -> Result<Self, AllocError> {
        Ok(KernelGrid {
            table: self.table,
            kernel: self.kernel,
        })
    }
}

impl<'a, P: Relation, K: Kernel> Copy for KernelGrid<'a, P, K> {}

#[tactic(auto, unfolding(crate::specs::Grids::grid_graph))]
impl<'a, P: Relation + Send + Sync, K: Kernel> Graph for KernelGrid<'a, P, K> {
    ghost meaning = { λ g.
        kernel_graph (P.relation g.table.now.relation g.table.now.width) (K.rule g.kernel) g.table.now.width g.table.now.steps };

    ghost lawful = { λ g.
        grid_lawful (P.relation g.table.now.relation g.table.now.width) g.table.now.width g.table.now.steps
        (rule_in (K.rule g.kernel) g.table.now.width) g.table.now.sizes.0 g.table.now.narrow };

    fn tasks(&self) -> u32 {
        self.table.steps() * self.table.width()
    }

    fn arity(&self, task: TaskId) -> u8 {
        self.table.spot(task).arity
    }

    fn class(&self, _task: TaskId) -> u8 {
        0
    }

    fn feeds(&self, task: TaskId) -> u32 {
        self.table.spot(task).feeds
    }

    fn feed(&self, task: TaskId, turn: u32) -> (TaskId, u8) {
        let spot = self.table.spot(task);
        let output = self.table.output(task, spot, turn);
        let next_row = task.0 - spot.column + self.table.width();
        (TaskId(next_row + output.column), output.slot)
    }

    fn home(&self, task: TaskId, nodes: u32) -> NodeId {
        NodeId(self.table.spot(task).column * nodes / self.table.width())
    }

    /// Keeps the last row.
    fn keeps(&self, task: TaskId) -> bool {
        (self.table.steps() - 1) * self.table.width() <= task.0
    }

    fn body(&self, alloc: Global, task: TaskId, inputs: &[Value]) -> Result<Value, Refusal> {
        let row = task.0 / self.table.width();
        let column = self.table.spot(task).column;
        self.kernel.compute(alloc, row, column, inputs)
    }
}

/// Returns the numbers of the last row of a grid, column after column: those that the row-by-row method computes. There
/// has to be one result of each task, in any order, and those of the last row have to be their values.
pub fn last_row<P: Relation, K: Kernel>(
    alloc: Global,
    grid: &KernelGrid<P, K>,
    results: &[(TaskId, Value)],
) -> Result<Vec<i64>, AllocError>
    requires right { AreKept
        (kernel_graph (P.relation grid.now.table.now.relation grid.now.table.now.width) (K.rule grid.now.kernel)
        grid.now.table.now.width grid.now.table.now.steps) results.now }
    requires once { HasEachOnce (grid.now.table.now.steps * grid.now.table.now.width) results.now }
    ensures { IfOk result (λ row.
        row_at (P.relation grid.now.table.now.relation grid.now.table.now.width) (K.rule grid.now.kernel) grid.now.table.now.width
        (grid.now.table.now.steps - 1) ≡ Some row.items) }
{
    let (width, steps) = (grid.table.width(), grid.table.steps());
    match joined(alloc, results, (steps - 1) * width, width) {
        Ok(row) => Ok(row),
        Err(refusal) => match refusal {
            Refusal::NoMemory => Err(AllocError),
            // Each task has a result, so none is missing.
            _ => unreachable!(),
        },
    }
}
