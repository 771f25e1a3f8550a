//! The shape of each pool's table, and which task has which of its numbers.
ghost use Rattle.pool_samples.specs.{Needed.{needed, needed_task, HasCell}, Tables.table_of, declared.any.AnyGraph.AnyGraph};
ghost use Rattle.std.specs.Prelude.{◌≡◌, ◌<◌, ◌≤◌, ◌*◌, ℕ, IfSome};

use crate::any::AnyGraph;
use crate::product::Product;
use crate::reduce::Reduce;
use crate::wavefront::Wavefront;
use tp_base::TaskId;

impl AnyGraph {
    /// Returns the number of rows of the table.
    pub(crate) fn rows(&self) -> u32
        ensures { result ≡ (table_of self.now).rows }
    {
        match self {
            AnyGraph::Product(product) => product.tiles * product.side,
            AnyGraph::Wavefront(wavefront) => wavefront.rows,
            AnyGraph::Reduce(_) => 1,
        }
    }

    /// Returns the number of columns of the table.
    pub(crate) fn columns(&self) -> u32
        ensures { result ≡ (table_of self.now).columns }
    {
        match self {
            AnyGraph::Product(product) => product.tiles * product.side,
            AnyGraph::Wavefront(wavefront) => wavefront.columns,
            AnyGraph::Reduce(_) => 1,
        }
    }

    /// Returns the number of tasks whose value the table needs: at most 4,096.
    pub(crate) fn needed(&self) -> u32
        ensures same { result ≡ needed self.now }
        ensures few { result ≤ 4096 }
    {
        match self {
            AnyGraph::Product(product) => product.tiles * product.tiles,
            AnyGraph::Wavefront(wavefront) => wavefront.rows * wavefront.columns,
            AnyGraph::Reduce(_) => 1,
        }
    }

    /// Returns the rank of a task among those whose values the table needs, counted from 0 for the lowest.
    pub(crate) fn rank(&self, task: TaskId) -> Option<u32>
        ensures each { (rank : ℕ) → rank < needed self.now → needed_task self.now rank ≡ task.0 → result ≡ Some rank }
        ensures only { IfSome result (λ rank. (rank < needed self.now) × (needed_task self.now rank ≡ task.0)) }
    {
        match self {
            AnyGraph::Product(product) => product.rank(task),
            AnyGraph::Wavefront(wavefront) => wavefront.rank(task),
            AnyGraph::Reduce(reduce) => reduce.rank(task),
        }
    }

    /// Returns where a cell of the table is: the rank of the task whose value has it, and its position there.
    pub(crate) fn cell(&self, i: u32, j: u32) -> (u32, usize)
        requires row { i < (table_of self.now).rows }
        requires column { j < (table_of self.now).columns }
        ensures { HasCell self.now i j result.0 result.1 }
    {
        match self {
            AnyGraph::Product(product) => product.cell(i, j),
            AnyGraph::Wavefront(wavefront) => wavefront.cell(i, j),
            AnyGraph::Reduce(reduce) => reduce.cell(i, j),
        }
    }
}

impl Product {
    #[tactic(auto, using(crate::proofs::Keeping::last_of))]
    fn rank(&self, task: TaskId) -> Option<u32>
        ensures each { (rank : ℕ) → rank < needed (AnyGraph.Product self.now) → needed_task (AnyGraph.Product self.now) rank ≡ task.0
            → result ≡ Some rank }
        ensures only { IfSome result (λ rank. (rank < needed (AnyGraph.Product self.now))
            × (needed_task (AnyGraph.Product self.now) rank ≡ task.0)) }
    {
        let rank = task.0 / self.tiles;
        if task.0 % self.tiles + 1 == self.tiles && rank < self.tiles * self.tiles {
            Some(rank)
        } else {
            None
        }
    }

    fn cell(&self, x: u32, y: u32) -> (u32, usize)
        requires row { x < self.now.tiles * self.now.side }
        requires column { y < self.now.tiles * self.now.side }
        ensures { HasCell (AnyGraph.Product self.now) x y result.0 result.1 }
    {
        let rank = (x / self.side) * self.tiles + y / self.side;
        let place = (x % self.side) * self.side + y % self.side;
        (rank, place as usize)
    }
}

impl Wavefront {
    fn rank(&self, task: TaskId) -> Option<u32>
        ensures each { (rank : ℕ) → rank < needed (AnyGraph.Wavefront self.now) → needed_task (AnyGraph.Wavefront self.now) rank ≡ task.0
            → result ≡ Some rank }
        ensures only { IfSome result (λ rank. (rank < needed (AnyGraph.Wavefront self.now))
            × (needed_task (AnyGraph.Wavefront self.now) rank ≡ task.0)) }
    {
        if task.0 < self.rows * self.columns {
            Some(task.0)
        } else {
            None
        }
    }

    #[tactic(auto, using(crate::proofs::Keeping::wavefront_cell))]
    fn cell(&self, i: u32, j: u32) -> (u32, usize)
        requires row { i < self.now.rows }
        requires column { j < self.now.columns }
        ensures { HasCell (AnyGraph.Wavefront self.now) i j result.0 result.1 }
    {
        (i * self.columns + j, 0)
    }
}

impl Reduce {
    fn rank(&self, task: TaskId) -> Option<u32>
        ensures each { (rank : ℕ) → rank < needed (AnyGraph.Reduce self.now) → needed_task (AnyGraph.Reduce self.now) rank ≡ task.0
            → result ≡ Some rank }
        ensures only { IfSome result (λ rank. (rank < needed (AnyGraph.Reduce self.now))
            × (needed_task (AnyGraph.Reduce self.now) rank ≡ task.0)) }
    {
        if task.0 == 2 * self.leaves - 2 {
            Some(0)
        } else {
            None
        }
    }

    #[tactic(auto, using(crate::proofs::Keeping::reduce_cell))]
    fn cell(&self, i: u32, j: u32) -> (u32, usize)
        ensures { HasCell (AnyGraph.Reduce self.now) i j result.0 result.1 }
    {
        (0, 0)
    }
}
