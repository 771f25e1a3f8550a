//! A wavefront over a table of cells, as a graph.
ghost use Rattle.pool_samples.specs.{WaveLaws.wavefront_lawful, Waves.{IsWavefront, cost, wavefront_graph}};
ghost use Rattle.std.specs.Prelude.{◌≡◌, ◌<◌, ◌≤◌, ◌+◌, ◌*◌, ◌/◌, ◌%◌};

use std::alloc::Global;
use tp_base::{NodeId, Refusal, TaskId};
use tp_graph::{Comparable, Graph, Value};

/// A table of cells, each of which adds its cost to the lesser of the cells above it and to its left.
#[derive(Clone, Copy, Debug, PartialEq, Eq)]
pub struct Wavefront {
    /// The number of rows: 1 to 64.
    pub rows: u32,
    /// The number of columns: 1 to 64.
    pub columns: u32,
    /// The seed of the costs: 0 to 9,999.
    pub seed: u32,
    pub ghost in_rules: { IsWavefront rows columns seed },
}

impl Wavefront {
    /// Returns the cost of a task's cell.
    fn cost(&self, task: TaskId) -> u32
        requires { task.0 < self.now.rows * self.now.columns }
        ensures { result ≡ cost self.now.seed (task.0 / self.now.columns) (task.0 % self.now.columns) }
    {
        let row = task.0 / self.columns;
        let column = task.0 % self.columns;
        (3 * row + 5 * column + self.seed) % 10
    }
}

impl Comparable for Wavefront {
    ghost use Rattle.pool_samples.specs.Same.{wavefront_same, three_same};

    ghost same = { λ a b h. wavefront_same a b (three_same a.rows b.rows a.columns b.columns a.seed b.seed h) };
}

#[tactic(auto, unfolding(crate::specs::Waves::wavefront_graph))]
impl Graph for Wavefront {
    ghost meaning = { λ w. wavefront_graph w.rows w.columns w.seed };

    ghost lawful = { λ w. wavefront_lawful w.rows w.columns w.seed w.in_rules };

    fn tasks(&self) -> u32 {
        self.rows * self.columns
    }

    fn arity(&self, task: TaskId) -> u8 {
        let above: u8 = if self.columns <= task.0 { 1 } else { 0 };
        let left: u8 = if 0 < task.0 % self.columns { 1 } else { 0 };
        above + left
    }

    fn class(&self, _task: TaskId) -> u8 {
        0
    }

    fn feeds(&self, task: TaskId) -> u32 {
        let right: u32 = if task.0 % self.columns + 1 < self.columns {
            1
        } else {
            0
        };
        let below: u32 = if task.0 + self.columns < self.rows * self.columns {
            1
        } else {
            0
        };
        right + below
    }

    fn feed(&self, task: TaskId, turn: u32) -> (TaskId, u8) {
        if turn == 0 && task.0 % self.columns + 1 < self.columns {
            let slot = if self.columns <= task.0 + 1 { 1 } else { 0 };
            (TaskId(task.0 + 1), slot)
        } else {
            (TaskId(task.0 + self.columns), 0)
        }
    }

    fn home(&self, task: TaskId, nodes: u32) -> NodeId {
        NodeId(task.0 % self.columns % nodes)
    }

    fn keeps(&self, _task: TaskId) -> bool {
        true
    }

    fn body(&self, alloc: Global, task: TaskId, inputs: &[Value]) -> Result<Value, Refusal> {
        let least = match inputs {
            [] => 0,
            [only] => only.lone()?,
            [above, left] => above.lone()?.min(left.lone()?),
            _ => return Err(Refusal::BodyFailed),
        };
        Value::sum(alloc, least, i64::from(self.cost(task)))
    }
}
