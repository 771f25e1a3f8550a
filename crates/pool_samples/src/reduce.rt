//! A tree of sums, as a graph.
ghost use Rattle.pool_samples.specs.{TreeLaws.reduce_lawful, Trees.{IsReduce, reduce_graph}};
ghost use Rattle.std.specs.Prelude.{◌≡◌, ◌<◌, ◌≤◌, ◌-◌, ◌*◌};

use std::alloc::Global;
use tp_base::{NodeId, Refusal, TaskId};
use tp_graph::{Comparable, Graph, Value};

/// A tree that adds up its leaves.
#[derive(Clone, Copy, Debug, PartialEq, Eq)]
pub struct Reduce {
    /// The number of leaves: a power of two from 1 to 1,024.
    pub leaves: u32,
    /// The seed of the leaves' values: 0 to 9,999.
    pub seed: u32,
    pub ghost in_rules: { IsReduce leaves seed },
}

impl Comparable for Reduce {
    ghost use Rattle.pool_samples.specs.Same.{reduce_same, both_same};

    ghost same = { λ a b h. reduce_same a b (both_same a.leaves b.leaves a.seed b.seed h) };
}

#[tactic(auto, unfolding(crate::specs::Trees::reduce_graph))]
impl Graph for Reduce {
    ghost meaning = { λ r. reduce_graph r.leaves r.seed };

    ghost lawful = { λ r. reduce_lawful r.leaves r.seed r.in_rules };

    fn tasks(&self) -> u32 {
        2 * self.leaves - 1
    }

    fn arity(&self, task: TaskId) -> u8 {
        if task.0 < self.leaves { 0 } else { 2 }
    }

    fn class(&self, task: TaskId) -> u8 {
        if task.0 < self.leaves { 1 } else { 0 }
    }

    fn feeds(&self, task: TaskId) -> u32 {
        if task.0 < 2 * self.leaves - 2 { 1 } else { 0 }
    }

    fn feed(&self, task: TaskId, _turn: u32) -> (TaskId, u8) {
        (TaskId(self.leaves + task.0 / 2), (task.0 % 2) as u8)
    }

    fn home(&self, task: TaskId, nodes: u32) -> NodeId {
        NodeId(task.0 % nodes)
    }

    fn keeps(&self, _task: TaskId) -> bool {
        true
    }

    fn body(&self, alloc: Global, task: TaskId, inputs: &[Value]) -> Result<Value, Refusal> {
        if task.0 < self.leaves {
            let leaf = (11 * task.0 + self.seed) % 100;
            return Ok(Value::one(alloc, i64::from(leaf))?);
        }
        let [left, right] = inputs else {
            return Err(Refusal::BodyFailed);
        };
        Value::sum(alloc, left.lone()?, right.lone()?)
    }
}
