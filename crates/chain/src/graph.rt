//! A pool of a user's own: a chain of tasks, each of which adds its number to its input.
ghost use Rattle.std.specs.Prelude.{◌≡◌};
ghost use Rattle.chain.specs.Chains.{chain_graph, chain_lawful};

use std::alloc::Global;
use tp_base::{NodeId, Refusal, TaskId};
use tp_graph::{Graph, Value};

/// A chain of `length` tasks. The value of a task is the sum of the numbers up to its own.
#[derive(Clone, Copy)]
pub struct Chain {
    /// The number of tasks.
    pub length: u32,
}

impl Graph for Chain {
    ghost meaning = { λ c. chain_graph c.length };

    ghost lawful = { λ c. chain_lawful c.length };

    fn tasks(&self) -> u32 {
        self.length
    }

    fn arity(&self, task: TaskId) -> u8 {
        if task.0 == 0 { 0 } else { 1 }
    }

    fn class(&self, _task: TaskId) -> u8 {
        0
    }

    fn feeds(&self, task: TaskId) -> u32 {
        if task.0 < self.length - 1 { 1 } else { 0 }
    }

    fn feed(&self, task: TaskId, _turn: u32) -> (TaskId, u8) {
        (TaskId(task.0 + 1), 0)
    }

    fn home(&self, task: TaskId, nodes: u32) -> NodeId {
        NodeId(task.0 % nodes)
    }

    fn keeps(&self, _task: TaskId) -> bool {
        true
    }

    fn body(&self, alloc: Global, task: TaskId, inputs: &[Value]) -> Result<Value, Refusal> {
        let before = match inputs {
            [] => 0,
            [value] => value.lone()?,
            _ => return Err(Refusal::BodyFailed),
        };
        Value::sum(alloc, before, i64::from(task.0))
    }
}
