//! Runs the body of one task.
ghost use Rattle.std.specs.Prelude.{◌≡◌, ◌<◌, Some, MatchResult};
ghost use Rattle.tp_graph.specs.Values.{value_of, AreInputs, IsRefusal};

use crate::graph::Graph;
use crate::value::Value;
use std::alloc::Global;
use tp_base::{Refusal, TaskId};

/// Returns the value that a task computes from its inputs, which have to be its producers' values in slot order.
/// Refused with `BodyFailed` exactly if the task has no value, because its rule fails or a number does not fit `i64`;
/// refused with `NoMemory` if an allocation fails first.
pub fn run_body<G: Graph>(
    alloc: Global,
    graph: &G,
    task: TaskId,
    inputs: &[Value],
) -> Result<Value, Refusal>
    requires known { task.0 < (G.meaning graph.now).tasks }
    requires right { AreInputs (G.meaning graph.now) task.0 inputs.now }
    ensures { MatchResult result (λ made. value_of (G.meaning graph.now) task.0
        ≡ Some made) (IsRefusal (value_of (G.meaning graph.now) task.0)) }
{
    graph.body(alloc, task, inputs)
}
