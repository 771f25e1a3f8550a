//! The numbers of the results of tasks in a row, as one list.
ghost use Rattle.pool_blocks.specs.Joined.{IsJoinedRefusal, KeepsFrom, LacksTask, numbers_from};
ghost use Rattle.std.specs.Prelude.{◌≡◌, ◌<◌, ◌+◌, ◌^◌, IfOk, IfErr, OnOk, Some};
ghost use Rattle.tp_graph.specs.{Graphs.TaskGraph, Left.AreKept};

use std::alloc::Global;
use tp_base::{Refusal, TaskId};
use tp_graph::{Value, places, value_at};

/// Returns the numbers of the results of `count` tasks from task `first` on, one task after the other. For the results
/// of a run they are the numbers of the tasks' values if the graph keeps these. Refused with `Missing` if one of the
/// tasks has no result, and with `NoMemory` if an allocation fails first.
pub fn joined(
    alloc: Global,
    results: &[(TaskId, Value)],
    first: u32,
    count: u32,
) -> Result<Vec<i64>, Refusal>
    requires { first + count < 2 ^ 32 }
    ensures made { IfOk result (λ all. (g : TaskGraph) → AreKept g results.now → KeepsFrom g first count
        → numbers_from g first count ≡ Some all.items) }
    ensures whole { OnOk result (LacksTask first count results.now → ⊥) }
    ensures refused { IfErr result (IsJoinedRefusal first count results.now) }
{
    let places = places(alloc, first + count, results)?;
    let mut all = Vec::new(alloc);
    for i in 0..count {
        let Some(value) = value_at(results, places.as_slice(), TaskId(first + i)) else {
            return Err(Refusal::Missing);
        };
        all.extend_from_slice(value.as_slice())?;
    }
    Ok(all)
}
