//! Computes a graph on one thread, without a pool.
ghost use Rattle.std.specs.Prelude.{◌≡◌, ◌<◌, Some, IfOk, MatchResult};
ghost use Rattle.tp_graph.specs.{Producers.IsTable, Serial.{AreValues, IsSerialRefusal}, Values.{value_of, AreInputs, IsRefusal}};

use crate::body::run_body;
use crate::graph::Graph;
use crate::value::Value;
use smallvec::SmallVec;
use std::alloc::{AllocError, Global};
use tp_base::{Refusal, TaskId};

/// Returns the value of each task, in rising order of tasks. Refused with `BodyFailed` exactly if a task has no value;
/// refused with `NoMemory` if an allocation fails first.
pub fn serial<G: Graph>(alloc: Global, graph: G) -> Result<Vec<(TaskId, Value)>, Refusal>
    ensures { MatchResult result (λ results.
        AreValues (G.meaning graph) (G.meaning graph).tasks results.items) (IsSerialRefusal (G.meaning graph)) }
{
    let table = producers(alloc, graph)?;
    let mut results = Vec::new(alloc);
    for t in 0..graph.tasks() {
        let value = value_after(alloc, graph, &table, &results, t)?;
        results.push((TaskId(t), value))?;
    }
    Ok(results)
}

/// Returns the producers of all slots, 16 entries a task.
fn producers<G: Graph>(alloc: Global, graph: G) -> Result<Vec<u32>, AllocError>
    ensures { IfOk result (λ table. IsTable (G.meaning graph) table.items) }
{
    let tasks = graph.tasks();
    let mut table = vec![in alloc; 0; 16 * tasks as usize]?;
    for p in 0..tasks {
        for k in 0..graph.feeds(TaskId(p)) {
            let (target, slot) = graph.feed(TaskId(p), k);
            table[16 * target.0 as usize + slot as usize] = p;
        }
    }
    Ok(table)
}

/// Returns the value of a task, from the values of all lower tasks.
fn value_after<G: Graph>(
    alloc: Global,
    graph: G,
    table: &[u32],
    results: &[(TaskId, Value)],
    task: u32,
) -> Result<Value, Refusal>
    requires known { task < (G.meaning graph).tasks }
    requires sources { IsTable (G.meaning graph) table.now }
    requires lower { AreValues (G.meaning graph) task results.now }
    ensures { MatchResult result (λ made. value_of (G.meaning graph) task ≡ Some made) (IsRefusal (value_of (G.meaning graph) task)) }
{
    let inputs = inputs_after(alloc, graph, table, results, task)?;
    run_body(alloc, &graph, TaskId(task), inputs.as_slice())
}

/// Returns the inputs of a task, from the values of all lower tasks.
fn inputs_after<G: Graph>(
    alloc: Global,
    graph: G,
    table: &[u32],
    results: &[(TaskId, Value)],
    task: u32,
) -> Result<SmallVec<Value, 4>, AllocError>
    requires known { task < (G.meaning graph).tasks }
    requires sources { IsTable (G.meaning graph) table.now }
    requires lower { AreValues (G.meaning graph) task results.now }
    ensures { IfOk result (λ inputs. AreInputs (G.meaning graph) task inputs.items) }
{
    let mut inputs = SmallVec::new(alloc);
    for s in 0..graph.arity(TaskId(task)) {
        let producer = table[16 * task as usize + s as usize];
        inputs.push(results[producer as usize].1.clone()?)?;
    }
    Ok(inputs)
}
