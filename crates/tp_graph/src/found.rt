//! Finds values in the results of a run, which are in the order in which tasks finished.
ghost use Rattle.std.specs.{List.Sorted.IsPermutation, Prelude.{◌≡◌, ◌≢◌, ◌<◌, ℕ, All, Contains, IfOk, IfNone, IfSome, IsTrue, Some}};
ghost use Rattle.tp_graph.specs.{Found.{ArePlaces, HasEachOnce}, Graphs.TaskGraph, Left.{AreKept, AreResults}, Serial.AreInTaskOrder};
ghost use Rattle.tp_graph.specs.{Serial.{AreRight, AreValues}, Values.value_of};

use crate::value::Value;
use std::alloc::{AllocError, Global};
use tp_base::TaskId;

/// Returns an index of results by task, for [`value_at`]: for each task, the position of one of its results if it has
/// any. Takes O(tasks + results) time and allocates one number a task. Refused if the allocation fails.
pub fn places(
    alloc: Global,
    tasks: u32,
    results: &[(TaskId, Value)],
) -> Result<Vec<usize>, AllocError>
    ensures { IfOk result (λ places. ArePlaces tasks results.now places.items) }
{
    let mut places = vec![in alloc; 0; tasks as usize]?;
    for k in 0..results.len() {
        let task = results[k].0.0 as usize;
        if task < places.len() {
            places[task] = k;
        }
    }
    Ok(places)
}

/// Returns the value of a task among results in any order, or `None` if the task has no result. The index comes from
/// [`places`]. For the results of a run, the returned value is the task's value if the graph keeps it. Takes O(1) time.
pub fn value_at<'a>(
    results: &'a [(TaskId, Value)],
    places: &[usize],
    task: TaskId,
) -> Option<&'a Value>
    ensures found { IfSome result (λ value. Contains results.now (task, value.now)) }
    ensures right { IfSome result (λ value. (g : TaskGraph) → AreRight g results.now → value_of g task.0 ≡ Some value.now) }
    ensures kept { IfSome result (λ value. (g : TaskGraph) → AreKept g results.now → IsTrue (g.keeps task.0)
        → value_of g task.0 ≡ Some value.now) }
    ensures missing { IfNone result ((tasks : ℕ) → ArePlaces tasks results.now places.now → task.0 < tasks
        → All (λ r. r.0.0 ≢ task.0) results.now) }
{
    if task.0 as usize >= places.len() {
        return None;
    }
    let place = places[task.0 as usize];
    if place >= results.len() {
        return None;
    }
    let (found, value) = &results[place];
    if *found == task { Some(value) } else { None }
}

/// Returns the results in the order of their tasks, as [`serial`](crate::serial) returns values. It allocates nothing
/// and takes O(n log n) time for n results.
pub fn in_order(results: Vec<(TaskId, Value)>) -> Vec<(TaskId, Value)>
    ensures same { IsPermutation results.items result.items }
    ensures order { (tasks : ℕ) → HasEachOnce tasks results.items → AreInTaskOrder tasks result.items }
    ensures left { (g : TaskGraph) → AreResults g results.items → AreResults g result.items }
    ensures values { (g : TaskGraph) (tasks : ℕ) → HasEachOnce tasks results.items → AreRight g results.items
        → AreValues g tasks result.items }
{
    let mut results = results;
    results.sort_unstable_by_key(|pair| pair.0.0);
    results
}
