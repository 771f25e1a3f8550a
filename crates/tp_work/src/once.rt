//! Checks that each task has exactly one result.
ghost use Rattle.std.specs.Prelude.{◌≡◌, ◌<◌, ◌↔◌, false, true, length, slice_set, All, IfOk, IsTrue};
ghost use Rattle.tp_graph.specs.Found.{HasEachOnce};
ghost use Rattle.tp_work.specs.Outcomes.{AreMarks, is_marked};

use std::alloc::{AllocError, Global};
use tp_base::TaskId;
use tp_graph::Value;

/// Returns whether each of `tasks` tasks has one result, and no other task has any. Takes O(tasks + results) time.
pub(crate) fn each_once(
    alloc: Global,
    tasks: u32,
    results: &[(TaskId, Value)],
) -> Result<bool, AllocError>
    ensures { IfOk result (λ yes. IsTrue yes ↔ HasEachOnce tasks results.now) }
{
    let mut marks = vec![in alloc; false; tasks as usize]?;
    let marks = marks.as_mut_slice();
    if !mark_each(marks, results) {
        return Ok(false);
    }
    Ok(all_marked(marks))
}

/// Marks the tasks of all results. Returns whether there is a mark for each and none has two results.
fn mark_each(marks: &mut [bool], results: &[(TaskId, Value)]) -> bool
    requires { All (λ mark. mark ≡ false) marks.old }
    ensures marked { IsTrue result → AreMarks results.now marks.new }
    ensures no { result ≡ false → HasEachOnce (length marks.old) results.now → ⊥ }
{
    for (task, _) in results {
        if !mark(marks, task.0 as usize) {
            return false;
        }
    }
    true
}

/// Marks a task. Returns whether there is a mark for it that was not set.
fn mark(marks: &mut [bool], task: usize) -> bool
    ensures fresh { IsTrue result ↔ ((task < length marks.old) × (is_marked marks.old task ≡ false)) }
    ensures marked { IsTrue result → marks.new ≡ slice_set marks.old task true }
{
    if task >= marks.len() || marks[task] {
        return false;
    }
    marks[task] = true;
    true
}

fn all_marked(marks: &[bool]) -> bool
    ensures { IsTrue result ↔ All (λ mark. mark ≡ true) marks.now }
{
    marks.iter().all(|is_set| *is_set)
}
