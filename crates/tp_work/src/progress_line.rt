//! The text of the progress line.
ghost use Rattle.std.specs.Prelude.{◌≤◌};

use crate::progress::Plan;
use std::alloc::{AllocError, Global};

/// Returns the progress line: how many of all tasks are done, and for a run in several parts, how many steps the
/// finished parts have.
pub(crate) fn line_of(alloc: Global, plan: Plan, done: u64) -> Result<String, AllocError> {
    let all = grouped(alloc, plan.tasks.saturating_mul(plan.steps))?;
    let tasks = grouped(alloc, done)?;
    if plan.tasks == 0 || plan.part == 0 || plan.steps <= plan.part {
        return format!(in alloc; "\r{tasks} of {all} tasks");
    }
    let steps = grouped(alloc, steps_done(plan, done))?;
    let all_steps = grouped(alloc, plan.steps)?;
    format!(in alloc; "\r{tasks} of {all} tasks, {steps} of {all_steps} steps")
}

/// Returns how many steps the finished parts have when `done` tasks are done.
fn steps_done(plan: Plan, done: u64) -> u64
    requires { (1 ≤ plan.tasks) × (1 ≤ plan.part) }
{
    let steps = done / plan.tasks;
    steps.saturating_sub(steps % plan.part)
}

/// Returns a number with a comma before each three digits, such as 1,048,576.
fn grouped(alloc: Global, number: u64) -> Result<String, AllocError> {
    let digits = format!(in alloc; "{number}")?;
    let first = digits.len() % 3;
    let mut text = String::new(alloc);
    for (place, digit) in digits.chars().enumerate() {
        if place > 0 && place % 3 == first {
            text.push(',')?;
        }
        text.push(digit)?;
    }
    Ok(text)
}
