//! Several steps in one call.
ghost use Rattle.std.specs.Prelude.{◌≡◌, ◌≤◌, length};
ghost use Rattle.gerfmuod.specs.Calls.{IsBatch, IsStepsCall};

use crate::answer::StepResult;
use crate::calls::{not_taken, take_step};
use crate::pool::BoundedCore;
use crate::raw_step::{RawStep, step_of};
use crate::slot::CoreSlot;

/// Takes the steps in order, up to the first that is refused, and writes the result of each. Returns how many were taken.
fn take_steps(room: &mut BoundedCore, steps: &[RawStep], answers: &mut [StepResult]) -> usize
    requires { length steps.now ≤ length answers.now }
    ensures { IsBatch steps.now answers.old room.old result answers.new room.new }
{
    for count in 0..steps.len() {
        let answer = take_step(room, step_of(steps[count]));
        answers[count] = answer;
        if answer.refused != 0 {
            return count;
        }
    }
    steps.len()
}

/// Takes the steps of a call that have a place for their result.
pub(crate) fn steps(slot: &mut CoreSlot, steps: &[RawStep], answers: &mut [StepResult]) -> usize
    ensures { IsStepsCall steps.now answers.old slot.old (result, answers.new) slot.new }
{
    let length = answers.len().min(steps.len());
    if !slot.enter() {
        if length > 0 {
            answers[0] = not_taken(slot);
        }
        return 0;
    }
    let count = take_steps(&mut slot.room, &steps[..length], answers);
    slot.leave();
    count
}
