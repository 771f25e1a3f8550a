//! Settling: taking control steps until termination is detected.
ghost use Rattle.std.specs.Prelude.{◌≡◌, ◌≤◌, ◌<◌, ◌+◌, ◌*◌};
ghost use Rattle.tp_base.specs.declared.limits.TheConstants.{MAX_STEPS};
ghost use Rattle.tp_core.specs.ToTheEnd.{AreTaken, FewIfDue, IsTaken, MaySettle};
ghost use Rattle.tp_wave.specs.{Generations.present, Sums.waves, Wave.nodes_of};

use super::Core;
use super::control::advance;
use crate::numbers::NodeNumbers;
use crate::taken::TakenSteps;
use tp_base::Refusal;
use tp_wave::Wave;

impl Core {
    ghost use Rattle.tp_core.specs.{Generations.InEach, NeverEarly.IsNeverEarly, Settled.Settles};

    /// Takes control steps until termination is detected, if the pool is quiet. Returns the number of the wave at whose
    /// end the pool had terminated, and the number of steps taken: at most nine per node, which start at most two
    /// waves.
    ///
    /// Refused, without a change, with `Ended` if termination was detected before; `NotIdle` if a task is unfinished,
    /// an action is open or a message is in flight; `HistoryFull`, with the number of accepted steps, if nine more per
    /// node would exceed 1,048,576; `NoMemory` if these need a new piece of 1,024 steps and the allocation fails. A core
    /// without a list of steps returns `StoreFull` in place of these two, if 1,048,576 waves were started in this generation.
    pub fn settle(&mut self) -> Result<(u32, u32), Refusal>
        // It is refused with the first refusal that applies, and otherwise takes the steps.
        ensures answers { Settles self.old result self.new }
        // Safety: if a judgement detected termination, the pool had terminated.
        ensures never_early { InEach (IsNeverEarly self.new.nodes) self.new.steps }
    {
        let settled = self.take_steps();
        let _ = &self.steps; // the invariant: they are runs
        settled
    }

    fn take_steps(&mut self) -> Result<(u32, u32), Refusal>
        ensures { Settles self.old result self.new }
    {
        if self.wave.is_over() {
            return Err(Refusal::Ended);
        }
        if !self.quiet() {
            return Err(Refusal::NotIdle);
        }
        self.steps.make_rooms(9 * self.nodes as usize)?;
        Ok(take_to_end(&self.numbers, &mut self.steps, &mut self.wave))
    }
}

// Takes the next control step until termination is detected. Returns the wave at whose end the pool had terminated, and
// the number of steps taken.
fn take_to_end(numbers: &[NodeNumbers; 8], steps: &mut TakenSteps, wave: &mut Wave) -> (u32, u32)
    requires settling { MaySettle (nodes_of wave.old) numbers.now steps.old.steps wave.old }
    requires room { 9 * nodes_of wave.old ≤ steps.old.room }
    requires few { waves (present steps.old.steps) < MAX_STEPS }
    ensures taken { AreTaken (nodes_of wave.old) steps.old.steps steps.new.steps wave.new result.0 result.1 }
    ensures recorded { steps.new.recorded ≡ steps.old.recorded }
{
    let mut count = 0;
    loop {
        count += 1;
        if let Some(ended) = take_due(numbers, steps, wave) {
            return (ended, count);
        }
    }
}

// Takes the next control step. If it detects termination, returns the wave at whose end the pool had terminated.
fn take_due(numbers: &[NodeNumbers; 8], steps: &mut TakenSteps, wave: &mut Wave) -> Option<u32>
    requires settling { MaySettle (nodes_of wave.old) numbers.now steps.old.steps wave.old }
    requires room { 1 ≤ steps.old.room }
    requires few { FewIfDue (nodes_of wave.old) steps.old.steps }
    ensures taken { IsTaken (nodes_of wave.old) steps.old.steps steps.new.steps wave.new result }
    ensures recorded { steps.new.recorded ≡ steps.old.recorded }
    ensures room { steps.old.room ≤ steps.new.room + 1 }
{
    let step = wave.next_step();
    steps.push(step);
    advance(wave, numbers, step).unwrap().over()
}
