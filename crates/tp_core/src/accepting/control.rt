//! Taking a control step, one of the five steps of a wave.
ghost use Rattle.std.specs.Prelude.{◌≡◌, ◌≤◌, ℕ, List, IsTrue};
ghost use Rattle.tp_base.specs.declared.{Step.Step, limits.TheConstants.MAX_STEPS};
ghost use Rattle.tp_wave.specs.{Control.is_control, Generations.present, Steps.is_start, Sums.waves, Wave.started};
ghost use Rattle.tp_core.specs.Advancing.{Advances, HasWaves};

use super::Core;
use crate::numbers::NodeNumbers;
use crate::reply::Reply;
use tp_base::{MAX_NODES, NodeId, Refusal, Step};
use tp_wave::Wave;

impl Core {
    ghost use Rattle.tp_core.specs.Accepted.{AcceptsOrRefuses};

    // Starts a wave.
    pub(super) fn start(&mut self) -> Result<Reply, Refusal>
        ensures { AcceptsOrRefuses self.old Step.Start result self.new }
    {
        if self.steps.is_out_of_waves() {
            return Err(Refusal::StoreFull);
        }
        self.control(Step::Start)
    }

    // The step is tried on a copy of the wave, because room for it is reserved last.
    pub(super) fn control(&mut self, step: Step) -> Result<Reply, Refusal>
        requires control { IsTrue (is_control step) }
        requires few { IsTrue (is_start step) → waves (present self.old.steps) ≤ MAX_STEPS }
        ensures { AcceptsOrRefuses self.old step result self.new }
    {
        let mut wave = self.wave;
        let reply = advance(&mut wave, &self.numbers, step)?;
        self.steps.make_room(false)?;
        self.wave = wave;
        self.steps.push(step);
        Ok(reply)
    }
}

// Makes a control step on the wave alone. A refused step may have changed the wave.
pub(super) fn advance(
    wave: &mut Wave,
    numbers: &[NodeNumbers; 8],
    step: Step,
) -> Result<Reply, Refusal>
    requires control { IsTrue (is_control step) }
    requires few { IsTrue (is_start step) → started wave.old ≤ MAX_STEPS }
    requires waves { (n : ℕ) × (steps : List Step) × HasWaves n numbers.now steps wave.old }
    ensures { (n : ℕ) (steps : List Step) → HasWaves n numbers.now steps wave.old → Advances n steps step result wave.new }
{
    match step {
        Step::Start => wave.start()?,
        Step::Down(node) => wave.down(node)?,
        Step::Give(node) => return give(wave, numbers, node),
        Step::Up(node) => wave.up(node)?,
        Step::Judge => {
            return match wave.judge()? {
                Some(ended) => Ok(Reply::Over(ended)),
                None => Ok(Reply::Not),
            };
        }
        _ => unreachable!(),
    }
    Ok(Reply::Plain)
}

// Gives the node's numbers of messages sent and received to the wave. An active node is refused.
fn give(wave: &mut Wave, numbers: &[NodeNumbers; 8], node: NodeId) -> Result<Reply, Refusal>
    requires waves { (n : ℕ) × (steps : List Step) × HasWaves n numbers.now steps wave.old }
    ensures { (n : ℕ) (steps : List Step) → HasWaves n numbers.now steps wave.old
        → Advances n steps (Step.Give node) result wave.new }
{
    if node.0 >= MAX_NODES {
        return Err(Refusal::NoNode);
    }
    let own = numbers[node.0 as usize];
    let sums = wave.give(node, own.sent, own.received)?;
    if own.pending > 0 {
        return Err(Refusal::NotIdle);
    }
    match sums {
        Some(sums) => Ok(Reply::WaveSums(sums)),
        None => Ok(Reply::Plain),
    }
}
