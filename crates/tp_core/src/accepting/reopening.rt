//! Reopening the pool, which begins its next generation.
ghost use Rattle.std.specs.Prelude.{◌≡◌};

use super::{Core, is_full, opened};
use crate::reply::Reply;
use tp_base::{Generation, Refusal, Step};
use tp_wave::Wave;

impl Core {
    ghost use Rattle.tp_core.specs.Accepted.{AcceptsOrRefuses};

    // The list of steps goes on, and everything else is as in a new core of the next generation.
    pub(super) fn reopen(&mut self) -> Result<Reply, Refusal>
        ensures { AcceptsOrRefuses self.old Step.Reopen result self.new }
    {
        if !self.wave.is_over() {
            return Err(Refusal::WrongLife);
        }
        self.steps.make_room(is_full(self.generation))?;
        let (numbers, opening) = opened(self.nodes);
        self.numbers = numbers;
        self.opening = opening;
        self.left = self.nodes;
        self.under = 0;
        self.named.clear();
        self.tasks.clear();
        self.messages.clear();
        self.wave = Wave::new(self.nodes);
        self.generation += 1;
        self.steps.push(Step::Reopen);
        Ok(Reply::Opened(Generation(self.generation)))
    }
}
