//! Reserving memory, so that later steps do not have to allocate.
ghost use Rattle.std.specs.Prelude.{◌≡◌, IfErr};

use super::Core;
use tp_base::Refusal;

impl Core {
    /// Reserves memory for `steps` more steps, for tasks with numbers below `tasks`, and for messages with numbers below
    /// `messages`. It takes no step. Steps beyond 1,048,576 in all, and numbers from 1,048,576 on, are ignored.
    ///
    /// Until that many more steps are taken, `step` and `settle` allocate nothing, so they are not refused with
    /// `NoMemory`, except at a task or a message with a higher number, or at an action that is opened by name. A
    /// reopening keeps the room for steps, and drops the places of tasks and messages: reserve these again after it.
    ///
    /// Refused with `NoMemory` if an allocation fails. What was reserved until then stays reserved.
    pub fn reserve(&mut self, steps: u32, tasks: u32, messages: u32) -> Result<(), Refusal>
        ensures same { self.new ≡ self.old }
        ensures err { IfErr result (λ r. r ≡ Refusal.NoMemory) }
    {
        self.steps.reserve(steps as usize)?;
        self.tasks.reserve(tasks)?;
        self.messages.reserve(messages)?;
        Ok(())
    }
}
