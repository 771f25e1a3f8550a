//! The call that adds a task with its inputs, all or nothing. `task` is the same without inputs.
ghost use Rattle.std.specs.{List.list_all, Prelude.{◌≡◌, ◌⊎◌, length, IfOk, IfErr, IfSome, IfNone, OnErr, Err, Some, nat_lt}};
ghost use Rattle.tp_base.specs.Checks.{first_refusal};
ghost use Rattle.tp_dag.specs.Calls.{spawn_checks, with_spawned, MaySpawn};

use crate::entry::{Stage, Task, both, either};
use crate::events::make_room;
use crate::limits::{MAX_INPUTS, MAX_OUTSIDE, MAX_TASKS};
use crate::links::add_links;
use crate::pool::Pool;
use tp_base::{MAX_STEPS, Refusal};

/// Returns whether each number is that of one of `tasks` tasks.
fn all_below(numbers: &[u32], tasks: usize) -> bool
    ensures { result ≡ list_all (λ s. nat_lt s tasks) numbers.now }
{
    numbers.iter().all(|number| (*number as usize) < tasks)
}

impl Pool {
    /// Adds a task of a class 0, which is dispatched first, to 3, which reads what these earlier tasks make, and which waits for `outside`
    /// inputs from outside in this run. Returns its number, which is how many tasks there were before it.
    ///
    /// It may be called before and after `start`. A task that waits for nothing is ready at once: after `start` it is in the queue of its
    /// class. An input that is listed twice counts twice, and one from a task that is done is there.
    ///
    /// Refused, and nothing changes, with the first of these: `BadSpec` if the class is above 3; `NoTask` if an input is not the number of
    /// a task; `HistoryFull` with 1,048,576 if it would wait for more inputs from outside; `HistoryFull` with 134,217,728 if there are as
    /// many tasks; `HistoryFull` with 536,870,912 if there would be more inputs; `HistoryFull` with 1,048,576 if the pool is traced and
    /// was started, and its trace would have more steps, which are 3 a task and 10; `NoMemory`.
    pub fn spawn(&mut self, class: u32, inputs: &[u32], outside: u32) -> Result<u32, Refusal>
        ensures ok { IfOk result (λ t. (t ≡ length self.old.tasks) × (self.new ≡ with_spawned class inputs.now outside self.old)) }
        ensures err { OnErr result (self.new ≡ self.old) }
        ensures checks { IfSome (first_refusal (spawn_checks self.old class inputs.now outside)) (λ r. result ≡ Err r) }
        ensures exact { IfErr result (λ r. (first_refusal (spawn_checks self.old class inputs.now outside) ≡ Some r) ⊎ (r ≡ Refusal.NoMemory)) }
    {
        if let Some(refusal) = self.spawn_refusal(class, inputs, outside) {
            return Err(refusal);
        }
        self.add(class as u8, inputs, outside)
    }

    // the first check of `spawn` that holds
    fn spawn_refusal(&self, class: u32, inputs: &[u32], outside: u32) -> Option<Refusal>
        ensures refusal { result ≡ first_refusal (spawn_checks self.now class inputs.now outside) }
        ensures may { IfNone result (MaySpawn class inputs.now outside self.now) }
    {
        if class > 3 {
            return Some(Refusal::BadSpec);
        }
        if !all_below(inputs, self.tasks.len()) {
            return Some(Refusal::NoTask);
        }
        if outside > MAX_OUTSIDE {
            return Some(Refusal::HistoryFull(MAX_OUTSIDE));
        }
        if self.tasks.len() >= MAX_TASKS as usize {
            return Some(Refusal::HistoryFull(MAX_TASKS));
        }
        if inputs.len() > MAX_INPUTS as usize - self.links.len() {
            return Some(Refusal::HistoryFull(MAX_INPUTS));
        }
        if self.started && self.lacks_steps(self.tasks.len() + 1) {
            return Some(Refusal::HistoryFull(MAX_STEPS));
        }
        None
    }

    // adds a task, if memory can be had; all of it is reserved before anything is added
    pub(super) fn add(&mut self, class: u8, inputs: &[u32], outside: u32) -> Result<u32, Refusal>
        requires { MaySpawn class inputs.now outside self.old }
        ensures ok { IfOk result (λ t. (t ≡ length self.old.tasks) × (self.new ≡ with_spawned class inputs.now outside self.old)) }
        ensures err { OnErr result (self.new ≡ self.old) }
        ensures exact { IfErr result (λ r. r ≡ Refusal.NoMemory) }
    {
        self.links.reserve(inputs.len())?;
        let traced = both(self.started, self.traced);
        make_room(&mut self.events, traced, self.tasks.left() + 1)?;
        self.queues.reserve(1)?;
        let number = self.tasks.len() as u32;
        self.tasks.push(Task {
            class,
            stage: Stage::Fresh,
            missing: outside,
            outside,
            inputs: 0,
            outputs: 0,
        })?;
        self.queues.add_task();
        self.grown = either(self.grown, self.started);
        add_links(&mut self.tasks, &mut self.links, inputs, number);
        let ready = both(self.started, self.tasks.is_last_ready());
        self.queues.push_if(class, number, ready);
        Ok(number)
    }
}
