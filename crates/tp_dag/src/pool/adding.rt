//! The calls that describe the graph: tasks, their inputs, and inputs from outside.
ghost use Rattle.std.specs.Prelude.{◌&&◌, ◌==◌, ◌≡◌, ◌<◌, ◌+◌, ◌-◌, ◌⊎◌, length, IfOk, IfErr, IfSome, IfNone, OnOk, OnErr, false, Ok, Err};
ghost use Rattle.std.specs.Prelude.{Some, None};
ghost use Rattle.tp_base.specs.{Checks.first_refusal, declared.limits.TheConstants.MAX_STEPS};
ghost use Rattle.tp_dag.specs.declared.entry.Stage.TheVariants as stage;
ghost use Rattle.tp_dag.specs.Calls.{task_checks, input_checks, outside_checks, release_checks, with_task, with_input, MayHaveInput};
ghost use Rattle.tp_dag.specs.{Calls.{Becomes, one_more, one_less, MayWait, Awaits}, State.is_ready_now};
ghost use Rattle.tp_dag.specs.declared.limits.TheConstants.{MAX_INPUTS, MAX_TASKS, MAX_OUTSIDE};

use crate::entry::{both, either, is_fresh, one_if, refuse_if};
use crate::limits::{MAX_INPUTS, MAX_OUTSIDE, MAX_TASKS};
use crate::links::add_link;
use crate::pool::Pool;
use crate::tasks::may_begin;
use tp_base::{MAX_STEPS, Refusal};

impl Pool {
    /// Adds a task of a class 0, which is dispatched first, to 3, and returns its number, which is how many tasks there were before it.
    ///
    /// After `start`, a body that runs may add tasks. Such a task is held: it waits for one input from outside, so that no thread can
    /// dispatch it half described. Its maker calls `input` for each task that it reads, and then `release`.
    ///
    /// Refused, and nothing changes: `BadSpec` if the class is above 3; `HistoryFull` with 134,217,728 if there are as many tasks;
    /// `HistoryFull` with 1,048,576 if the pool is traced and was started, and its trace would have more steps, which are 3 a task and 10;
    /// `NoMemory`.
    pub fn task(&mut self, class: u32) -> Result<u32, Refusal>
        ensures ok { IfOk result (λ t. (t ≡ length self.old.tasks) × (self.new ≡ with_task class self.old)) }
        ensures err { OnErr result (self.new ≡ self.old) }
        ensures checks { IfSome (first_refusal (task_checks self.old class)) (λ r. result ≡ Err r) }
        ensures exact { IfErr result (λ r. (first_refusal (task_checks self.old class) ≡ Some r) ⊎ (r ≡ Refusal.NoMemory)) }
    {
        refuse_if(class > 3, Refusal::BadSpec)?;
        let full = self.tasks.len() >= MAX_TASKS as usize;
        refuse_if(full, Refusal::HistoryFull(MAX_TASKS))?;
        let long = both(self.started, self.lacks_steps(self.tasks.len() + 1));
        refuse_if(long, Refusal::HistoryFull(MAX_STEPS))?;
        let held = one_if(self.started);
        self.add(class as u8, &[], held)
    }

    /// Lets the newest task read what task `source` makes, which was added before it. After `start` the newest task still has to wait for
    /// something.
    ///
    /// Refused, and nothing changes: `NoTask` if there is no newest task or `source` is not below its number; `WrongLife` if it was
    /// dispatched, or if the pool was started and it is ready, since it may be dispatched at any time; `HistoryFull` with 536,870,912 if
    /// there are as many inputs; `NoMemory`.
    pub fn input(&mut self, source: u32) -> Result<(), Refusal>
        ensures ok { OnOk result (self.new ≡ with_input source self.old) }
        ensures err { OnErr result (self.new ≡ self.old) }
        ensures checks { IfSome (first_refusal (input_checks self.old source)) (λ r. result ≡ Err r) }
        ensures exact { IfErr result (λ r. (first_refusal (input_checks self.old source) ≡ Some r) ⊎ (r ≡ Refusal.NoMemory)) }
    {
        if let Some(refusal) = self.input_refusal(source) {
            return Err(refusal);
        }
        self.add_input(source)
    }

    // the first check of `input` that holds
    fn input_refusal(&self, source: u32) -> Option<Refusal>
        ensures refusal { result ≡ first_refusal (input_checks self.now source) }
        ensures few { IfNone result (MayHaveInput source self.now) }
    {
        let count = self.tasks.len();
        if source as usize + 1 >= count {
            return Some(Refusal::NoTask);
        }
        let newest = count as u32 - 1;
        let target = self.tasks.at(newest);
        if !is_fresh(target.stage) {
            return Some(Refusal::WrongLife);
        }
        if self.started && self.is_ready_at(newest) {
            return Some(Refusal::WrongLife);
        }
        if self.links.len() >= MAX_INPUTS as usize {
            return Some(Refusal::HistoryFull(MAX_INPUTS));
        }
        None
    }

    // whether a task is ready
    #[inline]
    #[tactic(auto, using(crate::proofs::Lemmas::test_ready, crate::proofs::Lemmas::test_none))]
    fn is_ready_at(&self, task: u32) -> bool
        ensures { result ≡ is_ready_now self.now task }
    {
        match self.tasks.get(task) {
            Some(found) => may_begin(found),
            None => false,
        }
    }

    fn add_input(&mut self, source: u32) -> Result<(), Refusal>
        requires { MayHaveInput source self.old }
        ensures ok { OnOk result (self.new ≡ with_input source self.old) }
        ensures err { OnErr result (self.new ≡ self.old) }
        ensures exact { IfErr result (λ r. r ≡ Refusal.NoMemory) }
    {
        self.links.reserve(1)?;
        let newest = self.tasks.len() as u32 - 1;
        add_link(&mut self.tasks, &mut self.links, source, newest);
        self.grown = either(self.grown, self.started);
        Ok(())
    }

    /// Lets a task that was not dispatched wait for one more input from outside in this run, which the caller reports by `release`.
    ///
    /// Refused, and nothing changes: `NoTask`; `WrongLife` if the task was dispatched, or if the pool was started and the task is ready,
    /// since it may be dispatched at any time; `HistoryFull` with 1,048,576 if it waits for as many inputs from outside.
    pub fn outside(&mut self, task: u32) -> Result<(), Refusal>
        ensures ok { OnOk result (Becomes task one_more self.old self.new) }
        ensures err { OnErr result (self.new ≡ self.old) }
        ensures checks { IfSome (first_refusal (outside_checks self.old task)) (λ r. result ≡ Err r) }
        ensures exact { IfErr result (λ r. first_refusal (outside_checks self.old task) ≡ Some r) }
    {
        if let Some(refusal) = self.outside_refusal(task) {
            return Err(refusal);
        }
        self.add_outside(task);
        Ok(())
    }

    // the first check of `outside` that holds
    fn outside_refusal(&self, task: u32) -> Option<Refusal>
        ensures refusal { result ≡ first_refusal (outside_checks self.now task) }
        ensures waits { IfNone result (MayWait task self.now) }
    {
        let Some(found) = self.tasks.get(task) else {
            return Some(Refusal::NoTask);
        };
        if !is_fresh(found.stage) {
            return Some(Refusal::WrongLife);
        }
        if self.started && self.is_ready_at(task) {
            return Some(Refusal::WrongLife);
        }
        if found.outside >= MAX_OUTSIDE {
            return Some(Refusal::HistoryFull(MAX_OUTSIDE));
        }
        None
    }

    #[tactic(auto, using(crate::proofs::Lemmas::link_few))]
    fn add_outside(&mut self, task: u32)
        requires { MayWait task self.old }
        ensures { Becomes task one_more self.old self.new }
    {
        let was = self.tasks.at(task);
        self.tasks
            .put(task, was, was.stage, was.missing + 1, was.outside + 1);
    }

    /// Reports that one input from outside is there for which a task waits.
    ///
    /// Refused, and nothing changes: `NoTask`; `WrongLife` if the task waits for no input from outside.
    pub fn release(&mut self, task: u32) -> Result<(), Refusal>
        ensures ok { OnOk result (Becomes task one_less self.old self.new) }
        ensures err { OnErr result (self.new ≡ self.old) }
        ensures checks { IfSome (first_refusal (release_checks self.old task)) (λ r. result ≡ Err r) }
        ensures exact { IfErr result (λ r. first_refusal (release_checks self.old task) ≡ Some r) }
    {
        self.release_refusal(task)?;
        self.take_outside(task);
        Ok(())
    }

    // the first check of `release` that holds
    #[tactic(auto, using(crate::proofs::Lemmas::awaits_if))]
    fn release_refusal(&self, task: u32) -> Result<(), Refusal>
        ensures ok { OnOk result (first_refusal (release_checks self.now task) ≡ None) }
        ensures err { IfErr result (λ r. first_refusal (release_checks self.now task) ≡ Some r) }
        ensures awaits { OnOk result (Awaits task self.now) }
    {
        let found = self.tasks.get(task).ok_or(Refusal::NoTask)?;
        refuse_if(found.outside == 0, Refusal::WrongLife)
    }

    fn take_outside(&mut self, task: u32)
        requires { Awaits task self.old }
        ensures { Becomes task one_less self.old self.new }
    {
        let was = self.tasks.at(task);
        self.tasks
            .put(task, was, was.stage, was.missing - 1, was.outside - 1);
        let ready = both(self.started, was.missing == 1);
        self.queues.push_if(was.class, task, ready);
    }
}
