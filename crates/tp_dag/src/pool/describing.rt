//! The call that describes a whole graph. It builds the graph in a pool of its own by `task` and `input`: so a refusal changes nothing.
ghost use Rattle.std.specs.Prelude.{◌≡◌, ◌≤◌, ◌<◌, ◌+◌, ◌-◌, ◌⊎◌, ℕ, length, IfErr, IfSome};
ghost use Rattle.std.specs.Prelude.{IsFalse, OnOk, OnErr, Err, Some, None, slice_range};
ghost use Rattle.std.specs.List.{slice_index_or};
ghost use Rattle.tp_base.specs.Checks.{first_refusal};
ghost use Rattle.tp_dag.specs.Calls.{with_task};
ghost use Rattle.tp_dag.specs.Describing.{described, describe_checks, fault_of, next_fault, IsFirstFault, with_inputs, inputs_refusal};

use crate::entry::{both, either, refuse_if};
use crate::pool::Pool;
use std::alloc::AllocError;
use tp_base::Refusal;

/// Returns the class of a task, which is 0 if none are given.
fn class_of(classes: &[u8], task: usize) -> u8
    ensures { result ≡ slice_index_or classes.now task 0 }
{
    match classes.get(task) {
        Some(&class) => class,
        None => 0,
    }
}

impl Pool {
    /// Describes a whole graph of `offsets.len() - 1` tasks. Task `t` is of class `classes[t]`, or of class 0 if `classes` is empty, and
    /// reads the tasks `inputs[offsets[t]]` to `inputs[offsets[t + 1] - 1]`, as if `task` and `input` were called for each in order.
    ///
    /// Refused with the number of a task, and nothing changes. With 0: `WrongLife` if the pool has tasks or was started; `BadSpec` if
    /// `offsets` is empty, or if `classes` is not empty and does not have one class a task. Then, with the first task that cannot be
    /// added: `BadSpec` if its class is above 3, or its offsets decrease or pass the end of `inputs`; `NoTask` if an input is not below its
    /// number; `HistoryFull` with the limit if there are too many tasks or inputs. `NoMemory` with any number.
    pub fn describe(
        &mut self,
        classes: &[u8],
        offsets: &[u32],
        inputs: &[u32],
    ) -> Result<(), (Refusal, u32)>
        ensures ok { OnOk result (self.new ≡ described (record { classes = classes.now; offsets = offsets.now; inputs = inputs.now })
            (length offsets.now - 1) self.old) }
        ensures none { OnOk result ((t : ℕ) → t + 1 < length offsets.now
            → fault_of (record { classes = classes.now; offsets = offsets.now; inputs = inputs.now }) t self.old ≡ None) }
        ensures err { OnErr result (self.new ≡ self.old) }
        ensures checks { IfSome (first_refusal (describe_checks
            (record { classes = classes.now; offsets = offsets.now; inputs = inputs.now }) self.old)) (λ r. result ≡ Err (r, 0)) }
        ensures exact { IfErr result (λ e. (first_refusal (describe_checks
            (record { classes = classes.now; offsets = offsets.now; inputs = inputs.now }) self.old) ≡ Some e.0)
            ⊎ IsFirstFault (record { classes = classes.now; offsets = offsets.now; inputs = inputs.now }) self.old e.0 e.1
            ⊎ (e.0 ≡ Refusal.NoMemory)) }
    {
        if let Err(refusal) = self.describe_refusal(classes, offsets, inputs) {
            return Err((refusal, 0));
        }
        let mut pool = self.same_anew();
        if pool.reserve(offsets.len() - 1, inputs.len()).is_err() {
            return Err((Refusal::NoMemory, 0));
        }
        pool.add_graph(classes, offsets, inputs)?;
        *self = pool;
        Ok(())
    }

    // the first check of `describe` that holds
    fn describe_refusal(
        &self,
        classes: &[u8],
        offsets: &[u32],
        inputs: &[u32],
    ) -> Result<(), Refusal>
        ensures ok { OnOk result (first_refusal (describe_checks
            (record { classes = classes.now; offsets = offsets.now; inputs = inputs.now }) self.now) ≡ None) }
        ensures err { IfErr result (λ r. first_refusal (describe_checks
            (record { classes = classes.now; offsets = offsets.now; inputs = inputs.now }) self.now) ≡ Some r) }
        ensures started { OnOk result (IsFalse self.now.started) }
        ensures empty { OnOk result (length self.now.tasks ≡ 0) }
        ensures some { OnOk result (1 ≤ length offsets.now) }
    {
        let _inputs = inputs;
        let used = either(self.started, self.tasks.len() != 0);
        refuse_if(used, Refusal::WrongLife)?;
        refuse_if(offsets.is_empty(), Refusal::BadSpec)?;
        let unlike = classes.len() != offsets.len() - 1;
        refuse_if(both(!classes.is_empty(), unlike), Refusal::BadSpec)
    }

    // another pool in the state of this one, which has no tasks and was not started
    #[tactic(auto, using(crate::proofs::Lemmas::empty_is))]
    fn same_anew(&self) -> Pool
        requires started { IsFalse self.now.started }
        requires empty { length self.now.tasks ≡ 0 }
        ensures { result ≡ self.now }
    {
        Pool::new(self.alloc, self.traced)
    }

    // makes room for a graph
    fn reserve(&mut self, tasks: usize, inputs: usize) -> Result<(), AllocError>
        ensures { self.new ≡ self.old }
    {
        self.tasks.reserve(tasks)?;
        self.queues.reserve(tasks)?;
        self.links.reserve(inputs)
    }

    // adds a whole graph; what was added before a fault stays
    fn add_graph(
        &mut self,
        classes: &[u8],
        offsets: &[u32],
        inputs: &[u32],
    ) -> Result<(), (Refusal, u32)>
        requires some { 1 ≤ length offsets.now }
        requires empty { length self.old.tasks ≡ 0 }
        ensures ok { OnOk result (self.new ≡ described (record { classes = classes.now; offsets = offsets.now; inputs = inputs.now })
            (length offsets.now - 1) self.old) }
        ensures none { OnOk result ((t : ℕ) → t + 1 < length offsets.now
            → fault_of (record { classes = classes.now; offsets = offsets.now; inputs = inputs.now }) t self.old ≡ None) }
        ensures exact { IfErr result (λ e.
            IsFirstFault (record { classes = classes.now; offsets = offsets.now; inputs = inputs.now }) self.old e.0 e.1
            ⊎ (e.0 ≡ Refusal.NoMemory)) }
    {
        for t in 0..offsets.len() - 1 {
            let task = self.tasks();
            let class = class_of(classes, t);
            if let Err(refusal) = self.add_described(class, offsets[t], offsets[t + 1], inputs) {
                return Err((refusal, task));
            }
        }
        Ok(())
    }

    // adds a task that reads the inputs at these places
    fn add_described(
        &mut self,
        class: u8,
        from: u32,
        to: u32,
        inputs: &[u32],
    ) -> Result<(), Refusal>
        ensures ok { OnOk result (self.new ≡ with_inputs (slice_range inputs.now from to) (with_task class self.old)) }
        ensures none { OnOk result (next_fault class from to inputs.now self.old ≡ None) }
        ensures exact { IfErr result (λ r. (next_fault class from to inputs.now self.old ≡ Some r) ⊎ (r ≡ Refusal.NoMemory)) }
    {
        self.task(class as u32)?;
        let none = either(to < from, inputs.len() < to as usize);
        refuse_if(none, Refusal::BadSpec)?;
        self.add_inputs(&inputs[from as usize..to as usize])
    }

    // adds inputs of the newest task
    fn add_inputs(&mut self, sources: &[u32]) -> Result<(), Refusal>
        ensures ok { OnOk result (self.new ≡ with_inputs sources.now self.old) }
        ensures none { OnOk result (inputs_refusal sources.now self.old ≡ None) }
        ensures exact { IfErr result (λ r. (inputs_refusal sources.now self.old ≡ Some r) ⊎ (r ≡ Refusal.NoMemory)) }
    {
        for source in sources {
            self.input(*source)?;
        }
        Ok(())
    }
}
