//! The flow: it gives out handles, and infers the inputs of each task.
ghost use Rattle.std.specs.Prelude.{◌≡◌, ◌++◌, ◌⊎◌, ℕ, List, [], length, IfOk, IfErr, IfSome, OnOk, OnErr, Err, Some, None};
ghost use Rattle.tp_base.specs.Checks.{first_refusal};
ghost use Rattle.tp_flow.specs.Description.{Description, AreInputs, all_below, with_handle, with_task};
ghost use Rattle.tp_flow.specs.State.{Follows, HasDescription, IsReady, handle_checks, find_checks, is_not_above};

use crate::access::{Access, Handle};
use crate::limits::MAX_HANDLES;
use crate::uses::{Uses, are_below, find_inputs, make_room, record};
use std::alloc::Global;
use std::marker::Model;
use tp_base::Refusal;

/// The tasks that a program described, as far as later tasks may have to wait for them. Contracts see, of each handle, the last writer and
/// the readers since then, and say which descriptions the flow follows. Separately they see for which handles there is room.
#[derive(Drop)]
pub struct Flow {
    alloc: Global,
    newest: Option<u32>,
    handles: Vec<Uses>,
    // what the task waits for that `find` was called for last; room for the next one
    found: Vec<u32>,
}

impl Model for Flow {
    ghost use Rattle.tp_flow.specs.State.{RoomyFlow};

    ghost Value = { RoomyFlow };

    ghost use Rattle.tp_flow.specs.State.{view_of, HasDescription};

    ghost view = { view_of };

    ghost invariant = { λ p. HasDescription (view_of p).state };
}

impl Flow {
    /// Creates a flow without a handle or a task. It allocates nothing.
    pub fn new(alloc: Global) -> Flow
        ensures { Follows (record { handles = 0; tasks = [] }) result.state }
    {
        Flow {
            alloc,
            newest: None,
            handles: Vec::new(alloc),
            found: Vec::new(alloc),
        }
    }

    /// Adds a handle, which names a piece of data, and returns its number, which is how many handles there were before it.
    ///
    /// Refused, and nothing changes: `HistoryFull` with 134,217,728 if there are as many handles; `NoMemory`.
    pub fn handle(&mut self) -> Result<Handle, Refusal>
        ensures ok { IfOk result (λ h. h.0 ≡ length self.old.state.handles) }
        ensures follows { OnOk result ((d : Description) → Follows d self.old.state → Follows (with_handle d) self.new.state) }
        ensures err { OnErr result (self.new ≡ self.old) }
        ensures checks { IfSome (first_refusal (handle_checks self.old.state)) (λ r. result ≡ Err r) }
        ensures exact { IfErr result (λ r. (first_refusal (handle_checks self.old.state) ≡ Some r) ⊎ (r ≡ Refusal.NoMemory)) }
    {
        let count = self.handles.len();
        if count >= MAX_HANDLES as usize {
            return Err(Refusal::HistoryFull(MAX_HANDLES));
        }
        self.handles.push(Uses::new(self.alloc))?;
        Ok(Handle(count as u32))
    }

    /// Returns the number of handles.
    pub fn handles(&self) -> usize
        ensures { result ≡ length self.now.state.handles }
    {
        self.handles.len()
    }

    /// Appends the inputs of a task to `inputs`: the numbers of the earlier tasks that it has to wait for, ascending and each once. Makes
    /// room to `record` the task, and changes nothing else: a caller may record it, or go on with another one.
    ///
    /// A task that reads a handle waits for its last writer. A task that writes one waits for the tasks that read it since the last writer
    /// or, if there are none, for that writer. A task may name a handle several times, as in OpenMP: it waits for what each access waits
    /// for, and then counts as a writer of the handle if any of them writes it.
    ///
    /// The cost is that of the accesses and of what each waits for, and of sorting the latter.
    ///
    /// Refused, and nothing changes but the room: `TaskKnown` if the number is not above that of each task that was recorded; `BadSpec` if
    /// there is no such handle; `NoMemory`.
    pub fn find(
        &mut self,
        task: u32,
        accesses: &[Access],
        inputs: &mut Vec<u32>,
    ) -> Result<(), Refusal>
        ensures inputs { OnOk result ((d : Description) → Follows d self.old.state
            → (added : List ℕ) × (inputs.new.items ≡ inputs.old.items ++ added) × AreInputs accesses.now d.tasks added) }
        ensures ready { OnOk result (IsReady task accesses.now self.new) }
        ensures same { self.new.state ≡ self.old.state }
        ensures unchanged { OnErr result (inputs.new.items ≡ inputs.old.items) }
        ensures checks { IfSome (first_refusal (find_checks self.old.state task accesses.now)) (λ r. result ≡ Err r) }
        ensures exact { IfErr result (λ r. (first_refusal (find_checks self.old.state task accesses.now) ≡ Some r) ⊎ (r ≡ Refusal.NoMemory)) }
    {
        if self.is_not_above(task) {
            return Err(Refusal::TaskKnown);
        }
        if !self.has_all(accesses) {
            return Err(Refusal::BadSpec);
        }
        find_inputs(&self.handles, accesses, &mut self.found)?;
        make_room(&mut self.handles, accesses)?;
        inputs.extend_from_slice(&self.found)?;
        Ok(())
    }

    /// Records the task: later tasks may have to wait for it. `find` was called for these accesses since the last call of `record`, and
    /// returned `Ok`. So this cannot fail, and allocates nothing.
    pub fn record(&mut self, task: u32, accesses: &[Access])
        requires ready { IsReady task accesses.now self.old }
        ensures follows { (d : Description) → Follows d self.old.state → Follows (with_task task accesses.now d) self.new.state }
    {
        record(&mut self.handles, task, accesses);
        self.newest = Some(task);
    }

    // whether the number is not above that of the newest task
    fn is_not_above(&self, task: u32) -> bool
        ensures { result ≡ is_not_above self.now.state.newest task }
    {
        match self.newest {
            Some(newest) => task <= newest,
            None => false,
        }
    }

    // whether each handle is there
    fn has_all(&self, accesses: &[Access]) -> bool
        ensures { result ≡ all_below (length self.now.state.handles) accesses.now }
    {
        are_below(self.handles.len(), accesses)
    }

    /// States that the flow follows a description at any time.
    pub fn invariant(&self)
        ensures { HasDescription self.now.state }
    {
        let _ = &self.newest;
    }
}
