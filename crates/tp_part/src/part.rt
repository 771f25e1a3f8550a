//! A part of a task graph. Each part describes all tasks of the graph, in the same order; it keeps its own tasks, in a pool, and the edges
//! that lead to them from other parts and from them to other parts.
ghost use Rattle.std.specs.Prelude.{◌≡◌, ◌⊎◌, ℕ, true, IfOk, IfErr, IfSome, IfNone, OnOk, OnErr, Ok, Err, Some, None, IsTrue, IsFalse};
ghost use Rattle.tp_base.specs.Checks.{first_refusal};
ghost use Rattle.tp_part.specs.Calls.{new_part, task_checks, start_checks, next_checks, done_checks, arrived_checks, MayDescribe};
ghost use Rattle.tp_part.specs.Calls.{with_task, with_own, with_foreign, with_arrival, has_arrived, Runs, Sends, IsWaiting, IsOver, Ends};

use crate::describe::{add_incoming, add_outgoing, all_below, place_of, places_of};
use crate::edges::Edges;
use crate::pass::{post_messages, release_readers};
use std::alloc::Global;
use std::marker::Model;
use tp_base::Refusal;
use tp_dag::{MAX_INPUTS, MAX_OUTSIDE, MAX_TASKS, Next as PoolNext, Pool};

/// What a part is to do next.
#[derive(Clone, Copy, Debug, PartialEq, Eq)]
pub enum Next {
    /// Run the task of this number, and report it by `done`.
    Run(u32),
    /// Send the value of this task to this part, with the number of the task.
    Send(u32, u32),
    /// Wait: for a task that runs, or for a message.
    Wait,
    /// Stop: all tasks of this part are done, all its messages were sent, and none is in flight to it.
    Over,
}

/// One part of a graph. Contracts see its own tasks and how far they are, the values that go to and from other parts, and the messages.
#[derive(Drop)]
pub struct Part {
    number: u32,
    parts: u32,
    // how many tasks were described, of all parts, and how many inputs they have
    described: u32,
    inputs: u32,
    // the numbers of the own tasks; the pool's numbers are their places here
    numbers: Vec<u32>,
    pool: Pool,
    incoming: Edges,
    outgoing: Edges,
    outbox: Vec<u32>,
    sent: usize,
    alloc: Global,
}

impl Model for Part {
    ghost use Rattle.tp_part.specs.State.{PartState};

    ghost Value = { PartState };

    ghost use Rattle.tp_part.specs.Kept.{state_of, IsPart};

    ghost view = { state_of };

    ghost invariant = { IsPart };
}

impl Part {
    /// Creates part `number` of `parts`, without a task. It allocates nothing.
    pub fn new(alloc: Global, number: u32, parts: u32) -> Part
        ensures { result ≡ new_part number parts }
    {
        Part {
            number,
            parts,
            described: 0,
            inputs: 0,
            numbers: Vec::new(alloc),
            pool: Pool::new(alloc, false),
            incoming: Edges::new(alloc),
            outgoing: Edges::new(alloc),
            outbox: Vec::new(alloc),
            sent: 0,
            alloc,
        }
    }

    /// Returns how many tasks were described, of all parts.
    pub fn described(&self) -> u32
        ensures { result ≡ self.now.described }
    {
        self.described
    }

    /// Describes one more task of the whole graph: the part that owns it, its class, 0 (which runs first) to 3, and the tasks that it
    /// reads. Returns its number, which is how many tasks were described before it. Every part describes all tasks, in the same order; a
    /// task of another part that concerns no own task costs no memory.
    ///
    /// Refused, and nothing changes, with the first of these: `WrongLife` if the part was started; `NoNode` if there is no such owner;
    /// `BadSpec` if the class is above 3; `NoTask` if an input was not described before; `HistoryFull` with 1,048,576 if it has more
    /// inputs; `HistoryFull` with 134,217,728 if as many tasks were described; `HistoryFull` with 536,870,912 if these would have more
    /// inputs; `NoMemory`. Parts that describe the same tasks refuse the same ones, but for memory.
    pub fn task(&mut self, owner: u32, class: u32, inputs: &[u32]) -> Result<u32, Refusal>
        ensures ok { IfOk result (λ t. (t ≡ self.old.described) × (self.new ≡ with_task owner class inputs.now self.old)) }
        ensures err { OnErr result (self.new ≡ self.old) }
        ensures checks { IfSome (first_refusal (task_checks self.old owner class inputs.now)) (λ r. result ≡ Err r) }
        ensures exact { IfErr result (λ r. (first_refusal (task_checks self.old owner class inputs.now) ≡ Some r) ⊎
            (r ≡ Refusal.NoMemory)) }
    {
        if let Some(refusal) = self.task_refusal(owner, class, inputs) {
            return Err(refusal);
        }
        let number = self.described;
        if owner == self.number {
            self.add_own(class, inputs)?;
        } else {
            self.add_foreign(owner, inputs)?;
        }
        Ok(number)
    }

    // the first check of `task` that holds
    fn task_refusal(&self, owner: u32, class: u32, inputs: &[u32]) -> Option<Refusal>
        ensures refusal { result ≡ first_refusal (task_checks self.now owner class inputs.now) }
        ensures may { IfNone result (MayDescribe owner class inputs.now self.now) }
    {
        if self.pool.is_started() {
            return Some(Refusal::WrongLife);
        }
        if owner >= self.parts {
            return Some(Refusal::NoNode);
        }
        if class > 3 {
            return Some(Refusal::BadSpec);
        }
        if !all_below(inputs, self.described) {
            return Some(Refusal::NoTask);
        }
        if inputs.len() > MAX_OUTSIDE as usize {
            return Some(Refusal::HistoryFull(MAX_OUTSIDE));
        }
        if self.described >= MAX_TASKS {
            return Some(Refusal::HistoryFull(MAX_TASKS));
        }
        if inputs.len() > MAX_INPUTS as usize - self.inputs as usize {
            return Some(Refusal::HistoryFull(MAX_INPUTS));
        }
        None
    }

    // adds an own task, if memory can be had
    fn add_own(&mut self, class: u32, inputs: &[u32]) -> Result<(), Refusal>
        requires { MayDescribe self.old.number class inputs.now self.old }
        ensures ok { OnOk result (self.new ≡ with_own class inputs.now self.old) }
        ensures err { OnErr result (self.new ≡ self.old) }
        ensures exact { IfErr result (λ r. r ≡ Refusal.NoMemory) }
    {
        let place = self.numbers.len() as u32;
        let sources = places_of(self.alloc, &self.numbers, inputs)?;
        self.numbers.reserve(1)?;
        let before = self.incoming.len();
        add_incoming(&mut self.incoming, &self.numbers, inputs, place)?;
        let outside = (self.incoming.len() - before) as u32;
        if let Err(refusal) = self.pool.spawn(class, &sources, outside) {
            self.incoming.truncate(before);
            return Err(refusal);
        }
        self.numbers.push_reserved(self.described);
        self.described += 1;
        self.inputs += inputs.len() as u32;
        Ok(())
    }

    // adds a task of another part, if memory can be had
    fn add_foreign(&mut self, owner: u32, inputs: &[u32]) -> Result<(), Refusal>
        requires { (class : ℕ) × MayDescribe owner class inputs.now self.old }
        ensures ok { OnOk result (self.new ≡ with_foreign owner inputs.now self.old) }
        ensures err { OnErr result (self.new ≡ self.old) }
        ensures exact { IfErr result (λ r. r ≡ Refusal.NoMemory) }
    {
        let before = self.outgoing.len();
        add_outgoing(&mut self.outgoing, &self.numbers, inputs, owner)?;
        let room = self.outgoing.len() - self.outbox.len();
        if self.outbox.reserve(room).is_err() {
            self.outgoing.truncate(before);
            return Err(Refusal::NoMemory);
        }
        self.described += 1;
        self.inputs += inputs.len() as u32;
        Ok(())
    }

    /// Starts the part: all tasks of the graph are described.
    ///
    /// Refused, and nothing changes: `WrongLife` if it was started.
    pub fn start(&mut self) -> Result<(), Refusal>
        ensures ok { OnOk result (self.new ≡ record self.old { started = true }) }
        ensures err { OnErr result (self.new ≡ self.old) }
        ensures checks { IfSome (first_refusal (start_checks self.old)) (λ r. result ≡ Err r) }
        ensures exact { IfErr result (λ r. first_refusal (start_checks self.old) ≡ Some r) }
    {
        // it keeps no events, so that it is refused for nothing else
        self.pool.start()?;
        Ok(())
    }

    /// Returns what the part is to do next. Messages that are due come first, in the order in which their tasks were done; then a ready
    /// task of the lowest class that has one.
    ///
    /// Refused, and nothing changes: `WrongLife` if the part was not started. It is never refused for room or memory.
    pub fn next(&mut self) -> Result<Next, Refusal>
        ensures run { IfOk result (λ next. (t : ℕ) → next ≡ Next.Run t → Runs t self.old self.new) }
        ensures send { IfOk result (λ next. (u q : ℕ) → next ≡ Next.Send u q → Sends u q self.old self.new) }
        ensures wait { result ≡ Ok Next.Wait → IsWaiting self.old × (self.new ≡ self.old) }
        ensures over { result ≡ Ok Next.Over → IsOver self.old × (self.new ≡ self.old) }
        ensures err { OnErr result (self.new ≡ self.old) }
        ensures checks { IfSome (first_refusal (next_checks self.old)) (λ r. result ≡ Err r) }
        ensures exact { IfErr result (λ r. first_refusal (next_checks self.old) ≡ Some r) }
    {
        if !self.pool.is_started() {
            return Err(Refusal::WrongLife);
        }
        if self.sent < self.outbox.len() {
            let edge = self.outgoing.at(self.outbox[self.sent]);
            self.sent += 1;
            return Ok(Next::Send(edge.value, edge.target));
        }
        let next = self.pool.next()?;
        match next {
            PoolNext::Run(place) => Ok(Next::Run(self.numbers[place as usize])),
            PoolNext::Wait => Ok(Next::Wait),
            PoolNext::Finished => Ok(Next::Over),
        }
    }

    /// Reports a task done that ran. Messages with its value are due.
    ///
    /// Refused, and nothing changes: `NoTask` if it is no task of this part; `WrongLife` if it does not run. It is never refused for room
    /// or memory.
    pub fn done(&mut self, task: u32) -> Result<(), Refusal>
        ensures ok { OnOk result (Ends task self.old self.new) }
        ensures err { OnErr result (self.new ≡ self.old) }
        ensures checks { IfSome (first_refusal (done_checks self.old task)) (λ r. result ≡ Err r) }
        ensures exact { IfErr result (λ r. first_refusal (done_checks self.old task) ≡ Some r) }
    {
        let Some(place) = place_of(&self.numbers, task) else {
            return Err(Refusal::NoTask);
        };
        if let Err(refusal) = self.pool.done(place) {
            return Err(refusal);
        }
        post_messages(&mut self.outgoing, &mut self.outbox, task);
        Ok(())
    }

    /// Reports that a message with the value of this task arrived, and that the value is where tasks of this part read it.
    ///
    /// Refused, and nothing changes, with the first of these: `WrongLife` if the part was not started; `NoTask` if no task of this part
    /// reads the value, or it is an own one; `WrongLife` if it arrived before, so that a doubled message does no harm.
    pub fn arrived(&mut self, task: u32) -> Result<(), Refusal>
        ensures ok { OnOk result (self.new ≡ with_arrival task self.old) }
        ensures err { OnErr result (self.new ≡ self.old) }
        ensures checks { IfSome (first_refusal (arrived_checks self.old task)) (λ r. result ≡ Err r) }
        ensures exact { IfErr result (λ r. first_refusal (arrived_checks self.old task) ≡ Some r) }
    {
        if let Some(refusal) = self.arrival_refusal(task) {
            return Err(refusal);
        }
        release_readers(&mut self.incoming, &mut self.pool, task);
        Ok(())
    }

    // the first check of `arrived` that holds
    fn arrival_refusal(&self, task: u32) -> Option<Refusal>
        ensures refusal { result ≡ first_refusal (arrived_checks self.now task) }
        ensures may { IfNone result (IsTrue self.now.started × IsFalse (has_arrived task self.now.incoming)) }
    {
        if !self.pool.is_started() {
            return Some(Refusal::WrongLife);
        }
        let Some(arrived) = self.incoming.has_arrived(task) else {
            return Some(Refusal::NoTask);
        };
        if arrived {
            return Some(Refusal::WrongLife);
        }
        None
    }
}
