//! The tasks of a pool. It counts those that are ready, of each class, and those that are not done, that run, and that wait for an input from
//! outside.
ghost use Rattle.std.specs.Prelude.{◌≡◌, ◌≤◌, ◌<◌, ◌+◌, ◌++◌, ◌∷◌, [], length, map, IfSome, IfNone, OnOk, OnErr, IsTrue, slice_get};
ghost use Rattle.std.specs.Prelude.{slice_set, Some};
ghost use Rattle.tp_dag.specs.declared.limits.TheConstants.{MAX_TASKS};
ghost use Rattle.tp_dag.specs.declared.entry.Stage.TheVariants as stage;
ghost use Rattle.tp_dag.specs.Counted.{one, may_begin, is_ready, entry_of, as_new, ready_at, NoneOf, NoneReady, ComesFirst};
ghost use Rattle.tp_dag.specs.State.{count_where, is_unfinished, is_dispatched, is_awaiting};

use crate::entry::{Stage, Task, both, is_done, is_fresh, is_running};
use crate::queues::Queues;
use std::alloc::{AllocError, Global};
use std::marker::Model;

/// The tasks, by number.
#[derive(Drop)]
pub(crate) struct Tasks {
    items: Vec<Task>,
    ready: [u32; 4],
    left: u32,
    running: u32,
    awaiting: u32,
}

impl Model for Tasks {
    ghost use Rattle.tp_dag.specs.Counted.{TaskList, IsTasks, items_of};

    ghost Value = { TaskList };

    ghost view = { items_of };

    ghost invariant = { IsTasks };
}

/// Returns whether a task was not dispatched and lacks nothing.
#[inline]
pub(crate) fn may_begin(task: Task) -> bool
    ensures { result ≡ may_begin task }
{
    is_fresh(task.stage) && task.missing == 0
}

/// Returns a count of tasks when one is written that was counted if `from`, and is counted now if `to`.
#[inline]
fn moved(count: u32, from: bool, to: bool) -> u32
    ensures { one from ≤ count → count ≤ MAX_TASKS → result + one from ≡ count + one to }
{
    if from {
        if to { count } else { count.saturating_sub(1) }
    } else {
        if to { count.saturating_add(1) } else { count }
    }
}

impl Tasks {
    pub(crate) fn new(alloc: Global) -> Tasks
        ensures { result ≡ [] }
    {
        Tasks {
            items: Vec::new(alloc),
            ready: [0; 4],
            left: 0,
            running: 0,
            awaiting: 0,
        }
    }

    /// Makes room for more tasks.
    pub(crate) fn reserve(&mut self, tasks: usize) -> Result<(), AllocError>
        ensures { self.new ≡ self.old }
    {
        self.items.reserve(tasks)
    }

    #[inline]
    pub(crate) fn len(&self) -> usize
        ensures count { result ≡ length self.now }
        ensures few { length self.now ≤ MAX_TASKS }
    {
        self.items.len()
    }

    /// Returns the number of ready tasks of a class.
    #[inline]
    #[tactic(auto, using(crate::proofs::Lemmas::ready_few))]
    pub(crate) fn ready_of(&self, class: u8) -> u32
        requires { class < 4 }
        ensures count { result ≡ count_where (is_ready class) self.now }
        ensures few { result ≤ MAX_TASKS }
    {
        self.ready[class as usize]
    }

    /// Returns the number of tasks that are not done.
    #[inline]
    #[tactic(auto, using(crate::proofs::Lemmas::entries_of, crate::proofs::Lemmas::count_few))]
    pub(crate) fn left(&self) -> u32
        ensures count { result ≡ count_where is_unfinished (map entry_of self.now) }
        ensures few { result ≤ MAX_TASKS }
    {
        self.left
    }

    /// Returns the number of tasks that run.
    #[inline]
    #[tactic(auto, using(crate::proofs::Lemmas::entries_of))]
    pub(crate) fn running(&self) -> u32
        ensures { result ≡ count_where is_dispatched (map entry_of self.now) }
    {
        self.running
    }

    /// Returns the number of tasks that wait for an input from outside.
    #[inline]
    #[tactic(auto, using(crate::proofs::Lemmas::entries_of))]
    pub(crate) fn awaiting(&self) -> u32
        ensures { result ≡ count_where is_awaiting (map entry_of self.now) }
    {
        self.awaiting
    }

    /// Returns a task, if there is one of this number.
    #[inline]
    pub(crate) fn get(&self, number: u32) -> Option<Task>
        ensures { result ≡ slice_get self.now number }
    {
        self.items.get(number as usize).copied()
    }

    /// Returns a task.
    #[inline]
    pub(crate) fn at(&self, number: u32) -> Task
        requires { number < length self.now }
        ensures { slice_get self.now number ≡ Some result }
    {
        self.items[number as usize]
    }

    /// Returns whether the newest task is ready.
    #[inline]
    pub(crate) fn is_last_ready(&self) -> bool {
        match self.items.last() {
            Some(newest) => may_begin(*newest),
            None => false,
        }
    }

    /// Writes a task that was `was`; its class stays. What stays the same costs no instruction, once the compiler has both.
    #[inline]
    pub(crate) fn set(&mut self, number: u32, was: Task, task: Task)
        requires was { slice_get self.old number ≡ Some was }
        requires class { task.class ≡ was.class }
        ensures { self.new ≡ slice_set self.old number task }
    {
        let class = was.class as usize;
        self.ready[class] = moved(self.ready[class], may_begin(was), may_begin(task));
        self.left = moved(self.left, !is_done(was.stage), !is_done(task.stage));
        self.running = moved(self.running, is_running(was.stage), is_running(task.stage));
        self.awaiting = moved(self.awaiting, was.outside != 0, task.outside != 0);
        self.items[number as usize] = task;
    }

    /// Writes a task at this stage, which lacks this number of inputs, and this number of these from outside.
    #[inline]
    pub(crate) fn put(&mut self, number: u32, was: Task, stage: Stage, missing: u32, outside: u32)
        requires { slice_get self.old number ≡ Some was }
        ensures { self.new ≡ slice_set self.old number (record was { stage = stage; missing = missing; outside = outside }) }
    {
        self.set(
            number,
            was,
            Task {
                stage,
                missing,
                outside,
                ..was
            },
        );
    }

    /// Adds a task.
    pub(crate) fn push(&mut self, task: Task) -> Result<(), AllocError>
        requires class { task.class < 4 }
        requires few { length self.old < MAX_TASKS }
        ensures ok { OnOk result (self.new ≡ self.old ++ task ∷ []) }
        ensures err { OnErr result (self.new ≡ self.old) }
    {
        self.items.reserve(1)?;
        let class = task.class as usize;
        self.ready[class] = moved(self.ready[class], false, may_begin(task));
        self.left = moved(self.left, false, !is_done(task.stage));
        self.running = moved(self.running, false, is_running(task.stage));
        self.awaiting = moved(self.awaiting, false, task.outside != 0);
        self.items.push_reserved(task);
        Ok(())
    }

    /// Returns whether a task is ready, and of the class.
    #[inline]
    fn is_of(&self, class: u8, number: u32) -> bool
        ensures { result ≡ ready_at class (slice_get self.now number) }
    {
        match self.get(number) {
            Some(task) => both(task.class == class, may_begin(task)),
            None => false,
        }
    }

    /// Finds a ready task of the class: this one, or else the one of the lowest number.
    fn find_of(&self, class: u8, first: u32) -> Option<u32>
        ensures none { IfNone result (NoneOf class self.now) }
        ensures some { IfSome result (λ t. IsTrue (ready_at class (slice_get self.now t))) }
    {
        if self.is_of(class, first) {
            return Some(first);
        }
        for number in 0..self.items.len() as u32 {
            if self.is_of(class, number) {
                return Some(number);
            }
        }
        None
    }

    /// Finds a ready task of the lowest class that has one, and of these the first in the queue.
    pub(crate) fn find(&self, queues: &mut Queues) -> Option<u32>
        ensures some { IfSome result (λ t. ComesFirst t self.now) }
        ensures none { IfNone result (NoneReady self.now) }
    {
        for class in 0..4u8 {
            if self.ready_of(class) != 0 {
                let first = queues.pop(class);
                return self.find_of(class, first);
            }
        }
        None
    }

    /// Lets each task wait for all its inputs again, and for none from outside.
    pub(crate) fn reset(&mut self)
        ensures { self.new ≡ map as_new self.old }
    {
        for number in 0..self.items.len() as u32 {
            let was = self.at(number);
            self.put(number, was, Stage::Fresh, was.inputs, 0);
        }
    }
}
