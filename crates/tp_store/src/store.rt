//! The store of a node's tasks, with its calls.
ghost use Rattle.std.specs.{Option.option_map, Prelude.{◌≡◌, ◌≢◌, ℕ, ◌+◌, ◌<◌, ◌≤◌, None, Some, is_some, IsOk, IfOk, IfErr, IfSome, OnOk}};
ghost use Rattle.std.specs.Prelude.{OnErr, MatchOption, unwrap_or, map, IsSome};
ghost use Rattle.tp_slots.specs.Content.{front};

use crate::index::{Entry, Index, entry_of, set_entry};
use crate::item::TaskItem;
use crate::life::{Counts, Delivered, Life};
use crate::places::{begin_at, supply};
use crate::room::insert_fresh;
use smallvec::SmallVec;
use std::alloc::Global;
use std::default::MadeWith;
use std::marker::Model;
use std::mem;
use tp_base::{CLASSES, MAX_INPUTS, MAX_LIVE_TASKS, Refusal, Table, TaskId};
use tp_slots::Slots;

/// A task that has begun, with its inputs in slot order.
#[derive(Drop)]
pub struct Begun<V> {
    /// The task's number.
    pub task: TaskId,
    /// The value of each of its inputs.
    pub inputs: SmallVec<V, 4>,
}

/// The tasks of a node, at most 65,536 of them not done: the life of each, the ready queues by class, and the results
/// of those that are done.
///
/// Contracts see the content.
#[derive(Drop)]
pub struct TaskStore<S: Slots<TaskItem<V>>, V> {
    slots: S,
    index: Index,
    results: Vec<(TaskId, V)>,
    counts: Counts,
    // Always `None`. A store whose own type contains an item shows that its items fit in memory, which its calls rely
    // on.
    no_item: Option<TaskItem<V>>,
    alloc: Global,
}

impl<S: Slots<TaskItem<V>>, V> Model for TaskStore<S, V> {
    ghost use Rattle.tp_store.specs.{Codes.content_code, Content.Content};

    ghost Value = { Content V };

    ghost coded = { content_code V.code };

    ghost use Rattle.tp_store.specs.Kept.{content_of, IsKept};

    ghost view = { λ s. content_of (record { places = S.content s.slots; index = s.index; results = s.results; counts = s.counts }) };

    ghost invariant = { λ s. IsKept (record { places = S.content s.slots; index = s.index; results = s.results; counts = s.counts }) };
}

impl<S: Slots<TaskItem<V>>, V> TaskStore<S, V> {
    ghost use Rattle.tp_store.specs.Content.{nothing_stored, task_of, life_of, values_of, unfinished, counts_of, refusal_of_new};
    ghost use Rattle.tp_store.specs.{Content.{refusal_of_insert, refusal_of_deliver}, Sound.IsSound};

    /// Returns a store without tasks. It allocates nothing.
    pub fn new(alloc: Global) -> Self
        ensures content { result ≡ nothing_stored }
        ensures unfinished { unfinished result ≡ 0 }
    {
        TaskStore {
            slots: S::new(alloc),
            index: Table::new(alloc),
            results: Vec::new(alloc),
            counts: Counts {
                waiting: 0,
                ready: 0,
                running: 0,
            },
            no_item: None,
            alloc,
        }
    }

    /// Returns the life of a task, or `None` if it was never inserted.
    #[inline(always)]
    pub fn life(&self, task: TaskId) -> Option<Life>
        ensures life { result ≡ life_of self.now task }
        ensures sound { IsSound self.now }
    {
        match entry_of(&self.index, task) {
            Some(Entry::Live(place)) => Some(self.slots.get(place).life()),
            Some(Entry::Done(_, _)) => Some(Life::Done),
            None => None,
        }
    }

    /// Returns whether a task was ever inserted.
    pub fn knows(&self, task: TaskId) -> bool
        ensures { result ≡ is_some (task_of self.now task) }
    {
        entry_of(&self.index, task).is_some()
    }

    /// Returns the numbers of tasks that wait, are ready, and run.
    pub fn counts(&self) -> Counts
        ensures counts { result ≡ counts_of self.now }
        ensures unfinished { unfinished self.now ≡ result.waiting + result.ready + result.running }
        ensures limit { unfinished self.now ≤ MAX_LIVE_TASKS }
    {
        self.counts
    }

    /// Returns whether a task is ready, which is whether `begin` returns one.
    pub fn has_ready(&self) -> bool
        ensures { result ≡ is_some (front self.now.ready) }
    {
        self.counts.ready > 0
    }

    /// Returns each done task with its result, in the order in which they were done.
    pub fn results(&self) -> &[(TaskId, V)]
        ensures results { result.now ≡ self.now.results }
        ensures sound { IsSound self.now }
    {
        self.results.as_slice()
    }

    /// Checks whether a task without inputs can be inserted.
    ///
    /// Refused with `TaskKnown` if it was inserted before, `StoreFull` if 65,536 tasks are not done.
    pub fn check_insert(&self, task: TaskId) -> Result<(), Refusal>
        ensures { MatchOption (refusal_of_insert self.now task) (result ≡ Ok tt) (λ e. result ≡ Err e) }
    {
        match entry_of(&self.index, task) {
            Some(_) => Err(Refusal::TaskKnown),
            None => check_new(&self.counts),
        }
    }

    /// Checks whether a value can be delivered: returns what `deliver` would, apart from failures of allocations.
    ///
    /// Refused with `TaskKnown` if the task has begun or is done, or was inserted with another number of inputs;
    /// `SlotTaken` if the slot has its value; `StoreFull` if the task is unknown and 65,536 tasks are not done.
    #[inline(always)]
    pub fn check(&self, task: TaskId, arity: u8, slot: u8) -> Result<(), Refusal>
        ensures { MatchOption (refusal_of_deliver self.now task arity slot) (result ≡ Ok tt) (λ e. result ≡ Err e) }
    {
        match entry_of(&self.index, task) {
            Some(Entry::Live(place)) => self.slots.get(place).check(arity, slot),
            Some(Entry::Done(_, _)) => Err(Refusal::TaskKnown),
            None => check_new(&self.counts),
        }
    }
}

// Checks whether one more task can be inserted.
fn check_new(counts: &Counts) -> Result<(), Refusal>
    requires { counts.now.waiting + counts.now.ready + counts.now.running ≤ MAX_LIVE_TASKS }
    ensures ok { OnOk result (counts.now.waiting + counts.now.ready + counts.now.running < MAX_LIVE_TASKS) }
    ensures err { IfErr result (λ e. (e ≡ Refusal.StoreFull)
        × (counts.now.waiting + counts.now.ready + counts.now.running ≡ MAX_LIVE_TASKS)) }
{
    if counts.live() == MAX_LIVE_TASKS {
        return Err(Refusal::StoreFull);
    }
    Ok(())
}

impl<S: Slots<TaskItem<V>> + Drop, V: Drop> TaskStore<S, V> {
    ghost use Rattle.tp_store.specs.Content.{nothing_stored};

    /// Returns each done task with its result, in the order in which they were done, and leaves the store as new. It
    /// allocates nothing.
    pub fn take_results(&mut self) -> Vec<(TaskId, V)>
        ensures results { result.items ≡ self.old.results }
        ensures emptied { self.new ≡ nothing_stored }
    {
        let emptied = TaskStore::new(self.alloc);
        mem::replace(self, emptied).results
    }
}

impl<S: Slots<TaskItem<V>>, V: MadeWith<Global> + Drop> TaskStore<S, V> {
    ghost use Rattle.tp_store.specs.Content.{task_of, life_of, values_of, unfinished, refusal_of_new, refusal_of_insert};
    ghost use Rattle.tp_store.specs.Content.{refusal_of_deliver, refusal_of_done, with_inserted, with_delivered, with_begun, with_done};
    ghost use Rattle.tp_store.specs.{Content.{delivered_to, inserted_by, NoneGoesBack}, Sound.IsSound};

    /// Inserts a task without inputs, which is ready at once. Its class is 0 to 3.
    ///
    /// Refused with `TaskKnown` if it was inserted before, `StoreFull` if 65,536 tasks are not done, `NoMemory` if an
    /// allocation fails.
    pub fn insert(&mut self, task: TaskId, class: u8) -> Result<(), Refusal>
        requires { class < CLASSES }
        ensures checked { OnOk result (refusal_of_insert self.old task ≡ None) }
        ensures content { OnOk result (self.new ≡ with_inserted self.old task class) }
        ensures unfinished { OnOk result (unfinished self.new ≡ unfinished self.old + 1) }
        ensures lives { NoneGoesBack self.old self.new }

        ensures refusal { IfErr result (λ e. e ≡ unwrap_or (refusal_of_insert self.old task) Refusal.NoMemory) }
        ensures unchanged { OnErr result (self.new ≡ self.old) }
    {
        self.check_insert(task)?;
        insert_fresh(
            &mut self.slots,
            &mut self.index,
            &mut self.results,
            &mut self.counts,
            task,
            0,
            class,
            self.alloc,
        )?;
        Ok(())
    }

    /// Delivers a value to a slot of a task that takes 1 to 16 inputs. The first value inserts the task; with the last
    /// one it is ready. The class, 0 to 3, counts only if the task is unknown. A refused value is returned.
    ///
    /// Refused with `TaskKnown` if the task has begun or is done, or was inserted with another number of inputs;
    /// `SlotTaken` if the slot has its value; `StoreFull` if the task is unknown and 65,536 tasks are not done;
    /// `NoMemory` if the task is unknown and an allocation fails. A delivery to a waiting task allocates nothing.
    #[inline(always)]
    pub fn deliver(
        &mut self,
        task: TaskId,
        arity: u8,
        class: u8,
        slot: u8,
        value: V,
    ) -> Result<Delivered, (Refusal, V)>
        requires arity_in_range { arity ≤ MAX_INPUTS }
        requires class_in_range { class < CLASSES }
        requires slot_in_range { slot < arity }
        ensures checked { OnOk result (refusal_of_deliver self.old task arity slot ≡ None) }
        ensures answer { IfOk result (λ d. d ≡ delivered_to self.old task arity) }
        ensures content { OnOk result (self.new ≡ with_delivered self.old task arity class slot value) }
        ensures unfinished { IfOk result (λ d. unfinished self.new ≡ unfinished self.old + inserted_by d) }
        ensures lives { NoneGoesBack self.old self.new }

        ensures refusal { IfErr result (λ e. e.0 ≡ unwrap_or (refusal_of_deliver self.old task arity slot) Refusal.NoMemory) }
        ensures no_growth { OnErr result (IsSome (task_of self.old task) → IsSome (refusal_of_deliver self.old task arity slot)) }
        ensures value_returned { IfErr result (λ e. e.1 ≡ value) }
        ensures unchanged { OnErr result (self.new ≡ self.old) }
    {
        let Some(entry) = entry_of(&self.index, task) else {
            return self.deliver_unknown(task, arity, class, slot, value);
        };
        let Entry::Live(place) = entry else {
            return Err((Refusal::TaskKnown, value));
        };
        if let Err(refusal) = self.slots.get(place).check(arity, slot) {
            return Err((refusal, value));
        }
        supply(&mut self.slots, &mut self.counts, place, slot, value);
        Ok(Delivered::Filled)
    }

    // Inserts an unknown task with its first value.
    fn deliver_unknown(
        &mut self,
        task: TaskId,
        arity: u8,
        class: u8,
        slot: u8,
        value: V,
    ) -> Result<Delivered, (Refusal, V)>
        requires unknown { task_of self.old task ≡ None }
        requires arity_in_range { arity ≤ MAX_INPUTS }
        requires class_in_range { class < CLASSES }
        requires slot_in_range { slot < arity }
        ensures checked { OnOk result (refusal_of_deliver self.old task arity slot ≡ None) }
        ensures answer { IfOk result (λ d. d ≡ delivered_to self.old task arity) }
        ensures content { OnOk result (self.new ≡ with_delivered self.old task arity class slot value) }
        ensures unfinished { IfOk result (λ d. unfinished self.new ≡ unfinished self.old + inserted_by d) }
        ensures refusal { IfErr result (λ e. e.0 ≡ unwrap_or (refusal_of_deliver self.old task arity slot) Refusal.NoMemory) }
        ensures value_returned { IfErr result (λ e. e.1 ≡ value) }
        ensures unchanged { OnErr result (self.new ≡ self.old) }
    {
        let new_place = match insert_fresh(
            &mut self.slots,
            &mut self.index,
            &mut self.results,
            &mut self.counts,
            task,
            arity,
            class,
            self.alloc,
        ) {
            Ok(new_place) => new_place,
            Err(refusal) => return Err((refusal, value)),
        };
        // The value is added once the item is in its slot, so that the item moves only once.
        supply(&mut self.slots, &mut self.counts, new_place, slot, value);
        Ok(Delivered::Inserted(arity - 1))
    }

    /// Begins the next ready task, of the lowest class that has one, and returns it with its inputs, or returns `None`
    /// if none is ready.
    pub fn begin(&mut self) -> Option<Begun<V>>
        ensures next { option_map (λ b. b.task) result ≡ front self.old.ready }
        ensures life { IfSome result (λ b. life_of self.old b.task ≡ Some Life.Ready) }
        ensures inputs { IfSome result (λ b. map (λ v. Some v) b.inputs.items ≡ values_of self.old b.task) }
        ensures content { MatchOption result (self.new ≡ self.old) (λ b. self.new ≡ with_begun self.old b.task) }
        ensures unfinished { unfinished self.new ≡ unfinished self.old }
        ensures lives { NoneGoesBack self.old self.new }
        ensures sound { IsSound self.old }
    {
        let Some(place) = self.slots.pop_ready() else {
            return None;
        };
        let (task, inputs) = begin_at(&mut self.slots, place);
        self.counts.moved(Some(Life::Ready), Life::Running);
        Some(Begun { task, inputs })
    }

    /// Records that a running task is done, with its result. A refused result is returned.
    ///
    /// Refused with `NoTask` if the task was never inserted, `WrongLife` if it does not run.
    pub fn done(&mut self, task: TaskId, value: V) -> Result<(), (Refusal, V)>
        ensures checked { OnOk result (refusal_of_done (life_of self.old task) ≡ None) }
        ensures content { OnOk result (self.new ≡ with_done self.old task value) }
        ensures unfinished { OnOk result (unfinished self.new + 1 ≡ unfinished self.old) }
        ensures lives { NoneGoesBack self.old self.new }

        ensures refusal { IfErr result (λ e. Some e.0 ≡ refusal_of_done (life_of self.old task)) }
        ensures value_returned { IfErr result (λ e. e.1 ≡ value) }
        ensures unchanged { OnErr result (self.new ≡ self.old) }
    {
        let place = match entry_of(&self.index, task) {
            Some(Entry::Live(place)) => place,
            Some(Entry::Done(_, _)) => return Err((Refusal::WrongLife, value)),
            None => return Err((Refusal::NoTask, value)),
        };
        let item = self.slots.get(place);
        let Life::Running = item.life() else {
            return Err((Refusal::WrongLife, value));
        };
        let entry = Entry::Done(item.arity(), item.class());
        let _ = self.slots.give_back(place);
        set_entry(&mut self.index, task, entry);
        self.results.push_reserved((task, value));
        self.counts.moved(Some(Life::Running), Life::Done);
        Ok(())
    }
}
