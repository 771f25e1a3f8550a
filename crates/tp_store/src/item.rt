//! A task that is not done, with the inputs that have arrived.
ghost use Rattle.smallvec.specs.SmallVec.{small_vec_len, HasRoomFor};
ghost use Rattle.std.specs.Prelude.{◌≡◌, ◌<◌, ◌≤◌, [], length, map, insert, Some, None, is_some, slice_index_or, true, false, MatchOption};
ghost use Rattle.std.specs.Prelude.{IsOk, IfOk, IfErr};
ghost use Rattle.tp_store.specs.{Content.{fresh, with_value, begun, is_waiting, has_begun, refusal_of_value}, Items.count_set};

use crate::life::Life;
use smallvec::SmallVec;
use std::alloc::Global;
use std::default::MadeWith;
use std::marker::Model;
use std::mem;
use tp_base::{CLASSES, MAX_INPUTS, Refusal, TaskId};

/// A task that is not done, with the inputs that have arrived. A store keeps these in its slots.
#[derive(Drop)]
pub struct TaskItem<V> {
    number: TaskId,
    life: Life,
    arity: u8,
    class: u8,
    // Which slots are filled, and their values in slot order.
    filled: [bool; 16],
    values: SmallVec<V, 4>,
}

impl<V> Model for TaskItem<V> {
    ghost use Rattle.tp_store.specs.Items.{Item, slots_of, IsFilled};

    ghost Value = { Item V };

    ghost view = { λ x. record {
      number = x.number;
      task = record { life = x.life; arity = x.arity; class = x.class; values = slots_of x.life x.arity x.filled x.values.items };
    } };

    ghost invariant = { λ x. IsFilled
        (record { life = x.life; arity = x.arity; class = x.class; values = slots_of x.life x.arity x.filled x.values.items }) x.filled
        x.values };
}

impl<V> TaskItem<V> {
    /// Returns the task's number.
    pub(crate) fn number(&self) -> TaskId
        ensures { result ≡ self.now.number }
    {
        self.number
    }

    /// Returns the task's life.
    pub(crate) fn life(&self) -> Life
        ensures { result ≡ self.now.task.life }
    {
        self.life
    }

    /// Returns the number of inputs it takes.
    pub(crate) fn arity(&self) -> u8
        ensures { result ≡ self.now.task.arity }
    {
        self.arity
    }

    /// Returns its class.
    pub(crate) fn class(&self) -> u8
        ensures value { result ≡ self.now.task.class }
        ensures in_range { result < CLASSES }
    {
        self.class
    }

    /// Checks whether a value can be delivered to a slot of this task, if the task takes `arity` inputs.
    ///
    /// Refused with `TaskKnown` if the task has begun or takes another number of inputs, `SlotTaken` if the slot has
    /// its value.
    pub(crate) fn check(&self, arity: u8, slot: u8) -> Result<(), Refusal>
        ensures { MatchOption (refusal_of_value self.now.task arity slot) (result ≡ Ok tt) (λ e. result ≡ Err e) }
    {
        if matches!(self.life, Life::Running | Life::Done) || self.arity != arity {
            return Err(Refusal::TaskKnown);
        }
        if self.has_value(slot) {
            return Err(Refusal::SlotTaken);
        }
        Ok(())
    }

    /// Returns whether a slot has its value, before the task has begun.
    fn has_value(&self, slot: u8) -> bool
        requires { has_begun self.now.task.life ≡ false }
        ensures { result ≡ is_some (slice_index_or self.now.task.values slot None) }
    {
        slot < self.arity && self.filled[slot as usize]
    }
}

impl<V: MadeWith<Global> + Drop> TaskItem<V> {
    /// Returns a task without inputs, with room for all of them. Up to four inputs allocate nothing.
    pub(crate) fn new(number: TaskId, arity: u8, class: u8, alloc: Global) -> Result<Self, Refusal>
        requires arity_in_range { arity ≤ MAX_INPUTS }
        requires class_in_range { class < CLASSES }
        ensures item { IfOk result (λ item. item ≡ record { number = number; task = fresh arity class }) }
        ensures refusal { IfErr result (λ e. e ≡ Refusal.NoMemory) }
        ensures few { arity ≤ 4 → IsOk result }
    {
        let mut values = SmallVec::new(alloc);
        values.reserve_exact(arity as usize)?;
        Ok(TaskItem {
            number,
            life: Life::lacking(arity),
            arity,
            class,
            filled: [false; 16],
            values,
        })
    }

    /// Puts a value into a free slot of a waiting task.
    #[inline(always)]
    pub(crate) fn fill(&mut self, slot: u8, value: V)
        requires waiting { is_waiting self.old.task.life ≡ true }
        requires slot_in_range { slot < self.old.task.arity }
        requires free { slice_index_or self.old.task.values slot None ≡ None }
        ensures { self.new ≡ record self.old { task = with_value self.old.task slot value } }
    {
        let before = count_set(&self.filled[..slot as usize]);
        insert_reserved(&mut self.values, before, value);
        self.filled[slot as usize] = true;
        self.life = self.life.supplied();
    }

    /// Begins a ready task. Returns its inputs, moved out in slot order.
    pub(crate) fn begin(&mut self) -> SmallVec<V, 4>
        requires { self.old.task.life ≡ Life.Ready }
        ensures inputs { map (λ v. Some v) result.items ≡ self.old.task.values }
        ensures task { self.new ≡ record self.old { task = begun self.old.task } }
    {
        self.life = Life::Running;
        self.filled = [false; 16];
        let alloc = *self.values.allocator();
        mem::replace(&mut self.values, SmallVec::new(alloc))
    }
}

// Inserts a value into a vector that has room for it.
#[inline(always)]
fn insert_reserved<V: MadeWith<Global> + Drop>(values: &mut SmallVec<V, 4>, at: usize, value: V)
    requires in_range { at ≤ small_vec_len values.old }
    requires room { HasRoomFor values.old 1 }
    ensures items { values.new.items ≡ insert values.old.items at value }
    ensures capacity { values.new.capacity ≡ values.old.capacity }
{
    // Inputs mostly arrive in slot order, and then no value has to move.
    if at == values.len() {
        values.push_reserved(value);
        return;
    }
    let _room_was_made = values.insert(at, value);
}

// Returns the number of flags that are set.
#[inline(always)]
fn count_set(flags: &[bool]) -> usize
    ensures value { result ≡ count_set flags.now }
    ensures bound { result ≤ length flags.now }
{
    let mut count = 0;
    for is_set in flags {
        if *is_set {
            count += 1;
        }
    }
    count
}
