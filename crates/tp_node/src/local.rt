//! A node without ledgers: its store, its open actions and its monitor.
ghost use Rattle.std.specs.{Option.option_map, Prelude.{◌≡◌, ◌+◌, ◌≤◌, ◌<◌, true, None, Some, map, unwrap_or, is_some, OnOk, OnErr, IfOk}};
ghost use Rattle.{std.specs.{Prelude.{IfErr, IfSome, OnSome, IsTrue, MatchOption}, Result.result_err}, tp_base.specs.Checks.first_refusal};
ghost use Rattle.{tp_monitor.specs.{Monitors.IsWithinLimits, declared.TaskpoolState.TheVariants.Terminated}, tp_slots.specs.Content.front};
ghost use Rattle.tp_node.specs.Actions.{open_count, without_opening, with_named, without_named, with_message, without_message, has_message};
ghost use Rattle.tp_node.specs.Locals.{first_state, pending_here, is_live, standing, refusal_of_insertion, refusal_of_delivery};
ghost use Rattle.tp_node.specs.Locals.{send_checks, receive_checks, end_checks, open_checks, close_checks, ready_checks, finish_checks};
ghost use Rattle.tp_store.specs.Content.{with_inserted, with_delivered, with_begun, with_done, delivered_to, values_of, counts_of, task_of};
ghost use Rattle.tp_store.specs.{Content.{life_of, unfinished, refusal_of_done, inserted_by}, Sound.IsSound};
ghost use Rattle.std.specs.FinSet as set;
ghost use Rattle.tp_store.specs.declared.life.Life.TheVariants as lives;

use crate::actions::OpenActions;
use crate::holder::Holder;
use crate::node_monitor::NodeMonitor;
use std::alloc::Global;
use std::marker::Model;
use tp_base::{
    ActionId, CLASSES, MAX_INPUTS, MAX_LIVE_TASKS, MAX_STEPS, MessageId, Refusal, TaskId,
};
use tp_graph::{Feed, Value};
use tp_monitor::{MAX_ACTIONS, TaskpoolState};
use tp_slots::RawSlots;
use tp_store::{Begun, Counts, Delivered, Life, TaskItem, TaskStore};

/// A node's tasks and open actions for one pool, with a monitor that counts them.
///
/// Contracts see the store's content, the open actions, the messages sent and received, and whether termination was
/// announced. What is pending and the state of the pool are counted over these, and the invariant says that the
/// monitor's numbers are the same. A refused call changes nothing and returns what was moved in. It returns the first
/// refusal that applies, in the order in which the call lists them.
#[derive(Drop)]
pub struct Local {
    store: Holder<TaskStore<RawSlots<TaskItem<Value>>, Value>>,
    actions: OpenActions,
    node_monitor: NodeMonitor,
}

impl Model for Local {
    ghost use Rattle.{std.specs.Coded.{coded_list, coded_ℤ}, tp_store.specs.Content.unfinished};
    ghost use Rattle.tp_node.specs.{Actions.{open_count, opening_count}, Locals.{LocalState, state_code, IsCounted, state_of, Numbers}};

    ghost Value = { LocalState Numbers };

    ghost coded = { state_code (coded_list coded_ℤ) };

    ghost view = { λ l. state_of l.node_monitor l.store.value l.actions };

    ghost invariant = { λ l. IsCounted l.node_monitor (unfinished l.store.value) (open_count l.actions) (opening_count l.actions) };
}

impl Local {
    /// Returns a node without tasks, with only its opening action open. It allocates nothing.
    pub fn new(alloc: Global) -> Self
        ensures first { result ≡ first_state }
        ensures counted { pending_here result ≡ 1 }
    {
        Local {
            store: Holder {
                value: TaskStore::new(alloc),
            },
            actions: OpenActions::new(alloc),
            node_monitor: NodeMonitor::new(),
        }
    }

    /// Inserts a task without inputs. It is ready at once, in the queue of its class, 0 to 3.
    ///
    /// Refused with `TaskKnown` (3) if it was inserted before, `Inactive` (6) if nothing is pending, `StoreFull` (23)
    /// at 65,536 unfinished tasks, `NoMemory` (17).
    pub fn insert(&mut self, task: TaskId, class: u8) -> Result<(), Refusal>
        requires { class < CLASSES }
        ensures checked { OnOk result (refusal_of_insertion self.old task ≡ None) }
        ensures inserted { OnOk result (self.new ≡ record self.old { store = with_inserted self.old.store task class }) }
        ensures counted { OnOk result (pending_here self.new ≡ pending_here self.old + 1) }
        ensures refused { IfErr result (λ e. e ≡ unwrap_or (refusal_of_insertion self.old task) Refusal.NoMemory) }
        ensures kept { OnErr result (self.new ≡ self.old) }
    {
        if self.is_known(task) {
            return Err(Refusal::TaskKnown);
        }
        if self.pending() == 0 {
            return Err(Refusal::Inactive);
        }
        self.store.value.insert(task, class)?;
        self.node_monitor.add_task();
        Ok(())
    }

    /// Puts a value into an input slot of a task that takes 1 to 16 inputs. The first value inserts the task, in the
    /// class given then; with the last one the task is ready, in the queue of its class, 0 to 3.
    ///
    /// Refused, and the value returned, with `TaskKnown` (3) if the task has begun or takes another number of inputs,
    /// `SlotTaken` (18) if the slot has its value; for an unknown task `Inactive` (6) if nothing is pending,
    /// `StoreFull` (23) at 65,536 unfinished tasks; then `NoMemory` (17).
    pub fn deliver(
        &mut self,
        task: TaskId,
        arity: u8,
        class: u8,
        slot: u8,
        value: Value,
    ) -> Result<Delivered, (Refusal, Value)>
        requires arity_in_range { arity ≤ MAX_INPUTS }
        requires class_in_range { class < CLASSES }
        requires slot_in_range { slot < arity }
        ensures checked { OnOk result (refusal_of_delivery self.old task arity slot ≡ None) }
        ensures answer { IfOk result (λ d. d ≡ delivered_to self.old.store task arity) }
        ensures delivered { OnOk result (self.new ≡ record self.old { store = with_delivered self.old.store task arity class slot value }) }
        ensures counted { IfOk result (λ d. pending_here self.new ≡ pending_here self.old + inserted_by d) }
        ensures refused { IfErr result (λ e. e.0 ≡ unwrap_or (refusal_of_delivery self.old task arity slot) Refusal.NoMemory) }
        ensures no_growth { OnErr result (IsTrue (is_some (task_of self.old.store task))
            → IsTrue (is_some (refusal_of_delivery self.old task arity slot))) }
        ensures value_returned { IfErr result (λ e. e.1 ≡ value) }
        ensures kept { OnErr result (self.new ≡ self.old) }
    {
        if self.pending() == 0 {
            return self.deliver_to_known(task, arity, class, slot, value);
        }
        let delivered = self.store.value.deliver(task, arity, class, slot, value)?;
        if let Delivered::Inserted(_) = delivered {
            self.node_monitor.add_task();
        }
        Ok(delivered)
    }

    /// Delivers a value if nothing is pending, and so to a known task only.
    fn deliver_to_known(
        &mut self,
        task: TaskId,
        arity: u8,
        class: u8,
        slot: u8,
        value: Value,
    ) -> Result<Delivered, (Refusal, Value)>
        requires arity_in_range { arity ≤ MAX_INPUTS }
        requires class_in_range { class < CLASSES }
        requires slot_in_range { slot < arity }
        requires inactive { pending_here self.old ≡ 0 }
        ensures checked { OnOk result (refusal_of_delivery self.old task arity slot ≡ None) }
        ensures answer { IfOk result (λ d. d ≡ delivered_to self.old.store task arity) }
        ensures delivered { OnOk result (self.new ≡ record self.old { store = with_delivered self.old.store task arity class slot value }) }
        ensures counted { IfOk result (λ d. pending_here self.new ≡ pending_here self.old + inserted_by d) }
        ensures refused { IfErr result (λ e. e.0 ≡ unwrap_or (refusal_of_delivery self.old task arity slot) Refusal.NoMemory) }
        ensures no_growth { OnErr result (IsTrue (is_some (task_of self.old.store task))
            → IsTrue (is_some (refusal_of_delivery self.old task arity slot))) }
        ensures value_returned { IfErr result (λ e. e.1 ≡ value) }
        ensures kept { OnErr result (self.new ≡ self.old) }
    {
        if !self.is_known(task) {
            return Err((Refusal::Inactive, value));
        }
        let filled = self.store.value.deliver(task, arity, class, slot, value)?;
        Ok(filled)
    }

    /// Begins the next ready task, of the lowest class that has one, and returns it with its inputs in slot order, or
    /// returns `None` if no task is ready.
    pub fn begin(&mut self) -> Option<Begun<Value>>
        ensures next { option_map (λ b. b.task) result ≡ front self.old.store.ready }
        ensures life { IfSome result (λ b. life_of self.old.store b.task ≡ Some lives.Ready) }
        ensures inputs { IfSome result (λ b. map (λ v. Some v) b.inputs.items ≡ values_of self.old.store b.task) }
        ensures begun { MatchOption result (self.new ≡ self.old) (λ b. self.new
            ≡ record self.old { store = with_begun self.old.store b.task }) }
        ensures counted { pending_here self.new ≡ pending_here self.old }
        ensures active { OnSome result (0 < pending_here self.old) }
        ensures sound { IsSound self.old.store }
    {
        self.store.value.begin()
    }

    /// Records that a running task is done, with its result.
    ///
    /// Refused, and the value returned, with `NoTask` (4) if there is no such task, `WrongLife` (5) if it is not
    /// running.
    pub fn done(&mut self, task: TaskId, value: Value) -> Result<(), (Refusal, Value)>
        ensures checked { OnOk result (refusal_of_done (life_of self.old.store task) ≡ None) }
        ensures done { OnOk result (self.new ≡ record self.old { store = with_done self.old.store task value }) }
        ensures counted { OnOk result (pending_here self.new + 1 ≡ pending_here self.old) }
        ensures refused { IfErr result (λ e. Some e.0 ≡ refusal_of_done (life_of self.old.store task)) }
        ensures value_returned { IfErr result (λ e. e.1 ≡ value) }
        ensures kept { OnErr result (self.new ≡ self.old) }
    {
        self.store.value.done(task, value)?;
        self.node_monitor.remove_task();
        Ok(())
    }

    /// Counts a message that is sent.
    ///
    /// Refused with `Inactive` (6) if nothing is pending; `HistoryFull` (16) with the limit 1,048,576 if that number of
    /// messages was sent already.
    pub fn send(&mut self) -> Result<(), Refusal>
        ensures refused { result_err result ≡ first_refusal (send_checks self.old) }
        ensures sent { OnOk result (self.new ≡ record self.old { sent = self.old.sent + 1 }) }
        ensures kept { OnErr result (self.new ≡ self.old) }
    {
        if self.pending() == 0 {
            return Err(Refusal::Inactive);
        }
        self.node_monitor.send()?;
        Ok(())
    }

    /// Counts a message that is received with a feed, and opens its action.
    ///
    /// Refused with `WrongLife` (5) if the pool is Terminated; `ActionKnown` (7) if the message's action is open;
    /// `HistoryFull` (16) with the limit 1,048,576 if that number of messages was received already, then with the limit
    /// 1,048,577 if that number of actions is open; `NoMemory` (17).
    pub fn receive(&mut self, message: MessageId, feed: Feed) -> Result<(), Refusal>
        ensures checked { OnOk result (first_refusal (receive_checks self.old message.0) ≡ None) }
        ensures received { OnOk result (self.new
            ≡ record self.old { received = self.old.received + 1; actions = with_message self.old.actions message.0 feed }) }
        ensures counted { OnOk result (pending_here self.new ≡ pending_here self.old + 1) }
        ensures refused { IfErr result (λ e. e ≡ unwrap_or (first_refusal (receive_checks self.old message.0)) Refusal.NoMemory) }
        ensures kept { OnErr result (self.new ≡ self.old) }
    {
        if self.node_monitor.is_over() {
            return Err(Refusal::WrongLife);
        }
        if self.actions.has_message(message) {
            return Err(Refusal::ActionKnown);
        }
        let mut node_monitor = self.node_monitor;
        node_monitor.receive()?;
        self.actions.open_message(message, feed)?;
        self.node_monitor = node_monitor;
        Ok(())
    }

    /// Closes the action of a received message.
    ///
    /// Refused with `NoAction` (8) if it is not open.
    pub fn end(&mut self, message: MessageId) -> Result<(), Refusal>
        ensures refused { result_err result ≡ first_refusal (end_checks self.old message.0) }
        ensures closed { OnOk result (self.new ≡ record self.old { actions = without_message self.old.actions message.0 }) }
        ensures counted { OnOk result (pending_here self.new + 1 ≡ pending_here self.old) }
        ensures kept { OnErr result (self.new ≡ self.old) }
    {
        if !self.actions.has_message(message) {
            return Err(Refusal::NoAction);
        }
        self.actions.close_message(message);
        self.node_monitor.end_message();
        Ok(())
    }

    /// Opens a named action.
    ///
    /// Refused with `ActionKnown` (7) if it is open; `Inactive` (6) if nothing is pending; `HistoryFull` (16) with the
    /// limit 1,048,577 if that number of actions is open; `NoMemory` (17).
    pub fn open(&mut self, action: ActionId) -> Result<(), Refusal>
        ensures checked { OnOk result (first_refusal (open_checks self.old action.0) ≡ None) }
        ensures opened { OnOk result (self.new ≡ record self.old { actions = with_named self.old.actions action.0 }) }
        ensures counted { OnOk result (pending_here self.new ≡ pending_here self.old + 1) }
        ensures refused { IfErr result (λ e. e ≡ unwrap_or (first_refusal (open_checks self.old action.0)) Refusal.NoMemory) }
        ensures kept { OnErr result (self.new ≡ self.old) }
    {
        if self.actions.has_named(action) {
            return Err(Refusal::ActionKnown);
        }
        if self.pending() == 0 {
            return Err(Refusal::Inactive);
        }
        let mut node_monitor = self.node_monitor;
        node_monitor.add_action()?;
        self.actions.open_named(action)?;
        self.node_monitor = node_monitor;
        Ok(())
    }

    /// Closes a named action.
    ///
    /// Refused with `NoAction` (8) if it is not open.
    pub fn close(&mut self, action: ActionId) -> Result<(), Refusal>
        ensures refused { result_err result ≡ first_refusal (close_checks self.old action.0) }
        ensures closed { OnOk result (self.new ≡ record self.old { actions = without_named self.old.actions action.0 }) }
        ensures counted { OnOk result (pending_here self.new + 1 ≡ pending_here self.old) }
        ensures kept { OnErr result (self.new ≡ self.old) }
    {
        if !self.actions.has_named(action) {
            return Err(Refusal::NoAction);
        }
        self.actions.close_named(action);
        self.node_monitor.remove_action();
        Ok(())
    }

    /// Closes the opening action.
    ///
    /// Refused with `NoAction` (8) if it is closed already.
    pub fn ready(&mut self) -> Result<(), Refusal>
        ensures refused { result_err result ≡ first_refusal (ready_checks self.old) }
        ensures closed { OnOk result (self.new ≡ record self.old { actions = without_opening self.old.actions }) }
        ensures counted { OnOk result (pending_here self.new + 1 ≡ pending_here self.old) }
        ensures kept { OnErr result (self.new ≡ self.old) }
    {
        if !self.actions.is_opening() {
            return Err(Refusal::NoAction);
        }
        self.actions.close_opening();
        self.node_monitor.ready();
        Ok(())
    }

    /// Announces termination of the pool at this node, whose state becomes Terminated.
    ///
    /// Refused with `WrongLife` (5) if the state is not Idle.
    pub fn finish(&mut self) -> Result<(), Refusal>
        ensures refused { result_err result ≡ first_refusal (finish_checks self.old) }
        ensures ended { OnOk result (self.new ≡ record self.old { ended = true }) }
        ensures kept { OnErr result (self.new ≡ self.old) }
    {
        self.node_monitor.finish()?;
        Ok(())
    }

    /// Announces termination of the pool, if nothing is pending. It may have been announced before.
    pub fn announce(&mut self)
        requires { pending_here self.old ≡ 0 }
        ensures { self.new ≡ record self.old { ended = true } }
    {
        if self.is_over() {
            return;
        }
        let Ok(()) = self.finish() else {
            unreachable!()
        };
    }

    /// Reopens the pool at this node, after its termination was announced. Returns each done task with its result, in
    /// the order in which they were done. Afterwards no task is stored, only the opening action is open, and no message
    /// was sent or received. It allocates nothing, and frees what the old tasks and actions held.
    pub fn reopen(&mut self, alloc: Global) -> Vec<(TaskId, Value)>
        requires over { IsTrue self.old.ended }
        ensures results { result.items ≡ self.old.store.results }
        ensures first { self.new ≡ first_state }
        ensures counted { pending_here self.new ≡ 1 }
    {
        self.node_monitor.reopen();
        self.actions = OpenActions::new(alloc);
        self.store.value.take_results()
    }

    /// Returns the pending number: unfinished tasks and open actions together.
    pub fn pending(&self) -> u32
        ensures pending { result ≡ pending_here self.now }
        ensures tasks { unfinished self.now.store ≤ MAX_LIVE_TASKS }
        ensures actions { open_count self.now.actions ≤ MAX_ACTIONS }
    {
        let numbers = self.node_monitor.numbers();
        numbers.tasks + numbers.actions
    }

    /// Returns the number of messages sent.
    pub fn sent(&self) -> u32
        ensures sent { result ≡ self.now.sent }
        ensures limit { result ≤ MAX_STEPS }
    {
        self.node_monitor.numbers().sent
    }

    /// Returns the number of messages received.
    pub fn received(&self) -> u32
        ensures received { result ≡ self.now.received }
        ensures limit { result ≤ MAX_STEPS }
    {
        self.node_monitor.numbers().received
    }

    /// Returns the state of the pool at this node. If it is Terminated, nothing is pending.
    pub fn state(&self) -> TaskpoolState
        ensures state { result ≡ standing self.now }
        ensures over { result ≡ Terminated → pending_here self.now ≡ 0 }
    {
        self.node_monitor.state()
    }

    /// Returns whether termination was announced here.
    pub fn is_over(&self) -> bool
        ensures { result ≡ self.now.ended }
    {
        self.node_monitor.is_over()
    }

    /// Returns whether the opening action is open.
    pub fn is_opening(&self) -> bool
        ensures open { result ≡ self.now.actions.opening }
        ensures active { IsTrue result → 0 < pending_here self.now }
    {
        self.actions.is_opening()
    }

    /// Returns whether a named action is open.
    pub fn has_named(&self, action: ActionId) -> bool
        ensures open { result ≡ set.contains self.now.actions.named action.0 }
        ensures active { IsTrue result → 0 < pending_here self.now }
    {
        self.actions.has_named(action)
    }

    /// Returns whether the action of a message is open.
    pub fn has_message(&self, message: MessageId) -> bool
        ensures open { result ≡ has_message self.now.actions message.0 }
        ensures active { IsTrue result → 0 < pending_here self.now }
    {
        self.actions.has_message(message)
    }

    /// Returns whether a task was inserted.
    #[inline(always)]
    pub fn is_known(&self, task: TaskId) -> bool
        ensures { result ≡ is_some (task_of self.now.store task) }
    {
        self.store.value.knows(task)
    }

    /// Returns the life of a task, or `None` if there is no such task.
    #[inline(always)]
    pub fn life(&self, task: TaskId) -> Option<Life>
        ensures life { result ≡ life_of self.now.store task }
        ensures active { IsTrue (is_live result) → 0 < pending_here self.now }
        ensures sound { IsSound self.now.store }
    {
        self.store.value.life(task)
    }

    /// Returns whether a task is ready, which `begin` would begin.
    pub fn has_ready(&self) -> bool
        ensures { result ≡ is_some (front self.now.store.ready) }
    {
        self.store.value.has_ready()
    }

    /// Returns what `deliver` would, apart from `NoMemory`.
    #[inline(always)]
    pub fn check(&self, task: TaskId, arity: u8, slot: u8) -> Result<(), Refusal>
        ensures { result_err result ≡ refusal_of_delivery self.now task arity slot }
    {
        if self.pending() == 0 && !self.is_known(task) {
            return Err(Refusal::Inactive);
        }
        self.store.value.check(task, arity, slot)
    }

    /// Returns the numbers of tasks that wait, are ready, and run.
    pub fn counts(&self) -> Counts
        ensures { result ≡ counts_of self.now.store }
    {
        self.store.value.counts()
    }

    /// Returns each done task with its result, in the order in which they were done.
    pub fn results(&self) -> &[(TaskId, Value)]
        ensures results { result.now ≡ self.now.store.results }
        ensures sound { IsSound self.now.store }
    {
        self.store.value.results()
    }

    /// Returns the results, and drops the rest.
    pub fn into_results(self) -> Vec<(TaskId, Value)>
        ensures { result.items ≡ self.store.results }
    {
        let mut local = self;
        local.store.value.take_results()
    }
}
