//! The monitor of a node's one pool, with preconditions instead of most refusals.
ghost use Rattle.std.specs.{Prelude.{◌≡◌, ◌+◌, ◌-◌, ◌<◌, ◌==◌, [], ◌∷◌, Some, true, false, not, IsTrue, OnOk, OnErr}, Result.result_err};
ghost use Rattle.tp_base.specs.{Checks.first_refusal, declared.Refusal.TheVariants.{WrongLife, HistoryFull}};
ghost use Rattle.tp_monitor.specs.Monitors.{IsWithinLimits, first_numbers, ready_numbers, sent_numbers, received_numbers};
ghost use Rattle.tp_monitor.specs.Monitors.{message_ended_numbers, monitored_pending, standing, is_idle};
ghost use Rattle.{tp_monitor.specs.declared.TaskpoolState.TheVariants.Terminated, tp_node.specs.NodeMonitors.the_pool};

use std::marker::Model;
use tp_base::{MAX_LIVE_TASKS, MAX_STEPS, PoolId, Refusal};
use tp_monitor::{MAX_ACTIONS, Monitor, MonitorNumbers, TaskpoolState};

/// The number of a node's one pool at its monitor. No call returns it.
const POOL: PoolId = PoolId(0);

/// A monitor of one pool, from the pool's opening action on. What a node knows beforehand is a precondition here,
/// instead of a refusal.
#[derive(Clone, Copy)]
pub(crate) struct NodeMonitor {
    monitor: Monitor,
}

impl Model for NodeMonitor {
    ghost use Rattle.{tp_monitor.specs.Monitors.Monitored, tp_node.specs.NodeMonitors.IsNodeMonitor};

    ghost Value = { Monitored };

    ghost view = { λ t. t.monitor };

    ghost inverse = { λ m. record { monitor = m } };

    ghost invariant = { λ t. IsNodeMonitor t.monitor };
}

impl NodeMonitor {
    /// Returns the monitor of a pool whose opening action is open.
    pub(crate) fn new() -> Self
        ensures { result ≡ record { pool = Some the_pool; numbers = first_numbers; announced = false } }
    {
        let mut monitor = Monitor::new();
        let Ok(()) = monitor.monitor_taskpool(POOL) else {
            unreachable!()
        };
        NodeMonitor { monitor }
    }

    /// Counts one more unfinished task.
    pub(crate) fn add_task(&mut self)
        requires active { 0 < monitored_pending self.old.numbers }
        requires room { self.old.numbers.tasks < MAX_LIVE_TASKS }
        ensures { self.new ≡ record self.old { numbers = record self.old.numbers { tasks = self.old.numbers.tasks + 1 } } }
    {
        let Ok(()) = self.monitor.taskpool_addto_nb_tasks(POOL, 1) else {
            unreachable!()
        };
    }

    /// Counts a task that is done.
    pub(crate) fn remove_task(&mut self)
        requires { 0 < self.old.numbers.tasks }
        ensures { self.new ≡ record self.old { numbers = record self.old.numbers { tasks = self.old.numbers.tasks - 1 } } }
    {
        let Ok(()) = self.monitor.taskpool_addto_nb_tasks(POOL, -1) else {
            unreachable!()
        };
    }

    /// Counts one more open action.
    ///
    /// Refused with `HistoryFull` (16) if the limit of open actions is reached.
    pub(crate) fn add_action(&mut self) -> Result<(), Refusal>
        requires { 0 < monitored_pending self.old.numbers }
        ensures refused { result_err result ≡ first_refusal ((self.old.numbers.actions == MAX_ACTIONS, HistoryFull MAX_ACTIONS) ∷ []) }
        ensures added { OnOk result (self.new
            ≡ record self.old { numbers = record self.old.numbers { actions = self.old.numbers.actions + 1 } }) }
        ensures kept { OnErr result (self.new ≡ self.old) }
    {
        self.monitor.taskpool_addto_runtime_actions(POOL, 1)?;
        Ok(())
    }

    /// Counts an action, other than the opening one, that is closed.
    pub(crate) fn remove_action(&mut self)
        requires { self.old.numbers.opening < self.old.numbers.actions }
        ensures { self.new ≡ record self.old { numbers = record self.old.numbers { actions = self.old.numbers.actions - 1 } } }
    {
        let Ok(()) = self.monitor.taskpool_addto_runtime_actions(POOL, -1) else {
            unreachable!()
        };
    }

    /// Closes the opening action.
    pub(crate) fn ready(&mut self)
        requires { self.old.numbers.opening ≡ 1 }
        ensures { self.new ≡ record self.old { numbers = ready_numbers self.old.numbers } }
    {
        let Ok(()) = self.monitor.taskpool_ready(POOL) else {
            unreachable!()
        };
    }

    /// Counts a message that is sent.
    ///
    /// Refused with `HistoryFull` (16) if the limit of sent messages is reached.
    pub(crate) fn send(&mut self) -> Result<(), Refusal>
        requires { 0 < monitored_pending self.old.numbers }
        ensures refused { result_err result ≡ first_refusal ((self.old.numbers.sent == MAX_STEPS, HistoryFull MAX_STEPS) ∷ []) }
        ensures sent { OnOk result (self.new ≡ record self.old { numbers = sent_numbers self.old.numbers }) }
        ensures kept { OnErr result (self.new ≡ self.old) }
    {
        self.monitor.outgoing_message_start(POOL)?;
        Ok(())
    }

    /// Counts a message that is received, and opens its action.
    ///
    /// Refused with `HistoryFull` (16) if the limit of received messages, and then of open actions, is reached.
    pub(crate) fn receive(&mut self) -> Result<(), Refusal>
        requires { self.old.announced ≡ false }
        ensures refused { result_err result
            ≡ first_refusal ((self.old.numbers.received == MAX_STEPS, HistoryFull MAX_STEPS)
            ∷ (self.old.numbers.actions == MAX_ACTIONS, HistoryFull MAX_ACTIONS) ∷ []) }
        ensures received { OnOk result (self.new ≡ record self.old { numbers = received_numbers self.old.numbers }) }
        ensures kept { OnErr result (self.new ≡ self.old) }
    {
        self.monitor.incoming_message_start(POOL)?;
        Ok(())
    }

    /// Closes the action of a received message.
    pub(crate) fn end_message(&mut self)
        requires { self.old.numbers.opening < self.old.numbers.actions }
        ensures { self.new ≡ record self.old { numbers = message_ended_numbers self.old.numbers } }
    {
        let Ok(()) = self.monitor.incoming_message_end(POOL) else {
            unreachable!()
        };
    }

    /// Announces termination of the pool.
    ///
    /// Refused with `WrongLife` (5) if the pool is not Idle.
    pub(crate) fn finish(&mut self) -> Result<(), Refusal>
        ensures refused { result_err result ≡ first_refusal ((not (is_idle (standing self.old)), WrongLife) ∷ []) }
        ensures ended { OnOk result (self.new ≡ record self.old { announced = true }) }
        ensures kept { OnErr result (self.new ≡ self.old) }
    {
        self.monitor.taskpool_end(POOL)?;
        Ok(())
    }

    /// Reopens the pool, whose termination was announced: its opening action is open.
    pub(crate) fn reopen(&mut self)
        requires { IsTrue self.old.announced }
        ensures { self.new ≡ record self.old { numbers = first_numbers; announced = false } }
    {
        let Ok(()) = self.monitor.taskpool_reopen(POOL) else {
            unreachable!()
        };
    }

    /// Returns the state of the pool.
    pub(crate) fn state(&self) -> TaskpoolState
        ensures state { result ≡ standing self.now }
        ensures over { result ≡ Terminated → monitored_pending self.now.numbers ≡ 0 }
    {
        self.monitor.taskpool_state(POOL)
    }

    /// Returns whether termination was announced.
    pub(crate) fn is_over(&self) -> bool
        ensures { result ≡ self.now.announced }
    {
        self.state() == TaskpoolState::Terminated
    }

    /// Returns the counters.
    pub(crate) fn numbers(&self) -> MonitorNumbers
        ensures numbers { result ≡ self.now.numbers }
        ensures limits { IsWithinLimits result }
    {
        let Some(numbers) = self.monitor.numbers(POOL) else {
            unreachable!()
        };
        numbers
    }
}
