//! The calls of a monitor, with their checks in order.
ghost use Rattle.std.specs.{Prelude.{◌≡◌, ◌+ℤ◌, pos, true, false, IfSome, OnOk, OnErr}, Result.result_err};
ghost use Rattle.tp_base.specs.Checks.{first_refusal};
ghost use Rattle.tp_monitor.specs.Monitors.{
  IsWithinLimits,
  is_pool,
  is_inactive,
  state_of,
  standing,
  numbers_of,
  no_pool,
  first_numbers,
  running_checks,
  change_checks,
  monitor_checks,
  unmonitor_checks,
  reopen_checks,
  ready_checks,
  tasks_checks,
  actions_checks,
  send_checks,
  receive_checks,
  message_end_checks,
  end_checks,
  ready_numbers,
  with_tasks,
  with_actions,
  sent_numbers,
  received_numbers,
  message_ended_numbers,
  monitored_pending,
};
ghost use Rattle.tp_monitor.specs.declared.state.TaskpoolState.TheVariants.{Terminated};

use crate::numbers::{MAX_ACTIONS, MonitorNumbers};
use crate::state::TaskpoolState;
use std::marker::Model;
use tp_base::{MAX_LIVE_TASKS, MAX_STEPS, PoolId, Refusal};

/// The five counters of one node for at most one pool, and whether termination was announced. No call allocates.
///
/// Contracts see the pool, the counters and whether termination was announced; the state is a function of these. A
/// refused call changes nothing. It returns the first refusal that applies, in the order in which the call lists them.
/// A layer above can try a call on a copy before it makes its own last checks.
#[derive(Clone, Copy, Debug)]
pub struct Monitor {
    pool: Option<PoolId>,
    numbers: MonitorNumbers,
    announced: bool,
}

impl Model for Monitor {
    ghost use Rattle.tp_monitor.specs.Monitors.{Monitored, IsMonitor};

    ghost Value = { Monitored };

    ghost view = { λ m. record { pool = m.pool; numbers = m.numbers; announced = m.announced } };

    ghost inverse = { λ m. record { pool = m.pool; numbers = m.numbers; announced = m.announced } };

    ghost invariant = { λ m. IsMonitor (record { pool = m.pool; numbers = m.numbers; announced = m.announced }) };
}

impl Monitor {
    /// Returns a monitor without a pool.
    pub fn new() -> Self
        ensures { result ≡ no_pool }
    {
        Monitor {
            pool: None,
            numbers: MonitorNumbers {
                tasks: 0,
                actions: 0,
                opening: 0,
                sent: 0,
                received: 0,
            },
            announced: false,
        }
    }

    /// Starts to monitor a pool, which has no tasks and an open opening action.
    ///
    /// Refused with `PoolKnown` (25) if a pool is monitored already.
    pub fn monitor_taskpool(&mut self, pool: PoolId) -> Result<(), Refusal>
        ensures refused { result_err result ≡ first_refusal (monitor_checks self.old) }
        ensures monitored { OnOk result (self.new ≡ record { pool = Some pool; numbers = first_numbers; announced = false }) }
        ensures kept { OnErr result (self.new ≡ self.old) }
    {
        if self.pool.is_some() {
            return Err(Refusal::PoolKnown);
        }
        self.pool = Some(pool);
        self.numbers = MonitorNumbers {
            tasks: 0,
            actions: 1,
            opening: 1,
            sent: 0,
            received: 0,
        };
        self.announced = false;
        Ok(())
    }

    /// Stops monitoring a pool whose termination was announced, and forgets its counters.
    ///
    /// Refused with `NoPool` (24) if another pool or none is monitored; `WrongLife` (5) if the pool is not Terminated.
    pub fn unmonitor_taskpool(&mut self, pool: PoolId) -> Result<(), Refusal>
        ensures refused { result_err result ≡ first_refusal (unmonitor_checks self.old pool) }
        ensures forgotten { OnOk result (self.new ≡ no_pool) }
        ensures kept { OnErr result (self.new ≡ self.old) }
    {
        if !self.monitors(pool) {
            return Err(Refusal::NoPool);
        }
        if !self.announced {
            return Err(Refusal::WrongLife);
        }
        *self = Monitor::new();
        Ok(())
    }

    /// Reopens a pool whose termination was announced. Its counters are then those of a new pool: no task, an open
    /// opening action, and no message sent or received.
    ///
    /// Refused with `NoPool` (24) if another pool or none is monitored; `WrongLife` (5) if the pool is not Terminated.
    pub fn taskpool_reopen(&mut self, pool: PoolId) -> Result<(), Refusal>
        ensures refused { result_err result ≡ first_refusal (reopen_checks self.old pool) }
        ensures reopened { OnOk result (self.new ≡ record { pool = Some pool; numbers = first_numbers; announced = false }) }
        ensures kept { OnErr result (self.new ≡ self.old) }
    {
        self.unmonitor_taskpool(pool)?;
        self.monitor_taskpool(pool)
    }

    /// Closes the opening action.
    ///
    /// Refused with `NoPool` (24); `WrongLife` (5) if the pool is Terminated; `NoAction` (8) if the opening action is
    /// closed already.
    pub fn taskpool_ready(&mut self, pool: PoolId) -> Result<(), Refusal>
        ensures refused { result_err result ≡ first_refusal (ready_checks self.old pool) }
        ensures closed { OnOk result (self.new ≡ record self.old { numbers = ready_numbers self.old.numbers }) }
        ensures kept { OnErr result (self.new ≡ self.old) }
    {
        self.check_running(pool)?;
        if self.numbers.opening == 0 {
            return Err(Refusal::NoAction);
        }
        self.numbers.opening = 0;
        self.numbers.actions -= 1;
        Ok(())
    }

    /// Changes the number of unfinished tasks by `delta`.
    ///
    /// Refused with `NoPool` (24); `WrongLife` (5) if the pool is Terminated; `Inactive` (6) if `delta` is above 0 and
    /// nothing is pending; `NoTask` (4) if the number would fall below 0; `StoreFull` (23) if it would exceed 65,536.
    pub fn taskpool_addto_nb_tasks(&mut self, pool: PoolId, delta: i32) -> Result<(), Refusal>
        ensures refused { result_err result ≡ first_refusal (tasks_checks self.old pool delta) }
        ensures changed { OnOk result (self.new ≡ record self.old { numbers = with_tasks delta self.old.numbers }) }
        ensures kept { OnErr result (self.new ≡ self.old) }
    {
        self.check_change(pool, delta)?;
        let tasks = moved(self.numbers.tasks, delta);
        if tasks < 0 {
            return Err(Refusal::NoTask);
        }
        if tasks > i64::from(MAX_LIVE_TASKS) {
            return Err(Refusal::StoreFull);
        }
        self.numbers.tasks = tasks as u32;
        Ok(())
    }

    /// Changes the number of open actions by `delta`. A negative `delta` never closes the opening action, which only
    /// `taskpool_ready` closes.
    ///
    /// Refused with `NoPool` (24); `WrongLife` (5) if the pool is Terminated; `Inactive` (6) if `delta` is above 0 and
    /// nothing is pending; `NoAction` (8) if fewer actions are open, not counting the opening one; `HistoryFull` (16)
    /// with the limit 1,048,577 if the number would exceed it.
    pub fn taskpool_addto_runtime_actions(
        &mut self,
        pool: PoolId,
        delta: i32,
    ) -> Result<(), Refusal>
        ensures refused { result_err result ≡ first_refusal (actions_checks self.old pool delta) }
        ensures changed { OnOk result (self.new ≡ record self.old { numbers = with_actions delta self.old.numbers }) }
        ensures kept { OnErr result (self.new ≡ self.old) }
    {
        self.check_change(pool, delta)?;
        let actions = moved(self.numbers.actions, delta);
        if actions < i64::from(self.numbers.opening) {
            return Err(Refusal::NoAction);
        }
        if actions > i64::from(MAX_ACTIONS) {
            return Err(Refusal::HistoryFull(MAX_ACTIONS));
        }
        self.numbers.actions = actions as u32;
        Ok(())
    }

    /// Counts a message that is sent.
    ///
    /// Refused with `NoPool` (24); `WrongLife` (5) if the pool is Terminated; `Inactive` (6) if nothing is pending;
    /// `HistoryFull` (16) with the limit 1,048,576 if that number of messages was sent already.
    pub fn outgoing_message_start(&mut self, pool: PoolId) -> Result<(), Refusal>
        ensures refused { result_err result ≡ first_refusal (send_checks self.old pool) }
        ensures sent { OnOk result (self.new ≡ record self.old { numbers = sent_numbers self.old.numbers }) }
        ensures kept { OnErr result (self.new ≡ self.old) }
    {
        self.check_running(pool)?;
        if self.is_inactive() {
            return Err(Refusal::Inactive);
        }
        if self.numbers.sent == MAX_STEPS {
            return Err(Refusal::HistoryFull(MAX_STEPS));
        }
        self.numbers.sent += 1;
        Ok(())
    }

    /// Counts a message that is received, and opens its action.
    ///
    /// Refused with `NoPool` (24); `WrongLife` (5) if the pool is Terminated; `HistoryFull` (16) with the limit
    /// 1,048,576 if that number of messages was received already, then with the limit 1,048,577 if that number of
    /// actions is open.
    pub fn incoming_message_start(&mut self, pool: PoolId) -> Result<(), Refusal>
        ensures refused { result_err result ≡ first_refusal (receive_checks self.old pool) }
        ensures received { OnOk result (self.new ≡ record self.old { numbers = received_numbers self.old.numbers }) }
        ensures kept { OnErr result (self.new ≡ self.old) }
    {
        self.check_running(pool)?;
        if self.numbers.received == MAX_STEPS {
            return Err(Refusal::HistoryFull(MAX_STEPS));
        }
        if self.numbers.actions == MAX_ACTIONS {
            return Err(Refusal::HistoryFull(MAX_ACTIONS));
        }
        self.numbers.received += 1;
        self.numbers.actions += 1;
        Ok(())
    }

    /// Closes the action of a received message.
    ///
    /// Refused with `NoPool` (24); `WrongLife` (5) if the pool is Terminated; `NoAction` (8) if no action is open, not
    /// counting the opening one.
    pub fn incoming_message_end(&mut self, pool: PoolId) -> Result<(), Refusal>
        ensures refused { result_err result ≡ first_refusal (message_end_checks self.old pool) }
        ensures closed { OnOk result (self.new ≡ record self.old { numbers = message_ended_numbers self.old.numbers }) }
        ensures kept { OnErr result (self.new ≡ self.old) }
    {
        self.check_running(pool)?;
        if self.numbers.actions == self.numbers.opening {
            return Err(Refusal::NoAction);
        }
        self.numbers.actions -= 1;
        Ok(())
    }

    /// Announces termination of the pool, whose state becomes Terminated.
    ///
    /// Refused with `NoPool` (24); `WrongLife` (5) if the pool is not Idle.
    pub fn taskpool_end(&mut self, pool: PoolId) -> Result<(), Refusal>
        ensures refused { result_err result ≡ first_refusal (end_checks self.old pool) }
        ensures announced { OnOk result (self.new ≡ record self.old { announced = true }) }
        ensures kept { OnErr result (self.new ≡ self.old) }
    {
        if !self.monitors(pool) {
            return Err(Refusal::NoPool);
        }
        if self.standing() != TaskpoolState::Idle {
            return Err(Refusal::WrongLife);
        }
        self.announced = true;
        Ok(())
    }

    /// Returns the state of a pool at this node. If it is Terminated, nothing is pending.
    pub fn taskpool_state(&self, pool: PoolId) -> TaskpoolState
        ensures state { result ≡ state_of self.now pool }
        ensures over { result ≡ Terminated → monitored_pending self.now.numbers ≡ 0 }
    {
        if self.monitors(pool) {
            self.standing()
        } else {
            TaskpoolState::NotMonitored
        }
    }

    /// Returns the counters of a pool, each within its limit, or `None` if the pool is not monitored here.
    pub fn numbers(&self, pool: PoolId) -> Option<MonitorNumbers>
        ensures numbers { result ≡ numbers_of self.now pool }
        ensures limits { IfSome result IsWithinLimits }
    {
        if self.monitors(pool) {
            Some(self.numbers)
        } else {
            None
        }
    }

    /// Returns the state of the monitored pool.
    fn standing(&self) -> TaskpoolState
        ensures state { result ≡ standing self.now }
        ensures over { result ≡ Terminated → monitored_pending self.now.numbers ≡ 0 }
    {
        if self.announced {
            TaskpoolState::Terminated
        } else if self.numbers.opening == 1 {
            TaskpoolState::NotReady
        } else if self.is_inactive() {
            TaskpoolState::Idle
        } else {
            TaskpoolState::Busy
        }
    }

    /// Returns whether this is the monitored pool.
    fn monitors(&self, pool: PoolId) -> bool
        ensures { result ≡ is_pool pool self.now.pool }
    {
        self.pool == Some(pool)
    }

    /// Returns whether nothing is pending.
    fn is_inactive(&self) -> bool
        ensures { result ≡ is_inactive self.now.numbers }
    {
        self.numbers.tasks + self.numbers.actions == 0
    }

    /// Makes the checks that begin each call on a pool that must not be Terminated.
    fn check_running(&self, pool: PoolId) -> Result<(), Refusal>
        ensures { result_err result ≡ first_refusal (running_checks self.now pool) }
    {
        if !self.monitors(pool) {
            Err(Refusal::NoPool)
        } else if self.announced {
            Err(Refusal::WrongLife)
        } else {
            Ok(())
        }
    }

    /// Makes the checks that begin a change of a counter by `delta`: an inactive node gets nothing new.
    fn check_change(&self, pool: PoolId, delta: i32) -> Result<(), Refusal>
        ensures { result_err result ≡ first_refusal (change_checks self.now pool delta) }
    {
        self.check_running(pool)?;
        if delta > 0 && self.is_inactive() {
            return Err(Refusal::Inactive);
        }
        Ok(())
    }
}

/// Returns the counter changed by `delta`, which may be below 0.
fn moved(number: u32, delta: i32) -> i64
    ensures { result ≡ pos number +ℤ delta }
{
    i64::from(number) + i64::from(delta)
}
