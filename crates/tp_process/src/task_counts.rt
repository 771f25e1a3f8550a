//! The tasks of one process in a pool in which running tasks make tasks: their numbers, and when they are work for the
//! detector. The tasks themselves, and the lock that protects them, are the caller's.

ghost use Rattle.std.specs.{Prelude.{◌≡◌, OnErr}, Result.result_err};
ghost use Rattle.tp_process.specs.{Epochs.{reopen_refusal, reopened}, Opening.{checked, if_open}, State.read};
ghost use Rattle.tp_process.specs.Tasks.{added, added_due, began, begin_refusal, completed, done_refusal, dropped, give_refusal, given};
ghost use Rattle.tp_process.specs.Tasks.{is_idle, make_refusal, new_tasks, opening_refusal};
ghost use Rattle.tp_process.specs.Tasks.{process_after_receive, process_after_send, process_after_settle};
ghost use Rattle.tp_process.specs.Tasks.{read_tasks, receive_task_refusal, send_task_refusal, settle_result, tasks_after_receive};
ghost use Rattle.tp_process.specs.Tasks.{tasks_after_reopen, tasks_after_send, without_opening};

use crate::epoch_state::LIMIT;
use crate::outcome::Refusal;
use crate::process::Process;

/// How many tasks of one process wait, run and are due to other processes, in a pool in which running tasks make tasks.
/// Any bytes are a valid `TaskCounts`.
///
/// As long as the process is not idle here, it has one piece of work open for the detector. `send`, `receive`, `settle`
/// and `reopen` change the `Process` too: the thread that talks to the network makes them. All calls on one
/// `TaskCounts` come one at a time, so a caller with threads makes each under the lock of its lists of tasks.
#[derive(Clone, Copy, Debug, Default, PartialEq, Eq)]
#[repr(C)]
pub struct TaskCounts {
    waiting: u64,
    running: u64,
    due: u64,
    /// A flag: it is set if it is not 0.
    opening: u8,
}

impl TaskCounts {
    /// Returns the counts of a process that `Process::new` returned: no task, and the opening, which makes the first.
    pub fn new() -> TaskCounts
        ensures { result ≡ new_tasks }
    {
        TaskCounts {
            opening: 1,
            ..TaskCounts::default()
        }
    }

    /// Returns the number of tasks that wait here.
    pub fn waiting(&self) -> u64
        ensures { result ≡ (read_tasks self.now).waiting }
    {
        self.waiting
    }

    /// Returns the number of tasks that run here.
    pub fn running(&self) -> u64
        ensures { result ≡ (read_tasks self.now).running }
    {
        self.running
    }

    /// Returns the number of tasks that were made here for other processes and are not sent.
    pub fn due(&self) -> u64
        ensures { result ≡ (read_tasks self.now).due }
    {
        self.due
    }

    /// Returns whether the opening has not ended.
    pub fn is_opening(&self) -> bool
        ensures { result ≡ (read_tasks self.now).opening }
    {
        self.opening != 0
    }

    /// Returns whether no task is left here, and none can be made: then only `receive` brings one.
    pub fn is_idle(&self) -> bool
        ensures { result ≡ is_idle (read_tasks self.now) }
    {
        self.opening == 0 && self.waiting == 0 && self.running == 0 && self.due == 0
    }

    /// A task was made for this process: it waits.
    ///
    /// Refused: `Inactive` if the opening has ended and no task runs; `Full` if 2^43 tasks wait.
    pub fn add(&mut self) -> Result<(), Refusal>
        ensures refused { result_err result ≡ make_refusal (read_tasks self.old).waiting (read_tasks self.old) }
        ensures state { read_tasks self.new ≡ added (read_tasks self.old) }
        ensures kept { OnErr result (self.new ≡ self.old) }
    {
        self.check_make(self.waiting)?;
        self.waiting += 1;
        Ok(())
    }

    /// A task was made for another process: it is due until `send`.
    ///
    /// Refused: `Inactive` if the opening has ended and no task runs; `Full` if 2^43 tasks are due.
    pub fn add_due(&mut self) -> Result<(), Refusal>
        ensures refused { result_err result ≡ make_refusal (read_tasks self.old).due (read_tasks self.old) }
        ensures state { read_tasks self.new ≡ added_due (read_tasks self.old) }
        ensures kept { OnErr result (self.new ≡ self.old) }
    {
        self.check_make(self.due)?;
        self.due += 1;
        Ok(())
    }

    /// A task that waits begins to run.
    ///
    /// Refused: `Inactive` if none waits; `Full` if 2^43 tasks run.
    pub fn begin(&mut self) -> Result<(), Refusal>
        ensures refused { result_err result ≡ begin_refusal (read_tasks self.old) }
        ensures state { read_tasks self.new ≡ began (read_tasks self.old) }
        ensures kept { OnErr result (self.new ≡ self.old) }
    {
        let Some(waiting) = self.waiting.checked_sub(1) else {
            return Err(Refusal::Inactive);
        };
        if self.running >= LIMIT {
            return Err(Refusal::Full);
        }
        self.waiting = waiting;
        self.running += 1;
        Ok(())
    }

    /// A running task is done: all tasks that it makes were made before.
    ///
    /// Refused: `Inactive` if none runs.
    pub fn done(&mut self) -> Result<(), Refusal>
        ensures refused { result_err result ≡ done_refusal (read_tasks self.old) }
        ensures state { read_tasks self.new ≡ completed (read_tasks self.old) }
        ensures kept { OnErr result (self.new ≡ self.old) }
    {
        let Some(running) = self.running.checked_sub(1) else {
            return Err(Refusal::Inactive);
        };
        self.running = running;
        Ok(())
    }

    /// All tasks that wait are dropped, because the run was stopped. Those that are due are still sent.
    pub fn drop_waiting(&mut self)
        ensures { read_tasks self.new ≡ dropped (read_tasks self.old) }
    {
        self.waiting = 0;
    }

    /// A task that waits here becomes due to another process.
    ///
    /// Refused: `Inactive` if none waits; `Full` if 2^43 tasks are due.
    pub fn give(&mut self) -> Result<(), Refusal>
        ensures refused { result_err result ≡ give_refusal (read_tasks self.old) }
        ensures state { read_tasks self.new ≡ given (read_tasks self.old) }
        ensures kept { OnErr result (self.new ≡ self.old) }
    {
        let Some(waiting) = self.waiting.checked_sub(1) else {
            return Err(Refusal::Inactive);
        };
        if self.due >= LIMIT {
            return Err(Refusal::Full);
        }
        self.waiting = waiting;
        self.due += 1;
        Ok(())
    }

    /// The opening ends: from now on only running tasks make tasks.
    ///
    /// Refused: `Inactive` if it has ended.
    pub fn close(&mut self) -> Result<(), Refusal>
        ensures refused { result_err result ≡ opening_refusal (read_tasks self.old) }
        ensures state { read_tasks self.new ≡ without_opening (read_tasks self.old) }
        ensures kept { OnErr result (self.new ≡ self.old) }
    {
        if self.opening == 0 {
            return Err(Refusal::Inactive);
        }
        self.opening = 0;
        Ok(())
    }

    /// A task that is due is sent: counts the message. Call it before the transport gets the message.
    ///
    /// Refused: `Inactive` if none is due; then as `Process::count_sent`.
    pub fn send(&mut self, process: &mut Process) -> Result<(), Refusal>
        ensures refused { result_err result ≡ send_task_refusal (read_tasks self.old) (read process.old) }
        ensures tasks { read_tasks self.new ≡ tasks_after_send (read_tasks self.old) (read process.old) }
        ensures process { read process.new ≡ process_after_send (read_tasks self.old) (read process.old) }
        ensures kept { OnErr result (self.new ≡ self.old) }
        ensures process_kept { OnErr result (process.new ≡ process.old) }
    {
        let Some(due) = self.due.checked_sub(1) else {
            return Err(Refusal::Inactive);
        };
        process.count_sent()?;
        self.due = due;
        Ok(())
    }

    /// A task comes in a message of an epoch, and waits here. If the process has work open, the piece of work that the
    /// message brings is finished at once: one is enough. Call it before the task is seen by any thread.
    ///
    /// Refused: `Full` if 2^43 tasks wait; then as `Process::count_received`.
    pub fn receive(&mut self, process: &mut Process, epoch: u64) -> Result<(), Refusal>
        ensures refused { result_err result ≡ receive_task_refusal epoch (read_tasks self.old) (read process.old) }
        ensures tasks { read_tasks self.new ≡ tasks_after_receive epoch (read_tasks self.old) (read process.old) }
        ensures process { read process.new ≡ process_after_receive epoch (read_tasks self.old) (read process.old) }
        ensures kept { OnErr result (self.new ≡ self.old) }
        ensures process_kept { OnErr result (process.new ≡ process.old) }
    {
        if self.waiting >= LIMIT {
            return Err(Refusal::Full);
        }
        let is_working = process.pending() != 0;
        process.count_received(epoch)?;
        if is_working {
            process.finish_work()?;
        }
        self.waiting += 1;
        Ok(())
    }

    /// Finishes the work of the process if no task is left here, and returns whether it did. Call it after other calls,
    /// before `Process::next`.
    ///
    /// Refused: `NotOpen`.
    pub fn settle(&self, process: &mut Process) -> Result<bool, Refusal>
        ensures settled { result ≡ settle_result (read_tasks self.now) (read process.old) }
        ensures process { read process.new ≡ process_after_settle (read_tasks self.now) (read process.old) }
        ensures kept { OnErr result (process.new ≡ process.old) }
    {
        if !process.is_open() {
            return Err(Refusal::NotOpen);
        }
        if !self.is_idle() || process.pending() == 0 {
            return Ok(false);
        }
        process.finish_work()?;
        Ok(true)
    }

    /// Begins the next epoch of the process, with an opening.
    ///
    /// Refused: as `Process::reopen`.
    pub fn reopen(&mut self, process: &mut Process) -> Result<(), Refusal>
        ensures refused { result_err result ≡ checked (read process.old) (reopen_refusal (read process.old)) }
        ensures tasks { read_tasks self.new ≡ tasks_after_reopen (read_tasks self.old) (read process.old) }
        ensures process { read process.new ≡ if_open (read process.old) (reopened (read process.old)) }
        ensures kept { OnErr result (self.new ≡ self.old) }
        ensures process_kept { OnErr result (process.new ≡ process.old) }
    {
        process.reopen()?;
        self.opening = 1;
        Ok(())
    }

    /// Returns why no task can be made, if the number that rises is `count`.
    fn check_make(&self, count: u64) -> Result<(), Refusal>
        ensures { result_err result ≡ make_refusal count (read_tasks self.now) }
    {
        if self.opening == 0 && self.running == 0 {
            return Err(Refusal::Inactive);
        }
        if count >= LIMIT {
            return Err(Refusal::Full);
        }
        Ok(())
    }
}

const _: () = prove!(size_of::<TaskCounts>() == 32);
