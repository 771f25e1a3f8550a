//! The exported functions on the tasks of one process, in a pool in which running tasks make tasks, which
//! `gerfmuod/process.h` declares. The counts are plain data in the caller's memory.

ghost use Rattle.gerfmuod.specs.Tasks.{added, added_due, began, begin_refusal, completed, done_refusal, dropped, give_refusal, given};
ghost use Rattle.gerfmuod.specs.Tasks.{is_idle, make_refusal, new_tasks, opening_refusal};
ghost use Rattle.gerfmuod.specs.Tasks.{process_after_receive, process_after_send, process_after_settle};
ghost use Rattle.gerfmuod.specs.Tasks.{read_tasks, receive_task_refusal, send_task_refusal, settle_result, settled_as, tasks_after_receive};
ghost use Rattle.gerfmuod.specs.Tasks.{tasks_after_reopen, tasks_after_send, without_opening, IsJointCall, IsTasksCall};
ghost use Rattle.gerfmuod.specs.Wire.{checked, if_open, read, reopen_refusal, reopened, IsKept};
ghost use Rattle.std.specs.Prelude.{◌≡◌, ◌≤◌, ◌⊎◌};

use crate::process::{number_of, outcome};
use tp_process::{Process, TaskCounts};

/// Makes the counts of a process that was just opened: no task, and the opening.
#[unsafe(no_mangle)]
pub extern "C" fn gerfmuod_tasks_open(tasks: &mut TaskCounts)
    ensures { tasks.new ≡ new_tasks }
{
    *tasks = TaskCounts::new();
}

/// Counts a task that was made for this process. Returns 0 or the refusal, as in `TaskCounts::add`.
#[unsafe(no_mangle)]
pub extern "C" fn gerfmuod_tasks_add(tasks: &mut TaskCounts) -> u32
    ensures { IsTasksCall (λ t. make_refusal t.waiting t) added tasks.old result tasks.new }
{
    outcome(tasks.add())
}

/// Counts a task that was made for another process. Returns 0 or the refusal, as in `TaskCounts::add_due`.
#[unsafe(no_mangle)]
pub extern "C" fn gerfmuod_tasks_add_due(tasks: &mut TaskCounts) -> u32
    ensures { IsTasksCall (λ t. make_refusal t.due t) added_due tasks.old result tasks.new }
{
    outcome(tasks.add_due())
}

/// Counts that a task which waits begins to run. Returns 0 or the refusal, as in `TaskCounts::begin`.
#[unsafe(no_mangle)]
pub extern "C" fn gerfmuod_tasks_begin(tasks: &mut TaskCounts) -> u32
    ensures { IsTasksCall begin_refusal began tasks.old result tasks.new }
{
    outcome(tasks.begin())
}

/// Counts that a running task is done. Returns 0 or the refusal, as in `TaskCounts::done`.
#[unsafe(no_mangle)]
pub extern "C" fn gerfmuod_tasks_done(tasks: &mut TaskCounts) -> u32
    ensures { IsTasksCall done_refusal completed tasks.old result tasks.new }
{
    outcome(tasks.done())
}

/// Counts all tasks that wait as dropped.
#[unsafe(no_mangle)]
pub extern "C" fn gerfmuod_tasks_drop_waiting(tasks: &mut TaskCounts)
    ensures { read_tasks tasks.new ≡ dropped (read_tasks tasks.old) }
{
    tasks.drop_waiting()
}

/// Counts a task that waits as due to another process. Returns 0 or the refusal, as in `TaskCounts::give`.
#[unsafe(no_mangle)]
pub extern "C" fn gerfmuod_tasks_give(tasks: &mut TaskCounts) -> u32
    ensures { IsTasksCall give_refusal given tasks.old result tasks.new }
{
    outcome(tasks.give())
}

/// Ends the opening. Returns 0 or the refusal, as in `TaskCounts::close`.
#[unsafe(no_mangle)]
pub extern "C" fn gerfmuod_tasks_close(tasks: &mut TaskCounts) -> u32
    ensures { IsTasksCall opening_refusal without_opening tasks.old result tasks.new }
{
    outcome(tasks.close())
}

/// Counts a task that was due as sent. Returns 0 or the refusal, as in `TaskCounts::send`.
#[unsafe(no_mangle)]
pub extern "C" fn gerfmuod_tasks_send(tasks: &mut TaskCounts, process: &mut Process) -> u32
    ensures { IsJointCall send_task_refusal tasks_after_send process_after_send tasks.old process.old result tasks.new process.new }
{
    outcome(tasks.send(process))
}

/// Counts a task that comes in a message of an epoch. Returns 0 or the refusal, as in `TaskCounts::receive`.
#[unsafe(no_mangle)]
pub extern "C" fn gerfmuod_tasks_receive(
    tasks: &mut TaskCounts,
    process: &mut Process,
    epoch: u64,
) -> u32
    ensures { IsJointCall (receive_task_refusal epoch) (tasks_after_receive epoch) (process_after_receive epoch)
        tasks.old process.old result tasks.new process.new }
{
    outcome(tasks.receive(process, epoch))
}

/// Finishes the work of the process if no task is left here. Returns 1 if it did, and 0 if it did not. A number above 100
/// is a refusal.
#[unsafe(no_mangle)]
pub extern "C" fn gerfmuod_tasks_settle(tasks: &TaskCounts, process: &mut Process) -> u32
    ensures settled { result ≡ settled_as (settle_result (read_tasks tasks.now) (read process.old)) }
    ensures process { read process.new ≡ process_after_settle (read_tasks tasks.now) (read process.old) }
    ensures kept { (result ≤ 1) ⊎ (process.new ≡ process.old) }
{
    match tasks.settle(process) {
        Ok(false) => 0,
        Ok(true) => 1,
        Err(refusal) => number_of(refusal),
    }
}

/// Begins the next epoch of the process, with an opening. Returns 0 or the refusal, as in `TaskCounts::reopen`.
#[unsafe(no_mangle)]
pub extern "C" fn gerfmuod_tasks_reopen(tasks: &mut TaskCounts, process: &mut Process) -> u32
    ensures { IsJointCall (λ t p. checked p (reopen_refusal p)) tasks_after_reopen (λ t p. if_open p (reopened p))
        tasks.old process.old result tasks.new process.new }
{
    outcome(tasks.reopen(process))
}

/// Returns the number of tasks that wait here.
#[unsafe(no_mangle)]
pub extern "C" fn gerfmuod_tasks_waiting(tasks: &TaskCounts) -> u64
    ensures { result ≡ (read_tasks tasks.now).waiting }
{
    tasks.waiting()
}

/// Returns the number of tasks that run here.
#[unsafe(no_mangle)]
pub extern "C" fn gerfmuod_tasks_running(tasks: &TaskCounts) -> u64
    ensures { result ≡ (read_tasks tasks.now).running }
{
    tasks.running()
}

/// Returns the number of tasks that were made here for other processes and are not sent.
#[unsafe(no_mangle)]
pub extern "C" fn gerfmuod_tasks_due(tasks: &TaskCounts) -> u64
    ensures { result ≡ (read_tasks tasks.now).due }
{
    tasks.due()
}

/// Returns whether the opening has not ended.
#[unsafe(no_mangle)]
pub extern "C" fn gerfmuod_tasks_is_opening(tasks: &TaskCounts) -> bool
    ensures { result ≡ (read_tasks tasks.now).opening }
{
    tasks.is_opening()
}

/// Returns whether no task is left here, and none can be made.
#[unsafe(no_mangle)]
pub extern "C" fn gerfmuod_tasks_is_idle(tasks: &TaskCounts) -> bool
    ensures { result ≡ is_idle (read_tasks tasks.now) }
{
    tasks.is_idle()
}
