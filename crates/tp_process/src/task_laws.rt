//! The theorems of a pool in which running tasks make tasks, each on a public function.

ghost use Rattle.tp_process.specs.Pool.{AllDoneLaw, CountedTasksLaw, GoesOnDoneLaw, PoolEndedLaw, PoolNeverEarlyLaw, SoonDoneLaw, WorkLaw};

/// Safety: if a process knows the end, or `next` returns `Ended`, at no process does a task wait, run or be due, and
/// none is under way.
#[tactic(auto, using(crate::proofs::TaskPool::pool_never_early, crate::proofs::TaskPool::pool_ended))]
pub fn tasks_never_early()
    ensures known { PoolNeverEarlyLaw }
    ensures ended { PoolEndedLaw }
{}

/// The rule of the counts: a process has at most one piece of work open, and has one unless it is idle.
#[tactic(auto, using(crate::proofs::TaskPool::work))]
pub fn tasks_are_work()
    ensures { WorkLaw }
{}

/// No task is lost and none is doubled; at the end each that was made is done, or was dropped.
#[tactic(auto, using(crate::proofs::TaskPool::counted, crate::proofs::TaskPool::all_done))]
pub fn no_task_is_lost()
    ensures counted { CountedTasksLaw }
    ensures done { AllDoneLaw }
{}

/// Liveness: once no task is left, at most 15n - 11 events of n processes are useful, and one is possible until `next`
/// returns `Ended` at each.
#[tactic(auto, using(crate::proofs::TaskPool::soon_done, crate::proofs::TaskPool::goes_on_done))]
pub fn tasks_never_silent()
    ensures soon { SoonDoneLaw }
    ensures goes_on { GoesOnDoneLaw }
{}
