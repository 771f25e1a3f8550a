//! What follows from the contracts alone, whatever calls are made, if each thread comes back only as its last turn returned.
ghost use Rattle.tp_team.specs.Laws.{CountsThreads, DispatchesOnce, NeverLosesWakeUp};

/// The threads that a team counts are those whose last turn returned `Spin` or `Sleep` and that have not come back.
#[tactic(auto, using(crate::proofs::Lemmas::counts_threads))]
pub fn counts_threads()
    ensures { CountsThreads }
{}

/// If a task is ready in a run, then no thread sleeps, or some thread spins or was signalled. Once the team has ended, each thread that
/// sleeps was signalled.
#[tactic(auto, using(crate::proofs::Lemmas::loses_no_wake_up))]
pub fn loses_no_wake_up()
    ensures { NeverLosesWakeUp }
{}

/// Within a run, no two turns tell a thread to run the same task.
#[tactic(auto, using(crate::proofs::Lemmas::dispatched_once))]
pub fn dispatched_once()
    ensures { DispatchesOnce }
{}
