//! The theorems about all parts of a graph together, over a network that brings messages in any order.
ghost use Rattle.tp_part.specs.Laws.{AfterItsInputs, AllEnd, AlongChains, EachOnce, MayLeave, NeverSilent};

/// Over all parts, each task is run at most once, at the part that owns it; each message is sent at most once, and arrives at most once.
#[tactic(auto, using(crate::proofs::Theorems::each_once))]
pub fn each_once()
    ensures { EachOnce }
{}

/// A task is run only after each task that it reads is done at its owner, and its value arrived if that is another part.
#[tactic(auto, using(crate::proofs::Theorems::after_its_inputs))]
pub fn after_its_inputs()
    ensures { AfterItsInputs }
{}

/// A task is run only after each task that it reaches by a chain of inputs is done, wherever that ran, and what that read had come there.
#[tactic(auto, using(crate::proofs::Theorems::along_chains))]
pub fn along_chains()
    ensures { AlongChains }
{}

/// If the newest call at a part returned `Over`, no message is in flight to it, and none will be sent: it may leave.
#[tactic(auto, using(crate::proofs::Theorems::may_leave))]
pub fn may_leave()
    ensures { MayLeave }
{}

/// If each part waits or is over, no task runs and no message is in flight, then all tasks are done, and each part returned `Over`.
#[tactic(auto, using(crate::proofs::Theorems::never_silent))]
pub fn never_silent()
    ensures { NeverSilent }
{}

/// All parts together make at most two calls of progress for each task and two for each message. Together with `never_silent`: all end.
#[tactic(auto, using(crate::proofs::Theorems::all_end))]
pub fn all_end()
    ensures { AllEnd }
{}
