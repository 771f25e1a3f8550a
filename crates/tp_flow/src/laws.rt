//! Theorems about all descriptions, about all graphs whose missing inputs are counted, and about all orders in which the tasks may run.
ghost use Rattle.tp_flow.specs.CountdownLaws.{ReadyAfterInputs, ReadyOnce, AllAreReady, ChainsAreReaders};
ghost use Rattle.tp_flow.specs.Laws.{OrdersConflicts, GivesTheSequentialResult, ReadsTheSequentialValues};

/// If two tasks access one handle and one of them writes it, then the later one waits for the earlier one, by a chain of inputs. So in any
/// run in which a task begins after its inputs are done, the earlier one is done before the later one begins.
#[tactic(auto, using(crate::proofs::Keeping::orders_conflicts))]
pub fn orders_conflicts()
    ensures { OrdersConflicts }
{}

/// Whatever the bodies do, as long as each depends only on the handles that its task reads and changes only those that it writes: any order
/// of all tasks in which each comes after its inputs leaves in every handle what the order of the description leaves.
#[tactic(auto, using(crate::proofs::Keeping::gives_the_sequential_result))]
pub fn gives_the_sequential_result<V>()
    ensures { GivesTheSequentialResult V }
{}

/// In such an order each task reads the values that it reads in the order of the description.
#[tactic(auto, using(crate::proofs::Keeping::reads_the_sequential_values))]
pub fn reads_the_sequential_values<V>()
    ensures { ReadsTheSequentialValues V }
{}

/// When a task begins, each task that it reads is done.
#[tactic(auto, using(crate::proofs::Counting::ready_after_inputs))]
pub fn ready_after_inputs()
    ensures { ReadyAfterInputs }
{}

/// No task is handed over twice, so none begins twice; and a task's number is that of its inputs without those that arrived.
#[tactic(auto, using(crate::proofs::Counting::ready_once))]
pub fn ready_once()
    ensures { ReadyOnce }
{}

/// No task is forgotten: if each task that was handed over is done, and each input that a done task makes has arrived, every task is done.
#[tactic(auto, using(crate::proofs::Counting::all_are_ready))]
pub fn all_are_ready()
    ensures { AllAreReady }
{}

/// The chain that `link` returns for a task has each input that names the task, once, and no other one.
#[tactic(auto, using(crate::proofs::Counting::chains_are_readers))]
pub fn chains_are_readers()
    ensures { ChainsAreReaders }
{}
