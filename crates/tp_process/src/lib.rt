//! The four counter detector (Mattern 1987) for one process of a distributed program: plain data of a fixed size, with
//! no thread, no lock and no input or output. The caller's own transport carries its control messages.
#![tactic(auto)]

mod control_message;
mod epoch_state;
mod laws;
mod outcome;
mod process;
mod task_counts;
mod task_laws;

pub use control_message::{ControlMessage, Token};
pub use laws::{
    all_end, each_epoch, few_carried, few_control_messages, few_each, few_waves, goes_on_each,
    limits_are_these, near_epochs, never_early, never_early_each, never_late, never_miscounted,
    never_silent, quiet_stays, stays_open,
};
pub use outcome::{Next, Refusal};
pub use process::Process;
pub use task_counts::TaskCounts;
pub use task_laws::{no_task_is_lost, tasks_are_work, tasks_never_early, tasks_never_silent};
