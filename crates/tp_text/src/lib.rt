//! Scripts and traces as text: parsing, printing, and the replies to them. The rules of their steps are not here.
#![tactic(auto)]

mod account;
mod auditor;
mod fault;
mod input;
mod keyword;
mod laws;
mod number;
mod parse;
mod printing;
mod reading;
mod recount;
mod simulation;
mod step_lines;
mod traced;
mod tracer;
mod tracing;
mod verdict;
mod version;
mod words;

pub use fault::TextFault;
pub use input::{MAX_READS, MAX_TEXT};
pub use laws::{
    audits_are_determined, readings_are_determined, runs_of_one_generation, scripts_are_determined,
    texts_are_determined, traces_are_determined, traces_are_read_back,
};
pub use reading::{Reading, Trace, read_trace};
pub use recount::audit;
pub use simulation::sim;
pub use tracing::{print_steps, print_trace};
pub use verdict::Verdict;
