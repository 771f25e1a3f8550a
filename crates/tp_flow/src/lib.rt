//! Sequential task flow: a program describes tasks in the order of a sequential program, each with the pieces of data that it reads and
//! writes, and a flow infers which earlier tasks each task has to wait for. Of a graph that is known before it runs, it counts the missing
//! inputs of each task. It runs no task.
#![tactic(auto)]

mod access;
mod countdown;
mod flow;
mod laws;
mod limits;
mod uses;

pub use access::{Access, Handle, Mode};
pub use countdown::{arrive, link};
pub use flow::Flow;
pub use laws::{
    all_are_ready, chains_are_readers, gives_the_sequential_result, orders_conflicts,
    reads_the_sequential_values, ready_after_inputs, ready_once,
};
pub use limits::{MAX_HANDLES, MAX_LINKED, NO_INPUT};

#[cfg(test)]
mod tests;
