//! One part of a task graph that several parts run together, each a process or a node with a lock of its own: its own tasks, the values
//! that it waits for, and those that it sends. It makes no call of a transport: the caller carries the messages.
#![tactic(auto)]

mod describe;
mod edges;
mod laws;
mod part;
mod pass;

pub use edges::Edge;
pub use laws::{after_its_inputs, all_end, along_chains, each_once, may_leave, never_silent};
pub use part::{Next, Part};

#[cfg(test)]
mod tests;
