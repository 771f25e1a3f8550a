//! A pool of tasks with threads: which thread runs what, which of them wait, and which are woken. It has no lock and starts no thread.
#![tactic(auto)]

mod laws;
mod limits;
mod refusal;
mod state;
mod team;
mod turn;
mod waiting;

pub use laws::{counts_threads, dispatched_once, loses_no_wake_up};
pub use limits::MAX_THREADS;
pub use refusal::{Fault, TeamRefusal};
pub use state::State;
pub use team::Team;
pub use turn::{Arrival, Reply, Spawned, Turn};
pub use waiting::Waiting;

#[cfg(test)]
mod tests;
