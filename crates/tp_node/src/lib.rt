//! A node of a pool: its tasks, open actions and results, and its shares of the pool's ledgers. Locks, threads and the
//! order of calls are not here.
//!
//! [`open_pool`] returns nodes, links and a board whose ledgers belong together. Each call of [`Node`] that changes the
//! node appends its events to the board's history. A begun task is [`Work`]; running its body gives [`Finished`]; the
//! node passes on each of its feeds before the task is done. A pool whose termination was detected can be reopened and
//! run again.
#![tactic(auto)]

mod actions;
mod feeds;
mod holder;
mod local;
mod node;
mod node_monitor;
mod numbers;
mod pool;
mod pool_link;
mod reopening;
mod work;

pub use local::Local;
pub use node::Node;
pub use pool::{Pool, open_pool};
pub use pool_link::PoolLink;
pub use reopening::{Reopened, count_results};
pub use tp_board::Turn;
pub use work::{Finished, Work};
