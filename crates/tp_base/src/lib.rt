//! What all other crates share: the numbers of nodes, tasks and the like, limits, refusals, steps and their history,
//! and a table of values by number.
#![tactic(auto)]

mod history;
mod ids;
mod laws;
mod limits;
mod packed;
mod refusal;
mod step;
mod sums;
mod table;

pub use history::History;
pub use ids::{ActionId, Generation, Inputs, MessageId, NodeId, PoolId, TaskId};
pub use laws::limits_are_these;
pub use limits::{
    CLASSES, MAX_IDLE_TURNS, MAX_INPUTS, MAX_LEAVES, MAX_LIVE_TASKS, MAX_MESSAGES, MAX_NODES,
    MAX_ORDER, MAX_POOLS, MAX_SEED, MAX_SIDE, MAX_STEPS, MAX_WORKERS,
};
pub use refusal::Refusal;
pub use step::Step;
pub use sums::Sums;
pub use table::Table;
