//! The monitor of a node: five counters that show whether a pool can still change there. What nodes send each other is
//! not here.
#![tactic(auto)]

mod laws;
mod monitor;
mod numbers;
mod state;

pub use laws::limit_of_actions_is_this;
pub use monitor::Monitor;
pub use numbers::{MAX_ACTIONS, MonitorNumbers};
pub use state::TaskpoolState;
