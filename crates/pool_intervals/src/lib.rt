//! Pools over the intervals of some items. The number of an interval is computed from the numbers of shorter intervals
//! that begin or end with it, as in dynamic programming.
#![tactic(auto)]

mod graph;
mod intervals;
mod matrix_chain;
mod run;
mod splits;
mod table;

pub use intervals::Intervals;
pub use matrix_chain::least_multiplications;
pub use run::{IntervalFault, run_intervals, run_whole};
pub use splits::{LeastSplit, Splits, product, sum};
pub use table::Table;
