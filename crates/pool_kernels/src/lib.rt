//! Grids of tasks over a relation, with a kernel of one's own, and what such pools need besides: values number by
//! number, the results of a row as one list.
//!
//! A [`Relation`] says which columns of a row feed which of the next, and a [`Kernel`] what a task computes from its
//! row, its column and the values that feed it. A [`FeedTable`] is computed from a relation once; a [`KernelGrid`],
//! which borrows the table, is the graph of both, and [`run_grid`] runs it on threads. [`run_kernel`] does all of this.
//!
//! Task Bench's patterns (E. Slaughter and others, "Task Bench: A Parameterized Benchmark for Evaluating Parallel Runtime
//! Performance", 2020) are relations, too: a [`Pattern`]; [`Stirring`] is the kernel of its tasks.
#![tactic(auto)]

mod check;
mod fault;
mod grid;
mod kernel;
mod kinds;
mod laws;
mod pattern;
mod relation;
mod run;
mod stirring;
mod table;
mod values;

pub use check::{Plan, PlanOf, check_graph, check_plan};
pub use fault::{GraphFault, GridFault, RunFault, TableFault};
pub use grid::{KernelGrid, last_row};
pub use kernel::Kernel;
pub use laws::{cells_are_values, grid_events_are_counted, sound_graphs_are_lawful};
pub use pattern::Pattern;
pub use pool_blocks::joined;
pub use relation::Relation;
pub use run::{GridRun, run_grid, run_kernel};
pub use stirring::{Stirring, checksum};
pub use table::FeedTable;
pub use values::{bits_of, double_of, number_at, value_by};
