//! Runs a pool with worker threads: locks, run queues, workers, and the outcome. Contracts here cover the outcome,
//! whatever the scheduling of threads; nothing says that a run ends.
#![tactic(auto)]

mod backoff;
mod config;
mod counted_graph;
mod counted_run;
mod failed_task;
mod gate;
mod gathered;
mod hints;
mod lives;
mod locks;
mod node_set;
mod once;
mod ordered;
mod oversubscription;
mod progress;
mod progress_line;
mod run;
mod run_queue;
mod runner;
mod screen;
mod series;
mod watching;
mod worker;

pub use config::{Config, Fault, Outcome};
pub use counted_graph::Counted;
pub use counted_run::run_pool_counted;
pub use gate::{Gate, OpenGate};
pub use gathered::{Report, finish};
pub use ordered::run_in_order;
pub use progress::{Plan, Progress};
pub use run::run_pool;
pub use screen::Screen;
pub use series::{Round, Series, run_generations};
pub use watching::watched;
