//! The configuration of a run, its outcome, and the fault of a run without one.
ghost use Rattle.std.specs.Prelude.{◌≡◌, ◌≤◌};

use crate::gathered::Report;
use tp_base::{History, Refusal, TaskId};
use tp_graph::Value;

/// The configuration of a run.
#[derive(Clone, Copy, Debug, PartialEq, Eq)]
pub struct Config {
    /// The number of nodes: 1 to 8.
    pub nodes: u32,
    /// The number of worker threads at each node: 1 to 8.
    pub workers: u32,
    /// The number of idle turns in a row after which a worker gives the pool up: 1 to 1,000,000,000. A turn is idle if
    /// the worker's node has nothing for it, even while others run long bodies. Turns are counted, not time: after most
    /// idle turns a worker sleeps for up to about 10 ms, so 1,000,000 of them take hours. No contract bounds any time.
    pub idle_turns: u32,
}

/// The default limit of idle turns.
const PATIENCE: u32 = 100_000_000;

impl Config {
    /// Returns the configuration of `nodes` nodes with `workers` workers each, 1 to 8 of both, and a limit of
    /// 100,000,000 idle turns in a row.
    pub const fn new(nodes: u32, workers: u32) -> Self
        requires nodes { (1 ≤ nodes) × (nodes ≤ 8) }
        requires workers { (1 ≤ workers) × (workers ≤ 8) }
        ensures nodes { result.nodes ≡ nodes }
        ensures workers { result.workers ≡ workers }
        ensures idle_turns { result.idle_turns ≡ 100000000 }
    {
        Config {
            nodes,
            workers,
            idle_turns: PATIENCE,
        }
    }
}

/// The outcome of a run.
#[derive(Drop)]
pub struct Outcome {
    /// Each task of the graph, in no particular order, with its value if the graph keeps it, and else without numbers.
    pub results: Vec<(TaskId, Value)>,
    /// The number of tasks done.
    pub tasks: u32,
    /// The number of messages sent.
    pub messages: u32,
    /// The number of nodes to which termination was announced.
    pub announced: u32,
    /// The number of workers at all nodes together: those that have returned.
    pub workers: u32,
    /// The events of the run.
    pub history: History,
}

/// Why a run has no outcome.
#[derive(Drop)]
pub struct Fault {
    /// The refusal.
    pub refusal: Refusal,
    /// What was gathered of the pool, if it could be.
    pub report: Option<Report>,
    /// The task whose body failed first, if one returned `BodyFailed`. No contract depends on it.
    pub failed: Option<TaskId>,
}
