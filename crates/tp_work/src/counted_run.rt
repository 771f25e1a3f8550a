//! A run whose tasks are counted for a progress line.
ghost use Rattle.{std.specs.Prelude.{IfErr, IfOk}, tp_work.specs.Outcomes.{IsFault, IsOutcome, IsWithinLimits}};

use crate::config::{Config, Fault, Outcome};
use crate::counted_graph::Counted;
use crate::gate::OpenGate;
use crate::progress::{Plan, Progress};
use crate::run::run_pool;
use std::alloc::Global;
use std::sync::Wait;
use std::thread::Threads;
use tp_graph::Graph;

/// Runs a pool like [`run_pool`], with a gate that never stops it, and returns its outcome. The tasks are counted if
/// there is a progress.
pub fn run_pool_counted<G: Graph, R: Threads + Wait + Sync>(
    rt: &R,
    alloc: Global,
    graph: G,
    config: Config,
    progress: Option<&Progress>,
) -> Result<Outcome, Fault>
    requires { IsWithinLimits config }
    ensures outcome { IfOk result (IsOutcome config.nodes config.workers (G.meaning graph)) }
    ensures fault { IfErr result (IsFault config.nodes (G.meaning graph)) }
{
    // Not one wrapper that tests each time whether to count: that would cost about twenty instructions a task.
    match progress {
        Some(progress) => run_pool_told(rt, alloc, graph, config, progress),
        None => run_pool(rt, alloc, graph, config, &OpenGate),
    }
}

/// Runs the pool with its tasks counted.
fn run_pool_told<G: Graph, R: Threads + Wait + Sync>(
    rt: &R,
    alloc: Global,
    graph: G,
    config: Config,
    progress: &Progress,
) -> Result<Outcome, Fault>
    requires { IsWithinLimits config }
    ensures outcome { IfOk result (IsOutcome config.nodes config.workers (G.meaning graph)) }
    ensures fault { IfErr result (IsFault config.nodes (G.meaning graph)) }
{
    progress.begin(rt, Plan::of_tasks(u64::from(graph.tasks())));
    let counted = Counted::new(rt, graph, progress);
    run_pool(rt, alloc, counted, config, &OpenGate)
}
