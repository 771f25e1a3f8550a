//! A run whose results are in the order of tasks.
ghost use Rattle.{std.specs.Prelude.{IfErr, IfOk}, tp_graph.specs.{Graphs.KeepsAll, Left.AreResults, Serial.{AreInTaskOrder, AreValues}}};
ghost use Rattle.tp_work.specs.Outcomes.{IsFault, IsWithinLimits};

use crate::config::{Config, Fault};
use crate::gate::OpenGate;
use crate::run::run_pool;
use std::alloc::Global;
use std::sync::Wait;
use std::thread::Threads;
use tp_base::TaskId;
use tp_graph::{Graph, Value, in_order};

/// Returns what a run leaves of each task of a graph, in rising order of tasks, computed by a pool of threads: the
/// value if the graph keeps it, and else no numbers. For a graph that keeps all values this is what
/// [`serial`](tp_graph::serial) returns. Refused as [`run_pool`] is.
pub fn run_in_order<G: Graph, R: Threads + Wait + Sync>(
    rt: &R,
    alloc: Global,
    graph: G,
    config: Config,
) -> Result<Vec<(TaskId, Value)>, Fault>
    requires { IsWithinLimits config }
    ensures order { IfOk result (λ results. AreInTaskOrder (G.meaning graph).tasks results.items) }
    ensures left { IfOk result (λ results. AreResults (G.meaning graph) results.items) }
    ensures values { IfOk result (λ results. KeepsAll (G.meaning graph)
        → AreValues (G.meaning graph) (G.meaning graph).tasks results.items) }
    ensures fault { IfErr result (IsFault config.nodes (G.meaning graph)) }
{
    let outcome = run_pool(rt, alloc, graph, config, &OpenGate)?;
    Ok(in_order(outcome.results))
}
