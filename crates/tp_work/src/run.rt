//! Running a pool once, and its outcome.
ghost use Rattle.std.specs.Prelude.{◌≡◌, ℕ, IfErr, IfOk, vec_len};
ghost use Rattle.{tp_graph.specs.Graphs.TaskGraph, tp_work.specs.{Outcomes.{IsFault, IsOutcome, IsWithinLimits}, Series.IsSeries}};

use crate::config::{Config, Fault, Outcome};
use crate::gate::Gate;
use crate::series::{Series, run_generations};
use std::alloc::Global;
use std::sync::Wait;
use std::thread::Threads;
use tp_graph::Graph;

/// Runs a pool that computes a graph, and returns its outcome: each task ran once, and each result is the value that
/// the graph defines. `config` gives the nodes, and the threads at each. The call returns when all threads have ended.
///
/// Refused with `Stalled` if a gate returned `false` or a worker's idle turns ran out; `BodyFailed` if a task has no
/// value; `HistoryFull` if the pool needs more than 1,048,576 events; `StoreFull` if more than 65,536 tasks are
/// unfinished at a node; `NoNode` and `Stranger` if a part is not at its place; `NoMemory` if an allocation fails or a
/// thread cannot be started; `Missing` if a task has no result or more than one, or was not inserted, begun and done
/// once. The first fault that was set is the refusal, even after termination was detected. When all threads have ended
/// and none was set, `Missing` is set as the fault if termination was not detected or not announced to each node.
/// `HistoryFull` has the number of events, if there is room for at most one more; otherwise the refusal is `Missing`.
pub fn run_pool<G: Graph, A: Gate, R: Threads + Wait + Sync>(
    rt: &R,
    alloc: Global,
    graph: G,
    config: Config,
    gate: &A,
) -> Result<Outcome, Fault>
    requires limits { IsWithinLimits config }
    ensures outcome { IfOk result (IsOutcome config.nodes config.workers (G.meaning graph)) }
    ensures fault { IfErr result (IsFault config.nodes (G.meaning graph)) }
{
    match run_generations(rt, alloc, graph, config, gate, 1) {
        Ok(series) => Ok(outcome_of(series)),
        Err(fault) => Err(fault),
    }
}

/// Returns the outcome of a series of one generation.
fn outcome_of(series: Series) -> Outcome
    requires one { vec_len series.rounds ≡ 1 }
    ensures { (n workers : ℕ) (g : TaskGraph) → IsSeries n workers g 1 series → IsOutcome n workers g result }
{
    let Series {
        mut rounds,
        history,
    } = series;
    let Some(round) = rounds.pop() else {
        unreachable!()
    };
    Outcome {
        results: round.results,
        tasks: round.tasks,
        messages: round.messages,
        announced: round.announced,
        workers: round.workers,
        history,
    }
}
