//! The sample pools of `tp run`, and the text of a run of one.

ghost use Rattle.pool_samples.specs.Any.{any_graph};
ghost use Rattle.tp_work.specs.Outcomes.{IsOutcome, IsWithinLimits};

use crate::fault::Fault;
use crate::times::Times;
use crate::watched::{Watch, run_pool_watched};
use pool_samples::{AnyGraph, checked, print_table};
use std::alloc::Global;
use std::rt::Clock;
use std::sync::Wait;
use std::thread::Threads;
use tp_work::{Config, Outcome};

/// Runs the pool that a specification names, and returns its table and its totals.
pub(crate) fn pool_text<R: Threads + Wait + Sync + Clock>(
    rt: &R,
    alloc: Global,
    spec: &str,
    config: Config,
    watch: Watch,
    times: &mut Times,
) -> Result<Vec<u8>, Fault>
    requires { IsWithinLimits config }
{
    times.begin(rt);
    let Ok(graph) = checked(spec) else {
        return Err(Fault::NoPool(String::from_str(alloc, spec)?));
    };
    let outcome = match run_pool_watched(rt, alloc, graph, config, watch) {
        Ok(outcome) => outcome,
        Err(fault) => return Err(Fault::from(fault.refusal)),
    };
    times.end(rt)?;
    table_of(alloc, graph, &outcome, config)
}

/// Returns the table of an outcome, with the totals below it.
fn table_of(
    alloc: Global,
    graph: AnyGraph,
    outcome: &Outcome,
    config: Config,
) -> Result<Vec<u8>, Fault>
    requires { IsOutcome config.nodes config.workers (any_graph graph) outcome.now }
{
    let mut text = print_table(alloc, graph, &outcome.results)?;
    let (tasks, messages) = (outcome.tasks, outcome.messages);
    let totals = format!(in alloc; "tasks {tasks}\nmessages {messages}\nended\n")?;
    text.extend_from_slice(totals.as_bytes())?;
    Ok(text)
}
