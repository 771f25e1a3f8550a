//! Runs a chain of four tasks at two nodes with two threads each, and prints each task with its value. Before that it
//! checks that the tasks and feeds are in order, for a graph of your own whose laws are not proved yet.
#![tactic(auto)]

ghost use Rattle.chain.specs.{Chains.chain_graph, Sums.AreSums};
ghost use Rattle.std.specs.Prelude.{IfErr, IfOk};
ghost use Rattle.tp_graph.specs.Serial.{AreValues};
ghost use Rattle.tp_work.specs.Outcomes.{IsFault, IsWithinLimits};

mod graph;

use crate::graph::Chain;
use pool_kernels::check_graph;
use std::alloc::Global;
use std::env::Env;
use std::fmt::Write;
use std::process::ExitCode;
use std::sync::Wait;
use std::thread::Threads;
use tp_base::TaskId;
use tp_graph::Value;
use tp_shell::{Ending, Status, begin, end};
use tp_work::{Config, Fault, run_in_order};

fn main(rt: HostRuntime) -> ExitCode {
    let text = chain_text(&rt, 4, Config::new(2, 2));
    ExitCode::from(end(&rt, "chain", &text, rt.stdout(), rt.stderr()))
}

/// Returns a line for each task of a chain of `length` tasks, or why there is none.
fn chain_text<R: Threads + Wait + Sync + Env + AllocGlobal>(
    rt: &R,
    length: u32,
    config: Config,
) -> Result<String, Ending>
    requires { IsWithinLimits config }
{
    let about = "Runs a chain of four tasks, and prints each task with its value";
    begin(rt, "chain", about, false)?;
    let alloc = rt.alloc();
    let mut text = String::new(alloc);
    if let Err(fault) = check_graph(alloc, &Chain { length }, config.nodes) {
        writeln!(text, "not in order: {fault:?}")?;
        return Err(Ending::ErrorLine(Status::Refused, text));
    }
    match run_chain(rt, alloc, length, config) {
        Ok(results) => {
            for (task, value) in &results {
                if let Ok(number) = value.lone() {
                    writeln!(text, "{} {number}", task.0)?;
                }
            }
            Ok(text)
        }
        Err(fault) => {
            let refusal = fault.refusal;
            write!(text, "refused {} {}", refusal.number(), refusal.name())?;
            match fault.failed {
                Some(task) => writeln!(text, ": task {}", task.0)?,
                None => writeln!(text)?,
            }
            Err(Ending::ErrorLine(Status::Failed, text))
        }
    }
}

/// Returns the value of each task of a chain of `length` tasks, in rising order, computed by a pool of threads: the sum
/// of the numbers up to its own. Refused as [`run_in_order`] is.
fn run_chain<R: Threads + Wait + Sync>(
    rt: &R,
    alloc: Global,
    length: u32,
    config: Config,
) -> Result<Vec<(TaskId, Value)>, Fault>
    requires { IsWithinLimits config }
    ensures values { IfOk result (λ results. AreValues (chain_graph length) length results.items) }
    ensures sums { IfOk result (λ results. AreSums length results.items) }
    ensures fault { IfErr result (IsFault config.nodes (chain_graph length)) }
{
    Ok(run_in_order(rt, alloc, Chain { length }, config)?)
}
