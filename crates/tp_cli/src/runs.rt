//! Running all registered pools at once.
ghost use Rattle.std.specs.Prelude.{◌≡◌, IfErr, IfOk, OnErr};
ghost use Rattle.tp_base.specs.declared.refusal.Refusal.TheVariants.{NoMemory};
ghost use Rattle.tp_cli.specs.Registry.{AreRun, AreRunAnswers, IsRunAnswer};
ghost use Rattle.tp_work.specs.Outcomes.{IsWithinLimits};

use crate::registry::Registry;
use pool_samples::AnyGraph;
use std::alloc::{AllocError, Global};
use std::sync::Wait;
use std::thread::{self, Threads};
use tp_base::Refusal;
use tp_work::{Config, Fault, Gate, Outcome, run_pool};

/// Runs all registered pools at once, each with threads of its own, waits for all, and returns their results in the
/// order of registration. Each result is that of `run_pool`; the fault of one pool stops no other. Afterwards a pool
/// that was run is `Over` if its result is `Ok`, and else `Failed`; the states of the others are unchanged.
///
/// Refused with `NoMemory` if the allocation of the graphs or the results fails. The results are dropped then, and the
/// registry is unchanged.
pub fn run_pools<A: Gate, R: Threads + Wait + Sync>(
    rt: &R,
    alloc: Global,
    registry: &mut Registry,
    config: Config,
    gate: &A,
) -> Result<Vec<Result<Outcome, Fault>>, Refusal>
    requires limits { IsWithinLimits config }
    ensures ran { IfOk result (λ answers. AreRun config.nodes config.workers answers.items registry.old registry.new) }
    ensures refused { OnErr result (registry.new ≡ registry.old) }
    ensures refusal { IfErr result (λ e. e ≡ NoMemory) }
{
    let graphs = registry.graphs_to_run()?;
    let answers = run_each(rt, alloc, graphs, config, gate)?;
    registry.settle(&answers);
    Ok(answers)
}

/// Runs a pool of each graph, all at once.
fn run_each<A: Gate, R: Threads + Wait + Sync>(
    rt: &R,
    alloc: Global,
    graphs: Vec<AnyGraph>,
    config: Config,
    gate: &A,
) -> Result<Vec<Result<Outcome, Fault>>, AllocError>
    requires limits { IsWithinLimits config }
    ensures { IfOk result (λ answers. AreRunAnswers config.nodes config.workers graphs.items answers.items) }
{
    thread::map_vec(
        rt,
        graphs,
        &|graph| -> Result<Outcome, Fault>
            requires { IsWithinLimits config }
            ensures { IsRunAnswer config.nodes config.workers graph result }
        { run_pool(rt, alloc, graph, config, gate) },
    )
}
