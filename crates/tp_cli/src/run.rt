//! The subcommand `run`: runs one pool in one generation or more, and prints its tables or its trace.
ghost use Rattle.pool_samples.specs.Any.{any_graph};
ghost use Rattle.std.specs.{Io.KnownBytes.Appends, Option.option_map, Prelude.{◌≡◌, ℕ, List, Ok, Err, IfErr, IfOk, MatchResult}};
ghost use Rattle.std.specs.{Prelude.false, Thread.IsSync};
ghost use Rattle.tp_cli.specs.{Ends.is_unwritten, Runs.{IsPlan, IsRunBy, IsRunFault, IsTextFor, IsTextOf, IsWithoutText, NamesNoGraph}};
ghost use Rattle.tp_shell.specs.declared.status.Status.TheVariants.{Done};
ghost use Rattle.tp_work.specs.Series.{IsSeriesFault};

use crate::fault::{Fault, RunFault};
use crate::printing::text_of;
use pool_samples::{AnyGraph, checked};
use std::alloc::Global;
use std::io::{self, Write};
use std::rt::{Clock, Files};
use std::sync::Wait;
use std::thread::Threads;
use tp_graph::Graph;
use tp_shell::{Log, Profile, Run, Status, Timed, write_text};
use tp_work::{Config, Counted, OpenGate, Progress, Screen, Series, run_generations, watched};

/// What is printed of a run.
#[derive(Clone, Copy, Debug, PartialEq, Eq)]
pub(crate) enum Form {
    /// The result of each generation as a table, with its totals.
    Table,
    /// Only the trace of its events, of all generations.
    Trace,
}

/// How a pool is run, and what is printed of it.
#[derive(Clone, Copy, Debug, PartialEq, Eq)]
pub(crate) struct Plan {
    /// The numbers of nodes and workers.
    pub(crate) config: Config,
    /// The number of generations, 1 to 9: for each but the first the pool is reopened.
    pub(crate) generations: u32,
    /// What is printed.
    pub(crate) form: Form,
}

/// Runs the pool that a specification names, in the given number of generations, and writes their tables and totals or
/// their one trace. Nothing is written before the run has ended. Meanwhile the screen shows its progress. If there is a
/// file, it is opened before the run, no progress is shown, and the times of the tasks are written to it at last. If it
/// cannot be opened or written, that is the reason.
pub(crate) fn run<O: Write, R: Threads + Wait + Sync + Clock + Files, W: Write + Send + Drop>(
    rt: &R,
    alloc: Global,
    spec: &str,
    plan: Plan,
    file: Option<&str>,
    out: &mut O,
    screen: Option<Screen<W>>,
    reason: &mut Option<String>,
) -> Result<Status, Fault>
    requires { IsPlan plan }
    ensures ran { IfOk result (λ status. (text : List ℕ) × ((status ≡ Done) × IsTextFor plan spec.now text)
        × Appends (O.contents out.old) (O.contents out.new) text) }
    ensures unnamed { NamesNoGraph spec.now → result ≡ Err Fault.NoPool }
    ensures why { IfErr result (IsRunFault plan spec.now (option_map (λ f. f.now) file.entry)) }
    ensures unwritten { IfErr result (λ fault. is_unwritten fault ≡ false → out.new ≡ out.old) }
{
    let graph = match checked(spec) {
        Ok(graph) => graph,
        Err(_) => return Err(Fault::NoPool),
    };
    if let Some(path) = file {
        if let Err(error) = Profile::open(rt, path) {
            *reason = reason_of(alloc, file, error);
            return Err(Fault::Profile);
        }
    }
    let profile = Profile::new(alloc, rt, file, bodies(graph, plan.generations));
    // a run is either counted or timed
    let screen = if file.is_some() { None } else { screen };
    let text = match text_watched(rt, alloc, graph, plan, profile.log(), screen) {
        Ok(text) => text,
        Err(fault) => return Err(Fault::Run(fault)),
    };
    match write_text(out, &text) {
        Ok(()) => {
            let written = profile.write(rt, alloc, profiled(plan.config));
            status_of_profile(alloc, file, written, reason)
        }
        Err(_) => Err(Fault::Write),
    }
}

/// Returns the line that says why the file of a profile was not written. It is none if an allocation fails.
fn reason_of(alloc: Global, file: Option<&str>, error: io::Error) -> Option<String> {
    let file = file?;
    format!(in alloc; "reason: tp: {file}: {error}\n").ok()
}

/// Returns how a profile shows a run.
fn profiled(config: Config) -> Run {
    Run {
        nodes: config.nodes,
        workers: config.workers,
        has_tasks: true,
    }
}

/// Returns how the program ends after it has written its text, and then the profile or not, and sets the reason.
fn status_of_profile(
    alloc: Global,
    file: Option<&str>,
    written: io::Result<()>,
    reason: &mut Option<String>,
) -> Result<Status, Fault>
    ensures done { IfOk result (λ status. status ≡ Done) }
    ensures why { IfErr result (λ fault. fault ≡ Fault.Write) }
    ensures exact { MatchResult written (λ _. result ≡ Ok Done) (λ _. result ≡ Err Fault.Write) }
{
    match written {
        Ok(()) => Ok(Status::Done),
        Err(error) => {
            *reason = reason_of(alloc, file, error);
            Err(Fault::Write)
        }
    }
}

/// Runs a pool of a graph, and returns what is printed of it. Meanwhile the screen, if there is one, shows its progress;
/// without one, the tasks are timed if there is a log.
fn text_watched<R: Threads + Wait + Sync + Clock, W: Write + Send + Drop>(
    rt: &R,
    alloc: Global,
    graph: AnyGraph,
    plan: Plan,
    log: Option<&Log>,
    screen: Option<Screen<W>>,
) -> Result<Vec<u8>, RunFault>
    requires { IsPlan plan }
    ensures { MatchResult result (λ text. IsTextOf plan graph text.items) (IsWithoutText plan graph) }
{
    let Some(screen) = screen else {
        return text_of_run(rt, alloc, graph, plan, log, None);
    };
    let progress = Progress::new();
    let counts = &progress;
    watched(
        rt,
        alloc,
        screen,
        counts,
        move || -> Result<Vec<u8>, RunFault>
            requires { IsSync R.row × IsPlan plan }
            ensures { MatchResult result (λ text. IsTextOf plan graph text.items) (IsWithoutText plan graph) }
        { text_of_run(rt, alloc, graph, plan, None, Some(counts)) },
    )
}

/// Runs a pool of a graph, and returns what is printed of it. The tasks are timed if there is a log, and else counted if
/// there is a progress.
fn text_of_run<R: Threads + Wait + Sync + Clock>(
    rt: &R,
    alloc: Global,
    graph: AnyGraph,
    plan: Plan,
    log: Option<&Log>,
    progress: Option<&Progress>,
) -> Result<Vec<u8>, RunFault>
    requires { IsPlan plan }
    ensures { MatchResult result (λ text. IsTextOf plan graph text.items) (IsWithoutText plan graph) }
{
    let run = match run_by(rt, alloc, graph, plan, log, progress) {
        Ok(run) => run,
        Err(fault) => return Err(RunFault::Pool(fault)),
    };
    match text_of(alloc, graph, &run, plan) {
        Ok(text) => Ok(text),
        Err(refusal) => Err(RunFault::Text(refusal)),
    }
}

/// Runs a pool of a graph in all its generations. Whether tasks are timed or counted is not tested for each of them:
/// that would cost about twenty instructions a task.
fn run_by<R: Threads + Wait + Sync + Clock>(
    rt: &R,
    alloc: Global,
    graph: AnyGraph,
    plan: Plan,
    log: Option<&Log>,
    progress: Option<&Progress>,
) -> Result<Series, tp_work::Fault>
    requires { IsPlan plan }
    ensures run { IfOk result (IsRunBy plan graph) }
    ensures fault { IfErr result (IsSeriesFault plan.config.nodes (any_graph graph) plan.generations) }
{
    let Plan {
        config,
        generations,
        form: _,
    } = plan;
    match (log, progress) {
        (Some(log), _) => {
            let timed = Timed::new(graph, config.nodes, rt, log);
            run_generations(rt, alloc, timed, config, &OpenGate, generations)
        }
        (None, Some(progress)) => {
            progress.begin(rt, tp_work::Plan::of_tasks(bodies(graph, generations)));
            let counted = Counted::new(rt, graph, progress);
            run_generations(rt, alloc, counted, config, &OpenGate, generations)
        }
        (None, None) => run_generations(rt, alloc, graph, config, &OpenGate, generations),
    }
}

/// Returns how many bodies of tasks run in all generations.
fn bodies(graph: AnyGraph, generations: u32) -> u64 {
    u64::from(graph.tasks()).saturating_mul(u64::from(generations))
}
