//! Runs and texts whose allocations fail, and that succeed when they are repeated.

ghost use Rattle.std.specs.Prelude.{◌≡◌, ◌≤◌};
ghost use Rattle.tp_wave.specs.{Generations.InEach, Machine.IsRun};
ghost use Rattle.tp_work.specs.Outcomes.{IsWithinLimits};

use crate::calls::say;
use crate::ends::TREE;
use crate::readers::Kind;
use std::alloc::Global;
use std::io::{self, Write};
use std::sync::Wait;
use std::test::Fail;
use std::thread::Threads;
use tp_base::{History, Refusal};
use tp_cli::{Registry, Standing, run_pools};
use tp_text::{TextFault, Verdict, print_trace};
use tp_work::{Config, OpenGate, run_generations, run_pool};

/// Whether the trace of a run was printed, or why there is no outcome.
type End = Result<bool, Refusal>;

#[tactic(auto, using(tp_text::proofs::Readings::Unique::Traces::Lines::run_in_each))]
fn run_tree<R: Threads + Wait + Sync + Eprint>(rt: &R, alloc: Global, config: Config) -> End
    requires { IsWithinLimits config }
{
    match run_pool(rt, alloc, TREE, config, &OpenGate) {
        Ok(outcome) => Ok(is_traced(rt, alloc, &outcome.history, config.nodes)),
        Err(fault) => Err(fault.refusal),
    }
}

/// Runs the tree in two generations.
#[tactic(auto, using(tp_wave::proofs::Generations::generations_law))]
fn run_series<R: Threads + Wait + Sync + Eprint>(rt: &R, alloc: Global, config: Config) -> End
    requires { IsWithinLimits config }
{
    match run_generations(rt, alloc, TREE, config, &OpenGate, 2) {
        Ok(series) => Ok(is_traced(rt, alloc, &series.history, config.nodes)),
        Err(fault) => Err(fault.refusal),
    }
}

/// Whether the trace of a history is printed, at the second try if an allocation failed.
fn is_traced<R: Eprint>(rt: &R, alloc: Global, history: &History, nodes: u32) -> bool
    requires nodes { (1 ≤ nodes) × (nodes ≤ 8) }
    requires run { InEach (IsRun nodes) history.now.events }
{
    match print_trace(alloc, history, nodes) {
        Err(Refusal::NoMemory) => {
            say(rt, "print_trace");
            print_trace(alloc, history, nodes).is_ok()
        }
        trace => trace.is_ok(),
    }
}

/// A run at some nodes with the same number of workers each, and another one if an allocation failed.
fn run_again<R: Threads + Wait + Sync + Eprint>(rt: &R, alloc: Global, nodes: u32) -> End
    requires { (1 ≤ nodes) × (nodes ≤ 8) }
{
    let config = Config::new(nodes, nodes);
    match run_tree(rt, alloc, config) {
        Err(Refusal::NoMemory) => {
            say(rt, "run_pool");
            run_tree(rt, alloc, config)
        }
        end => end,
    }
}

#[test]
fn a_run_at_one_node_is_refused_memory_and_runs_again(rt: HostRuntime) {
    assert_eq!(rt; run_again(&rt, rt.alloc(), 1), Ok(true));
}

#[test]
fn a_run_at_two_nodes_is_refused_memory_and_runs_again(rt: HostRuntime) {
    assert_eq!(rt; run_again(&rt, rt.alloc(), 2), Ok(true));
}

#[test]
fn a_series_is_refused_memory_and_runs_again(rt: HostRuntime) {
    let end = match run_series(&rt, rt.alloc(), Config::new(1, 1)) {
        Err(Refusal::NoMemory) => {
            say(&rt, "run_generations");
            run_series(&rt, rt.alloc(), Config::new(1, 1))
        }
        end => end,
    };
    assert_eq!(rt; end, Ok(true));
}

/// The number of tasks that the pool of a fresh registry has done, and its state then.
type Run = (Result<u32, Refusal>, Result<Standing, Refusal>);

/// Runs the pools of a fresh registry with one pool. If an allocation failed before, the pool's state is unchanged.
fn run_registered<R: Threads + Wait + Sync>(rt: &R, alloc: Global) -> Result<Run, Refusal> {
    let config = Config::new(1, 1);
    let mut registry = Registry::new(alloc);
    let pool = registry.register("tree", "reduce:4:0")?;
    match run_pools(rt, alloc, &mut registry, config, &OpenGate) {
        Ok(answers) => {
            let written = match answers.first() {
                Some(Ok(outcome)) => Ok(outcome.tasks),
                Some(Err(fault)) => Err(fault.refusal),
                None => Err(Refusal::Missing),
            };
            Ok((written, registry.state(pool)))
        }
        Err(refusal) if registry.state(pool) == Ok(Standing::Registered) => Err(refusal),
        Err(_) => Err(Refusal::Missing),
    }
}

#[test]
fn a_registry_is_refused_memory_and_runs_again(rt: HostRuntime) -> Result<(), Fail> {
    let run = match run_registered(&rt, rt.alloc()) {
        Err(Refusal::NoMemory) | Ok((Err(Refusal::NoMemory), Ok(Standing::Failed))) => {
            say(&rt, "run_pools");
            run_registered(&rt, rt.alloc())
        }
        run => run,
    };
    assert_eq!(rt; run?, (Ok(7), Ok(Standing::Over)));
    Ok(())
}

/// Counts what is written, and allocates nothing.
#[derive(Drop)]
struct Counting {
    bytes: usize,
}

impl Write for Counting {
    fn write(&mut self, buf: &[u8]) -> io::Result<usize> {
        self.bytes = self.bytes.saturating_add(buf.len());
        Ok(buf.len())
    }

    fn flush(&mut self) -> io::Result<()> {
        Ok(())
    }
}

/// A script and a trace of the same steps.
const SCRIPT: &[u8] =
    b"nodes 2\ninsert 0 1 1\nsupply 1\nbegin 1\ndone 1\nopen 0 4\nsend 0 1 3\nrecv 1 3\nend 1 3\n";

const TRACE: &[u8] =
    b"trace 1\nnodes 2\ninsert 0 1 1\nsupply 1\nbegin 1\ndone 1\nopen 0 4\nsend 0 1 3\nrecv 1 3\nend 1 3\n";

/// The verdict on a text, and the number of bytes written.
fn answer(alloc: Global, kind: Kind, text: &'static [u8]) -> (Result<Verdict, TextFault>, usize) {
    let (mut reader, mut writer) = (text, Counting { bytes: 0 });
    let verdict = kind.answer(alloc, &mut reader, &mut writer);
    (verdict, writer.bytes)
}

// Eight times `ok`, a line of 35 bytes for each node, the total of 42 and 9 for `quiet no`. Of the trace: steps 8, tasks 1
// done 1, messages 1 received 1, not ended.
#[test]
fn texts_are_refused_memory_and_answered_again(rt: HostRuntime) {
    for (name, kind, text, bytes) in [
        ("sim", Kind::Script, SCRIPT, 145),
        ("audit", Kind::Trace, TRACE, 55),
    ] {
        let mut written = answer(rt.alloc(), kind, text);
        if written == (Err(TextFault::Memory), 0) {
            say(&rt, name);
            written = answer(rt.alloc(), kind, text);
        }
        assert_eq!(rt; written, (Ok(Verdict::Sound), bytes), "{name}");
    }
}
