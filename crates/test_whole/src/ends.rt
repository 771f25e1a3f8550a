//! How pools end: the sample pools on worker threads, in one run and in a series; and why a pool ends early, with what is
//! left then. The contents of an outcome are proved, including that they are the results of one thread; that there is an
//! outcome is tested.

ghost use Rattle.std.specs.Prelude.{◌≡◌, ◌≤◌};
ghost use Rattle.tp_work.specs.Outcomes.{IsWithinLimits};

use pool_kernels::{FeedTable, KernelGrid, Pattern, Stirring};
use pool_matrix::Product;
use pool_samples::{AnyGraph, Reduce, checked};
use std::alloc::Global;
use std::sync::Wait;
use std::sync::atomic::{AtomicU64, Ordering};
use std::test::Fail;
use std::thread::Threads;
use tp_base::{NodeId, Refusal, TaskId};
use tp_graph::Graph;
use tp_work::{Config, Fault, Gate, OpenGate, run_generations, run_pool};

/// A tree of four leaves: 0, 11, 22 and 33. A generation of it at one node has seven bodies and 31 events.
pub(crate) const TREE: Reduce = Reduce { leaves: 4, seed: 0 };

/// Why a pool ended early, the task whose body failed, and what the report has: the number of events of all generations,
/// and of the present one the numbers of pending tasks and actions, of messages received and of tasks done, whether
/// its termination was detected, and the fault.
#[derive(Clone, Copy, Debug, PartialEq, Eq)]
pub(crate) struct Stop {
    pub(crate) refusal: Refusal,
    pub(crate) failed: Option<TaskId>,
    pub(crate) events: usize,
    pub(crate) pending: u32,
    pub(crate) received: u32,
    pub(crate) done: u32,
    pub(crate) ended: bool,
    pub(crate) fault: Option<Refusal>,
}

/// A stop with a refusal that is also the fault, and no message received.
pub(crate) const fn stop_by(refusal: Refusal, events: usize, pending: u32, done: u32) -> Stop {
    Stop {
        refusal,
        failed: None,
        events,
        pending,
        received: 0,
        done,
        ended: false,
        fault: Some(refusal),
    }
}

/// What is found of a fault, which has a report.
fn found_of(fault: &Fault) -> Option<Stop> {
    let report = fault.report.as_ref()?;
    Some(Stop {
        refusal: fault.refusal,
        failed: fault.failed,
        events: report.history.len(),
        pending: report.pending,
        received: report.received,
        done: report.done,
        ended: report.ended,
        fault: report.fault,
    })
}

/// Runs the pool of a graph behind a gate. Returns why it ended early, if it did, and what is found of that.
pub(crate) fn stop_of<G: Graph, A: Gate, R: Threads + Wait + Sync>(
    rt: &R,
    alloc: Global,
    graph: G,
    config: Config,
    gate: &A,
) -> Option<(Refusal, Option<Stop>)>
    requires { IsWithinLimits config }
{
    match run_pool(rt, alloc, graph, config, gate) {
        Ok(_) => None,
        Err(fault) => Some((fault.refusal, found_of(&fault))),
    }
}

/// Why the pool of a graph ended early, if it did.
pub(crate) fn refusal_of<G: Graph, A: Gate, R: Threads + Wait + Sync>(
    rt: &R,
    alloc: Global,
    graph: G,
    config: Config,
    gate: &A,
) -> Option<Refusal>
    requires { IsWithinLimits config }
{
    let (refusal, _) = stop_of(rt, alloc, graph, config, gate)?;
    Some(refusal)
}

/// The specification of each pool.
const POOLS: [&str; 6] = [
    "product:2:1:0",
    "product:6:2:7",
    "wavefront:2:3:0",
    "wavefront:7:9:3",
    "reduce:4:0",
    "reduce:32:5",
];

/// Why one of the runs on 1, 2, 4 and 8 nodes with 1, 2, 4 and 8 workers each has no outcome, if one has none.
fn fault_of<R: Threads + Wait + Sync>(rt: &R, alloc: Global, graph: AnyGraph) -> Option<Refusal> {
    for nodes in [1, 2, 4, 8] {
        for workers in [1, 2, 4, 8] {
            let fault = refusal_of(rt, alloc, graph, Config::new(nodes, workers), &OpenGate);
            if fault.is_some() {
                return fault;
            }
        }
    }
    None
}

#[test]
fn each_pool_is_the_plain_one(rt: HostRuntime) -> Result<(), Fail> {
    for word in POOLS {
        assert_eq!(rt; fault_of(&rt, rt.alloc(), checked(word)?), None, "{word}");
    }
    Ok(())
}

// Of nine generations at eight nodes with eight workers.
#[test]
fn each_of_nine_rounds_is_the_plain_one(rt: HostRuntime) -> Result<(), Fail> {
    for word in POOLS {
        let (alloc, graph) = (rt.alloc(), checked(word)?);
        let series = run_generations(&rt, alloc, graph, Config::new(8, 8), &OpenGate, 9);
        assert!(rt; series.is_ok(), "{word}");
    }
    Ok(())
}

/// What is found of the pool of a product of 3 rows and columns, a task for each product of two entries.
fn stop_of_product<R: Threads + Wait + Sync>(
    rt: &R,
    alloc: Global,
    left: &[i64; 9],
    right: &[i64; 9],
    config: Config,
) -> Option<Stop>
    requires { IsWithinLimits config }
{
    let product = Product::new(left, right, 3, 1)?;
    let (_, stop) = stop_of(rt, alloc, product, config, &OpenGate)?;
    stop
}

/// Whether the body of a task with k = 0 ended the pool before the end of its work.
fn is_left_by_a_body(stop: &Stop) -> bool {
    let has_failed = stop.failed.is_some_and(|task| task.0 % 3 == 0);
    has_failed && stop.refusal == Refusal::BodyFailed && stop.pending > 0 && !stop.ended
}

/// Whether the body that fails is named in two products with a configuration.
///
/// Task 9i + 3j + k multiplies entry (i, k) of the left matrix by entry (k, j) of the right one, and adds what the task
/// before it computed, if k is not 0. In the first product only task 5 multiplies two numbers that are not 0. In the
/// second each task with k = 0 fails, and no other begins.
fn are_named<R: Threads + Wait + Sync>(rt: &R, alloc: Global, config: Config) -> bool
    requires { IsWithinLimits config }
{
    let left = [0, 0, i64::MAX, 0, 0, 0, 0, 0, 0];
    let right = [0, 0, 0, 0, 0, 0, 0, 2, 0];
    let one = stop_of_product(rt, alloc, &left, &right, config);
    let some = stop_of_product(rt, alloc, &[i64::MAX; 9], &[2; 9], config);
    let named = one.and_then(|one| one.failed);
    named == Some(TaskId(5)) && some.is_some_and(|some| is_left_by_a_body(&some))
}

#[test]
fn the_task_whose_body_fails_is_named(rt: HostRuntime) {
    for nodes in [1, 2, 8] {
        for workers in [1, 8] {
            let are_named = are_named(&rt, rt.alloc(), Config::new(nodes, workers));
            assert!(rt; are_named, "{nodes} by {workers}");
        }
    }
}

/// A gate that counts bodies through all generations.
#[derive(Drop)]
struct Counting {
    bodies: AtomicU64,
    /// The body that may not run, counted from 0.
    barred: u64,
    /// No turn may be taken after this number of bodies.
    last: u64,
}

impl Gate for Counting {
    fn before(&self, _task: TaskId) -> bool {
        self.bodies.fetch_add(1, Ordering::SeqCst) != self.barred
    }

    fn inside(&self, _node: NodeId) -> bool {
        self.bodies.load(Ordering::SeqCst) != self.last
    }
}

/// What is found of a series of three generations at one node with one worker, so that the numbers are the same each
/// time. `None` if it ends well, or if its fault has no report.
fn stop_of_series<G: Graph, A: Gate, R: Threads + Wait + Sync>(
    rt: &R,
    alloc: Global,
    graph: G,
    gate: &A,
) -> Option<Stop> {
    match run_generations(rt, alloc, graph, Config::new(1, 1), gate, 3) {
        Ok(_) => None,
        Err(fault) => found_of(&fault),
    }
}

// One entry overflows. In the opening, one task is inserted.
#[test]
fn a_body_that_fails_ends_the_series(rt: HostRuntime) -> Result<(), Fail> {
    let Some(product) = Product::new(&[i64::MAX], &[2], 1, 1) else {
        return Err(Fail::new("there is no product"));
    };
    let wanted = Stop {
        failed: Some(TaskId(0)),
        ..stop_by(Refusal::BodyFailed, 3, 1, 0)
    };
    let stop = stop_of_series(&rt, rt.alloc(), product, &OpenGate);
    assert_eq!(rt; stop, Some(wanted));
    Ok(())
}

// The first generation has 31 events, and the reopening is one. In the second one four leaves are inserted, and the node
// is ready; two leaves begin and are done, with a feed each: 11 more. The two others are pending, and a sum. A body is
// refused after its task began, and a turn before.
#[test]
fn a_gate_is_asked_in_the_second_generation(rt: HostRuntime) {
    for (barred, last, events) in [(9, u64::MAX, 44), (u64::MAX, 9, 43)] {
        let gate = Counting {
            bodies: AtomicU64::new(0),
            barred,
            last,
        };
        let stop = stop_of_series(&rt, rt.alloc(), TREE, &gate);
        let wanted = stop_by(Refusal::Stalled(0), events, 3, 2);
        assert_eq!(rt; stop, Some(wanted), "{events}");
    }
}

// 65,536 tasks are inserted, and one more is refused.
#[test]
fn a_store_that_is_full_ends_the_series(rt: HostRuntime) -> Result<(), Fail> {
    let table = FeedTable::new(rt.alloc(), Pattern::Trivial, 65_537, 1)?;
    let grid = KernelGrid::new(&table, Stirring { iterations: 0 });
    let stop = stop_of_series(&rt, rt.alloc(), grid, &OpenGate);
    let wanted = stop_by(Refusal::StoreFull, 65_536, 65_537, 0);
    assert_eq!(rt; stop, Some(wanted));
    Ok(())
}
