//! Gates between the threads of a pool: bodies and nodes that wait for each other, bodies that are barred, turns that are
//! refused or limited. Bodies run while no lock is held, and workers wait for a long one.

ghost use Rattle.pool_kernels.specs.Stirrings.{stir_rule};
ghost use Rattle.std.specs.Prelude.{◌≡◌, ◌≤◌};

use crate::ends::{TREE, refusal_of, stop_by, stop_of};
use crossbeam_utils::Backoff;
use pool_kernels::{FeedTable, Kernel, KernelGrid, Pattern, Stirring};
use pool_samples::Reduce;
use std::alloc::Global;
use std::sync::Wait;
use std::sync::atomic::{AtomicBool, AtomicU64, Ordering};
use std::test::Fail;
use std::thread::{self, Threads};
use std::time::Duration;
use tp_base::{NodeId, Refusal, TaskId};
use tp_cli::{Registry, run_pools};
use tp_graph::Value;
use tp_work::{Config, Gate, OpenGate};

/// How long a gate waits before it returns false.
const TURNS: u32 = 10_000_000;

/// One leaf, and so one task.
const LEAF: Reduce = Reduce { leaves: 1, seed: 0 };

/// A tree of two leaves at two nodes: one of them sends a message.
const PAIR: Reduce = Reduce { leaves: 2, seed: 0 };

/// A tree of 64 leaves, and so of 127 tasks.
const WIDE: Reduce = Reduce {
    leaves: 64,
    seed: 0,
};

/// What a gate allows.
#[derive(Drop)]
enum TestGate {
    /// The bodies of tasks 0 and 1 wait for each other.
    BodiesMeet(Meeting),
    /// Nodes 0 and 1 wait for each other while their locks are held.
    NodesMeet(Meeting),
    /// This many bodies wait for each other.
    BodiesGather(Turns),
    /// All bodies but one may run.
    AllBut(TaskId),
    /// A body waits for turns, and a turn is refused.
    Turns(Turns),
    /// Node 0 waits at its first turn for turns of node 1, and one of its turns is refused.
    Late(Turns, Turns),
    /// Counts the turns of another node than the one before, whose number is kept, and refuses one of them.
    Changes(Turns, AtomicU64),
}

impl Gate for TestGate {
    fn before(&self, task: TaskId) -> bool {
        match self {
            TestGate::BodiesMeet(meeting) => meeting.arrive(task.0),
            TestGate::BodiesGather(bodies) => bodies.take() && bodies.wait(),
            TestGate::AllBut(barred) => task != *barred,
            TestGate::Turns(turns) => turns.wait(),
            _ => true,
        }
    }

    fn inside(&self, node: NodeId) -> bool {
        match self {
            TestGate::NodesMeet(meeting) => meeting.arrive(node.0),
            TestGate::Turns(turns) => turns.take(),
            TestGate::Late(own, others) if node == NodeId(0) => {
                let is_first = own.taken.load(Ordering::SeqCst) == 0;
                own.take() && (!is_first || others.wait())
            }
            TestGate::Late(_, others) => others.take(),
            TestGate::Changes(changes, last) => {
                let node = u64::from(node.0);
                last.swap(node, Ordering::SeqCst) == node || changes.take()
            }
            _ => true,
        }
    }
}

/// A meeting of two threads that wait for each other.
#[derive(Drop)]
struct Meeting {
    zero: AtomicBool,
    one: AtomicBool,
}

impl Meeting {
    fn new() -> Self {
        Meeting {
            zero: AtomicBool::new(false),
            one: AtomicBool::new(false),
        }
    }

    /// Waits until the other one of 0 and 1 has arrived. Others pass.
    fn arrive(&self, who: u32) -> bool {
        let (mine, other) = match who {
            0 => (&self.zero, &self.one),
            1 => (&self.one, &self.zero),
            _ => return true,
        };
        mine.store(true, Ordering::SeqCst);
        let backoff = Backoff::new();
        for _ in 0..TURNS {
            if other.load(Ordering::SeqCst) {
                return true;
            }
            backoff.snooze();
        }
        false
    }
}

/// Counts the turns of a node, or bodies, from 0, and refuses one of them. A body waits until `awaited` were taken.
#[derive(Drop)]
struct Turns {
    taken: AtomicU64,
    awaited: u64,
    refused: u64,
}

impl Turns {
    fn new(awaited: u64, refused: u64) -> Self {
        Turns {
            taken: AtomicU64::new(0),
            awaited,
            refused,
        }
    }

    fn wait(&self) -> bool {
        let backoff = Backoff::new();
        for _ in 0..TURNS {
            if self.taken.load(Ordering::SeqCst) >= self.awaited {
                return true;
            }
            backoff.snooze();
        }
        false
    }

    fn take(&self) -> bool {
        self.taken.fetch_add(1, Ordering::SeqCst) != self.refused
    }
}

/// A configuration of one node with a limit of idle turns.
const fn one_node(workers: u32, idle_turns: u32) -> Config
    ensures nodes { result.nodes ≡ 1 }
    ensures workers { result.workers ≡ workers }
    ensures idle_turns { result.idle_turns ≡ idle_turns }
{
    Config {
        nodes: 1,
        workers,
        idle_turns,
    }
}

#[test]
fn two_bodies_run_at_once(rt: HostRuntime) {
    let gate = TestGate::BodiesMeet(Meeting::new());
    let refusal = refusal_of(&rt, rt.alloc(), TREE, Config::new(2, 1), &gate);
    assert_eq!(rt; refusal, None);
}

#[test]
fn two_nodes_are_held_at_once(rt: HostRuntime) {
    let gate = TestGate::NodesMeet(Meeting::new());
    let refusal = refusal_of(&rt, rt.alloc(), TREE, Config::new(2, 1), &gate);
    assert_eq!(rt; refusal, None);
}

// Eight of the 64 ready tasks begin at once, 0 and 1 among them: if one worker kept them all, it would wait in vain.
#[test]
fn two_that_begin_together_wait_for_each_other(rt: HostRuntime) {
    for config in [Config::new(1, 2), Config::new(1, 8)] {
        let gate = TestGate::BodiesMeet(Meeting::new());
        let refusal = refusal_of(&rt, rt.alloc(), WIDE, config, &gate);
        assert_eq!(rt; refusal, None, "{}", config.workers);
    }
}

// The first eight of the 64 ready tasks: with fewer threads that run bodies of the node, they would wait in vain.
#[test]
fn eight_bodies_of_a_node_wait_for_each_other(rt: HostRuntime) {
    let gate = TestGate::BodiesGather(Turns::new(8, u64::MAX));
    let refusal = refusal_of(&rt, rt.alloc(), WIDE, Config::new(1, 8), &gate);
    assert_eq!(rt; refusal, None);
}

// Node 1 has 32 leaves, and half of their sums go to node 0: when node 1 has taken 40 turns, these 16 messages wait.
// Then node 0 opens, receives a message in each of its next three turns, and its fourth is refused: the gate is asked
// before each message, however many a worker receives in one critical section of its node's lock.
#[test]
fn the_gate_is_asked_before_each_message(rt: HostRuntime) {
    let gate = TestGate::Late(Turns::new(0, 4), Turns::new(40, u64::MAX));
    let stop = stop_of(&rt, rt.alloc(), WIDE, Config::new(2, 1), &gate);
    let seen = match stop {
        Some((refusal, Some(left))) => Some((refusal, left.received, left.ended)),
        _ => None,
    };
    assert_eq!(rt; seen, Some((Refusal::Stalled(0), 3, false)));
}

// Of 31 events a wave's three are missing twice, and the end of the last task.
#[test]
fn a_body_that_may_not_run_ends_the_pool(rt: HostRuntime) {
    let gate = TestGate::AllBut(TaskId(6));
    let stop = stop_of(&rt, rt.alloc(), TREE, Config::new(1, 1), &gate);
    let refusal = Refusal::Stalled(0);
    assert_eq!(rt; stop, Some((refusal, Some(stop_by(refusal, 24, 1, 6)))));
}

// The other worker would take a thousand million idle turns before it ended by itself. `Stalled` (21) has the number of
// idle turns of the worker that stops it, which depends on the schedule.
#[test]
fn a_fault_stops_the_other_worker(rt: HostRuntime) {
    let gate = TestGate::AllBut(TaskId(0));
    let config = one_node(2, 1_000_000_000);
    let refusal = refusal_of(&rt, rt.alloc(), TREE, config, &gate);
    assert_eq!(rt; refusal.map(|refusal| refusal.number()), Some(21));
}

// Of two workers of a node one inserts the task, and one begins it and waits: two turns. The other's turns are then
// idle, until their limit is reached, or a gate refuses one.
#[test]
fn idle_turns_in_a_row_are_counted(rt: HostRuntime) {
    for (awaited, refused, idle_turns) in [(7, u64::MAX, 5), (8, 7, 1_000)] {
        let gate = TestGate::Turns(Turns::new(awaited, refused));
        let config = one_node(2, idle_turns);
        let refusal = refusal_of(&rt, rt.alloc(), LEAF, config, &gate);
        assert_eq!(rt; refusal, Some(Refusal::Stalled(5)), "{awaited}");
    }
}

// No contract says that a worker ever does something. The next two tests fail if it does not, and do not wait for it.
//
// The limit of idle turns is 1. The only worker of a pool of one node has no idle turn, however it is scheduled: nothing
// changes between its turns, and until the end a task is ready, or nothing is pending and a control step is enabled. A
// worker inserts up to 64 tasks in a turn. In the largest tree it takes two turns to insert the tasks, 127 to begin them,
// and fewer than 10 for control steps.
#[test]
fn a_lone_worker_has_no_idle_turn(rt: HostRuntime) {
    for tree in [LEAF, TREE, WIDE] {
        let gate = TestGate::Turns(Turns::new(0, 200));
        let refusal = refusal_of(&rt, rt.alloc(), tree, one_node(1, 1), &gate);
        assert_eq!(rt; refusal, None, "{}", tree.leaves);
    }
}

// Each node has one worker. Idle turns are not limited: a worker may take any number of them while the other one waits
// for a processor. But if turns have gone over to the other node six times, both workers have taken a whole turn with
// nothing going on in between, unless one of the turns did something; and if neither does anything then, they never
// will. Of turns that do something 2 insert tasks, 3 begin one, and 1 receives the message. The others are control
// steps, 6 in a wave. Each of those 6 turns is in at most 2 waves, and of the waves between them at most 3 follow one
// another, because the third ends the run. That is 51 waves, 312 turns that do something, and fewer than 2,000 changes.
#[test]
fn two_nodes_in_turn_receive_each_message(rt: HostRuntime) {
    let gate = TestGate::Changes(Turns::new(0, 2_000), AtomicU64::new(0));
    let refusal = refusal_of(&rt, rt.alloc(), PAIR, Config::new(2, 1), &gate);
    assert_eq!(rt; refusal, None);
}

/// For each pool of a registry, a tree of 7 tasks and a wavefront of 6, the number of its tasks, or that of its refusal.
/// (Which turns were idle before a refusal depends on the schedule.)
fn answers_behind<R: Threads + Wait + Sync>(
    rt: &R,
    alloc: Global,
    gate: &TestGate,
) -> Result<Vec<Result<u32, u8>>, Refusal> {
    let mut registry = Registry::new(alloc);
    registry.register("tree", "reduce:4:0")?;
    registry.register("wavefront", "wavefront:2:3:0")?;
    let ran = run_pools(rt, alloc, &mut registry, Config::new(2, 2), gate)?;
    let mut answers = Vec::new(alloc);
    for answer in &ran {
        answers.push(match answer {
            Ok(outcome) => Ok(outcome.tasks),
            Err(fault) => Err(fault.refusal.number()),
        })?;
    }
    Ok(answers)
}

// The wavefront has no task 6; `Stalled` is 21.
#[test]
fn the_fault_of_one_pool_stops_no_other(rt: HostRuntime) -> Result<(), Fail> {
    let answers = answers_behind(&rt, rt.alloc(), &TestGate::AllBut(TaskId(6)))?;
    assert_eq!(rt; answers.as_slice(), [Err(21), Ok(6)].as_slice());
    Ok(())
}

/// A kernel whose bodies do something else first.
#[derive(Clone, Copy)]
struct Slow<'a>(First<'a>);

/// What a body does before its own work.
#[derive(Clone, Copy)]
enum First<'a> {
    /// The bodies of tasks 0 and 1 wait for each other; if one waits in vain the flag is set.
    Meet(&'a Meeting, &'a AtomicBool),
    /// It sleeps for two seconds.
    Sleep(&'a HostRuntime),
}

impl<'a> Kernel for Slow<'a> {
    ghost rule = { λ _. stir_rule 0 };

    fn compute(
        &self,
        alloc: Global,
        row: u32,
        column: u32,
        inputs: &[Value],
    ) -> Result<Value, Refusal> {
        self.0.act(column);
        Stirring { iterations: 0 }.compute(alloc, row, column, inputs)
    }
}

impl<'a> First<'a> {
    fn act(&self, task: u32) {
        match self {
            First::Meet(meeting, have_missed) => {
                if !meeting.arrive(task) {
                    have_missed.store(true, Ordering::SeqCst);
                }
            }
            First::Sleep(clock) => thread::sleep(*clock, Duration::from_secs(2)),
        }
    }
}

/// Why a pool of two tasks, whose bodies wait for each other, ends early, if it does; and whether one waits in vain.
fn meet_behind<A: Gate, R: Threads + Wait + Sync>(
    rt: &R,
    alloc: Global,
    workers: u32,
    gate: &A,
) -> Result<(Option<Refusal>, bool), Fail>
    requires { (1 ≤ workers) × (workers ≤ 8) }
{
    let (meeting, have_missed) = (Meeting::new(), AtomicBool::new(false));
    let table = FeedTable::new(alloc, Pattern::Trivial, 2, 1)?;
    let grid = KernelGrid::new(&table, Slow(First::Meet(&meeting, &have_missed)));
    let refusal = refusal_of(rt, alloc, grid, Config::new(1, workers), gate);
    Ok((refusal, have_missed.load(Ordering::SeqCst)))
}

// A body that held its node's lock would keep the other worker from beginning the other task.
#[test]
fn two_bodies_of_a_node_run_under_no_lock(rt: HostRuntime) -> Result<(), Fail> {
    let met = meet_behind(&rt, rt.alloc(), 2, &OpenGate)?;
    assert_eq!(rt; met, (None, false));
    Ok(())
}

// The gate lets no body run: one that ran would wait in vain for the other one.
#[test]
fn a_barred_body_does_not_run(rt: HostRuntime) -> Result<(), Fail> {
    let gate = TestGate::BodiesGather(Turns::new(0, 0));
    let met = meet_behind(&rt, rt.alloc(), 1, &gate)?;
    assert_eq!(rt; met, (Some(Refusal::Stalled(0)), false));
    Ok(())
}

// Of one task. Seven workers are idle for two seconds; a worker that only yielded between two turns would reach the limit
// before.
#[test]
fn a_long_body_is_waited_for(rt: HostRuntime) -> Result<(), Fail> {
    let table = FeedTable::new(rt.alloc(), Pattern::Trivial, 1, 1)?;
    let grid = KernelGrid::new(&table, Slow(First::Sleep(&rt)));
    let refusal = refusal_of(&rt, rt.alloc(), grid, one_node(8, 10_000), &OpenGate);
    assert_eq!(rt; refusal, None);
    Ok(())
}
