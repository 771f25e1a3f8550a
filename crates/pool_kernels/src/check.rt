//! Checks that the tasks and feeds of a graph are in order. A plan has them without a proof that they are.
ghost use Rattle.pool_kernels.specs.Plans.{AreFed, AreFew, AreMarks, AreRight, IsConnected, IsFirstFeed, IsFirstPlace, IsGraphFault};
ghost use Rattle.pool_kernels.specs.Plans.{IsPlaced, IsReached, IsRight, IsSound};
ghost use Rattle.std.specs.Prelude.{◌≡◌, ◌<◌, ◌≤◌, ◌+◌, ◌*◌, ℕ, IfErr, OnOk};
ghost use Rattle.tp_base.specs.declared.limits.TheConstants.{MAX_INPUTS, MAX_NODES};
ghost use Rattle.tp_graph.specs.Graphs.{TaskGraph};

use crate::fault::GraphFault;
use std::alloc::Global;
use tp_base::{CLASSES, MAX_INPUTS, NodeId, TaskId};
use tp_graph::Graph;

/// What a graph says of its tasks and feeds. Unlike a [`Graph`] it need not be lawful, so a check of one means
/// something before its laws are proved.
pub trait Plan {
    ghost plan: { Self → TaskGraph };

    /// Returns the number of tasks.
    fn tasks(&self) -> u32
        ensures { result ≡ (plan self.now).tasks };

    /// Returns the number of inputs of a task.
    fn arity(&self, task: TaskId) -> u8
        requires { task.0 < (plan self.now).tasks }
        ensures { result ≡ (plan self.now).arity task.0 };

    /// Returns the class of a task.
    fn class(&self, task: TaskId) -> u8
        requires { task.0 < (plan self.now).tasks }
        ensures { result ≡ (plan self.now).class task.0 };

    /// Returns the number of feeds of a task.
    fn feeds(&self, task: TaskId) -> u32
        requires { task.0 < (plan self.now).tasks }
        ensures { result ≡ (plan self.now).feeds task.0 };

    /// Returns where a feed goes: a task and one of its slots.
    fn feed(&self, task: TaskId, turn: u32) -> (TaskId, u8)
        requires known { task.0 < (plan self.now).tasks }
        requires within { turn < (plan self.now).feeds task.0 }
        ensures target { result.0.0 ≡ (plan self.now).target task.0 turn }
        ensures slot { result.1 ≡ (plan self.now).slot task.0 turn };

    /// Returns the node at which a task runs.
    fn home(&self, task: TaskId, nodes: u32) -> NodeId
        requires known { task.0 < (plan self.now).tasks }
        requires nodes { (1 ≤ nodes) × (nodes ≤ MAX_NODES) }
        ensures { result.0 ≡ (plan self.now).home task.0 nodes };
}

/// The plan of a graph.
#[derive(Clone, Copy)]
pub struct PlanOf<'a, G: Graph>(pub &'a G);

impl<'a, G: Graph> Plan for PlanOf<'a, G> {
    ghost plan = { λ p. G.meaning p.0.now };

    fn tasks(&self) -> u32 {
        self.0.tasks()
    }

    fn arity(&self, task: TaskId) -> u8 {
        self.0.arity(task)
    }

    fn class(&self, task: TaskId) -> u8 {
        self.0.class(task)
    }

    fn feeds(&self, task: TaskId) -> u32 {
        self.0.feeds(task)
    }

    fn feed(&self, task: TaskId, turn: u32) -> (TaskId, u8) {
        self.0.feed(task, turn)
    }

    fn home(&self, task: TaskId, nodes: u32) -> NodeId {
        self.0.home(task, nodes)
    }
}

/// Checks the tasks and feeds of a graph at 1 to 8 nodes: each task has few inputs, a class and a home, each slot is
/// filled by one feed of a lower task, and no feed goes elsewhere. Returns what is wrong first: places of tasks before
/// slots and feeds, lower tasks before higher ones. Refused with `NoMemory` if the allocation of 16 marks a task fails.
pub fn check_graph<G: Graph>(alloc: Global, graph: &G, nodes: u32) -> Result<(), GraphFault>
    requires { (1 ≤ nodes) × (nodes ≤ MAX_NODES) }
    ensures sound { OnOk result (IsSound (G.meaning graph.now) nodes) }
    ensures refused { IfErr result (IsGraphFault (G.meaning graph.now) nodes) }
{
    check_plan(alloc, &PlanOf(graph), nodes)
}

/// Checks the tasks and feeds of a plan, as [`check_graph`] checks those of a graph.
pub fn check_plan<P: Plan>(alloc: Global, plan: &P, nodes: u32) -> Result<(), GraphFault>
    requires { (1 ≤ nodes) × (nodes ≤ MAX_NODES) }
    ensures sound { OnOk result (IsSound (P.plan plan.now) nodes) }
    ensures refused { IfErr result (IsGraphFault (P.plan plan.now) nodes) }
{
    let tasks = plan.tasks();
    for task in 0..tasks {
        check_place(plan, nodes, TaskId(task))?;
    }
    let mut marks = vec![in alloc; false; 16 * tasks as usize]?;
    let taken = marks.as_mut_slice();
    for task in 0..tasks {
        match check_task(plan, TaskId(task), taken) {
            Ok(()) => {}
            Err(fault) => return Err(fault),
        }
    }
    Ok(())
}

/// Checks the number of inputs, the class and the home of a task.
fn check_place<P: Plan>(plan: &P, nodes: u32, task: TaskId) -> Result<(), GraphFault>
    requires nodes { (1 ≤ nodes) × (nodes ≤ MAX_NODES) }
    requires known { task.0 < (P.plan plan.now).tasks }
    ensures placed { OnOk result (IsPlaced (P.plan plan.now) nodes task.0) }
    ensures refused { IfErr result (λ fault. IsFirstPlace (P.plan plan.now) nodes task.0
        → IsGraphFault (P.plan plan.now) nodes fault) }
{
    if plan.arity(task) > MAX_INPUTS {
        return Err(GraphFault::Inputs(task));
    }
    if plan.class(task) >= CLASSES {
        return Err(GraphFault::Class(task));
    }
    if plan.home(task, nodes).0 >= nodes {
        return Err(GraphFault::Home(task));
    }
    Ok(())
}

/// Checks the slots and the feeds of a task, after the feeds of all lower tasks were marked.
fn check_task<P: Plan>(plan: &P, task: TaskId, taken: &mut [bool]) -> Result<(), GraphFault>
    requires known { task.0 < (P.plan plan.now).tasks }
    requires few { AreFew (P.plan plan.now) }
    requires marks { AreMarks (P.plan plan.now) task.0 0 taken.old }
    ensures connected { OnOk result (IsConnected (P.plan plan.now) task.0) }
    ensures marks { OnOk result (AreMarks (P.plan plan.now) (task.0 + 1) 0 taken.new) }
    ensures refused { IfErr result (λ fault. (n : ℕ) → IsReached (P.plan plan.now) n task.0
        → IsGraphFault (P.plan plan.now) n fault) }
{
    match check_slots(plan, task, taken) {
        Ok(()) => match check_feeds(plan, task, taken) {
            Ok(()) => Ok(()),
            Err(fault) => Err(fault),
        },
        Err(fault) => Err(fault),
    }
}

/// Checks that each slot of a task is marked, after the feeds of all lower tasks were.
fn check_slots<P: Plan>(plan: &P, task: TaskId, taken: &[bool]) -> Result<(), GraphFault>
    requires known { task.0 < (P.plan plan.now).tasks }
    requires few { (P.plan plan.now).arity task.0 ≤ MAX_INPUTS }
    requires marks { AreMarks (P.plan plan.now) task.0 0 taken.now }
    ensures fed { OnOk result (AreFed (P.plan plan.now) task.0 ((P.plan plan.now).arity task.0)) }
    ensures refused { IfErr result (λ fault. (n : ℕ) → IsReached (P.plan plan.now) n task.0
        → IsGraphFault (P.plan plan.now) n fault) }
{
    for slot in 0..plan.arity(task) {
        if !taken[16 * task.0 as usize + slot as usize] {
            return Err(GraphFault::Empty(task, slot));
        }
    }
    Ok(())
}

/// Checks each feed of a task, and marks the slots that they fill.
fn check_feeds<P: Plan>(plan: &P, task: TaskId, taken: &mut [bool]) -> Result<(), GraphFault>
    requires known { task.0 < (P.plan plan.now).tasks }
    requires few { AreFew (P.plan plan.now) }
    requires marks { AreMarks (P.plan plan.now) task.0 0 taken.old }
    ensures right { OnOk result (AreRight (P.plan plan.now) task.0 ((P.plan plan.now).feeds task.0)) }
    ensures marks { OnOk result (AreMarks (P.plan plan.now) (task.0 + 1) 0 taken.new) }
    ensures refused { IfErr result (λ fault. (n : ℕ) → IsReached (P.plan plan.now) n task.0
        → AreFed (P.plan plan.now) task.0 ((P.plan plan.now).arity task.0) → IsGraphFault (P.plan plan.now) n fault) }
{
    for turn in 0..plan.feeds(task) {
        match check_feed(plan, task, turn, taken) {
            Ok(()) => {}
            Err(fault) => return Err(fault),
        }
    }
    Ok(())
}

/// Checks a feed of a task, and marks the slot that it fills.
fn check_feed<P: Plan>(
    plan: &P,
    task: TaskId,
    turn: u32,
    taken: &mut [bool],
) -> Result<(), GraphFault>
    requires known { task.0 < (P.plan plan.now).tasks }
    requires within { turn < (P.plan plan.now).feeds task.0 }
    requires few { AreFew (P.plan plan.now) }
    requires marks { AreMarks (P.plan plan.now) task.0 turn taken.old }
    ensures right { OnOk result (IsRight (P.plan plan.now) task.0 turn) }
    ensures marks { OnOk result (AreMarks (P.plan plan.now) task.0 (turn + 1) taken.new) }
    ensures refused { IfErr result (λ fault. (n : ℕ) → IsFirstFeed (P.plan plan.now) n task.0 turn
        → IsGraphFault (P.plan plan.now) n fault) }
{
    let (target, slot) = plan.feed(task, turn);
    if target.0 <= task.0 || target.0 >= plan.tasks() {
        return Err(GraphFault::Target(task, turn));
    }
    if slot >= plan.arity(target) {
        return Err(GraphFault::Slot(task, turn));
    }
    let place = 16 * target.0 as usize + slot as usize;
    if taken[place] {
        return Err(GraphFault::Taken(task, turn));
    }
    taken[place] = true;
    Ok(())
}
