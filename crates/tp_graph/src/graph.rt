//! The trait of task graphs, and graphs that can be compared.
ghost use Rattle.std.specs.Prelude.{◌≡◌, ◌<◌, ◌≤◌, ◌↔◌, ℕ, true, IsTrue, MatchResult, Some};
ghost use Rattle.tp_graph.specs.{Graphs.{TaskGraph, IsLawful}, Values.{outcome, AreInputs, IsRefusal}};

use crate::value::Value;
use std::alloc::Global;
use tp_base::{MAX_NODES, NodeId, Refusal, TaskId};

/// A task graph, which defines a pool. Its meaning is plain data, and its invariant `lawful` is a statement about that
/// data. It may hold references to data of its caller.
pub trait Graph: Copy + Send + Sync {
    ghost meaning: { Self → TaskGraph };

    /// Returns the number of tasks.
    fn tasks(&self) -> u32
        ensures { result ≡ (meaning self.now).tasks };

    /// Returns the number of inputs that a task waits for, at most 16.
    fn arity(&self, task: TaskId) -> u8
        requires { task.0 < (meaning self.now).tasks }
        ensures { result ≡ (meaning self.now).arity task.0 };

    /// Returns the class of a task, 0 to 3: the ready queue that it goes to. Queue 0 is served first.
    fn class(&self, task: TaskId) -> u8
        requires { task.0 < (meaning self.now).tasks }
        ensures { result ≡ (meaning self.now).class task.0 };

    /// Returns the number of feeds of a task; each feed passes its value on.
    fn feeds(&self, task: TaskId) -> u32
        requires { task.0 < (meaning self.now).tasks }
        ensures { result ≡ (meaning self.now).feeds task.0 };

    /// Returns where a feed goes: a task and one of its slots.
    fn feed(&self, task: TaskId, turn: u32) -> (TaskId, u8)
        requires known { task.0 < (meaning self.now).tasks }
        requires within { turn < (meaning self.now).feeds task.0 }
        ensures target { result.0.0 ≡ (meaning self.now).target task.0 turn }
        ensures slot { result.1 ≡ (meaning self.now).slot task.0 turn };

    /// Returns the node at which a task runs, out of 1 to 8 nodes.
    fn home(&self, task: TaskId, nodes: u32) -> NodeId
        requires known { task.0 < (meaning self.now).tasks }
        requires some { 1 ≤ nodes }
        requires few { nodes ≤ MAX_NODES }
        ensures { result.0 ≡ (meaning self.now).home task.0 nodes };

    /// Returns whether a run returns the task's value at its end. The numbers of any other value are freed once the
    /// last task that waits for them has run.
    fn keeps(&self, task: TaskId) -> bool
        requires { task.0 < (meaning self.now).tasks }
        ensures { result ≡ (meaning self.now).keeps task.0 };

    /// Returns the value that a task computes from its inputs, which are its producers' values in slot order. Refused
    /// with `BodyFailed` exactly if its rule fails or a number does not fit `i64`; refused with `NoMemory` if an
    /// allocation fails first.
    fn body(&self, alloc: Global, task: TaskId, inputs: &[Value]) -> Result<Value, Refusal>
        requires known { task.0 < (meaning self.now).tasks }
        requires right { AreInputs (meaning self.now) task.0 inputs.now }
        ensures { MatchResult result (λ value. outcome (meaning self.now) task.0 inputs.now
            ≡ Some value) (IsRefusal (outcome (meaning self.now) task.0 inputs.now)) };

    /// The graph keeps the invariant of task graphs.
    ghost lawful: { (graph : Self) → IsLawful (meaning graph) };
}

/// A graph that can be compared with another: equal graphs are the same value. A pool runs over an
/// [`Only`](crate::Only) of its graph, for which the comparison costs nothing, so the author of a pool does not
/// implement this trait.
pub trait Comparable: Graph + Eq {
    /// Equal graphs are the same value.
    ghost same: { (a b : Self) → Self.eq a b ≡ true → a ≡ b };
}

/// Returns whether two graphs are the same.
pub fn is_same<G: Comparable>(a: &G, b: &G) -> bool
    ensures { IsTrue result ↔ (a.now ≡ b.now) }
{
    *a == *b
}
