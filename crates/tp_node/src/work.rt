//! Work, which is a begun task, and finished tasks. Contracts carry that each value is the one that the graph defines.
ghost use Rattle.std.specs.Prelude.{◌≡◌, ◌<◌, ◌≤◌, ◌↔◌, IsTrue, Some, IfOk, IfErr, MatchResult};
ghost use Rattle.tp_graph.specs.{Carried.IsFeed, Left.left_of, Values.{value_of, AreInputs, IsInput, IsRefusal}};
ghost use Rattle.tp_node.specs.Feeds.{HasFeed, next_feed_of, passed_on};

use smallvec::SmallVec;
use std::alloc::Global;
use std::default::MadeWith;
use std::marker::Model;
use tp_base::{Refusal, TaskId};
use tp_graph::{Feed, Graph, Value, feed_of, run_body};

/// A task that was begun, with its inputs, which are the values of its producers.
#[derive(Drop)]
pub struct Work<G: Graph> {
    graph: G,
    task: TaskId,
    inputs: SmallVec<Value, 4>,
}

impl<G: Graph> Model for Work<G> {
    ghost use Rattle.tp_graph.specs.Carried.{Begun, IsBegun};

    ghost Value = { Begun G };

    ghost view = { λ w. record { graph = w.graph; task = w.task; inputs = w.inputs.items } };

    ghost invariant = { λ w. IsBegun (G.meaning w.graph) w.task.0 w.inputs.items };
}

impl<G: Graph> Work<G> {
    /// Returns a begun task. Its inputs have to be its producers' values, in slot order. It allocates nothing.
    pub fn new(graph: G, task: TaskId, inputs: SmallVec<Value, 4>) -> Self
        requires known { task.0 < (G.meaning graph).tasks }
        requires right { AreInputs (G.meaning graph) task.0 inputs.items }
        ensures { result ≡ record { graph = graph; task = task; inputs = inputs.items } }
    {
        Work {
            graph,
            task,
            inputs,
        }
    }

    /// Returns the graph of the task.
    pub fn graph(&self) -> G
        ensures { result ≡ self.now.graph }
    {
        self.graph
    }

    /// Returns the task.
    pub fn task(&self) -> TaskId
        ensures same { result ≡ self.now.task }
        ensures known { result.0 < (G.meaning self.now.graph).tasks }
    {
        self.task
    }

    /// Returns the inputs, which are the values of the task's producers in slot order.
    pub fn inputs(&self) -> &[Value]
        ensures same { result.now ≡ self.now.inputs }
        ensures right { AreInputs (G.meaning self.now.graph) self.now.task.0 result.now }
    {
        self.inputs.as_slice()
    }

    /// Runs the body of the task and returns the finished task; the work stays. Refused with `BodyFailed` exactly if
    /// the task has no value, because its rule fails or a number does not fit `i64`; refused with `NoMemory` if an
    /// allocation fails first.
    #[inline(always)]
    pub fn run(&self, alloc: Global) -> Result<Finished<G>, Refusal>
        ensures done { IfOk result (λ finished. (finished.graph ≡ self.now.graph) × (finished.task ≡ self.now.task) × (finished.fed ≡ 0)) }
        ensures value { MatchResult result (λ finished. value_of (G.meaning self.now.graph) self.now.task.0
            ≡ Some finished.value) (IsRefusal (value_of (G.meaning self.now.graph) self.now.task.0)) }
    {
        let value = run_body(alloc, &self.graph, self.task, self.inputs.as_slice())?;
        Ok(Finished::new(self.graph, self.task, value))
    }

    /// Runs the body of the task, as [`Work::run`] does, and consumes the work. Refused with `BodyFailed` or `NoMemory`
    /// if that is; the work is then returned.
    pub fn perform(self, alloc: Global) -> Result<Finished<G>, (Refusal, Work<G>)>
        ensures done { IfOk result (λ finished. (finished.graph ≡ self.graph) × (finished.task ≡ self.task) × (finished.fed ≡ 0)) }
        ensures right { IfOk result (λ finished. value_of (G.meaning self.graph) self.task.0 ≡ Some finished.value) }
        ensures refused { IfErr result (λ refusal. IsRefusal (value_of (G.meaning self.graph) self.task.0) refusal.0) }
        ensures kept { IfErr result (λ refusal. refusal.1 ≡ self) }
    {
        match self.run(alloc) {
            Ok(finished) => Ok(finished),
            Err(refusal) => Err((refusal, self)),
        }
    }
}

/// A task that has run, with its value and the number of its feeds that were passed on. Only
/// [`Node::feed`](crate::Node::feed) and [`Node::send`](crate::Node::send) raise that number. It does not record its
/// generation: one that outlives its own is accepted for the task of a later one, once that runs. Its value is right
/// then too, but the feeds that it counts as passed on were passed on in the earlier generation, so tasks of the later
/// one may wait for them forever.
#[derive(Drop)]
pub struct Finished<G: Graph> {
    graph: G,
    task: TaskId,
    value: Value,
    fed: u32,
    // The number of feeds of the task, for which the graph is asked only once.
    feeds: u32,
}

impl<G: Graph> Model for Finished<G> {
    ghost use Rattle.std.specs.Prelude.{◌≡◌};
    ghost use Rattle.tp_graph.specs.Carried.{Ran, HasRun};

    ghost Value = { Ran G };

    ghost view = { λ f. record { graph = f.graph; task = f.task; value = f.value; fed = f.fed } };

    ghost invariant = { λ f. HasRun (G.meaning f.graph) f.task.0 f.value f.fed × (f.feeds ≡ (G.meaning f.graph).feeds f.task.0) };
}

impl<G: Graph> Finished<G> {
    /// Returns a task that has run, with its value and no feed passed on. It allocates nothing.
    pub fn new(graph: G, task: TaskId, value: Value) -> Self
        requires known { task.0 < (G.meaning graph).tasks }
        requires right { value_of (G.meaning graph) task.0 ≡ Some value }
        ensures { result ≡ record { graph = graph; task = task; value = value; fed = 0 } }
    {
        Finished {
            graph,
            task,
            value,
            fed: 0,
            feeds: graph.feeds(task),
        }
    }

    /// Returns the graph of the task.
    pub fn graph(&self) -> G
        ensures { result ≡ self.now.graph }
    {
        self.graph
    }

    /// Returns the task.
    pub fn task(&self) -> TaskId
        ensures same { result ≡ self.now.task }
        ensures known { result.0 < (G.meaning self.now.graph).tasks }
    {
        self.task
    }

    /// Returns the task's value, which is the one that the graph defines.
    pub fn value(&self) -> &Value
        ensures same { result.now ≡ self.now.value }
        ensures right { value_of (G.meaning self.now.graph) self.now.task.0 ≡ Some result.now }
    {
        &self.value
    }

    /// Returns the task's value, moved out, which is the one that the graph defines.
    pub fn into_value(self) -> Value
        ensures same { result ≡ self.value }
        ensures right { value_of (G.meaning self.graph) self.task.0 ≡ Some result }
    {
        self.value
    }

    /// Returns what is left of its value at the end of the pool: the value if the graph keeps it, and else no numbers.
    pub(crate) fn into_left(self, alloc: Global) -> Value
        ensures left { result ≡ left_of (G.meaning self.graph) self.task.0 self.value }
        ensures right { value_of (G.meaning self.graph) self.task.0 ≡ Some self.value }
    {
        if self.graph.keeps(self.task) {
            self.value
        } else {
            Value::made_with(alloc)
        }
    }

    /// Returns how many of its feeds were passed on.
    pub fn fed(&self) -> u32
        ensures same { result ≡ self.now.fed }
        ensures few { result ≤ (G.meaning self.now.graph).feeds self.now.task.0 }
    {
        self.fed
    }

    /// Returns whether all feeds were passed on.
    pub fn all_fed(&self) -> bool
        ensures all { IsTrue result ↔ (self.now.fed ≡ (G.meaning self.now.graph).feeds self.now.task.0) }
        ensures few { self.now.fed ≤ (G.meaning self.now.graph).feeds self.now.task.0 }
    {
        self.fed == self.feeds
    }

    /// Returns the next feed to pass on. There has to be one.
    pub fn next_feed(&self) -> Feed
        requires { HasFeed (G.meaning self.now.graph) self.now }
        ensures same { result ≡ next_feed_of (G.meaning self.now.graph) self.now }
        ensures right { IsFeed (G.meaning self.now.graph) result }
        ensures input { IsInput (G.meaning self.now.graph) result.target.0 result.slot self.now.value }
    {
        feed_of(&self.graph, self.task, self.fed)
    }

    /// Counts the next feed as passed on. Only the node calls it, as the last part of a call that passed the value on.
    pub(crate) fn pass_on(&mut self)
        requires { HasFeed (G.meaning self.old.graph) self.old }
        ensures { self.new ≡ passed_on self.old }
    {
        self.fed += 1;
    }
}
