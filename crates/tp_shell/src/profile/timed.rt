//! A graph whose bodies are timed while it runs.
ghost use Rattle.std.specs.Prelude.{◌≡◌, ⊤};

use super::log::Log;
use std::alloc::{AllocError, Global};
use std::rt::Clock;
use std::sync::Wait;
use tp_base::{MAX_NODES, NodeId, Refusal, TaskId};
use tp_graph::{Graph, Value};

/// A graph whose bodies are timed; it has the same meaning as the inner graph.
pub struct Timed<'a, T: Copy, R> {
    /// The graph.
    pub inner: T,
    /// The number of nodes of the run.
    nodes: u32,
    rt: &'a R,
    log: &'a Log,
}

impl<'a, T: Copy, R> Timed<'a, T, R> {
    /// Returns the graph with its bodies timed, for a run on this many nodes.
    pub fn new(inner: T, nodes: u32, rt: &'a R, log: &'a Log) -> Self
        ensures { result.inner ≡ inner }
    {
        Timed {
            inner,
            nodes,
            rt,
            log,
        }
    }
}

impl<'a, T: Copy, R> Clone for Timed<'a, T, R> {
    ghost is_clone = { λ x y. y.inner ≡ x.inner };

    ghost is_infallible = { λ _. ⊤ };

    fn clone(&self) -> Result<Self, AllocError> {
        Ok(Timed {
            inner: self.inner,
            nodes: self.nodes,
            rt: self.rt,
            log: self.log,
        })
    }
}

impl<'a, T: Copy, R> Copy for Timed<'a, T, R> {}

impl<'a, G: Graph, R: Clock + Wait + Sync> Graph for Timed<'a, G, R> {
    ghost meaning = { λ t. G.meaning t.inner };

    ghost lawful = { λ t. G.lawful t.inner };

    #[inline]
    fn tasks(&self) -> u32 {
        self.inner.tasks()
    }

    #[inline]
    fn arity(&self, task: TaskId) -> u8 {
        self.inner.arity(task)
    }

    #[inline]
    fn class(&self, task: TaskId) -> u8 {
        self.inner.class(task)
    }

    #[inline]
    fn feeds(&self, task: TaskId) -> u32 {
        self.inner.feeds(task)
    }

    #[inline]
    fn feed(&self, task: TaskId, turn: u32) -> (TaskId, u8) {
        self.inner.feed(task, turn)
    }

    #[inline]
    fn home(&self, task: TaskId, nodes: u32) -> NodeId {
        self.inner.home(task, nodes)
    }

    #[inline]
    fn keeps(&self, task: TaskId) -> bool {
        self.inner.keeps(task)
    }

    /// Runs the graph's own body, and then records its times.
    #[inline]
    fn body(&self, alloc: Global, task: TaskId, inputs: &[Value]) -> Result<Value, Refusal> {
        let begin = self.log.now(self.rt);
        let made = self.inner.body(alloc, task, inputs);
        let node = self.inner.home(task, self.nodes.clamp(1, MAX_NODES));
        self.log.record(self.rt, node.0, task.0, begin);
        made
    }
}
