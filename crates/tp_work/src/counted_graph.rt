//! A graph whose finished bodies are counted while it runs, for a progress line.
ghost use Rattle.std.specs.Prelude.{◌≡◌, ⊤};

use crate::progress::Progress;
use std::alloc::{AllocError, Global};
use std::sync::Wait;
use tp_base::{NodeId, Refusal, TaskId};
use tp_graph::{Graph, Value};

/// A graph whose finished bodies are counted; it has the same meaning as the inner graph. (The crate pool_blocks counts
/// stencils with it too.)
pub struct Counted<'a, T: Copy, R> {
    /// The graph.
    pub inner: T,
    /// The counter.
    progress: &'a Progress,
    rt: &'a R,
}

impl<'a, T: Copy, R> Counted<'a, T, R> {
    /// Returns the graph with its finished bodies counted.
    pub fn new(rt: &'a R, inner: T, progress: &'a Progress) -> Self
        ensures { result.inner ≡ inner }
    {
        Counted {
            inner,
            progress,
            rt,
        }
    }
}

impl<'a, T: Copy, R: Wait> Counted<'a, T, R> {
    /// Counts a task as done.
    #[inline]
    pub fn count(&self) {
        self.progress.count(self.rt);
    }
}

impl<'a, T: Copy, R> Clone for Counted<'a, T, R> {
    ghost is_clone = { λ x y. y.inner ≡ x.inner };

    ghost is_infallible = { λ _. ⊤ };

    fn clone(&self) -> Result<Self, AllocError> {
        Ok(Counted {
            inner: self.inner,
            progress: self.progress,
            rt: self.rt,
        })
    }
}

impl<'a, T: Copy, R> Copy for Counted<'a, T, R> {}

impl<'a, G: Graph, R: Wait + Sync> Graph for Counted<'a, G, R> {
    ghost meaning = { λ c. G.meaning c.inner };

    ghost lawful = { λ c. G.lawful c.inner };

    #[inline]
    fn tasks(&self) -> u32 {
        self.inner.tasks()
    }

    #[inline]
    fn arity(&self, task: TaskId) -> u8 {
        self.inner.arity(task)
    }

    #[inline]
    fn class(&self, task: TaskId) -> u8 {
        self.inner.class(task)
    }

    #[inline]
    fn feeds(&self, task: TaskId) -> u32 {
        self.inner.feeds(task)
    }

    #[inline]
    fn feed(&self, task: TaskId, turn: u32) -> (TaskId, u8) {
        self.inner.feed(task, turn)
    }

    #[inline]
    fn home(&self, task: TaskId, nodes: u32) -> NodeId {
        self.inner.home(task, nodes)
    }

    #[inline]
    fn keeps(&self, task: TaskId) -> bool {
        self.inner.keeps(task)
    }

    /// Runs the graph's own body, and then counts the task.
    #[inline]
    fn body(&self, alloc: Global, task: TaskId, inputs: &[Value]) -> Result<Value, Refusal> {
        let made = self.inner.body(alloc, task, inputs);
        self.count();
        made
    }
}
