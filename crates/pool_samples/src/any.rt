//! The three sample pools as one type.
use crate::product::Product;
use crate::reduce::Reduce;
use crate::wavefront::Wavefront;
use std::alloc::Global;
use tp_base::{NodeId, Refusal, TaskId};
use tp_graph::{Comparable, Graph, Value};

/// One of the three sample pools.
#[derive(Clone, Copy, Debug, PartialEq, Eq)]
pub enum AnyGraph {
    /// The product of two matrices.
    Product(Product),
    /// A table of cells.
    Wavefront(Wavefront),
    /// A tree of sums.
    Reduce(Reduce),
}

/// Returns what a method of the graph's pool returns.
macro_rules! of_pool {
    ($graph:expr, $method:ident($($argument:expr),*)) => {
        match $graph {
            AnyGraph::Product(product) => product.$method($($argument),*),
            AnyGraph::Wavefront(wavefront) => wavefront.$method($($argument),*),
            AnyGraph::Reduce(reduce) => reduce.$method($($argument),*),
        }
    };
}

impl Comparable for AnyGraph {
    ghost use Rattle.std.proofs.Common.{ap};
    ghost use Rattle.pool_samples.specs.declared.any.AnyGraph.TheVariants as pool;
    ghost use Rattle.pool_samples.specs.Same.{product_same, wavefront_same, reduce_same, both_same, three_same};

    ghost same = { elim [
      | pool.Product p ↦ elim [
        | pool.Product q ↦ λ e. ap pool.Product (product_same p q (three_same _ _ _ _ _ _ e))
        | pool.Wavefront q ↦ λ e. Prim.cc
        | pool.Reduce q ↦ λ e. Prim.cc
      ]
      | pool.Wavefront p ↦ elim [
        | pool.Product q ↦ λ e. Prim.cc
        | pool.Wavefront q ↦ λ e. ap pool.Wavefront (wavefront_same p q (three_same _ _ _ _ _ _ e))
        | pool.Reduce q ↦ λ e. Prim.cc
      ]
      | pool.Reduce p ↦ elim [
        | pool.Product q ↦ λ e. Prim.cc
        | pool.Wavefront q ↦ λ e. Prim.cc
        | pool.Reduce q ↦ λ e. ap pool.Reduce (reduce_same p q (both_same _ _ _ _ e))
      ]
    ] };
}

impl Graph for AnyGraph {
    ghost use Rattle.pool_samples.specs.Any.{any_graph, any_lawful};

    ghost meaning = { any_graph };

    ghost lawful = { any_lawful };

    fn tasks(&self) -> u32 {
        of_pool!(self, tasks())
    }

    fn arity(&self, task: TaskId) -> u8 {
        of_pool!(self, arity(task))
    }

    fn class(&self, task: TaskId) -> u8 {
        of_pool!(self, class(task))
    }

    fn feeds(&self, task: TaskId) -> u32 {
        of_pool!(self, feeds(task))
    }

    fn feed(&self, task: TaskId, turn: u32) -> (TaskId, u8) {
        of_pool!(self, feed(task, turn))
    }

    fn home(&self, task: TaskId, nodes: u32) -> NodeId {
        of_pool!(self, home(task, nodes))
    }

    fn keeps(&self, task: TaskId) -> bool {
        of_pool!(self, keeps(task))
    }

    fn body(&self, alloc: Global, task: TaskId, inputs: &[Value]) -> Result<Value, Refusal> {
        of_pool!(self, body(alloc, task, inputs))
    }
}
