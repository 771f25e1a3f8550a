//! A pool of a registry, and its state.
ghost use Rattle.std.specs.Prelude.{◌≡◌, string_bytes};
ghost use Rattle.tp_cli.specs.Registry.{is_waiting, registered, standing_after};

use pool_samples::AnyGraph;
use std::marker::Model;

/// The state of a pool.
#[derive(Clone, Copy, Debug, PartialEq, Eq)]
pub enum Standing {
    /// The pool can be run.
    Registered,
    /// The pool runs.
    Active,
    /// The pool has ended, and has its results.
    Over,
    /// The pool has ended with a fault.
    Failed,
}

impl Standing {
    /// Returns the state of a pool after a run with this result.
    pub(crate) fn after<T, E>(answer: &Result<T, E>) -> Self
        ensures { result ≡ standing_after answer.now }
    {
        match answer {
            Ok(_) => Standing::Over,
            Err(_) => Standing::Failed,
        }
    }
}

/// A pool of a registry: its name, the graph that it computes, and its state.
#[derive(Drop)]
pub struct PoolEntry {
    name: String,
    graph: AnyGraph,
    pub(crate) standing: Standing,
}

impl Model for PoolEntry {
    ghost use Rattle.std.specs.Prelude.{string_bytes};
    ghost use Rattle.tp_cli.specs.Registry.{Entered};

    ghost Value = { Entered };

    ghost view = { λ e. record { name = string_bytes e.name; graph = e.graph; standing = e.standing } };
}

impl PoolEntry {
    /// Returns a pool that was just registered. It allocates nothing.
    pub(crate) fn new(name: String, graph: AnyGraph) -> Self
        ensures { result ≡ registered (string_bytes name) graph }
    {
        PoolEntry {
            name,
            graph,
            standing: Standing::Registered,
        }
    }

    /// Returns the pool's name.
    pub fn name(&self) -> &str
        ensures { result.now ≡ self.now.name }
    {
        self.name.as_str()
    }

    /// Returns the graph that the pool computes.
    pub fn graph(&self) -> AnyGraph
        ensures { result ≡ self.now.graph }
    {
        self.graph
    }

    /// Returns the pool's state.
    pub fn standing(&self) -> Standing
        ensures { result ≡ self.now.standing }
    {
        self.standing
    }

    /// Returns whether the pool can be run.
    pub(crate) fn is_waiting(&self) -> bool
        ensures { result ≡ is_waiting self.now }
    {
        self.standing == Standing::Registered
    }
}
