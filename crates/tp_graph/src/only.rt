//! Graphs that are identified by a type, so that comparing them costs nothing.
ghost use Rattle.std.specs.Prelude.{◌≡◌, Option, Some, None, true, ⊤, refl};
ghost use Rattle.tp_graph.specs.Named.{one_named, same_name};

use crate::graph::{Comparable, Graph};
use crate::value::Value;
use std::alloc::{AllocError, Global};
use std::marker::{Brand, PhantomData};
use tp_base::{NodeId, Refusal, TaskId};

/// A type that names one value. The caller of a function that is generic over it chooses the value.
pub trait Named<T> {
    ghost it: { Option T };
}

impl<T> Named<T> for Brand {
    ghost it = { None };
}

/// The one graph that `D` names: any two are equal, and comparing them costs nothing. With it, a graph that borrows
/// data can be compared: equal cells at another address would be a different value.
pub struct Only<G: Graph, D: Named<G>> {
    graph: G,
    of: PhantomData<D>,
    ghost is: { D.it ≡ Some graph } by { same_name G.code D.it graph },
}

impl<G: Graph, D: Named<G>> Only<G, D> {
    /// Returns the graph that `D` names. It allocates nothing.
    pub fn new(graph: G) -> Self
        requires { D.it ≡ Some graph }
        ensures { result.graph ≡ graph }
    {
        Only {
            graph,
            of: PhantomData,
        }
    }
}

impl<G: Graph, D: Named<G>> Clone for Only<G, D> {
    ghost is_clone = { λ x y. y.graph ≡ x.graph };

    ghost is_infallible = { λ _. ⊤ };

    fn clone(&self) -> Result<Self, AllocError> {
        Ok(Only {
            graph: self.graph,
            of: PhantomData,
        })
    }
}

impl<G: Graph, D: Named<G>> Copy for Only<G, D> {}

impl<G: Graph, D: Named<G>> PartialEq for Only<G, D> {
    ghost eq = { λ a b. true };

    ghost laws = { record { symm = λ x y. refl; trans = λ x y z p q. refl } };

    #[inline]
    fn eq(&self, _other: &Self) -> bool {
        true
    }
}

impl<G: Graph, D: Named<G>> Eq for Only<G, D> {
    ghost laws = { record { refl = λ x. refl; symm = λ x y. refl; congr = λ x y z p. refl } };
}

impl<G: Graph, D: Named<G> + Send + Sync> Graph for Only<G, D> {
    ghost meaning = { λ o. G.meaning o.graph };

    ghost lawful = { λ o. G.lawful o.graph };

    #[inline]
    fn tasks(&self) -> u32 {
        self.graph.tasks()
    }

    #[inline]
    fn arity(&self, task: TaskId) -> u8 {
        self.graph.arity(task)
    }

    #[inline]
    fn class(&self, task: TaskId) -> u8 {
        self.graph.class(task)
    }

    #[inline]
    fn feeds(&self, task: TaskId) -> u32 {
        self.graph.feeds(task)
    }

    #[inline]
    fn feed(&self, task: TaskId, turn: u32) -> (TaskId, u8) {
        self.graph.feed(task, turn)
    }

    #[inline]
    fn home(&self, task: TaskId, nodes: u32) -> NodeId {
        self.graph.home(task, nodes)
    }

    #[inline]
    fn keeps(&self, task: TaskId) -> bool {
        self.graph.keeps(task)
    }

    #[inline]
    fn body(&self, alloc: Global, task: TaskId, inputs: &[Value]) -> Result<Value, Refusal> {
        self.graph.body(alloc, task, inputs)
    }
}

impl<G: Graph, D: Named<G> + Send + Sync> Comparable for Only<G, D> {
    ghost same = { λ a b h. let s = one_named a.is b.is in λ i. record { graph = (s i).0; of = record {}; is = (s i).1 } };
}
