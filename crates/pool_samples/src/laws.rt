//! A law of the sample pools: a call whose postcondition is the theorem.
ghost use Rattle.std.specs.Prelude.{◌<◌, ℕ, IsSome};
ghost use Rattle.tp_graph.specs.Values.{value_of};
ghost use Rattle.pool_samples.specs.Any.{any_graph};

use crate::any::AnyGraph;

/// States that each task of a sample pool has a value: no rule fails, and every number fits `i64`.
#[tactic(auto, using(crate::proofs::Keeping::each_valued))]
pub fn each_task_has_a_value(graph: AnyGraph)
    ensures { (t : ℕ) → t < (any_graph graph).tasks → IsSome (value_of (any_graph graph) t) }
{
    let _ = graph;
}
