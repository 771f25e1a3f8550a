//! Laws of values and results: calls whose postcondition is a theorem.
ghost use Rattle.std.specs.Prelude.{◌≡◌, ◌<◌, ◌↔◌, ℕ, ℤ, List};
ghost use Rattle.tp_graph.specs.{Graphs.KeepsAll, Left.{AreKept, AreResults}, Serial.{AreRight, Results}, Values.{value_of, outcome}};
ghost use Rattle.tp_graph.specs.Values.{AreInputs};

use crate::graph::Graph;

/// States that the value of a task is the result of its rule on its inputs, which are the values of its producers.
pub fn value_is_what_the_rule_makes<G: Graph>(graph: &G)
    ensures { (t : ℕ) (inputs : List (List ℤ)) → t < (G.meaning graph.now).tasks → AreInputs (G.meaning graph.now) t inputs
        → value_of (G.meaning graph.now) t ≡ outcome (G.meaning graph.now) t inputs }
{
    let _ = graph;
}

/// States that the results of a run are the values of the tasks, if the graph keeps all values.
pub fn all_results_are_values<G: Graph>(graph: &G)
    ensures { KeepsAll (G.meaning graph.now) → (results : Results)
        → (AreResults (G.meaning graph.now) results ↔ AreRight (G.meaning graph.now) results) }
{
    let _ = graph;
}

/// States that the results of a run contain the value of each task that the graph keeps.
pub fn results_have_what_is_kept<G: Graph>(graph: &G)
    ensures { (results : Results) → AreResults (G.meaning graph.now) results → AreKept (G.meaning graph.now) results }
{
    let _ = graph;
}
