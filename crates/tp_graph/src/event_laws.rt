//! How many events a run of a graph takes, as a law: a call without arguments whose postcondition is the theorem.
ghost use Rattle.tp_graph.specs.Events.{EventsLaw};

/// States that the number of steps of tasks and messages in a run of a graph is the number counted on the graph.
#[tactic(auto, using(crate::proofs::Counted::events_counted))]
pub fn steps_are_counted_on_the_graph()
    ensures { EventsLaw }
{}
