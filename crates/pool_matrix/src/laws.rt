//! How many events a product takes, as a law: a call whose postcondition is the theorem.
ghost use Rattle.pool_matrix.specs.Events.{ProductEventsLaw, ProductStepsLaw};

/// States that the number of events of a product in tiles is the number counted on its graph. Any list of steps that
/// computes the graph has that number of steps of tasks and messages.
#[tactic(auto, using(crate::proofs::Refused::events_law, crate::proofs::Refused::steps_law))]
pub fn product_events_are_counted()
    ensures events { ProductEventsLaw }
    ensures steps { ProductStepsLaw }
{}
