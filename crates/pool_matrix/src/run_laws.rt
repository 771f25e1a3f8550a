//! How many events a finished run of a product took, as a law: a call whose postcondition is the theorem.
ghost use Rattle.pool_matrix.specs.Outcomes.{ProductRunLaw};

/// States that a run of a product took exactly the events that are counted beforehand, if each task got its inputs and
/// each feed to another node was a message.
#[tactic(auto, using(crate::proofs::Refused::product_law))]
pub fn product_run_is_counted()
    ensures { ProductRunLaw }
{}
