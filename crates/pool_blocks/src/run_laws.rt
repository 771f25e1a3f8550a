//! How many events a finished run of steps took, as a law: a call whose postcondition is the theorem.
ghost use Rattle.pool_blocks.specs.Outcomes.{LeastEventsLaw, OutcomeLaw, RunEventsLaw};

/// States that an outcome takes at least 3 events for each task and 2 for each message. If each input but the first was
/// supplied, and each feed to another node was a message that was closed, its steps compute its graph; a run of steps
/// in blocks then took exactly the events that are counted beforehand.
#[tactic(auto, using(crate::proofs::Outcomes::outcome_law, crate::proofs::Outcomes::run_law))]
pub fn run_events_are_counted()
    ensures least { LeastEventsLaw }
    ensures works { OutcomeLaw }
    ensures exact { RunEventsLaw }
{}
