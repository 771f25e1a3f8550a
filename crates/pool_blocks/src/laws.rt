//! How many events steps in blocks take, as a law: a call whose postcondition is the theorem.
ghost use Rattle.pool_blocks.specs.Events.{BlockEventsLaw, BlockMessagesLaw, BlockStepsLaw};

/// States that the messages and events of steps in blocks are the numbers counted on their graph. Any list of steps
/// that computes the graph has that number of steps of tasks and messages.
#[tactic(auto, using(crate::proofs::EventSums::messages_law, crate::proofs::EventSums::events_law, crate::proofs::EventSums::steps_law))]
pub fn block_events_are_counted()
    ensures messages { BlockMessagesLaw }
    ensures events { BlockEventsLaw }
    ensures steps { BlockStepsLaw }
{}
