//! What the tasks of a grid compute, how many events a grid takes, and what a check of a graph means, as laws: calls whose
//! postconditions are theorems.
ghost use Rattle.pool_kernels.specs.{Events.{GridEventsLaw, GridStepsLaw, NoMessageLaw}, Kernels.CellLaw, Plans.LawfulIsSound};
ghost use Rattle.pool_kernels.specs.Plans.{SoundIsLawful};

/// States that the value of each task of a grid is what its kernel computes from the values of the columns that feed it.
#[tactic(auto, using(crate::proofs::Cells::cell_value))]
pub fn cells_are_values()
    ensures { CellLaw }
{}

/// States that the number of events of a grid is the number counted on its graph, which has no messages at one node.
/// Any list of steps that computes the graph has that number of steps of tasks and messages.
#[tactic(auto, using(crate::proofs::Events::events_law, crate::proofs::Events::no_message, crate::proofs::Events::steps_law))]
pub fn grid_events_are_counted()
    ensures events { GridEventsLaw }
    ensures one_node { NoMessageLaw }
    ensures steps { GridStepsLaw }
{}

/// States that a lawful graph is in order at 1 to 8 nodes. If a graph is in order at each of them, there are ways back
/// from its slots with which it is lawful.
#[tactic(auto, using(crate::proofs::Sound::lawful_sound, crate::proofs::Sound::sound_lawful))]
pub fn sound_graphs_are_lawful()
    ensures sound { LawfulIsSound }
    ensures lawful { SoundIsLawful }
{}
