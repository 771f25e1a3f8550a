//! The tasks of one node: those that wait for inputs, the ready ones, the running ones, and the results of the done
//! ones. Threads and other nodes are not here.
#![tactic(auto)]

mod index;
mod item;
mod life;
mod places;
mod room;
mod store;

pub use item::TaskItem;
pub use life::{Counts, Delivered, Life};
pub use store::{Begun, TaskStore};
