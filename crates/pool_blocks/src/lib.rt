//! Pools over cells that are borrowed from the caller and computed in blocks, step by step. They are generic over the
//! [`Stencil`], which says what a block becomes at a step, from itself and its neighbours. Two stencils are here: heat in
//! a rod ([`ThreePoints`]), and a grid of whole numbers ([`FivePoints`]).
#![tactic(auto)]

mod counted;
mod events;
mod fault;
mod grid;
mod grid_mix;
mod heat;
mod inputs;
mod joining;
mod laws;
mod parts;
mod result;
mod rod_mix;
mod run;
mod run_laws;
mod stencil;
mod steps;

pub use counted::run_in_parts_counted;
pub use events::steps_at_once;
pub use fault::LentFault;
pub use grid::{FivePoints, Grid, RowBlocks, grid_in_blocks, row_blocks};
pub use heat::{Heat, ThreePoints, heat_of};
pub use joining::joined;
pub use laws::block_events_are_counted;
pub use parts::run_in_parts;
pub use result::{cells_by_one, cells_of};
pub use run::run_steps;
pub use run_laws::run_events_are_counted;
pub use stencil::Stencil;
pub use steps::Steps;
