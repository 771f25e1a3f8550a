//! The three-point stencil over a rod: heat conduction in whole numbers.
ghost use Rattle.std.specs.Prelude.{◌≡◌, true, IfNone, IfSome, length};
ghost use Rattle.pool_blocks.specs.Heats.{IsNoRod, IsRod, block_heated, blocks_of, heated};
ghost use Rattle.pool_blocks.specs.HeatLaws.{heated-long, heated-by-blocks, heated-fit};

use crate::rod_mix::{first_of, last_of, sweep};
use crate::{Stencil, Steps};
use std::alloc::{AllocError, Global};

/// The three-point stencil, heat in a rod: a cell becomes the sum of the thirds of itself and of its two neighbours.
/// Beyond both ends the value is 0.
#[derive(Clone, Copy)]
pub struct ThreePoints;

impl Stencil for ThreePoints {
    ghost step = { λ _. heated };

    ghost next = { λ _. block_heated };

    ghost takes = { λ _ count size. true };

    ghost long = { λ _. heated-long };

    ghost by_blocks = { λ _. heated-by-blocks };

    ghost fit = { λ _. heated-fit };

    fn takes(&self, _cells: usize, _size: u32) -> bool {
        true
    }

    fn next(
        &self,
        alloc: Global,
        before: &[i64],
        own: &[i64],
        behind: &[i64],
    ) -> Result<Vec<i64>, AllocError> {
        sweep(alloc, last_of(before), own, first_of(behind))
    }
}

/// A rod of cells, computed in blocks: a task is a block after a number of steps.
pub type Heat<'a> = Steps<'a, ThreePoints>;

/// Returns a rod of borrowed cells, in blocks of `size`, for `steps` steps. `None` if there is no cell, `size` is 0, or
/// the number of tasks, one for each block after each step, would be 1,048,576 or more.
pub fn heat_of<'a>(cells: &'a [i64], size: u32, steps: u32) -> Option<Heat<'a>>
    ensures made { IfSome result
        (λ heat. (heat.cells.now ≡ cells.now) × (heat.blocks ≡ blocks_of (length cells.now) size)
        × (heat.size ≡ size) × (heat.steps ≡ steps)) }
    ensures right { IfSome result (λ heat. IsRod (length cells.now) size steps) }
    ensures refused { IfNone result (IsNoRod (length cells.now) size steps) }
{
    Steps::new(ThreePoints, cells, size, steps)
}
