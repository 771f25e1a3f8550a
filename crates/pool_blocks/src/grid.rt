//! The five-point stencil over a grid of whole numbers.
ghost use Rattle.std.specs.Prelude.{◌≡◌, ◌≤◌, ◌<◌, ◌*◌, ◌^◌, ◌⊎◌, IfNone, IfSome, length};
ghost use Rattle.pool_blocks.specs.Grids.{IsGrid, IsNoGrid, are_whole_rows, block_relaxed, blocks_of, relaxed};
ghost use Rattle.pool_blocks.specs.GridLaws.{relaxed-by-blocks, relaxed-fit, relaxed-long};

use crate::grid_mix::sweep_block;
use crate::{Stencil, Steps};
use std::alloc::{AllocError, Global};

/// The five-point stencil over a grid, row by row: a cell becomes an eighth of the sum of its four neighbours and four
/// times itself, rounded down. A cell on the edge stays.
#[derive(Clone, Copy)]
pub struct FivePoints {
    width: u32,
    ghost some: { 1 ≤ width },
}

impl Stencil for FivePoints {
    ghost step = { λ points. relaxed points.width };

    ghost next = { λ points. block_relaxed points.width };

    ghost takes = { λ points. are_whole_rows points.width };

    ghost long = { λ points. relaxed-long points.width };

    ghost by_blocks = { λ points. relaxed-by-blocks points.width points.some };

    ghost fit = { λ points. relaxed-fit points.width };

    fn takes(&self, cells: usize, size: u32) -> bool {
        cells % self.width as usize == 0 && size % self.width == 0
    }

    fn next(
        &self,
        alloc: Global,
        before: &[i64],
        own: &[i64],
        behind: &[i64],
    ) -> Result<Vec<i64>, AllocError> {
        sweep_block(alloc, self.width as usize, before, own, behind)
    }
}

/// A grid of cells, row by row, computed in blocks of rows: a task is a block after a number of steps.
pub type Grid<'a> = Steps<'a, FivePoints>;

/// The stencil over a grid with rows of a given width, and the number of cells of a block of a given number of rows.
#[derive(Clone, Copy)]
pub struct RowBlocks {
    pub points: FivePoints,
    pub size: u32,
}

/// Returns blocks of `rows` rows of `width` cells. `None` if either is 0, or a block has 2^32 cells or more.
pub fn row_blocks(width: u32, rows: u32) -> Option<RowBlocks>
    ensures made { IfSome result (λ blocks. (blocks.points.width ≡ width) × (blocks.size ≡ rows * width)) }
    ensures small { IfSome result (λ blocks. (1 ≤ width) × (rows * width < 2 ^ 32)) }
    ensures refused { IfNone result ((width ≡ 0) ⊎ (2 ^ 32 ≤ rows * width)) }
{
    let size = u64::from(rows) * u64::from(width);
    if width == 0 || size >= 1 << 32 {
        return None;
    }
    Some(RowBlocks {
        points: FivePoints { width },
        size: size as u32,
    })
}

/// Returns a grid of borrowed cells, in rows of `width` and blocks of `rows` rows, for `steps` steps. `None` if there
/// is no cell, `width` or `rows` is 0, the last row is not whole, a block has 2^32 cells or more, or the number of
/// tasks, one for each block after each step, would be 1,048,576 or more.
pub fn grid_in_blocks<'a>(cells: &'a [i64], width: u32, rows: u32, steps: u32) -> Option<Grid<'a>>
    ensures made { IfSome result
        (λ grid. (grid.cells.now ≡ cells.now) × (grid.blocks ≡ blocks_of (length cells.now) (rows * width))
        × (grid.stencil.width ≡ width) × (grid.size ≡ rows * width) × (grid.steps ≡ steps)) }
    ensures right { IfSome result (λ grid. IsGrid (length cells.now) width rows steps) }
    ensures refused { IfNone result (IsNoGrid (length cells.now) width rows steps) }
{
    let Some(blocks) = row_blocks(width, rows) else {
        return None;
    };
    Steps::new(blocks.points, cells, blocks.size, steps)
}
