//! The runs over numbers: rod, product and grid. What each returns is, by contract, the plain result, computed by a
//! pool of the nodes and workers that were asked for.

ghost use Rattle.pool_blocks.specs.{Grids.{block_relaxed, relaxed}, Heats.{block_heated, heated}, Runs.{HasRun, HasRunInParts}};
ghost use Rattle.pool_blocks.specs.Stencils.{after};
ghost use Rattle.pool_matrix.specs.Matrices.{matrix_graph, product_of};
ghost use Rattle.std.specs.Prelude.{◌≡◌, ◌*◌, ◌/◌, IfOk};
ghost use Rattle.tp_work.specs.Outcomes.{IsWithinLimits};

use crate::fault::{Fault, InputFault};
use crate::watched::{Watch, run_in_parts_watched, run_pool_watched};
use pool_blocks::{ThreePoints, row_blocks};
use pool_matrix::{Product, matrix_of};
use std::alloc::Global;
use std::rt::Clock;
use std::sync::Wait;
use std::thread::Threads;
use tp_base::Refusal;
use tp_work::Config;

/// Returns the rod after `steps` steps, computed in blocks of `block` cells.
pub(crate) fn heat<R: Threads + Wait + Sync + Clock>(
    rt: &R,
    alloc: Global,
    cells: Vec<i64>,
    block: u32,
    steps: u64,
    config: Config,
    watch: Watch,
) -> Result<Vec<i64>, Fault>
    requires { IsWithinLimits config }
    ensures { IfOk result (λ rod. (rod.items ≡ after heated steps cells.items)
        × HasRunInParts config.nodes config.workers heated block_heated cells.items block steps) }
{
    let rod = run_in_parts_watched(rt, alloc, ThreePoints, cells, block, steps, config, watch)?;
    Ok(rod)
}

/// Returns the grid after `steps` steps, computed in blocks of `rows` rows.
pub(crate) fn relax<R: Threads + Wait + Sync + Clock>(
    rt: &R,
    alloc: Global,
    cells: Vec<i64>,
    width: u32,
    rows: u32,
    steps: u64,
    config: Config,
    watch: Watch,
) -> Result<Vec<i64>, Fault>
    requires { IsWithinLimits config }
    ensures { IfOk result (λ grid. (grid.items ≡ after (relaxed width) steps cells.items)
        × HasRunInParts config.nodes config.workers (relaxed width) (block_relaxed width) cells.items (rows * width) steps) }
{
    let Some(blocks) = row_blocks(width, rows) else {
        return Err(Fault::Input(InputFault::LargeBlocks));
    };
    let grid = run_in_parts_watched(
        rt,
        alloc,
        blocks.points,
        cells,
        blocks.size,
        steps,
        config,
        watch,
    )?;
    Ok(grid)
}

/// Returns the product of two matrices of `order` rows and columns, computed in tiles of `side`.
pub(crate) fn product<R: Threads + Wait + Sync + Clock>(
    rt: &R,
    alloc: Global,
    left: &[i64],
    right: &[i64],
    order: u32,
    side: u32,
    config: Config,
    watch: Watch,
) -> Result<Vec<i64>, Fault>
    requires { IsWithinLimits config }
    ensures { IfOk result (λ made. (made.items ≡ product_of order left.now right.now)
        × HasRun config.nodes config.workers (matrix_graph left.now right.now (order / side) side)) }
{
    let Some(product) = Product::new(left, right, order, side) else {
        return Err(Fault::Refused(Refusal::BadSpec));
    };
    let outcome = match run_pool_watched(rt, alloc, product, config, watch) {
        Ok(outcome) => outcome,
        Err(fault) => return Err(product_fault(fault.refusal)),
    };
    let made = matrix_of(alloc, &product, &outcome.results)?;
    Ok(made)
}

/// Returns the fault for the refusal of a product. One of its bodies fails only if a number does not fit 64 bits.
fn product_fault(refusal: Refusal) -> Fault {
    match refusal {
        Refusal::BodyFailed => Fault::Overflow,
        _ => Fault::from(refusal),
    }
}
