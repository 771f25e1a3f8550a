//! Running a product on threads.
ghost use Rattle.pool_blocks.specs.Runs.{HasRun};
ghost use Rattle.pool_matrix.specs.{Faults.IsProductFault, Matrices.{matrix_graph, product_of}};
ghost use Rattle.std.specs.Prelude.{◌≡◌, ◌/◌, MatchResult};
ghost use Rattle.tp_work.specs.Outcomes.{IsWithinLimits};

use crate::product::Product;
use crate::result::matrix_of;
use pool_blocks::LentFault;
use std::alloc::Global;
use std::sync::Wait;
use std::thread::Threads;
use tp_base::Refusal;
use tp_work::{Config, OpenGate, run_pool};

/// Returns the product of two matrices of `order` rows and columns, row by row, computed by a pool of threads in tiles
/// of `side` rows and columns.
///
/// Refused with `BadInput` if the lists give no such matrices ([`Product::new`]). Refused with `Run` and the fault of
/// [`run_pool`] if the pool was refused (`BodyFailed` if an intermediate number does not fit `i64`). Refused with
/// `Unmade` and the pool's outcome if the allocation of the product failed.
pub fn run_product<R: Threads + Wait + Sync>(
    rt: &R,
    alloc: Global,
    left: &[i64],
    right: &[i64],
    order: u32,
    side: u32,
    config: Config,
) -> Result<Vec<i64>, LentFault>
    requires { IsWithinLimits config }
    ensures { MatchResult result
        (λ made. (made.items ≡ product_of order left.now right.now)
        × HasRun config.nodes config.workers (matrix_graph left.now right.now (order / side) side))
        (IsProductFault config.nodes config.workers left.now right.now order side) }
{
    let Some(product) = Product::new(left, right, order, side) else {
        return Err(LentFault::BadInput);
    };
    match run_pool(rt, alloc, product, config, &OpenGate) {
        Ok(outcome) => match matrix_of(alloc, &product, &outcome.results) {
            Ok(made) => Ok(made),
            Err(refusal) => match refusal {
                Refusal::NoMemory => Err(LentFault::Unmade(outcome)),
                // In a pool that ended each task has a result, so no tile is missing.
                _ => unreachable!(),
            },
        },
        Err(fault) => Err(LentFault::Run(fault)),
    }
}
