//! One tile of a product.
ghost use Rattle.std.specs.Prelude.{◌≡◌, ◌<◌, ◌≤◌, ◌+◌, ◌*◌, ◌^◌, ℕ, pos, true, slice_index_or, MatchResult, Some, None, ◌⊎◌};
ghost use Rattle.tp_base.specs.declared.Refusal.TheVariants.{BodyFailed, NoMemory};
ghost use Rattle.tp_graph.specs.Values.{all_fit, gather};
ghost use Rattle.pool_matrix.specs.Matrices.{tile_entry};

use crate::row::{LentMatrices, add_each};
use std::alloc::Global;
use tp_base::Refusal;

/// Returns the number at a position, or 0 if there is none.
pub(crate) fn number_at(numbers: &[i64], place: usize) -> i64
    ensures { result ≡ slice_index_or numbers.now place (pos 0) }
{
    if place < numbers.len() {
        numbers[place]
    } else {
        0
    }
}

/// Returns the initial tile: the numbers that it had before, or 0 if there are none.
fn begin_tile(alloc: Global, count: usize, before: &[i64]) -> Result<Vec<i64>, Refusal>
    requires { count < 2 ^ 30 }
    ensures { MatchResult result
        (λ made. gather count (λ e. Some (slice_index_or before.now e (pos 0))) ≡ Some made.items)
        (λ refusal. refusal ≡ NoMemory) }
{
    let mut made = Vec::with_capacity(alloc, count)?;
    for e in 0..count {
        made.push_reserved(number_at(before, e));
    }
    Ok(made)
}

/// Returns a tile of the product with the products of column k of tiles on the left and row k on the right added.
/// Refused with `BodyFailed` exactly if a number does not fit `i64`, and with `NoMemory` if an allocation fails first.
pub(crate) fn make_tile(
    alloc: Global,
    matrices: LentMatrices,
    side: usize,
    i: usize,
    j: usize,
    k: usize,
    before: &[i64],
) -> Result<Vec<i64>, Refusal>
    requires some { 1 ≤ side }
    requires places { (i * side + side ≤ matrices.order) × (j * side + side ≤ matrices.order) × (k * side + side ≤ matrices.order) }
    ensures { MatchResult result
        (λ made. (gather (side * side)
        (tile_entry matrices.entry.order side matrices.entry.left.now matrices.entry.right.now i j k before.now) ≡ Some made.items)
        × (all_fit made.items ≡ true))
        (λ refusal. (refusal ≡ NoMemory)
        ⊎ ((refusal ≡ BodyFailed)
        × (gather (side * side) (tile_entry matrices.entry.order side matrices.entry.left.now matrices.entry.right.now i j k before.now)
        ≡ None))) }
{
    let mut made = begin_tile(alloc, side * side, before)?;
    let tile = made.as_mut_slice();
    for row in 0..side {
        let sums = &mut tile[row * side..row * side + side];
        add_each(matrices, sums, i * side + row, j * side, k * side, side)?;
    }
    Ok(made)
}
