//! The arithmetic of the five-point stencil.
ghost use Rattle.pool_blocks.specs.{Grids.{block_relaxed, cell_after, last_row, mixed}, Lists.list_of};
ghost use Rattle.std.specs.{Int.{int_div_euclid, w64}, Prelude.{◌≡◌, ◌≤◌, ◌<◌, ◌+◌, ◌-◌, ◌^◌, ◌+ℤ◌, ◌*ℤ◌, pos, true, IfOk, unsigned_abs}};
ghost use Rattle.std.specs.Prelude.{length, take, FitsSigned};
ghost use Rattle.tp_graph.specs.Values.{fits, all_fit};

use std::alloc::{AllocError, Global};

/// Returns a number with twice as many bits.
fn wide(number: i64) -> i128
    ensures same { result ≡ number }
    ensures small { unsigned_abs result ≤ 2 ^ 63 }
{
    i128::from(number)
}

/// Returns the sum of two numbers.
fn plus(a: i128, b: i128) -> i128
    requires { (unsigned_abs a ≤ 2 ^ 66) × (unsigned_abs b ≤ 2 ^ 66) }
    ensures same { result ≡ a +ℤ b }
    ensures small { unsigned_abs result ≤ unsigned_abs a + unsigned_abs b }
{
    a + b
}

/// Returns four times a number.
fn four_times(a: i128) -> i128
    requires { unsigned_abs a ≤ 2 ^ 63 }
    ensures same { result ≡ pos 4 *ℤ a }
    ensures small { unsigned_abs result ≤ 2 ^ 65 }
{
    4 * a
}

/// Returns an eighth of a number, rounded down.
fn eighth(a: i128) -> i64
    requires { FitsSigned w64 (int_div_euclid a (pos 8)) }
    ensures { result ≡ int_div_euclid a (pos 8) }
{
    a.div_euclid(8) as i64
}

/// Returns a cell after a step, from its neighbours and itself.
fn mixed(up: i64, left: i64, own: i64, right: i64, down: i64) -> i64
    ensures { result ≡ mixed up left own right down }
{
    let before = plus(plus(wide(up), wide(left)), four_times(wide(own)));
    let sum = plus(before, plus(wide(right), wide(down)));
    eighth(sum)
}

/// Returns the cell at a position of a grid of this width after a step: one on the edge stays.
fn cell_after(cells: &[i64], width: usize, place: usize) -> i64
    requires some { 1 ≤ width }
    requires within { place < length cells.now }
    ensures same { result ≡ cell_after width cells.now place }
    ensures fit { fits result ≡ true }
{
    if place >= width
        && width < cells.len() - place
        && place % width > 0
        && place % width + 1 < width
    {
        mixed(
            cells[place - width],
            cells[place - 1],
            cells[place],
            cells[place + 1],
            cells[place + width],
        )
    } else {
        cells[place]
    }
}

/// Returns the last row of some cells.
fn last_row(cells: &[i64], width: usize) -> &[i64]
    ensures { result.now ≡ last_row width cells.now }
{
    let (_, row) = cells.split_at(cells.len().saturating_sub(width));
    row
}

/// Returns the first row of some cells.
fn first_row(cells: &[i64], width: usize) -> &[i64]
    ensures { result.now ≡ take width cells.now }
{
    let (row, _) = cells.split_at(cells.len().min(width));
    row
}

/// Returns a block of rows of this width after a step, from the block above, itself and the block below.
pub(crate) fn sweep_block(
    alloc: Global,
    width: usize,
    above: &[i64],
    own: &[i64],
    below: &[i64],
) -> Result<Vec<i64>, AllocError>
    requires { 1 ≤ width }
    ensures { IfOk result (λ made. (made.items ≡ block_relaxed width above.now own.now below.now) × (all_fit made.items ≡ true)) }
{
    let above = last_row(above, width);
    let below = first_row(below, width);
    let mut window = Vec::with_capacity(alloc, above.len() + own.len() + below.len())?;
    window.extend_from_slice(above)?;
    window.extend_from_slice(own)?;
    window.extend_from_slice(below)?;
    sweep(alloc, window.as_slice(), width, above.len(), own.len())
}

/// Returns `count` cells of a grid after a step, from a position on.
fn sweep(
    alloc: Global,
    cells: &[i64],
    width: usize,
    first: usize,
    count: usize,
) -> Result<Vec<i64>, AllocError>
    requires some { 1 ≤ width }
    requires within { first + count ≤ length cells.now }
    ensures { IfOk result (λ made. (made.items ≡ list_of count (λ e. cell_after width cells.now (first + e)))
        × (all_fit made.items ≡ true)) }
{
    let mut made = Vec::with_capacity(alloc, count)?;
    for e in 0..count {
        made.push_reserved(cell_after(cells, width, first + e));
    }
    Ok(made)
}
