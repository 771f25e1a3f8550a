//! The arithmetic of the three-point stencil.
ghost use Rattle.std.specs.Prelude.{◌≡◌, ◌≤◌, ◌<◌, ◌+◌, ◌^◌, ◌+ℤ◌, ℤ, pos, true, IfOk, unsigned_abs, length, drop};
ghost use Rattle.tp_graph.specs.Values.{fits, all_fit};
ghost use Rattle.pool_blocks.specs.Heats.{third, mixed, sweep, last_or, first_or};

use std::alloc::{AllocError, Global};

/// Returns a third of a number.
fn third(number: i64) -> i64
    ensures same { result ≡ third number }
    ensures small { unsigned_abs result ≤ 3074457345618258602 }
{
    number / 3
}

/// Returns the sum of two numbers.
fn plus(a: i64, b: i64) -> i64
    requires left { unsigned_abs a ≤ 6148914691236517204 }
    requires right { unsigned_abs b ≤ 3074457345618258602 }
    ensures same { result ≡ a +ℤ b }
    ensures small { unsigned_abs result ≤ unsigned_abs a + unsigned_abs b }
{
    a + b
}

/// Returns a cell after a step.
fn mixed(left: i64, own: i64, right: i64) -> i64
    ensures same { result ≡ mixed left own right }
    ensures small { unsigned_abs result < 2 ^ 63 }
{
    plus(plus(third(left), third(own)), third(right))
}

/// Returns the last of some cells, or 0 if there is none.
#[tactic(auto, using(crate::proofs::Sweeps::last_is))]
pub(crate) fn last_of(cells: &[i64]) -> i64
    ensures { result ≡ last_or (pos 0) cells.now }
{
    if cells.is_empty() {
        0
    } else {
        cells[cells.len() - 1]
    }
}

/// Returns the first of some cells, or 0 if there is none.
pub(crate) fn first_of(cells: &[i64]) -> i64
    ensures { result ≡ first_or (pos 0) cells.now }
{
    match cells.first() {
        Some(cell) => *cell,
        None => 0,
    }
}

/// Returns the cell at a position, or `end` if there is none.
#[tactic(auto, using(crate::proofs::Sweeps::first_behind, crate::proofs::Sweeps::first_past))]
fn cell_or(cells: &[i64], place: usize, end: i64) -> i64
    requires { place ≤ length cells.now }
    ensures same { result ≡ first_or end (drop place cells.now) }
    ensures fit { fits result ≡ true }
{
    if place < cells.len() {
        cells[place]
    } else {
        end
    }
}

/// Returns cells after a step, between a number on the left and one on the right.
pub(crate) fn sweep(
    alloc: Global,
    left: i64,
    own: &[i64],
    right: i64,
) -> Result<Vec<i64>, AllocError>
    ensures { IfOk result (λ made. (made.items ≡ sweep left own.now right) × (all_fit made.items ≡ true)) }
{
    let mut made = Vec::with_capacity(alloc, own.len())?;
    let mut before = left;
    for i in 0..own.len() {
        let cell = cell_or(own, i, 0);
        let after = cell_or(own, i + 1, right);
        made.push_reserved(mixed(before, cell, after));
        before = cell;
    }
    Ok(made)
}
