//! Blocks of slots, which are allocated one at a time and never move, and the table of their addresses.
ghost use Rattle.std.specs.{Prelude.{◌≡◌, ◌+◌, ◌<◌, ◌≤◌, ◌*◌, ℕ, List, [], ◌∷◌, ◌++◌, length, All, IsTrue, OnOk, OnErr, None}, Vec.vec_len};
ghost use Rattle.std.specs.Vec.{vec_capacity, Ownership.FitsInBlock};
ghost use Rattle.tp_slots.specs.{Blocks.{IsBlock, rows_of, pointers_in, HoldsFirst}, Cells.{empty_at, cell_at}, CellsOwnership.row_from};
ghost use Rattle.tp_slots.specs.contracts.chains.Slot.{the_row};
ghost use denote.RawPtr.{Ptr, InBlock};

use crate::{At, Cells, Deed, Slot, allocate, deallocate};
use std::alloc::{AllocError, Global};
use std_alloc::room::may_hold;

/// The number of slots in a block.
pub(crate) const BLOCK: usize = 256;

/// The most blocks.
pub(crate) const BLOCKS: usize = 256;

/// A block: its address, and the right to free it.
pub(crate) struct Block<T> {
    at: At<Slot<T>>,
    deed: Deed<Slot<T>, Global>,
}

// Whether a block of slots is small enough to allocate.
fn may_make_block<T>() -> bool
    ensures { IsTrue result → FitsInBlock (the_row T.row) BLOCK }
{
    may_hold::<Slot<T>>(BLOCK)
}

// Appends the addresses of a block's cells to the table.
fn list_cells<T>(table: &mut Vec<At<Slot<T>>>, at: At<Slot<T>>)
    requires room { vec_len table.old + BLOCK ≤ vec_capacity table.old }
    requires in_block { InBlock at.ptr }
    requires fits { FitsInBlock (the_row T.row) BLOCK }
    ensures { (row : List Ptr) → row_from (the_row T.row) at.ptr BLOCK ≡ empty_at row
        → pointers_in table.new.items ≡ pointers_in table.old.items ++ row }
{
    for index in 0..BLOCK {
        table.push_reserved(at.nth(index));
    }
}

// Allocates a block, whose cells come after the others.
pub(crate) fn add_block<T>(
    alloc: Global,
    blocks: &mut Vec<Block<T>>,
    table: &mut Vec<At<Slot<T>>>,
    cells: &mut Cells<Slot<T>>,
) -> Result<(), AllocError>
    ensures ok { OnOk result ((block : Block T) × IsBlock alloc block × (blocks.new.items ≡ blocks.old.items ++ block ∷ [])
        × (cells.new.cells ≡ cells.old.cells ++ empty_at block.deed.row)
        × (pointers_in table.new.items ≡ pointers_in table.old.items ++ block.deed.row)) }
    ensures cells { OnErr result (cells.new.cells ≡ cells.old.cells) }
    ensures blocks { OnErr result (blocks.new.items ≡ blocks.old.items) }
    ensures table { OnErr result (table.new.items ≡ table.old.items) }
{
    blocks.reserve(1)?;
    table.reserve(BLOCK)?;
    if !may_make_block::<T>() {
        return Err(AllocError);
    }
    let (at, more, deed) = allocate(&alloc, BLOCK)?;
    list_cells(table, at);
    cells.join(more);
    blocks.push_reserved(Block { at, deed });
    Ok(())
}

// Drops the values of the first `used` cells.
pub(crate) fn empty_cells<T: Drop>(table: &[At<Slot<T>>], cells: &mut Cells<Slot<T>>, used: usize)
    requires { (used ≤ length table.now) × HoldsFirst table.now cells.old.cells used }
    ensures { cells.new.cells ≡ empty_at (pointers_in table.now) }
{
    for place in 0..used {
        let at = table[place];
        drop(cells.read(at, place));
    }
}

// Frees every block.
pub(crate) fn free_blocks<T>(alloc: Global, mut blocks: Vec<Block<T>>, mut cells: Cells<Slot<T>>)
    requires blocks { All (IsBlock alloc) blocks.items }
    requires most { length blocks.items ≤ BLOCKS }
    requires cells { cells.cells ≡ empty_at (rows_of blocks.items) }
{
    while let Some(block) = blocks.pop() {
        let last = cells.split_off(blocks.len() * BLOCK);
        let Block { at, deed } = block;
        deallocate(&alloc, at, BLOCK, last, deed);
    }
    blocks.destroy_empty();
    cells.end();
}
