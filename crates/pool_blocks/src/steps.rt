//! Steps of a stencil in blocks, as a graph.
ghost use Rattle.pool_blocks.specs.{StencilLaws.block_lawful, Stencils.{AreNoSteps, AreSteps, IsCut, befores, behinds, block_graph}};
ghost use Rattle.pool_blocks.specs.Stencils.{blocks_of};
ghost use Rattle.std.specs.Prelude.{◌≡◌, ◌<◌, ◌≤◌, ◌+◌, ◌-◌, ◌*◌, ◌^◌, ⊤, pos, true, length, slice_index_or, IfNone, IfSome};
ghost use Rattle.tp_graph.specs.{Blocks.block_of, Values.{all_fit, fits}};

use crate::inputs::{cells_at, cells_before};
use crate::stencil::Stencil;
use std::alloc::{AllocError, Global};
use tp_base::{NodeId, Refusal, TaskId};
use tp_graph::{Graph, Value};

/// Steps of a stencil over some cells in blocks, as a graph: a task is a block after a number of steps.
pub struct Steps<'a, S: Stencil> {
    stencil: S,
    cells: &'a [i64],
    blocks: u32,
    size: u32,
    steps: u32,
    ghost cut: { IsCut blocks size steps (length cells.now) },
    ghost taken: { S.takes stencil (length cells.now) size ≡ true },
}

impl<'a, S: Stencil> Steps<'a, S> {
    /// Returns `steps` steps of a stencil over borrowed cells in blocks of `size`. `None` if there is no cell, `size`
    /// is 0, the stencil does not take this number of cells in blocks of this size, or the number of tasks, one for
    /// each block after each step, would be 1,048,576 or more.
    pub fn new(stencil: S, cells: &'a [i64], size: u32, steps: u32) -> Option<Self>
        ensures made { IfSome result
            (λ work. (work.stencil ≡ stencil) × (work.cells.now ≡ cells.now) × (work.blocks ≡ blocks_of (length cells.now) size)
            × (work.size ≡ size) × (work.steps ≡ steps)) }
        ensures right { IfSome result (λ work. AreSteps (S.takes stencil) (length cells.now) size steps) }
        ensures refused { IfNone result (AreNoSteps (S.takes stencil) (length cells.now) size steps) }
    {
        if cells.is_empty() || size == 0 || !stencil.takes(cells.len(), size) {
            return None;
        }
        let blocks = (cells.len() - 1) / size as usize + 1;
        if blocks >= 1 << 20 || steps >= 1 << 20 {
            return None;
        }
        let blocks = blocks as u32;
        if (u64::from(steps) + 1) * u64::from(blocks) >= 1 << 20 {
            return None;
        }
        Some(Steps {
            stencil,
            cells,
            blocks,
            size,
            steps,
        })
    }

    /// Returns the same steps again, which have the same graph.
    pub fn copied(&self) -> Self
        ensures { block_graph (S.next result.stencil) result.cells.now result.blocks result.size result.steps
            ≡ block_graph (S.next self.now.stencil) self.now.cells.now self.now.blocks self.now.size self.now.steps }
    {
        Steps {
            stencil: self.stencil,
            cells: self.cells,
            blocks: self.blocks,
            size: self.size,
            steps: self.steps,
        }
    }

    /// Returns the number of blocks.
    pub(crate) fn blocks(&self) -> u32
        ensures same { result ≡ self.now.blocks }
        ensures few { (self.now.steps + 1) * result < 2 ^ 20 }
    {
        self.blocks
    }

    /// Returns the number of steps.
    pub(crate) fn steps(&self) -> u32
        ensures { result ≡ self.now.steps }
    {
        self.steps
    }

    /// Reads each cell, which shows that it fits 64 bits.
    pub(crate) fn read_cells(&self)
        ensures { all_fit self.now.cells.now ≡ true }
    {
        read_all(self.cells);
    }
}

impl<'a, S: Stencil> Clone for Steps<'a, S> {
    ghost is_clone = { λ work copy. (copy.stencil ≡ work.stencil) × (copy.cells.now ≡ work.cells.now)
        × (copy.blocks ≡ work.blocks) × (copy.size ≡ work.size) × (copy.steps ≡ work.steps) };

    ghost is_infallible = { λ _. ⊤ };

    fn clone(&self) -> Result<Self, AllocError> {
        Ok(Steps {
            stencil: self.stencil,
            cells: self.cells,
            blocks: self.blocks,
            size: self.size,
            steps: self.steps,
        })
    }
}

impl<'a, S: Stencil> Copy for Steps<'a, S> {}

/// Returns a block of some cells, which are cut into `blocks` blocks of `size` cells, except the last.
fn block_at(cells: &[i64], blocks: u32, size: u32, block: u32) -> &[i64]
    requires known { block < blocks }
    requires none_empty { (blocks - 1) * size < length cells.now }
    ensures { result.now ≡ block_of size block cells.now }
{
    let start = block as usize * size as usize;
    let (_, rest) = cells.split_at(start);
    let (block, _) = rest.split_at(rest.len().min(size as usize));
    block
}

/// Returns 1 if there is a block before a task's block, and else 0.
fn befores(blocks: u32, task: TaskId) -> u32
    requires { 1 ≤ blocks }
    ensures { result ≡ befores blocks task.0 }
{
    if 0 < task.0 % blocks { 1 } else { 0 }
}

/// Returns 1 if there is a block after a task's block, and else 0.
fn behinds(blocks: u32, task: TaskId) -> u32
    requires { 1 ≤ blocks }
    ensures { result ≡ behinds blocks task.0 }
{
    if task.0 % blocks + 1 < blocks { 1 } else { 0 }
}

/// Reads each cell, which shows that it fits 64 bits.
fn read_all(cells: &[i64])
    ensures { all_fit cells.now ≡ true }
{
    for i in 0..cells.len() {
        read(cells, i);
    }
}

/// Returns the cell at a position.
fn read(cells: &[i64], place: usize) -> i64
    requires { place < length cells.now }
    ensures same { result ≡ slice_index_or cells.now place (pos 0) }
    ensures fit { fits result ≡ true }
{
    cells[place]
}

#[tactic(auto, unfolding(crate::specs::Stencils::block_graph))]
impl<'a, S: Stencil> Graph for Steps<'a, S> {
    ghost meaning = { λ w. block_graph (S.next w.stencil) w.cells.now w.blocks w.size w.steps };

    ghost lawful = { λ w. block_lawful (S.next w.stencil) w.cells.now w.blocks w.size w.steps w.cut.some_blocks };

    fn tasks(&self) -> u32 {
        (self.steps + 1) * self.blocks
    }

    fn arity(&self, task: TaskId) -> u8 {
        if task.0 < self.blocks {
            0
        } else {
            (befores(self.blocks, task) + 1 + behinds(self.blocks, task)) as u8
        }
    }

    fn class(&self, _task: TaskId) -> u8 {
        0
    }

    fn feeds(&self, task: TaskId) -> u32 {
        if task.0 + self.blocks < (self.steps + 1) * self.blocks {
            befores(self.blocks, task) + 1 + behinds(self.blocks, task)
        } else {
            0
        }
    }

    fn feed(&self, task: TaskId, turn: u32) -> (TaskId, u8) {
        let target = TaskId(task.0 + self.blocks + turn - befores(self.blocks, task));
        let slot = befores(self.blocks, target) + befores(self.blocks, task) - turn;
        (target, slot as u8)
    }

    fn home(&self, task: TaskId, nodes: u32) -> NodeId {
        NodeId(task.0 % self.blocks * nodes / self.blocks)
    }

    /// Keeps the blocks after the last step.
    fn keeps(&self, task: TaskId) -> bool {
        self.steps * self.blocks <= task.0
    }

    fn body(&self, alloc: Global, task: TaskId, inputs: &[Value]) -> Result<Value, Refusal> {
        if task.0 < self.blocks {
            return Ok(Value::of(alloc, block_at(self.cells, self.blocks, self.size, task.0))?);
        }
        let slot = befores(self.blocks, task) as usize;
        let before = cells_before(inputs, slot);
        let own = cells_at(inputs, slot);
        let behind = cells_at(inputs, slot + 1);
        let made = self.stencil.next(alloc, before, own, behind)?;
        Ok(Value::from_vec(made)?)
    }
}
