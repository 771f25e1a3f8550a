//! The trait of stencils, with its laws.
ghost use Rattle.std.specs.Prelude.{◌≡◌, ℕ, Bool, true, IfOk};
ghost use Rattle.tp_graph.specs.Values.{all_fit};
ghost use Rattle.pool_blocks.specs.Stencils.{BlockStep, IsByBlocks, KeepsFit, KeepsLength, Step};

use std::alloc::{AllocError, Global};

/// A stencil: what cells become at a step. It is defined twice, for all cells and for a block with its neighbours, and
/// the two agree.
pub trait Stencil: Copy + Send + Sync {
    ghost step: { Self → Step };

    ghost next: { Self → BlockStep };

    ghost takes: { Self → ℕ → ℕ → Bool };

    /// Returns whether `cells` cells can be computed in blocks of `size`.
    fn takes(&self, cells: usize, size: u32) -> bool
        ensures { result ≡ takes self.now cells size };

    /// Returns a block after a step, from the block before it, itself and the block after it. A neighbour that does not
    /// exist has no cells.
    fn next(
        &self,
        alloc: Global,
        before: &[i64],
        own: &[i64],
        behind: &[i64],
    ) -> Result<Vec<i64>, AllocError>
        ensures { IfOk result (λ made. (made.items ≡ next self.now before.now own.now behind.now) × (all_fit made.items ≡ true)) };

    /// A step keeps the number of cells.
    ghost long: { (stencil : Self) → KeepsLength (step stencil) };

    /// A block of the cells after a step is what the block becomes.
    ghost by_blocks: { (stencil : Self) → IsByBlocks (takes stencil) (step stencil) (next stencil) };

    /// Every cell fits 64 bits.
    ghost fit: { (stencil : Self) → KeepsFit (next stencil) };
}
