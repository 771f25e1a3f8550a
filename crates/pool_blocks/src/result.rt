//! The cells after the last step, from a pool's results or from one thread.
ghost use Rattle.std.specs.Prelude.{◌≡◌, IfOk, IfErr};
ghost use Rattle.tp_base.specs.declared.Refusal.TheVariants.{NoMemory};
ghost use Rattle.tp_graph.specs.Left.{AreKept};
ghost use Rattle.pool_blocks.specs.Stencils.{IsCellsRefusal, LacksBlock, after, block_graph};

use crate::joining::joined;
use crate::stencil::Stencil;
use crate::steps::Steps;
use std::alloc::Global;
use tp_base::{Refusal, TaskId};
use tp_graph::{Value, serial};

/// Returns the cells after the last step, from the results of the tasks. Refused with `Missing` if a block of the last
/// step has no result, and with `NoMemory` if an allocation fails first.
pub fn cells_of<S: Stencil>(
    alloc: Global,
    work: &Steps<S>,
    results: &[(TaskId, Value)],
) -> Result<Vec<i64>, Refusal>
    requires { AreKept (block_graph (S.next work.now.stencil) work.now.cells.now work.now.blocks work.now.size work.now.steps)
        results.now }
    ensures made { IfOk result (λ cells. cells.items ≡ after (S.step work.now.stencil) work.now.steps work.now.cells.now) }
    ensures whole { IfOk result (λ cells. LacksBlock work.now.blocks work.now.steps results.now → ⊥) }
    ensures refused { IfErr result (IsCellsRefusal work.now.blocks work.now.steps results.now) }
{
    let (blocks, steps) = (work.blocks(), work.steps());
    joined(alloc, results, steps * blocks, blocks)
}

/// Returns the cells after the last step, computed on one thread. Refused only with `NoMemory`: every cell fits 64
/// bits, so each task has a value.
pub fn cells_by_one<S: Stencil>(alloc: Global, work: Steps<S>) -> Result<Vec<i64>, Refusal>
    ensures made { IfOk result (λ cells. cells.items ≡ after (S.step work.entry.stencil) work.entry.steps work.entry.cells.now) }
    ensures refused { IfErr result (λ refusal. refusal ≡ NoMemory) }
{
    let results = match serial(alloc, work.copied()) {
        Ok(results) => results,
        Err(refusal) => {
            // No body fails, since every cell fits 64 bits. That the borrowed ones fit is known from reading them.
            work.read_cells();
            return Err(refusal);
        }
    };
    cells_of(alloc, &work, results.as_slice())
}
