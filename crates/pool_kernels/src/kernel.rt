//! The trait of kernels, which say what a task of a grid computes.
ghost use Rattle.std.specs.Prelude.{◌≡◌, ◌<◌, ◌≤◌, ◌^◌, length, MatchResult, Some};
ghost use Rattle.tp_graph.specs.Values.{IsRefusal};
ghost use Rattle.pool_kernels.specs.Kernels.{Rule, computed};

use std::alloc::Global;
use tp_base::Refusal;
use tp_graph::Value;

/// A kernel: what a task of a grid computes. It may hold references to data of its caller.
pub trait Kernel: Copy + Send + Sync {
    ghost rule: { Self → Rule };

    /// Returns the value of the task of a row and a column, both counted from 0, from the values of the columns of the
    /// row before that feed it, in rising order of the columns. Refused with `BodyFailed` exactly if there is no value;
    /// refused with `NoMemory` if an allocation fails first.
    fn compute(
        &self,
        alloc: Global,
        row: u32,
        column: u32,
        inputs: &[Value],
    ) -> Result<Value, Refusal>
        requires sizes { (row < 2 ^ 20) × (column < 2 ^ 20) }
        requires few { length inputs.now ≤ 16 }
        ensures { MatchResult result
            (λ value. computed (rule self.now) row column inputs.now ≡ Some value)
            (IsRefusal (computed (rule self.now) row column inputs.now)) };
}
