//! What a task computes: the kernel.
ghost use Rattle.prefix.specs.Prefixes.{prefix_rule};

use pool_kernels::{Kernel, number_at};
use std::alloc::Global;
use tp_base::Refusal;
use tp_graph::Value;

/// A task of row 0 has its column's number, which is borrowed. Any other adds its two inputs, or has its only one.
#[derive(Clone, Copy)]
pub(crate) struct Prefix<'a> {
    pub(crate) numbers: &'a [i64],
}

impl<'a> Kernel for Prefix<'a> {
    ghost rule = { λ p. prefix_rule p.numbers.now };

    fn compute(
        &self,
        alloc: Global,
        _row: u32,
        column: u32,
        inputs: &[Value],
    ) -> Result<Value, Refusal> {
        match inputs {
            [] => Ok(Value::one(alloc, number_at(self.numbers, column as usize))?),
            [own] => Ok(Value::of(alloc, own.as_slice())?),
            [left, own] => Value::sum(alloc, left.lone()?, own.lone()?),
            _ => Err(Refusal::BodyFailed),
        }
    }
}
