//! The kernel of Task Bench's tasks, which is arithmetic on numbers below 2^31, and the checksum of a row.
ghost use Rattle.std.specs.Prelude.{◌≡◌, ◌<◌, ◌≤◌, MatchResult, Some, None, length};
ghost use Rattle.tp_base.specs.declared.Refusal.TheVariants.{BodyFailed};
ghost use Rattle.pool_kernels.specs.Stirrings.{checksum, made, number_of, stir, stir_rule, stirred, total_of};

use crate::kernel::Kernel;
use std::alloc::Global;
use tp_base::Refusal;
use tp_graph::Value;

/// The kernel of Task Bench's tasks: a task sums the numbers of its inputs, adds its column and 1, and stirs the sum
/// `iterations` times.
#[derive(Clone, Copy, Debug, PartialEq, Eq)]
pub struct Stirring {
    /// The number of iterations in each task.
    pub iterations: u64,
}

impl Kernel for Stirring {
    ghost rule = { λ s. stir_rule s.iterations };

    fn compute(
        &self,
        alloc: Global,
        _row: u32,
        column: u32,
        inputs: &[Value],
    ) -> Result<Value, Refusal> {
        let number = made(self.iterations, column, total_of(inputs)?);
        Ok(Value::one(alloc, number as i64)?)
    }
}

/// Returns the result of one iteration of the kernel.
pub(crate) fn stirred(x: u64) -> u64
    requires { x < 2147483648 }
    ensures same { result ≡ stirred x }
    ensures small { result < 2147483648 }
{
    (x * (2 * x + 1) + 1013904223) % 2147483648
}

/// Returns the result of `iterations` iterations.
#[tactic(auto, using(crate::proofs::Patterns::stir_more))]
fn stir(x: u64, iterations: u64) -> u64
    requires { x < 2147483648 }
    ensures same { result ≡ stir iterations x }
    ensures small { result < 2147483648 }
{
    let mut y = x;
    for _iteration in 0..iterations {
        y = stirred(y);
    }
    y
}

/// Returns what a column computes from the sum of its inputs.
fn made(iterations: u64, column: u32, total: u64) -> u64
    requires { total < 1099511627776 }
    ensures same { result ≡ made iterations column total }
    ensures small { result < 2147483648 }
{
    stir((total + u64::from(column) + 1) % 2147483648, iterations)
}

/// Returns the number of an input, which is below 2 ^ 31. Refused with `BodyFailed` if the input is no such number.
fn number_of(value: &Value) -> Result<u64, Refusal>
    ensures { MatchResult result
        (λ n. (number_of value.now ≡ Some n) × (n < 2147483648))
        (λ refusal. (refusal ≡ BodyFailed) × (number_of value.now ≡ None)) }
{
    let number = value.lone()?;
    if 0 <= number && number < 2147483648 {
        Ok(number as u64)
    } else {
        Err(Refusal::BodyFailed)
    }
}

/// Returns the sum of the numbers of some inputs. Refused with `BodyFailed` if one is no such number.
fn total_of(values: &[Value]) -> Result<u64, Refusal>
    requires { length values.now ≤ 16 }
    ensures { MatchResult result
        (λ n. (total_of values.now ≡ Some n) × (n < 1099511627776))
        (λ refusal. (refusal ≡ BodyFailed) × (total_of values.now ≡ None)) }
{
    let mut total = 0;
    for i in 0..values.len() {
        total += number_of(&values[i])?;
    }
    Ok(total)
}

/// Returns the checksum of a row of numbers that are 0 or more: their sum mod 2 ^ 31.
pub fn checksum(row: &[i64]) -> u64
    ensures same { result ≡ checksum row.now }
    ensures small { result < 2147483648 }
{
    let mut sum = 0;
    for number in row {
        sum = (sum + number.cast_unsigned() % 2147483648) % 2147483648;
    }
    sum
}
