//! A value that is computed number by number, and doubles as numbers of 64 bits.
ghost use Rattle.std.specs.Prelude.{◌≡◌, ◌<◌, ℕ, ℤ, MatchResult, Some, true};
ghost use Rattle.tp_graph.specs.Values.{IsRefusal, fits, fitting};
ghost use Rattle.pool_blocks.specs.Lists.{at, list_of};
ghost use Rattle.pool_kernels.specs.{Doubles.double_in, Numbers.AreBy};

use std::alloc::Global;
use std::num::{f64_from_bits_with_nan, f64_to_bits_with_nan};
use tp_base::Refusal;
use tp_graph::{Value, ValueBuilder};

/// Returns the value of `count` numbers, each of them `number` of its position. Refused with `BodyFailed` exactly if
/// `number` returns `None` at a position, as it has to if the number does not fit `i64`; refused with `NoMemory` if an
/// allocation fails first.
pub fn value_by<F: Fn(usize) -> Option<i64>>(
    alloc: Global,
    count: usize,
    number: F,
) -> Result<Value, Refusal>
    requires { (i : ℕ) → i < count → F.pre number i }
    ensures { (f : ℕ → ℤ) → AreBy count (F.post number) f → MatchResult result
        (λ value. fitting (list_of count f) ≡ Some value) (IsRefusal (fitting (list_of count f))) }
{
    let mut made = ValueBuilder::with_capacity(alloc, count)?;
    for i in 0..count {
        let Some(x) = number(i) else {
            return Err(Refusal::BodyFailed);
        };
        made.push_reserved(x);
    }
    Ok(made.into_value()?)
}

/// Returns the number at a position, or 0 if there is none.
pub fn number_at(numbers: &[i64], place: usize) -> i64
    ensures same { result ≡ at numbers.now place }
    ensures fit { fits result ≡ true }
{
    if place < numbers.len() {
        numbers[place]
    } else {
        0
    }
}

/// Returns the 64 bits of a double as a number. Every NaN has the same.
pub fn bits_of(double: f64) -> i64
    ensures { double_in result ≡ double }
{
    f64_to_bits_with_nan(double).cast_signed()
}

/// Returns the double that has these 64 bits.
pub fn double_of(bits: i64) -> f64
    ensures { result ≡ double_in bits }
{
    f64_from_bits_with_nan(bits.cast_unsigned())
}
