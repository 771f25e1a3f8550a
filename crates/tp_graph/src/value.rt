//! Values of tasks: short lists of 64-bit numbers that are shared, not copied.
ghost use Rattle.std.specs.Cmp.{int_eq_equiv, on_equiv, on_per, partial_equiv_from_equiv, Lexicographic.{pointwise, lists_equiv}};
ghost use Rattle.std.specs.{Ordering.int_eq, Prelude.{◌≡◌, ◌<◌, ◌≤◌, ◌+ℤ◌, [], ◌∷◌, true, false, length, Some, None, IsOk, OnErr, IfOk}};
ghost use Rattle.std.specs.Prelude.{IfErr, MatchResult};
ghost use Rattle.tp_base.specs.declared.Refusal.TheVariants.{BodyFailed};
ghost use Rattle.tp_graph.specs.Values.{all_fit, fits, lone_of};

use crate::builder::ValueBuilder;
use crate::numbers::Numbers;
use std::alloc::{AllocError, AllocFailed, Global};
use std::default::MadeWith;
use std::fmt::{self, Debug, Formatter, Write};
use std::marker::Model;
use std::slice;
use std::sync::Arc;
use tp_base::Refusal;

/// The value of a task: a list of numbers, which contracts see. All copies of a value share its numbers, so a copy
/// allocates nothing and takes the same time for any count.
#[derive(Drop)]
pub struct Value {
    numbers: Numbers,
}

impl Model for Value {
    ghost use Rattle.std.specs.Prelude.{List, ℤ};
    ghost use Rattle.tp_graph.specs.Numbers.{SharesMany, listed};

    ghost Value = { List ℤ };

    ghost view = { λ v. listed v.numbers };

    ghost invariant = { λ v. SharesMany v.numbers };
}

impl Value {
    /// Returns the value with one number. It allocates nothing.
    pub fn one(_alloc: Global, number: i64) -> Result<Self, AllocError>
        ensures value { IfOk result (λ value. value ≡ number ∷ []) }
        ensures made { IsOk result }
    {
        Ok(Value {
            numbers: Numbers::Lone(number),
        })
    }

    /// Returns the value with one number, the sum of two. It allocates nothing. Refused with `BodyFailed` if the sum
    /// does not fit `i64`.
    pub fn sum(alloc: Global, a: i64, b: i64) -> Result<Self, Refusal>
        ensures { MatchResult result (λ value. (value ≡ (a +ℤ b) ∷ []) × (fits (a +ℤ b) ≡ true)) (λ refusal. (refusal ≡ BodyFailed)
            × (fits (a +ℤ b) ≡ false)) }
    {
        match a.checked_add(b) {
            Some(sum) => Ok(Value::one(alloc, sum)?),
            None => Err(Refusal::BodyFailed),
        }
    }

    /// Returns the value of the numbers of a list, which is moved into it. Refused if there are two or more numbers and
    /// the allocation of their reference count fails; the list is then returned in the error.
    pub fn from_vec(numbers: Vec<i64>) -> Result<Self, AllocFailed<Vec<i64>>>
        ensures value { IfOk result (λ value. value ≡ numbers.items) }
        ensures returned { IfErr result (λ failed. failed.value ≡ numbers) }
        ensures no_growth { OnErr result (1 < length numbers.items) }
    {
        let numbers = match numbers.as_slice() {
            [] => Numbers::Empty,
            [number] => Numbers::Lone(*number),
            _ => Numbers::Shared(Arc::new(*numbers.allocator(), numbers)?),
        };
        Ok(Value { numbers })
    }

    /// Returns the value of the numbers of a list, which are copied. Refused if there are two or more numbers and the
    /// allocation fails.
    pub fn of(alloc: Global, numbers: &[i64]) -> Result<Self, AllocError>
        ensures value { IfOk result (λ value. value ≡ numbers.now) }
        ensures fit { IfOk result (λ value. all_fit value ≡ true) }
        ensures no_growth { OnErr result (1 < length numbers.now) }
    {
        match numbers {
            [] => Ok(Value {
                numbers: Numbers::Empty,
            }),
            [number] => Value::one(alloc, *number),
            _ => {
                let mut builder = ValueBuilder::with_capacity(alloc, numbers.len())?;
                builder.extend_from_slice(numbers)?;
                Ok(builder.into_value()?)
            }
        }
    }

    /// Returns the number of a value that has exactly one. Refused with `BodyFailed` if it has another count of
    /// numbers.
    pub fn lone(&self) -> Result<i64, Refusal>
        ensures { MatchResult result (λ number. lone_of self.now ≡ Some number) (λ refusal. (refusal ≡ BodyFailed)
            × (lone_of self.now ≡ None)) }
    {
        match self.as_slice() {
            [number] => Ok(*number),
            _ => Err(Refusal::BodyFailed),
        }
    }

    /// Returns the numbers.
    pub fn as_slice(&self) -> &[i64]
        ensures { result.now ≡ self.now }
    {
        match &self.numbers {
            Numbers::Empty => &[],
            Numbers::Lone(number) => slice::from_ref(number),
            Numbers::Shared(numbers) => numbers.as_slice(),
        }
    }
}

impl Debug for Value {
    fn fmt<W: Write>(&self, f: &mut Formatter<W>) -> fmt::Result {
        Debug::fmt(self.as_slice(), f)
    }
}

/// A clone allocates nothing. It is refused only if the value has two or more numbers and their reference count is at
/// its maximum.
impl Clone for Value {
    ghost is_clone = { λ value copy. copy ≡ value };

    ghost is_infallible = { λ value. length value ≤ 1 };

    fn clone(&self) -> Result<Self, AllocError> {
        let numbers = match &self.numbers {
            Numbers::Empty => Numbers::Empty,
            Numbers::Lone(number) => Numbers::Lone(*number),
            Numbers::Shared(numbers) => Numbers::Shared(Arc::try_clone(numbers)?),
        };
        Ok(Value { numbers })
    }
}

/// Returns the value without numbers, which a free place of a `SmallVec` holds. It allocates nothing.
impl MadeWith<Global> for Value {
    ghost is_made_with = { λ value. value ≡ [] };

    fn made_with(_alloc: Global) -> Self {
        Value {
            numbers: Numbers::Empty,
        }
    }
}

impl PartialEq for Value {
    ghost eq = { λ a b. pointwise int_eq a b };

    ghost laws = { on_per (λ v. v) (partial_equiv_from_equiv (lists_equiv int_eq_equiv)) };

    fn eq(&self, other: &Self) -> bool {
        self.as_slice() == other.as_slice()
    }
}

impl Eq for Value {
    ghost laws = { on_equiv (λ v. v) (lists_equiv int_eq_equiv) };
}
