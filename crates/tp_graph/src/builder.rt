//! Builds a value number by number.
ghost use Rattle.std.specs.Prelude.{◌≡◌, ◌<◌, ◌≤◌, ◌+◌, [], ◌∷◌, ◌++◌, length, true, IfOk, IfErr, OnOk, OnErr};
ghost use Rattle.tp_graph.specs.Values.{all_fit};

use crate::value::Value;
use std::alloc::{AllocError, AllocFailed, Global};
use std::marker::Model;

/// A value that is built number by number. Contracts see the list of its 64-bit numbers, and its room: how many more
/// numbers can be pushed without allocating.
#[derive(Drop)]
pub struct ValueBuilder {
    numbers: Vec<i64>,
}

impl Model for ValueBuilder {
    ghost use Rattle.std.specs.Prelude.{◌≡◌, ◌-◌, true, vec_len, vec_capacity};
    ghost use Rattle.tp_graph.specs.{Building.Building, Values.all_fit};

    ghost Value = { Building };

    ghost view = { λ b. record { numbers = b.numbers.items; room = vec_capacity b.numbers - vec_len b.numbers } };

    ghost invariant = { λ b. all_fit b.numbers.items ≡ true };
}

impl ValueBuilder {
    /// Returns a builder without numbers. It allocates nothing.
    pub fn new(alloc: Global) -> Self
        ensures { result.numbers ≡ [] }
    {
        ValueBuilder {
            numbers: Vec::new(alloc),
        }
    }

    /// Returns a builder without numbers and with room for `count`. Refused if the allocation fails, which it can only
    /// if `count` is above 0.
    pub fn with_capacity(alloc: Global, count: usize) -> Result<Self, AllocError>
        ensures empty { IfOk result (λ made. made.numbers ≡ []) }
        ensures room { IfOk result (λ made. made.room ≡ count) }
        ensures grows { OnErr result (0 < count) }
    {
        Ok(ValueBuilder {
            numbers: Vec::with_capacity(alloc, count)?,
        })
    }

    /// Appends a number, and allocates if there is no room. Refused if there is no room and the allocation fails; the
    /// builder is then unchanged.
    pub fn push(&mut self, number: i64) -> Result<(), AllocError>
        ensures last { OnOk result (self.new.numbers ≡ self.old.numbers ++ number ∷ []) }
        ensures kept { OnErr result (self.new ≡ self.old) }
        ensures keeps { self.old.room ≤ self.new.room + 1 }
        ensures grows { OnErr result (self.old.room ≡ 0) }
    {
        self.numbers.reserve(1)?;
        self.push_reserved(number);
        Ok(())
    }

    /// Appends a number. The caller has reserved room for it, so nothing is allocated.
    pub fn push_reserved(&mut self, number: i64)
        requires room { 0 < self.old.room }
        ensures last { self.new.numbers ≡ self.old.numbers ++ number ∷ [] }
        ensures room { self.new.room + 1 ≡ self.old.room }
    {
        self.numbers.push_reserved(number);
    }

    /// Appends copies of the numbers, and allocates if there is not room for all. Refused if there is not room for all
    /// and the allocation fails; the builder is then unchanged.
    pub fn extend_from_slice(&mut self, numbers: &[i64]) -> Result<(), AllocError>
        ensures last { OnOk result (self.new.numbers ≡ self.old.numbers ++ numbers.now) }
        ensures kept { OnErr result (self.new ≡ self.old) }
        ensures keeps { self.old.room ≤ self.new.room + length numbers.now }
        ensures grows { OnErr result (self.old.room < length numbers.now) }
    {
        self.numbers.reserve(numbers.len())?;
        self.extend_reserved(numbers);
        Ok(())
    }

    // Appends copies of the numbers. The caller has reserved room for them.
    fn extend_reserved(&mut self, numbers: &[i64])
        requires room { length numbers.now ≤ self.old.room }
        ensures last { self.new.numbers ≡ self.old.numbers ++ numbers.now }
        ensures room { self.new.room + length numbers.now ≡ self.old.room }
    {
        for number in numbers {
            self.push_reserved(*number);
        }
    }

    /// Returns the numbers so far.
    pub fn as_slice(&self) -> &[i64]
        ensures same { result.now ≡ self.now.numbers }
        ensures fit { all_fit result.now ≡ true }
    {
        self.numbers.as_slice()
    }

    /// Returns the value of the numbers, which are moved into it. Refused if there are two or more and the allocation
    /// of their reference count fails; the builder is then returned in the error.
    pub fn into_value(self) -> Result<Value, AllocFailed<Self>>
        ensures value { IfOk result (λ value. value ≡ self.numbers) }
        ensures fit { IfOk result (λ value. all_fit value ≡ true) }
        ensures returned { IfErr result (λ failed. failed.value ≡ self) }
        ensures no_growth { OnErr result (1 < length self.numbers) }
    {
        match Value::from_vec(self.numbers) {
            Ok(value) => Ok(value),
            Err(failed) => Err(AllocFailed {
                value: ValueBuilder {
                    numbers: failed.value,
                },
            }),
        }
    }
}
