//! A set of numbers.
ghost use Rattle.std.specs.Prelude.{◌≡◌, OnOk, OnErr};
ghost use Rattle.std.specs.FinSet as set;

use std::alloc::{AllocError, Global};
use std::collections::BTreeSet;
use std::marker::Model;

/// A set of numbers. Each call but `new` takes O(log n) time.
#[derive(Drop)]
pub(crate) struct NumberSet {
    numbers: BTreeSet<u32>,
}

impl Model for NumberSet {
    ghost use Rattle.std.specs.{Coded.coded_ℕ, Ordering.nat_cmp};
    ghost use Rattle.std.specs.FinSet as set;

    ghost Value = { set.FinSet nat_cmp };

    ghost coded = { set.code coded_ℕ };

    ghost view = { λ s. set.from_list s.numbers.keys };
}

impl NumberSet {
    /// Returns the empty set. It allocates nothing.
    pub(crate) fn new(alloc: Global) -> Self
        ensures { result ≡ set.empty }
    {
        NumberSet {
            numbers: BTreeSet::new(alloc),
        }
    }

    /// Returns whether the set contains the number.
    pub(crate) fn contains(&self, number: u32) -> bool
        ensures { result ≡ set.contains self.now number }
    {
        self.numbers.contains(&number)
    }

    /// Adds the number, which allocates.
    pub(crate) fn insert(&mut self, number: u32) -> Result<(), AllocError>
        ensures added { OnOk result (self.new ≡ set.insert self.old number) }
        ensures kept { OnErr result (self.new ≡ self.old) }
    {
        self.numbers.insert(number)?;
        Ok(())
    }

    /// Removes the number.
    pub(crate) fn remove(&mut self, number: u32)
        ensures { self.new ≡ set.remove self.old number }
    {
        self.numbers.remove(&number);
    }
}
