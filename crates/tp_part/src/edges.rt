//! Edges of the graph that cross parts: which value goes where. The edges of a value are a chain, from the newest to the oldest.
ghost use Rattle.std.specs.Prelude.{◌≡◌, ◌==◌, ◌≤◌, ◌<◌, ◌+◌, ◌++◌, ◌∷◌, [], ℕ, length, take, OnOk, OnErr, slice_get, slice_set, Some};
ghost use Rattle.std.specs.Prelude.{if◌then◌else◌, IfSome, IfNone, true, false};
ghost use Rattle.tp_dag.specs.declared.limits.TheConstants.{MAX_INPUTS};
ghost use Rattle.tp_part.specs.{Calls.{is_read, has_arrived}, Chains.head, Edges.{newest, has_edge, new_edge, pass_one}, Kept.AreAlike};

use std::alloc::{AllocError, Global};
use std::collections::BTreeMap;
use std::marker::Model;

/// The value of a task goes to a target: if the task is of another part, to an own task, by its place among these; if it is an own one, to
/// another part, by its number.
#[derive(Clone, Copy, Debug, PartialEq, Eq)]
pub struct Edge {
    pub value: u32,
    pub target: u32,
    /// Whether the value was passed on along the edge: the own task need not wait for it, or the message is due.
    pub passed: bool,
}

/// The edges, in the order in which they were added.
#[derive(Drop)]
pub(crate) struct Edges {
    items: Vec<Edge>,
    // of each edge, 1 more than the place of the next older one of the same value; 0 if there is none
    older: Vec<u32>,
    // of each value, 1 more than the place of its newest edge; 0 if there is none
    newest: BTreeMap<u32, u32>,
}

impl Model for Edges {
    ghost use Rattle.tp_part.specs.Edges.{EdgeList};

    ghost Value = { EdgeList };

    ghost use Rattle.tp_part.specs.Chains.{edges_of, AreChained};

    ghost view = { edges_of };

    ghost invariant = { AreChained };
}

/// Returns the number of a value, which is 0 if it has none.
fn head_of(numbers: &BTreeMap<u32, u32>, value: u32) -> u32
    ensures { result ≡ head numbers.now value }
{
    match numbers.get(&value) {
        Some(number) => *number,
        None => 0,
    }
}

/// Sets the number of a value that has one.
fn set_head(numbers: &mut BTreeMap<u32, u32>, value: u32, number: u32)
    requires { 1 ≤ head numbers.old value }
    ensures { (u : ℕ) → head numbers.new u ≡ (if value == u then number else head numbers.old u) }
{
    if let Some(place) = numbers.get_mut(&value) {
        *place = number;
    }
}

/// Sets the number of a value that may have none.
fn put_head(numbers: &mut BTreeMap<u32, u32>, value: u32, number: u32) -> Result<(), AllocError>
    ensures ok { OnOk result ((u : ℕ) → head numbers.new u ≡ (if value == u then number else head numbers.old u)) }
    ensures err { OnErr result ((u : ℕ) → head numbers.new u ≡ head numbers.old u) }
{
    numbers.insert(value, number)?;
    Ok(())
}

impl Edges {
    pub(crate) fn new(alloc: Global) -> Edges
        ensures { result ≡ [] }
    {
        Edges {
            items: Vec::new(alloc),
            older: Vec::new(alloc),
            newest: BTreeMap::new(alloc),
        }
    }

    #[inline]
    pub(crate) fn len(&self) -> usize
        ensures count { result ≡ length self.now }
        ensures few { length self.now ≤ MAX_INPUTS }
    {
        self.items.len()
    }

    /// Returns an edge.
    #[inline]
    pub(crate) fn at(&self, place: u32) -> Edge
        requires { place < length self.now }
        ensures { slice_get self.now place ≡ Some result }
    {
        self.items[place as usize]
    }

    /// Returns 1 more than the place of the newest edge of a value; 0 if it has none.
    pub(crate) fn newest(&self, value: u32) -> u32
        ensures { result ≡ newest value self.now (length self.now) }
    {
        head_of(&self.newest, value)
    }

    /// Returns 1 more than the place of the next older edge of the same value; 0 if there is none.
    #[inline]
    pub(crate) fn older(&self, place: u32) -> u32
        requires { place < length self.now }
        ensures older { (e : Edge) → slice_get self.now place ≡ Some e → result ≡ newest e.value self.now place }
        ensures few { result ≤ place }
    {
        self.older[place as usize]
    }

    /// Returns whether the value of another part arrived, if it has an edge.
    pub(crate) fn has_arrived(&self, value: u32) -> Option<bool>
        requires { AreAlike self.now }
        ensures none { IfNone result (is_read value self.now ≡ false) }
        ensures some { IfSome result (λ b. (is_read value self.now ≡ true) × (has_arrived value self.now ≡ b)) }
    {
        let newest = self.newest(value);
        if newest == 0 {
            return None;
        }
        Some(self.at(newest - 1).passed)
    }

    /// Passes the value on along an edge.
    #[inline]
    pub(crate) fn pass(&mut self, place: u32)
        requires { place < length self.old }
        ensures passed { (e : Edge) → slice_get self.old place ≡ Some e → self.new ≡ slice_set self.old place (pass_one e) }
        ensures long { length self.new ≡ length self.old }
    {
        let edge = self.items[place as usize];
        self.items[place as usize] = Edge {
            passed: true,
            ..edge
        };
    }

    /// Returns whether there is an edge from a value to a target.
    pub(crate) fn has(&self, value: u32, target: u32) -> bool
        ensures { result ≡ has_edge value target self.now }
    {
        let mut left = self.newest(value);
        while 0 < left {
            let edge = self.at(left - 1);
            if edge.target == target {
                return true;
            }
            left = self.older(left - 1);
        }
        false
    }

    /// Adds an edge.
    pub(crate) fn add(&mut self, value: u32, target: u32) -> Result<(), AllocError>
        requires { length self.old < MAX_INPUTS }
        ensures ok { OnOk result (self.new ≡ self.old ++ new_edge value target ∷ []) }
        ensures err { OnErr result (self.new ≡ self.old) }
    {
        self.items.reserve(1)?;
        self.older.reserve(1)?;
        let older = head_of(&self.newest, value);
        put_head(&mut self.newest, value, self.items.len() as u32 + 1)?;
        self.older.push_reserved(older);
        self.items.push_reserved(Edge {
            value,
            target,
            passed: false,
        });
        Ok(())
    }

    /// Takes away all edges but the oldest `count`.
    pub(crate) fn truncate(&mut self, count: usize)
        requires { count ≤ length self.old }
        ensures { self.new ≡ take count self.old }
    {
        while self.items.len() > count {
            self.remove_newest();
        }
    }

    fn remove_newest(&mut self)
        requires { 1 ≤ length self.old }
        ensures { (e : Edge) × (self.old ≡ self.new ++ e ∷ []) }
    {
        let Some(edge) = self.items.pop() else {
            unreachable!()
        };
        let Some(older) = self.older.pop() else {
            unreachable!()
        };
        set_head(&mut self.newest, edge.value, older);
    }
}
