//! The table of a pool's result: where its numbers are among the results of the tasks.
ghost use Rattle.pool_samples.specs.{Any.any_graph, Needed.{needed, IsIndex, IsMarked}, Tables.{table_of, LacksCell}};
ghost use Rattle.std.specs.Prelude.{◌≡◌, ◌<◌, ◌≤◌, ◌↔◌, ◌⊎◌, ℕ, IfErr, IfOk, IsSome, IsTrue, MatchOption, slice_index_or, Err, None, false};
ghost use Rattle.std.specs.Prelude.{length};
ghost use Rattle.tp_base.specs.declared.Refusal.TheVariants.{Missing, NoMemory};
ghost use Rattle.tp_graph.specs.Serial.{AreRight};

use crate::any::AnyGraph;
use std::alloc::{AllocError, Global};
use std::marker::Model;
use tp_base::{Refusal, TaskId};
use tp_graph::Value;

/// The most tasks whose values a table needs: one for each cell of 64 rows and columns.
const MAX_NEEDED: usize = 4_096;

/// The table of a pool, with the positions of its numbers among the pool's results. Contracts see its graph.
#[derive(Drop)]
pub struct ResultTable<'a> {
    graph: AnyGraph,
    values: Vec<Option<&'a Value>>,
}

impl<'a> Model for ResultTable<'a> {
    ghost use Rattle.pool_samples.specs.{Needed.HasValues, declared.any.AnyGraph.AnyGraph};

    ghost Value = { AnyGraph };

    ghost view = { λ t. t.graph };

    ghost invariant = { λ t. HasValues t.graph t.values.items };
}

impl<'a> ResultTable<'a> {
    /// Returns the table of a graph, from results that have to be their tasks' values. Refused with `Missing` exactly
    /// if a task that the table needs has no result, and then with `NoMemory` if an allocation fails.
    pub fn new(
        alloc: Global,
        graph: AnyGraph,
        results: &'a [(TaskId, Value)],
    ) -> Result<Self, Refusal>
        requires { AreRight (any_graph graph) results.now }
        ensures found { IfOk result (λ table. table ≡ graph) }
        ensures missing { (result ≡ Err Missing) ↔ LacksCell graph results.now }
        ensures refused { IfErr result (λ refusal. (refusal ≡ Missing) ⊎ (refusal ≡ NoMemory)) }
    {
        let Ok(values) = index(alloc, graph, results) else {
            return Err(without_memory(graph, results));
        };
        match missing(graph, &values) {
            Some(_) => Err(Refusal::Missing),
            None => Ok(ResultTable { graph, values }),
        }
    }

    /// Returns the number of rows.
    pub fn rows(&self) -> u32
        ensures { result ≡ (table_of self.now).rows }
    {
        self.graph.rows()
    }

    /// Returns the number of columns.
    pub fn columns(&self) -> u32
        ensures { result ≡ (table_of self.now).columns }
    {
        self.graph.columns()
    }

    /// Returns the number in a row and a column, counted from 0.
    pub fn number(&self, i: u32, j: u32) -> i64
        requires row { i < (table_of self.now).rows }
        requires column { j < (table_of self.now).columns }
        ensures { result ≡ (table_of self.now).at i j }
    {
        let (rank, place) = self.graph.cell(i, j);
        let Some(value) = self.values[rank as usize] else {
            unreachable!()
        };
        value.as_slice()[place]
    }
}

/// Returns the values that a table needs, by the ranks of their tasks. They are on the heap, since a thread's stack may
/// be small.
fn index<'a>(
    alloc: Global,
    graph: AnyGraph,
    results: &'a [(TaskId, Value)],
) -> Result<Vec<Option<&'a Value>>, AllocError>
    requires { AreRight (any_graph graph) results.now }
    ensures long { IfOk result (λ values. needed graph ≤ length values.items) }
    ensures found { IfOk result (λ values. IsIndex graph results.now values.items) }
{
    let mut values = Vec::new(alloc);
    values.resize(graph.needed() as usize, None)?;
    find(graph, results, &mut values);
    Ok(values)
}

/// Finds the values that a table needs, by the ranks of their tasks.
fn find<'a>(graph: AnyGraph, results: &'a [(TaskId, Value)], values: &mut [Option<&'a Value>])
    requires right { AreRight (any_graph graph) results.now }
    requires room { needed graph ≤ length values.old }
    requires empty { (rank : ℕ) → slice_index_or values.old rank None ≡ None }
    ensures long { length values.new ≡ length values.old }
    ensures found { IsIndex graph results.now values.new }
{
    for (task, value) in results {
        let Some(rank) = graph.rank(*task) else {
            continue;
        };
        values[rank as usize] = Some(value);
    }
}

/// Returns the lowest rank whose value was not found.
fn missing(graph: AnyGraph, values: &[Option<&Value>]) -> Option<u32>
    requires { needed graph ≤ length values.now }
    ensures { MatchOption result ((rank : ℕ) → rank < needed graph
        → IsSome (slice_index_or values.now rank None)) (λ rank. (rank < needed graph) × (slice_index_or values.now rank None ≡ None)) }
{
    for rank in 0..graph.needed() {
        if values[rank as usize].is_none() {
            return Some(rank);
        }
    }
    None
}

/// Returns why there is no table after an allocation failed: a missing value takes precedence.
fn without_memory(graph: AnyGraph, results: &[(TaskId, Value)]) -> Refusal
    ensures missing { (result ≡ Missing) ↔ LacksCell graph results.now }
    ensures refused { (result ≡ Missing) ⊎ (result ≡ NoMemory) }
{
    let mut known = [false; MAX_NEEDED];
    mark(graph, results, &mut known);
    match unknown(graph, &known) {
        Some(_) => Refusal::Missing,
        None => Refusal::NoMemory,
    }
}

/// Marks the ranks of those tasks that have results.
fn mark(graph: AnyGraph, results: &[(TaskId, Value)], known: &mut [bool; MAX_NEEDED])
    requires { (rank : ℕ) → slice_index_or known.old rank false ≡ false }
    ensures long { length known.new ≡ 4096 }
    ensures marked { IsMarked graph results.now known.new }
{
    for (task, _) in results {
        let Some(rank) = graph.rank(*task) else {
            continue;
        };
        known[rank as usize] = true;
    }
}

/// Returns the lowest rank that is not marked.
fn unknown(graph: AnyGraph, known: &[bool]) -> Option<u32>
    requires { needed graph ≤ length known.now }
    ensures { MatchOption result ((rank : ℕ) → rank < needed graph
        → IsTrue (slice_index_or known.now rank false)) (λ rank. (rank < needed graph) × (slice_index_or known.now rank false ≡ false)) }
{
    for rank in 0..graph.needed() {
        if !known[rank as usize] {
            return Some(rank);
        }
    }
    None
}
