//! Printing the table of a pool's result.
ghost use Rattle.pool_samples.specs.{Any.any_graph, Tables.{LacksCell, table_of, texts, cell_text, table_text}};
ghost use Rattle.std.specs.{Fmt.signed_decimal, Prelude.{◌≡◌, ◌<◌, ◌⊎◌, ◌↔◌, ◌++◌, ◌∷◌, [], if◌then◌else◌, IfOk, OnOk, IfErr}};
ghost use Rattle.tp_base.specs.declared.Refusal.TheVariants.{Missing, NoMemory};
ghost use Rattle.tp_graph.specs.Serial.{AreRight};

use crate::{AnyGraph, ResultTable};
use std::alloc::{AllocError, Global};
use tp_base::{Refusal, TaskId};
use tp_graph::Value;

/// Returns the text of a graph's table, from results that have to be their tasks' values. Each row is a line, with its
/// numbers separated by single spaces. Refused with `Missing` exactly if a task that the table needs has no result, and
/// then with `NoMemory` if an allocation fails.
pub fn print_table(
    alloc: Global,
    graph: AnyGraph,
    results: &[(TaskId, Value)],
) -> Result<Vec<u8>, Refusal>
    requires { AreRight (any_graph graph) results.now }
    ensures printed { IfOk result (λ text. text.items ≡ table_text (table_of graph)) }
    ensures missing { (result ≡ Err Missing) ↔ LacksCell graph results.now }
    ensures refused { IfErr result (λ refusal. (refusal ≡ Missing) ⊎ (refusal ≡ NoMemory)) }
{
    let table = ResultTable::new(alloc, graph, results)?;
    let mut text = Vec::new(alloc);
    for i in 0..table.rows() {
        print_row(alloc, &mut text, &table, i)?;
    }
    Ok(text)
}

/// Appends a row of a table.
#[tactic(auto, using(crate::proofs::Keeping::texts_more))]
fn print_row(
    alloc: Global,
    text: &mut Vec<u8>,
    table: &ResultTable,
    i: u32,
) -> Result<(), AllocError>
    requires { i < (table_of table.now).rows }
    ensures { OnOk result (text.new.items ≡ text.old.items
        ++ texts (table_of table.now).columns (λ j. cell_text (table_of table.now).columns j ((table_of table.now).at i j))) }
{
    let columns = table.columns();
    for j in 0..columns {
        print_number(alloc, text, table.number(i, j), j + 1 == columns)?;
    }
    Ok(())
}

/// Appends a number and the character after it.
fn print_number(
    alloc: Global,
    text: &mut Vec<u8>,
    number: i64,
    last: bool,
) -> Result<(), AllocError>
    ensures { OnOk result (text.new.items ≡ text.old.items ++ (signed_decimal number ++ (if last then 10 else 32) ∷ [])) }
{
    let digits = number.to_string(alloc)?;
    text.extend_from_slice(digits.as_bytes())?;
    text.push(if last { b'\n' } else { b' ' })?;
    Ok(())
}
