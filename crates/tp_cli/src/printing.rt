//! What is printed of a pool's run: the table and totals of each generation, or the trace.
ghost use Rattle.std.specs.{List.All, Prelude.{◌≡◌, ◌++◌, IfErr, IfOk, OnOk}, String.string_bytes};
ghost use Rattle.tp_cli.specs.Runs.{AreUntold, IsGenerationOf, IsPlan, IsPrintOf, IsRunBy, IsUnprinted, IsUntold, generation_text};
ghost use Rattle.tp_cli.specs.Runs.{generations_text, head_line, totals_text};

use crate::run::{Form, Plan};
use pool_samples::{AnyGraph, print_table};
use std::alloc::{AllocError, Global};
use tp_base::Refusal;
use tp_text::print_trace;
use tp_work::{Round, Series};

/// Returns what is printed of a run.
pub(crate) fn text_of(
    alloc: Global,
    graph: AnyGraph,
    run: &Series,
    plan: Plan,
) -> Result<Vec<u8>, Refusal>
    requires plan { IsPlan plan }
    requires run { IsRunBy plan graph run.now }
    ensures text { IfOk result (λ text. IsPrintOf plan.form graph plan.config.nodes run.now text.items) }
    ensures none { IfErr result (IsUnprinted plan.form graph run.now) }
{
    match plan.form {
        Form::Table => text_of_generations(alloc, graph, &run.rounds),
        Form::Trace => print_trace(alloc, &run.history, plan.config.nodes),
    }
}

/// Returns the tables and totals of all generations in order.
fn text_of_generations(
    alloc: Global,
    graph: AnyGraph,
    generations: &[Round],
) -> Result<Vec<u8>, Refusal>
    requires { All (IsGenerationOf graph) generations.now }
    ensures text { IfOk result (λ text. text.items ≡ generations_text graph generations.now) }
    ensures none { IfErr result (AreUntold graph generations.now) }
{
    let count = generations.len();
    let mut text = Vec::new(alloc);
    for (before, generation) in generations.iter().enumerate() {
        push_generation(alloc, &mut text, graph, count, before + 1, generation)?;
    }
    Ok(text)
}

/// Appends the table and totals of the generation of this number, under its number if the run has several.
fn push_generation(
    alloc: Global,
    text: &mut Vec<u8>,
    graph: AnyGraph,
    count: usize,
    number: usize,
    generation: &Round,
) -> Result<(), Refusal>
    requires { IsGenerationOf graph generation.now }
    ensures text { OnOk result (text.new.items ≡ text.old.items ++ generation_text graph count number generation.now.messages) }
    ensures none { IfErr result (IsUntold graph generation.now.results.items) }
{
    let mut lines = print_table(alloc, graph, &generation.results)?;
    let totals = totals(alloc, generation.tasks, generation.messages)?;
    lines.extend_from_slice(totals.as_bytes())?;
    let head = head(alloc, count, number)?;
    text.extend_from_slice(head.as_bytes())?;
    text.extend_from_slice(&lines)?;
    Ok(())
}

/// Returns the line above the generation of this number. A run of one has none.
fn head(alloc: Global, count: usize, number: usize) -> Result<String, AllocError>
    ensures { IfOk result (λ line. string_bytes line ≡ head_line count number) }
{
    if count == 1 {
        return Ok(String::new(alloc));
    }
    format!(in alloc; "generation {number}\n")
}

/// Returns the lines below a table.
fn totals(alloc: Global, tasks: u32, messages: u32) -> Result<String, AllocError>
    ensures { IfOk result (λ text. string_bytes text ≡ totals_text tasks messages) }
{
    format!(in alloc; "tasks {tasks}\nmessages {messages}\nended\n")
}
