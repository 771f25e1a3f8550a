//! The outputs and inputs of a grid's rows, up to the period of its relation, and from these a table's entry for each task.
ghost use Rattle.pool_kernels.specs.{Grids.{AreSizes, ComesAgain, inputs, outputs}, Ranks.rank, RunFaults.{HasNoFault, IsTableFault}};
ghost use Rattle.pool_kernels.specs.Tables.{AreArities, AreKinds, AreOutputs, AreSeen, AreSpans, AreSpots, IsSpot, outputs_to};
ghost use Rattle.std.specs.Prelude.{◌≡◌, ◌≤◌, ◌<◌, ◌+◌, ◌*◌, ◌++◌, ◌^◌, suc, ℕ, IfOk, IfErr, OnOk};
ghost use Rattle.tp_graph.specs.Events.{task_events};

use crate::fault::TableFault;
use crate::relation::Relation;
use std::alloc::Global;
use tp_base::{MAX_INPUTS, MAX_STEPS};

/// One of the columns that a column feeds, and the slot there.
#[derive(Clone, Copy, Debug)]
pub(crate) struct Output {
    pub(crate) column: u32,
    pub(crate) slot: u8,
}

/// Consecutive outputs: the first, and how many.
#[derive(Clone, Copy, Debug)]
pub(crate) struct Span {
    pub(crate) start: usize,
    pub(crate) count: u32,
}

/// A table's entry for a task: its column, the number of its inputs, and which outputs are its own.
#[derive(Clone, Copy, Debug)]
pub(crate) struct Spot {
    pub(crate) start: usize,
    pub(crate) feeds: u32,
    pub(crate) column: u32,
    pub(crate) arity: u8,
}

/// The numbers of columns and of rows of a grid, and the period of its relation.
#[derive(Clone, Copy)]
pub(crate) struct Shape {
    pub(crate) width: u32,
    pub(crate) steps: u32,
    pub(crate) period: u32,
}

/// The outputs and the inputs of a grid's rows, from row 1 on, for one period of its relation.
#[derive(Drop)]
pub(crate) struct Kinds {
    /// The outputs of each column of the row before.
    pub(crate) spans: Vec<Span>,
    /// All outputs.
    pub(crate) outputs: Vec<Output>,
    /// The number of inputs of each column.
    pub(crate) arities: Vec<u8>,
}

/// Returns the outputs and inputs of the rows of one period, from row 1 on.
pub(crate) fn kinds_of<P: Relation>(
    alloc: Global,
    relation: &P,
    shape: Shape,
) -> Result<Kinds, TableFault>
    requires sizes { AreSizes shape.width shape.steps }
    requires some { 1 ≤ shape.period }
    requires again { ComesAgain (P.relation relation.now shape.width) shape.width shape.steps shape.period }
    ensures made { IfOk result (AreKinds (P.relation relation.now shape.width) shape.width shape.steps shape.period) }
    ensures refused { IfErr result (IsTableFault (P.relation relation.now shape.width) shape.width shape.steps) }
{
    let mut kinds = Kinds {
        spans: Vec::new(alloc),
        outputs: Vec::new(alloc),
        arities: Vec::new(alloc),
    };
    for row in 0..shape.period.min(shape.steps - 1) {
        match add_row(alloc, relation, shape.width, row, &mut kinds) {
            Ok(()) => {}
            Err(fault) => return Err(fault),
        }
    }
    Ok(kinds)
}

/// Appends the outputs and inputs of the next row.
fn add_row<P: Relation>(
    alloc: Global,
    relation: &P,
    width: u32,
    rows: u32,
    kinds: &mut Kinds,
) -> Result<(), TableFault>
    requires sizes { AreSizes width (rows + 1) }
    requires spans { AreSpans (P.relation relation.now width) width (rows * width) kinds.old.spans.items kinds.old.outputs.items }
    requires arities { AreArities (P.relation relation.now width) width (rows * width) kinds.old.arities.items }
    ensures spans { IfOk result (λ _.
        AreSpans (P.relation relation.now width) width ((rows + 1) * width) kinds.new.spans.items kinds.new.outputs.items) }
    ensures arities { IfOk result (λ _.
        AreArities (P.relation relation.now width) width ((rows + 1) * width) kinds.new.arities.items) }
    ensures refused { IfErr result (λ fault. (steps : ℕ) → rows + 1 < steps
        → IsTableFault (P.relation relation.now width) width steps fault) }
{
    let mut seen = vec![in alloc; 0; width as usize]?;
    for from in 0..width {
        let start = kinds.outputs.len();
        let count = add_column(
            relation,
            width,
            rows + 1,
            from,
            &mut seen,
            &mut kinds.outputs,
        )?;
        kinds.spans.push(Span { start, count })?;
    }
    kinds.arities.extend_from_slice(&seen)?;
    Ok(())
}

/// Appends the outputs of a column, and counts them at the columns that they go to. Returns how many there are.
fn add_column<P: Relation>(
    relation: &P,
    width: u32,
    step: u32,
    from: u32,
    seen: &mut Vec<u8>,
    outputs: &mut Vec<Output>,
) -> Result<u32, TableFault>
    requires sizes { AreSizes width step }
    requires within { from < width }
    requires before { AreSeen (P.relation relation.now width) width step from 0 seen.old.items }
    ensures seen { IfOk result (λ _. AreSeen (P.relation relation.now width) width step (from + 1) 0 seen.new.items) }
    ensures made { IfOk result (λ _.
        outputs.new.items ≡ outputs.old.items ++ outputs_to (P.relation relation.now width) step from width) }
    ensures count { IfOk result (λ count. count ≡ rank (λ i. P.relation relation.now width step from i) width) }
    ensures refused { IfErr result (λ fault. (steps : ℕ) → step < steps
        → IsTableFault (P.relation relation.now width) width steps fault) }
{
    let mut count = 0;
    for to in 0..width {
        if relation.relates(width, step, from, to) {
            let slot = seen[to as usize];
            if slot >= MAX_INPUTS {
                return Err(TableFault::TooManyInputs);
            }
            seen[to as usize] = slot + 1;
            outputs.push(Output { column: to, slot })?;
            count += 1;
        }
    }
    Ok(count)
}

/// Returns the entry of each task, from the outputs and inputs of the rows of one period.
pub(crate) fn spots_of<P: Relation>(
    alloc: Global,
    relation: &P,
    kinds: &Kinds,
    shape: Shape,
) -> Result<Vec<Spot>, TableFault>
    requires kinds { AreKinds (P.relation relation.now shape.width) shape.width shape.steps shape.period kinds.now }
    requires few { shape.steps * shape.width < 2 ^ 20 }
    ensures made { IfOk result (λ spots.
        AreSpots (P.relation relation.now shape.width) shape.width shape.steps (shape.steps * shape.width) spots.items
        kinds.now.outputs.items) }
    ensures no_fault { OnOk result (HasNoFault (P.relation relation.now shape.width) shape.width shape.steps) }
    ensures refused { IfErr result (IsTableFault (P.relation relation.now shape.width) shape.width shape.steps) }
{
    let mut spots = Vec::with_capacity(alloc, (shape.steps * shape.width) as usize)?;
    let mut events = 0;
    for task in 0..shape.steps * shape.width {
        let spot = spot_of(relation, kinds, shape, task);
        spots.push_reserved(spot);
        events += task_events(spot.arity);
    }
    if events > MAX_STEPS {
        return Err(TableFault::TooManyEvents);
    }
    Ok(spots)
}

/// Returns the number of events that a task with this number of inputs takes at one node.
fn task_events(inputs: u8) -> u32
    ensures same { result ≡ task_events inputs }
    ensures few { result ≤ 257 }
{
    if inputs > 0 { u32::from(inputs) + 2 } else { 3 }
}

/// Returns the entry of a task.
fn spot_of<P: Relation>(relation: &P, kinds: &Kinds, shape: Shape, task: u32) -> Spot
    requires kinds { AreKinds (P.relation relation.now shape.width) shape.width shape.steps shape.period kinds.now }
    requires known { task < shape.steps * shape.width }
    ensures { IsSpot (P.relation relation.now shape.width) shape.width shape.steps kinds.now.outputs.items task result }
{
    let (row, column) = (task / shape.width, task % shape.width);
    let span = span_of(relation, kinds, shape, row, column);
    Spot {
        start: span.start,
        feeds: span.count,
        column,
        arity: arity_of(relation, kinds, shape, row, column),
    }
}

/// Returns which outputs are those of a column of a row: none in the last row. Only the contract uses the relation.
#[tactic(auto, using(crate::proofs::Tables::kind_within))]
fn span_of<P: Relation>(_relation: &P, kinds: &Kinds, shape: Shape, row: u32, column: u32) -> Span
    requires kinds { AreKinds (P.relation _relation.now shape.width) shape.width shape.steps shape.period kinds.now }
    requires within { (row < shape.steps) × (column < shape.width) }
    ensures feeds { result.count ≡ outputs (P.relation _relation.now shape.width) shape.width shape.steps row column }
    ensures own { AreOutputs (P.relation _relation.now shape.width) shape.width (suc row) column kinds.now.outputs.items
        result.start result.count }
{
    if row + 1 < shape.steps {
        kinds.spans[(row % shape.period) as usize * shape.width as usize + column as usize]
    } else {
        Span { start: 0, count: 0 }
    }
}

/// Returns the number of inputs of a column of a row: none in the first row. Only the contract uses the relation.
#[tactic(auto, using(crate::proofs::Tables::kind_within))]
fn arity_of<P: Relation>(_relation: &P, kinds: &Kinds, shape: Shape, row: u32, column: u32) -> u8
    requires kinds { AreKinds (P.relation _relation.now shape.width) shape.width shape.steps shape.period kinds.now }
    requires within { (row < shape.steps) × (column < shape.width) }
    ensures { result ≡ inputs (P.relation _relation.now shape.width) shape.width row column }
{
    if row == 0 {
        0
    } else {
        kinds.arities[((row - 1) % shape.period) as usize * shape.width as usize + column as usize]
    }
}
