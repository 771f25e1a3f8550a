//! Task graphs that run on the threads of a program in C: a team in the caller's memory. The header
//! `gerfmuod/graph.h` states what a caller must ensure.
ghost use Rattle.gerfmuod.specs.Part.{opened_graph, GraphState, IsDescribeCall, IsGraphCall, IsSpawnCall, IsTaskCall};
ghost use Rattle.gerfmuod.specs.contracts.graph.slot.GraphSlot.{the_row as slot_row};
ghost use Rattle.std.specs.{Borrow.{full_share, sem}, Ptr.{lies_at, room_at}};

use crate::graph::access::RawAccess;
use crate::graph::answer::GraphResult;
use crate::graph::calls::{call, describe, spawn};
use crate::graph::data::task;
use crate::graph::slot::GraphSlot;
use std::alloc::Global;

pub(crate) mod access;
pub(crate) mod answer;
mod calls;
mod data;
mod slot;
mod team;

/// Opens a graph without a task in the memory at `graph`, for a machine that runs `processors` threads at once. If
/// `is_traced` is not 0, it keeps the events of each run. It allocates nothing.
#[unsafe(no_mangle)]
pub unsafe extern "C" fn gerfmuod_graph_open(
    alloc: Global,
    graph: *mut u8,
    is_traced: u32,
    processors: u32,
)
    requires* { sem 𝓛 (room_at slot_row graph) }
    ensures* { sem 𝓛 (lies_at slot_row full_share graph (opened_graph is_traced processors)) }
{
    let made = GraphSlot::open(alloc, is_traced, processors);
    (graph as *mut GraphSlot).write(made)
}

/// Makes the call of a number, 0 to 15.
#[unsafe(no_mangle)]
pub unsafe extern "C" fn gerfmuod_graph_call(
    graph: *mut u8,
    number: u32,
    first: u32,
    second: u32,
) -> GraphResult
    ghost old: { GraphState }
    requires* { sem 𝓛 (lies_at slot_row full_share graph old) }
    ensures* { ∃ₛ (λ (new : GraphState). sem 𝓛 (lies_at slot_row full_share graph new)
        ∗ ⌜ IsGraphCall old number first second result new ⌝) }
{
    call(&mut *(graph as *mut GraphSlot), number, first, second)
}

/// Adds one task of a class 0 to 3, which reads the tasks `inputs` and awaits `outside` inputs from outside: all or nothing.
#[unsafe(no_mangle)]
pub unsafe extern "C" fn gerfmuod_graph_spawn(
    graph: *mut u8,
    class: u32,
    inputs: &[u32],
    outside: u32,
) -> GraphResult
    ghost old: { GraphState }
    requires* { sem 𝓛 (lies_at slot_row full_share graph old) }
    ensures* { ∃ₛ (λ (new : GraphState). sem 𝓛 (lies_at slot_row full_share graph new)
        ∗ ⌜ IsSpawnCall old class inputs.now outside result new ⌝) }
{
    spawn(&mut *(graph as *mut GraphSlot), class, inputs, outside)
}

/// Adds one task of a class 0 to 3, which accesses data handles and awaits `outside` inputs from outside: all or nothing. It
/// reads the tasks that `Flow::find` finds. `NoMemory` also before other refusals.
#[unsafe(no_mangle)]
pub unsafe extern "C" fn gerfmuod_graph_task(
    graph: *mut u8,
    class: u32,
    accesses: &[RawAccess],
    outside: u32,
) -> GraphResult
    ghost old: { GraphState }
    requires* { sem 𝓛 (lies_at slot_row full_share graph old) }
    ensures* { ∃ₛ (λ (new : GraphState). sem 𝓛 (lies_at slot_row full_share graph new)
        ∗ ⌜ IsTaskCall old class accesses.now outside result new ⌝) }
{
    task(&mut *(graph as *mut GraphSlot), class, accesses, outside)
}

/// Describes a whole graph of `offsets.len() - 1` tasks, all or nothing: task t is of class `classes[t]`, or 0 if there
/// are none, and reads the tasks `inputs[offsets[t]]` to `inputs[offsets[t + 1] - 1]`.
#[unsafe(no_mangle)]
pub unsafe extern "C" fn gerfmuod_graph_describe(
    graph: *mut u8,
    classes: &[u8],
    offsets: &[u32],
    inputs: &[u32],
) -> GraphResult
    ghost old: { GraphState }
    requires* { sem 𝓛 (lies_at slot_row full_share graph old) }
    ensures* { ∃ₛ (λ (new : GraphState). sem 𝓛 (lies_at slot_row full_share graph new)
        ∗ ⌜ IsDescribeCall old (record { classes = classes.now; offsets = offsets.now; inputs = inputs.now }) result new ⌝) }
{
    describe(&mut *(graph as *mut GraphSlot), classes, offsets, inputs)
}
