//! One part of a task graph that several processes run together, for programs in C: a part in the caller's memory. The
//! header `gerfmuod/part.h` states what a caller must ensure.
ghost use Rattle.gerfmuod.specs.Part.{IsPartCall, IsSharedTaskCall, IsTaskOfCall, opened_part, PartView};
ghost use Rattle.gerfmuod.specs.contracts.part.slot.PartSlot.{the_row as slot_row};
ghost use Rattle.std.specs.{Borrow.{full_share, sem}, Ptr.{lies_at, room_at}};

use crate::graph::access::RawAccess;
use crate::graph::answer::GraphResult;
use crate::part::calls::call;
use crate::part::slot::PartSlot;
use crate::part::tasks::{shared_task, task};
use std::alloc::Global;

mod calls;
mod slot;
mod tasks;

/// Opens part `number` of `parts`, without a task, in the memory at `part`. It allocates nothing.
#[unsafe(no_mangle)]
pub unsafe extern "C" fn gerfmuod_part_open(alloc: Global, part: *mut u8, number: u32, parts: u32)
    requires* { sem 𝓛 (room_at slot_row part) }
    ensures* { sem 𝓛 (lies_at slot_row full_share part (opened_part number parts)) }
{
    let made = PartSlot::open(alloc, number, parts);
    (part as *mut PartSlot).write(made)
}

/// Makes the call of a number, 0 to 5.
#[unsafe(no_mangle)]
pub unsafe extern "C" fn gerfmuod_part_call(part: *mut u8, number: u32, task: u32) -> GraphResult
    ghost old: { PartView }
    requires* { sem 𝓛 (lies_at slot_row full_share part old) }
    ensures* { ∃ₛ (λ (new : PartView). sem 𝓛 (lies_at slot_row full_share part new) ∗ ⌜ IsPartCall old number task result new ⌝) }
{
    call(&mut *(part as *mut PartSlot), number, task)
}

/// Describes one more task of the whole graph: its class, the tasks that it reads, and the part that owns it.
#[unsafe(no_mangle)]
pub unsafe extern "C" fn gerfmuod_part_task(
    part: *mut u8,
    class: u32,
    inputs: &[u32],
    owner: u32,
) -> GraphResult
    ghost old: { PartView }
    requires* { sem 𝓛 (lies_at slot_row full_share part old) }
    ensures* { ∃ₛ (λ (new : PartView). sem 𝓛 (lies_at slot_row full_share part new)
        ∗ ⌜ IsTaskOfCall old class inputs.now owner result new ⌝) }
{
    task(&mut *(part as *mut PartSlot), class, inputs, owner)
}

/// Describes one more task of the whole graph, which accesses data handles. It reads the tasks that `Flow::find` finds.
/// `NoMemory` also before other refusals.
#[unsafe(no_mangle)]
pub unsafe extern "C" fn gerfmuod_part_shared_task(
    part: *mut u8,
    class: u32,
    accesses: &[RawAccess],
    owner: u32,
) -> GraphResult
    ghost old: { PartView }
    requires* { sem 𝓛 (lies_at slot_row full_share part old) }
    ensures* { ∃ₛ (λ (new : PartView). sem 𝓛 (lies_at slot_row full_share part new)
        ∗ ⌜ IsSharedTaskCall old class accesses.now owner result new ⌝) }
{
    shared_task(&mut *(part as *mut PartSlot), class, accesses, owner)
}
