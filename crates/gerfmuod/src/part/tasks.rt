//! What a program in C describes of a graph over parts: data handles, and tasks by their inputs or by their accesses.
ghost use Rattle.std.specs.Prelude.{◌≡◌, ◌⊎◌, length, false, IsTrue};
ghost use Rattle.gerfmuod.specs.Part.{NoMemory, all_below, is_not_above, Pool, IsRefused, opened_as};
ghost use Rattle.gerfmuod.specs.Part.{AddsShared, IsFlowHandle, IsSharedTaskCall, IsTaskOfCall};

use crate::graph::access::{RawAccess, are_accesses, decode};
use crate::graph::answer::{GraphResult, NO_MEMORY, plain, refused};
use crate::part::slot::PartSlot;
use tp_base::Refusal;
use tp_flow::{Access, Flow};
use tp_part::Part;
use tp_team::TeamRefusal;

/// Adds a handle.
pub(crate) fn handle_added(flow: &mut Flow) -> GraphResult
    ensures does { IsFlowHandle flow.old.state result flow.new.state }
    ensures kept { flow.new.state.newest ≡ flow.old.state.newest }
{
    flow.invariant();
    match flow.handle() {
        Ok(handle) => plain(0, handle.0, 0),
        Err(refusal) => refused(TeamRefusal::Pool(refusal)),
    }
}

/// Describes a task by its inputs.
pub(crate) fn task(slot: &mut PartSlot, class: u32, inputs: &[u32], owner: u32) -> GraphResult
    ensures { IsTaskOfCall slot.old class inputs.now owner result slot.new }
{
    if !slot.is_open() {
        return refused(TeamRefusal::Pool(Refusal::NoPool));
    }
    match slot.part.task(owner, class, inputs) {
        Ok(task) => plain(0, task, 0),
        Err(refusal) => refused(TeamRefusal::Pool(refusal)),
    }
}

/// Describes a task by its accesses.
#[tactic(auto, using(crate::proofs::Growing::decoded_there))]
pub(crate) fn shared_task(
    slot: &mut PartSlot,
    class: u32,
    accesses: &[RawAccess],
    owner: u32,
) -> GraphResult
    ensures { IsSharedTaskCall slot.old class accesses.now owner result slot.new }
{
    if !slot.is_open() {
        return refused(TeamRefusal::Pool(Refusal::NoPool));
    }
    if !are_accesses(slot.flow.handles(), accesses) {
        return refused(TeamRefusal::Pool(Refusal::BadSpec));
    }
    let Ok(()) = decode(accesses, &mut slot.accesses) else {
        return refused(NO_MEMORY);
    };
    inferred(
        &mut slot.part,
        &mut slot.flow,
        class,
        &slot.accesses,
        &mut slot.inputs,
        owner,
    )
}

/// Describes a task with the inputs that its accesses have. `inputs` is room for them.
fn inferred(
    part: &mut Part,
    flow: &mut Flow,
    class: u32,
    accesses: &[Access],
    inputs: &mut Vec<u32>,
    owner: u32,
) -> GraphResult
    requires next { is_not_above flow.old.state.newest part.old.described ≡ false }
    requires below { IsTrue (all_below (length flow.old.state.handles) accesses.now) }
    ensures next { is_not_above flow.new.state.newest part.new.described ≡ false }
    ensures adds { AddsShared class accesses.now owner (opened_as part.old flow.old.state) result (opened_as part.new flow.new.state)
        ⊎ IsRefused (Pool NoMemory) (opened_as part.old flow.old.state) result (opened_as part.new flow.new.state) }
{
    flow.invariant();
    let number = part.described();
    inputs.clear();
    let Ok(()) = flow.find(number, accesses, inputs) else {
        return refused(NO_MEMORY);
    };
    match part.task(owner, class, inputs) {
        Ok(task) => {
            flow.record(number, accesses);
            plain(0, task, 0)
        }
        Err(refusal) => refused(TeamRefusal::Pool(refusal)),
    }
}
