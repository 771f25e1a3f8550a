//! Data handles, and tasks whose inputs are inferred from their accesses.
ghost use Rattle.std.specs.Prelude.{◌≡◌, ◌⊎◌, length, true, false, IsTrue};
ghost use Rattle.gerfmuod.specs.Part.{NoMemory, Pool, all_below, is_not_above, opened_with, IsHandle, IsTaskCall, SpawnsTask, IsRefused};

use crate::graph::access::{RawAccess, are_accesses, decode};
use crate::graph::answer::{GraphResult, NO_MEMORY, plain, refused};
use crate::graph::slot::GraphSlot;
use tp_base::Refusal;
use tp_flow::{Access, Flow};
use tp_team::{Team, TeamRefusal};

/// Adds a handle to an open graph.
pub(crate) fn handle_added(slot: &mut GraphSlot) -> GraphResult
    requires { slot.old.is_open ≡ true }
    ensures { IsHandle slot.old result slot.new }
{
    if let Some(fault) = slot.team.fault() {
        return refused(fault.refusal);
    }
    slot.flow.invariant();
    match slot.flow.handle() {
        Ok(handle) => plain(0, handle.0, 0),
        Err(refusal) => refused(TeamRefusal::Pool(refusal)),
    }
}

/// Adds a task that accesses data.
#[tactic(auto, using(crate::proofs::Growing::decoded_there))]
pub(crate) fn task(
    slot: &mut GraphSlot,
    class: u32,
    accesses: &[RawAccess],
    outside: u32,
) -> GraphResult
    ensures { IsTaskCall slot.old class accesses.now outside result slot.new }
{
    if !slot.is_open() {
        return refused(TeamRefusal::Pool(Refusal::NoPool));
    }
    if !are_accesses(slot.flow.handles(), accesses) {
        return refused(TeamRefusal::Pool(Refusal::BadSpec));
    }
    let Ok(()) = decode(accesses, &mut slot.accesses) else {
        return refused(NO_MEMORY);
    };
    inferred(
        &mut slot.team,
        &mut slot.flow,
        class,
        &slot.accesses,
        &mut slot.inputs,
        outside,
    )
}

/// Adds a task with the inputs that its accesses have. `inputs` is room for them.
fn inferred(
    team: &mut Team,
    flow: &mut Flow,
    class: u32,
    accesses: &[Access],
    inputs: &mut Vec<u32>,
    outside: u32,
) -> GraphResult
    requires next { is_not_above flow.old.state.newest (length team.old.pool.tasks) ≡ false }
    requires below { IsTrue (all_below (length flow.old.state.handles) accesses.now) }
    ensures next { is_not_above flow.new.state.newest (length team.new.pool.tasks) ≡ false }
    ensures spawns { SpawnsTask class accesses.now outside (opened_with team.old flow.old.state) result (opened_with team.new flow.new.state)
        ⊎ IsRefused (Pool NoMemory) (opened_with team.old flow.old.state) result (opened_with team.new flow.new.state) }
{
    flow.invariant();
    let number = team.tasks();
    inputs.clear();
    let Ok(()) = flow.find(number, accesses, inputs) else {
        return refused(NO_MEMORY);
    };
    match team.spawn(class, inputs, outside) {
        Ok(spawned) => {
            flow.record(number, accesses);
            plain(0, spawned.task, spawned.signals)
        }
        Err(refusal) => refused(refusal),
    }
}
