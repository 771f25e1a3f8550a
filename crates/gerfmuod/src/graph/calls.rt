//! The calls on a task graph, as C gets their results.
ghost use Rattle.gerfmuod.specs.Part.{IsDescribeCall, IsGraphCall, IsSpawnCall};

use crate::graph::answer::{GraphResult, plain, refused, refused_with};
use crate::graph::data::handle_added;
use crate::graph::slot::GraphSlot;
use crate::graph::team::{Call, call_of, called, spawned};
use tp_base::Refusal;
use tp_team::TeamRefusal;

/// Makes the call of a number.
#[tactic(auto, using(crate::proofs::Growing::next_called))]
pub(crate) fn call(slot: &mut GraphSlot, number: u32, first: u32, second: u32) -> GraphResult
    ensures { IsGraphCall slot.old number first second result slot.new }
{
    if !slot.is_open() {
        return refused(TeamRefusal::Pool(Refusal::NoPool));
    }
    match call_of(number) {
        None => refused(TeamRefusal::Pool(Refusal::BadSpec)),
        Some(Call::Close) => {
            slot.close();
            plain(0, 0, 0)
        }
        Some(Call::AddHandle) => handle_added(slot),
        Some(Call::OfTeam(call)) => called(&mut slot.team, call, first, second),
    }
}

/// Adds a task.
#[tactic(auto, using(crate::proofs::Growing::next_spawned))]
pub(crate) fn spawn(slot: &mut GraphSlot, class: u32, inputs: &[u32], outside: u32) -> GraphResult
    ensures { IsSpawnCall slot.old class inputs.now outside result slot.new }
{
    if !slot.is_open() {
        return refused(TeamRefusal::Pool(Refusal::NoPool));
    }
    spawned(&mut slot.team, class, inputs, outside)
}

/// Describes a whole graph.
pub(crate) fn describe(
    slot: &mut GraphSlot,
    classes: &[u8],
    offsets: &[u32],
    inputs: &[u32],
) -> GraphResult
    ensures { IsDescribeCall slot.old (record { classes = classes.now; offsets = offsets.now; inputs = inputs.now }) result slot.new }
{
    if !slot.is_open() {
        return refused(TeamRefusal::Pool(Refusal::NoPool));
    }
    match slot.team.describe(classes, offsets, inputs) {
        Ok(()) => plain(0, 0, 0),
        Err((refusal, task)) => refused_with(refusal, task, 0),
    }
}
