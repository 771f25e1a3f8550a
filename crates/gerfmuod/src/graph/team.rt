//! The calls on a task graph that have a number, and those on the team of an open graph, as C gets their results.
ghost use Rattle.std.specs.Prelude.{◌≡◌};
ghost use Rattle.gerfmuod.specs.Part.{IsSpawn, IsTeamCall, call_of};

use crate::graph::answer::{
    GraphResult, of_event, of_found_fault, of_reply, plain, refused, task_named,
};
use tp_team::{Arrival, Team};

/// A call that the team of an open graph takes.
#[derive(Clone, Copy)]
pub enum TeamCall {
    Start,
    /// A turn of a thread that comes so.
    Turn(Arrival),
    Stop,
    Again,
    Outside,
    Release,
    MayRecord,
    Fault,
    Count,
    Event,
    Reset,
    Left,
}

/// A call on an open graph.
#[derive(Clone, Copy)]
pub enum Call {
    Close,
    AddHandle,
    OfTeam(TeamCall),
}

/// Returns the call of a number, if there is one.
pub(crate) fn call_of(number: u32) -> Option<Call>
    ensures { result ≡ call_of number }
{
    match number {
        0 => Some(Call::Close),
        1 => Some(Call::OfTeam(TeamCall::Start)),
        2 => Some(Call::OfTeam(TeamCall::Turn(Arrival::New))),
        3 => Some(Call::OfTeam(TeamCall::Turn(Arrival::Spun))),
        4 => Some(Call::OfTeam(TeamCall::Turn(Arrival::Woken))),
        5 => Some(Call::OfTeam(TeamCall::Stop)),
        6 => Some(Call::OfTeam(TeamCall::Again)),
        7 => Some(Call::OfTeam(TeamCall::Outside)),
        8 => Some(Call::OfTeam(TeamCall::Release)),
        9 => Some(Call::OfTeam(TeamCall::MayRecord)),
        10 => Some(Call::OfTeam(TeamCall::Fault)),
        11 => Some(Call::OfTeam(TeamCall::Count)),
        12 => Some(Call::OfTeam(TeamCall::Event)),
        13 => Some(Call::OfTeam(TeamCall::Reset)),
        14 => Some(Call::OfTeam(TeamCall::Left)),
        15 => Some(Call::AddHandle),
        _ => None,
    }
}

/// Makes a call.
pub(crate) fn called(team: &mut Team, call: TeamCall, first: u32, second: u32) -> GraphResult
    ensures { IsTeamCall call first second team.old result team.new }
{
    match call {
        TeamCall::Start => match team.start(first) {
            Ok(signals) => plain(0, 0, signals),
            Err(refusal) => refused(refusal),
        },
        TeamCall::Turn(arrival) => of_reply(team.turn(arrival, task_named(first), second)),
        TeamCall::Stop => plain(0, 0, team.stop(task_named(first))),
        TeamCall::Again => match team.again() {
            Ok(()) => plain(0, 0, 0),
            Err(refusal) => refused(refusal),
        },
        TeamCall::Outside => match team.outside(first) {
            Ok(signals) => plain(0, 0, signals),
            Err(refusal) => refused(refusal),
        },
        TeamCall::Release => match team.release(first) {
            Ok(signals) => plain(0, 0, signals),
            Err(refusal) => refused(refusal),
        },
        TeamCall::MayRecord => match team.may_record() {
            Ok(()) => plain(0, 0, 0),
            Err(refusal) => refused(refusal),
        },
        TeamCall::Fault => of_found_fault(team.fault()),
        TeamCall::Count => plain(team.ready(), team.tasks(), 0),
        TeamCall::Event => of_event(team.event(first)),
        TeamCall::Reset => match team.reset() {
            Ok(()) => plain(0, 0, 0),
            Err(refusal) => refused(refusal),
        },
        TeamCall::Left => plain(0, team.left(), 0),
    }
}

/// Adds a task.
pub(crate) fn spawned(team: &mut Team, class: u32, inputs: &[u32], outside: u32) -> GraphResult
    ensures { IsSpawn class inputs.now outside team.old result team.new }
{
    match team.spawn(class, inputs, outside) {
        Ok(spawned) => plain(0, spawned.task, spawned.signals),
        Err(refusal) => refused(refusal),
    }
}
