//! The calls on a part, as C gets their results.
ghost use Rattle.std.specs.Prelude.{◌≡◌};
ghost use Rattle.gerfmuod.specs.Part.{IsNext, IsPartCall, outcome_answer, part_call_of};

use crate::graph::answer::{GraphResult, plain, refused};
use crate::part::slot::PartSlot;
use crate::part::tasks::handle_added;
use tp_base::Refusal;
use tp_part::{Next, Part};
use tp_team::TeamRefusal;

/// A call on an open part.
#[derive(Clone, Copy)]
pub enum PartCall {
    Close,
    AddHandle,
    Start,
    Next,
    Done,
    Arrived,
}

/// Returns the call of a number, if there is one.
fn part_call_of(number: u32) -> Option<PartCall>
    ensures { result ≡ part_call_of number }
{
    match number {
        0 => Some(PartCall::Close),
        1 => Some(PartCall::AddHandle),
        2 => Some(PartCall::Start),
        3 => Some(PartCall::Next),
        4 => Some(PartCall::Done),
        5 => Some(PartCall::Arrived),
        _ => None,
    }
}

/// Makes the call of a number.
pub(crate) fn call(slot: &mut PartSlot, number: u32, task: u32) -> GraphResult
    ensures { IsPartCall slot.old number task result slot.new }
{
    if !slot.is_open() {
        return refused(TeamRefusal::Pool(Refusal::NoPool));
    }
    match part_call_of(number) {
        None => refused(TeamRefusal::Pool(Refusal::BadSpec)),
        Some(PartCall::Close) => {
            slot.close();
            plain(0, 0, 0)
        }
        Some(PartCall::AddHandle) => handle_added(&mut slot.flow),
        Some(PartCall::Start) => of(slot.part.start()),
        Some(PartCall::Next) => next(&mut slot.part),
        Some(PartCall::Done) => of(slot.part.done(task)),
        Some(PartCall::Arrived) => of(slot.part.arrived(task)),
    }
}

/// Returns the result of a call without a value.
fn of(outcome: Result<(), Refusal>) -> GraphResult
    ensures { result ≡ outcome_answer outcome }
{
    match outcome {
        Ok(()) => plain(0, 0, 0),
        Err(refusal) => refused(TeamRefusal::Pool(refusal)),
    }
}

fn next(part: &mut Part) -> GraphResult
    ensures does { IsNext part.old result part.new }
    ensures kept { part.new.described ≡ part.old.described }
{
    match part.next() {
        Ok(Next::Run(task)) => plain(1, task, 0),
        Ok(Next::Send(task, part)) => plain(2, task, part),
        Ok(Next::Wait) => plain(3, 0, 0),
        Ok(Next::Over) => plain(4, 0, 0),
        Err(refusal) => refused(TeamRefusal::Pool(refusal)),
    }
}
