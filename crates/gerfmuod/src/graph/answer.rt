//! The result that each call on a task graph returns to C.
ghost use Rattle.std.specs.Prelude.{◌≡◌};
ghost use Rattle.gerfmuod.specs.Part.{event_answer, fault_answer, found_fault_answer, plain, refusal_answer, refused_with};
ghost use Rattle.gerfmuod.specs.Part.{reply_answer, task_named};

use tp_base::Refusal;
use tp_dag::Event;
use tp_team::{Fault, Reply, TeamRefusal, Turn};

/// The number that no task has.
pub(crate) const NO_NUMBER: u32 = 4_294_967_295;

pub(crate) const NO_MEMORY: TeamRefusal = TeamRefusal::Pool(Refusal::NoMemory);

/// The result of a call on a task graph.
#[repr(C)]
#[derive(Clone, Copy, Debug, PartialEq, Eq)]
pub struct GraphResult {
    /// 0, or the number of the refusal.
    pub refused: u32,
    /// Of a turn: 1, run the task `number`; 2, spin; 3, sleep; 4, leave. Of a part: 1, run it; 2, send its value; 3, wait; 4, stop.
    /// Else 0, or as the call says.
    pub next: u32,
    /// A task or a count, as the call says; if the refusal is `HistoryFull`, the limit that was met. Else 0.
    pub number: u32,
    /// The number of sleeping threads to signal; of a part that has a message to send, the part that gets it.
    pub signals: u32,
}

const _: () = prove!(size_of::<GraphResult>() == 16);

/// Returns the result of a call that was not refused.
pub(crate) fn plain(next: u32, number: u32, signals: u32) -> GraphResult
    ensures { result ≡ plain next number signals }
{
    GraphResult {
        refused: 0,
        next,
        number,
        signals,
    }
}

/// Returns the result of a call that was refused because of a task or a limit, with the number of threads to signal.
pub(crate) fn refused_with(refusal: TeamRefusal, number: u32, signals: u32) -> GraphResult
    ensures { result ≡ refused_with refusal number signals }
{
    GraphResult {
        refused: refusal.number(),
        next: 0,
        number,
        signals,
    }
}

/// Returns the result of a refused call.
pub(crate) fn refused(refusal: TeamRefusal) -> GraphResult
    ensures { result ≡ refusal_answer refusal }
{
    match refusal {
        TeamRefusal::Pool(Refusal::HistoryFull(limit)) => refused_with(refusal, limit, 0),
        _ => refused_with(refusal, 0, 0),
    }
}

/// Returns the task of this number, or none if it is the number that no task has.
pub(crate) fn task_named(number: u32) -> Option<u32>
    ensures { result ≡ task_named number }
{
    (number != NO_NUMBER).then_some(number)
}

fn of_fault(fault: Fault, signals: u32) -> GraphResult
    ensures { result ≡ fault_answer fault signals }
{
    refused_with(fault.refusal, fault.task.unwrap_or(NO_NUMBER), signals)
}

/// Returns the result of a turn.
pub(crate) fn of_reply(reply: Reply) -> GraphResult
    ensures { result ≡ reply_answer reply }
{
    match reply.turn {
        Turn::Run(task) => plain(1, task, reply.signals),
        Turn::Spin => plain(2, 0, reply.signals),
        Turn::Sleep => plain(3, 0, reply.signals),
        Turn::Over => plain(4, 0, reply.signals),
        Turn::Refused(fault) => of_fault(fault, reply.signals),
    }
}

/// Returns the fault that ended a graph, if there is one.
pub(crate) fn of_found_fault(found: Option<Fault>) -> GraphResult
    ensures { result ≡ found_fault_answer found }
{
    match found {
        Some(fault) => of_fault(fault, 0),
        None => plain(0, 0, 0),
    }
}

/// Returns an event, if there is one.
pub(crate) fn of_event(event: Option<Event>) -> GraphResult
    ensures { result ≡ event_answer event }
{
    match event {
        Some(Event::Begin(task)) => plain(1, task, 0),
        Some(Event::Done(task)) => plain(2, task, 0),
        None => plain(0, 0, 0),
    }
}
