//! The calls on a core, as C gets their results.
ghost use Rattle.std.specs.Prelude.{◌≡◌, ◌≢◌, ◌&&◌, IsTrue, None, OnSome, option_map};
ghost use Rattle.gerfmuod.specs.Calls.{number_of, no_numbers, world_of, InEach, is_maker, plain, IsNeverEarly, is_quiet, counters};
ghost use Rattle.gerfmuod.specs.Calls.{IsSettled, IsStep, IsByCall, IsCountersCall, IsSettleCall, IsStepCall};
ghost use Rattle.gerfmuod.specs.Calls.{IsStatusCall, IsLeftCall, left_as, left_task, refused_step};
ghost use Rattle.gerfmuod.specs.Calls.{IsReserveCall, made_step, maker_asked, IsMakerResult, has_plain_reply};
ghost use Rattle.gerfmuod.specs.Calls.{is_ending_if, refusal_result, reply_result, IsStepResult};
ghost use Rattle.gerfmuod.specs.Calls.{raw_step, TellsNoEarlyEnd, opening, refusal_of};

use crate::answer::{Counters, LeftTask, Settled, Status, StepResult};
use crate::pool::BoundedCore;
use crate::raw_step::{RawStep, insert_step, other_step, step_of};
use crate::slot::{CoreSlot, can_be};
use tp_base::{ActionId, MessageId, NodeId, Refusal, Step, TaskId};
use tp_core::{Life, Maker, Reply};

/// Returns 0, or the number of `BadSpec` if a pool cannot have this number of nodes.
pub(crate) fn opening(nodes: u32) -> u32
    ensures { result ≡ opening nodes }
{
    if can_be(nodes) {
        0
    } else {
        u32::from(Refusal::BadSpec.number())
    }
}

/// Reserves memory for steps, tasks and messages in a core.
pub(crate) fn reserved(slot: &mut CoreSlot, steps: u32, tasks: u32, messages: u32) -> u32
    ensures { IsReserveCall slot.old result slot.new }
{
    let is_open = slot.enter();
    if !is_open {
        return u32::from(slot.refusal());
    }
    let reserved = slot.room.reserve(steps, tasks, messages);
    slot.leave();
    match reserved {
        Ok(()) => 0,
        Err(refusal) => u32::from(refusal.number()),
    }
}

/// The event of a step that ended something and left nothing.
const QUIET: u16 = 5;

/// The refusal of a step whose maker may not make it.
const NO_MAKER: u16 = 29;

/// Returns the result of a step without sums.
#[inline(always)]
fn plain(refused: u16, event: u16, number: u32) -> StepResult
    ensures { result ≡ plain refused event number }
{
    StepResult {
        refused,
        event,
        number,
        sent: 0,
        received: 0,
    }
}

/// Returns the result of a step that shows more than most.
#[cold]
#[inline(never)]
fn rare_reply(reply: Reply) -> StepResult
    ensures { result ≡ reply_result reply }
{
    match reply {
        Reply::Plain => plain(0, 0, 0),
        Reply::WaveSums(sums) => StepResult {
            sent: sums.sent,
            received: sums.received,
            ..plain(0, 1, sums.wave)
        },
        Reply::Not => plain(0, 2, 0),
        Reply::Over(wave) => plain(0, 3, wave),
        Reply::Opened(generation) => plain(0, 4, generation.0),
    }
}

#[cold]
#[inline(never)]
fn refusal_number(refusal: Refusal) -> u16
    ensures { result ≡ number_of refusal }
{
    u16::from(refusal.number())
}

/// Returns the result of a refused step.
#[inline(always)]
fn of_refusal(refusal: Refusal) -> StepResult
    ensures { result ≡ refusal_result refusal }
{
    let number = match refusal {
        Refusal::HistoryFull(steps) => steps,
        _ => 0,
    };
    plain(refusal_number(refusal), 0, number)
}

/// Returns the result of a step on a core that is not open, or on which another call runs.
#[inline(always)]
pub(crate) fn not_taken(slot: &CoreSlot) -> StepResult
    ensures { result ≡ refused_step (refusal_of slot.now.use_is) }
{
    plain(slot.refusal(), 0, 0)
}

/// Returns whether the step ends something.
#[inline(always)]
fn is_ending(step: Option<Step>) -> bool
    ensures { result ≡ is_ending_if step }
{
    match step {
        Some(Step::Done(_))
        | Some(Step::ActionClose(_, _))
        | Some(Step::Ready(_))
        | Some(Step::MessageEnd(_, _, _)) => true,
        _ => false,
    }
}

/// Returns whether a step that was taken ended something, and nothing is left.
#[inline(always)]
fn leaves_nothing(room: &BoundedCore, ends: bool) -> bool
    ensures { result ≡ (ends && is_quiet (world_of room.now)) }
{
    ends && room.core().quiet()
}

/// Returns the same result, field by field: so the results of calls that are rare do not keep all others in memory.
#[inline(always)]
fn by_fields(answer: StepResult) -> StepResult
    ensures { result ≡ answer }
{
    StepResult {
        refused: answer.refused,
        event: answer.event,
        number: answer.number,
        sent: answer.sent,
        received: answer.received,
    }
}

/// Returns the result of a step that was taken and after which something is left.
#[inline(always)]
fn of_reply(reply: Reply) -> StepResult
    ensures { result ≡ reply_result reply }
{
    match reply {
        // the case of most steps
        Reply::Plain => plain(0, 0, 0),
        _ => by_fields(rare_reply(reply)),
    }
}

/// Takes the next step if there is one, and returns the result for C.
#[inline(always)]
#[tactic(auto, using(crate::proofs::Steps::reply_safe))]
pub(crate) fn take_step(room: &mut BoundedCore, step: Option<Step>) -> StepResult
    ensures taken { IsStepResult room.old step result room.new }
    ensures safe { TellsNoEarlyEnd (result.event ≡ 3) result.number room.new }
{
    let ends = is_ending(step);
    match room.take(step) {
        Ok(reply) => {
            if leaves_nothing(room, ends) {
                plain(0, QUIET, 0)
            } else {
                of_reply(reply)
            }
        }
        Err(refusal) => of_refusal(refusal),
    }
}

/// Takes the next step if there is one, as `take_step` does. All that such a step can show is that nothing is left.
#[inline(always)]
fn take_plain_step(room: &mut BoundedCore, step: Option<Step>) -> StepResult
    requires { IsTrue (has_plain_reply step) }
    ensures { IsStepResult room.old step result room.new × TellsNoEarlyEnd (result.event ≡ 3) result.number room.new }
{
    let ends = is_ending(step);
    match room.take(step) {
        Ok(reply) => {
            let _ = reply;
            if leaves_nothing(room, ends) {
                plain(0, QUIET, 0)
            } else {
                plain(0, 0, 0)
            }
        }
        Err(refusal) => of_refusal(refusal),
    }
}

/// Refuses a step that there is not.
#[cold]
#[inline(never)]
fn no_step(room: &mut BoundedCore) -> StepResult
    ensures { IsStepResult room.old None result room.new × TellsNoEarlyEnd (result.event ≡ 3) result.number room.new }
{
    take_step(room, None)
}

/// Takes the next step. Each kind of steps of tasks and messages has a copy of what follows, which does
/// not build the step and match it again.
#[inline(always)]
fn take_raw_step(room: &mut BoundedCore, raw: RawStep) -> StepResult
    ensures { IsStep raw room.old result room.new }
{
    let (first, second, third) = (raw.first, raw.second, raw.third);
    match raw.kind {
        0 => take_plain_step(room, insert_step(first, second, third)),
        1 => take_plain_step(room, Some(Step::Supply(TaskId(first)))),
        2 => take_plain_step(room, Some(Step::Begin(TaskId(first)))),
        3 => take_plain_step(room, Some(Step::Done(TaskId(first)))),
        7 => take_plain_step(room, other_step(raw)),
        8 => take_plain_step(room, other_step(raw)),
        9 => take_plain_step(room, other_step(raw)),
        _ => take_step(room, step_of(raw)),
    }
}

/// Takes the next step, given by the number of its kind and its arguments.
#[inline(always)]
pub(crate) fn answered(
    slot: &mut CoreSlot,
    kind: u32,
    first: u32,
    second: u32,
    third: u32,
    generation: u32,
) -> StepResult
    ensures { IsStepCall (raw_step kind first second third generation) slot.old result slot.new }
{
    if !slot.enter() {
        return not_taken(slot);
    }
    let raw = RawStep {
        kind,
        first,
        second,
        third,
        generation,
    };
    let answer = take_raw_step(&mut slot.room, raw);
    slot.leave();
    answer
}

/// Returns whether the maker of a kind and a number may make the step; `None` if there is no such kind.
#[inline(always)]
fn is_made_by(room: &BoundedCore, kind: u32, number: u32, step: Step) -> Option<bool>
    ensures is_made { result ≡ option_map (λ m. is_maker m step (world_of room.now)) (maker_asked kind number) }
    ensures never_early { OnSome result (InEach (IsNeverEarly room.now.nodes) room.now.steps) }
{
    // (a copy of the test for each kind of maker, so that the kind is matched once)
    match kind {
        0 => Some(room.is_maker(Maker::Task(TaskId(number)), step)),
        1 => Some(room.is_maker(Maker::Action(ActionId(number)), step)),
        2 => Some(room.is_maker(Maker::Message(MessageId(number)), step)),
        3 => Some(room.is_maker(Maker::Opening, step)),
        4 => Some(room.is_maker(Maker::Thread(NodeId(number)), step)),
        _ => None,
    }
}

/// Takes the next step if its maker may make it.
#[inline(always)]
fn result_for_maker(
    room: &mut BoundedCore,
    maker_kind: u32,
    maker: u32,
    step: Option<Step>,
) -> StepResult
    requires { IsTrue (has_plain_reply step) }
    ensures { IsMakerResult room.old (maker_asked maker_kind maker) step result room.new
        × TellsNoEarlyEnd (result.event ≡ 3) result.number room.new }
{
    let Some(made) = step else {
        return by_fields(no_step(room));
    };
    match is_made_by(room, maker_kind, maker, made) {
        Some(true) => take_plain_step(room, step),
        Some(false) => plain(NO_MAKER, 0, 0),
        None => by_fields(no_step(room)),
    }
}

/// Takes the next step if its maker may make it. Each kind has a copy of what follows, as in `take_raw_step`.
#[inline(always)]
fn taken_by(room: &mut BoundedCore, maker_kind: u32, maker: u32, raw: RawStep) -> StepResult
    ensures { IsMakerResult room.old (maker_asked maker_kind maker) (made_step raw) result room.new
        × TellsNoEarlyEnd (result.event ≡ 3) result.number room.new }
{
    let (first, second, third) = (raw.first, raw.second, raw.third);
    let by = maker_kind;
    match raw.kind {
        0 => result_for_maker(room, by, maker, insert_step(first, second, third)),
        1 => result_for_maker(room, by, maker, Some(Step::Supply(TaskId(first)))),
        2 => result_for_maker(room, by, maker, Some(Step::Begin(TaskId(first)))),
        3 => result_for_maker(room, by, maker, Some(Step::Done(TaskId(first)))),
        4 => result_for_maker(room, by, maker, other_step(raw)),
        7 => result_for_maker(room, by, maker, other_step(raw)),
        _ => result_for_maker(room, by, maker, None),
    }
}

/// Takes the next step if its maker may make it, both given by numbers.
#[inline(always)]
pub(crate) fn answered_by(
    slot: &mut CoreSlot,
    maker_kind: u32,
    maker: u32,
    kind: u32,
    first: u32,
    second: u32,
    third: u32,
    generation: u32,
) -> StepResult
    ensures { IsByCall maker_kind maker (raw_step kind first second third generation) slot.old result slot.new }
{
    if !slot.enter() {
        return not_taken(slot);
    }
    let raw = RawStep {
        kind,
        first,
        second,
        third,
        generation,
    };
    let answer = taken_by(&mut slot.room, maker_kind, maker, raw);
    slot.leave();
    answer
}

/// Returns the counters of a node.
pub(crate) fn counted(slot: &mut CoreSlot, node: u32) -> Counters
    ensures { IsCountersCall node slot.old result slot.new }
{
    if !slot.is_open() {
        return uncounted(slot.refusal());
    }
    if node >= slot.room.nodes() {
        return uncounted(u16::from(Refusal::NoNode.number()));
    }
    let own = slot.room.core().numbers().nodes[node as usize];
    Counters {
        refused: 0,
        pending: own.pending,
        sent: own.sent,
        received: own.received,
    }
}

fn uncounted(refused: u16) -> Counters
    ensures { result ≡ counters refused no_numbers }
{
    Counters {
        refused: u32::from(refused),
        pending: 0,
        sent: 0,
        received: 0,
    }
}

/// Returns the task with the lowest number of a range that is not done, if there is one.
pub(crate) fn left(slot: &mut CoreSlot, from: u32, end: u32) -> LeftTask
    ensures { IsLeftCall from end slot.old result slot.new }
{
    if !slot.is_open() {
        return left_as(slot.refusal(), 0, 0, 0, 0);
    }
    let core = slot.room.core();
    match core.next_left(from, end) {
        Some(task) => left_task(task.0, core.task(task)),
        None => left_as(0, 0, 0, 0, 0),
    }
}

/// Returns the result for the task of a number, with its home and its life.
fn left_task(number: u32, held: Option<(NodeId, Life)>) -> LeftTask
    ensures { result ≡ left_task number held }
{
    match held {
        Some((home, Life::Waiting(inputs))) => left_as(0, 1, number, home.0, u32::from(inputs)),
        Some((home, Life::Ready)) => left_as(0, 2, number, home.0, 0),
        Some((home, Life::Running)) => left_as(0, 3, number, home.0, 0),
        _ => left_as(0, 0, 0, 0, 0),
    }
}

fn left_as(refused: u16, state: u16, number: u32, node: u32, missing: u32) -> LeftTask
    ensures { result ≡ left_as refused state number node missing }
{
    LeftTask {
        refused,
        state,
        number,
        node,
        missing,
    }
}

/// Returns the counters of the pool as a whole; nothing if the core is not open.
pub(crate) fn seen(slot: &mut CoreSlot) -> Status
    ensures { IsStatusCall slot.old result slot.new }
{
    if !slot.is_open() {
        return Status {
            steps: 0,
            steps_left: 0,
            in_flight: 0,
            is_quiet: false,
        };
    }
    let room = &slot.room;
    Status {
        steps: room.steps().len() as u32,
        steps_left: room.room(),
        in_flight: room.core().numbers().under,
        is_quiet: room.core().quiet(),
    }
}

/// Takes control steps until termination is detected, if the pool is quiet.
#[tactic(auto, using(crate::proofs::Steps::settled_over))]
fn settled_room(room: &mut BoundedCore) -> Settled
    ensures settled { IsSettled room.old result room.new × TellsNoEarlyEnd (result.refused ≡ 0) result.wave room.new }
    ensures has_room { result.refused ≢ 16 }
{
    match room.settle() {
        Ok((wave, steps)) => Settled {
            refused: 0,
            wave,
            steps,
        },
        Err(Refusal::HistoryFull(steps)) => unsettled(16, steps),
        Err(refusal) => unsettled(u16::from(refusal.number()), 0),
    }
}

/// Settles the pool of a core.
pub(crate) fn settled(slot: &mut CoreSlot) -> Settled
    ensures { IsSettleCall slot.old result slot.new }
{
    if !slot.enter() {
        return unsettled(slot.refusal(), 0);
    }
    let answer = settled_room(&mut slot.room);
    slot.leave();
    answer
}

fn unsettled(refused: u16, steps: u32) -> Settled
    ensures { result ≡ record { refused = refused; wave = 0; steps = steps } }
{
    Settled {
        refused: u32::from(refused),
        wave: 0,
        steps,
    }
}
