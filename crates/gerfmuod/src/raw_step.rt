//! The steps as C passes them: the number of a kind and the numbers of what it names.
ghost use Rattle.std.specs.Prelude.{◌≡◌, IsTrue};
ghost use Rattle.gerfmuod.specs.Calls.{has_plain_reply, insert_asked, other_step, step_asked, task_step};

use tp_base::{ActionId, Generation, Inputs, MAX_INPUTS, MessageId, NodeId, Step, TaskId};

/// A step as C passes it: the number of its kind, 0 to 15, and its arguments. Arguments that a kind does not have are
/// ignored.
#[repr(C)]
#[derive(Clone, Copy, Debug, PartialEq, Eq)]
pub struct RawStep {
    pub kind: u32,
    pub first: u32,
    pub second: u32,
    pub third: u32,
    /// The generation of a message.
    pub generation: u32,
}

const _: () = prove!(size_of::<RawStep>() == 20);

/// Returns the step, or `None` if there is no such kind, or for a task of more than 16 inputs.
#[inline(always)]
pub(crate) fn step_of(raw: RawStep) -> Option<Step>
    ensures { result ≡ step_asked raw }
{
    // Most events are steps of tasks, and a comparison takes less time than a jump table of all kinds.
    if raw.kind <= 3 {
        task_step(raw)
    } else {
        other_step(raw)
    }
}

/// Returns the step of a kind up to 3.
#[inline(always)]
fn task_step(raw: RawStep) -> Option<Step>
    ensures { result ≡ task_step raw }
{
    match raw.kind {
        0 => insert_step(raw.first, raw.second, raw.third),
        1 => Some(Step::Supply(TaskId(raw.first))),
        2 => Some(Step::Begin(TaskId(raw.first))),
        3 => Some(Step::Done(TaskId(raw.first))),
        _ => None,
    }
}

/// Returns the step of a kind above 3.
#[inline(always)]
pub(crate) fn other_step(raw: RawStep) -> Option<Step>
    ensures { result ≡ other_step raw }
{
    let (node, second, generation) = (NodeId(raw.first), raw.second, Generation(raw.generation));
    match raw.kind {
        4 => Some(Step::ActionOpen(node, ActionId(second))),
        5 => Some(Step::ActionClose(node, ActionId(second))),
        6 => Some(Step::Ready(node)),
        7 => Some(Step::Send(node, NodeId(second), MessageId(raw.third), generation)),
        8 => Some(Step::Recv(node, MessageId(second), generation)),
        9 => Some(Step::MessageEnd(node, MessageId(second), generation)),
        10 => Some(Step::Start),
        11 => Some(Step::Down(node)),
        12 => Some(Step::Give(node)),
        13 => Some(Step::Up(node)),
        14 => Some(Step::Judge),
        15 => Some(Step::Reopen),
        _ => None,
    }
}

/// Returns the step that inserts a task, or `None` for one of more than 16 inputs.
#[inline(always)]
pub(crate) fn insert_step(home: u32, task: u32, inputs: u32) -> Option<Step>
    ensures step { result ≡ insert_asked home task inputs }
    ensures plain { IsTrue (has_plain_reply result) }
{
    if inputs > u32::from(MAX_INPUTS) {
        return None;
    }
    match Inputs::new(inputs as u8) {
        Some(inputs) => Some(Step::Insert(NodeId(home), TaskId(task), inputs)),
        None => None,
    }
}
