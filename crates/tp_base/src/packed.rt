//! The packing of an event into 8 bytes.
ghost use Rattle.std.specs.Prelude.{◌≡◌, ◌<◌, ◌+◌, ◌*◌, ◌/◌, ◌%◌};
ghost use Rattle.tp_base.specs.History.{NamesSmall};

use crate::ids::{ActionId, Generation, Inputs, MessageId, NodeId, TaskId};
use crate::step::Step;
use std::marker::Model;

/// Message numbers are smaller than this.
const MESSAGES: u32 = 1_048_576;

/// The low bits of a generation are its remainder by this.
const GENERATIONS: u32 = 4_096;

/// The kind of a step.
#[repr(u8)]
#[derive(Clone, Copy)]
pub(crate) enum Kind {
    Insert,
    Supply,
    Begin,
    Done,
    ActionOpen,
    ActionClose,
    Ready,
    Send,
    Recv,
    MessageEnd,
    Start,
    Down,
    Give,
    Up,
    Judge,
    Reopen,
}

/// An event, that is a step with its node, in 8 bytes instead of the 24 of the pair. Contracts see the pair.
#[derive(Drop)]
pub(crate) struct Packed {
    kind: Kind,
    /// The node of the event.
    node: u8,
    /// The node that the step names first; for a sending both nodes, in four bits each.
    first: u8,
    /// The inputs of an insert; for a message, the high bits of its generation.
    second: u8,
    /// The number of the task or the action; for a message, its number below the low bits of its generation.
    number: u32,
}

impl Model for Packed {
    ghost use Rattle.tp_base.specs.History.{Event};

    ghost Value = { Event };

    ghost use Rattle.tp_base.specs.Packing.{unpacked};

    ghost view = { unpacked };
}

const _: () = prove!(size_of::<Packed>() == 8);

impl Packed {
    /// Packs an event whose numbers are small enough (`NamesSmall`).
    #[inline(always)]
    pub(crate) fn new(node: NodeId, step: Step) -> Packed
        requires node { node.0 < 256 }
        requires named { NamesSmall step }
        ensures { result ≡ (node, step) }
    {
        let (kind, first, second, number) = match step {
            Step::Insert(home, task, inputs) => (Kind::Insert, home.0 as u8, inputs.get(), task.0),
            Step::Supply(task) => (Kind::Supply, 0, 0, task.0),
            Step::Begin(task) => (Kind::Begin, 0, 0, task.0),
            Step::Done(task) => (Kind::Done, 0, 0, task.0),
            Step::ActionOpen(at, action) => (Kind::ActionOpen, at.0 as u8, 0, action.0),
            Step::ActionClose(at, action) => (Kind::ActionClose, at.0 as u8, 0, action.0),
            Step::Ready(at) => (Kind::Ready, at.0 as u8, 0, 0),
            Step::Send(from, to, message, generation) => {
                let high = high_of(generation);
                (
                    Kind::Send,
                    both(from, to),
                    high,
                    with_low(message, generation),
                )
            }
            Step::Recv(at, message, generation) => {
                let high = high_of(generation);
                (Kind::Recv, at.0 as u8, high, with_low(message, generation))
            }
            Step::MessageEnd(at, message, generation) => {
                let high = high_of(generation);
                (
                    Kind::MessageEnd,
                    at.0 as u8,
                    high,
                    with_low(message, generation),
                )
            }
            Step::Start => (Kind::Start, 0, 0, 0),
            Step::Down(at) => (Kind::Down, at.0 as u8, 0, 0),
            Step::Give(at) => (Kind::Give, at.0 as u8, 0, 0),
            Step::Up(at) => (Kind::Up, at.0 as u8, 0, 0),
            Step::Judge => (Kind::Judge, 0, 0, 0),
            Step::Reopen => (Kind::Reopen, 0, 0, 0),
        };
        Packed {
            kind,
            node: node.0 as u8,
            first,
            second,
            number,
        }
    }

    /// Returns the event.
    #[inline(always)]
    pub(crate) fn event(&self) -> (NodeId, Step)
        ensures { result ≡ self.now }
    {
        let first = NodeId(self.first as u32);
        let step = match self.kind {
            Kind::Insert => {
                let count = self.second;
                Step::Insert(first, TaskId(self.number), Inputs { count })
            }
            Kind::Supply => Step::Supply(TaskId(self.number)),
            Kind::Begin => Step::Begin(TaskId(self.number)),
            Kind::Done => Step::Done(TaskId(self.number)),
            Kind::ActionOpen => Step::ActionOpen(first, ActionId(self.number)),
            Kind::ActionClose => Step::ActionClose(first, ActionId(self.number)),
            Kind::Ready => Step::Ready(first),
            Kind::Send => {
                let from = NodeId((self.first / 16) as u32);
                let to = NodeId((self.first % 16) as u32);
                Step::Send(
                    from,
                    to,
                    message_in(self.number),
                    generation_in(self.second, self.number),
                )
            }
            Kind::Recv => Step::Recv(
                first,
                message_in(self.number),
                generation_in(self.second, self.number),
            ),
            Kind::MessageEnd => Step::MessageEnd(
                first,
                message_in(self.number),
                generation_in(self.second, self.number),
            ),
            Kind::Start => Step::Start,
            Kind::Down => Step::Down(first),
            Kind::Give => Step::Give(first),
            Kind::Up => Step::Up(first),
            Kind::Judge => Step::Judge,
            Kind::Reopen => Step::Reopen,
        };
        (NodeId(self.node as u32), step)
    }
}

/// Returns two node numbers of four bits each in one byte.
#[inline(always)]
fn both(from: NodeId, to: NodeId) -> u8
    requires { (from.0 < 16) × (to.0 < 16) }
    ensures { result ≡ from.0 * 16 + to.0 }
{
    (from.0 * 16 + to.0) as u8
}

/// Returns a message's number, in the low 20 bits, below the low 12 bits of its generation.
#[inline(always)]
fn with_low(message: MessageId, generation: Generation) -> u32
    requires { message.0 < 1048576 }
    ensures { result ≡ generation.0 % 4096 * 1048576 + message.0 }
{
    generation.0 % GENERATIONS * MESSAGES + message.0
}

/// Returns the high bits of a generation.
#[inline(always)]
fn high_of(generation: Generation) -> u8
    requires { generation.0 < 1048576 }
    ensures { result ≡ generation.0 / 4096 }
{
    (generation.0 / GENERATIONS) as u8
}

/// Returns the message whose number is in the low 20 bits.
#[inline(always)]
fn message_in(number: u32) -> MessageId
    ensures { result.0 ≡ number % 1048576 }
{
    MessageId(number % MESSAGES)
}

/// Returns the generation with these high bits, and with low bits above the low 20 bits of `number`.
#[inline(always)]
fn generation_in(high: u8, number: u32) -> Generation
    ensures { result.0 ≡ high * 4096 + number / 1048576 }
{
    Generation(high as u32 * GENERATIONS + number / MESSAGES)
}
