//! The printer of a trace's lines. Which lines a history has is not decided here.
ghost use Rattle.std.specs.{List.All, Prelude.{◌≡◌, ◌++◌, ◌↔◌, ◌∷◌, [], IsTrue, OnOk}};
ghost use Rattle.tp_text.specs.{Script.step_line, Spelling.{generation_number, line, spaced, TellsGeneration, IsNumber, IsSpelled}};
ghost use Rattle.tp_text.specs.{Trace.{format_line, trace, trace_line}, Words.numbers_in};

use crate::printing::push_count;
use crate::traced::TraceLine;
use crate::version::Version;
use crate::words::Operands;
use std::alloc::AllocError;
use tp_base::{Generation, MAX_INPUTS, MessageId, NodeId, Step};

/// The generation of all messages of a text of version 1, whose lines have no place for the number.
pub(crate) const FIRST: Generation = Generation(1);

/// Returns whether a number has at most six digits.
fn is_number(number: u32) -> bool
    ensures { IsTrue result ↔ IsNumber number }
{
    number < 1_000_000
}

/// Returns whether the line of a message can have this generation: in version 1 only the first, in version 2 one of at
/// most six digits.
fn has_generation(version: Version, generation: Generation) -> bool
    ensures { IsTrue result ↔ (All IsNumber (generation_number version generation) × TellsGeneration version generation) }
{
    match version {
        Version::One => generation == FIRST,
        Version::Two => is_number(generation.0),
    }
}

/// Returns whether the grammar has a line for a step.
pub(crate) fn has_line(version: Version, step: Step) -> bool
    ensures { IsTrue result ↔ IsSpelled version step }
{
    match step {
        Step::Insert(node, task, inputs) => {
            is_number(node.0) && is_number(task.0) && inputs.get() <= MAX_INPUTS
        }
        Step::Supply(task) | Step::Begin(task) | Step::Done(task) => is_number(task.0),
        Step::ActionOpen(node, action) | Step::ActionClose(node, action) => {
            is_number(node.0) && is_number(action.0)
        }
        Step::Send(from, to, message, generation) => {
            is_number(from.0)
                && is_number(to.0)
                && is_number(message.0)
                && has_generation(version, generation)
        }
        Step::Recv(node, message, generation) | Step::MessageEnd(node, message, generation) => {
            is_number(node.0) && is_number(message.0) && has_generation(version, generation)
        }
        Step::Ready(node) | Step::Down(node) | Step::Give(node) | Step::Up(node) => {
            is_number(node.0)
        }
        Step::Start | Step::Judge => true,
        Step::Reopen => match version {
            Version::One => false,
            Version::Two => true,
        },
    }
}

/// Appends numbers, each after a space.
fn push_numbers(out: &mut Vec<u8>, numbers: Operands) -> Result<(), AllocError>
    ensures { OnOk result (out.new.items ≡ out.old.items ++ spaced (numbers_in numbers)) }
{
    match numbers {
        Operands::None => Ok(()),
        Operands::One(first) => push_count(out, b" ", u64::from(first)),
        Operands::Two(first, second) => {
            push_count(out, b" ", u64::from(first))?;
            push_count(out, b" ", u64::from(second))
        }
        Operands::Three(first, second, third) => {
            push_count(out, b" ", u64::from(first))?;
            push_count(out, b" ", u64::from(second))?;
            push_count(out, b" ", u64::from(third))
        }
        Operands::Four(first, second, third, fourth) => {
            push_count(out, b" ", u64::from(first))?;
            push_count(out, b" ", u64::from(second))?;
            push_count(out, b" ", u64::from(third))?;
            push_count(out, b" ", u64::from(fourth))
        }
    }
}

/// Appends a line of a word and numbers.
fn push_words(out: &mut Vec<u8>, word: &[u8], numbers: Operands) -> Result<(), AllocError>
    ensures { OnOk result (out.new.items ≡ out.old.items ++ line (word.now ++ spaced (numbers_in numbers))) }
{
    out.extend_from_slice(word)?;
    push_numbers(out, numbers)?;
    out.extend_from_slice(b"\n")
}

/// Appends the format line of a trace.
fn push_format(version: Version, out: &mut Vec<u8>) -> Result<(), AllocError>
    ensures { OnOk result (out.new.items ≡ out.old.items ++ format_line version) }
{
    match version {
        Version::One => out.extend_from_slice(b"trace 1\n"),
        Version::Two => out.extend_from_slice(b"trace 2\n"),
    }
}

/// Appends the first two lines of a trace: its format and the number of nodes.
pub(crate) fn push_head(version: Version, out: &mut Vec<u8>, nodes: u32) -> Result<(), AllocError>
    ensures { OnOk result (out.new.items ≡ out.old.items ++ trace version nodes []) }
{
    push_format(version, out)?;
    push_words(out, b"nodes", Operands::One(nodes))
}

/// Returns the numbers in the line of a `send`.
fn sent_numbers(
    version: Version,
    from: NodeId,
    to: NodeId,
    message: MessageId,
    generation: Generation,
) -> Operands
    ensures { numbers_in result ≡ from.0 ∷ to.0 ∷ message.0 ∷ generation_number version generation }
{
    match version {
        Version::One => Operands::Three(from.0, to.0, message.0),
        Version::Two => Operands::Four(from.0, to.0, message.0, generation.0),
    }
}

/// Returns the numbers in the line of a `recv` or an `end`.
fn taken_numbers(
    version: Version,
    node: NodeId,
    message: MessageId,
    generation: Generation,
) -> Operands
    ensures { numbers_in result ≡ node.0 ∷ message.0 ∷ generation_number version generation }
{
    match version {
        Version::One => Operands::Two(node.0, message.0),
        Version::Two => Operands::Three(node.0, message.0, generation.0),
    }
}

/// Appends the line of a step.
fn push_step(version: Version, out: &mut Vec<u8>, step: Step) -> Result<(), AllocError>
    ensures { OnOk result (out.new.items ≡ out.old.items ++ step_line version step) }
{
    match step {
        Step::Insert(node, task, inputs) => {
            let inputs = u32::from(inputs.get());
            push_words(out, b"insert", Operands::Three(node.0, task.0, inputs))
        }
        Step::Supply(task) => push_words(out, b"supply", Operands::One(task.0)),
        Step::Begin(task) => push_words(out, b"begin", Operands::One(task.0)),
        Step::Done(task) => push_words(out, b"done", Operands::One(task.0)),
        Step::ActionOpen(node, action) => {
            push_words(out, b"open", Operands::Two(node.0, action.0))
        }
        Step::ActionClose(node, action) => {
            push_words(out, b"close", Operands::Two(node.0, action.0))
        }
        Step::Ready(node) => push_words(out, b"ready", Operands::One(node.0)),
        Step::Send(i, j, m, g) => push_words(out, b"send", sent_numbers(version, i, j, m, g)),
        Step::Recv(j, m, g) => push_words(out, b"recv", taken_numbers(version, j, m, g)),
        Step::MessageEnd(j, m, g) => push_words(out, b"end", taken_numbers(version, j, m, g)),
        Step::Start => push_words(out, b"start", Operands::None),
        Step::Down(node) => push_words(out, b"down", Operands::One(node.0)),
        Step::Give(node) => push_words(out, b"give", Operands::One(node.0)),
        Step::Up(node) => push_words(out, b"up", Operands::One(node.0)),
        Step::Judge => push_words(out, b"judge", Operands::None),
        Step::Reopen => push_words(out, b"reopen", Operands::None),
    }
}

/// Appends a line of a trace.
pub(crate) fn push_line(
    version: Version,
    out: &mut Vec<u8>,
    line: TraceLine,
) -> Result<(), AllocError>
    ensures { OnOk result (out.new.items ≡ out.old.items ++ trace_line version line) }
{
    match line {
        TraceLine::Plain(step) => push_step(version, out, step),
        TraceLine::Judged(None) => push_words(out, b"judge not", Operands::None),
        TraceLine::Judged(Some(wave)) => push_words(out, b"judge ended", Operands::One(wave)),
    }
}
