//! The reasons that are printed after an error line. They are proved safe and total; their texts are tested.
ghost use Rattle.tp_shell.specs.Streams.{MayExplain};

mod line;
mod pending;

use crate::fault::Fault;
use crate::kept::AnsweredText;
use crate::text::TextKind;
use line::explain_text;
use std::alloc::Global;
use tp_base::Refusal;
use tp_shell::{Diagnostics, WordsFault, explain_spec, explain_specs, names_a_file};

/// What a reason is about.
#[derive(Drop)]
pub(crate) enum Subject<'a> {
    /// Nothing that has a reason.
    Nothing,
    /// The arguments, which make no request.
    Arguments(&'a [&'a str]),
    /// The specification of a run, and the line that says why the file of its profile was not written.
    Run(&'a str, Option<String>),
    /// The specifications of several pools.
    Words(Vec<&'a str>),
    /// A script or a trace.
    Text(TextKind, AnsweredText),
}

/// Prints why a script or a trace was refused, if it has a reason.
pub(crate) fn explain<E: Diagnostics>(alloc: Global, subject: &Subject, err: &mut E)
    ensures { MayExplain E.tells err.old err.new }
{
    if let Subject::Text(kind, answered) = subject {
        explain_text(alloc, *kind, &answered.text, &answered.answer, err);
    }
}

/// Prints the reason of a fault, if it has one.
pub(crate) fn explain_fault<E: Diagnostics>(fault: &Fault, subject: &Subject, err: &mut E)
    ensures { MayExplain E.tells err.old err.new }
{
    match subject {
        Subject::Arguments(words) => explain_arguments(fault, words, err),
        Subject::Run(spec, reason) => explain_run(fault, spec, reason.as_deref(), err),
        Subject::Words(words) => explain_specs(words, err),
        Subject::Nothing | Subject::Text(_, _) => {}
    }
}

/// Prints that a text is read from standard input, if the name of a file is an argument of `sim` or `audit`.
fn explain_arguments<E: Diagnostics>(fault: &Fault, words: &[&str], err: &mut E)
    ensures { MayExplain E.tells err.old err.new }
{
    match (fault, words) {
        (Fault::Words(WordsFault::Words(message)), [_, name, ..]) if names_a_file(message) => {
            if matches!(*name, "sim" | "audit") {
                err.tell_parts(&["reason: reads standard input: tp ", name, " < FILE\n"]);
            }
        }
        _ => {}
    }
}

/// Prints why a pool was not run, or its profile was not written.
fn explain_run<E: Diagnostics>(fault: &Fault, spec: &str, reason: Option<&str>, err: &mut E)
    ensures { MayExplain E.tells err.old err.new }
{
    if let Some(reason) = reason {
        return err.tell(reason);
    }
    match fault {
        Fault::NoPool => explain_spec(spec, err),
        Fault::Run(fault) => {
            if let Some(reason) = run_reason(fault.refusal()) {
                err.tell(reason);
            }
        }
        _ => {}
    }
}

/// Returns the line that says why a run was refused, if there is more to say.
fn run_reason(refusal: Refusal) -> Option<&'static str> {
    match refusal {
        Refusal::HistoryFull(_) => Some(
            "reason: the run takes more than 1,048,576 events, which `tp run --help` counts\n",
        ),
        Refusal::StoreFull => Some(
            "reason: a node has room for 65,536 unfinished tasks: use --nodes\n",
        ),
        _ => None,
    }
}
