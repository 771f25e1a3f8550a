//! The program `samples`: pools of threads over data that it reads, grids of tasks by pattern, sample pools,
//! pictures of runs, and graphs as text.
#![tactic(auto)]

mod command;
mod fault;
mod help;
mod lines;
mod matrices;
mod patterns;
mod pools;
mod request;
mod runs;
mod shell;
mod tiles;
mod times;
mod watched;

use crate::fault::{Fault, status_of};
use crate::shell::answer;
use std::alloc::{AllocError, Global};
use std::cell::Cell;
use std::io::{ErrorKind, IsTerminal, Read, Write};
use std::process::ExitCode;
use tp_draw::draw_with;
use tp_shell::{
    Input, Messages, Output, arguments, asks_version, explain_failure, is_quiet, words_of,
};
use tp_work::Screen;

/// Runs the subcommand that the arguments name. If the environment does not ask for silence, standard error also shows
/// why something is wrong, and on a terminal how far a run is.
fn main(rt: HostRuntime) -> ExitCode {
    let (alloc, unread, unwritten) = (rt.alloc(), Cell::new(None), Cell::new(None));
    let explains = !is_quiet(&rt);
    let mut input = Input {
        reader: rt.stdin(),
        failure: &unread,
    };
    let mut out = Output {
        writer: rt.stdout(),
        failure: &unwritten,
    };
    let mut err = Messages {
        writer: rt.stderr(),
        failure: &unwritten,
    };
    let arguments = match arguments(&rt) {
        Ok(arguments) => arguments,
        Err(kind) => return ExitCode::from(status_of(&Err(without_arguments(kind)), &mut err)),
    };
    let words = match words_of(alloc, &arguments) {
        Ok(words) => words,
        Err(error) => return ExitCode::from(status_of(&Err(Fault::Memory(error)), &mut err)),
    };
    let version = ["samples", "--version"];
    let mut screen = screen_of(&rt.stdin(), rt.stderr(), explains);
    let status = if asks_version(&words) {
        let outcome = answer(&rt, alloc, &version, &mut input, &mut out, screen);
        told(outcome, &version, &mut err, explains)
    } else if let Some((help, rest)) = draw_words(&words) {
        if let Some(screen) = &mut screen {
            tell_what_is_read(screen, help, rest);
        }
        draw(alloc, help, rest, &mut input, &mut out, &mut err, explains)
    } else {
        let outcome = answer(&rt, alloc, &words, &mut input, &mut out, screen);
        told(outcome, &words, &mut err, explains)
    };
    if explains {
        explain_failure("samples", "standard input", &unread, &mut err);
        explain_failure("samples", "standard output", &unwritten, &mut err);
    }
    ExitCode::from(status)
}

/// Returns the terminal on which a run shows how far it is, unless the environment asks for silence.
fn screen_of<I: IsTerminal, W: Write + IsTerminal + Drop>(
    input: &I,
    writer: W,
    explains: bool,
) -> Option<Screen<W>> {
    if explains {
        Screen::of(input, writer)
    } else {
        None
    }
}

/// Returns whether the help of `samples draw` is asked for by `help draw`, and the arguments after `draw`, if the
/// arguments are those of `draw`.
fn draw_words<'a, 'b>(words: &'b [&'a str]) -> Option<(bool, &'b [&'a str])> {
    match words {
        [_, "draw", rest @ ..] => Some((false, rest)),
        [_, "help", "draw", rest @ ..] => Some((true, rest)),
        _ => None,
    }
}

/// Prints that a trace is read from standard input, if it is typed there and no help is asked for.
fn tell_what_is_read<W: Write>(screen: &mut Screen<W>, help: bool, rest: &[&str]) {
    if let ["run", options @ ..] = rest {
        if !help && !options.iter().any(|word| matches!(*word, "--help" | "-h")) {
            screen.invite(
                "Reading a trace from standard input up to Ctrl-D: samples draw run < FILE\n",
            );
        }
    }
}

/// Returns the exit status of an outcome, and prints a fault as a line, and then why, if that is asked for.
fn told<E: Write>(outcome: Result<(), Fault>, words: &[&str], err: &mut E, explains: bool) -> u8 {
    let status = status_of(&outcome, err);
    match &outcome {
        Err(fault) if explains => fault.explain(words, err),
        _ => {}
    }
    status
}

/// Returns why there are no arguments: an allocation failed, or one of them is not UTF-8.
fn without_arguments(kind: ErrorKind) -> Fault {
    match kind {
        ErrorKind::OutOfMemory => Fault::Memory(AllocError),
        _ => Fault::NotUtf8,
    }
}

/// Runs `samples draw` with its own arguments, or shows their help, and returns the exit status.
fn draw<I: Read, O: Write, E: Write>(
    alloc: Global,
    help: bool,
    arguments: &[&str],
    input: &mut I,
    out: &mut O,
    err: &mut E,
    explains: bool,
) -> u8 {
    match with_name(alloc, help, arguments) {
        Ok(words) => draw_with(alloc, &words, input, out, err, explains),
        Err(error) => status_of(&Err(Fault::Memory(error)), err),
    }
}

/// Returns the arguments, after the name that usage lines show.
fn with_name<'a>(
    alloc: Global,
    help: bool,
    arguments: &[&'a str],
) -> Result<Vec<&'a str>, AllocError> {
    let mut words = Vec::new(alloc);
    words.push("samples draw")?;
    if help {
        words.push("help")?;
    }
    words.extend_from_slice(arguments)?;
    Ok(words)
}
