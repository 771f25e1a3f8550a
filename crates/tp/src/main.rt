//! The program `tp`: it connects the command line to the process, its standard streams and the terminal.
#![tactic(auto)]

use std::cell::Cell;
use std::io::{ErrorKind, Write};
use std::process::ExitCode;
use tp_cli::{main_at_terminal, main_with};
use tp_shell::{
    Input, Messages, Output, arguments, asks_version, explain_failure, is_quiet, without_words,
    words_of,
};
use tp_work::Screen;

/// The exit status is that of `main_with` if the environment asks for exact lines alone, and else that of
/// `main_at_terminal`, which also prints reasons. If the arguments cannot be read because an allocation fails or one of
/// them is not UTF-8, an error line says so.
fn main(rt: HostRuntime) -> ExitCode {
    let (alloc, unread, unwritten) = (rt.alloc(), Cell::new(None), Cell::new(None));
    let mut reader = Input {
        reader: rt.stdin(),
        failure: &unread,
    };
    let mut out = Output {
        writer: rt.stdout(),
        failure: &unwritten,
    };
    let mut err = Messages {
        writer: rt.stderr(),
        failure: &unwritten,
    };
    let arguments = match arguments(&rt) {
        Ok(arguments) => arguments,
        Err(fault) => return complain(fault, &mut err),
    };
    let words = match words_of(alloc, &arguments) {
        Ok(words) => words,
        Err(_) => return complain(ErrorKind::OutOfMemory, &mut err),
    };
    let (explains, version) = (!is_quiet(&rt), ["tp", "--version"]);
    let status = if asks_version(&words) {
        main_with(&rt, alloc, &version, &mut reader, &mut out, &mut err)
    } else if explains {
        let mut screen = Screen::of(&rt.stdin(), rt.stderr());
        if let Some(screen) = &mut screen {
            tell_what_is_read(screen, &words);
        }
        main_at_terminal(&rt, alloc, &words, &mut reader, &mut out, &mut err, screen)
    } else {
        main_with(&rt, alloc, &words, &mut reader, &mut out, &mut err)
    };
    if explains {
        explain_failure("tp", "standard input", &unread, &mut err);
        explain_failure("tp", "standard output", &unwritten, &mut err);
    }
    ExitCode::from(status)
}

/// Prints why the arguments could not be read.
fn complain<E: Write>(fault: ErrorKind, err: &mut E) -> ExitCode {
    let (complaint, status) = without_words(fault);
    let _ = err.write_all(complaint.as_bytes());
    ExitCode::from(status)
}

/// Prints that a script or a trace is read from standard input, if it is typed there and the arguments are those of
/// `sim` or `audit` alone.
fn tell_what_is_read<W: Write>(screen: &mut Screen<W>, words: &[&str]) {
    match words {
        [_, "sim"] => screen.invite("reads standard input: tp sim < FILE\n"),
        [_, "audit"] => screen.invite("reads standard input: tp audit < FILE\n"),
        _ => {}
    }
}
