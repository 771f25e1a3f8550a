//! A program that prints one text: what its arguments ask for, and how it ends.
ghost use Rattle.clap.specs.Values.{kind_of};
ghost use Rattle.std.specs.Prelude.{◌≡◌, ◌≤◌, IfErr, IfOk, MatchResult};
ghost use Rattle.tp_shell.specs.{Endings.{EndsBy, IsEndingOf, IsOfArguments}, declared.program.Ending.TheVariants.{Memory}};
ghost use Rattle.tp_work.specs.Outcomes.{IsWithinLimits};

use crate::diagnostics::Diagnostics;
use crate::environment::{arguments, is_quiet, words_of};
use crate::options::{VERSION, config_of, with_counts};
use crate::process::{Messages, explain_failure};
use crate::status::Status;
use crate::streams::write_text;
use crate::words::names_a_file;
use clap::error::ErrorKind;
use clap::{Command, Error};
use std::alloc::{AllocError, Global};
use std::cell::Cell;
use std::env::Env;
use std::io::{self, Write};
use tp_work::Config;

const UNREAD: (&str, &str) = ("standard input", "the input cannot be read as text\n");

const UNWRITTEN: (&str, &str) = ("standard output", "the output cannot be written\n");

/// Why a program does not print the text that it computes.
#[derive(Drop)]
pub enum Ending {
    /// Help or the version is printed, and the program is done.
    Shown(String),
    /// These lines are printed on standard error, and the program ends with this status.
    ErrorLine(Status, String),
    /// Standard input could not be read.
    Unread(io::Error),
    /// An allocation failed.
    Memory,
}

impl From<AllocError> for Ending {
    ghost from_gives = { λ _ ending. ending ≡ Memory };

    fn from(_error: AllocError) -> Ending {
        Ending::Memory
    }
}

impl From<io::Error> for Ending {
    fn from(error: io::Error) -> Ending {
        match error.kind() {
            io::ErrorKind::OutOfMemory => Ending::Memory,
            _ => Ending::Unread(error),
        }
    }
}

/// Returns the numbers of nodes and workers that the arguments of a program ask for, or how it ends without them. A
/// program that does not read standard input has no arguments except `--help` and `--version`, and gets 1 and 1.
pub fn begin<R: Env + AllocGlobal>(
    rt: &R,
    name: &str,
    about: &str,
    reads: bool,
) -> Result<Config, Ending>
    ensures limits { IfOk result IsWithinLimits }
    ensures ended { IfErr result IsOfArguments }
{
    let alloc = rt.alloc();
    let arguments = match arguments(rt) {
        Ok(arguments) => arguments,
        Err(io::ErrorKind::OutOfMemory) => return Err(Ending::Memory),
        Err(_) => {
            let line = String::from_str(alloc, "the arguments are not UTF-8\n")?;
            return Err(Ending::ErrorLine(Status::Fault, line));
        }
    };
    let words = words_of(alloc, &arguments)?;
    let mut command = Command::new(alloc, name)
        .bin_name(name)?
        .version(VERSION)
        .about(about);
    if reads {
        command = with_counts(alloc, command)?;
    }
    let explained = reads && !is_quiet(rt);
    match command.try_get_matches_from(&words) {
        Ok(matches) => Ok(config_of(&matches)),
        Err(error) => Err(ending_of(alloc, &error, name, explained)),
    }
}

/// Returns how a program ends whose arguments are at fault, or ask for help or the version. For the name of a file, the
/// reason may be added.
fn ending_of(alloc: Global, error: &Error, name: &str, explained: bool) -> Ending
    ensures kind { IsEndingOf (kind_of error.now) result }
    ensures ended { IsOfArguments result }
{
    let Ok(mut text) = format!(in alloc; "{error}") else {
        return Ending::Memory;
    };
    if explained && names_a_file(&text) {
        match format!(in alloc; "{text}reason: reads standard input: {name} < FILE\n") {
            Ok(lines) => text = lines,
            Err(_) => return Ending::Memory,
        }
    }
    match error.kind() {
        ErrorKind::OutOfMemory => Ending::Memory,
        ErrorKind::DisplayHelp | ErrorKind::DisplayVersion => Ending::Shown(text),
        _ => Ending::ErrorLine(Status::Fault, text),
    }
}

/// Prints the text of a program, or why there is none, and returns the exit status. Unless the environment asks for
/// exact lines alone, a second line says why a stream could not be read or written.
pub fn end<R: Env + AllocGlobal, O: Write + Drop, E: Write + Drop>(
    rt: &R,
    name: &str,
    outcome: &Result<String, Ending>,
    mut out: O,
    err: E,
) -> u8
    ensures { MatchResult outcome.now (λ _. result ≤ 1) (λ ending. EndsBy ending result) }
{
    let failure = Cell::new(None);
    let mut err = Messages {
        writer: err,
        failure: &failure,
    };
    let ((stream, line), error) = match outcome {
        Ok(text) | Err(Ending::Shown(text)) => match write_text(&mut out, text.as_bytes()) {
            Ok(()) => return 0,
            Err(error) => (UNWRITTEN, error),
        },
        Err(Ending::ErrorLine(status, lines)) => {
            err.tell(lines);
            return status.code();
        }
        Err(Ending::Unread(error)) => (UNREAD, *error),
        Err(Ending::Memory) => {
            err.tell("there is no memory\n");
            return Status::Failed.code();
        }
    };
    failure.set(Some(error));
    err.tell(line);
    if !is_quiet(rt) {
        explain_failure(name, stream, &failure, &mut err);
    }
    Status::Fault.code()
}
