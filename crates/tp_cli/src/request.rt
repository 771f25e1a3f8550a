//! From arguments to a request.
ghost use Rattle.clap.specs.{Values.kind_of, Words.{all_of, first_value, found_of, rows_of, subcommand_rows_of}};
ghost use Rattle.clap.specs.declared.error.kind.ErrorKind.TheVariants.{MissingSubcommand};
ghost use Rattle.std.specs.Prelude.{◌≡◌, Some, None, IfErr, IfOk, MatchOption, codes, map};
ghost use Rattle.tp_cli.specs.{Asked.{IsAskedBy, IsRequestOf}, Command.{IsFormOf, IsNeither, asked, tp_app}, Runs.IsPlan};
ghost use Rattle.tp_shell.specs.Command.{AreCountsIn, FailsAs, IsCount};

use crate::command::{MAX_GENERATIONS, tp_command};
use crate::run::{Form, Plan};
use crate::text::TextKind;
use clap::error::ErrorKind;
use clap::{ArgMatches, Error};
use std::alloc::{AllocError, Global};
use tp_shell::{config_of, count_of};
use tp_work::Config;

/// What the arguments ask for.
#[derive(Drop)]
pub(crate) enum Request<'a> {
    /// The reply to a script or a trace.
    Answer(TextKind),
    /// A run of the pool that a specification names, and the file for its profile.
    Run(&'a str, Plan, Option<&'a str>),
    /// Runs, all at once, of the pools that specifications name.
    Pools(Vec<&'a str>, Config),
}

/// Returns the request that the arguments make.
pub(crate) fn requested<'a>(alloc: Global, words: &'a [&'a str]) -> Result<Request<'a>, Error>
    ensures asked { IfOk result (IsAskedBy (map (λ w. w.now) words.entry.now)) }
    ensures why { IfErr result (λ error.
        FailsAs tp_app MissingSubcommand (IsNeither (asked (map (λ w. w.now) words.entry.now))) (map (λ w. w.now) words.entry.now)
        (kind_of error)) }
{
    let mut command = tp_command(alloc)?;
    let matches = command.try_get_matches_from_mut(words)?;
    match asked(alloc, &matches)? {
        Some(request) => Ok(request),
        None => Err(command.error(ErrorKind::MissingSubcommand, "a subcommand is required")?),
    }
}

/// Returns the request that the matches make.
fn asked<'a>(alloc: Global, matches: &ArgMatches<'a>) -> Result<Option<Request<'a>>, AllocError>
    ensures { IfOk result (λ request.
        MatchOption request (IsNeither (subcommand_rows_of matches.now)) (IsRequestOf (subcommand_rows_of matches.now))) }
{
    match matches.subcommand() {
        Some((name, arguments)) => asked_of(alloc, name, arguments),
        None => Ok(None),
    }
}

/// Returns the request that a subcommand makes with its arguments.
fn asked_of<'a>(
    alloc: Global,
    name: &str,
    arguments: &ArgMatches<'a>,
) -> Result<Option<Request<'a>>, AllocError>
    ensures { IfOk result (λ request. MatchOption request
        (IsNeither (Some (name.now, rows_of (found_of arguments.now)))) (IsRequestOf (Some (name.now, rows_of (found_of arguments.now))))) }
{
    match name {
        "sim" => Ok(Some(Request::Answer(TextKind::Script))),
        "audit" => Ok(Some(Request::Answer(TextKind::Trace))),
        "run" => Ok(run_asked(arguments)),
        "pools" => pools_asked(alloc, arguments),
        _ => Ok(None),
    }
}

/// Returns the run that the arguments of `run` ask for.
fn run_asked<'a>(arguments: &ArgMatches<'a>) -> Option<Request<'a>>
    ensures { MatchOption result (first_value (found_of arguments.now) (codes "SPEC") ≡ None)
        (IsRequestOf (Some (codes "run", rows_of (found_of arguments.now)))) }
{
    let spec = arguments.get_str("SPEC")?;
    let file = arguments.get_str("profile");
    Some(Request::Run(spec, plan_of(arguments), file))
}

/// Returns the runs that the arguments of `pools` ask for.
fn pools_asked<'a>(
    alloc: Global,
    arguments: &ArgMatches<'a>,
) -> Result<Option<Request<'a>>, AllocError>
    ensures { IfOk result (λ request. MatchOption request (all_of (codes "SPEC") (rows_of (found_of arguments.now)) ≡ None)
        (IsRequestOf (Some (codes "pools", rows_of (found_of arguments.now))))) }
{
    let Some(words) = arguments.get_strs("SPEC") else {
        return Ok(None);
    };
    let words = words.to_vec(alloc)?;
    Ok(Some(Request::Pools(words, config_of(arguments))))
}

/// Returns how the pool is run, and what is printed of it.
fn plan_of(arguments: &ArgMatches) -> Plan
    ensures lawful { IsPlan result }
    ensures patient { result.config.idle_turns ≡ 100000000 }
    ensures counts { AreCountsIn (rows_of (found_of arguments.now)) result.config.nodes result.config.workers }
    ensures generations { IsCount MAX_GENERATIONS (codes "generations") (rows_of (found_of arguments.now)) result.generations }
    ensures form { IsFormOf (rows_of (found_of arguments.now)) result.form }
{
    Plan {
        config: config_of(arguments),
        generations: count_of(arguments, "generations", MAX_GENERATIONS),
        form: form_of(arguments),
    }
}

/// Returns what is printed of a run: its trace if the flag is set, and else its table.
fn form_of(arguments: &ArgMatches) -> Form
    ensures { IsFormOf (rows_of (found_of arguments.now)) result }
{
    if arguments.get_flag("trace") {
        Form::Trace
    } else {
        Form::Table
    }
}
