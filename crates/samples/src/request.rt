//! What the arguments ask for.

ghost use Rattle.std.specs.Prelude.{IfOk, MatchOption, ⊤};
ghost use Rattle.clap.specs.Words.{found_of, rows_of};
ghost use Rattle.tp_shell.specs.Command.{AreCountsIn};
ghost use Rattle.tp_work.specs.Outcomes.{IsWithinLimits};

use crate::command::{patterns_command, samples_command};
use clap::error::ErrorKind;
use clap::{ArgMatches, Error};
use std::alloc::Global;
use tp_shell::config_of;
use tp_work::Config;

/// What the arguments ask for, and how its pool runs.
#[derive(Clone, Copy)]
pub(crate) struct Request<'a> {
    pub(crate) work: Work<'a>,
    pub(crate) config: Config,
    /// Whether a terminal shows nothing but the result and faults.
    pub(crate) is_quiet: bool,
    /// The file for the profile.
    pub(crate) file: Option<&'a str>,
    /// How often to run, if the times are to be printed.
    pub(crate) runs: Option<u32>,
}

#[derive(Clone, Copy)]
pub(crate) enum Work<'a> {
    /// A run over what is read.
    Sample(Sample),
    /// A run of a grid of tasks.
    Pattern(PatternGrid<'a>),
    /// The names of the patterns.
    Names,
    /// A run of the sample pool that is specified.
    Pool(&'a str),
}

/// A run over what is read: `block` counts cells, `side` and `rows` count rows.
#[derive(Clone, Copy)]
pub(crate) enum Sample {
    Heat { steps: u64, block: u32 },
    Product { side: u32 },
    Relax { steps: u64, rows: u32 },
}

/// A grid of tasks: the name of its pattern, which may be none, and its numbers.
#[derive(Clone, Copy)]
pub(crate) struct PatternGrid<'a> {
    pub(crate) name: &'a str,
    pub(crate) width: u32,
    pub(crate) steps: u32,
    pub(crate) iterations: u64,
    pub(crate) radius: u32,
    pub(crate) seed: u32,
}

/// Returns what the arguments ask for. The first is the program's name.
pub(crate) fn requested<'a>(alloc: Global, arguments: &'a [&'a str]) -> Result<Request<'a>, Error>
    ensures { IfOk result (λ request. IsWithinLimits request.config) }
{
    let mut command = samples_command(alloc)?;
    let matches = command.try_get_matches_from_mut(arguments)?;
    let Some((name, matches)) = matches.subcommand() else {
        return Err(command.error(ErrorKind::MissingSubcommand, "a subcommand is required")?);
    };
    if let Some(work) = work_of(name, matches) {
        return Ok(request_of(work, matches));
    }
    // clap requires the arguments of all other subcommands.
    let mut command = patterns_command(alloc)?.bin_name("samples patterns")?;
    Err(command.error(
        ErrorKind::MissingRequiredArgument,
        "PATTERN, WIDTH, STEPS and ITERATIONS are required",
    )?)
}

/// Returns a request with the options that all subcommands share.
fn request_of<'a>(work: Work<'a>, matches: &ArgMatches<'a>) -> Request<'a>
    ensures limits { IsWithinLimits result.config }
    ensures asked { AreCountsIn (rows_of (found_of matches.now)) result.config.nodes result.config.workers }
{
    Request {
        work,
        config: config_of(matches),
        is_quiet: matches.get_flag("quiet"),
        file: matches.get_str("profile"),
        runs: matches.get_one("timing"),
    }
}

fn work_of<'a>(name: &str, matches: &ArgMatches<'a>) -> Option<Work<'a>> {
    match name {
        "heat" => Some(Work::Sample(Sample::Heat {
            steps: matches.get_one("STEPS")?,
            block: matches.get_one("BLOCK")?,
        })),
        "product" => Some(Work::Sample(Sample::Product {
            side: matches.get_one("SIDE")?,
        })),
        "relax" => Some(Work::Sample(Sample::Relax {
            steps: matches.get_one("STEPS")?,
            rows: matches.get_one("ROWS_A_BLOCK")?,
        })),
        "pool" => Some(Work::Pool(matches.get_str("SPEC")?)),
        _ if matches.get_flag("list") => Some(Work::Names),
        _ => Some(Work::Pattern(PatternGrid {
            name: matches.get_str("PATTERN")?,
            width: matches.get_one("WIDTH")?,
            steps: matches.get_one("STEPS")?,
            iterations: matches.get_one("ITERATIONS")?,
            radius: matches.get_one("radius")?,
            seed: matches.get_one("seed")?,
        })),
    }
}
