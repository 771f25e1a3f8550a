//! The command line: a subcommand for each sample.

use crate::help::{HEAT_HELP, PATTERNS_HELP, POOL_HELP, PRODUCT_HELP, RELAX_HELP, SAMPLES_HELP};
use clap::{Arg, ArgAction, Command, value_parser};
use std::alloc::{AllocError, Global};
use tp_shell::{VERSION, with_counts};

/// Returns the program's command line.
pub(crate) fn samples_command<'a>(alloc: Global) -> Result<Command<'a>, AllocError> {
    // `draw` reads its own arguments: here it only has a line of the help.
    let draw = Command::new(alloc, "draw").about("Draws runs of pools, and their task graphs");
    Command::new(alloc, "samples")
        .bin_name("samples")?
        .version(VERSION)
        .about("Sample pools: computations over input data, grids of tasks, and pictures of runs")
        .after_help(SAMPLES_HELP)
        .subcommand_required(true)
        .subcommand(heat_command(alloc)?)?
        .subcommand(product_command(alloc)?)?
        .subcommand(relax_command(alloc)?)?
        .subcommand(patterns_command(alloc)?)?
        .subcommand(pool_command(alloc)?)?
        .subcommand(draw)
}

fn heat_command<'a>(alloc: Global) -> Result<Command<'a>, AllocError> {
    let command = Command::new(alloc, "heat")
        .about("Computes the heat in a rod of cells, in blocks, by a pool of threads")
        .after_help(HEAT_HELP)
        .arg(steps_argument(alloc, "How many steps the rod takes"))?
        .arg(size_argument(alloc, "BLOCK", "How many cells a block has, 1 or more"))?;
    with_shown(alloc, command)
}

fn product_command<'a>(alloc: Global) -> Result<Command<'a>, AllocError> {
    let help = "How many rows and columns a tile has, 1 or more";
    let command = Command::new(alloc, "product")
        .about("Computes the product of two matrices, in tiles, by a pool of threads")
        .after_help(PRODUCT_HELP)
        .arg(size_argument(alloc, "SIDE", help))?;
    with_shown(alloc, command)
}

fn relax_command<'a>(alloc: Global) -> Result<Command<'a>, AllocError> {
    let help = "How many rows a block has, 1 or more";
    let command = Command::new(alloc, "relax")
        .about("Relaxes a grid by a five-point stencil, by a pool of threads")
        .after_help(RELAX_HELP)
        .arg(steps_argument(alloc, "How many steps the grid takes"))?
        .arg(size_argument(alloc, "ROWS_A_BLOCK", help))?;
    with_shown(alloc, command)
}

/// Returns the command line of `patterns`. Its arguments are not required with `--list`.
pub(crate) fn patterns_command<'a>(alloc: Global) -> Result<Command<'a>, AllocError> {
    let pattern = Arg::new(alloc, "PATTERN").help(
        "The pattern's name; `samples patterns --list` lists all",
    );
    let width = size_argument(alloc, "WIDTH", "How many columns a row has, 1 or more");
    let steps = size_argument(alloc, "STEPS", "How many rows there are, 1 or more");
    let iterations = Arg::new(alloc, "ITERATIONS")
        .value_parser(value_parser!(u64))
        .help("How many times each task runs the kernel");
    let list = Arg::new(alloc, "list")
        .long("list")
        .action(ArgAction::SetTrue)
        .help("Lists the patterns, and which columns feed a column");
    let radius = option(alloc, "radius", "K", "1").help("K of nearest and random_nearest");
    let seed = option(alloc, "seed", "S", "0").help("The seed of spread and random_nearest");
    let command = Command::new(alloc, "patterns")
        .about("Runs one of Task Bench's grids of tasks, by a pool of threads")
        .after_help(PATTERNS_HELP)
        .arg(pattern)?
        .arg(width.required(false))?
        .arg(steps.required(false))?
        .arg(iterations)?
        .arg(list)?
        .arg(radius)?
        .arg(seed)?;
    with_shown(alloc, command)
}

fn pool_command<'a>(alloc: Global) -> Result<Command<'a>, AllocError> {
    let spec = Arg::new(alloc, "SPEC").required(true).help(
        "The sample pool, as `tp run` takes it, for example product:64:4:0",
    );
    let command = Command::new(alloc, "pool")
        .about("Runs a sample pool of `tp run`, once or several times")
        .after_help(POOL_HELP)
        .arg(spec)?;
    with_shown(alloc, command)
}

/// Returns the command with the options of a run.
fn with_shown<'a>(alloc: Global, command: Command<'a>) -> Result<Command<'a>, AllocError> {
    with_counts(alloc, command)?
        .arg(quiet_flag(alloc))?
        .arg(timing_option(alloc).conflicts_with("profile")?)?
        .arg(profile_option(alloc))
}

fn steps_argument<'a>(alloc: Global, help: &'a str) -> Arg<'a> {
    Arg::new(alloc, "STEPS")
        .required(true)
        .value_parser(value_parser!(u64))
        .help(help)
}

/// Returns an argument that takes a number of 32 bits, 1 or more.
fn size_argument<'a>(alloc: Global, name: &'a str, help: &'a str) -> Arg<'a> {
    Arg::new(alloc, name)
        .required(true)
        .value_parser(value_parser!(u32).range(1..))
        .help(help)
}

/// Returns an option that takes a number of 32 bits.
fn option<'a>(alloc: Global, name: &'a str, value: &'a str, default: &'a str) -> Arg<'a> {
    Arg::new(alloc, name)
        .long(name)
        .value_name(value)
        .value_parser(value_parser!(u32))
        .default_value(default)
}

fn quiet_flag<'a>(alloc: Global) -> Arg<'a> {
    Arg::new(alloc, "quiet")
        .long("quiet")
        .action(ArgAction::SetTrue)
        .help("Shows no prompt and no progress on a terminal")
}

fn timing_option<'a>(alloc: Global) -> Arg<'a> {
    Arg::new(alloc, "timing")
        .long("timing")
        .value_name("RUNS")
        .value_parser(value_parser!(u32).range(1..))
        .help("Runs so often, and prints the nanoseconds of each run")
}

fn profile_option<'a>(alloc: Global) -> Arg<'a> {
    Arg::new(alloc, "profile")
        .long("profile")
        .value_name("FILE")
        .help("Writes when each task ran, as trace events")
}
