//! The command line: its options and help texts, and what its arguments ask for.

use crate::run::{Form, View};
use clap::builder::ValueParser;
use clap::error::ErrorKind;
use clap::{Arg, ArgAction, ArgMatches, Command, Error, value_parser};
use std::alloc::{AllocError, Global};
use tp_base::MAX_NODES;
use tp_shell::{count_of, count_option};

/// The least width of a picture, in pixels.
pub(crate) const MIN_PIXELS: u32 = 100;

/// The greatest width of a picture, in pixels.
pub(crate) const MAX_PIXELS: u32 = 20_000;

/// What the arguments ask for.
#[derive(Drop)]
pub(crate) enum Request<'a> {
    /// The run that a trace records.
    Run(View),
    /// The graph of a pool specification, on a number of nodes.
    Graph(&'a str, u32),
}

pub(crate) fn requested<'a>(alloc: Global, words: &'a [&'a str]) -> Result<Request<'a>, Error> {
    let mut command = draw_command(alloc)?;
    let matches = command.try_get_matches_from_mut(words)?;
    match request_of(&matches) {
        Some(request) => Ok(request),
        None => Err(command.error(ErrorKind::MissingSubcommand, "a subcommand is required")?),
    }
}

fn request_of<'a>(matches: &ArgMatches<'a>) -> Option<Request<'a>> {
    let (name, arguments) = matches.subcommand()?;
    match name {
        "run" => Some(Request::Run(View {
            form: match arguments.get_str("format")? {
                "events" => Form::Events,
                _ => Form::Picture(arguments.get_one::<u32>("width")),
            },
            until_fault: arguments.get_flag("until-fault"),
        })),
        "graph" => {
            let spec = arguments.get_str("SPEC")?;
            Some(Request::Graph(spec, count_of(arguments, "nodes", MAX_NODES)))
        }
        _ => None,
    }
}

/// The command line: one level of subcommands.
fn draw_command<'a>(alloc: Global) -> Result<Command<'a>, AllocError> {
    Command::new(alloc, "draw")
        .about("Draws runs of pools, and their task graphs")
        .after_help(DRAW_HELP)
        .subcommand_required(true)
        .subcommand(run_command(alloc)?)?
        .subcommand(graph_command(alloc)?)
}

fn run_command<'a>(alloc: Global) -> Result<Command<'a>, AllocError> {
    // (the name of its value is what is allowed, so that an error line for any other argument shows that)
    let format = Arg::new(alloc, "format")
        .long("format")
        .value_name("svg|events")
        .value_parser(ValueParser::Names(&FORMATS))
        .hide_possible_values(true)
        .default_value("svg")
        .help("A picture or events");
    let width = Arg::new(alloc, "width")
        .long("width")
        .value_name("PIXELS")
        .value_parser(value_parser!(u32).range(i64::from(MIN_PIXELS)..=i64::from(MAX_PIXELS)))
        .help("How wide the picture is, 100 to 20000 pixels");
    let until_fault = Arg::new(alloc, "until-fault")
        .long("until-fault")
        .action(ArgAction::SetTrue)
        .help("Draws an unsound trace up to its first fault");
    Command::new(alloc, "run")
        .about("Draws the run that a trace records")
        .after_help(RUN_HELP)
        .arg(format)?
        .arg(width)?
        .arg(until_fault)
}

fn graph_command<'a>(alloc: Global) -> Result<Command<'a>, AllocError> {
    let spec = Arg::new(alloc, "SPEC").required(true).help(
        "The pool, such as product:4:2:0, wavefront:8:8:0 or reduce:16:0",
    );
    let nodes = count_option(alloc, "nodes", "1-8", MAX_NODES).help("N, how many nodes there are");
    Command::new(alloc, "graph")
        .about("Writes the task graph of a pool as text for Graphviz")
        .after_help(GRAPH_HELP)
        .arg(spec)?
        .arg(nodes)
}

static FORMATS: [&str; 2] = ["svg", "events"];

static DRAW_HELP: &str = "Draw a run:
  tp run wavefront:4:4:0 --nodes 2 --trace | samples draw run > run.svg
  tp run reduce:16:0 --trace | samples draw run --format events > run.json

Draw a graph:
  samples draw graph wavefront:4:4:0 --nodes 2 | dot -Tsvg > graph.svg

Each subcommand has its own --help.";

static RUN_HELP: &str =
    "The trace is read from standard input; `tp audit --help` describes its lines.
The picture has a lane for each node, and counts events from left to right.
  bar             a task, from its `begin` to its `done`
  tinted, white   a lane is white while nothing is pending at its node
  arrow           a message, from its `send` to its `recv`
  line            a wave, through the place at which each node gave its sums;
                  the wave's sums are above, and the two that prove termination
                  are green
  dashed line     the pool was reopened
Above 2,500 events hills show how many tasks run, and ribbons the messages. A
pointer over a task, a message or a wave shows its numbers. A viewer that
prefers dark colours shows the picture in dark ones.

--format events writes Chrome's trace events, as JSON, for viewers of timelines
such as ui.perfetto.dev: a process for each node, in it a thread for each task
that runs at the same time, messages as flows, waves and judgements as instants,
and a counter of what is pending. A trace has no times, so event n is at n
microseconds. --width then has no effect.

The exit status is
  0  if all was written;
  1  if the arguments are wrong, the trace cannot be read or is longer than
     33,554,432 bytes, or the output cannot be written;
  2  if the trace is not sound: the line of `tp audit` is printed on standard
     error, and nothing is drawn. With --until-fault, what is before the first
     wrong line is drawn all the same;
  3  if an allocation fails.";

static GRAPH_HELP: &str =
    "SPEC names a pool as in `tp run --help`. The text is for Graphviz, whose program
`dot` draws it: a frame for each node, in it a circle for each of its tasks, in
the node's colour, and an arrow for each value that one task feeds to another.

Examples:
  samples draw graph reduce:16:0 --nodes 4 | dot -Tpng > graph.png
  samples draw graph wavefront:4:4:0 --nodes 2 | dot -Tsvg > graph.svg

The exit status is
  0  if the text was written;
  1  if the arguments are wrong or the output cannot be written. A SPEC that
     names no pool is `refused 26 BadSpec`, and a pool of more than 2,000 tasks
     is `fault too large`;
  3  if an allocation fails.
It is never 2.";
