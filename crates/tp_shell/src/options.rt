//! The options of a pool: its numbers of nodes and workers.
ghost use Rattle.clap.specs.{Words.{app_of, found_of, one_text, rows_of, rule_of}, declared.builder.command.Command.TheViews.out-Command};
ghost use Rattle.std.specs.{Prelude.{◌≡◌, ◌≤◌, IfOk, List, Some, ℕ, false}, Str.Parse.{IsNumeral, digits_value, without_leading_plus}};
ghost use Rattle.tp_shell.specs.Command.{AreCountsIn, count_rule, with_count_rules};
ghost use Rattle.tp_work.specs.Outcomes.{IsWithinLimits};

use clap::{Arg, ArgMatches, Command, value_parser};
use std::alloc::{AllocError, Global};
use tp_base::{MAX_NODES, MAX_WORKERS};
use tp_work::Config;

/// The version of the programs.
pub static VERSION: &str = "0.1.0";

/// Returns the command with the options for the numbers of nodes and workers. Refused if an allocation fails.
pub fn with_counts<'a>(alloc: Global, command: Command<'a>) -> Result<Command<'a>, AllocError>
    ensures app { IfOk result (λ counted. app_of counted ≡ with_count_rules (app_of command.entry)) }
    ensures local { (out-Command command.entry).has_globals ≡ false → IfOk result (λ counted. (out-Command counted).has_globals ≡ false) }
{
    let nodes = count_option(alloc, "nodes", "1-8", MAX_NODES).help("N, how many nodes there are");
    let workers = count_option(alloc, "workers", "1-8", MAX_WORKERS).help(
        "W, how many threads work at each node",
    );
    command.arg(nodes)?.arg(workers)
}

/// Returns an option that takes a number from 1 to `most`. The name of its value is that range, so that an error line
/// for any other argument shows what is allowed.
pub fn count_option<'a>(alloc: Global, name: &'a str, range: &'a str, most: u32) -> Arg<'a>
    ensures rule { rule_of result ≡ count_rule name.entry.now most }
    ensures local { result.global ≡ false }
{
    Arg::new(alloc, name)
        .long(name)
        .value_name(range)
        .value_parser(value_parser!(u32).range(1..=i64::from(most)))
        .default_value("1")
}

/// Returns how pools run: with the numbers of nodes and workers of the arguments, and the default limit of idle turns
/// of [`Config::new`].
pub fn config_of(matches: &ArgMatches) -> Config
    ensures limits { IsWithinLimits result }
    ensures asked { AreCountsIn (rows_of (found_of matches.now)) result.nodes result.workers }
    ensures patient { result.idle_turns ≡ 100000000 }
{
    let nodes = count_of(matches, "nodes", MAX_NODES);
    let workers = count_of(matches, "workers", MAX_WORKERS);
    Config::new(nodes, workers)
}

/// Returns the value of an option that takes a number from 1 to `most`. The parser has refused all others.
pub fn count_of(matches: &ArgMatches, id: &str, most: u32) -> u32
    requires { 1 ≤ most }
    ensures range { (1 ≤ result) × (result ≤ most) }
    // If the option's text is a number in that range, it is that number.
    ensures asked { (t : List ℕ) → one_text (found_of matches.now) id.now ≡ Some t → IsNumeral 10 (without_leading_plus t)
        → 1 ≤ digits_value 10 (without_leading_plus t) → digits_value 10 (without_leading_plus t) ≤ most
        → result ≡ digits_value 10 (without_leading_plus t) }
{
    matches.get_one::<u32>(id).unwrap_or(1).clamp(1, most)
}
