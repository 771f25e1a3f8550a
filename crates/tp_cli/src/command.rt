//! The command line of the program.
ghost use Rattle.clap.specs.{Words.{app_of, rule_of}, declared.builder.command.Command.TheViews.out-Command};
ghost use Rattle.std.specs.Prelude.{◌≡◌, IfOk, codes, false};
ghost use Rattle.tp_cli.specs.Command.{audit_app, pools_app, profile_rule, run_app, sim_app, spec_rule, texts_app, tp_app, trace_rule};
ghost use Rattle.tp_shell.specs.Command.{count_rule};

use clap::{Arg, ArgAction, Command};
use std::alloc::{AllocError, Global};
use tp_shell::{VERSION, count_option, with_counts};

/// The most generations of a pool.
pub(crate) const MAX_GENERATIONS: u32 = 9;

/// Returns the command line: one level of subcommands.
pub(crate) fn tp_command<'a>(alloc: Global) -> Result<Command<'a>, AllocError>
    ensures { IfOk result (λ command. app_of command ≡ tp_app) }
{
    text_commands(alloc)?
        .subcommand(run_command(alloc)?)?
        .subcommand(pools_command(alloc)?)
}

/// Returns the part of the command line that reads texts.
fn text_commands<'a>(alloc: Global) -> Result<Command<'a>, AllocError>
    ensures { IfOk result (λ command. app_of command ≡ texts_app) }
{
    Command::new(alloc, "tp")
        .version(VERSION)
        .about("Runs task pools on several nodes, detects their termination, and audits traces")
        .after_help(TP_HELP)
        .subcommand_required(true)
        .subcommand(sim_command(alloc))?
        .subcommand(audit_command(alloc))
}

fn sim_command<'a>(alloc: Global) -> Command<'a>
    ensures app { app_of result ≡ sim_app }
    ensures local { (out-Command result).has_globals ≡ false }
{
    Command::new(alloc, "sim")
        .about("Takes the steps of a script in order and prints the reply to each")
        .after_help(SIM_HELP)
}

fn audit_command<'a>(alloc: Global) -> Command<'a>
    ensures app { app_of result ≡ audit_app }
    ensures local { (out-Command result).has_globals ≡ false }
{
    Command::new(alloc, "audit")
        .about("Checks a trace, the record of a run, and trusts none of its lines")
        .after_help(AUDIT_HELP)
}

fn run_command<'a>(alloc: Global) -> Result<Command<'a>, AllocError>
    ensures app { IfOk result (λ command. app_of command ≡ run_app) }
    ensures local { IfOk result (λ command. (out-Command command).has_globals ≡ false) }
{
    let command = Command::new(alloc, "run")
        .about("Runs a pool of tasks on worker threads and prints its result")
        .after_help(RUN_HELP)
        .arg(spec_argument(alloc))?;
    with_counts(alloc, command)?
        .arg(generations_option(alloc))?
        .arg(trace_flag(alloc))?
        .arg(profile_option(alloc))
}

fn spec_argument<'a>(alloc: Global) -> Arg<'a>
    ensures rule { rule_of result ≡ spec_rule }
    ensures local { result.global ≡ false }
{
    Arg::new(alloc, "SPEC").required(true).help(
        "The pool, such as product:4:2:0, wavefront:8:8:0 or reduce:16:0",
    )
}

fn generations_option<'a>(alloc: Global) -> Arg<'a>
    ensures rule { rule_of result ≡ count_rule (codes "generations") MAX_GENERATIONS }
    ensures local { result.global ≡ false }
{
    count_option(alloc, "generations", "1-9", MAX_GENERATIONS).help(
        "K, how many times the pool runs",
    )
}

fn trace_flag<'a>(alloc: Global) -> Arg<'a>
    ensures rule { rule_of result ≡ trace_rule }
    ensures local { result.global ≡ false }
{
    Arg::new(alloc, "trace")
        .long("trace")
        .action(ArgAction::SetTrue)
        .help("Prints only the trace, which `tp audit` can check")
}

fn profile_option<'a>(alloc: Global) -> Arg<'a>
    ensures rule { rule_of result ≡ profile_rule }
    ensures local { result.global ≡ false }
{
    Arg::new(alloc, "profile")
        .long("profile")
        .value_name("FILE")
        .help("Writes when each task ran, as trace events")
}

fn pools_command<'a>(alloc: Global) -> Result<Command<'a>, AllocError>
    ensures app { IfOk result (λ command. app_of command ≡ pools_app) }
    ensures local { IfOk result (λ command. (out-Command command).has_globals ≡ false) }
{
    let specs = Arg::new(alloc, "SPEC")
        .required(true)
        .action(ArgAction::Append)
        .help("The pools, 1 to 8, such as product:4:2:0 or reduce:16:0");
    let command = Command::new(alloc, "pools")
        .about("Runs several pools of tasks at the same time and prints a line for each")
        .after_help(POOLS_HELP)
        .arg(specs)?;
    with_counts(alloc, command)
}

static TP_HELP: &str = "Simulate the life of one task:
  printf 'nodes 1\\ninsert 0 1 0\\nbegin 1\\ndone 1\\nready 0\\n' | tp sim

Run a pool that sums the leaves of a tree:
  tp run reduce:4:0 --nodes 2

Each subcommand has its own --help.";

static SIM_HELP: &str =
    "The script is read from standard input: a line `nodes N`, 1 to 8, then one line
for each step. The nodes have the numbers from 0 to N - 1.
  insert I T K   node I inserts task T, which waits for K inputs, 0 to 16
  supply T       task T receives one input
  begin T        task T begins to run
  done T         task T is done
  open I A       action A opens at node I
  close I A      action A closes at node I
  ready I        the action that is open at node I from the start closes
  send I J M     node I sends message M to node J
  recv J M       node J receives message M; the action of the message opens
  end J M        the action of message M closes at node J
  start          the next wave of the detector starts at node 0
  down I         node I takes the wave's token
  give I         node I, if nothing is pending there, adds its counts to it
  up I           the parent of node I takes the sums that node I gave
  judge          the wave that has ended is judged

After a first line `script 2`, a pool whose end was judged can be reopened. The
lines of a message then have the number of its generation, the first being 1:
  reopen         the next generation begins, and all is as at the start
  send I J M G   recv J M G   end J M G

The reply to a step is one line: `ok`; for `give 0` the sums of the wave; for
`judge` either `not` or `ended W`; for `reopen` `generation G`; or the refusal
of the step. Then come the counts of each node and their sums, and `quiet yes`
if nothing is pending and no message is in flight, else `quiet no`. Unfinished
tasks and open actions are pending.

An example:
  nodes 1
  insert 0 1 2
  supply 1
  supply 1
  begin 1
  done 1
  ready 0

The exit status is
  0  if there is a reply to each step, even if it is a refusal;
  1  if the arguments are wrong, the script cannot be read or is longer than
     33,554,432 bytes, or the output cannot be written;
  2  if a line does not match the grammar: only `syntax line L` is printed;
  3  if an allocation fails.";

static AUDIT_HELP: &str =
    "The trace is read from standard input: the line `trace 1`, a line `nodes N`, 1
to 8, then one line for each event of the run, in order. The lines are those of
`tp sim --help`, except that a judgement has its result:
  judge not      the wave that has ended does not prove termination
  judge ended W  the pool had ended when wave W ended, W being at least 1
After a first line `trace 2`, they are those of `script 2`, with `reopen`.

The audit takes the steps by the rules alone, counts the messages again, and
computes each judgement again. For a sound trace it prints
  steps N                the number of steps
  tasks I done D         how many tasks were inserted, and how many were done
  messages S received R  how many messages were sent, and how many were received
  generation G           only for `trace 2`: the number of the last generation
  ended W                the last judgement of that generation, or `not ended`

For any other text it prints one line: for the first syntax error or, if there
is none, for the first line that is wrong.
  syntax line L           line L does not match the grammar
  line L refused K Name   the step in line L cannot happen there
  line L unjustified      the judgement in line L is wrong

An example:
  trace 1
  nodes 1
  ready 0
  start
  give 0
  judge not
  start
  give 0
  judge ended 1

The exit status is
  0  if the trace is sound;
  1  if the arguments are wrong, the trace cannot be read or is longer than
     33,554,432 bytes, or the output cannot be written;
  2  if the trace is not sound;
  3  if an allocation fails.";

static RUN_HELP: &str = "SPEC is the kind of a pool and its numbers, which have no leading zeros:
  product:ORDER:SIDE:SEED      multiplies two matrices of ORDER rows, 1 to 64,
                               in square tiles of SIDE rows; SIDE divides ORDER
  wavefront:ROWS:COLUMNS:SEED  computes a table, 1 to 64 by 1 to 64: a cell is
                               its cost plus the least of those above and left
  reduce:LEAVES:SEED           sums the leaves of a tree; their number is a
                               power of two from 1 to 1024
SEED, 0 to 9999, determines the numbers that a pool begins with.

The tasks run on N nodes with W worker threads each, and their values go from
node to node as messages. After the detector has reported termination, the
result is printed as a table, and then the number of tasks, the number of
messages, and `ended`. If the run is not refused, the table and the number of
tasks do not depend on N and W; the number of messages depends on N.

With --generations K, K being at least 2, the pool runs K times. After each run
but the last it is reopened, and all is as at the start, except that the limit
of events holds for all generations together. For each of them `generation 1`
and so on is printed, and then the lines of its run.

With --trace only the record of the run is printed: the events of all
generations in order, as `tp audit --help` describes them. The trace depends on
N and W, and may differ from run to run.

With --profile FILE the times at which each task's body began and ended are
measured. After the output they are written to FILE, in Chrome's trace event
format, for a viewer of timelines. FILE is opened before the run.

Examples:
  tp run product:4:2:0 --nodes 2 --workers 2
  tp run wavefront:8:8:0 --nodes 4 --workers 2 --trace | tp audit
  tp run reduce:4:0 --nodes 2 --generations 2

The exit status is
  0  if the run ended and its text, and FILE, were written;
  1  if the arguments are wrong, the text cannot be written, or FILE cannot be
     (`fault write`). A SPEC that names no pool is `refused 26 BadSpec`;
  3  if the run is refused or an allocation fails. With --trace a number of more
     than six digits is `refused 26 BadSpec`, too.
It is never 2. `refused 16 HistoryFull` means that the pool takes more than
1,048,576 events in all its generations: a task takes 1 for each input and 2
more, or 3 if it has no inputs; a message takes 3; nodes, waves and reopenings
take some, too. `refused 17 NoMemory` means that an allocation failed, or that a
thread could not be started.";

static POOLS_HELP: &str =
    "Each SPEC names a pool as in `tp run --help`, and no two are the same. SPEC is
also the pool's name, and its number P is its place among the arguments, from 0.

All pools run at the same time, each on N nodes of its own with W worker threads
each. If one is refused, the others continue. When all have ended, one line is
printed for each, in the order of the arguments:
  pool P SPEC ended tasks T messages M   termination was detected, and each of
                                         the T tasks has its result
  pool P SPEC refused K Name             the run was refused, for example with
                                         `refused 16 HistoryFull`

An example:
  tp pools reduce:16:0 wavefront:8:8:0 --nodes 4 --workers 2

The exit status is
  0  if each pool ended;
  1  if the arguments are wrong or the lines cannot be written. More than 8
     pools are `refused 23 StoreFull`, a SPEC that names no pool `refused 26
     BadSpec`, and a SPEC that occurs twice `refused 25 PoolKnown`;
  3  if a pool is refused or an allocation fails. A thread that could not be
     started is `refused 17 NoMemory`, too.
It is never 2.";
