//! Why the program prints nothing, or not all of it: a line on standard error, and the exit status.

ghost use Rattle.std.specs.Prelude.{◌≡◌, ◌≤◌, MatchResult};

use pool_blocks::LentFault;
use pool_kernels::{RunFault, TableFault};
use std::alloc::AllocError;
use std::io::Write;
use thiserror::Error;
use tp_base::Refusal;
use tp_shell::{Diagnostics, ReadFault, WordsFault, explain_spec, names_a_file};

/// Why the program prints nothing, or not all of it.
#[derive(Debug, Drop, Error)]
pub(crate) enum Fault {
    #[error("{0}")]
    Arguments(String),
    #[error("the arguments are not UTF-8")]
    NotUtf8,
    #[error("PATTERN is none of those that `samples patterns --list` names")]
    NoPattern,
    #[error("SPEC is no sample pool; `tp run --help` describes them")]
    NoPool(String),
    #[error("the input cannot be read as text")]
    Unreadable,
    #[error("the output cannot be written")]
    Unwritten,
    #[error("the file of the profile cannot be written: {0}")]
    NoProfile(String),
    #[error(transparent)]
    Input(#[from] InputFault),
    #[error("a number of the product leaves 64 bits")]
    Overflow,
    #[error("a run may have 1,048,576 events, and this one takes more")]
    LongRun,
    #[error("refused {} {}", .0.number(), .0.name())]
    Refused(Refusal),
    #[error("there is no memory")]
    Memory(#[from(alloc)] AllocError),
}

/// Why there is no run over what was read, or over the grid that the arguments describe. Lines are counted from 1.
#[derive(Clone, Copy, Debug, PartialEq, Eq, Error)]
pub(crate) enum InputFault {
    #[error("the input has no number")]
    NoNumber,
    #[error("the input has no line")]
    NoLine,
    #[error("line {0} is not a 64-bit integer")]
    BadNumber(u64),
    #[error("line {0} is not 64-bit integers separated by single spaces")]
    BadRow(u64),
    #[error("line {line} has {has} {numbers} instead of {due}", numbers = noun(*has))]
    Uneven { line: u64, has: usize, due: usize },
    #[error("line {0} is not empty: an empty line has to separate the matrices")]
    NotEmpty(u64),
    #[error("line {0} is one too many: the matrices are complete")]
    Extra(u64),
    #[error("line {line} is missing: the matrices are {order} by {order}")]
    Missing { line: u64, order: usize },
    #[error("a run may have 1,048,576 events, and one step takes more: make the blocks larger")]
    LongStep,
    #[error("a block has 4,294,967,296 cells or more: make the blocks smaller")]
    LargeBlocks,
    #[error("the matrices have 32,768 rows or more")]
    LargeMatrices,
    #[error("tiles of SIDE rows and columns do not fill the matrices")]
    Unfilled,
    #[error("a run may have 1,048,576 events, and the product takes more: make SIDE larger")]
    LongProduct,
    #[error("there is no task")]
    NoTask,
    #[error("a task may have 16 inputs, and some of these have more")]
    ManyInputs,
    #[error("a run may have 1,048,576 events, and these tasks take more")]
    LongGrid,
}

fn noun(count: usize) -> &'static str {
    if count == 1 { "number" } else { "numbers" }
}

impl Fault {
    /// Prints why, if there is more to say than the fault's own line does.
    pub(crate) fn explain<E: Write>(&self, words: &[&str], err: &mut E) {
        match self {
            Fault::NoPool(spec) => explain_spec(spec, err),
            Fault::Arguments(text) if names_a_file(text) => {
                let usage = match words {
                    [_, "heat", ..] => "heat STEPS BLOCK",
                    [_, "product", ..] => "product SIDE",
                    [_, "relax", ..] => "relax STEPS ROWS_A_BLOCK",
                    _ => return,
                };
                err.tell_parts(&["reason: reads standard input: samples ", usage, " < FILE\n"])
            }
            Fault::Refused(Refusal::StoreFull) => {
                err.tell("reason: a node has room for 65,536 unfinished tasks: use --nodes\n")
            }
            _ => {}
        }
    }

    /// Returns the exit status: 1 for the arguments, the reading and the writing, 2 for an input without a run, 3 for a
    /// refused run and for allocation failure.
    fn status(&self) -> u8
        ensures { (1 ≤ result) × (result ≤ 3) }
    {
        match self {
            Fault::Arguments(_) | Fault::NotUtf8 | Fault::NoPattern | Fault::NoPool(_) => 1,
            Fault::Unreadable | Fault::Unwritten | Fault::NoProfile(_) => 1,
            Fault::Input(_) => 2,
            Fault::Overflow | Fault::LongRun | Fault::Refused(_) | Fault::Memory(_) => 3,
        }
    }
}

/// Returns the exit status of an outcome, and prints a fault as a line.
pub(crate) fn status_of<E: Write>(outcome: &Result<(), Fault>, err: &mut E) -> u8
    // The status is 0 only if all was printed.
    ensures { MatchResult outcome.now (λ _. result ≡ 0) (λ _. (1 ≤ result) × (result ≤ 3)) }
{
    match outcome {
        Ok(()) => 0,
        Err(fault) => {
            let _ = writeln!(err, "{fault}");
            fault.status()
        }
    }
}

impl From<WordsFault> for Fault {
    fn from(fault: WordsFault) -> Self {
        match fault {
            WordsFault::Words(text) => Fault::Arguments(text),
            WordsFault::Memory => Fault::Memory(AllocError),
            WordsFault::Write => Fault::Unwritten,
        }
    }
}

impl From<ReadFault> for Fault {
    fn from(fault: ReadFault) -> Self {
        match fault {
            ReadFault::Failed => Fault::Unreadable,
            ReadFault::Memory => Fault::Memory(AllocError),
        }
    }
}

impl From<Refusal> for Fault {
    fn from(refusal: Refusal) -> Self {
        match refusal {
            Refusal::NoMemory => Fault::Memory(AllocError),
            _ => Fault::Refused(refusal),
        }
    }
}

impl From<LentFault> for Fault {
    fn from(fault: LentFault) -> Self {
        match fault {
            // There are cells, in whole rows, and a block has some. So the fault is the number of events of a step.
            LentFault::BadInput => Fault::Input(InputFault::LongStep),
            _ => Fault::from(fault.refusal()),
        }
    }
}

impl From<RunFault> for Fault {
    fn from(fault: RunFault) -> Self {
        match fault.refusal() {
            Refusal::HistoryFull(_) => Fault::LongRun,
            refusal => Fault::from(refusal),
        }
    }
}

impl From<TableFault> for Fault {
    fn from(fault: TableFault) -> Self {
        match fault {
            TableFault::Empty => Fault::Input(InputFault::NoTask),
            TableFault::TooManyInputs => Fault::Input(InputFault::ManyInputs),
            TableFault::TooManyEvents => Fault::Input(InputFault::LongGrid),
            TableFault::NoMemory => Fault::Memory(AllocError),
        }
    }
}
