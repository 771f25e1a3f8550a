//! The patterns by their names, and the text of a run of one.

ghost use Rattle.tp_work.specs.Outcomes.{IsWithinLimits};

use crate::fault::Fault;
use crate::request::PatternGrid;
use crate::times::Times;
use crate::watched::{Watch, run_pool_watched};
use pool_kernels::{
    FeedTable, GridRun, KernelGrid, Pattern, RunFault, Stirring, checksum, last_row,
};
use std::alloc::Global;
use std::rt::Clock;
use std::sync::Wait;
use std::thread::Threads;
use tp_work::Config;

/// Runs a grid, and returns the lines of its result.
pub(crate) fn pattern_text<R: Threads + Wait + Sync + Clock>(
    rt: &R,
    alloc: Global,
    asked: PatternGrid,
    config: Config,
    watch: Watch,
    times: &mut Times,
) -> Result<Vec<u8>, Fault>
    requires { IsWithinLimits config }
{
    times.begin(rt);
    let Some(pattern) = asked.pattern() else {
        return Err(Fault::NoPattern);
    };
    let table = FeedTable::new(alloc, pattern, asked.width, asked.steps)?;
    let iterations = asked.iterations;
    let grid = KernelGrid::new(&table, Stirring { iterations });
    let run = run_watched(rt, alloc, &grid, config, watch)?;
    times.end(rt)?;
    let sum = checksum(&run.row);
    let (tasks, messages) = (run.outcome.tasks, run.outcome.messages);
    let text = format!(in alloc; "checksum {sum}\ntasks {tasks}\nmessages {messages}\nended\n")?;
    Ok(text.into_bytes())
}

/// Runs a grid with its tasks counted or timed.
fn run_watched<R: Threads + Wait + Sync + Clock>(
    rt: &R,
    alloc: Global,
    grid: &KernelGrid<Pattern, Stirring>,
    config: Config,
    watch: Watch,
) -> Result<GridRun, Fault>
    requires { IsWithinLimits config }
{
    match run_pool_watched(rt, alloc, *grid, config, watch) {
        Ok(outcome) => {
            let row = last_row(alloc, grid, &outcome.results)?;
            Ok(GridRun { row, outcome })
        }
        Err(fault) => Err(Fault::from(RunFault::Run(fault))),
    }
}

impl PatternGrid<'_> {
    /// Returns the pattern of the name, with its radius and its seed.
    fn pattern(&self) -> Option<Pattern> {
        let (radius, seed) = (self.radius, self.seed);
        match self.name {
            "trivial" => Some(Pattern::Trivial),
            "no_comm" => Some(Pattern::NoComm),
            "stencil" => Some(Pattern::Stencil),
            "stencil_periodic" => Some(Pattern::StencilPeriodic),
            "dom" => Some(Pattern::Dom),
            "tree" => Some(Pattern::Tree),
            "fft" => Some(Pattern::Fft),
            "all_to_all" => Some(Pattern::AllToAll),
            "nearest" => Some(Pattern::Nearest { radius }),
            "spread" => Some(Pattern::Spread { seed }),
            "random_nearest" => Some(Pattern::RandomNearest { radius, seed }),
            _ => None,
        }
    }
}

/// The names of the patterns, each with the columns that feed a column.
pub(crate) static NAMES: &str = "trivial           none: a task has no inputs
no_comm           itself: the columns are independent chains
stencil           itself and its two neighbours
stencil_periodic  the same, and the first and the last column are neighbours
dom               itself and its left neighbour
tree              the column of half its number, rounded down
fft               itself and a partner on either side, whose distance doubles from row to row
all_to_all        all columns
nearest           itself and K columns to each side
spread            itself and four others, a fifth of WIDTH apart, which move by one from row to row
random_nearest    itself, and by chance some of K columns to each side
";
