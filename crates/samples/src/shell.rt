//! From the arguments to the output: reads, runs, and writes. Nothing is written before the run has ended.

ghost use Rattle.std.specs.Thread.{IsSync};
ghost use Rattle.tp_work.specs.Outcomes.{IsWithinLimits};

use crate::fault::{Fault, InputFault};
use crate::lines::{numbers_of, rows_of, text_of};
use crate::matrices::matrices_of;
use crate::patterns::{NAMES, pattern_text};
use crate::pools::pool_text;
use crate::request::{Request, Sample, Work, requested};
use crate::runs;
use crate::tiles::tiled_order;
use crate::times::Times;
use crate::watched::Watch;
use std::alloc::Global;
use std::io::{self, Write};
use std::rt::{Clock, Files};
use std::str;
use std::sync::Wait;
use std::thread::Threads;
use tp_shell::{Log, Profile, Run, Source, show, write_text};
use tp_work::{Config, Progress, Screen, watched};

/// Writes what the arguments ask for, or help or the version. A screen shows what is read, and how far the run is. If
/// there is a file for a profile, it is written at last.
pub(crate) fn answer<
    R: Threads + Wait + Sync + Clock + Files,
    I: Source,
    O: Write,
    W: Write + Send + Drop,
>(
    rt: &R,
    alloc: Global,
    arguments: &[&str],
    input: &mut I,
    out: &mut O,
    screen: Option<Screen<W>>,
) -> Result<(), Fault> {
    let request = match requested(alloc, arguments) {
        Ok(request) => request,
        Err(error) => return Ok(show(alloc, &error, out)?),
    };
    let Request {
        work,
        config,
        is_quiet,
        file,
        runs,
    } = request;
    let mut screen = if is_quiet || runs.is_some() {
        None
    } else {
        screen
    };
    if let Some(path) = file {
        let opened = Profile::open(rt, path);
        profile_result(alloc, file, opened)?;
    }
    let bytes = work.read(alloc, input, &mut screen)?;
    let profile = Profile::new(alloc, rt, file, u64::MAX);
    let text = text_watched(rt, alloc, work, config, &bytes, profile.log(), screen, runs)?;
    write_text(out, &text).map_err(|_| Fault::Unwritten)?;
    let run = Run {
        nodes: config.nodes,
        workers: config.workers,
        has_tasks: work.has_tasks(),
    };
    let written = profile.write(rt, alloc, run);
    profile_result(alloc, file, written)
}

/// Returns the fault of a profile that was not opened or written to this file.
fn profile_result(alloc: Global, file: Option<&str>, written: io::Result<()>) -> Result<(), Fault> {
    match (file, written) {
        (Some(path), Err(error)) => { Err(Fault::NoProfile(format!(in alloc; "{path}: {error}")?)) }
        _ => Ok(()),
    }
}

/// Returns the text of the runs. A screen shows how far they are.
fn text_watched<R: Threads + Wait + Sync + Clock, W: Write + Send + Drop>(
    rt: &R,
    alloc: Global,
    work: Work,
    config: Config,
    bytes: &[u8],
    log: Option<&Log>,
    screen: Option<Screen<W>>,
    runs: Option<u32>,
) -> Result<Vec<u8>, Fault>
    requires { IsWithinLimits config }
{
    let Ok(text) = str::from_utf8(bytes) else {
        return Err(Fault::Unreadable);
    };
    let Some(screen) = screen else {
        let watch = Watch {
            progress: None,
            log,
        };
        return text_of_runs(rt, alloc, work, config, text, watch, runs);
    };
    let progress = Progress::new();
    let counts = &progress;
    watched(
        rt,
        alloc,
        screen,
        counts,
        move || -> Result<Vec<u8>, Fault>
            requires { IsSync R.row × IsWithinLimits config }
        {
            let watch = Watch {
                progress: Some(counts),
                log,
            };
            text_of_runs(rt, alloc, work, config, text, watch, None)
        },
    )
}

/// Returns the text of a run. If `runs` is a number, there are that many runs, and the time of each is a line below the
/// text of the last.
fn text_of_runs<R: Threads + Wait + Sync + Clock>(
    rt: &R,
    alloc: Global,
    work: Work,
    config: Config,
    input: &str,
    watch: Watch,
    runs: Option<u32>,
) -> Result<Vec<u8>, Fault>
    requires { IsWithinLimits config }
{
    let mut times = Times::new(alloc);
    let mut text = work.run(rt, alloc, config, input, watch, &mut times)?;
    let Some(runs) = runs else {
        return Ok(text);
    };
    for _ in 1..runs {
        text = work.run(rt, alloc, config, input, watch, &mut times)?;
    }
    text.extend_from_slice(times.lines())?;
    Ok(text)
}

impl Work<'_> {
    /// Reads all input if it is over that, after a screen has shown what is read.
    fn read<I: Source, W: Write>(
        self,
        alloc: Global,
        input: &mut I,
        screen: &mut Option<Screen<W>>,
    ) -> Result<Vec<u8>, Fault> {
        let Work::Sample(sample) = self else {
            return Ok(Vec::new(alloc));
        };
        if let Some(screen) = screen {
            screen.invite(sample.invitation());
        }
        Ok(input.read_all(alloc)?)
    }

    /// Returns whether a profile has the numbers of its tasks. A stencil does not learn which block it computes.
    fn has_tasks(self) -> bool {
        !matches!(
            self,
            Work::Sample(Sample::Heat { .. } | Sample::Relax { .. })
        )
    }

    /// Runs once, and returns the result as text. The time is that of the run: neither of reading a text nor of writing
    /// one.
    fn run<R: Threads + Wait + Sync + Clock>(
        self,
        rt: &R,
        alloc: Global,
        config: Config,
        input: &str,
        watch: Watch,
        times: &mut Times,
    ) -> Result<Vec<u8>, Fault>
        requires { IsWithinLimits config }
    {
        match self {
            Work::Pattern(grid) => pattern_text(rt, alloc, grid, config, watch, times),
            Work::Pool(spec) => pool_text(rt, alloc, spec, config, watch, times),
            Work::Sample(sample) => sample.run(rt, alloc, config, input, watch, times),
            Work::Names => {
                let mut text = Vec::new(alloc);
                text.extend_from_slice(NAMES.as_bytes())?;
                Ok(text)
            }
        }
    }
}

impl Sample {
    /// Returns what a terminal shows before the input is read.
    fn invitation(self) -> &'static str {
        match self {
            Sample::Heat { .. } => {
                "Reading the rod from standard input up to Ctrl-D, one whole number a line: samples heat STEPS BLOCK < FILE\n"
            }
            Sample::Product { .. } => {
                "Reading two matrices from standard input up to Ctrl-D, an empty line between them: samples product SIDE < FILE\n"
            }
            Sample::Relax { .. } => {
                "Reading the grid from standard input up to Ctrl-D, one row a line: samples relax STEPS ROWS_A_BLOCK < FILE\n"
            }
        }
    }

    /// Runs over the numbers of a text, and returns the result as text.
    fn run<R: Threads + Wait + Sync + Clock>(
        self,
        rt: &R,
        alloc: Global,
        config: Config,
        text: &str,
        watch: Watch,
        times: &mut Times,
    ) -> Result<Vec<u8>, Fault>
        requires { IsWithinLimits config }
    {
        match self {
            Sample::Heat { steps, block } => {
                let cells = numbers_of(alloc, text)?;
                times.begin(rt);
                let rod = runs::heat(rt, alloc, cells, block, steps, config, watch)?;
                times.end(rt)?;
                Ok(text_of(alloc, 1, &rod)?)
            }
            Sample::Product { side } => {
                let matrices = matrices_of(alloc, text)?;
                let order = tiled_order(matrices.order, side, config.nodes)?;
                let (left, right) = (&matrices.left, &matrices.right);
                times.begin(rt);
                let product = runs::product(rt, alloc, left, right, order, side, config, watch)?;
                times.end(rt)?;
                Ok(text_of(alloc, matrices.order, &product)?)
            }
            Sample::Relax { steps, rows } => {
                let grid = rows_of(alloc, text)?;
                let width = grid.width;
                let Ok(columns) = u32::try_from(width) else {
                    return Err(Fault::Input(InputFault::LargeBlocks));
                };
                let cells = grid.numbers;
                times.begin(rt);
                let made = runs::relax(rt, alloc, cells, columns, rows, steps, config, watch)?;
                times.end(rt)?;
                Ok(text_of(alloc, width, &made)?)
            }
        }
    }
}
