//! Reads whole numbers from standard input, one a line, and prints their prefix sums, computed by a pool of threads.
//! The options `--nodes` and `--workers` take 1 to 8.
#![tactic(auto)]

ghost use Rattle.std.specs.Prelude.{◌≡◌, ◌⊎◌, IfOk};
ghost use Rattle.tp_shell.specs.declared.status.Status.TheVariants.{Failed, Refused};

mod kernel;
mod relation;
mod sums;

use crate::sums::{PrefixFault, prefix_sums};
use pool_kernels::{GridFault, RunFault, TableFault};
use std::alloc::AllocError;
use std::env::Env;
use std::fmt::Write;
use std::io;
use std::process::ExitCode;
use std::sync::Wait;
use std::thread::Threads;
use tp_shell::{Ending, Status, begin, end};

fn main(rt: HostRuntime) -> ExitCode {
    let text = sums_text(&rt);
    ExitCode::from(end(&rt, "prefix", &text, rt.stdout(), rt.stderr()))
}

/// Returns the sums of the numbers that are read, one a line, or why there are none.
fn sums_text<R: Threads + Wait + Sync + Env + Input + AllocGlobal>(
    rt: &R,
) -> Result<String, Ending> {
    let about = "Reads whole numbers, one a line, and prints their prefix sums";
    let (alloc, config) = (rt.alloc(), begin(rt, "prefix", about, true)?);
    let mut text = String::new(alloc);
    let Some(numbers) = numbers_of(rt)? else {
        writeln!(text, "a line is no whole number of 64 bits")?;
        return Err(Ending::ErrorLine(Status::Refused, text));
    };
    match prefix_sums(rt, alloc, &numbers, config) {
        Ok(sums) => {
            for sum in &sums {
                writeln!(text, "{sum}")?;
            }
            Ok(text)
        }
        Err(fault) => {
            let status = complain(&mut text, &fault, numbers.len())?;
            Err(Ending::ErrorLine(status, text))
        }
    }
}

/// Returns the numbers of standard input, one a line, or `None` if a line is no number.
fn numbers_of(rt: &(impl Input + AllocGlobal)) -> io::Result<Option<Vec<i64>>> {
    let mut numbers = Vec::new(rt.alloc());
    for line in rt.lines(rt.alloc()) {
        match line?.trim().parse::<i64>() {
            Ok(number) => numbers.push(number)?,
            Err(_) => return Ok(None),
        }
    }
    Ok(Some(numbers))
}

/// Writes why there are no sums of `width` numbers, and returns the exit status.
fn complain(line: &mut String, fault: &PrefixFault, width: usize) -> Result<Status, AllocError>
    ensures { IfOk result (λ status. (status ≡ Refused) ⊎ (status ≡ Failed)) }
{
    match fault {
        PrefixFault::TooMany => writeln!(line, "there are 1,048,576 numbers or more")?,
        PrefixFault::Grid(GridFault::Table(TableFault::NoMemory)) => return Err(AllocError),
        PrefixFault::Grid(GridFault::Table(fault)) => writeln!(line, "no grid: {fault:?}")?,
        PrefixFault::Grid(GridFault::Run(fault)) => {
            let refusal = fault.refusal();
            write!(line, "refused {} {}", refusal.number(), refusal.name())?;
            match failed_at(fault, width) {
                Some((row, column)) => writeln!(line, ": row {row}, column {column}")?,
                None => writeln!(line)?,
            }
            return Ok(Status::Failed);
        }
    }
    Ok(Status::Refused)
}

/// Returns the row and the column of the task whose body failed, if one did.
fn failed_at(fault: &RunFault, width: usize) -> Option<(usize, usize)> {
    let RunFault::Run(fault) = fault else {
        return None;
    };
    let task = fault.failed?.0 as usize;
    Some((task.checked_div(width)?, task.checked_rem(width)?))
}
