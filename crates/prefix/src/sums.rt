//! Prefix sums, computed by a pool of threads.
ghost use Rattle.prefix.specs.{Faults.IsPrefixFault, Prefixes.{AreRows, prefixes}};
ghost use Rattle.std.specs.Prelude.{◌≡◌, ◌≤◌, ◌<◌, ◌^◌, IfErr, IfOk};
ghost use Rattle.tp_work.specs.Outcomes.{IsWithinLimits};

use crate::kernel::Prefix;
use crate::relation::Doubling;
use pool_kernels::{GridFault, run_kernel};
use std::alloc::Global;
use std::sync::Wait;
use std::thread::Threads;
use tp_work::Config;

/// Why there are no prefix sums.
#[derive(Drop)]
pub(crate) enum PrefixFault {
    /// There are 1,048,576 numbers or more.
    TooMany,
    /// The grid of the numbers has no row.
    Grid(GridFault),
}

/// Returns the prefix sums of some numbers. Refused with `Grid` and the fault of [`run_kernel`] if there is no number,
/// or the run was refused.
pub(crate) fn prefix_sums<R: Threads + Wait + Sync>(
    rt: &R,
    alloc: Global,
    numbers: &[i64],
    config: Config,
) -> Result<Vec<i64>, PrefixFault>
    requires { IsWithinLimits config }
    ensures sums { IfOk result (λ sums. sums.items ≡ prefixes numbers.now) }
    ensures refused { IfErr result (IsPrefixFault config.nodes config.workers numbers.now) }
{
    if numbers.len() >= 1 << 20 {
        return Err(PrefixFault::TooMany);
    }
    let width = numbers.len() as u32;
    match run_kernel(
        rt,
        alloc,
        Doubling,
        Prefix { numbers },
        width,
        rows_for(width),
        config,
    ) {
        Ok(run) => Ok(run.row),
        Err(fault) => Err(PrefixFault::Grid(fault)),
    }
}

/// Returns how many rows the sums of this many numbers take: in row t, a sum has up to 2^t numbers.
fn rows_for(width: u32) -> u32
    requires { width < 2 ^ 20 }
    ensures rows { AreRows width result }
    ensures few { result ≤ 21 }
{
    if width <= 1 {
        1
    } else {
        (width - 1).ilog2() + 2
    }
}
