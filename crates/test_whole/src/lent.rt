//! Rods, grids, products and chains of matrices over borrowed data: on one thread and by threads, in one run and in parts,
//! and counted while a terminal shows the progress.

ghost use Rattle.std.specs.Prelude.{◌≤◌};

use pool_blocks::{
    ThreePoints, cells_by_one, grid_in_blocks, heat_of, row_blocks, run_in_parts,
    run_in_parts_counted, run_steps,
};
use pool_intervals::least_multiplications;
use pool_matrix::run_product;
use std::alloc::{AllocError, Global};
use std::io::{self, IsTerminal, Write};
use std::sync::Wait;
use std::test::Fail;
use std::thread::Threads;
use tp_work::{Config, Plan, Progress, Screen, run_in_order, run_pool_counted, watched};

/// A rod of three cells, and the same after a step.
const ROD: [i64; 3] = [9000, 300, -60];

const AFTER: [i64; 3] = [3100, 3080, 80];

/// Three rows of four cells.
const CELLS: [i64; 12] = [
    0, 16, 32, 0, //
    8, 0, 0, 24, //
    0, 0, 64, 0,
];

/// The same after two steps. After one they are 3 and 15: (16 + 8) / 8 and (32 + 24 + 64) / 8; then
/// (16 + 8 + 4 * 3 + 15) / 8 and (32 + 3 + 4 * 15 + 24 + 64) / 8, rounded down.
const AFTER_TWO: [i64; 12] = [0, 16, 32, 0, 8, 6, 22, 24, 0, 0, 64, 0];

/// Whether a run returned these numbers.
fn gave<E: Drop>(made: Result<Vec<i64>, E>, numbers: &[i64]) -> bool {
    match made {
        Ok(made) => made.as_slice() == numbers,
        Err(_) => false,
    }
}

/// A list of numbers.
fn list(alloc: Global, numbers: &[i64]) -> Result<Vec<i64>, AllocError> {
    let mut list = Vec::new(alloc);
    list.extend_from_slice(numbers)?;
    Ok(list)
}

/// Whether a pool of these nodes computes the rod after one step in blocks of two, in one run and in parts.
fn make_the_rod<R: Threads + Wait + Sync>(
    rt: &R,
    alloc: Global,
    nodes: u32,
) -> Result<bool, AllocError>
    requires { (1 ≤ nodes) × (nodes ≤ 8) }
{
    let (config, cells) = (Config::new(nodes, 2), list(alloc, &ROD)?);
    let Some(heat) = heat_of(&ROD, 2, 1) else {
        return Ok(false);
    };
    let whole = gave(run_steps(rt, alloc, heat, config), &AFTER);
    let parts = run_in_parts(rt, alloc, ThreePoints, cells, 2, 1, config);
    Ok(whole && gave(parts, &AFTER))
}

/// Whether a pool of these nodes computes the product of two matrices in tiles of one.
fn make_the_product<R: Threads + Wait + Sync>(rt: &R, alloc: Global, nodes: u32) -> bool
    requires { (1 ≤ nodes) × (nodes ≤ 8) }
{
    let config = Config::new(nodes, 2);
    let made = run_product(rt, alloc, &[1, 2, 3, 4], &[5, 6, 7, 8], 2, 1, config);
    gave(made, &[19, 22, 43, 50])
}

/// The number of results of a pool of these nodes: one for each of the rod's tasks.
fn results_by<R: Threads + Wait + Sync>(rt: &R, alloc: Global, nodes: u32) -> usize
    requires { (1 ≤ nodes) × (nodes ≤ 8) }
{
    let Some(heat) = heat_of(&ROD, 2, 1) else {
        return 0;
    };
    match run_in_order(rt, alloc, heat, Config::new(nodes, 2)) {
        Ok(results) => results.len(),
        Err(_) => 0,
    }
}

#[test]
fn threads_make_the_plain_rod_and_product(rt: HostRuntime) -> Result<(), Fail> {
    for nodes in [1, 2, 5] {
        let rod = make_the_rod(&rt, rt.alloc(), nodes)?;
        let product = make_the_product(&rt, rt.alloc(), nodes);
        let results = results_by(&rt, rt.alloc(), nodes);
        assert_eq!(rt; (rod, product, results), (true, true, 4), "{nodes}");
    }
    Ok(())
}

/// Whether a pool of these nodes computes what the products of two chains cost: of a lone matrix, and of six. Of these, Cormen
/// et al. (Introduction to Algorithms, 2009) have the table.
fn make_the_chains<R: Threads + Wait + Sync>(rt: &R, alloc: Global, nodes: u32) -> bool
    requires { (1 ≤ nodes) × (nodes ≤ 8) }
{
    let config = Config::new(nodes, 2);
    let lone = least_multiplications(rt, alloc, &[3, 4], config);
    let six = least_multiplications(rt, alloc, &[30, 35, 15, 5, 10, 20, 25], config);
    matches!((&lone, &six), (Ok(0), Ok(15_125)))
}

#[test]
fn threads_make_the_plain_chains(rt: HostRuntime) -> Result<(), Fail> {
    for nodes in [1, 2, 5] {
        assert!(rt; make_the_chains(&rt, rt.alloc(), nodes), "{nodes}");
    }
    Ok(())
}

/// Whether a pool of these nodes computes the grid after two steps, in one run and in parts, and one thread does.
fn make_the_grid<R: Threads + Wait + Sync>(
    rt: &R,
    alloc: Global,
    rows: u32,
    nodes: u32,
) -> Result<bool, AllocError>
    requires { (1 ≤ nodes) × (nodes ≤ 8) }
{
    let (config, cells) = (Config::new(nodes, 2), list(alloc, &CELLS)?);
    let (Some(grid), Some(blocks)) = (grid_in_blocks(&CELLS, 4, rows, 2), row_blocks(4, rows))
    else {
        return Ok(false);
    };
    let alone = gave(cells_by_one(alloc, grid), &AFTER_TWO);
    let whole = gave(run_steps(rt, alloc, grid, config), &AFTER_TWO);
    let parts = run_in_parts(rt, alloc, blocks.points, cells, blocks.size, 2, config);
    Ok(alone && whole && gave(parts, &AFTER_TWO))
}

#[test]
fn threads_make_the_plain_grid(rt: HostRuntime) -> Result<(), Fail> {
    for nodes in 1..9 {
        for rows in [1, 2, 3] {
            let is_made = make_the_grid(&rt, rt.alloc(), rows, nodes)?;
            assert!(rt; is_made, "{nodes} {rows}");
        }
    }
    Ok(())
}

/// A terminal that drops what it shows.
#[derive(Drop)]
struct Unread;

impl Write for Unread {
    fn write(&mut self, buf: &[u8]) -> io::Result<usize> {
        Ok(buf.len())
    }

    fn flush(&mut self) -> io::Result<()> {
        Ok(())
    }
}

impl IsTerminal for Unread {
    fn is_terminal(&self) -> bool {
        true
    }
}

/// Five cells, which in blocks of two are three blocks.
const FIVE: [i64; 5] = [9000, 300, -60, 0, 12];

// A step takes 19 events at two nodes, and the first row 9, so 52,631 steps are planned for a run.
#[test]
fn each_block_after_a_step_is_counted_once(rt: HostRuntime) -> Result<(), Fail> {
    let (alloc, config) = (rt.alloc(), Config::new(2, 2));
    let (cells, progress) = (list(alloc, &FIVE)?, Progress::new());
    let counts = Some(&progress);
    let made = run_in_parts_counted(&rt, alloc, ThreePoints, cells, 2, 7, config, counts);
    assert!(rt; made.is_ok());
    let planned = Plan {
        tasks: 3,
        steps: 7,
        part: 52_631,
    };
    assert_eq!(rt; (progress.plan(&rt), progress.done(&rt)), (planned, 21));
    Ok(())
}

// The same cells as a graph: three blocks before the first step, too.
#[test]
fn each_task_is_counted_once_while_a_terminal_is_told(rt: HostRuntime) -> Result<(), Fail> {
    let progress = Progress::new();
    let counts = &progress;
    let (Some(heat), Some(screen)) = (heat_of(&FIVE, 2, 7), Screen::of(&Unread, Unread)) else {
        return Err(Fail::new("there is no rod, or no terminal"));
    };
    let (rt, alloc) = (&rt, rt.alloc());
    let is_made = watched(rt, alloc, screen, counts, move || {
        run_pool_counted(rt, alloc, heat, Config::new(2, 2), Some(counts)).is_ok()
    });
    assert!(rt; is_made);
    let planned = Plan {
        tasks: 24,
        steps: 1,
        part: 1,
    };
    assert_eq!(rt; (progress.plan(rt), progress.done(rt)), (planned, 24));
    Ok(())
}
