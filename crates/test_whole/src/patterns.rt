//! Task Bench's patterns: who feeds whom in six columns. A relation of one's own, and a check of a plan that is no graph.

ghost use Rattle.std.specs.Prelude.{◌≡◌, ◌<◌, ◌≤◌, ◌==◌, ◌/◌, ◌%◌, ℕ, None, if◌then◌else◌, true};
ghost use Rattle.pool_kernels.specs.Grids.{AreSizes};

use pool_kernels::{GraphFault, Pattern, Plan, Relation, Stirring, check_plan, run_kernel};
use std::alloc::{AllocError, Global};
use std::test::Fail;
use tp_base::{NodeId, TaskId};
use tp_work::Config;

/// The columns that feed each of six columns of a row.
fn feeders(alloc: Global, pattern: Pattern, step: u32) -> Result<Vec<u8>, AllocError>
    requires { AreSizes 6 step }
{
    let mut text = Vec::new(alloc);
    for to in 0..6 {
        for from in 0..6u8 {
            if pattern.relates(6, step, u32::from(from), to) {
                text.push(b'0' + from)?;
            }
        }
        text.push(b' ')?;
    }
    Ok(text)
}

const STENCIL: &str = "01 012 123 234 345 45 ";

/// A fifth of six columns is 1, and 2, 3 and 4 are the next ones: all but the left neighbour, which moves.
const MOVED: &str = "02345 01345 01245 01235 01234 12345 ";

const ALL: &str = "012345 012345 012345 012345 012345 012345 ";

const NEAREST: Pattern = Pattern::Nearest { radius: 2 };

const fn spread(seed: u32) -> Pattern {
    Pattern::Spread { seed }
}

const fn drawn(seed: u32) -> Pattern {
    Pattern::RandomNearest { radius: 2, seed }
}

// The pseudo-random bits of the last three were computed by a separate program.
#[test]
fn who_feeds_whom_in_six_columns(rt: HostRuntime) -> Result<(), Fail> {
    for (pattern, step, wanted) in [
        (Pattern::Trivial, 1, "      "),
        (Pattern::NoComm, 1, "0 1 2 3 4 5 "),
        (Pattern::Stencil, 1, STENCIL),
        (Pattern::StencilPeriodic, 1, "015 012 123 234 345 045 "),
        (Pattern::Dom, 1, "0 01 12 23 34 45 "),
        (Pattern::Tree, 1, "0 0 1 1 2 2 "),
        (Pattern::Fft, 1, STENCIL),
        (Pattern::Fft, 2, "02 13 024 135 24 35 "),
        (Pattern::Fft, 3, STENCIL),
        (Pattern::AllToAll, 1, ALL),
        (Pattern::Nearest { radius: 1 }, 1, STENCIL),
        (NEAREST, 1, "012 0123 01234 12345 2345 345 "),
        (spread(0), 1, "01234 12345 02345 01345 01245 01235 "),
        (spread(0), 2, MOVED),
        (spread(1), 1, MOVED),
        (drawn(0), 1, "02 01 23 1234 24 345 "),
        (drawn(0), 2, "012 13 123 1345 45 345 "),
        (drawn(1), 1, "012 13 2 123 24 35 "),
    ] {
        let got = feeders(rt.alloc(), pattern, step)?;
        assert_eq!(rt; got.as_slice(), wanted.as_bytes(), "{pattern:?} {step}");
    }
    Ok(())
}

// In six columns the distances of `Fft` are 1 and 2.
#[test]
fn each_relation_repeats_after_its_period(rt: HostRuntime) {
    for (pattern, period) in [
        (Pattern::Trivial, 1),
        (Pattern::NoComm, 1),
        (Pattern::Stencil, 1),
        (Pattern::StencilPeriodic, 1),
        (Pattern::Dom, 1),
        (Pattern::Tree, 1),
        (Pattern::Fft, 2),
        (Pattern::AllToAll, 1),
        (NEAREST, 1),
        (spread(3), 6),
        (drawn(0), 9),
    ] {
        assert_eq!(rt; pattern.period(6, 9), period, "{pattern:?}");
    }
}

/// Each of four columns is fed by itself and another: in row 1 the pairs are 0 and 1, 2 and 3, in row 2 0 and 2, 1 and 3.
#[derive(Clone, Copy)]
struct Butterfly;

impl Relation for Butterfly {
    ghost relation = { λ _ _ t j i. if t == 1 then (j / 2) == (i / 2) else (j % 2) == (i % 2) };

    fn relates(&self, _width: u32, step: u32, from: u32, to: u32) -> bool {
        if step == 1 {
            from / 2 == to / 2
        } else {
            from % 2 == to % 2
        }
    }

    fn period(&self, _width: u32, steps: u32) -> u32 {
        steps
    }
}

// A task sums its inputs, its column and 1: row 0 is 1, 2, 3, 4, row 1 is 3 + 1, 3 + 2, 7 + 3, 7 + 4.
#[test]
fn threads_run_a_relation_of_ones_own(rt: HostRuntime) -> Result<(), Fail> {
    let row: [i64; 4] = [14 + 1, 16 + 2, 14 + 3, 16 + 4];
    for nodes in [1, 3] {
        let (kernel, config) = (Stirring { iterations: 0 }, Config::new(nodes, 2));
        let run = run_kernel(&rt, rt.alloc(), Butterfly, kernel, 4, 3, config);
        let is_made = run.is_ok_and(|run| run.row.as_slice() == row.as_slice());
        assert!(rt; is_made, "{nodes}");
    }
    Ok(())
}

/// Two tasks: the second waits for two inputs, and the first has one feed, to slot 0.
struct Gap;

impl Plan for Gap {
    ghost plan = { λ _. record {
      tasks = 2;
      arity = λ t. if t == 1 then 2 else 0;
      class = λ t. 0;
      feeds = λ t. if t == 0 then 1 else 0;
      target = λ t k. 1;
      slot = λ t k. 0;
      source = λ t s. 0;
      turn = λ t s. 0;
      home = λ t m. 0;
      rule = λ t inputs. None;
      keeps = λ t. true;
    } };

    fn tasks(&self) -> u32 {
        2
    }

    fn arity(&self, task: TaskId) -> u8 {
        if task.0 == 1 { 2 } else { 0 }
    }

    fn class(&self, _task: TaskId) -> u8 {
        0
    }

    fn feeds(&self, task: TaskId) -> u32 {
        if task.0 == 0 { 1 } else { 0 }
    }

    fn feed(&self, _task: TaskId, _turn: u32) -> (TaskId, u8) {
        (TaskId(1), 0)
    }

    fn home(&self, _task: TaskId, _nodes: u32) -> NodeId {
        NodeId(0)
    }
}

#[test]
fn a_slot_without_a_feed_is_named(rt: HostRuntime) -> Result<(), Fail> {
    let fault = check_plan(rt.alloc(), &Gap, 2).err();
    assert_eq!(rt; fault, Some(GraphFault::Empty(TaskId(1), 1)));
    Ok(())
}
