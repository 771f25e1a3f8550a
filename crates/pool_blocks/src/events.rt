//! How many events a run of steps takes, and so how many steps fit in one run.
ghost use Rattle.std.specs.Prelude.{◌≡◌, ◌≤◌, ◌+◌, ◌-◌, ◌*◌, ◌/◌, max, MatchOption};
ghost use Rattle.tp_base.specs.declared.limits.TheConstants.{MAX_STEPS};
ghost use Rattle.pool_blocks.specs.RunEvents.{TakeNoStep, TakeSteps, step_events};

use tp_base::MAX_STEPS;

/// The most events that are planned for a run of several steps. The rest is left for the waves that detect its end.
const MOST_PLANNED: u64 = 1_000_000;

/// Returns how many steps of `cells` cells, in blocks of `size` cells, fit in one run at `nodes` nodes within the limit
/// of events. `None` if there is no cell, `size` is 0, or the events of a single step exceed the limit.
pub fn steps_at_once(cells: u64, size: u32, nodes: u32) -> Option<u64>
    ensures { MatchOption result (TakeNoStep cells size nodes) (TakeSteps cells size nodes) }
{
    if cells == 0 || size == 0 {
        return None;
    }
    let blocks = (cells - 1) / u64::from(size) + 1;
    if blocks > u64::from(MAX_STEPS) {
        return None;
    }
    let row = row_events(blocks, nodes);
    if 3 * blocks + row > u64::from(MAX_STEPS) {
        return None;
    }
    Some(planned_steps(3 * blocks, row))
}

/// Returns the number of events of one step.
fn row_events(blocks: u64, nodes: u32) -> u64
    requires { (1 ≤ blocks) × (blocks ≤ MAX_STEPS) }
    ensures same { result ≡ step_events blocks nodes }
    ensures some { (1 ≤ result) × (result ≤ 11 * MAX_STEPS) }
{
    let boundaries = blocks.min(u64::from(nodes)).saturating_sub(1);
    (3 * blocks - 2) + 2 * blocks + 3 * (2 * boundaries)
}

/// Returns how many steps are planned for a run whose first row takes `first` events, and each step `row`: at least
/// one.
#[tactic(auto, using(crate::proofs::Planned::planned_fit))]
fn planned_steps(first: u64, row: u64) -> u64
    requires { (1 ≤ row) × (first + row ≤ MAX_STEPS) }
    ensures same { result ≡ max ((1000000 - first) / row) 1 }
    ensures fit { first + result * row ≤ MAX_STEPS }
{
    (MOST_PLANNED.saturating_sub(first) / row).max(1)
}
