//! The state of the control waves.
ghost use Rattle.std.specs.Prelude.{◌≤◌, ◌*◌, count_by};
ghost use Rattle.tp_base.specs.declared.limits.TheConstants.{MAX_NODES, MAX_MESSAGES};

use tp_base::{MAX_NODES, Sums};

mod calls;
mod next;

/// The length of an array with a place for each node.
const PLACES: usize = MAX_NODES as usize;

/// The state of the control waves over the tree of nodes: how far the newest wave has come, what it has added up, and
/// the sums of the wave before it.
///
/// The algorithm is the four-counter method of F. Mattern, "Algorithms for Distributed Termination Detection" (1987). A
/// wave visits each node and adds up the numbers of messages sent and received. If these sums of two successive waves
/// are all equal, the pool had ended when the first of the two waves ended.
///
/// The state is small and `Copy`, so a call can be tried on a copy.
#[derive(Clone, Copy, Debug, PartialEq, Eq)]
pub struct Wave {
    nodes: u32,
    // The nodes that the newest wave has reached, those that gave in it, and those whose sums were taken.
    reached: [bool; PLACES],
    given: [bool; PLACES],
    taken: [bool; PLACES],
    judged: bool,
    // Whether it was judged that the pool had ended.
    over: bool,
    // The sums of the newest wave so far, and the final sums of the wave before it.
    newest: Sums,
    last: Sums,
    ghost few: { (1 ≤ nodes) × (nodes ≤ MAX_NODES) },
    // Each node that gave added at most `MAX_MESSAGES` to each sum.
    ghost small: { (newest.sent ≤ MAX_MESSAGES * count_by (λ g. g) given) × (newest.received ≤ MAX_MESSAGES * count_by (λ g. g) given) },
}
