//! Printing the trace of a history, or of a list of steps.
ghost use Rattle.std.specs.{List.All, Prelude.{◌≡◌, ◌≤◌, ◌<◌, ◌↔◌, ◌⊎◌, ℕ, List, Some, length, reverse, slice_get, IfErr, IfOk, IsTrue}};
ghost use Rattle.tp_base.specs.declared.{Step.Step, limits.TheConstants.{MAX_NODES, MAX_STEPS}};
ghost use Rattle.tp_core.specs.Generations.{AreRuns};
ghost use Rattle.tp_text.specs.{Spelling.IsSpelled, Trace.trace, TraceOf.{lines_of, version_of, IsTraceOf, CanBeTraced, AreStepsOfRuns}};
ghost use Rattle.tp_wave.specs.{Generations.InEach, Machine.{steps_of, IsRun}};

use crate::step_lines::{has_line, push_head, push_line};
use crate::tracer::Tracer;
use crate::version::Version;
use std::alloc::{AllocError, Global};
use tp_base::{History, MAX_STEPS, Refusal, Step};

/// Steps that can be read by their place. Contracts see the list of them, oldest first.
trait Steps {
    ghost listed: { Self → List Step };

    fn count(&self) -> usize
        ensures { result ≡ length (listed self.now) };

    fn at_place(&self, place: usize) -> Step
        requires { place < length (listed self.now) }
        ensures { slice_get (listed self.now) place ≡ Some result };
}

impl Steps for History {
    ghost listed = { λ h. reverse (steps_of h.events) };

    fn count(&self) -> usize {
        self.len()
    }

    fn at_place(&self, place: usize) -> Step {
        let Some((_, step)) = self.at(place) else {
            unreachable!()
        };
        step
    }
}

impl<'a> Steps for &'a [Step] {
    ghost listed = { λ s. s.now };

    fn count(&self) -> usize {
        self.len()
    }

    fn at_place(&self, place: usize) -> Step {
        self[place]
    }
}

/// Returns the trace of a pool's history on `nodes` nodes, 1 to 8: a line for each step, oldest first. Each judgement
/// line claims the judgement over the steps before it in its generation, with messages counted anew. Only the text is
/// allocated.
///
/// The trace is of version 2 exactly if the pool was reopened. In version 1 no line has a place for the number of a
/// generation.
///
/// Refused with `BadSpec` if the history has more than 1,048,576 steps, a number of more than six digits, a task of
/// more than 16 inputs, or, if the pool was not reopened, a message of another generation than the first; and then with
/// `NoMemory` if an allocation fails.
pub fn print_trace(alloc: Global, history: &History, nodes: u32) -> Result<Vec<u8>, Refusal>
    requires nodes { (1 ≤ nodes) × (nodes ≤ MAX_NODES) }
    // The history of an outcome satisfies this, and so does that of a report.
    requires run { InEach (IsRun nodes) history.now.events }
    ensures ok { IfOk result (λ text. IsTraceOf nodes (steps_of history.now.events) text.items) }
    ensures can { IfOk result (λ text. CanBeTraced (steps_of history.now.events)) }
    ensures err { IfErr result (λ r. ((r ≡ Refusal.BadSpec) × ¬ CanBeTraced (steps_of history.now.events))
        ⊎ ((r ≡ Refusal.NoMemory) × CanBeTraced (steps_of history.now.events))) }
{
    printed(alloc, history, nodes)
}

/// Returns the trace of the steps that a core has taken, which are oldest first, as `print_trace` does.
pub fn print_steps(alloc: Global, steps: &[Step], nodes: u32) -> Result<Vec<u8>, Refusal>
    requires nodes { (1 ≤ nodes) × (nodes ≤ MAX_NODES) }
    requires runs { AreRuns nodes (reverse steps.now) }
    ensures ok { IfOk result (λ text. IsTraceOf nodes (reverse steps.now) text.items) }
    ensures can { IfOk result (λ text. CanBeTraced (reverse steps.now)) }
    ensures err { IfErr result (λ r. ((r ≡ Refusal.BadSpec) × ¬ CanBeTraced (reverse steps.now))
        ⊎ ((r ≡ Refusal.NoMemory) × CanBeTraced (reverse steps.now))) }
{
    printed(alloc, &steps, nodes)
}

/// Returns the trace of any steps of runs.
fn printed<S: Steps>(alloc: Global, steps: &S, nodes: u32) -> Result<Vec<u8>, Refusal>
    requires nodes { (1 ≤ nodes) × (nodes ≤ MAX_NODES) }
    requires runs { AreStepsOfRuns nodes (reverse (S.listed steps.now)) }
    ensures ok { IfOk result (λ text. IsTraceOf nodes (reverse (S.listed steps.now)) text.items) }
    ensures can { IfOk result (λ text. CanBeTraced (reverse (S.listed steps.now))) }
    ensures err { IfErr result (λ r. ((r ≡ Refusal.BadSpec) × ¬ CanBeTraced (reverse (S.listed steps.now)))
        ⊎ ((r ≡ Refusal.NoMemory) × CanBeTraced (reverse (S.listed steps.now)))) }
{
    let version = traced_version(steps);
    if steps.count() > MAX_STEPS as usize || !has_lines(version, steps) {
        return Err(Refusal::BadSpec);
    }
    Ok(traced(alloc, steps, nodes, version)?)
}

/// Returns the version of the trace: 2 exactly if the pool was reopened.
fn traced_version<S: Steps>(steps: &S) -> Version
    ensures { result ≡ version_of (reverse (S.listed steps.now)) }
{
    for place in 0..steps.count() {
        if let Step::Reopen = steps.at_place(place) {
            return Version::Two;
        }
    }
    Version::One
}

/// Returns whether the grammar has a line for each step.
fn has_lines<S: Steps>(version: Version, steps: &S) -> bool
    ensures { IsTrue result ↔ All (IsSpelled version) (reverse (S.listed steps.now)) }
{
    for place in 0..steps.count() {
        if !has_line(version, steps.at_place(place)) {
            return false;
        }
    }
    true
}

/// Returns the trace of steps in a version. Refused if an allocation fails.
fn traced<S: Steps>(
    alloc: Global,
    steps: &S,
    nodes: u32,
    version: Version,
) -> Result<Vec<u8>, AllocError>
    requires nodes { (1 ≤ nodes) × (nodes ≤ MAX_NODES) }
    requires runs { AreStepsOfRuns nodes (reverse (S.listed steps.now)) }
    requires few { length (S.listed steps.now) ≤ MAX_STEPS }
    ensures { IfOk result (λ text. text.items ≡ trace version nodes (lines_of nodes (reverse (S.listed steps.now)))) }
{
    let mut out = Vec::new(alloc);
    push_head(version, &mut out, nodes)?;
    let mut tracer = Tracer::new(nodes);
    for place in 0..steps.count() {
        push_line(version, &mut out, tracer.line(steps.at_place(place)))?;
    }
    Ok(out)
}
