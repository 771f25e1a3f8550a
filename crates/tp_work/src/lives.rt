//! Checks in the history that each task was inserted, began and was done exactly once in each generation.
ghost use Rattle.std.specs.Prelude.{◌≡◌, ◌<◌, ◌≤◌, ◌+◌, ◌↔◌, ◌++◌, ◌∷◌, [], length, map, reverse, slice_set, vec_capacity, vec_len, All};
ghost use Rattle.{std.specs.Prelude.{IfOk, IfSome, IsFalse, IsTrue, List, MatchOption, None}, tp_wave.specs.Machine.{step_of, steps_of}};
ghost use Rattle.{tp_base.specs.{History.Event, declared.limits.TheConstants.MAX_STEPS}, tp_wave.specs.Steps.{any, is_reopen}};
ghost use Rattle.tp_work.specs.Lives.{AreStages, IsFollowed, LivesInEach, LivesOnce, generations, sent_in, stage};
ghost use Rattle.tp_work.specs.Lives as lives;

use std::alloc::{AllocError, Global};
use tp_base::{History, Step};

/// Returns the number of messages sent in each of `generations` generations, oldest first, or `None` unless each task
/// lived once in each of them. Takes O(tasks * generations + events) time.
pub(crate) fn sent_in_each(
    alloc: Global,
    tasks: u32,
    count: usize,
    history: &History,
) -> Result<Option<Vec<u32>>, AllocError>
    requires few { length history.now.events ≤ MAX_STEPS }
    requires count { length (generations history.now.events) ≡ count }
    ensures lives { IfOk result (λ sent.
        MatchOption sent (LivesInEach tasks history.now.events → ⊥) (λ _. LivesInEach tasks history.now.events)) }
    ensures sent { IfOk result (λ sent. IfSome sent (λ each. each.items ≡ reverse (map sent_in (generations history.now.events)))) }
{
    let mut stages = vec![in alloc; 0u8; tasks as usize]?;
    let mut sent = Vec::with_capacity(alloc, count)?;
    if !follow_all(stages.as_mut_slice(), &mut sent, history) {
        return Ok(None);
    }
    Ok(Some(sent))
}

/// Follows all events through all generations, and lists the number of messages of each. Returns whether each task
/// lived once in each.
fn follow_all(stages: &mut [u8], sent: &mut Vec<u32>, history: &History) -> bool
    requires few { length history.now.events ≤ MAX_STEPS }
    requires first { All (λ stage. stage ≡ 0) stages.old }
    requires room { (sent.old.items ≡ []) × (length (generations history.now.events) ≤ vec_capacity sent.old) }
    ensures lives { IsTrue result ↔ LivesInEach (length stages.old) history.now.events }
    ensures sent { IsTrue result → sent.new.items ≡ reverse (map sent_in (generations history.now.events)) }
{
    let mut messages = 0u32;
    for place in 0..history.len() {
        let Some((_, step)) = history.at(place) else {
            unreachable!()
        };
        if !follow_on(stages, sent, &mut messages, step) {
            return false;
        }
    }
    sent.push_reserved(messages);
    all_over(stages)
}

/// Follows a step, which may begin the next generation. Returns whether each task can still live once in each.
fn follow_on(stages: &mut [u8], sent: &mut Vec<u32>, messages: &mut u32, step: Step) -> bool
    requires few { messages.old < MAX_STEPS }
    requires room { IsTrue (is_reopen step) → vec_len sent.old < vec_capacity sent.old }
    ensures room { vec_capacity sent.new ≡ vec_capacity sent.old }
    ensures followed { IsTrue result → (past : List Event) (e : Event) → step_of e ≡ step
        → IsFollowed past stages.old sent.old.items messages.old → IsFollowed (e ∷ past) stages.new sent.new.items messages.new }
    ensures no { IsFalse result → (later past : List Event) (e : Event) → step_of e ≡ step
        → IsFollowed past stages.old sent.old.items messages.old → LivesInEach (length stages.old) (later ++ e ∷ past) → ⊥ }
{
    match step {
        Step::Reopen => {
            if !all_over(stages) {
                return false;
            }
            clear(stages);
            sent.push_reserved(*messages);
            *messages = 0;
            true
        }
        Step::Send(_, _, _, _) => {
            *messages += 1;
            true
        }
        _ => follow(stages, step),
    }
}

/// Follows a step of one generation. Returns whether it is no stage of a task, or the next one of a task that has an
/// entry.
fn follow(stages: &mut [u8], step: Step) -> bool
    ensures none { lives.moment_of step ≡ None → (IsTrue result ↔ IsFalse (is_reopen step)) × (stages.new ≡ stages.old) }
    ensures moment { MatchOption (lives.moment_of step) (Unit {0}) (λ m.
        (IsTrue result ↔ ((m.0 < length stages.old) × (stage stages.old m.0 ≡ m.1)))
        × (IsTrue result → stages.new ≡ slice_set stages.old m.0 (m.1 + 1))) }
{
    match moment_of(step) {
        None => !matches!(step, Step::Reopen),
        Some((task, moment)) => advance(stages, task as usize, moment),
    }
}

/// Returns the task of which a step is a stage, and which stage.
fn moment_of(step: Step) -> Option<(u32, u8)>
    ensures moment { result ≡ lives.moment_of step }
    ensures three { IfSome result (λ m. m.1 ≤ 2) }
{
    match step {
        Step::Insert(_, task, _) => Some((task.0, 0)),
        Step::Begin(task) => Some((task.0, 1)),
        Step::Done(task) => Some((task.0, 2)),
        _ => None,
    }
}

/// Advances a task to a stage. Returns whether that is its next one.
fn advance(stages: &mut [u8], task: usize, moment: u8) -> bool
    requires { moment ≤ 2 }
    ensures next { IsTrue result ↔ ((task < length stages.old) × (stage stages.old task ≡ moment)) }
    ensures advanced { IsTrue result → stages.new ≡ slice_set stages.old task (moment + 1) }
{
    if task >= stages.len() || stages[task] != moment {
        return false;
    }
    stages[task] = moment + 1;
    true
}

fn all_over(stages: &[u8]) -> bool
    ensures { IsTrue result ↔ All (λ stage. stage ≡ 3) stages.now }
{
    stages.iter().all(|stage| *stage == 3)
}

/// Resets all stages.
fn clear(stages: &mut [u8])
    ensures { All (λ stage. stage ≡ 0) stages.new }
{
    for stage in stages.iter_mut() {
        *stage = 0;
    }
}
