//! The missing inputs of each task of a graph that is known before it runs. Threads count them down, each number under a lock of the
//! caller's. No call allocates memory or keeps any.
ghost use Rattle.std.specs.{List.slice_index, Prelude.{◌≡◌, ◌≤◌, ◌<◌, ◌+◌, ◌-◌, ◌⊎◌, ℕ, length, IfErr, IfSome, OnOk, OnErr, Err, Some}};
ghost use Rattle.tp_flow.specs.Countdown.{graph, links, IsGraph, IsTask, AreLinks, AreReaders, IsFirstRefused, link_refusal};
ghost use Rattle.tp_flow.specs.Countdown.{has_ends, last_before, after_arrival, is_last};

use crate::limits::{MAX_LINKED, NO_INPUT};
use tp_base::Refusal;

/// Links the inputs of a graph of `offsets.len() - 1` tasks. Task `t` reads what the tasks `inputs[offsets[t]]` to
/// `inputs[offsets[t + 1] - 1]` make, whose numbers are below `t`. For each task, writes the number of its inputs to `missing`, and the
/// last place in `inputs` that names the task to `newest`; for each place, the last one before it that names the same task to `older`, and
/// the task that reads it to `readers`. If there is no such place, it writes `NO_INPUT`. So the places that name task `i`, which are the
/// inputs that arrive when it is done, are `newest[i]`, `older[newest[i]]` and so on.
///
/// The cost is that of the tasks and the inputs.
///
/// Refused with the number of a task, and nothing changes. With 0: `BadSpec` if there is no offset, the first one is not 0, or the last one
/// is not `inputs.len()`, or if `missing` or `newest` does not have the length of the tasks, or `older` or `readers` that of the inputs;
/// `HistoryFull` with 536,870,912 if there are more tasks or inputs. Then, with the first task for which it holds: `BadSpec` if its offsets
/// decrease or pass the end of `inputs`; `NoTask` if an input is not below its number.
pub fn link(
    offsets: &[u32],
    inputs: &[u32],
    missing: &mut [u32],
    newest: &mut [u32],
    older: &mut [u32],
    readers: &mut [u32],
) -> Result<(), (Refusal, u32)>
    ensures graph { OnOk result (IsGraph (graph offsets.now inputs.now)) }
    ensures links { OnOk result (AreLinks (graph offsets.now inputs.now) (links missing.new newest.new older.new readers.new)) }
    ensures err { OnErr result (links missing.new newest.new older.new readers.new ≡ links missing.old newest.old older.old readers.old) }
    ensures checks { IfSome (link_refusal (graph offsets.now inputs.now) (links missing.old newest.old older.old readers.old))
        (λ r. result ≡ Err (r, 0)) }
    ensures exact { IfErr result (λ e. IsFirstRefused (graph offsets.now inputs.now) e.0 e.1
        ⊎ (link_refusal (graph offsets.now inputs.now) (links missing.old newest.old older.old readers.old) ≡ Some e.0)) }
{
    if !has_ends(offsets, inputs) {
        return Err((Refusal::BadSpec, 0));
    }
    let (tasks, places) = (offsets.len() - 1, inputs.len());
    if missing.len() != tasks || newest.len() != tasks {
        return Err((Refusal::BadSpec, 0));
    }
    if older.len() != places || readers.len() != places {
        return Err((Refusal::BadSpec, 0));
    }
    if (MAX_LINKED as usize) < tasks || (MAX_LINKED as usize) < places {
        return Err((Refusal::HistoryFull(MAX_LINKED), 0));
    }
    check_tasks(offsets, inputs)?;
    write_tasks(offsets, missing, readers);
    chain(inputs, newest, older);
    Ok(())
}

/// One input of a task is there: lowers the number of its missing inputs, unless that is 0. Returns whether it was the last one, so that
/// the task is ready. At 0 it returns `false`.
#[inline]
pub fn arrive(missing: &mut u32) -> bool
    ensures left { missing.new ≡ after_arrival missing.old }
    ensures ready { result ≡ is_last missing.old }
{
    let is_last = *missing == 1;
    *missing = missing.saturating_sub(1);
    is_last
}

// ---- checks
fn has_ends(offsets: &[u32], inputs: &[u32]) -> bool
    ensures { result ≡ has_ends (graph offsets.now inputs.now) }
{
    !offsets.is_empty() && offsets[0] == 0 && offsets[offsets.len() - 1] as usize == inputs.len()
}

fn check_tasks(offsets: &[u32], inputs: &[u32]) -> Result<(), (Refusal, u32)>
    requires some { 1 ≤ length offsets.now }
    requires few { length offsets.now - 1 ≤ MAX_LINKED }
    ensures ok { OnOk result ((t : ℕ) → t < length offsets.now - 1 → IsTask (graph offsets.now inputs.now) t) }
    ensures err { IfErr result (λ e. IsFirstRefused (graph offsets.now inputs.now) e.0 e.1) }
{
    for task in 0..offsets.len() - 1 {
        let (start, end) = (offsets[task] as usize, offsets[task + 1] as usize);
        if end < start || inputs.len() < end {
            return Err((Refusal::BadSpec, task as u32));
        }
        for place in start..end {
            if inputs[place] as usize >= task {
                return Err((Refusal::NoTask, task as u32));
            }
        }
    }
    Ok(())
}

// ---- what is written
// the number of inputs of each task, and the reader of each input
fn write_tasks(offsets: &[u32], missing: &mut [u32], readers: &mut [u32])
    requires tasks { length missing.old + 1 ≡ length offsets.now }
    requires few { length offsets.now - 1 ≤ MAX_LINKED }
    requires first { slice_index offsets.now 0 ≡ 0 }
    requires ordered { (t : ℕ) → t < length offsets.now - 1 → slice_index offsets.now t ≤ slice_index offsets.now (t + 1) }
    requires within { (t : ℕ) → t < length offsets.now - 1 → slice_index offsets.now (t + 1) ≤ length readers.old }
    ensures missing { (t : ℕ) → t < length offsets.now - 1
        → slice_index missing.new t ≡ slice_index offsets.now (t + 1) - slice_index offsets.now t }
    ensures readers { AreReaders offsets.now (length offsets.now - 1) (slice_index offsets.now (length offsets.now - 1)) readers.new }
{
    for task in 0..offsets.len() - 1 {
        missing[task] = offsets[task + 1] - offsets[task];
        for place in offsets[task] as usize..offsets[task + 1] as usize {
            readers[place] = task as u32;
        }
    }
}

// the chains of inputs that name the same task
fn chain(inputs: &[u32], newest: &mut [u32], older: &mut [u32])
    requires few { length inputs.now ≤ MAX_LINKED }
    requires places { length older.old ≡ length inputs.now }
    requires below { (e : ℕ) → e < length inputs.now → slice_index inputs.now e < length newest.old }
    ensures newest { (i : ℕ) → i < length newest.old → slice_index newest.new i ≡ last_before inputs.now i (length inputs.now) }
    ensures older { (e : ℕ) → e < length inputs.now → slice_index older.new e ≡ last_before inputs.now (slice_index inputs.now e) e }
{
    newest.fill(NO_INPUT);
    for place in 0..inputs.len() {
        let source = inputs[place] as usize;
        older[place] = newest[source];
        newest[source] = place as u32;
    }
}
