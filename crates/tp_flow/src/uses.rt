//! What a flow keeps of a handle: which task wrote it last, and which tasks read it since.
ghost use Rattle.std.specs.Prelude.{◌≡◌, ◌≤◌, ◌<◌, ◌++◌, ◌||◌, ℕ, List, [], ◌∷◌, length};
ghost use Rattle.std.specs.Prelude.{map, OnOk, IsTrue, Some, None, true, false, slice_get};
ghost use Rattle.std.specs.Vec.{vec_capacity};
ghost use Rattle.tp_flow.specs.Description.{Task, AreInputs, all_below, awaited, awaited_by, newest_of, AreOrdered, writes};
ghost use Rattle.tp_flow.specs.State.{state_of_uses, has_room, is_not_above, with_access};
ghost use Rattle.tp_flow.specs.State.{is_number, is_recorded, can_record, AreKept, Pass};

use crate::access::{Access, Mode};
use std::alloc::{AllocError, Global};

/// The tasks that a later access of the handle has to wait for.
#[derive(Drop)]
pub(crate) struct Uses {
    /// The last writer.
    pub(crate) writer: Option<u32>,
    /// The readers since then, ascending.
    pub(crate) readers: Vec<u32>,
}

/// Returns whether this is the number.
#[inline]
fn is_number(number: Option<u32>, task: u32) -> bool
    ensures { result ≡ is_number number task }
{
    match number {
        Some(found) => found == task,
        None => false,
    }
}

impl Uses {
    pub(crate) fn new(alloc: Global) -> Uses
        ensures { state_of_uses result ≡ record { writer = None; readers = [] } }
    {
        Uses {
            writer: None,
            readers: Vec::new(alloc),
        }
    }

    /// Appends what an access in this mode waits for.
    fn add_awaited(&self, mode: Mode, found: &mut Vec<u32>) -> Result<(), AllocError>
        ensures { OnOk result (found.new.items ≡ found.old.items ++ awaited_by mode self.now.readers.items self.now.writer) }
    {
        if mode.writes() && !self.readers.is_empty() {
            return found.extend_from_slice(&self.readers);
        }
        if let Some(writer) = self.writer {
            found.push(writer)?;
        }
        Ok(())
    }

    /// Makes room for a reader, if an access in this mode is one.
    fn make_room(&mut self, mode: Mode) -> Result<(), AllocError>
        ensures same { state_of_uses self.new ≡ state_of_uses self.old }
        ensures room { OnOk result (writes mode ≡ false → IsTrue (has_room self.new)) }
        ensures keeps { IsTrue (has_room self.old) → IsTrue (has_room self.new) }
    {
        if !mode.writes() {
            self.readers.reserve(1)?;
        }
        Ok(())
    }

    /// Returns whether the task is the last writer or the newest reader.
    fn is_recorded(&self, task: u32) -> bool
        ensures { result ≡ is_recorded task (state_of_uses self.now) }
    {
        is_number(self.writer, task) || is_number(self.readers.last().copied(), task)
    }

    /// Records an access by the newest task, unless one is recorded that says the same or more.
    fn record(&mut self, task: u32, mode: Mode)
        requires { writes mode ≡ false → IsTrue (can_record task self.old) }
        ensures access { state_of_uses self.new ≡ with_access task mode (state_of_uses self.old) }
        ensures room { IsTrue (is_recorded task (state_of_uses self.new)) }
    {
        if mode.writes() {
            self.writer = Some(task);
            self.readers.clear();
        } else if !self.is_recorded(task) {
            self.readers.push_reserved(task);
        }
    }
}

/// Returns whether the accesses are of handles below `count`.
pub(crate) fn are_below(count: usize, accesses: &[Access]) -> bool
    ensures { result ≡ all_below count accesses.now }
{
    accesses
        .iter()
        .all(|access| (access.handle.0 as usize) < count)
}

/// Finds what these accesses wait for.
fn find_awaited(
    handles: &[Uses],
    accesses: &[Access],
    found: &mut Vec<u32>,
) -> Result<(), AllocError>
    requires { IsTrue (all_below (length handles.now) accesses.now) }
    ensures { OnOk result ((tasks : List Task) → AreKept handles.now tasks → found.new.items ≡ awaited tasks accesses.now) }
{
    found.clear();
    for access in accesses {
        handles[access.handle.0 as usize].add_awaited(access.mode, found)?;
    }
    Ok(())
}

/// Finds what these accesses wait for, ascending and each task once.
pub(crate) fn find_inputs(
    handles: &[Uses],
    accesses: &[Access],
    found: &mut Vec<u32>,
) -> Result<(), AllocError>
    requires { IsTrue (all_below (length handles.now) accesses.now) }
    ensures { OnOk result ((tasks : List Task) → AreKept handles.now tasks → AreInputs accesses.now tasks found.new.items) }
{
    find_awaited(handles, accesses, found)?;
    found.sort_unstable();
    found.dedup();
    Ok(())
}

/// Makes room in each handle that is read, so that to record these accesses cannot fail.
pub(crate) fn make_room(handles: &mut Vec<Uses>, accesses: &[Access]) -> Result<(), AllocError>
    requires { IsTrue (all_below (length handles.old.items) accesses.now) }
    ensures same { map state_of_uses handles.new.items ≡ map state_of_uses handles.old.items }
    ensures room { OnOk result (Pass has_room handles.new.items accesses.now) }
{
    for access in accesses {
        handles[access.handle.0 as usize].make_room(access.mode)?;
    }
    Ok(())
}

/// Records the accesses of the newest task.
pub(crate) fn record(handles: &mut Vec<Uses>, task: u32, accesses: &[Access])
    requires below { IsTrue (all_below (length handles.old.items) accesses.now) }
    requires room { Pass has_room handles.old.items accesses.now }
    ensures count { length handles.new.items ≡ length handles.old.items }
    ensures kept { (past : List Task) → AreOrdered past → is_not_above (newest_of past) task ≡ false → AreKept handles.old.items past
        → AreKept handles.new.items (record { number = task; accesses = accesses.now } ∷ past) }
{
    for access in accesses {
        handles[access.handle.0 as usize].record(task, access.mode);
    }
}
