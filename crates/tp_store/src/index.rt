//! The index of a store: an entry for each task number.
ghost use Rattle.std.specs.Prelude.{◌≡◌, ◌==◌, ℕ, Some, None, IsSome, OnOk, OnErr, false, if◌then◌else◌};
ghost use Rattle.tp_base.specs.Table.{lookup, has_place};
ghost use Rattle.tp_store.specs.Entries.{entry_at};

use std::alloc::AllocError;
use tp_base::{Table, TaskId};
use tp_slots::Place;

/// The entry of a task.
#[derive(Clone, Copy)]
pub(crate) enum Entry {
    /// The place of a task that is not done.
    Live(Place),
    /// The number of inputs of a done task, and its class.
    Done(u8, u8),
}

/// The entries by task number. A number that has only room has no entry.
pub(crate) type Index = Table<Option<Entry>>;

/// Returns the entry of a number, or `None`.
#[inline(always)]
pub(crate) fn entry_of(index: &Index, task: TaskId) -> Option<Entry>
    ensures { result ≡ entry_at index.now task.0 }
{
    match index.get(task.0) {
        Some(entry) => entry,
        None => None,
    }
}

/// Reserves room for an entry. A number with a place allocates nothing.
pub(crate) fn make_room(index: &mut Index, task: TaskId) -> Result<(), AllocError>
    requires { entry_at index.old task.0 ≡ None }
    ensures entries { (q : ℕ) → entry_at index.new q ≡ entry_at index.old q }
    ensures room { OnOk result (IsSome (lookup index.new task.0)) }
    ensures grows { OnErr result (has_place index.old task.0 ≡ false) }
{
    index.insert(task.0, None)
}

/// Sets the entry of a number that has room, which allocates nothing.
#[inline(always)]
pub(crate) fn set_entry(index: &mut Index, task: TaskId, to: Entry)
    requires { IsSome (lookup index.old task.0) }
    ensures entries { (q : ℕ) → entry_at index.new q ≡ (if q == task.0 then Some to else entry_at index.old q) }
{
    index.set(task.0, Some(to));
}
