//! The insertion of a new task, and the memory that is reserved for it.
ghost use Rattle.std.specs.{Mem.FitsInMemory, Prelude.{◌≡◌, ◌<◌, ◌≤◌, ◌+◌, None, Some, IsSome, IsTrue, IsOk, OnOk, OnErr, IfOk, IfErr}};
ghost use Rattle.std.specs.Prelude.{unwrap_or, vec_len, vec_capacity};
ghost use Rattle.tp_base.specs.Table.{lookup, has_place};
ghost use Rattle.tp_slots.specs.Content.{held_count, refusal_of_take};
ghost use Rattle.tp_store.specs.{Content.{fresh, with_task, unfinished, refusal_of_new}, Entries.entry_at, Kept.{parts_of, content_of}};
ghost use Rattle.tp_store.specs.{Kept.{IsKept, IsGrown, Leaves}, contracts.item.TaskItem.the_row};

use crate::index::{Entry, Index, make_room, set_entry};
use crate::item::TaskItem;
use crate::life::Counts;
use crate::places::list_if_ready;
use std::alloc::Global;
use std::default::MadeWith;
use tp_base::{CLASSES, MAX_INPUTS, MAX_LIVE_TASKS, Refusal, TaskId};
use tp_slots::{Place, Slots};

/// Inserts an unknown task without inputs, and returns its place.
pub(crate) fn insert_fresh<S: Slots<TaskItem<V>>, V: MadeWith<Global> + Drop>(
    slots: &mut S,
    index: &mut Index,
    results: &mut Vec<(TaskId, V)>,
    counts: &mut Counts,
    task: TaskId,
    arity: u8,
    class: u8,
    alloc: Global,
) -> Result<Place, Refusal>
    requires fits { FitsInMemory (the_row V.row) }
    requires arity_in_range { arity ≤ MAX_INPUTS }
    requires class_in_range { class < CLASSES }
    requires unknown { entry_at index.old task.0 ≡ None }
    requires kept { IsKept (parts_of (S.content slots.old) index.old results.old counts.old) }
    ensures not_full { OnOk result (refusal_of_new (content_of (parts_of (S.content slots.old) index.old results.old counts.old)) ≡ None) }
    ensures entry { IfOk result (λ place. entry_at index.new task.0 ≡ Some (Entry.Live place)) }
    ensures inserted { let old = parts_of (S.content slots.old) index.old results.old counts.old in
        let new = parts_of (S.content slots.new) index.new results.new counts.new in
        OnOk result (Leaves new (with_task (content_of old) task (fresh arity class)) (unfinished (content_of old) + 1)) }
    ensures refusal { IfErr result (λ e. e
        ≡ unwrap_or (refusal_of_new (content_of (parts_of (S.content slots.old) index.old results.old counts.old))) Refusal.NoMemory) }
    ensures unchanged { let old = parts_of (S.content slots.old) index.old results.old counts.old in
        let new = parts_of (S.content slots.new) index.new results.new counts.new in
        OnErr result (Leaves new (content_of old) (unfinished (content_of old))) }
{
    let item = make_item(
        slots,
        index,
        results,
        counts.live(),
        task,
        arity,
        class,
        alloc,
    )?;
    let place = slots.take_reserved(item);
    set_entry(index, task, Entry::Live(place));
    counts.moved(None, list_if_ready(slots, place));
    Ok(place)
}

// Reserves what an unknown task needs: a slot, an entry, and room for its result in addition to those of the `live`
// unfinished tasks. The returned item has room for the inputs. If all of these have room and the inputs fit in the item
// itself, the call is not refused.
fn make_item<S: Slots<TaskItem<V>>, V: MadeWith<Global> + Drop>(
    slots: &mut S,
    index: &mut Index,
    results: &mut Vec<(TaskId, V)>,
    live: u32,
    task: TaskId,
    arity: u8,
    class: u8,
    alloc: Global,
) -> Result<TaskItem<V>, Refusal>
    requires few { live ≤ MAX_LIVE_TASKS }
    requires arity_in_range { arity ≤ MAX_INPUTS }
    requires class_in_range { class < CLASSES }
    requires unknown { entry_at index.old task.0 ≡ None }
    ensures item { IfOk result (λ i. i ≡ record { number = task; task = fresh arity class }) }
    ensures grown { IsGrown (S.content slots.old) (S.content slots.new) index.old index.new results.old results.new }
    ensures room { OnOk result (0 < S.room slots.new) }
    ensures not_full { OnOk result (held_count (S.content slots.old) < MAX_LIVE_TASKS) }
    ensures space { OnOk result (vec_len results.old + live + 1 ≤ vec_capacity results.new) }
    ensures entry { OnOk result (IsSome (lookup index.new task.0)) }
    ensures refusal { IfErr result (λ e. e ≡ refusal_of_take (S.content slots.old)) }
    ensures had_room { 0 < S.room slots.old → vec_len results.old + live + 1 ≤ vec_capacity results.old
        → IsTrue (has_place index.old task.0) → arity ≤ 4 → IsOk result }
{
    slots.reserve()?;
    results.reserve(live as usize + 1)?;
    make_room(index, task)?;
    TaskItem::new(task, arity, class, alloc)
}
