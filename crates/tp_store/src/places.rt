//! The operations of a store on the items in its slots.
ghost use Rattle.std.specs.{Mem.FitsInMemory, Prelude.{◌≡◌, ◌<◌, None, Some, IfSome, map, slice_index_or, true}};
ghost use Rattle.tp_slots.specs.Content.{item_at, IsTaken, IsIdle, with_item};
ghost use Rattle.tp_store.specs.{Content.{is_waiting, with_value, begun}, Kept.{with_listed, with_supplied, moved_counts, IsCounted}};
ghost use Rattle.tp_store.specs.contracts.item.TaskItem.{the_row};

use crate::item::TaskItem;
use crate::life::{Counts, Life};
use smallvec::SmallVec;
use std::alloc::Global;
use std::default::MadeWith;
use tp_base::TaskId;
use tp_slots::{Place, Slots};

/// Puts a value into a free slot of the waiting task at a place, and queues the task if that was its last input.
pub(crate) fn supply<S: Slots<TaskItem<V>>, V: MadeWith<Global> + Drop>(
    slots: &mut S,
    counts: &mut Counts,
    place: Place,
    slot: u8,
    value: V,
)
    requires fits { FitsInMemory (the_row V.row) }
    requires idle { IsIdle (S.content slots.old) place }
    requires waiting { IfSome (item_at (S.content slots.old) place) (λ i. is_waiting i.task.life ≡ true) }
    requires slot_in_range { IfSome (item_at (S.content slots.old) place) (λ i. slot < i.task.arity) }
    requires free { IfSome (item_at (S.content slots.old) place) (λ i. slice_index_or i.task.values slot None ≡ None) }
    requires counted { IfSome (item_at (S.content slots.old) place) (λ i. IsCounted (Some i.task.life) counts.old) }
    ensures content { IfSome (item_at (S.content slots.old) place) (λ i. S.content slots.new
        ≡ with_supplied (S.content slots.old) place i slot value) }
    ensures counts { IfSome (item_at (S.content slots.old) place) (λ i. counts.new
        ≡ moved_counts counts.old (Some i.task.life) (with_value i.task slot value).life) }
{
    let item = slots.get_mut(place);
    let was = item.life();
    item.fill(slot, value);
    counts.moved(Some(was), list_if_ready(slots, place));
}

/// Begins the ready task at a place. Returns its number, and its inputs in slot order.
pub(crate) fn begin_at<S: Slots<TaskItem<V>>, V: MadeWith<Global> + Drop>(
    slots: &mut S,
    place: Place,
) -> (TaskId, SmallVec<V, 4>)
    requires fits { FitsInMemory (the_row V.row) }
    requires taken { IsTaken (S.content slots.old) place }
    requires ready { IfSome (item_at (S.content slots.old) place) (λ i. i.task.life ≡ Life.Ready) }
    ensures number { IfSome (item_at (S.content slots.old) place) (λ i. result.0 ≡ i.number) }
    ensures inputs { IfSome (item_at (S.content slots.old) place) (λ i. map (λ v. Some v) result.1.items ≡ i.task.values) }
    ensures content { IfSome (item_at (S.content slots.old) place) (λ i. S.content slots.new
        ≡ with_item (S.content slots.old) place (record i { task = begun i.task })) }
{
    let item = slots.get_mut(place);
    (item.number(), item.begin())
}

/// Queues an idle place by its task's class if the task is ready, and returns the task's life.
#[inline(always)]
pub(crate) fn list_if_ready<S: Slots<TaskItem<V>>, V>(slots: &mut S, place: Place) -> Life
    requires fits { FitsInMemory (the_row V.row) }
    requires idle { IsIdle (S.content slots.old) place }
    ensures life { IfSome (item_at (S.content slots.old) place) (λ i. result ≡ i.task.life) }
    ensures content { IfSome (item_at (S.content slots.old) place) (λ i. S.content slots.new
        ≡ with_listed (S.content slots.old) place i.task) }
{
    let item = slots.get(place);
    let life = item.life();
    if life != Life::Ready {
        return life;
    }
    let class = item.class();
    slots.push_ready(place, class);
    life
}
