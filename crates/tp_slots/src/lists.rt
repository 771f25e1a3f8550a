//! The four queues of ready places, as linked lists of slots.
ghost use Rattle.std.specs.Prelude.{◌≡◌, ℕ, ◌<◌, ◌≤◌, List, ◌∷◌, [], length, slice_index_or, MatchOption, IfSome, None, Some};
ghost use Rattle.tp_slots.specs.{Chains.{IsLink, KeepsOthers}, Content.{times, front, without_front, with_last}, Lists.AreChains};

use crate::{Cells, Chain, Link, Slot, append, take_front};

// Appends the slot to the queue of its class.
pub(crate) fn push_to<T>(
    cells: &mut Cells<Slot<T>>,
    ready: &mut [Chain<T>],
    class: usize,
    link: Link<T>,
)
    requires in_range { class < length ready.old }
    requires link { IsLink cells.old.cells link }
    requires lists { (lists : List (List ℕ)) × AreChains cells.old.cells ready.old lists × (times link.place lists ≡ 0) }
    ensures lists { (lists : List (List ℕ)) → AreChains cells.old.cells ready.old lists → times link.place lists ≡ 0
        → ((p : ℕ) → times p lists ≤ 1) → AreChains cells.new.cells ready.new (with_last lists class link.place) }
    ensures others { (lists : List (List ℕ)) → AreChains cells.old.cells ready.old lists
        → KeepsOthers cells.old.cells cells.new.cells (link.place ∷ slice_index_or lists class []) }
{
    append(cells, &mut ready[class], link);
}

// Removes and returns the first slot of the first queue that is not empty.
pub(crate) fn pop_from<T>(cells: &Cells<Slot<T>>, ready: &mut [Chain<T>]) -> Option<Link<T>>
    requires { (lists : List (List ℕ)) × AreChains cells.now.cells ready.old lists }
    ensures next { (lists : List (List ℕ)) → AreChains cells.now.cells ready.old lists
        → MatchOption result (front lists ≡ None) (λ link. front lists ≡ Some link.place) }
    ensures lists { (lists : List (List ℕ)) → AreChains cells.now.cells ready.old lists
        → AreChains cells.now.cells ready.new (without_front lists) }
{
    for chain in ready.iter_mut() {
        match take_front(cells, chain) {
            Some(link) => return Some(link),
            None => {}
        }
    }
    None
}
