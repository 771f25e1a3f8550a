//! Linked lists of slots: each slot has a pointer to the next, so that a list takes no memory of its own.
ghost use Rattle.std.specs.{Borrow.sem, Prelude.{◌≡◌, ◌==◌, ℕ, List, [], ◌∷◌, ◌++◌, count_by, MatchOption, IsSome, None, Some, ⊤}};
ghost use Rattle.tp_slots.specs.{Cells.cell_at, ChainLends.{lends_slot_item, lends_item, with_item_at, without_item_at}, Chains.IsLink};
ghost use Rattle.tp_slots.specs.Chains.{item_in, with_next, IsChain, KeepsOthers};

use crate::cells::{At, Cells};
use std::alloc::AllocError;
use std::marker::{Send, Sync};
use std::mem::replace;

/// The address of a slot, and its number.
pub struct Link<T> {
    pub ptr: *mut Slot<T>,
    pub place: usize,
}

impl<T> Clone for Link<T> {
    ghost is_clone = { λ x y. y ≡ x };

    ghost is_infallible = { λ _. ⊤ };

    fn clone(&self) -> Result<Link<T>, AllocError> {
        Ok(*self)
    }
}

impl<T> Copy for Link<T> {}

unsafe impl<T> Send for Link<T> {}

unsafe impl<T> Sync for Link<T> {}

impl<T> Link<T> {
    /// Returns the address of the slot.
    pub fn at(self) -> At<Slot<T>>
        ensures { result.ptr ≡ self.ptr }
    {
        At { ptr: self.ptr }
    }
}

/// The content of a cell: an item, if there is one, and the next slot of its list.
#[derive(Drop)]
pub struct Slot<T> {
    pub next: Option<Link<T>>,
    pub item: Option<T>,
}

/// The two ends of a list of slots.
#[derive(Drop)]
pub struct Chain<T> {
    pub front: Option<Link<T>>,
    pub back: Option<Link<T>>,
}

impl<T> Slot<T> {
    fn item_mut(&mut self) -> &mut T
        requires { IsSome self.old.item }
        ensures* lends { sem 𝓛 (lends_slot_item T.row self.entry result) }
        ensures value { self.old.item ≡ Some result.now }
    {
        match &mut self.item {
            Some(item) => item,
            None => unreachable!(),
        }
    }
}

/// Borrows the item of a slot for writing.
pub fn item_mut<T>(cells: &mut Cells<Slot<T>>, link: Link<T>) -> &mut T
    requires link { IsLink cells.old.cells link }
    requires item { IsSome (item_in (cell_at cells.old.cells link.place).1) }
    ensures* writes_back { sem 𝓛 (lends_item T.row cells.entry link.place result) }
    ensures value { item_in (cell_at cells.old.cells link.place).1 ≡ Some result.now }
{
    cells.get_mut(link.at(), link.place).item_mut()
}

/// Borrows the item of a slot.
pub fn item<T>(cells: &Cells<Slot<T>>, link: Link<T>) -> &T
    requires link { IsLink cells.now.cells link }
    requires item { IsSome (item_in (cell_at cells.now.cells link.place).1) }
    ensures { item_in (cell_at cells.now.cells link.place).1 ≡ Some result.now }
{
    match &cells.get(link.at(), link.place).item {
        Some(item) => item,
        None => unreachable!(),
    }
}

/// Puts the item into a slot that has none.
pub fn put_item<T>(cells: &mut Cells<Slot<T>>, link: Link<T>, item: T)
    requires link { IsLink cells.old.cells link }
    requires vacant { item_in (cell_at cells.old.cells link.place).1 ≡ None }
    ensures { cells.new.cells ≡ with_item_at cells.old.cells link.place item }
{
    let slot = cells.get_mut(link.at(), link.place);
    match replace(&mut slot.item, Some(item)) {
        None => {}
        Some(_) => unreachable!(),
    }
}

/// Removes and returns the item of a slot.
pub fn take_item<T>(cells: &mut Cells<Slot<T>>, link: Link<T>) -> T
    requires link { IsLink cells.old.cells link }
    requires item { IsSome (item_in (cell_at cells.old.cells link.place).1) }
    ensures value { item_in (cell_at cells.old.cells link.place).1 ≡ Some result }
    ensures cells { cells.new.cells ≡ without_item_at cells.old.cells link.place }
{
    match cells.get_mut(link.at(), link.place).item.take() {
        Some(item) => item,
        None => unreachable!(),
    }
}

// Sets the next slot of a slot.
fn set_next<T>(cells: &mut Cells<Slot<T>>, link: Link<T>, next: Option<Link<T>>)
    requires { IsLink cells.old.cells link }
    ensures { cells.new.cells ≡ with_next cells.old.cells link.place next }
{
    cells.get_mut(link.at(), link.place).next = next;
}

/// Appends the slot to the list.
pub fn append<T>(cells: &mut Cells<Slot<T>>, chain: &mut Chain<T>, link: Link<T>)
    requires chain { (places : List ℕ) × IsChain cells.old.cells chain.old places × (count_by (λ x. x == link.place) places ≡ 0) }
    requires link { IsLink cells.old.cells link }
    ensures chain { (places : List ℕ) → IsChain cells.old.cells chain.old places → count_by (λ x. x == link.place) places ≡ 0
        → IsChain cells.new.cells chain.new (places ++ link.place ∷ []) }
    ensures others { (places : List ℕ) → IsChain cells.old.cells chain.old places
        → KeepsOthers cells.old.cells cells.new.cells (link.place ∷ places) }
{
    set_next(cells, link, None);
    let Some(back) = chain.back else {
        chain.front = Some(link);
        chain.back = Some(link);
        return;
    };
    set_next(cells, back, Some(link));
    chain.back = Some(link);
}

/// Puts the slot before the others.
pub fn put_front<T>(cells: &mut Cells<Slot<T>>, chain: &mut Chain<T>, link: Link<T>)
    requires chain { (places : List ℕ) × IsChain cells.old.cells chain.old places × (count_by (λ x. x == link.place) places ≡ 0) }
    requires link { IsLink cells.old.cells link }
    ensures chain { (places : List ℕ) → IsChain cells.old.cells chain.old places → count_by (λ x. x == link.place) places ≡ 0
        → IsChain cells.new.cells chain.new (link.place ∷ places) }
    ensures others { KeepsOthers cells.old.cells cells.new.cells (link.place ∷ []) }
{
    set_next(cells, link, chain.front);
    chain.front = Some(link);
    let Some(_) = chain.back else {
        chain.back = Some(link);
        return;
    };
}

/// Removes and returns the first slot of the list, or returns `None` if the list is empty.
pub fn take_front<T>(cells: &Cells<Slot<T>>, chain: &mut Chain<T>) -> Option<Link<T>>
    requires { (places : List ℕ) × IsChain cells.now.cells chain.old places }
    ensures { (places : List ℕ) → IsChain cells.now.cells chain.old places
        → MatchOption result ((places ≡ []) × IsChain cells.now.cells chain.new []) (λ link. IsLink cells.now.cells link
        × (rest : List ℕ) × (places ≡ link.place ∷ rest) × IsChain cells.now.cells chain.new rest) }
{
    let Some(link) = chain.front else {
        return None;
    };
    chain.front = cells.get(link.at(), link.place).next;
    let Some(_) = chain.front else {
        chain.back = None;
        return Some(link);
    };
    Some(link)
}
