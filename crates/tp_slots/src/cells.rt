//! Raw cells: each has a fixed address, and is empty or holds a value.
ghost use Rattle.std.specs.{Borrow.sem, Mem.type_size, Prelude.{◌≡◌, ℕ, ◌<◌, ◌*◌, ◌^◌, [], ◌++◌, List, Option, Some, None, length, take}};
ghost use Rattle.std.specs.{Prelude.{drop, slice_set, IfOk, ⊤}, Vec.Ownership.FitsInBlock};
ghost use Rattle.tp_slots.specs.{Cells.{cell_at, IsFull, IsEmpty, empty_at}, CellsOwnership.{cells_own, cells_lent, deed_owns, row_from}};
ghost use base.Fml.{ftrue};
ghost use denote.RawPtr.{Ptr, InBlock, ◌+ₚ◌};

use std::alloc::{AllocError, Allocator};
use std::marker::{Model, PhantomData, Send, Sync};
use std::mem::{align_of, size_of};

/// The address of a cell. It owns nothing.
pub struct At<X> {
    pub ptr: *mut X,
}

impl<X> Clone for At<X> {
    ghost is_clone = { λ x y. y ≡ x };

    ghost is_infallible = { λ _. ⊤ };

    fn clone(&self) -> Result<At<X>, AllocError> {
        Ok(*self)
    }
}

impl<X> Copy for At<X> {}

unsafe impl<X> Send for At<X> {}

unsafe impl<X> Sync for At<X> {}

impl<X> At<X> {
    /// Returns the address of the cell `index` cells further in the row.
    pub fn nth(self, index: usize) -> At<X>
        requires in_block { InBlock self.ptr }
        requires size { type_size X.row < 2 ^ 63 }
        requires fits { index * type_size X.row < 2 ^ 63 }
        ensures { result.ptr ≡ self.ptr +ₚ (index * type_size X.row) }
    {
        At {
            ptr: unsafe { self.ptr.add(index) },
        }
    }
}

/// The owner of cells. It takes no space at run time: its user has the addresses.
pub struct Cells<X> {
    mark: PhantomData<*const X>,
    ghost cells: { List (Ptr × Option X) },
}

impl<X> Model for Cells<X> {
    ghost also_owns = { λ c. cells_own X.row c.cells };

    ghost also_shares = { λ c _ κ. cells_lent X.row c.cells κ };
}

unsafe impl<X: Send> Send for Cells<X> {}

unsafe impl<X: Sync> Sync for Cells<X> {}

/// The right to free the block of `len` cells at `at`, which came from `alloc`. It takes no space at run time.
pub struct Deed<X, A: Allocator> {
    mark: PhantomData<*const (X, A)>,
    ghost at: { Ptr },
    ghost len: { ℕ },
    ghost alloc: { A },
    ghost row: { List Ptr },
}

impl<X, A: Allocator> Model for Deed<X, A> {
    ghost also_owns = { λ d. deed_owns X.row (A.dealloc_token d.alloc) d.at d.len d.row };

    ghost also_shares = { λ _ _ _. ftrue };
}

unsafe impl<X, A: Allocator + Send> Send for Deed<X, A> {}

// A `&` to it gives access to nothing.
unsafe impl<X, A: Allocator> Sync for Deed<X, A> {}

/// Allocates a block of empty cells in a row.
pub fn allocate<X, A: Allocator>(
    alloc: &A,
    len: usize,
) -> Result<(At<X>, Cells<X>, Deed<X, A>), AllocError>
    requires { FitsInBlock X.row len }
    ensures { IfOk result (λ r. (r.1.cells ≡ row_from X.row r.0.ptr len) × (r.1.cells ≡ empty_at r.2.row) × (r.2.at ≡ r.0.ptr)
        × (r.2.len ≡ len) × (r.2.alloc ≡ alloc.now) × InBlock r.0.ptr) }
{
    match alloc.allocate(len * size_of::<X>(), align_of::<X>()) {
        Ok(block) => {
            let at = At {
                ptr: block as *mut X,
            };
            Ok((at, Cells { mark: PhantomData }, Deed { mark: PhantomData }))
        }
        Err(error) => Err(error),
    }
}

/// Frees a block of empty cells.
pub fn deallocate<X, A: Allocator>(
    alloc: &A,
    at: At<X>,
    len: usize,
    cells: Cells<X>,
    deed: Deed<X, A>,
)
    requires { (0 < len) × (cells.cells ≡ empty_at deed.row) × (deed.at ≡ at.ptr) × (deed.len ≡ len) × (deed.alloc ≡ alloc.now) }
{
    let Cells { mark: _ } = cells;
    let Deed { mark: _ } = deed;
    unsafe {
        alloc.deallocate(at.ptr as *mut u8, len * size_of::<X>(), align_of::<X>());
    }
}

impl<X> Cells<X> {
    ghost use Rattle.tp_slots.specs.CellsLends.{lends_cell};

    /// Returns the owner of no cells.
    pub fn new() -> Cells<X>
        ensures { result.cells ≡ [] }
    {
        Cells { mark: PhantomData }
    }

    /// Drops the owner of no cells.
    pub fn end(self)
        requires { self.cells ≡ [] }
    {
        let Cells { mark: _ } = self;
    }

    /// Returns the value in the cell.
    pub fn get(&self, at: At<X>, index: usize) -> &X
        requires { IsFull self.now.cells index at.ptr }
        ensures { cell_at self.now.cells index ≡ (at.ptr, Some result.now) }
    {
        let _ = index;
        unsafe { &*at.ptr }
    }

    /// Returns the value in the cell, for writing.
    pub fn get_mut(&mut self, at: At<X>, index: usize) -> &mut X
        requires { IsFull self.old.cells index at.ptr }
        ensures* writes_back { sem 𝓛 (lends_cell X.row self.entry at.ptr index result) }
        ensures value { cell_at self.old.cells index ≡ (at.ptr, Some result.now) }
    {
        let _ = index;
        unsafe { &mut *at.ptr }
    }

    /// Takes over the cells of another owner, which come after its own.
    pub fn join(&mut self, other: Cells<X>)
        ensures { self.new.cells ≡ self.old.cells ++ other.cells }
    {
        let Cells { mark: _ } = other;
    }

    /// Keeps the first `len` cells, and returns the owner of the others.
    pub fn split_off(&mut self, len: usize) -> Cells<X>
        ensures kept { self.new.cells ≡ take len self.old.cells }
        ensures given { result.cells ≡ drop len self.old.cells }
    {
        let _ = len;
        Cells { mark: PhantomData }
    }

    /// Moves a value into the empty cell.
    pub fn write(&mut self, at: At<X>, index: usize, value: X)
        requires { IsEmpty self.old.cells index at.ptr }
        ensures { self.new.cells ≡ slice_set self.old.cells index (at.ptr, Some value) }
    {
        let _ = index;
        unsafe { at.ptr.write(value) }
    }

    /// Moves the value out of the cell, which is empty afterwards.
    pub fn read(&mut self, at: At<X>, index: usize) -> X
        requires { IsFull self.old.cells index at.ptr }
        ensures value { cell_at self.old.cells index ≡ (at.ptr, Some result) }
        ensures cells { self.new.cells ≡ slice_set self.old.cells index (at.ptr, None) }
    {
        let _ = index;
        unsafe { at.ptr.read() }
    }
}
