//! The slots that pools use, over raw memory.
ghost use Rattle.std.specs.Prelude.{◌≡◌, None};

use crate::blocks::{BLOCK, BLOCKS, Block, add_block, empty_cells, free_blocks};
use crate::lists::{pop_from, push_to};
use crate::{
    At, Cells, Chain, Link, Place, Slot, Slots, item, item_mut, put_front, put_item, take_front,
    take_item,
};
use std::alloc::Global;
use std::marker::Model;
use tp_base::Refusal;

/// Slots in blocks of 256 that never move. The free list and the four ready queues are linked through the slots
/// themselves, so only a new block allocates. There are at most 256 blocks.
pub struct RawSlots<T> {
    alloc: Global,
    blocks: Vec<Block<T>>,
    // The address of each slot.
    table: Vec<At<Slot<T>>>,
    cells: Cells<Slot<T>>,
    // The number of slots that were ever used: the first ones.
    used: usize,
    // The number of slots without an item.
    room: usize,
    free: Chain<T>,
    ready: [Chain<T>; 4],
}

impl<T> Model for RawSlots<T> {
    ghost use Rattle.tp_slots.specs.{RawSlots.{raw_content, IsRaw}, SlabSlots.{Roomy, roomy_code}};

    ghost Value = { Roomy T };

    ghost coded = { roomy_code T.code };

    ghost view = { λ s. record { content = raw_content s.cells.cells s.ready; room = s.room } };

    ghost invariant = { λ s. IsRaw s.alloc s.blocks.items s.table.items s.cells.cells s.used s.room s.free s.ready };
}

// Returns a list without slots.
fn no_slots<T>() -> Chain<T>
    ensures front { result.front ≡ None }
    ensures back { result.back ≡ None }
{
    Chain {
        front: None,
        back: None,
    }
}

impl<T: Drop> Drop for RawSlots<T> {
    fn drop(self) {
        let RawSlots {
            alloc,
            blocks,
            table,
            mut cells,
            used,
            room: _,
            free: _,
            ready: _,
        } = self;
        empty_cells(&table, &mut cells, used);
        free_blocks(alloc, blocks, cells);
    }
}

impl<T> Slots<T> for RawSlots<T> {
    ghost use Rattle.tp_slots.specs.Content.{with_item};

    ghost content = { λ s. s.content };

    ghost room = { λ s. s.room };

    ghost rewritten = { λ s place item. record s { content = with_item s.content place item } };

    fn new(alloc: Global) -> Self {
        RawSlots {
            alloc,
            blocks: Vec::new(alloc),
            table: Vec::new(alloc),
            cells: Cells::new(),
            used: 0,
            room: 0,
            free: no_slots(),
            ready: [no_slots(), no_slots(), no_slots(), no_slots()],
        }
    }

    fn reserve(&mut self) -> Result<(), Refusal> {
        if self.room > 0 {
            return Ok(());
        }
        if self.blocks.len() == BLOCKS {
            return Err(Refusal::StoreFull);
        }
        add_block(
            self.alloc,
            &mut self.blocks,
            &mut self.table,
            &mut self.cells,
        )?;
        self.room = BLOCK;
        Ok(())
    }

    fn take_reserved(&mut self, item: T) -> Place {
        self.room -= 1;
        match take_front(&self.cells, &mut self.free) {
            Some(link) => {
                put_item(&mut self.cells, link, item);
                return link.place;
            }
            None => {}
        }
        let place = self.used;
        let at = self.table[place];
        let slot = Slot {
            next: None,
            item: Some(item),
        };
        self.cells.write(at, place, slot);
        self.used += 1;
        place
    }

    fn push_ready(&mut self, place: Place, class: u8) {
        let at = self.table[place];
        let link = Link { ptr: at.ptr, place };
        push_to(&mut self.cells, &mut self.ready, class as usize, link);
    }

    fn pop_ready(&mut self) -> Option<Place> {
        match pop_from(&self.cells, &mut self.ready) {
            Some(link) => return Some(link.place),
            None => {}
        }
        None
    }

    fn get(&self, place: Place) -> &T {
        let at = self.table[place];
        item(&self.cells, Link { ptr: at.ptr, place })
    }

    fn get_mut(&mut self, place: Place) -> &mut T {
        let at = self.table[place];
        item_mut(&mut self.cells, Link { ptr: at.ptr, place })
    }

    fn give_back(&mut self, place: Place) -> T {
        let at = self.table[place];
        let link = Link { ptr: at.ptr, place };
        let item = take_item(&mut self.cells, link);
        put_front(&mut self.cells, &mut self.free, link);
        self.room += 1;
        item
    }
}
