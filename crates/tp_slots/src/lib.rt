//! Slots: items at places that stay the same while an item is held, and four queues of ready places. What the items are
//! is not known here.
#![tactic(auto)]

mod blocks;
mod cells;
mod chains;
mod lists;
mod raw_slots;
mod run;
mod slab_slots;
mod slots;

pub use cells::{At, Cells, Deed, allocate, deallocate};
pub use chains::{
    Chain, Link, Slot, append, item, item_mut, put_front, put_item, take_front, take_item,
};
pub use raw_slots::RawSlots;
pub use run::{Command, Reply, run_slots};
pub use slab_slots::SlabSlots;
pub use slots::{Place, Slots};
