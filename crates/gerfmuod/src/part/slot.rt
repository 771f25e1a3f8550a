//! The content of a `gerfmuod_part`: a part, the flow of its data handles, and a mark that says whether it is open.

use crate::slot::can_be_sent;
use std::alloc::Global;
use std::marker::Model;
use tp_flow::{Access, Flow};
use tp_part::Part;

/// The value of `mark` in an open part: `gerfpart` in ASCII.
const MARK: u64 = 0x6765_7266_7061_7274;

// The size in bytes of a `gerfmuod_part` in the header is 512.
const _: () = prove!(size_of::<PartSlot>() <= 512 && align_of::<PartSlot>() <= 8);

/// A part that is open or not.
#[derive(Drop)]
pub(crate) struct PartSlot {
    mark: u64,
    pub(crate) part: Part,
    pub(crate) flow: Flow,
    // room for the accesses and the inputs of one task
    pub(crate) accesses: Vec<Access>,
    pub(crate) inputs: Vec<u32>,
    alloc: Global,
}

impl Model for PartSlot {
    ghost use Rattle.gerfmuod.specs.Part.{PartView, state_of, HasNextNumber};

    ghost Value = { PartView };

    ghost view = { state_of };

    ghost invariant = { λ p. HasNextNumber (state_of p) };
}

impl PartSlot {
    ghost use Rattle.std.specs.Prelude.{◌≡◌};
    ghost use Rattle.gerfmuod.specs.Part.{closed_part, opened_part};

    /// Returns an open part without a task. It allocates nothing.
    pub(crate) fn open(alloc: Global, number: u32, parts: u32) -> PartSlot
        ensures { result ≡ opened_part number parts }
    {
        can_be_sent::<PartSlot>();
        PartSlot {
            mark: MARK,
            part: Part::new(alloc, number, parts),
            flow: Flow::new(alloc),
            accesses: Vec::new(alloc),
            inputs: Vec::new(alloc),
            alloc,
        }
    }

    /// Returns whether the part is open.
    pub(crate) fn is_open(&self) -> bool
        ensures { result ≡ self.now.is_open }
    {
        self.mark == MARK
    }

    /// Drops what the part allocated, and marks it as not open.
    pub(crate) fn close(&mut self)
        ensures { self.new ≡ closed_part }
    {
        *self = PartSlot::open(self.alloc, 0, 0);
        self.mark = 0;
    }
}
