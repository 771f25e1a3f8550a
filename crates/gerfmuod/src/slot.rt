//! The content of a `gerfmuod_core`: a core, and a mark that says whether it is open and whether a call runs on it.
ghost use Rattle.std.specs.Prelude.{◌≡◌, ◌≢◌, ◌↔◌, IsTrue, IsFalse, false};
ghost use Rattle.gerfmuod.specs.Calls.{IsClosed, IsRestartCall, can_be, opened, opened_as, refusal_of, Busy, Open};

use crate::pool::BoundedCore;
use std::alloc::Global;
use std::marker::Model;
use tp_base::{MAX_NODES, Refusal};

/// The value of `mark` in an open core: `core` in ASCII. It has 4 bytes, so that one instruction compares or writes it.
const OPEN: u32 = 0x636f_7265;

/// The value of `mark` while a call that may change the core runs: `busy` in ASCII.
const BUSY: u32 = 0x6275_7379;

/// The refusal of a call on a core on which another call runs. Only a caller who forgot a lock, or calls from inside of a
/// call, can see it.
const BUSY_REFUSAL: u16 = 28;

// The size in bytes of a `gerfmuod_core` in the header is 512.
const _: () = prove!(size_of::<CoreSlot>() <= 512 && align_of::<CoreSlot>() <= 8);

/// Compiles only for a type that can be sent to another thread: a program in C may use its core, graph or part from
/// any thread.
pub(crate) fn can_be_sent<T: Send>() {}

/// Returns whether a pool can have this number of nodes.
pub(crate) fn can_be(nodes: u32) -> bool
    ensures { result ≡ can_be nodes }
{
    1 <= nodes && nodes <= MAX_NODES
}

/// A core that is open or not. Contracts see whether it is open, whether a call runs on it, and what the core has
/// accepted.
#[derive(Drop)]
pub(crate) struct CoreSlot {
    mark: u32,
    pub(crate) room: BoundedCore,
    alloc: Global,
}

impl Model for CoreSlot {
    ghost use Rattle.gerfmuod.specs.CoreSlot.{CoreState, state_of};

    ghost Value = { CoreState };

    ghost view = { state_of };
}

impl CoreSlot {
    /// Returns a new core of this number of nodes; it is not open if there cannot be so many. It allocates nothing.
    pub(crate) fn open(alloc: Global, nodes: u32) -> CoreSlot
        ensures { result ≡ opened nodes }
    {
        CoreSlot::with_core(alloc, nodes, true)
    }

    /// Returns the same with a core that keeps no list of its steps.
    pub(crate) fn open_unrecorded(alloc: Global, nodes: u32) -> CoreSlot
        ensures { result ≡ opened_as false nodes }
    {
        CoreSlot::with_core(alloc, nodes, false)
    }

    fn with_core(alloc: Global, nodes: u32, recorded: bool) -> CoreSlot
        ensures { result ≡ opened_as recorded nodes }
    {
        can_be_sent::<CoreSlot>();
        let (mark, nodes) = if can_be(nodes) { (OPEN, nodes) } else { (0, 1) };
        CoreSlot {
            mark,
            room: BoundedCore::new(alloc, nodes, recorded),
            alloc,
        }
    }

    /// Returns whether the core is open and no call runs on it.
    #[inline(always)]
    pub(crate) fn is_open(&self) -> bool
        ensures { IsTrue result ↔ (self.now.use_is ≡ Open) }
    {
        self.mark == OPEN
    }

    /// Marks an open core as busy, and returns true. Another core does not change.
    #[inline(always)]
    pub(crate) fn enter(&mut self) -> bool
        ensures entered { IsTrue result → (self.old.use_is ≡ Open) × (self.new ≡ record { use_is = Busy; core = self.old.core }) }
        ensures refused { IsFalse result → (self.old.use_is ≢ Open) × (self.new ≡ self.old) }
    {
        if self.mark != OPEN {
            return false;
        }
        self.mark = BUSY;
        true
    }

    /// Marks the core as open, at the end of a call.
    #[inline(always)]
    pub(crate) fn leave(&mut self)
        ensures { self.new ≡ record { use_is = Open; core = self.old.core } }
    {
        self.mark = OPEN;
    }

    /// Returns the number of the refusal of a call on a core that is not open, or on which another call runs.
    #[cold]
    #[inline(never)]
    pub(crate) fn refusal(&self) -> u16
        ensures { result ≡ refusal_of self.now.use_is }
    {
        if self.mark == BUSY {
            BUSY_REFUSAL
        } else {
            u16::from(Refusal::NoPool.number())
        }
    }

    /// Replaces an open core by a new one of the same nodes, if termination was detected.
    pub(crate) fn restart(&mut self) -> u32
        ensures { IsRestartCall self.old result self.new }
    {
        if !self.enter() {
            return u32::from(self.refusal());
        }
        if !self.room.core().is_ended() {
            self.leave();
            return u32::from(Refusal::WrongLife.number());
        }
        self.room = BoundedCore::new(self.alloc, self.room.nodes(), self.room.is_recorded());
        self.leave();
        0
    }

    /// Drops the core and marks it as not open, if it is open and no call runs on it.
    pub(crate) fn close(&mut self) -> u32
        ensures { IsClosed self.old result self.new }
    {
        if !self.is_open() {
            return u32::from(self.refusal());
        }
        self.mark = 0;
        self.room = BoundedCore::new(self.alloc, 1, true);
        0
    }
}
