//! The content of a `gerfmuod_graph`: a team, the flow of its data handles, and a mark that says whether it is open.

use crate::slot::can_be_sent;
use std::alloc::Global;
use std::marker::Model;
use tp_flow::{Access, Flow};
use tp_team::Team;

/// The value of `mark` in an open graph: `gerfgrph` in ASCII.
const MARK: u64 = 0x6765_7266_6772_7068;

// The size in bytes of a `gerfmuod_graph` in the header is 512.
const _: () = prove!(size_of::<GraphSlot>() <= 512 && align_of::<GraphSlot>() <= 8);

/// A graph that is open or not.
#[derive(Drop)]
pub(crate) struct GraphSlot {
    mark: u64,
    pub(crate) team: Team,
    pub(crate) flow: Flow,
    // room for the accesses and the inputs of one task
    pub(crate) accesses: Vec<Access>,
    pub(crate) inputs: Vec<u32>,
    alloc: Global,
}

impl Model for GraphSlot {
    ghost use Rattle.gerfmuod.specs.Part.GraphCalls.{GraphState, state_of, HasNextNumber};

    ghost Value = { GraphState };

    ghost view = { state_of };

    ghost invariant = { λ p. HasNextNumber (state_of p) };
}

impl GraphSlot {
    ghost use Rattle.std.specs.Prelude.{◌≡◌};
    ghost use Rattle.gerfmuod.specs.Part.GraphCalls.{closed, opened_graph};

    /// Returns an open graph without a task. It allocates nothing.
    pub(crate) fn open(alloc: Global, is_traced: u32, processors: u32) -> GraphSlot
        ensures { result ≡ opened_graph is_traced processors }
    {
        can_be_sent::<GraphSlot>();
        GraphSlot {
            mark: MARK,
            team: Team::open(alloc, is_traced != 0, processors),
            flow: Flow::new(alloc),
            accesses: Vec::new(alloc),
            inputs: Vec::new(alloc),
            alloc,
        }
    }

    /// Returns whether the graph is open.
    pub(crate) fn is_open(&self) -> bool
        ensures { result ≡ self.now.is_open }
    {
        self.mark == MARK
    }

    /// Drops what the graph allocated, and marks it as not open.
    pub(crate) fn close(&mut self)
        ensures { self.new ≡ closed }
    {
        *self = GraphSlot::open(self.alloc, 0, 0);
        self.mark = 0;
    }
}
