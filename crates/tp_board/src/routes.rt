//! The routes of messages: who sent which message to whom, for the checks of received messages.
ghost use Rattle.std.specs.Prelude.{◌≡◌, ◌∷◌, ◌+◌, ◌%◌, ◌^◌, ◌≤◌, ◌<◌, [], length, max, reverse, slice_get, OnErr, OnOk};
ghost use Rattle.tp_board.specs.Routes.{is_route};

use std::alloc::{AllocError, Global};
use std::marker::Model;
use tp_base::{MessageId, NodeId};

/// How many places are allocated at a time, the same as in a history.
const PIECE: usize = 1_024;

/// The sender and the receiver of each message, by message number. Contracts see them newest first, and the room: how
/// many more fit. The number of routes and the room add up to whole pieces of 1,024, even if the list has more memory.
#[derive(Drop)]
pub struct Routes {
    ends: Vec<(NodeId, NodeId)>,
    /// The number of places, used and free. It changes only when memory grows.
    places: usize,
}

impl Model for Routes {
    ghost use Rattle.std.specs.Prelude.{◌≡◌, ◌≤◌, ◌-◌, ◌%◌, reverse, vec_len, vec_capacity};
    ghost use Rattle.tp_board.specs.{Routes.RouteTable, declared.routes.TheConstants.PIECE};

    ghost Value = { RouteTable };

    ghost view = { λ r. record { routes = reverse r.ends.items; room = r.places - vec_len r.ends } };

    ghost invariant = { λ r. (vec_len r.ends ≤ r.places) × (r.places ≤ vec_capacity r.ends) × (r.places % PIECE ≡ 0) };
}

impl Routes {
    /// Returns the routes of no message. It allocates nothing.
    pub fn new(alloc: Global) -> Routes
        ensures { result.routes ≡ [] }
    {
        Routes {
            ends: Vec::new(alloc),
            places: 0,
        }
    }

    /// Reserves room for `additional` more routes, rounded up to whole pieces of 1,024. The room never shrinks. So
    /// there is room for one more unless the number of routes is a multiple of 1,024.
    #[inline(always)]
    pub fn reserve(&mut self, additional: usize) -> Result<(), AllocError>
        requires countable { length self.old.routes + additional < 2 ^ 63 }
        ensures routes { self.new.routes ≡ self.old.routes }
        ensures room { OnOk result (additional ≤ self.new.room) }
        ensures kept { OnErr result (self.new.room ≡ self.old.room) }
        ensures keeps { self.old.room ≤ self.new.room }
        ensures few { self.new.room < max self.old.room additional + 1024 }
        ensures grows { OnErr result (self.old.room < additional) }
        ensures pieces { (length self.old.routes + self.old.room) % 1024 ≡ 0 }
    {
        if additional <= self.places - self.ends.len() {
            return Ok(());
        }
        self.grow(additional)
    }

    /// Allocates the pieces that are missing for `additional` more routes.
    #[cold]
    #[inline(never)]
    fn grow(&mut self, additional: usize) -> Result<(), AllocError>
        requires short { self.old.room < additional }
        requires countable { length self.old.routes + additional < 2 ^ 63 }
        ensures routes { self.new.routes ≡ self.old.routes }
        ensures room { OnOk result (additional ≤ self.new.room) }
        ensures kept { OnErr result (self.new.room ≡ self.old.room) }
        ensures keeps { self.old.room ≤ self.new.room }
        ensures few { self.new.room < additional + PIECE }
    {
        let room = self.places - self.ends.len();
        let more = (additional - room).div_ceil(PIECE) * PIECE;
        self.ends.reserve(room + more)?;
        self.places += more;
        Ok(())
    }

    /// Adds the route of the next message. The caller has reserved room for it.
    pub fn push_reserved(&mut self, from: NodeId, to: NodeId)
        requires { 0 < self.old.room }
        ensures routes { self.new.routes ≡ (from, to) ∷ self.old.routes }
        ensures room { self.new.room + 1 ≡ self.old.room }
    {
        self.ends.push_reserved((from, to));
    }

    /// Removes all routes. The room that they had stays.
    pub fn clear(&mut self)
        ensures routes { self.new.routes ≡ [] }
        ensures room { self.old.room ≤ self.new.room }
    {
        self.ends.clear();
    }

    /// Returns the number of messages.
    pub fn len(&self) -> usize
        ensures { result ≡ length self.now.routes }
    {
        self.ends.len()
    }

    /// Returns whether this message goes from the one node to the other.
    pub fn has(&self, from: NodeId, to: NodeId, message: MessageId) -> bool
        ensures { result ≡ is_route from.0 to.0 (slice_get (reverse self.now.routes) message.0) }
    {
        match self.ends.get(message.0 as usize) {
            Some((sender, receiver)) => sender.0 == from.0 && receiver.0 == to.0,
            None => false,
        }
    }
}
