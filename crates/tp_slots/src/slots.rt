//! The trait of all kinds of slots, with its contracts.
ghost use Rattle.std.specs.{Borrow.{sem, Lends}, Prelude.{◌≡◌, ℕ, ◌+◌, ◌<◌, ◌≤◌, None, Some, IsOk, IfOk, IfErr, IfSome, OnOk}};
ghost use Rattle.tp_slots.specs.Content.{Content, nothing_held, item_at, IsTaken, IsIdle, held_count, refusal_of_take, with_item};
ghost use Rattle.tp_slots.specs.Content.{without_item, with_ready, without_next, front};

use std::alloc::Global;
use tp_base::{CLASSES, MAX_LIVE_TASKS, Refusal};

/// The place of an item, from when it is taken in until it is given back.
pub type Place = usize;

/// Items at places, at most 65,536, and a queue of ready places for each of four classes.
///
/// Contracts see the items as a map from place to item, the four queues, and separately the room: how many more items
/// can be taken in before memory has to grow.
pub trait Slots<T> {
    /// The items and queues, however they are stored.
    ghost content: { Self → Content T };

    /// How many more items fit into the memory that is allocated.
    ghost room: { Self → ℕ };

    /// The same slots with this item at the place.
    ghost rewritten: { Self → ℕ → T → Self };

    /// Returns empty slots. It allocates nothing.
    fn new(alloc: Global) -> Self
        ensures { content result ≡ nothing_held };

    /// Reserves room for one more item. The room never shrinks, even if the call is refused.
    ///
    /// Refused with `StoreFull` if 65,536 items are held, `NoMemory` if an allocation fails.
    fn reserve(&mut self) -> Result<(), Refusal>
        ensures content { content self.new ≡ content self.old }
        ensures room { OnOk result (0 < room self.new) }
        ensures keeps { room self.old ≤ room self.new }
        ensures not_full { OnOk result (held_count (content self.old) < MAX_LIVE_TASKS) }

        // It fails only if there was no room.
        ensures refusal { IfErr result (λ e. e ≡ refusal_of_take (content self.old)) }
        ensures had_room { 0 < room self.old → IsOk result };

    /// Takes the item in at a free place and returns the place. The caller has reserved the room, so nothing is
    /// allocated, neither here nor in a later `push_ready` of the place.
    fn take_reserved(&mut self, item: T) -> Place
        requires { 0 < room self.old }
        ensures fresh { item_at (content self.old) result ≡ None }
        ensures content { content self.new ≡ with_item (content self.old) result item }
        ensures idle { IsIdle (content self.new) result }
        ensures room { room self.new + 1 ≡ room self.old }
        ensures not_full { held_count (content self.old) < MAX_LIVE_TASKS };

    /// Takes the item in at a free place and returns the place: `reserve`, then `take_reserved`. A refused item is
    /// returned.
    ///
    /// Refused with `StoreFull` if 65,536 items are held, `NoMemory` if an allocation fails.
    fn take(&mut self, item: T) -> Result<Place, (Refusal, T)>
        ensures fresh { IfOk result (λ place. item_at (content self.old) place ≡ None) }
        ensures content { IfOk result (λ place. content self.new ≡ with_item (content self.old) place item) }
        ensures idle { IfOk result (IsIdle (content self.new)) }
        ensures room { room self.old ≤ room self.new + 1 }
        ensures not_full { OnOk result (held_count (content self.old) < MAX_LIVE_TASKS) }

        ensures refusal { IfErr result (λ e. e.0 ≡ refusal_of_take (content self.old)) }
        ensures item_returned { IfErr result (λ e. e.1 ≡ item) }
        ensures unchanged { IfErr result (λ e. content self.new ≡ content self.old) }
        ensures had_room { 0 < room self.old → IsOk result }
    {
        match self.reserve() {
            Ok(()) => Ok(self.take_reserved(item)),
            Err(refusal) => Err((refusal, item)),
        }
    }

    /// Puts the place at the end of the queue of its class, 0 to 3.
    fn push_ready(&mut self, place: Place, class: u8)
        requires idle { IsIdle (content self.old) place }
        requires class_in_range { class < CLASSES }
        ensures content { content self.new ≡ with_ready (content self.old) class place }
        ensures room { room self.old ≤ room self.new };

    /// Removes and returns the first place of the first queue that is not empty, or returns `None`. The place stays
    /// taken.
    fn pop_ready(&mut self) -> Option<Place>
        ensures next { result ≡ front (content self.old).ready }
        ensures content { content self.new ≡ without_next (content self.old) }
        ensures idle { IfSome result (IsIdle (content self.new)) }
        ensures room { room self.old ≤ room self.new };

    /// Returns the item at a taken place.
    fn get(&self, place: Place) -> &T
        requires { IsTaken (content self.now) place }
        ensures { item_at (content self.now) place ≡ Some result.now };

    /// Returns the item at a taken place, for writing.
    fn get_mut(&mut self, place: Place) -> &mut T
        requires { IsTaken (content self.old) place }
        // Once the borrow ends, the slots are `rewritten` of the last value written, which is the item there.
        ensures* writes_back { sem 𝓛 (Lends Self.row T.row self.entry result (rewritten self.old place)) }
        ensures value { item_at (content self.old) place ≡ Some result.now }
        ensures content { (w : T) → content (rewritten self.old place w) ≡ with_item (content self.old) place w }
        ensures room { (w : T) → room (rewritten self.old place w) ≡ room self.old };

    /// Removes and returns the item at a place that is in no queue. The place is then free, and its room is available
    /// again.
    fn give_back(&mut self, place: Place) -> T
        requires { IsIdle (content self.old) place }
        ensures value { item_at (content self.old) place ≡ Some result }
        ensures content { content self.new ≡ without_item (content self.old) place }
        ensures room { room self.old + 1 ≤ room self.new };
}
