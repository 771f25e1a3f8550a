//! Simple slots over `slab` and four queues, with which the fast ones are compared.
ghost use Rattle.std.specs.{Prelude.{◌≡◌, ℕ, ◌≤◌, ◌<◌, OnOk, length, slice_index_or}, VecDeque.{deque_len, deque_capacity}};
ghost use Rattle.tp_slots.specs.{Content.{with_last, front, without_front}, SlabSlots.{places_of, EachHolds}};

use crate::slots::{Place, Slots};
use slab::Slab;
use std::alloc::{AllocError, Global};
use std::collections::VecDeque;
use std::marker::Model;
use tp_base::{MAX_LIVE_TASKS, Refusal};

/// Slots that keep the items in a `Slab`; a place is a key of the slab.
#[derive(Drop)]
pub struct SlabSlots<T> {
    items: Slab<T>,
    ready: [VecDeque<Place>; 4],
    // How many more items fit, including a place in each queue.
    room: usize,
}

impl<T> Model for SlabSlots<T> {
    ghost use Rattle.tp_slots.specs.SlabSlots.{Roomy, roomy_code, content_of, IsKept};

    ghost Value = { Roomy T };

    ghost coded = { roomy_code T.code };

    ghost view = { λ s. record { content = content_of s.items s.ready; room = s.room } };

    ghost invariant = { λ s. IsKept s.items s.ready s.room };
}

// Reserves room for `places` more places in each queue.
fn reserve_each(queues: &mut [VecDeque<Place>], places: usize) -> Result<(), AllocError>
    ensures places { places_of queues.new ≡ places_of queues.old }
    ensures capacity { (n : ℕ) → EachHolds n queues.old → EachHolds n queues.new }
    ensures ok { OnOk result (EachHolds places queues.new) }
{
    for queue in queues.iter_mut() {
        queue.reserve(places.saturating_sub(queue.len()))?;
    }
    Ok(())
}

// Puts the place at the end of a queue with room.
fn push_to(queues: &mut [VecDeque<Place>], class: usize, place: Place)
    requires in_range { class < length queues.old }
    requires room { (d : _) → deque_len (slice_index_or queues.old class d) < deque_capacity (slice_index_or queues.old class d) }
    ensures places { places_of queues.new ≡ with_last (places_of queues.old) class place }
    ensures capacity { (n : ℕ) → EachHolds n queues.old → EachHolds n queues.new }
{
    queues[class].push_back_reserved(place);
}

// Removes and returns the first place of the first queue that is not empty.
fn pop_from(queues: &mut [VecDeque<Place>]) -> Option<Place>
    ensures next { result ≡ front (places_of queues.old) }
    ensures places { places_of queues.new ≡ without_front (places_of queues.old) }
    ensures capacity { (n : ℕ) → EachHolds n queues.old → EachHolds n queues.new }
{
    for queue in queues.iter_mut() {
        match queue.pop_front() {
            Some(place) => return Some(place),
            None => {}
        }
    }
    None
}

impl<T> Slots<T> for SlabSlots<T> {
    ghost use Rattle.tp_slots.specs.Content.{with_item};

    ghost content = { λ s. s.content };

    ghost room = { λ s. s.room };

    ghost rewritten = { λ s place item. record s { content = with_item s.content place item } };

    fn new(alloc: Global) -> Self {
        SlabSlots {
            items: Slab::new(alloc),
            ready: [
                VecDeque::new(alloc),
                VecDeque::new(alloc),
                VecDeque::new(alloc),
                VecDeque::new(alloc),
            ],
            room: 0,
        }
    }

    fn reserve(&mut self) -> Result<(), Refusal> {
        if self.room > 0 {
            return Ok(());
        }
        let count = self.items.len();
        let most = MAX_LIVE_TASKS as usize;
        if count == most {
            return Err(Refusal::StoreFull);
        }
        // Doubles the slots, so that the cost of growing is amortized.
        let more = count.max(1).min(most - count);
        reserve_each(&mut self.ready, count + more)?;
        self.items.reserve(more)?;
        self.room = more;
        Ok(())
    }

    fn take_reserved(&mut self, item: T) -> Place {
        self.room -= 1;
        self.items.insert_reserved(item)
    }

    fn push_ready(&mut self, place: Place, class: u8) {
        push_to(&mut self.ready, class as usize, place);
    }

    fn pop_ready(&mut self) -> Option<Place> {
        pop_from(&mut self.ready)
    }

    fn get(&self, place: Place) -> &T {
        self.items.get(place).unwrap()
    }

    fn get_mut(&mut self, place: Place) -> &mut T {
        &mut self.items[place]
    }

    fn give_back(&mut self, place: Place) -> T {
        self.room += 1;
        self.items.remove(place)
    }
}
