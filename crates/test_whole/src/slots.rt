//! Slots in a slab and in raw memory: each takes 65,536 items, drops each item once, and loses none if an allocation fails.

use std::alloc::Global;
use std::cell::Cell;
use std::rc::Rc;
use std::test::Fail;
use tp_base::Refusal;
use tp_slots::{Command, RawSlots, Reply, SlabSlots, Slots, run_slots};

/// Returns the replies to taking items 0, 1 and so on, one more than there is room for.
fn replies_to_takes<S: Slots<u64> + Drop>(alloc: Global) -> Result<Vec<Reply>, Refusal> {
    let mut commands = Vec::new(alloc);
    for value in 0..65_537 {
        commands.push(Command::Take(value))?;
    }
    run_slots::<S>(alloc, &commands)
}

#[test]
fn the_65_537th_item_is_refused(rt: HostRuntime) -> Result<(), Fail> {
    let in_slab = replies_to_takes::<SlabSlots<u64>>(rt.alloc())?;
    let in_raw = replies_to_takes::<RawSlots<u64>>(rt.alloc())?;
    let wanted = [Reply::Taken(65_535), Reply::Refused(Refusal::StoreFull)];
    assert_eq!(rt; in_slab.get(65_535..), Some(wanted.as_slice()));
    assert_eq!(rt; in_raw.get(65_535..), Some(wanted.as_slice()));
    Ok(())
}

/// An item that counts how often it is dropped.
struct Counted {
    drops: Rc<Cell<u32>>,
}

impl Drop for Counted {
    fn drop(self) {
        let Counted { drops } = self;
        drops.set(drops.get().saturating_add(1));
    }
}

/// A list of counters, all zero.
fn counters(alloc: Global, count: usize) -> Result<Vec<Rc<Cell<u32>>>, Refusal> {
    let mut counters = Vec::new(alloc);
    for _ in 0..count {
        counters.push(Rc::new(alloc, Cell::new(0))?)?;
    }
    Ok(counters)
}

/// Takes an item in for each counter; a third of them is listed, and a third is returned.
fn fill<S: Slots<Counted>>(slots: &mut S, counters: &[Rc<Cell<u32>>]) -> Result<(), Refusal> {
    for (index, drops) in counters.iter().enumerate() {
        slots.reserve()?;
        let place = slots.take_reserved(Counted {
            drops: drops.clone()?,
        });
        match index % 3 {
            0 => slots.push_ready(place, 1),
            1 => drop(slots.give_back(place)),
            _ => {}
        }
    }
    let _place = slots.pop_ready();
    Ok(())
}

/// Returns whether each of a thousand items that fill slots is dropped once when the slots are dropped.
fn drop_each_once<S: Slots<Counted> + Drop>(alloc: Global) -> Result<bool, Refusal> {
    let counters = counters(alloc, 1000)?;
    let mut slots = S::new(alloc);
    fill(&mut slots, &counters)?;
    drop(slots);
    Ok(counters.iter().all(|drops| drops.get() == 1))
}

#[test]
fn each_item_is_dropped_once(rt: HostRuntime) -> Result<(), Fail> {
    assert_eq!(rt; drop_each_once::<SlabSlots<Counted>>(rt.alloc()), Ok(true));
    assert_eq!(rt; drop_each_once::<RawSlots<Counted>>(rt.alloc()), Ok(true));
    Ok(())
}

/// Takes the items 0, 1 and so on in and lists them, each again if it was refused. Returns whether each refused item came
/// back and all of them come out in order.
fn take_again<S: Slots<u64>>(slots: &mut S, count: u64) -> Result<bool, Refusal> {
    for value in 0..count {
        let taken = match slots.take(value) {
            Ok(place) => Ok(place),
            Err((_, back)) => slots.take(back),
        };
        match taken {
            Ok(place) => slots.push_ready(place, 0),
            Err((refusal, _)) => return Err(refusal),
        }
    }
    for value in 0..count {
        let Some(place) = slots.pop_ready() else {
            return Ok(false);
        };
        if slots.give_back(place) != value {
            return Ok(false);
        }
    }
    Ok(slots.pop_ready() == None)
}

fn all_come_back<S: Slots<u64> + Drop>(alloc: Global) -> Result<bool, Refusal> {
    let mut slots = S::new(alloc);
    take_again(&mut slots, 600)
}

/// If one allocation fails, as `rt try --test --fail-alloc N` makes it, nothing is lost.
#[test]
fn a_refused_growth_loses_nothing(rt: HostRuntime) -> Result<(), Fail> {
    assert_eq!(rt; all_come_back::<SlabSlots<u64>>(rt.alloc()), Ok(true));
    assert_eq!(rt; all_come_back::<RawSlots<u64>>(rt.alloc()), Ok(true));
    Ok(())
}
