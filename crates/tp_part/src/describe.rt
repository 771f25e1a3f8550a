//! What `task` adds to a part: the places of own inputs, and edges. If memory runs out, edges that were added are taken away.
ghost use Rattle.std.specs.{List.list_all, Prelude.{◌≡◌, ◌≢◌, ◌≤◌, ◌+◌, ◌++◌, ℕ, length, slice_get, Some, IfOk, IfSome, IfNone, OnOk}};
ghost use Rattle.std.specs.Prelude.{OnErr, nat_lt};
ghost use Rattle.tp_dag.specs.declared.limits.TheConstants.{MAX_INPUTS};
ghost use Rattle.tp_part.specs.{Calls.{own_places, edges_to, with_messages}, Kept.Ascends, State.place_in};

use crate::edges::Edges;
use std::alloc::{AllocError, Global};

/// Returns whether each number is below `described`.
pub(crate) fn all_below(numbers: &[u32], described: u32) -> bool
    ensures { result ≡ list_all (λ u. nat_lt u described) numbers.now }
{
    numbers.iter().all(|number| *number < described)
}

/// Returns the place of a number among numbers that ascend.
pub(crate) fn place_of(numbers: &[u32], number: u32) -> Option<u32>
    requires ascends { Ascends numbers.now }
    requires few { length numbers.now ≤ MAX_INPUTS }
    ensures { result ≡ place_in numbers.now number }
{
    match numbers.binary_search(&number) {
        Ok(place) => Some(place as u32),
        Err(_) => None,
    }
}

/// Returns the places of those inputs that are own tasks.
pub(crate) fn places_of(
    alloc: Global,
    numbers: &[u32],
    inputs: &[u32],
) -> Result<Vec<u32>, AllocError>
    requires ascends { Ascends numbers.now }
    requires few { length numbers.now ≤ MAX_INPUTS }
    ensures { IfOk result (λ places. places.items ≡ own_places numbers.now inputs.now) }
{
    let mut places = Vec::new(alloc);
    for input in inputs {
        if let Some(place) = place_of(numbers, *input) {
            places.push(place)?;
        }
    }
    Ok(places)
}

/// Adds an edge from each input that is not an own task to the own task at this place.
pub(crate) fn add_incoming(
    incoming: &mut Edges,
    numbers: &[u32],
    inputs: &[u32],
    place: u32,
) -> Result<(), AllocError>
    requires ascends { Ascends numbers.now }
    requires few { length numbers.now ≤ MAX_INPUTS }
    requires room { length incoming.old + length inputs.now ≤ MAX_INPUTS }
    ensures ok { OnOk result (incoming.new ≡ incoming.old ++ edges_to place numbers.now inputs.now) }
    ensures err { OnErr result (incoming.new ≡ incoming.old) }
{
    let before = incoming.len();
    for input in inputs {
        if place_of(numbers, *input).is_none() && incoming.add(*input, place).is_err() {
            incoming.truncate(before);
            return Err(AllocError);
        }
    }
    Ok(())
}

/// Adds an edge from each input that is an own task to part `to`, if there is none.
pub(crate) fn add_outgoing(
    outgoing: &mut Edges,
    numbers: &[u32],
    inputs: &[u32],
    to: u32,
) -> Result<(), AllocError>
    requires ascends { Ascends numbers.now }
    requires few { length numbers.now ≤ MAX_INPUTS }
    requires room { length outgoing.old + length inputs.now ≤ MAX_INPUTS }
    ensures ok { OnOk result (outgoing.new ≡ with_messages to numbers.now inputs.now outgoing.old) }
    ensures err { OnErr result (outgoing.new ≡ outgoing.old) }
{
    let before = outgoing.len();
    for input in inputs {
        if place_of(numbers, *input).is_some()
            && !outgoing.has(*input, to)
            && outgoing.add(*input, to).is_err()
        {
            outgoing.truncate(before);
            return Err(AllocError);
        }
    }
    Ok(())
}
