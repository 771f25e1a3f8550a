//! The steps that a core has taken: a list of them, or only what a core without a list has to know.
ghost use Rattle.std.specs.Prelude.{◌≡◌, ◌≤◌, ◌<◌, ◌+◌, ◌-◌, ◌*◌, ◌/◌, ◌∷◌, ℕ, List, IfErr, IfOk, OnErr, OnOk, IsOk, IsTrue, IsFalse};
ghost use Rattle.std.specs.Prelude.{length, max, min, nat_lt, vec_capacity};
ghost use Rattle.tp_base.specs.declared.{Step.Step, limits.TheConstants.MAX_STEPS};
ghost use Rattle.tp_core.specs.{Capacity.{HasPieces, end_reserved}, declared.accepting.TheConstants.MAX_COUNT};
ghost use Rattle.tp_wave.specs.{Generations.present, Sums.waves as waves_of};

use crate::past::Past;
use std::alloc::{AllocError, Global};
use std::marker::Model;
use tp_base::{MAX_STEPS, Refusal, Step};

/// The number of steps in a piece of the list of steps. The list has room to the end of the piece that it has begun, so
/// memory is requested only for a new piece.
const PIECE: usize = 1_024;

/// The steps that a core has taken, in a list or not. Contracts see the steps, newest first, whether there is a list, and
/// for how many more steps there is room in it.
#[derive(Drop)]
pub struct TakenSteps {
    past: Past,
    recorded: bool,
    list: Vec<Step>,
    // the number of steps, in whole pieces, for which the caller reserved room
    reserved: u32,
    // the number of waves in the present generation, if there is no list
    waves: u32,
}

impl Model for TakenSteps {
    ghost use Rattle.tp_core.specs.Taken.{Taken};

    ghost Value = { Taken };

    ghost use Rattle.tp_core.specs.Taken.{taken_of, IsList};

    ghost view = { taken_of };

    ghost invariant = { IsList };
}

impl TakenSteps {
    ghost use Rattle.std.specs.Prelude.{◌&&◌, None, [], reverse, not, true};
    ghost use Rattle.tp_base.specs.Checks.{first_refusal};
    ghost use Rattle.tp_core.specs.{Accepted.{HasRoom, IsRefusedFor, begins_piece, room_check}, Taken.{IsPushed, IsSame}};
    ghost use Rattle.tp_core.specs.Settled.{ends_before, rooms_check};

    /// Returns no steps. It allocates nothing.
    pub fn new(alloc: Global, recorded: bool) -> TakenSteps
        ensures { (result.steps ≡ []) × (result.recorded ≡ recorded) }
    {
        TakenSteps {
            past: Past::new(),
            recorded,
            list: Vec::new(alloc),
            reserved: 0,
            waves: 0,
        }
    }

    /// Returns whether there is a list.
    pub fn is_recorded(&self) -> bool
        ensures { result ≡ self.now.recorded }
    {
        self.recorded
    }

    /// Returns the list, oldest first, which is empty if there is none.
    pub fn list(&self) -> &[Step]
        ensures listed { IsTrue self.now.recorded → reverse result.now ≡ self.now.steps }
        ensures unlisted { IsFalse self.now.recorded → result.now ≡ [] }
    {
        self.list.as_slice()
    }

    /// Returns whether there is no list and no further wave may be started in the present generation.
    pub fn is_out_of_waves(&self) -> bool
        ensures { result ≡ (not self.now.recorded && nat_lt MAX_STEPS (waves_of (present self.now.steps))) }
    {
        !self.recorded && self.waves > MAX_STEPS
    }

    /// Makes room for one more step. Refused, with a list, with `HistoryFull` if it has 1,048,576 steps, `NoMemory` if a
    /// new piece cannot be allocated; without a list, with `StoreFull` if a counter is at its limit.
    #[inline(always)]
    pub fn make_room(&mut self, limit: bool) -> Result<(), Refusal>
        ensures same { IsSame self.old self.new }
        ensures ok { OnOk result (HasRoom self.old.recorded (length self.old.steps) limit × (1 ≤ self.new.room)) }
        ensures err { IfErr result (IsRefusedFor (first_refusal (room_check self.old.recorded (length self.old.steps) limit))
            (begins_piece self.old.recorded (length self.old.steps))) }
    {
        // (the number of steps at which the list is full is one at which a piece begins)
        if self.list.len() % PIECE == 0 {
            self.begin(limit)?;
        }
        Ok(())
    }

    /// Makes room for the step that begins a piece, or for a step without a list.
    #[cold]
    #[inline(never)]
    fn begin(&mut self, limit: bool) -> Result<(), Refusal>
        requires { IsTrue self.old.recorded → IsTrue (begins_piece true (length self.old.steps)) }
        ensures same { IsSame self.old self.new }
        ensures ok { OnOk result (HasRoom self.old.recorded (length self.old.steps) limit × (1 ≤ self.new.room)) }
        ensures err { IfErr result (IsRefusedFor (first_refusal (room_check self.old.recorded (length self.old.steps) limit))
            (begins_piece self.old.recorded (length self.old.steps))) }
    {
        if !self.recorded {
            return if limit {
                Err(Refusal::StoreFull)
            } else {
                Ok(())
            };
        }
        let taken = self.list.len();
        if taken >= MAX_STEPS as usize {
            return Err(Refusal::HistoryFull(taken as u32));
        }
        begin_piece(&mut self.list)?;
        Ok(())
    }

    /// Makes room for `more` steps, two of which start a wave. Refused, with a list, with `HistoryFull` if there would be
    /// more than 1,048,576 steps, `NoMemory` if a new piece cannot be allocated; without a list, with `StoreFull` if these
    /// would be too many waves.
    pub fn make_rooms(&mut self, more: usize) -> Result<(), Refusal>
        requires few { more ≤ PIECE }
        ensures same { IsSame self.old self.new }
        ensures ok { OnOk result
            ((first_refusal (rooms_check self.old.recorded (length self.old.steps) more (waves_of (present self.old.steps))) ≡ None)
            × (more ≤ self.new.room)) }
        ensures err { IfErr result
            (IsRefusedFor (first_refusal (rooms_check self.old.recorded (length self.old.steps) more (waves_of (present self.old.steps))))
            (ends_before self.old.recorded (length self.old.steps) more)) }
    {
        if !self.recorded {
            return if self.waves >= MAX_STEPS {
                Err(Refusal::StoreFull)
            } else {
                Ok(())
            };
        }
        let taken = self.list.len();
        if taken + more > MAX_STEPS as usize {
            return Err(Refusal::HistoryFull(taken as u32));
        }
        begin_pieces(&mut self.list, more)?;
        Ok(())
    }

    /// Adds a step, for which there is room.
    #[inline(always)]
    pub fn push(&mut self, step: Step)
        requires { 1 ≤ self.old.room }
        ensures pushed { IsPushed self.old step self.new }
        ensures room { self.old.room ≤ self.new.room + 1 }
    {
        self.past = self.past.with(&step);
        if self.recorded {
            self.list.push_reserved(step);
        } else {
            self.waves = waves_with(self.waves, step);
        }
    }

    /// Makes room for `more` steps if there is a list: to the end of a piece, and for at most 1,048,576 in all.
    pub fn reserve(&mut self, more: usize) -> Result<(), AllocError>
        requires { more < 4294967296 }
        ensures same { IsSame self.old self.new }
    {
        if self.recorded {
            let end = reserve_room(&mut self.list, more)?;
            self.reserved = self.reserved.max(end);
        }
        Ok(())
    }
}

// Makes room for the piece that the next step begins. A list that has to grow is doubled.
fn begin_piece(list: &mut Vec<Step>) -> Result<(), AllocError>
    requires few { length list.old.items < MAX_STEPS }
    ensures items { list.new.items ≡ list.old.items }
    ensures ok { OnOk result (length list.old.items + PIECE ≤ vec_capacity list.new) }
    ensures frugal { (vec_capacity list.old ≤ vec_capacity list.new)
        × (vec_capacity list.new ≤ max (vec_capacity list.old) (2 * (length list.old.items + PIECE))) }
    // In a piece for which there is room, memory does not run out.
    ensures ample { OnErr result (vec_capacity list.old < length list.old.items + PIECE) }
{
    let taken = list.len();
    if list.capacity() < taken + PIECE {
        list.reserve_exact(taken.max(PIECE))?;
    }
    Ok(())
}

// Makes room for `more` steps, to the end of a piece.
fn begin_pieces(list: &mut Vec<Step>, more: usize) -> Result<(), AllocError>
    requires full { length list.old.items + more ≤ MAX_STEPS }
    requires few { more ≤ PIECE }
    requires pieces { HasPieces (length list.old.items) (vec_capacity list.old) }
    ensures items { list.new.items ≡ list.old.items }
    ensures pieces { OnOk result (HasPieces (length list.old.items + more) (vec_capacity list.new)) }
    ensures frugal { (vec_capacity list.old ≤ vec_capacity list.new)
        × (vec_capacity list.new ≤ max (vec_capacity list.old) (2 * (length list.old.items + PIECE))) }
    // In pieces for which there is room, memory does not run out.
    ensures ample { HasPieces (length list.old.items + more) (vec_capacity list.old) → IsOk result }
    ensures err { OnErr result (IsTrue (nat_lt ((length list.old.items + (PIECE - 1)) / PIECE * PIECE) (length list.old.items + more))) }
{
    let taken = list.len();
    let end = (taken + (PIECE - 1)) / PIECE * PIECE;
    if end < taken + more && list.capacity() < end + PIECE {
        list.reserve_exact(taken.max(end + PIECE - taken))?;
    }
    Ok(())
}

// Makes room for `more` steps, to the end of a piece and for at most 1,048,576 in all. Returns the number of all steps for
// which there is room then. A list that has to grow is at least doubled.
fn reserve_room(list: &mut Vec<Step>, more: usize) -> Result<u32, AllocError>
    requires full { length list.old.items ≤ MAX_STEPS }
    requires few { more < 4294967296 }
    ensures items { list.new.items ≡ list.old.items }
    ensures end { IfOk result (λ end. end ≡ end_reserved (length list.old.items) more) }
    ensures room { IfOk result (λ end. end ≤ vec_capacity list.new) }
    // The list has the pieces of all these steps.
    ensures pieces { OnOk result ((k : ℕ) → k ≤ length list.old.items + more → k ≤ MAX_STEPS → HasPieces k (vec_capacity list.new)) }
    ensures grows { vec_capacity list.old ≤ vec_capacity list.new }
    ensures frugal { IfOk result (λ end.
        vec_capacity list.new ≤ max (max (vec_capacity list.old) end) (2 * (length list.old.items + PIECE))) }
    ensures kept { OnErr result (vec_capacity list.new ≡ vec_capacity list.old) }
{
    let taken = list.len();
    let end = ((taken + more).min(MAX_STEPS as usize) + (PIECE - 1)) / PIECE * PIECE;
    if list.capacity() < end {
        list.reserve_exact(taken.max(end - taken))?;
    }
    Ok(end as u32)
}

// Returns the number of waves after a step, or the largest number.
fn waves_with(waves: u32, step: Step) -> u32
    ensures { (past : List Step) → waves ≡ min (waves_of (present past)) MAX_COUNT
        → result ≡ min (waves_of (present (step ∷ past))) MAX_COUNT }
{
    match step {
        Step::Start => waves.saturating_add(1),
        Step::Reopen => 0,
        _ => waves,
    }
}
