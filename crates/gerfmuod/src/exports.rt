//! The exported functions on a core. `gerfmuod/core.h` declares them, and says for which reasons each is refused.
ghost use Rattle.gerfmuod.specs.Calls.{IsByCall, IsClosed, IsCountersCall, IsRestartCall, IsSettleCall, IsStepCall, IsTraceCall};
ghost use Rattle.gerfmuod.specs.Calls.{IsLeftCall, IsReserveCall, IsStepsCall, IsStatusCall};
ghost use Rattle.gerfmuod.specs.Calls.{raw_step, CoreState, opened, opened_as, opening};
ghost use Rattle.gerfmuod.specs.contracts.slot.CoreSlot.{the_row as slot_row};
ghost use Rattle.std.specs.{Borrow.{full_share, sem}, Prelude.{◌≡◌, ◌≤◌, false}, Ptr.{lies_at, room_at}};

use crate::answer::{Counters, LeftTask, Settled, Status, StepResult, Written};
use crate::batch;
use crate::calls::{answered, answered_by, counted, left, opening, reserved, seen, settled};
use crate::raw_step::RawStep;
use crate::slot::CoreSlot;
use crate::text::traced;
use std::alloc::Global;

/// The version of the library, 0.1.0: 10,000 x major + 100 x minor + patch.
const VERSION: u32 = 100;

/// Returns the version of the library: 10,000 x major + 100 x minor + patch.
#[unsafe(no_mangle)]
pub extern "C" fn gerfmuod_version() -> u32
    ensures { result ≡ 100 }
{
    VERSION
}

/// Returns the size of a core in bytes, which is at most the 512 of the header.
#[unsafe(no_mangle)]
pub extern "C" fn gerfmuod_core_size() -> usize
    ensures { result ≤ 512 }
{
    size_of::<CoreSlot>()
}

/// Opens a core in the memory at `core`. It allocates nothing. Returns 0, or 26, `BadSpec`, if `nodes` is not 1 to 8: then the core
/// is not open.
#[unsafe(no_mangle)]
pub unsafe extern "C" fn gerfmuod_core_open(alloc: Global, core: *mut u8, nodes: u32) -> u32
    requires* { sem 𝓛 (room_at slot_row core) }
    ensures* { sem 𝓛 (lies_at slot_row full_share core (opened nodes)) ∗ ⌜ result ≡ opening nodes ⌝ }
{
    let made = CoreSlot::open(alloc, nodes);
    (core as *mut CoreSlot).write(made);
    opening(nodes)
}

/// Opens a core as `gerfmuod_core_open` does that keeps no list of its steps, so that it takes any number of them and has no
/// trace. It is refused as 23, `StoreFull`, where `Core::step` says so, and not as 16, `HistoryFull`.
#[unsafe(no_mangle)]
pub unsafe extern "C" fn gerfmuod_core_open_unrecorded(
    alloc: Global,
    core: *mut u8,
    nodes: u32,
) -> u32
    requires* { sem 𝓛 (room_at slot_row core) }
    ensures* { sem 𝓛 (lies_at slot_row full_share core (opened_as false nodes)) ∗ ⌜ result ≡ opening nodes ⌝ }
{
    let made = CoreSlot::open_unrecorded(alloc, nodes);
    (core as *mut CoreSlot).write(made);
    opening(nodes)
}

/// Reserves memory for `steps` more steps, for tasks with numbers below `tasks`, and for messages with numbers below
/// `messages`. It takes no step, and no other call shows a difference. If an allocation fails, what was reserved stays reserved.
#[unsafe(no_mangle)]
pub unsafe extern "C" fn gerfmuod_core_reserve(
    core: *mut u8,
    steps: u32,
    tasks: u32,
    messages: u32,
) -> u32
    ghost old: { CoreState }
    requires* { sem 𝓛 (lies_at slot_row full_share core old) }
    ensures* { ∃ₛ (λ (new : CoreState). sem 𝓛 (lies_at slot_row full_share core new) ∗ ⌜ IsReserveCall old result new ⌝) }
{
    reserved(&mut *(core as *mut CoreSlot), steps, tasks, messages)
}

/// Takes the next step if it is lawful and there is room for it. If `event` in the result is 3, the pool had terminated with a
/// wave: it was quiet when that wave ended.
#[unsafe(no_mangle)]
pub unsafe extern "C" fn gerfmuod_core_step(
    core: *mut u8,
    kind: u32,
    first: u32,
    second: u32,
    third: u32,
    generation: u32,
) -> StepResult
    ghost old: { CoreState }
    requires* { sem 𝓛 (lies_at slot_row full_share core old) }
    ensures* { ∃ₛ (λ (new : CoreState). sem 𝓛 (lies_at slot_row full_share core new)
        ∗ ⌜ IsStepCall (raw_step kind first second third generation) old result new ⌝) }
{
    let slot = &mut *(core as *mut CoreSlot);
    answered(slot, kind, first, second, third, generation)
}

/// Takes steps in order, up to the first that is refused. Returns how many were taken. The result of each, and that of the refused
/// step, are written to the start of `results`. Steps without a place for their result are not taken.
#[unsafe(no_mangle)]
pub unsafe extern "C" fn gerfmuod_core_steps(
    core: *mut u8,
    steps: &[RawStep],
    results: &mut [StepResult],
) -> usize
    ghost old: { CoreState }
    requires* { sem 𝓛 (lies_at slot_row full_share core old) }
    ensures* { ∃ₛ (λ (new : CoreState). sem 𝓛 (lies_at slot_row full_share core new)
        ∗ ⌜ IsStepsCall steps.now results.old old (result, results.new) new ⌝) }
{
    batch::steps(&mut *(core as *mut CoreSlot), steps, results)
}

/// Takes the next step as `gerfmuod_core_step` does, if its maker may make it: at the node of the step, a running task
/// (`maker_kind` 0), an open action (1), a message that was received and has not ended (2) or the opening of the node (3); or a
/// thread of node `maker` (4), which may begin and finish tasks.
#[unsafe(no_mangle)]
pub unsafe extern "C" fn gerfmuod_core_step_by(
    core: *mut u8,
    maker_kind: u32,
    maker: u32,
    kind: u32,
    first: u32,
    second: u32,
    third: u32,
    generation: u32,
) -> StepResult
    ghost old: { CoreState }
    requires* { sem 𝓛 (lies_at slot_row full_share core old) }
    ensures* { ∃ₛ (λ (new : CoreState). sem 𝓛 (lies_at slot_row full_share core new)
        ∗ ⌜ IsByCall maker_kind maker (raw_step kind first second third generation) old result new ⌝) }
{
    let slot = &mut *(core as *mut CoreSlot);
    answered_by(
        slot, maker_kind, maker, kind, first, second, third, generation,
    )
}

/// Returns the counters of a node.
#[unsafe(no_mangle)]
pub unsafe extern "C" fn gerfmuod_core_counters(core: *mut u8, node: u32) -> Counters
    ghost old: { CoreState }
    requires* { sem 𝓛 (lies_at slot_row full_share core old) }
    ensures* { ∃ₛ (λ (new : CoreState). sem 𝓛 (lies_at slot_row full_share core new) ∗ ⌜ IsCountersCall node old result new ⌝) }
{
    counted(&mut *(core as *mut CoreSlot), node)
}

/// Returns the task with the lowest number from `from` on and below `end` that is not done, if there is one. It looks up each
/// number up to that one, so it takes time in proportion to how many there are.
#[unsafe(no_mangle)]
pub unsafe extern "C" fn gerfmuod_core_left(core: *mut u8, from: u32, end: u32) -> LeftTask
    ghost old: { CoreState }
    requires* { sem 𝓛 (lies_at slot_row full_share core old) }
    ensures* { ∃ₛ (λ (new : CoreState). sem 𝓛 (lies_at slot_row full_share core new) ∗ ⌜ IsLeftCall from end old result new ⌝) }
{
    left(&mut *(core as *mut CoreSlot), from, end)
}

/// Returns the counters of the pool as a whole. If no call can be made on the core, all are 0 and it is not quiet.
#[unsafe(no_mangle)]
pub unsafe extern "C" fn gerfmuod_core_status(core: *mut u8) -> Status
    ghost old: { CoreState }
    requires* { sem 𝓛 (lies_at slot_row full_share core old) }
    ensures* { ∃ₛ (λ (new : CoreState). sem 𝓛 (lies_at slot_row full_share core new) ∗ ⌜ IsStatusCall old result new ⌝) }
{
    seen(&mut *(core as *mut CoreSlot))
}

/// Takes control steps until termination is detected, if the pool is quiet. There is always room for them.
#[unsafe(no_mangle)]
pub unsafe extern "C" fn gerfmuod_core_settle(core: *mut u8) -> Settled
    ghost old: { CoreState }
    requires* { sem 𝓛 (lies_at slot_row full_share core old) }
    ensures* { ∃ₛ (λ (new : CoreState). sem 𝓛 (lies_at slot_row full_share core new) ∗ ⌜ IsSettleCall old result new ⌝) }
{
    settled(&mut *(core as *mut CoreSlot))
}

/// Writes the trace of the steps that were taken to the start of `buffer`. `tp audit` and `gerfmuod_audit` judge it.
#[unsafe(no_mangle)]
pub unsafe extern "C" fn gerfmuod_core_trace(
    core: *mut u8,
    alloc: Global,
    buffer: &mut [u8],
) -> Written
    ghost old: { CoreState }
    requires* { sem 𝓛 (lies_at slot_row full_share core old) }
    ensures* { ∃ₛ (λ (new : CoreState). sem 𝓛 (lies_at slot_row full_share core new)
        ∗ ⌜ IsTraceCall buffer.old old (result, buffer.new) new ⌝) }
{
    traced(&mut *(core as *mut CoreSlot), alloc, buffer)
}

/// Begins anew with the same nodes and no steps, if termination of the present generation was detected.
#[unsafe(no_mangle)]
pub unsafe extern "C" fn gerfmuod_core_restart(core: *mut u8) -> u32
    ghost old: { CoreState }
    requires* { sem 𝓛 (lies_at slot_row full_share core old) }
    ensures* { ∃ₛ (λ (new : CoreState). sem 𝓛 (lies_at slot_row full_share core new) ∗ ⌜ IsRestartCall old result new ⌝) }
{
    CoreSlot::restart(&mut *(core as *mut CoreSlot))
}

/// Frees the memory that the core has allocated. After that the core is not open.
#[unsafe(no_mangle)]
pub unsafe extern "C" fn gerfmuod_core_close(core: *mut u8) -> u32
    ghost old: { CoreState }
    requires* { sem 𝓛 (lies_at slot_row full_share core old) }
    ensures* { ∃ₛ (λ (new : CoreState). sem 𝓛 (lies_at slot_row full_share core new) ∗ ⌜ IsClosed old result new ⌝) }
{
    CoreSlot::close(&mut *(core as *mut CoreSlot))
}
