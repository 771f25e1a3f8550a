//! The events of a traced pool. Room for them is reserved before a task can be dispatched, so that to record one cannot fail.
ghost use Rattle.std.specs.{Prelude.{◌≡◌, ◌≤◌, ◌<◌, ◌+◌, ◌*◌, IfErr, IsTrue, OnOk, length}, Vec.vec_capacity};
ghost use Rattle.tp_dag.specs.{Calls.with_event, Kept.kept_of};

use crate::entry::Event;
use tp_base::Refusal;

/// Makes room for two events of each of `tasks` tasks, if the pool is traced.
pub(crate) fn make_room(events: &mut Vec<Event>, traced: bool, tasks: u32) -> Result<(), Refusal>
    ensures items { events.new.items ≡ events.old.items }
    ensures room { OnOk result (IsTrue traced → length events.old.items + 2 * tasks ≤ vec_capacity events.new) }
    ensures grows { vec_capacity events.old ≤ vec_capacity events.new }
    ensures exact { IfErr result (λ r. (r ≡ Refusal.NoMemory) × IsTrue traced) }
{
    if traced {
        events.reserve(2 * tasks as usize)?;
    }
    Ok(())
}

/// Records an event, if the pool is traced.
#[inline]
pub(crate) fn record(events: &mut Vec<Event>, traced: bool, event: Event)
    requires { IsTrue traced → length events.old.items < vec_capacity events.old }
    ensures kept { kept_of traced events.new.items ≡ with_event event (kept_of traced events.old.items) }
    ensures room { vec_capacity events.new ≡ vec_capacity events.old }
    ensures count { length events.new.items ≤ length events.old.items + 1 }
{
    if traced {
        events.push_reserved(event);
    }
}
