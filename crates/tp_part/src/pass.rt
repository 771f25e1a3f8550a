//! A value is passed on along its edges: to own tasks that wait for it, or to the messages that are due.
ghost use Rattle.std.specs.{Prelude.{◌≡◌, ◌≤◌, ◌+◌, ◌++◌, length, false}, Vec.vec_capacity};
ghost use Rattle.tp_dag.specs.Calls.{Awaits, Becomes, one_less};
ghost use Rattle.tp_part.specs.{Calls.has_arrived, Edges.{pass, places}, Kept.{AreAwaited, SameBut}};

use crate::edges::Edges;
use tp_dag::Pool;

/// A task waits for one input from outside less; the pool cannot refuse it.
fn release(pool: &mut Pool, task: u32)
    requires { Awaits task pool.old }
    ensures { Becomes task one_less pool.old pool.new }
{
    let _ = pool.release(task);
}

/// A value of another part arrived: each own task that reads it waits for one input less.
pub(crate) fn release_readers(incoming: &mut Edges, pool: &mut Pool, value: u32)
    requires awaited { AreAwaited incoming.old pool.old.tasks }
    requires fresh { has_arrived value incoming.old ≡ false }
    ensures passed { incoming.new ≡ pass value incoming.old }
    ensures awaited { AreAwaited incoming.new pool.new.tasks }
    ensures same { SameBut pool.old pool.new }
{
    let mut left = incoming.newest(value);
    while 0 < left {
        let edge = incoming.at(left - 1);
        release(pool, edge.target);
        incoming.pass(left - 1);
        left = incoming.older(left - 1);
    }
}

/// An own task is done: its messages are due, the newest edge first.
pub(crate) fn post_messages(outgoing: &mut Edges, outbox: &mut Vec<u32>, value: u32)
    requires room { length outbox.old.items + length (places value outgoing.old (length outgoing.old)) ≤ vec_capacity outbox.old }
    ensures passed { outgoing.new ≡ pass value outgoing.old }
    ensures posted { outbox.new.items ≡ outbox.old.items ++ places value outgoing.old (length outgoing.old) }
    ensures same { vec_capacity outbox.new ≡ vec_capacity outbox.old }
{
    let mut left = outgoing.newest(value);
    while 0 < left {
        outbox.push_reserved(left - 1);
        outgoing.pass(left - 1);
        left = outgoing.older(left - 1);
    }
}
