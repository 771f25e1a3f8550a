//! What a thread says as it enters a turn, and what it is to do next.

use crate::refusal::Fault;

/// How a thread comes to a turn.
#[derive(Clone, Copy, Debug, PartialEq, Eq)]
pub enum Arrival {
    /// Its last turn returned a task to run, or it has had none.
    New,
    /// Its last turn returned `Spin`.
    Spun,
    /// Its last turn returned `Sleep`.
    Woken,
}

/// What a thread is to do next.
#[derive(Clone, Copy, Debug, PartialEq, Eq)]
pub enum Turn {
    /// Run this task, and report it in the next turn.
    Run(u32),
    /// Release the lock, pause, and come back as `Spun`.
    Spin,
    /// Wait for the condition variable, and come back as `Woken`.
    Sleep,
    /// Leave: all tasks are done.
    Over,
    /// Leave: no thread runs a task of this team any more. Or too many threads wait: then the team goes on without this thread.
    Refused(Fault),
}

/// The result of a turn.
#[derive(Clone, Copy, Debug, PartialEq, Eq)]
pub struct Reply {
    pub turn: Turn,
    /// How many sleeping threads are to be signalled, before the lock is released.
    pub signals: u32,
}

/// The result of adding a task.
#[derive(Clone, Copy, Debug, PartialEq, Eq)]
pub struct Spawned {
    pub task: u32,
    /// How many sleeping threads are to be signalled, before the lock is released.
    pub signals: u32,
}
