//! The results that the calls on a core return to C.

/// The result of a step.
#[repr(C)]
#[derive(Clone, Copy, Debug, PartialEq, Eq)]
pub struct StepResult {
    /// 0: the step was taken. Else the number of its refusal, and nothing changed.
    pub refused: u16,
    /// What happened with a step that was taken: 0, nothing more; 1, a wave ended; 2, its sums do not show termination; 3, the
    /// pool had terminated; 4, it was reopened; 5, it ended a task, an action, an opening or a message, and the pool is
    /// quiet after it. 0 if the step was refused.
    pub event: u16,
    /// If `event` is 1 or 3, the number of the wave; if it is 4, the number of the generation that begins; at refusal 16
    /// the number of steps that were taken. Else 0.
    pub number: u32,
    /// The number of messages that the wave that ended adds up as sent; 0 unless `event` is 1.
    pub sent: u32,
    /// The number that it adds up as received; 0 unless `event` is 1.
    pub received: u32,
}

/// The counters of a node.
#[repr(C)]
#[derive(Clone, Copy, Debug, PartialEq, Eq)]
pub struct Counters {
    /// 0; or 1, `NoNode`, if there is no such node; or 24, `NoPool`, if the core is not open: all counters are then 0.
    pub refused: u32,
    /// The number of tasks there that are not done, plus the number of actions that are open there.
    pub pending: u32,
    /// The number of messages that it has sent in the present generation.
    pub sent: u32,
    /// The number of messages that it has received in the present generation.
    pub received: u32,
}

/// A task that is not done, if there is one in a range of numbers.
#[repr(C)]
#[derive(Clone, Copy, Debug, PartialEq, Eq)]
pub struct LeftTask {
    /// 0; or 24, `NoPool`, if the core is not open; or 28, `Busy`: all else is then 0.
    pub refused: u16,
    /// 0: there is none, and all else is 0. 1: it waits for inputs; 2: it has all its inputs; 3: it runs.
    pub state: u16,
    /// The number of the task.
    pub number: u32,
    /// Its home.
    pub node: u32,
    /// The number of inputs that it waits for.
    pub missing: u32,
}

/// The pool as a whole. If the core is not open, all numbers are 0, and it is not quiet.
#[repr(C)]
#[derive(Clone, Copy, Debug, PartialEq, Eq)]
pub struct Status {
    /// The number of steps that were taken, of all generations.
    pub steps: u32,
    /// The number of steps that can still be reported: 9 for each node are kept for settling.
    pub steps_left: u32,
    /// The number of messages in flight: sent and not received.
    pub in_flight: u32,
    /// No task is unfinished, no action is open and no message is in flight.
    pub is_quiet: bool,
}

/// The result of settling a pool.
#[repr(C)]
#[derive(Clone, Copy, Debug, PartialEq, Eq)]
pub struct Settled {
    /// 0: termination was detected. Else the number of the refusal, and nothing changed.
    pub refused: u32,
    /// The number of the wave by whose end the pool had terminated; 0 if the call was refused.
    pub wave: u32,
    /// The number of steps that were taken; 0 if the call was refused.
    pub steps: u32,
}

/// The result of writing a text to a buffer.
#[repr(C)]
#[derive(Clone, Copy, Debug, PartialEq, Eq)]
pub struct Written {
    /// 0: the text was written; 1: it was, and it says which line of a trace is invalid; 2: the trace is too long; 3:
    /// out of memory; 4: the buffer is shorter than the text; 5: there is no such text.
    pub outcome: u32,
    /// The length of the text in bytes; 0 if there is none.
    pub length: usize,
}

const _: () = prove!(size_of::<StepResult>() == 16 && size_of::<Counters>() == 16);

const _: () = prove!(size_of::<LeftTask>() == 16 && size_of::<Status>() == 16);

const _: () = prove!(size_of::<Written>() == 16 && size_of::<Settled>() == 12);
