//! The results of calls: what to do next, and why a call was refused.

use crate::control_message::ControlMessage;

/// What the process has to do next.
#[derive(Clone, Copy, Debug, PartialEq, Eq)]
pub enum Next {
    /// Send this control message, with the present epoch.
    Send(ControlMessage),
    /// Call `next` again, at once or after a pause: process 0 has just judged a wave.
    Again,
    /// Nothing: termination was detected, and the processes that this one has to notify were notified.
    Ended,
    /// Wait for a message or a control message, or until the process is idle.
    Nothing,
}

/// Why a call was refused. A refused call changes nothing.
#[derive(Clone, Copy, Debug, PartialEq, Eq)]
pub enum Refusal {
    /// No piece of work is open at the process.
    Inactive,
    /// A number is at its limit.
    Full,
    /// The control message is for another process, or of another wave, or the process has taken it before, or its sums
    /// would overflow.
    NotDue,
    /// The message or control message is of a later epoch: keep it, and pass it again after `reopen`.
    NotYet,
    /// The message or control message is of an older epoch.
    Late,
    /// The process does not know the end of this epoch, or has not notified all its children: `next` does not return
    /// `Ended` yet.
    NotEnded,
    /// The process is not open: no call of `new` returned it.
    NotOpen,
    /// There is no process of this number, or no process at all.
    NoProcess,
    /// Process 0 judges a wave that counts fewer messages as sent than the previous wave counted as received: a bug of
    /// the program, which sends messages uncounted, or counts receipts twice.
    Miscounted,
    /// The control message comes from a process that was opened with another number of processes: a bug of the program.
    Mismatched,
}
