//! The detector's control messages, which the processes send in addition to the program's own messages.

/// What a control message carries.
#[derive(Clone, Copy, Debug, PartialEq, Eq)]
pub enum Token {
    /// The wave goes down the tree, to a child.
    Down,
    /// The wave comes back up, from a child: the number of messages that the child and all processes below it had sent,
    /// and the number that they had received.
    Up(u64, u64),
    /// Termination was detected.
    Over,
}

/// A control message of a wave, from one process to another. The caller's transport carries it.
#[derive(Clone, Copy, Debug, PartialEq, Eq)]
pub struct ControlMessage {
    pub from: u64,
    pub to: u64,
    /// The wave's number, from 1.
    pub wave: u64,
    /// The number of processes, as the sender has it: a process that was opened with another number refuses the message.
    pub processes: u32,
    pub token: Token,
}
