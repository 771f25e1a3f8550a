//! The state of a pool at a node.

/// The state of a pool at a node.
#[derive(Clone, Copy, Debug, PartialEq, Eq)]
pub enum TaskpoolState {
    /// The pool is not monitored here.
    NotMonitored,
    /// The opening action is open.
    NotReady,
    /// The opening action is closed, and a task is unfinished or an action is open.
    Busy,
    /// No task is unfinished and no action is open.
    Idle,
    /// Termination was announced.
    Terminated,
}
