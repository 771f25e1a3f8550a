//! Gates, with which a caller can stop a pool from outside.
use tp_base::{NodeId, TaskId};

/// A gate, which a pool's workers ask whether to continue. If it returns `false`, the pool ends with the fault
/// `Stalled`, which has the worker's number of idle turns in a row at that time.
pub trait Gate: Sync {
    /// Returns whether the body of a task may run. It is called before each body, while the worker holds no lock.
    fn before(&self, task: TaskId) -> bool;

    /// Returns whether a worker of a node may continue with its turn. It is called in each turn, while the worker holds
    /// that node's lock and no other.
    fn inside(&self, node: NodeId) -> bool;
}

/// The gate that always returns `true`.
#[derive(Clone, Copy, Debug)]
pub struct OpenGate;

impl Gate for OpenGate {
    fn before(&self, _task: TaskId) -> bool {
        true
    }

    fn inside(&self, _node: NodeId) -> bool {
        true
    }
}
