//! The numbers that identify nodes, tasks, actions, messages, generations and pools, and a task's number of inputs.
ghost use Rattle.std.specs.Prelude.{◌≡◌, ◌≤◌, ◌↔◌, IsSome, IfSome};

use crate::limits::MAX_INPUTS;

/// The number of a node.
#[derive(Clone, Copy, Debug, PartialEq, Eq, PartialOrd, Ord, Hash)]
pub struct NodeId(pub u32);

/// The number of a task.
#[derive(Clone, Copy, Debug, PartialEq, Eq, PartialOrd, Ord, Hash)]
pub struct TaskId(pub u32);

/// The number of a named action.
#[derive(Clone, Copy, Debug, PartialEq, Eq, PartialOrd, Ord, Hash)]
pub struct ActionId(pub u32);

/// The number of a message.
#[derive(Clone, Copy, Debug, PartialEq, Eq, PartialOrd, Ord, Hash)]
pub struct MessageId(pub u32);

/// The number of a generation of a pool, from 1: each reopening begins the next one.
#[derive(Clone, Copy, Debug, PartialEq, Eq, PartialOrd, Ord, Hash)]
pub struct Generation(pub u32);

/// The number of a pool.
#[derive(Clone, Copy, Debug, PartialEq, Eq, PartialOrd, Ord, Hash)]
pub struct PoolId(pub u32);

/// The number of inputs that a task waits for: 0 to 16.
#[derive(Clone, Copy, Debug, PartialEq, Eq)]
pub struct Inputs {
    pub(crate) count: u8,
}

impl Inputs {
    /// Returns this number of inputs, or `None` above 16.
    pub fn new(count: u8) -> Option<Inputs>
        ensures valid { IsSome result ↔ (count ≤ MAX_INPUTS) }
        ensures value { IfSome result (λ inputs. inputs.count ≡ count) }
    {
        if count <= MAX_INPUTS {
            Some(Inputs { count })
        } else {
            None
        }
    }

    /// Returns the number.
    pub fn get(self) -> u8
        ensures { result ≡ self.count }
    {
        self.count
    }
}
