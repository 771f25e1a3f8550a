//! The five counters of a monitor, and the limit of open actions.
use tp_base::MAX_STEPS;

/// The most actions that can be open at a node: one for each step of a pool, and the opening action.
pub const MAX_ACTIONS: u32 = MAX_STEPS + 1;

/// The counters of one pool at one node.
#[derive(Clone, Copy, Debug, PartialEq, Eq)]
pub struct MonitorNumbers {
    /// Unfinished tasks, at most 65,536.
    pub tasks: u32,
    /// Open actions, the opening one included: at most 1,048,577.
    pub actions: u32,
    /// 1 while the opening action is open, then 0.
    pub opening: u32,
    /// Messages sent, at most 1,048,576.
    pub sent: u32,
    /// Messages received, at most 1,048,576.
    pub received: u32,
}
