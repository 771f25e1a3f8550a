//! Where nothing is pending at a node.

use std::alloc::{AllocError, Global};
use tp_base::NodeId;
use tp_core::NodeNumbers;

/// Nothing was pending at the node from one event to another.
#[derive(Clone, Copy, Debug, PartialEq, Eq)]
pub struct Pause {
    pub node: NodeId,
    pub from: u32,
    pub to: u32,
}

/// The pauses of the steps so far.
#[derive(Drop)]
pub struct Pauses {
    nodes: u32,
    // since when nothing is pending at a node
    since: [Option<u32>; 8],
    /// The pauses that have ended.
    pub ended: Vec<Pause>,
}

impl Pauses {
    /// Before the first step something is pending at each of 1 to 8 nodes.
    pub(crate) fn new(alloc: Global, nodes: u32) -> Pauses {
        Pauses {
            nodes: nodes.min(8),
            since: [None; 8],
            ended: Vec::new(alloc),
        }
    }

    /// Takes the counters of the nodes after an event; or none at the end of the trace, which ends all pauses.
    pub(crate) fn take(
        &mut self,
        numbers: Option<&[NodeNumbers; 8]>,
        event: u32,
    ) -> Result<(), AllocError> {
        for node in 0..self.nodes.min(8) {
            let at = node as usize;
            let pending = match numbers {
                Some(numbers) => numbers[at].pending,
                None => 1,
            };
            if pending == 0 {
                self.since[at] = self.since[at].or(Some(event));
            } else if let Some(from) = self.since[at] {
                self.since[at] = None;
                self.ended.push(Pause {
                    node: NodeId(node),
                    from,
                    to: event,
                })?;
            }
        }
        Ok(())
    }
}
